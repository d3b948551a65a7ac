//! A dirty region whose calls are made in any order: a put that is none changes nothing.
ghost use Rattle.std.specs.Prelude.{◌≡◌, ◌≤◌, length, true};
ghost use Rattle.layout.specs.Sizes as sizes;
ghost use Rattle.regions.specs.Shapes.{shape, held_count};

use crate::pieces::piece;
use dirty_region::{Dirty, DirtyRefusal};
use layout::{GREATEST_KEY, GREATEST_VALUE, MOST_SEGMENTS};
use outside::{Failed, MemorySink};
use raw_range::Piece;
use std::alloc::{AllocError, Global};

/// A dirty region of three segments or more.
#[derive(Drop)]
pub(crate) struct Trial {
    dirty: Dirty,
    count: u32,
    ghost held: { held_count dirty.region ≡ count },
    ghost some: { 3 ≤ count },
    ghost most: { (shape dirty.region).most ≡ sizes.most_segments },
}

fn is_put(key: &[u8], value: &[u8]) -> bool
    ensures { result ≡ true
        → (1 ≤ length key.now) × (length key.now ≤ sizes.greatest_key) × (length value.now ≤ sizes.greatest_value) }
{
    !key.is_empty() && key.len() <= GREATEST_KEY && value.len() <= GREATEST_VALUE
}

/// What a put answered.
#[derive(Clone, Copy, Debug, PartialEq, Eq)]
pub(crate) enum Answer {
    Taken,
    TooMany,
    NoRoom,
    /// The key or the value is none of a trace.
    NoPut,
}

impl Trial {
    /// Room for so many puts, and so many segments, or three where they are fewer.
    pub(crate) fn new(alloc: Global, rows: u32, segments: u32) -> Result<Trial, AllocError> {
        let first = piece(alloc, 0)?;
        let second = piece(alloc, 1)?;
        let third = piece(alloc, 2)?;
        let mut dirty = Dirty::new(alloc, rows, MOST_SEGMENTS)?;
        dirty.add_segment(first);
        dirty.add_segment(second);
        dirty.add_segment(third);
        let mut trial = Trial { dirty, count: 3 };
        for owner in 3..segments {
            trial.add(piece(alloc, owner)?);
        }
        Ok(trial)
    }

    fn add(&mut self, piece: Piece)
        requires { length piece.bytes ≡ sizes.segment }
    {
        if self.count < MOST_SEGMENTS {
            self.dirty.add_segment(piece);
            self.count += 1;
        }
    }

    pub(crate) fn put(&mut self, key: &[u8], value: &[u8], number: u32) -> Answer {
        if !is_put(key, value) {
            return Answer::NoPut;
        }
        match self.dirty.put(key, value, number) {
            Ok(()) => Answer::Taken,
            Err(DirtyRefusal::TooMany) => Answer::TooMany,
            Err(DirtyRefusal::NoRoom) => Answer::NoRoom,
        }
    }

    pub(crate) fn newest(&self, key: &[u8]) -> Option<&[u8]> {
        self.dirty.newest(key)
    }

    pub(crate) fn flush_one(&mut self, sink: &mut MemorySink) -> Result<Option<u32>, Failed> {
        self.dirty.flush_one(sink)
    }

    /// How many puts are held, and the live bytes.
    pub(crate) fn size(&self) -> (u32, u64) {
        (self.dirty.len(), self.dirty.live())
    }

    /// How many segments are given up, one after the other.
    pub(crate) fn give_up(mut self) -> u32 {
        let mut given = 0u32;
        for _ in 0..2049 {
            if self.dirty.give_up().is_none() {
                break;
            }
            given = given.saturating_add(1);
        }
        given
    }
}
