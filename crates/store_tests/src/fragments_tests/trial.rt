//! A store whose calls are made only where they may be made.
ghost use Rattle.std.specs.Prelude.{◌≡◌, ◌+◌, ◌<◌, ◌≤◌, length};
ghost use Rattle.regions.specs.Shapes.{shape, guards_of, held_count};
ghost use Rattle.fragments.specs.Store.{values_of};

use crate::pieces::piece;
use fragments::{Fragments, SetRefusal};
use std::alloc::{AllocError, Global};

// So many bytes, which differ by their place and by a number.
pub(super) fn letters(alloc: Global, len: usize, seed: usize) -> Result<Vec<u8>, AllocError> {
    let mut text = Vec::with_capacity(alloc, len)?;
    for at in 0..len {
        text.push(
            (at.wrapping_mul(31)
                .wrapping_add(at / 251)
                .wrapping_add(seed)
                % 251) as u8,
        )?;
    }
    Ok(text)
}

#[derive(Drop)]
pub(super) struct Trial {
    store: Fragments,
    names: u32,
    segments: u32,
    guards: u32,
    ghost named: { names ≡ length (values_of store) },
    ghost held: { segments ≡ held_count store.region },
    ghost guarded: { guards ≡ guards_of store.region 0 },
    ghost few: { guards ≤ 8 },
}

impl Trial {
    pub(super) fn new(alloc: Global, names: u32, segments: u32) -> Result<Trial, AllocError>
        requires names { names ≤ 1000 }
        requires segments { segments ≤ 64 }
    {
        let mut store = Fragments::new(alloc, names, 64)?;
        for number in 0..segments {
            store.add_segment(piece(alloc, number)?);
        }
        Ok(Trial {
            store,
            names,
            segments,
            guards: 0,
        })
    }

    // None where a guard stands.
    pub(super) fn put(&mut self, name: u32, bytes: &[u8]) -> Option<Result<(), SetRefusal>> {
        if self.guards > 0 || self.segments < 3 || name >= self.names {
            return None;
        }
        Some(self.store.put(name, bytes))
    }

    pub(super) fn erase(&mut self, name: u32) -> bool {
        self.store.erase(name)
    }

    pub(super) fn live(&self) -> u64 {
        self.store.live()
    }

    pub(super) fn guard(&mut self) -> bool {
        if self.guards >= 8 {
            return false;
        }
        self.store.facts();
        self.store.guard();
        self.guards += 1;
        true
    }

    pub(super) fn unguard(&mut self) -> bool {
        if self.guards == 0 {
            return false;
        }
        self.store.unguard();
        self.guards -= 1;
        true
    }

    pub(super) fn give_up(&mut self) -> bool {
        if self.guards > 0 || self.segments == 0 {
            return false;
        }
        self.segments -= 1;
        self.store.give_up().is_some()
    }

    // Whether the name has the value: by its pieces, by its length, and by the lengths that the pieces tell of what is left.
    pub(super) fn holds(&self, name: u32, value: Option<&[u8]>) -> bool {
        let Some(value) = value else {
            return self.store.len(name).is_none() && self.store.get(name).is_none();
        };
        let Some(pieces) = self.store.get(name) else {
            return false;
        };
        if pieces.bytes_left() as usize != value.len() {
            return false;
        }
        let mut rest = value;
        for piece in pieces {
            if !rest.starts_with(piece) {
                return false;
            }
            rest = &rest[piece.len()..];
        }
        rest.is_empty() && self.store.len(name) == Some(value.len() as u32)
    }
}
