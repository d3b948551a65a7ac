//! A store of values, whose calls are made only where they may be made.
ghost use Rattle.std.specs.Prelude.{◌≡◌, ◌-◌, ◌*◌, ◌<◌, ◌≤◌, ◌^◌, [], length};
ghost use Rattle.layout.specs.Sizes as sizes;
ghost use Rattle.regions.specs.Shapes.{shape, guards_of, held_count};
ghost use Rattle.fragments.specs.Store.{values_of};

use super::names::Draws;
use fragments::Fragments;
use layout::{SEGMENT, SEGMENT_PAGES};
use raw_range::Range;
use std::alloc::{AllocError, Global};

/// A store with three segments at least, and without a guard.
#[derive(Drop)]
pub struct Store {
    fragments: Fragments,
    names: u32,
    ghost some: { 1 ≤ names },
    ghost named: { names ≡ length (values_of fragments) },
    ghost held: { 3 ≤ held_count fragments.region },
    ghost guards: { guards_of fragments.region 0 ≡ 0 },
}

impl Store {
    /// Without values. Its segments are the pieces of one range, side by side.
    pub fn new(alloc: Global, names: u32, segments: u32) -> Result<Store, AllocError>
        requires some { 1 ≤ names }
        requires names { names < 2 ^ 32 - 1 }
        requires many { 3 ≤ segments }
        requires few { sizes.segment_pages * segments ≤ sizes.most_pages }
    {
        let mut range = Range::new(alloc, 0, segments * SEGMENT_PAGES)?;
        let mut fragments = Fragments::new(alloc, names, segments)?;
        add_segments(&mut fragments, &mut range, segments);
        Ok(Store { fragments, names })
    }

    /// Sets the value of a name, and answers how many bytes it has, or 0 where there is no room.
    fn put(&mut self, name: u32, value: &[u8]) -> usize {
        if name < self.names && self.fragments.put(name, value).is_ok() {
            value.len()
        } else {
            0
        }
    }

    /// Writes the pieces of a name's value into a buffer, and answers how many bytes, or 0 where it has none.
    fn get(&self, name: u32, buffer: &mut [u8]) -> usize {
        let Some(pieces) = self.fragments.get(name) else {
            return 0;
        };
        let mut filled = 0;
        for piece in pieces {
            if piece.len() > buffer.len() - filled {
                return filled;
            }
            buffer[filled..filled + piece.len()].copy_from_slice(piece);
            filled += piece.len();
        }
        filled
    }

    /// Sets the value of each name. How many names have one.
    pub fn set_all(&mut self, value: &[u8]) -> u32 {
        let mut set: u32 = 0;
        for name in 0..self.names {
            self.put(name, value);
            if self.fragments.len(name).is_some() {
                set = set.wrapping_add(1);
            }
        }
        set
    }

    /// Sets values so many times. How many bytes were set.
    pub fn put_some(&mut self, value: &[u8], times: u32) -> u64 {
        let mut draws = Draws::new();
        let mut moved: u64 = 0;
        for _ in 0..times {
            let put = self.put(draws.below(self.names), value);
            moved = moved.wrapping_add(put as u64);
        }
        moved
    }

    /// Writes values into a buffer so many times. How many bytes were written.
    pub fn get_some(&self, buffer: &mut [u8], times: u32) -> u64 {
        let mut draws = Draws::new();
        let mut moved: u64 = 0;
        for _ in 0..times {
            let got = self.get(draws.below(self.names), buffer);
            moved = moved.wrapping_add(got as u64);
        }
        moved
    }
}

/// Adds the pieces of a range to a store without segments.
fn add_segments(fragments: &mut Fragments, range: &mut Range, segments: u32)
    requires few { sizes.segment_pages * segments ≤ sizes.most_pages }
    requires none { held_count fragments.old.region ≡ 0 }
    requires most { (shape fragments.old.region).most ≡ segments }
    requires pages { range.old.pages ≡ sizes.segment_pages * segments }
    requires allocated { range.old.allocated ≡ [] }
    ensures held { held_count fragments.new.region ≡ segments }
    ensures values { values_of fragments.new ≡ values_of fragments.old }
    ensures guards { guards_of fragments.new.region 0 ≡ guards_of fragments.old.region 0 }
{
    for number in 0..segments {
        fragments.add_segment(range.take(number * SEGMENT, SEGMENT));
    }
}
