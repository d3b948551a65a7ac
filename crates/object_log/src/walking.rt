//! A walk over the objects of a segment.
ghost use Rattle.std.specs.Prelude.{◌≡◌, ◌≢◌, [], ◌∷◌};
ghost use Rattle.std.specs.Iterator.{YieldsFirst, item_count};
ghost use Rattle.std.specs.List.Sorted.{IsStrictlyIncreasing};
ghost use Rattle.object_log.specs.Objects.{objects, offsets, IsSegment};

use crate::descriptor::descriptor_in;
use std::marker::Model;

/// An iterator over the offsets of a segment's objects, live and dead, rising. A contract sees the
/// offsets that are still to come.
#[derive(Drop)]
pub struct Walk<'a> {
    segment: &'a [u8],
    at: u32,
    used: u32,
}

impl<'a> Model for Walk<'a> {
    ghost use Rattle.std.specs.Prelude.{◌≡◌, ℕ, ◌-◌, ◌≤◌, List, length};
    ghost use Rattle.layout.specs.Sizes as sizes;
    ghost use Rattle.object_log.specs.Objects.{objects_from, offsets, AreObjects};

    ghost Value = { List ℕ };

    ghost view = { λ w. offsets (objects_from (w.used - w.at) w.segment.now w.at w.used) };

    ghost invariant = { λ w. (length w.segment.now ≡ sizes.segment) × (w.used ≤ sizes.segment)
        × AreObjects w.segment.now w.at w.used (objects_from (w.used - w.at) w.segment.now w.at w.used) };
}

impl<'a> Walk<'a> {
    /// Over the objects up to `used`.
    pub fn new(segment: &'a [u8], used: u32) -> Walk<'a>
        requires { IsSegment segment.now used }
        ensures all { result ≡ offsets (objects segment.now used) }
        ensures rising { IsStrictlyIncreasing result }
    {
        Walk {
            segment,
            at: 0,
            used,
        }
    }
}

impl<'a> Iterator for Walk<'a> {
    type Item = u32;

    ghost next_gives = { YieldsFirst (λ rest. rest) };

    ghost remaining = { item_count (λ rest. rest) };

    fn next(&mut self) -> Option<u32> {
        if self.at == self.used {
            return None;
        }
        Some(self.step())
    }
}

impl<'a> Walk<'a> {
    // Goes to the end of the object where it stands, and answers where that began.
    fn step(&mut self) -> u32
        requires { self.old ≢ [] }
        ensures { self.old ≡ result ∷ self.new }
    {
        let at = self.at;
        self.at += descriptor_in(self.segment, at as usize).size;
        at
    }
}
