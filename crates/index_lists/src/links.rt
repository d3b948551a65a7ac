//! The links of indices and of lists, one way.
ghost use Rattle.std.specs.Prelude.{◌≡◌, ◌⊎◌, ◌+◌, ◌<◌, ◌≤◌, ◌^◌, ◌++◌, length, replicate, slice_index, IfOk};
ghost use Rattle.std.specs.List.{range_with_len};
ghost use Rattle.index_lists.specs.inside.Links.{number_of, number, with_link, reaching, leads_to};

use crate::table::LazyTable;
use std::alloc::{AllocError, Global};
use std::marker::Model;

/// A link of each index, and behind them one of each list.
///
/// A link leads to a place in memory, where those of lists stand in front: they are written at once. An index that was never in a
/// list leads anywhere, so the links of indices are written as far as the callers say.
#[derive(Drop)]
pub struct Links {
    links: LazyTable<u32>,
    lists: u32,
    indices: u32,
}

impl Model for Links {
    ghost use Rattle.std.specs.Prelude.{◌≡◌, ◌+◌, ◌-◌, ◌<◌, ◌≤◌, ◌^◌, length};
    ghost use Rattle.index_lists.specs.inside.Links.{OneWay, numbered};

    ghost Value = { OneWay };

    ghost view = { λ l. record {
      links = numbered l.lists l.indices l.links.entries;
      lists = l.lists;
      indices = l.indices;
      written = l.links.written - l.lists;
    } };

    ghost invariant = { λ l. (length l.links.entries ≡ l.lists + l.indices) × (l.lists + l.indices < 2 ^ 32)
        × (l.lists ≤ l.links.written) × (l.links.written ≤ l.lists + l.indices) };
}

impl Links {
    /// Links of which each list's leads to itself.
    pub fn new(alloc: Global, indices: u32, lists: u32) -> Result<Links, AllocError>
        requires { indices + lists < 2 ^ 32 }
        ensures links { IfOk result (λ made. made.links ≡ replicate indices (number_of lists indices 0)
            ++ range_with_len indices lists) }
        ensures lists { IfOk result (λ made. made.lists ≡ lists) }
        ensures indices { IfOk result (λ made. made.indices ≡ indices) }
    {
        let mut links = LazyTable::new(alloc, lists + indices, 0)?;
        for list in 0..lists {
            links.set(list, list);
        }
        Ok(Links {
            links,
            lists,
            indices,
        })
    }

    /// Writes the link of each index below a number that is not written yet.
    #[inline]
    pub fn reach(&mut self, end: u32)
        requires { end ≤ self.old.indices }
        ensures { self.new ≡ reaching self.old end }
    {
        self.links.reach(self.lists + end);
    }

    /// The place of an index.
    #[inline]
    pub fn place_of(&self, index: u32) -> u32
        requires { index < self.now.indices }
        ensures place { result ≡ self.now.lists + index }
        ensures number { number self.now result ≡ index }
    {
        self.lists + index
    }

    /// The index at a place, and none where that is a list's.
    #[inline]
    pub fn index_at(&self, place: u32, list: u32) -> Option<u32>
        requires list { list < self.now.lists }
        requires ring { (number self.now place < self.now.indices) ⊎ (number self.now place ≡ self.now.indices + list) }
        ensures { result ≡ leads_to (self.now.indices + list) (number self.now place) }
    {
        if place == list {
            return None;
        }
        Some(place - self.lists)
    }

    /// The place that the link at a place leads to.
    #[inline]
    pub fn get(&self, place: u32) -> u32
        requires { place < self.now.lists + self.now.written }
        ensures { number self.now result ≡ slice_index self.now.links (number self.now place) }
    {
        self.links.get_written(place)
    }

    /// Lets the link at a place lead to another.
    #[inline]
    pub fn set(&mut self, place: u32, to: u32)
        requires { place < self.old.lists + self.old.written }
        ensures { self.new ≡ with_link self.old (number self.old place) (number self.old to) }
    {
        self.links.set_written(place, to);
    }
}
