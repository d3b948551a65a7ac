//! Lists of indices through arrays, linked both ways.
ghost use Rattle.std.specs.Prelude.{
  ◌≡◌,
  ◌+◌,
  ◌-◌,
  ◌<◌,
  ◌≤◌,
  ◌^◌,
  ◌∷◌,
  [],
  length,
  replicate,
  slice_index,
  slice_set,
  slice_get,
  IfOk,
  Some,
  None,
  Ok,
};
ghost use Rattle.std.specs.List.{last_or};
ghost use Rattle.common_lemmas.specs.Lists.{times, delete};
ghost use Rattle.index_lists.specs.Lists.{list_at, after, before, with_list, IsAbsent};
ghost use Rattle.index_lists.specs.inside.Links.{number, with_link};

use crate::links::Links;
use std::alloc::{AllocError, Global};
use std::marker::Model;

/// Lists of indices. A list is named by its number.
#[derive(Drop)]
pub struct IndexLists {
    indices: u32,
    // of each index in a list, and of each list behind the indices, the index after it
    next: Links,
    // and the index before it
    prev: Links,
    lengths: Vec<u32>,
}

impl Model for IndexLists {
    ghost use Rattle.index_lists.specs.Lists.{Lists};
    ghost use Rattle.index_lists.specs.inside.Links.{rings_from, AreLinked};

    ghost Value = { Lists };

    ghost view = { λ a. record { indices = a.indices; lists = rings_from a.indices a.next.links a.lengths.items } };

    ghost invariant = { λ a. AreLinked a.indices a.next a.prev a.lengths.items
        (rings_from a.indices a.next.links a.lengths.items) };
}

impl IndexLists {
    /// So many empty lists of indices below a number.
    ///
    /// # Errors
    /// Want of memory.
    pub fn new(alloc: Global, indices: u32, lists: u32) -> Result<IndexLists, AllocError>
        requires { indices + lists < 2 ^ 32 }
        ensures { IfOk result (λ made. made ≡ record { indices = indices; lists = replicate lists [] }) }
    {
        let next = Links::new(alloc, indices, lists)?;
        let prev = Links::new(alloc, indices, lists)?;
        let lengths = zeros(alloc, lists)?;
        Ok(IndexLists {
            indices,
            next,
            prev,
            lengths,
        })
    }

    /// How many indices the list has.
    pub fn len(&self, list: u32) -> u32
        requires { list < length self.now.lists }
        ensures { result ≡ length (list_at self.now list) }
    {
        self.lengths[list as usize]
    }

    /// The index at the front of the list.
    pub fn front(&self, list: u32) -> Option<u32>
        requires { list < length self.now.lists }
        ensures { result ≡ slice_get (list_at self.now list) 0 }
    {
        self.next.index_at(self.next.get(list), list)
    }

    /// The index at the back of the list.
    pub fn back(&self, list: u32) -> Option<u32>
        requires { list < length self.now.lists }
        ensures { result ≡ last_or None (list_at self.now list) }
    {
        self.prev.index_at(self.prev.get(list), list)
    }

    /// The index behind one that the list has, toward the back.
    pub fn next(&self, list: u32, index: u32) -> Option<u32>
        requires list { list < length self.now.lists }
        requires held { 1 ≤ times index (list_at self.now list) }
        ensures { result ≡ after index (list_at self.now list) }
    {
        let place = self.next.place_of(index);
        self.next.index_at(self.next.get(place), list)
    }

    /// The index before one that the list has, toward the front.
    pub fn prev(&self, list: u32, index: u32) -> Option<u32>
        requires list { list < length self.now.lists }
        requires held { 1 ≤ times index (list_at self.now list) }
        ensures { result ≡ before index (list_at self.now list) }
    {
        let place = self.prev.place_of(index);
        self.prev.index_at(self.prev.get(place), list)
    }

    /// Puts an index that is on no list in front of one.
    pub fn push_front(&mut self, list: u32, index: u32)
        requires list { list < length self.old.lists }
        requires index { index < self.old.indices }
        requires absent { IsAbsent self.old index }
        ensures { self.new ≡ with_list self.old list (index ∷ list_at self.old list) }
    {
        self.next.reach(index + 1);
        self.prev.reach(index + 1);
        let place = self.next.place_of(index);
        let first = self.next.get(list);
        self.next.set(place, first);
        self.prev.set(first, place);
        self.next.set(list, place);
        self.prev.set(place, list);
        self.lengths[list as usize] += 1;
    }

    /// Takes an index that the list has out of it.
    pub fn remove(&mut self, list: u32, index: u32)
        requires list { list < length self.old.lists }
        requires held { 1 ≤ times index (list_at self.old list) }
        ensures { self.new ≡ with_list self.old list (delete index (list_at self.old list)) }
    {
        let place = self.next.place_of(index);
        let after = self.next.get(place);
        let before = self.prev.get(place);
        link(&mut self.next, &mut self.prev, before, after);
        decrement(&mut self.lengths, list);
    }
}

/// Lets one place come after another, both ways.
fn link(next: &mut Links, prev: &mut Links, before: u32, after: u32)
    requires before { before < next.old.lists + next.old.written }
    requires after { after < prev.old.lists + prev.old.written }
    ensures next { next.new ≡ with_link next.old (number next.old before) (number next.old after) }
    ensures prev { prev.new ≡ with_link prev.old (number prev.old after) (number prev.old before) }
{
    next.set(before, after);
    prev.set(after, before);
}

/// Counts one less.
fn decrement(lengths: &mut Vec<u32>, list: u32)
    requires within { list < length lengths.old.items }
    requires some { 1 ≤ slice_index lengths.old.items list }
    ensures { lengths.new.items ≡ slice_set lengths.old.items list (slice_index lengths.old.items list - 1) }
{
    lengths[list as usize] -= 1;
}

fn zeros(alloc: Global, len: u32) -> Result<Vec<u32>, AllocError>
    ensures { IfOk result (λ lengths. lengths.items ≡ replicate len 0) }
{
    vec![in alloc; 0; len as usize]
}
