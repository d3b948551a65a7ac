//! Tables that are reserved whole and written in part.
ghost use Rattle.std.specs.Prelude.{
  ◌≡◌,
  ◌+◌,
  ◌-◌,
  ◌<◌,
  ◌≤◌,
  ◌∷◌,
  [],
  ◌++◌,
  length,
  replicate,
  slice_index_or,
  vec_len,
  vec_capacity,
  IfOk,
};
ghost use Rattle.index_lists.specs.Table.{with_entry, reaching};

use std::alloc::{AllocError, Global};
use std::marker::Model;

/// A table of so many entries, all alike at first.
///
/// Its memory is reserved when it is made, and an entry is written when it, or one behind it, is set for the first time. Entries that
/// the caller knows to be written are read and set with no look at how many are.
#[derive(Drop)]
pub struct LazyTable<T> {
    // the entries that are written, from the first one on
    written: Vec<T>,
    len: u32,
    // each entry behind them
    rest: T,
}

impl<T> Model for LazyTable<T> {
    ghost use Rattle.std.specs.Prelude.{◌≤◌, length, vec_capacity};
    ghost use Rattle.index_lists.specs.Table.{Table};

    ghost Value = { Table T };

    ghost use Rattle.index_lists.specs.inside.Entries.{table_of};

    ghost view = { λ t. table_of t.written.items t.len t.rest };

    ghost invariant = { λ t. (length t.written.items ≤ t.len) × (t.len ≤ vec_capacity t.written) };
}

impl<T: Copy> LazyTable<T> {
    /// So many entries, of which none is written.
    ///
    /// # Errors
    /// Want of memory.
    pub fn new(alloc: Global, len: u32, rest: T) -> Result<LazyTable<T>, AllocError>
        ensures entries { IfOk result (λ table. table.entries ≡ replicate len rest) }
        ensures written { IfOk result (λ table. table.written ≡ 0) }
    {
        let written = Vec::with_capacity(alloc, len as usize)?;
        Ok(LazyTable { written, len, rest })
    }

    /// How many entries there are, written or not.
    #[inline]
    pub fn len(&self) -> u32
        ensures { result ≡ length self.now.entries }
    {
        self.len
    }

    /// The entry at a place.
    #[inline]
    pub fn get(&self, at: u32) -> T
        requires { at < length self.now.entries }
        ensures { result ≡ slice_index_or self.now.entries at result }
    {
        if (at as usize) < self.written.len() {
            return self.written[at as usize];
        }
        self.rest
    }

    /// Sets the entry at a place.
    ///
    /// It takes no memory. Where the place is behind the entries that are written, it writes each one up to the place, so that
    /// all calls together write an entry once more than it is set.
    #[inline]
    pub fn set(&mut self, at: u32, value: T)
        requires { at < length self.old.entries }
        ensures { self.new ≡ with_entry (reaching self.old (at + 1)) at value }
    {
        if (at as usize) < self.written.len() {
            self.written[at as usize] = value;
        } else {
            write_behind(&mut self.written, at, self.rest, value);
        }
    }

    /// Writes each entry below a number that is not written yet. It takes no memory.
    #[inline]
    pub fn reach(&mut self, end: u32)
        requires { end ≤ length self.old.entries }
        ensures { self.new ≡ reaching self.old end }
    {
        if self.written.len() < end as usize {
            write_alike(&mut self.written, end as usize, self.rest);
        }
    }

    /// An entry that is written.
    #[inline]
    pub fn get_written(&self, at: u32) -> T
        requires { at < self.now.written }
        ensures { result ≡ slice_index_or self.now.entries at result }
    {
        self.written[at as usize]
    }

    /// Sets an entry that is written.
    #[inline]
    pub fn set_written(&mut self, at: u32, value: T)
        requires { at < self.old.written }
        ensures { self.new ≡ with_entry self.old at value }
    {
        self.written[at as usize] = value;
    }
}

/// Writes entries that are alike up to a place, and one at it.
#[inline(never)]
fn write_behind<T: Copy>(written: &mut Vec<T>, at: u32, rest: T, value: T)
    requires behind { vec_len written.old ≤ at }
    requires room { at < vec_capacity written.old }
    ensures items { written.new.items ≡ written.old.items ++ replicate (at - length written.old.items) rest ++ value ∷ [] }
    ensures capacity { vec_capacity written.new ≡ vec_capacity written.old }
{
    write_alike(written, at as usize, rest);
    written.push_reserved(value);
}

/// Writes entries that are alike up to a place.
#[inline(never)]
fn write_alike<T: Copy>(written: &mut Vec<T>, to: usize, rest: T)
    requires behind { vec_len written.old ≤ to }
    requires room { to ≤ vec_capacity written.old }
    ensures items { written.new.items ≡ written.old.items ++ replicate (to - length written.old.items) rest }
    ensures len { vec_len written.new ≡ to }
    ensures capacity { vec_capacity written.new ≡ vec_capacity written.old }
{
    for _ in written.len()..to {
        written.push_reserved(rest);
    }
}
