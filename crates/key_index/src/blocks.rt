//! Blocks of entries, in the room that is reserved for all of them at once.
ghost use Rattle.std.specs.Prelude.{◌≡◌, ℕ, ◌+◌, ◌<◌, ◌≤◌, ◌++◌, ◌∷◌, [], length, take, drop, slice_index_or, slice_set};
ghost use Rattle.std.specs.Prelude.{vec_len, vec_capacity, All, IfOk};
ghost use Rattle.key_index.specs.Lead.{rows_of, IsLed};
ghost use Rattle.key_index.specs.inside.Sizes.{block_room, half_block};
ghost use Rattle.key_index.specs.inside.Blocks.{entries_of, entries_at, front, lens_of};
ghost use Rattle.key_index.specs.inside.Stock.{AreStocked, standing};
ghost use Rattle.std.specs.List.{insert, remove};

use crate::copies::{close_up, copied, put_in, write_behind};
use crate::entries::{Entry, NONE, refresh};
use crate::keys::Keys;
use crate::place::Place;
use std::alloc::{AllocError, Global};
use std::marker::Model;

/// How many entries a block has at most.
pub(crate) const BLOCK: usize = 256;

/// How many entries two neighbours have more than, together.
pub(crate) const HALF: usize = 128;

/// Where a block stands, and how many entries it has.
#[derive(Clone, Copy)]
pub(crate) struct Slot {
    pub(crate) at: u32,
    pub(crate) len: u32,
}

/// Blocks in order.
///
/// The room of all of them is one vector, which is reserved when they are made. A page of it is touched when a block
/// first comes to stand there. A block that goes out of use leaves its place to the next that comes into use.
#[derive(Drop)]
pub(crate) struct Blocks {
    // the room of each block that ever came into use
    store: Vec<[Entry; BLOCK]>,
    order: Vec<Slot>,
    // where in the store no block stands
    free: Vec<u32>,
    most: u32,
}

impl Model for Blocks {
    ghost use Rattle.key_index.specs.inside.Stock.{Stock, AreHeld, standing};
    ghost use Rattle.std.specs.Prelude.{vec_capacity};

    ghost Value = { Stock };

    ghost view = { λ b. record { contents = standing b.store.items b.order.items; most = b.most } };

    ghost invariant = { λ b. AreHeld b.store.items b.order.items b.free.items b.most
        (vec_capacity b.store) (vec_capacity b.order) (vec_capacity b.free) };
}

/// Takes a place for a block that comes into use.
fn take_place(free: &mut Vec<u32>) -> u32
    requires { 0 < vec_len free.old }
    ensures places { free.old.items ≡ free.new.items ++ result ∷ [] }
    ensures capacity { vec_capacity free.new ≡ vec_capacity free.old }
{
    free.pop().unwrap()
}

/// Gives the place of a block back that goes out of use.
fn give_back(free: &mut Vec<u32>, place: u32)
    requires { vec_len free.old < vec_capacity free.old }
    ensures places { free.new.items ≡ free.old.items ++ place ∷ [] }
    ensures capacity { vec_capacity free.old ≤ vec_capacity free.new }
{
    free.push(place).unwrap();
}

/// Sees to it that a place is free: if none is, the store grows by one.
fn make_place(store: &mut Vec<[Entry; BLOCK]>, order: &[Slot], free: &mut Vec<u32>, most: u32)
    requires stocked { AreStocked store.old.items order.now free.old.items }
    requires room { length order.now < most }
    requires store { most ≤ vec_capacity store.old }
    requires free { most ≤ vec_capacity free.old }
    ensures stocked { AreStocked store.new.items order.now free.new.items }
    ensures same { standing store.new.items order.now ≡ standing store.old.items order.now }
    ensures some { 0 < vec_len free.new }
    ensures within { length store.old.items ≤ most → length store.new.items ≤ most }
    ensures store { most ≤ vec_capacity store.new }
    ensures free { most ≤ vec_capacity free.new }
{
    if free.is_empty() {
        let place = store.len() as u32;
        store.push([NONE; BLOCK]).unwrap();
        give_back(free, place);
    }
}

impl Blocks {
    /// No blocks, and room for so many.
    pub(crate) fn new(alloc: Global, most: u32) -> Result<Blocks, AllocError>
        ensures { IfOk result (λ made. made ≡ record { contents = []; most = most }) }
    {
        let store = Vec::with_capacity(alloc, most as usize)?;
        let order = Vec::with_capacity(alloc, most as usize)?;
        let free = Vec::with_capacity(alloc, most as usize)?;
        Ok(Blocks {
            store,
            order,
            free,
            most,
        })
    }

    /// How many blocks there are.
    #[inline(always)]
    pub(crate) fn len(&self) -> usize
        ensures { result ≡ length self.now.contents }
    {
        self.order.len()
    }

    /// The entries of a block.
    #[inline(always)]
    pub(crate) fn entries(&self, at: usize) -> &[Entry]
        requires { at < length self.now.contents }
        ensures is { result.now ≡ entries_at self.now.contents at }
        ensures few { length result.now ≤ block_room }
    {
        let slot = self.order[at];
        &self.store[slot.at as usize][..slot.len as usize]
    }

    /// The first entry of a block.
    #[inline(always)]
    pub(crate) fn first(&self, at: usize) -> Entry
        requires block { at < length self.now.contents }
        requires some { 0 < length (entries_at self.now.contents at) }
        ensures { result ≡ slice_index_or (entries_at self.now.contents at) 0 result }
    {
        self.entries(at)[0]
    }

    /// Takes a block into use before all others. It has no entry yet.
    pub(crate) fn open_first(&mut self)
        requires room { length self.old.contents < self.old.most }
        ensures contents { self.new.contents ≡ [] ∷ self.old.contents }
        ensures most { self.new.most ≡ self.old.most }
    {
        make_place(
            &mut self.store,
            self.order.as_slice(),
            &mut self.free,
            self.most,
        );
        let place = take_place(&mut self.free);
        self.order.insert(0, Slot { at: place, len: 0 }).unwrap();
    }

    /// Takes a block into use behind another, and answers which it is. It has no entry yet.
    pub(crate) fn open_behind(&mut self, at: usize) -> usize
        requires at { at < length self.old.contents }
        requires room { length self.old.contents < self.old.most }
        ensures is { result ≡ at + 1 }
        ensures contents { self.new.contents ≡ insert self.old.contents (at + 1) [] }
        ensures most { self.new.most ≡ self.old.most }
    {
        make_place(
            &mut self.store,
            self.order.as_slice(),
            &mut self.free,
            self.most,
        );
        let place = take_place(&mut self.free);
        let behind = at + 1;
        self.order
            .insert(behind, Slot { at: place, len: 0 })
            .unwrap();
        behind
    }

    /// Takes a block out of use.
    pub(crate) fn close(&mut self, at: usize)
        requires { at < length self.old.contents }
        ensures contents { self.new.contents ≡ remove self.old.contents at }
        ensures most { self.new.most ≡ self.old.most }
    {
        let slot = self.order.remove(at);
        give_back(&mut self.free, slot.at);
    }

    /// Puts an entry at a place of a block that has room.
    pub(crate) fn put(&mut self, place: Place, entry: Entry)
        requires block { place.block < length self.old.contents }
        requires at { place.at ≤ length (entries_at self.old.contents place.block) }
        requires room { length (entries_at self.old.contents place.block) < block_room }
        ensures contents { self.new.contents
            ≡ slice_set self.old.contents place.block (insert (entries_at self.old.contents place.block) place.at entry) }
        ensures most { self.new.most ≡ self.old.most }
    {
        let slot = self.order[place.block];
        put_in(
            self.store[slot.at as usize].as_mut_slice(),
            slot.len as usize,
            place.at,
            entry,
        );
        self.order[place.block] = Slot {
            at: slot.at,
            len: slot.len + 1,
        };
    }

    /// Takes the entry at a place out of its block.
    pub(crate) fn drop_entry(&mut self, place: Place)
        requires block { place.block < length self.old.contents }
        requires at { place.at < length (entries_at self.old.contents place.block) }
        ensures contents { self.new.contents
            ≡ slice_set self.old.contents place.block (remove (entries_at self.old.contents place.block) place.at) }
        ensures most { self.new.most ≡ self.old.most }
    {
        let slot = self.order[place.block];
        close_up(
            self.store[slot.at as usize].as_mut_slice(),
            slot.len as usize,
            place.at,
        );
        self.order[place.block] = Slot {
            at: slot.at,
            len: slot.len - 1,
        };
    }

    /// Puts the entries of a block, from a place on, behind those of another too.
    pub(crate) fn append(&mut self, target: usize, source: usize, from: usize)
        requires target { target < length self.old.contents }
        requires source { source < length self.old.contents }
        requires from { from ≤ length (entries_at self.old.contents source) }
        requires few { length (entries_at self.old.contents source) ≤ from + half_block }
        requires room { length (entries_at self.old.contents target) + length (entries_at self.old.contents source) ≤ from + block_room }
        ensures contents { self.new.contents ≡ slice_set self.old.contents target
            (entries_at self.old.contents target ++ drop from (entries_at self.old.contents source)) }
        ensures most { self.new.most ≡ self.old.most }
    {
        let entries = self.entries(source);
        let count = entries.len() - from;
        let part = copied(entries, from, count);
        let slot = self.order[target];
        write_behind(
            self.store[slot.at as usize].as_mut_slice(),
            slot.len as usize,
            &part[..count],
        );
        self.order[target] = Slot {
            at: slot.at,
            len: slot.len + count as u32,
        };
    }

    /// Leaves a block its first so many entries.
    pub(crate) fn shorten(&mut self, at: usize, len: usize)
        requires at { at < length self.old.contents }
        requires len { len ≤ length (entries_at self.old.contents at) }
        ensures contents { self.new.contents ≡ slice_set self.old.contents at (take len (entries_at self.old.contents at)) }
        ensures most { self.new.most ≡ self.old.most }
    {
        let slot = self.order[at];
        self.order[at] = Slot {
            at: slot.at,
            len: len as u32,
        };
    }

    /// Takes all blocks out of use.
    pub(crate) fn clear(&mut self)
        ensures contents { self.new.contents ≡ [] }
        ensures most { self.new.most ≡ self.old.most }
    {
        while self.len() > 0 {
            self.close(self.len() - 1);
        }
    }

    /// Reads the leads of a full block anew, where its keys share many more bytes than its entries skip.
    pub(crate) fn sharpen<K: Keys>(&mut self, keys: &K, at: usize)
        // A block of keys that can be read.
        requires block { at < length self.old.contents }
        requires readable { All (λ entry. K.has_row keys.now entry.row) (entries_of self.old.contents) }
        requires leads { All (IsLed (K.key_of keys.now)) (entries_of self.old.contents) }
        // The order is as it was.
        ensures rows { rows_of (entries_of self.new.contents) ≡ rows_of (entries_of self.old.contents) }
        ensures front { (j : ℕ) → front self.new.contents at j ≡ front self.old.contents at j }
        // Beside each stand eight bytes of its key.
        ensures leads { All (IsLed (K.key_of keys.now)) (entries_of self.new.contents) }
        // The blocks are as many, and as long as before.
        ensures lens { lens_of self.new.contents ≡ lens_of self.old.contents }
        ensures most { self.new.most ≡ self.old.most }
    {
        let slot = self.order[at];
        if (slot.len as usize) < BLOCK {
            return;
        }
        refresh(self.store[slot.at as usize].as_mut_slice(), keys);
    }
}
