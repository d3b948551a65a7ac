//! Guesses where a key stands.
//!
//! A guess may be any number: a search compares the keys where it points, and halves on where it was wrong. So nothing
//! is proved of a guess but that it is made without a fault and takes no memory.
ghost use Rattle.std.specs.Prelude.{◌≡◌, ℕ, ◌+◌, ◌*◌, ◌<◌, ◌≤◌, length, slice_index_or, All};
ghost use Rattle.layout.specs.Sizes.{tables};
ghost use Rattle.key_index.specs.inside.Blocks.{entries_of, entries_at};

use crate::blocks::{BLOCK, Blocks};
use crate::entries::{Entry, shared_by, sought_behind};
use crate::keys::Keys;
use crate::place::Place;
use rows::Key;
use std::alloc::{AllocError, Global};

/// Where a search that has come down to places from a lower to a higher one looks next: at a guess or just before it,
/// and where neither is one of them in the middle.
#[inline(always)]
pub(crate) fn probe(low: usize, high: usize, guess: usize) -> usize
    requires { low < high }
    ensures from { low ≤ result }
    ensures upto { result < high }
{
    if low <= guess && guess < high {
        return guess;
    }
    if low < guess && guess <= high {
        return guess - 1;
    }
    low + (high - low) / 2
}

/// Whether the lead at a place is below one, as a number.
#[inline(always)]
fn passed(entries: &[Entry], at: usize, lead: u64) -> usize
    requires { at < length entries.now }
    ensures { result ≤ 1 }
{
    usize::from(entries[at].lead < lead)
}

/// How many leads at seven places so far apart are below one.
#[inline(always)]
fn passed_of_seven(entries: &[Entry], from: usize, step: usize, lead: u64) -> usize
    requires { from + 7 * step < length entries.now }
    ensures { result ≤ 7 }
{
    passed(entries, from + step, lead)
        + passed(entries, from + 2 * step, lead)
        + passed(entries, from + 3 * step, lead)
        + passed(entries, from + 4 * step, lead)
        + passed(entries, from + 5 * step, lead)
        + passed(entries, from + 6 * step, lead)
        + passed(entries, from + 7 * step, lead)
}

/// How many entries have leads below one, if all leads are of the same bytes. Each step looks at places that do not
/// depend on one another, so that their entries come from memory together.
pub(crate) fn guess_in(entries: &[Entry], lead: u64) -> usize {
    let len = entries.len();
    if len < 64 || len > BLOCK {
        return len / 2;
    }
    let step = (len + 7) / 8;
    let far = (step * passed_of_seven(entries, 0, step, lead)).min(len - 32);
    let near = far + 4 * passed_of_seven(entries, far, 4, lead);
    near + passed(entries, near, lead)
        + passed(entries, near + 1, lead)
        + passed(entries, near + 2, lead)
        + passed(entries, near + 3, lead)
}

/// The lead of the first key of each block, behind bytes that all keys were seen to share.
///
/// A hint is put in where a block comes into use, written anew where an entry is put before the others of a block, and
/// goes with its block. It stays as it is where the first entry of a block is taken out, when no keys are at hand. All
/// are read anew after as many blocks have come into use as there were, and where the first keys of the first and the
/// last block share fewer bytes than the hints skip.
#[derive(Drop)]
pub(crate) struct Hints {
    leads: Vec<u64>,
    skip: u32,
    // after how many more blocks all are read anew
    left: usize,
}

impl Hints {
    /// No hints, and room for so many.
    pub(crate) fn new(alloc: Global, room: usize) -> Result<Hints, AllocError> {
        let leads = Vec::with_capacity(alloc, room)?;
        Ok(Hints {
            leads,
            skip: 0,
            left: 0,
        })
    }

    /// How many blocks begin with keys at or below a key, by the hints. Where several hints are the key's lead they
    /// tell nothing, and the answer is no number of blocks.
    pub(crate) fn guess(&self, key: &Key<'_>) -> usize
        requires { key.now.table < tables }
    {
        let lead = sought_behind(key, self.skip).lead;
        let count = count_upto(self.leads.as_slice(), lead);
        if count >= 2 && count <= self.leads.len() && self.leads[count - 2] == lead {
            return usize::MAX;
        }
        count
    }

    /// Notes that an entry was put in at a place, and where there are more blocks than before, that one has come into
    /// use.
    pub(crate) fn keep<K: Keys>(
        &mut self,
        keys: &K,
        blocks: &Blocks,
        place: Place,
        before: usize,
        begun: usize,
    )
        requires place { place.block < length blocks.now.contents }
        requires begun { begun ≤ before }
        requires readable { All (λ entry. K.has_row keys.now entry.row) (entries_of blocks.now.contents) }
        requires full { All (λ block. 0 < length block) blocks.now.contents }
    {
        if place.at == 0 && place.block < self.leads.len() {
            self.leads[place.block] = lead_of_first(keys, blocks, place.block, self.skip);
        }
        if blocks.len() > before {
            self.begin(keys, blocks, begun);
        }
    }

    /// Notes that a block has come into use.
    pub(crate) fn begin<K: Keys>(&mut self, keys: &K, blocks: &Blocks, block: usize)
        requires block { block < length blocks.now.contents }
        requires readable { All (λ entry. K.has_row keys.now entry.row) (entries_of blocks.now.contents) }
        requires full { All (λ block. 0 < length block) blocks.now.contents }
    {
        let first = first_of(keys, blocks, 0);
        let last = first_of(keys, blocks, blocks.len() - 1);
        let shared = shared_by(keys, first, last);
        if self.left == 0 || shared < self.skip as usize {
            self.read(keys, blocks, u32::try_from(shared).unwrap_or(0));
            return;
        }
        self.left -= 1;
        if block <= self.leads.len() && self.leads.len() < self.leads.capacity() {
            let lead = lead_of_first(keys, blocks, block, self.skip);
            self.leads.insert(block, lead).unwrap();
        }
    }

    /// Reads all anew, behind so many bytes.
    pub(crate) fn read<K: Keys>(&mut self, keys: &K, blocks: &Blocks, skip: u32)
        requires readable { All (λ entry. K.has_row keys.now entry.row) (entries_of blocks.now.contents) }
        requires full { All (λ block. 0 < length block) blocks.now.contents }
    {
        self.skip = skip;
        self.left = blocks.len();
        self.leads.clear();
        for at in 0..blocks.len() {
            let lead = lead_of_first(keys, blocks, at, skip);
            if self.leads.len() < self.leads.capacity() {
                self.leads.push(lead).unwrap();
            }
        }
    }

    /// Notes that no block is in use.
    pub(crate) fn clear(&mut self) {
        self.leads.clear();
        self.skip = 0;
        self.left = 0;
    }

    /// Notes that a block is no longer in use, if one is.
    pub(crate) fn end(&mut self, block: Option<usize>) {
        if let Some(block) = block {
            if block < self.leads.len() {
                self.leads.remove(block);
            }
        }
    }
}

/// The first entry of a block.
pub(crate) fn first_of<K: Keys>(keys: &K, blocks: &Blocks, at: usize) -> Entry
    requires block { at < length blocks.now.contents }
    requires readable { All (λ entry. K.has_row keys.now entry.row) (entries_of blocks.now.contents) }
    requires full { All (λ block. 0 < length block) blocks.now.contents }
    ensures readable { K.has_row keys.now result.row }
    ensures first { result ≡ slice_index_or (entries_at blocks.now.contents at) 0 result }
{
    blocks.first(at)
}

/// The lead of the first key of a block, behind so many bytes.
fn lead_of_first<K: Keys>(keys: &K, blocks: &Blocks, at: usize, skip: u32) -> u64
    requires block { at < length blocks.now.contents }
    requires readable { All (λ entry. K.has_row keys.now entry.row) (entries_of blocks.now.contents) }
    requires full { All (λ block. 0 < length block) blocks.now.contents }
{
    let first = first_of(keys, blocks, at);
    let key = keys.key(first.row);
    sought_behind(&key, skip).lead
}

/// Whether the hint at a place is at most a lead, as a number.
#[inline(always)]
fn reached(leads: &[u64], at: usize, lead: u64) -> usize
    requires { at < length leads.now }
    ensures { result ≤ 1 }
{
    usize::from(leads[at] <= lead)
}

/// How many hints at seven places so far apart are at most a lead.
#[inline(always)]
fn reached_of_seven(leads: &[u64], from: usize, step: usize, lead: u64) -> usize
    requires { from + 7 * step < length leads.now }
    ensures { result ≤ 7 }
{
    reached(leads, from + step, lead)
        + reached(leads, from + 2 * step, lead)
        + reached(leads, from + 3 * step, lead)
        + reached(leads, from + 4 * step, lead)
        + reached(leads, from + 5 * step, lead)
        + reached(leads, from + 6 * step, lead)
        + reached(leads, from + 7 * step, lead)
}

/// How many of rising hints are at most a lead.
fn count_upto(leads: &[u64], lead: u64) -> usize {
    let mut low = 0;
    let mut len = leads.len();
    while len >= 8 {
        let step = len / 8;
        let count = reached_of_seven(leads, low, step, lead);
        low += step * count;
        len -= 7 * step;
    }
    let mut at = low;
    for next in low..low + len {
        at += reached(leads, next, lead);
    }
    at
}
