//! The journal of a shard.
ghost use Rattle.std.specs.Prelude.{◌≡◌, ◌+◌, ◌^◌, ◌<◌, ◌≤◌, length, [], ◌∷◌, ◌++◌, vec_len, IfOk};

use cache_model::Entry;
use std::alloc::{AllocError, Global};
use std::marker::Model;

/// The journal of a shard: what it did, in order. It grows within the room that `new` reserves; one that was read has none. Whoever
/// uses a store by itself makes room again by `clear`, once it has read what was told; a node's journal is never cleared.
#[derive(Drop)]
pub struct Journal {
    entries: Vec<Entry>,
    room: u32,
}

impl Model for Journal {
    ghost use Rattle.std.specs.Prelude.{◌≡◌, ◌-◌, ◌^◌, ◌<◌, ◌≤◌, vec_len, vec_capacity};
    ghost use Rattle.run_log.specs.JournalState.{JournalState};

    ghost Value = { JournalState };

    ghost view = { λ j. record { entries = j.entries.items; spare = j.room - vec_len j.entries } };

    ghost invariant = { λ j. (vec_len j.entries ≤ j.room) × (j.room ≤ vec_capacity j.entries) × (j.room < 2 ^ 32) };
}

impl Journal {
    /// An empty journal with room for so many entries.
    pub fn new(alloc: Global, room: u32) -> Result<Journal, AllocError>
        ensures { IfOk result (λ journal. journal ≡ record { entries = []; spare = room }) }
    {
        Ok(Journal {
            entries: Vec::with_capacity(alloc, room as usize)?,
            room,
        })
    }

    /// A journal of these entries, with no room for others.
    pub fn of(entries: Vec<Entry>) -> Journal
        requires { vec_len entries < 2 ^ 32 }
        ensures { result ≡ record { entries = entries.items; spare = 0 } }
    {
        let room = entries.len() as u32;
        Journal { entries, room }
    }

    /// What was written, in order.
    pub fn entries(&self) -> &[Entry]
        ensures value { result.now ≡ self.now.entries }
        ensures few { length result.now < 2 ^ 32 }
    {
        self.entries.as_slice()
    }

    /// How many entries may be added still.
    pub fn spare(&self) -> u32
        ensures { result ≡ self.now.spare }
    {
        self.room - self.entries.len() as u32
    }

    /// Adds an entry at the end.
    pub fn add(&mut self, entry: Entry)
        requires { 1 ≤ self.old.spare }
        ensures entries { self.new.entries ≡ self.old.entries ++ entry ∷ [] }
        ensures spare { self.new.spare + 1 ≡ self.old.spare }
    {
        self.entries.push(entry).unwrap();
    }

    /// Takes all entries out: there is room for as many more.
    pub fn clear(&mut self)
        ensures entries { self.new.entries ≡ [] }
        ensures spare { self.new.spare ≡ self.old.spare + length self.old.entries }
    {
        self.entries.clear();
    }
}
