//! An index whose calls are made only where they may be made.
ghost use Rattle.std.specs.Prelude.{◌≡◌, ◌+◌, ◌<◌, ◌≤◌};
ghost use Rattle.regions.specs.Shapes.{shape, guards_of, held_count};

use super::keys::Keys;
use crate::pieces::piece;
use index_tree::{Full, IndexTree};
use std::alloc::{AllocError, Global};

/// The bytes that 32 keys may have, each behind its length.
const ROOM: usize = 8256;

#[derive(Drop)]
pub(super) struct Trial {
    tree: IndexTree,
    segments: u32,
    guards: u32,
    ghost held: { segments ≡ held_count tree.region },
    ghost guarded: { guards ≡ guards_of tree.region 0 },
    ghost few: { guards ≤ 8 },
}

impl Trial {
    pub(super) fn new(alloc: Global, segments: u32) -> Result<Trial, AllocError>
        requires { segments ≤ 64 }
    {
        let mut tree = IndexTree::new(alloc, 64)?;
        for number in 0..segments {
            tree.add_segment(piece(alloc, number)?);
        }
        Ok(Trial {
            tree,
            segments,
            guards: 0,
        })
    }

    /// None where a guard stands, or the key is none.
    pub(super) fn insert(&mut self, key: &[u8], number: u32) -> Option<Result<Option<u32>, Full>> {
        if self.guards > 0 || self.segments < 3 || key.is_empty() || key.len() > 256 {
            return None;
        }
        Some(self.tree.insert(key, number))
    }

    pub(super) fn remove(&mut self, key: &[u8]) -> Option<u32> {
        self.tree.remove(key)
    }

    pub(super) fn get(&self, key: &[u8]) -> Option<u32> {
        self.tree.get(key)
    }

    pub(super) fn len(&self) -> u32 {
        self.tree.len()
    }

    pub(super) fn height(&self) -> u32 {
        self.tree.height()
    }

    pub(super) fn guard(&mut self) -> bool {
        if self.guards >= 8 {
            return false;
        }
        self.tree.facts();
        self.tree.guard();
        self.guards += 1;
        true
    }

    pub(super) fn unguard(&mut self) -> bool {
        if self.guards == 0 {
            return false;
        }
        self.tree.unguard();
        self.guards -= 1;
        true
    }

    pub(super) fn give_up(&mut self) -> bool {
        if self.guards > 0 || self.segments == 0 {
            return false;
        }
        self.segments -= 1;
        self.tree.give_up().is_some()
    }

    /// Whether so many keys at or above one are just these, each behind its length.
    pub(super) fn reads(&self, lo: &[u8], count: u32, text: &[u8], keys: u32) -> bool {
        if count == 0 || count > 32 {
            return false;
        }
        let mut into = [0u8; ROOM];
        let scanned = self.tree.range(lo, count, &mut into);
        scanned.keys == keys && into.get(..scanned.bytes as usize) == Some(text)
    }

    /// Whether so many keys come in, and no further one.
    pub(super) fn fills_up(&mut self, keys: &Keys, most: u32) -> bool {
        for order in 0..most {
            if self.insert(&keys.key(keys.number(order)), order) != Some(Ok(None)) {
                return false;
            }
        }
        self.insert(&keys.key(keys.number(most)), most) == Some(Err(Full))
            && self.insert(&keys.key(keys.number(0)), most) == Some(Ok(Some(0)))
            && self.len() == most
    }
}

/// Whether so many keys come in and go again in another order, each found as long as it is there.
pub(super) fn comes_and_goes(trial: &mut Trial, keys: &Keys, count: u32) -> bool {
    for order in 0..count {
        let key = keys.key(keys.number(order));
        if trial.insert(&key, order) != Some(Ok(None)) || trial.get(&key) != Some(order) {
            return false;
        }
    }
    if trial.len() != count {
        return false;
    }
    for step in 0..count {
        let order = step.wrapping_mul(997) % count.max(1);
        let key = keys.key(keys.number(order));
        if trial.remove(&key) != Some(order) || trial.get(&key).is_some() {
            return false;
        }
    }
    true
}

pub(super) fn all_gone(trial: &Trial) -> bool {
    trial.len() == 0 && trial.height() == 0 && trial.reads(b"0", 32, b"", 0)
}
