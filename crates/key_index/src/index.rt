//! The index.
ghost use Rattle.std.specs.Prelude.{◌≡◌, ◌≢◌, ℕ, ◌+◌, ◌<◌, ◌≤◌, ◌++◌, ◌∷◌, [], List, length, take, drop, All, Contains, IfOk, MatchOption, MatchResult};
ghost use Rattle.layout.specs.Sizes.{tables};
ghost use Rattle.rows.specs.Key as shown;
ghost use Rattle.rows.specs.Key.{key_shown};
ghost use Rattle.key_index.specs.Order.{Each, PutsIn, TakesOut, rows_from};
ghost use Rattle.key_index.specs.Index.{IsIndexOf, IsOrdered, IsPlaceFor, IsRowAt};

use crate::blocks::{Blocks, HALF};
use crate::entries::{entry_of, has_key};
use crate::hints::Hints;
use crate::keys::Keys;
use crate::place::{Place, RowAt};
use crate::search::seek;
use crate::settling::{begin, entry_at, make_room, put, take_out};
use crate::walk::Rows;
use rows::Key;
use std::alloc::{AllocError, Global};
use std::marker::Model;

/// Rows in the order of their keys.
///
/// An index knows the numbers of its rows and some bytes of their keys. It is the index of given keys where
/// `IsIndexOf` holds; it stays so as long as its rows keep their keys, wherever these are moved (a lemma of `key_lemmas`).
///
/// # Examples
/// ```
/// let mut index = KeyIndex::new(alloc, 1000)?;
/// let key = keys.key(row);
/// let Err(place) = index.search(&keys, &key) else {
///     return Ok(false); // a row has the key
/// };
/// index.insert_at(&keys, place, row);
/// let found = index.find(&keys, &key); // Some(row)
/// let first = index.rows_from(&keys, &key).next(); // Some(row), that of the least key at or above
/// let gone = index.remove(&keys, &key); // Some(row)
/// ```
#[derive(Drop)]
pub struct KeyIndex {
    room: u32,
    count: u32,
    blocks: Blocks,
    hints: Hints,
}

impl Model for KeyIndex {
    ghost use Rattle.key_index.specs.Index.{Index};
    ghost use Rattle.key_index.specs.Lead.{rows_of};
    ghost use Rattle.key_index.specs.inside.Blocks.{entries_of};
    ghost use Rattle.key_index.specs.inside.Kept.{AreKept};

    ghost Value = { Index };

    ghost view = { λ a. record { rows = rows_of (entries_of a.blocks.contents); room = a.room; kept = a.blocks.contents } };

    ghost invariant = { λ a. AreKept a.room a.count a.blocks };
}

impl KeyIndex {
    /// An index with room for so many rows, and no row. No other call takes memory.
    ///
    /// # Errors
    ///
    /// The allocator has no memory.
    pub fn new(alloc: Global, room: u32) -> Result<KeyIndex, AllocError>
        ensures { IfOk result (λ made. made ≡ record { rows = []; room = room; kept = [] }) }
    {
        let count = room as usize * 2 / (HALF + 1) + 3;
        let blocks = Blocks::new(alloc, count as u32)?;
        let hints = Hints::new(alloc, count)?;
        Ok(KeyIndex {
            room,
            count: 0,
            blocks,
            hints,
        })
    }

    /// How many rows there are.
    pub fn len(&self) -> u32
        ensures count { result ≡ length self.now.rows }
        ensures within { result ≤ self.now.room }
    {
        self.count
    }

    /// How many rows there is room for.
    pub fn room(&self) -> u32
        ensures { result ≡ self.now.room }
    {
        self.room
    }

    /// The row of a key and where it stands, for [`KeyIndex::remove_at`].
    ///
    /// # Errors
    ///
    /// No row has the key. The answer is the place where one would stand, for [`KeyIndex::insert_at`].
    pub fn search<K: Keys>(&self, keys: &K, key: &Key<'_>) -> Result<RowAt, Place>
        requires index { IsIndexOf (K.has_row keys.now) (K.key_of keys.now) self.now }
        requires table { key.now.table < tables }
        ensures { MatchResult result
            (λ found. IsRowAt self.now found.place found.row × Contains self.now.rows found.row
            × (K.key_of keys.now found.row ≡ key_shown key.now))
            (λ place. IsPlaceFor (K.key_of keys.now) (key_shown key.now) self.now place
            × All (λ row. K.key_of keys.now row ≢ key_shown key.now) self.now.rows) }
    {
        let place = seek(keys, &self.blocks, key, self.hints.guess(key));
        let Some(entry) = entry_at(&self.blocks, place) else {
            return Err(place);
        };
        let found = has_key(keys, entry, key);
        if !found {
            return Err(place);
        }
        Ok(RowAt {
            row: entry.row,
            place,
        })
    }

    /// The row of a key, if one has it.
    pub fn find<K: Keys>(&self, keys: &K, key: &Key<'_>) -> Option<u32>
        requires index { IsIndexOf (K.has_row keys.now) (K.key_of keys.now) self.now }
        requires table { key.now.table < tables }
        ensures { MatchOption result
            (All (λ row. K.key_of keys.now row ≢ key_shown key.now) self.now.rows)
            (λ row. Contains self.now.rows row × (K.key_of keys.now row ≡ key_shown key.now)) }
    {
        match self.search(keys, key) {
            Ok(found) => Some(found.row),
            Err(_) => None,
        }
    }

    /// Puts a row in at the place of its key. No memory is taken.
    pub fn insert_at<K: Keys>(&mut self, keys: &K, place: Place, row: u32)
        requires index { IsIndexOf (K.has_row keys.now) (K.key_of keys.now) self.old }
        requires readable { K.has_row keys.now row }
        requires place { IsPlaceFor (K.key_of keys.now) (K.key_of keys.now row) self.old place }
        requires room { length self.old.rows < self.old.room }
        ensures index { IsIndexOf (K.has_row keys.now) (K.key_of keys.now) self.new }
        ensures room { self.new.room ≡ self.old.room }
        ensures rows { PutsIn (K.key_of keys.now) row self.old.rows self.new.rows }
    {
        let entry = entry_of(keys, row, place.skip);
        self.count += 1;
        if self.blocks.len() == 0 {
            begin(&mut self.blocks, entry);
            self.hints.begin(keys, &self.blocks, 0);
            return;
        }
        let before = self.blocks.len();
        let behind = place.block + 1;
        self.blocks.sharpen(keys, place.block);
        let place = make_room(&mut self.blocks, place);
        put(&mut self.blocks, place, entry);
        self.hints.keep(keys, &self.blocks, place, before, behind);
    }

    /// Puts a row in whose key no row has. No memory is taken.
    pub fn insert<K: Keys>(&mut self, keys: &K, row: u32)
        requires index { IsIndexOf (K.has_row keys.now) (K.key_of keys.now) self.old }
        requires readable { K.has_row keys.now row }
        requires absent { All (λ other. K.key_of keys.now other ≢ K.key_of keys.now row) self.old.rows }
        requires room { length self.old.rows < self.old.room }
        ensures index { IsIndexOf (K.has_row keys.now) (K.key_of keys.now) self.new }
        ensures room { self.new.room ≡ self.old.room }
        ensures rows { PutsIn (K.key_of keys.now) row self.old.rows self.new.rows }
    {
        let key = keys.key(row);
        let Err(place) = self.search(keys, &key) else {
            unreachable!();
        };
        self.insert_at(keys, place, row);
    }

    /// Takes a row out at its place. No key is read: the others stand in the order of whatever keys all stood in.
    pub fn remove_at(&mut self, found: RowAt)
        requires { IsRowAt self.old found.place found.row }
        ensures ordered { (key_of : ℕ → shown.Key) → IsOrdered key_of self.old → IsOrdered key_of self.new }
        ensures room { self.new.room ≡ self.old.room }
        ensures rows { TakesOut found.row self.old.rows self.new.rows }
    {
        let ended = take_out(&mut self.blocks, found.place);
        self.count -= 1;
        self.hints.end(ended);
    }

    /// Takes the row of a key out, if one has it.
    pub fn remove<K: Keys>(&mut self, keys: &K, key: &Key<'_>) -> Option<u32>
        requires index { IsIndexOf (K.has_row keys.now) (K.key_of keys.now) self.old }
        requires table { key.now.table < tables }
        ensures index { IsIndexOf (K.has_row keys.now) (K.key_of keys.now) self.new }
        ensures room { self.new.room ≡ self.old.room }
        ensures rows { MatchOption result
            (All (λ row. K.key_of keys.now row ≢ key_shown key.now) self.old.rows × (self.new ≡ self.old))
            (λ row. (K.key_of keys.now row ≡ key_shown key.now) × TakesOut row self.old.rows self.new.rows) }
    {
        let Ok(found) = self.search(keys, key) else {
            return None;
        };
        self.remove_at(found);
        Some(found.row)
    }

    /// Takes all rows out. The memory stays reserved.
    pub fn clear(&mut self)
        ensures { self.new ≡ record { rows = []; room = self.old.room; kept = [] } }
    {
        self.blocks.clear();
        self.count = 0;
        self.hints.clear();
    }

    /// The rows of the keys that are at or above a key, in order.
    pub fn rows_from<K: Keys>(&self, keys: &K, key: &Key<'_>) -> Rows<'_>
        requires index { IsIndexOf (K.has_row keys.now) (K.key_of keys.now) self.now }
        requires table { key.now.table < tables }
        ensures { result ≡ rows_from (K.key_of keys.now) (key_shown key.now) self.now.rows }
    {
        let place = seek(keys, &self.blocks, key, self.hints.guess(key));
        Rows::new(&self.blocks, place)
    }
}
