//! The table.
ghost use Rattle.std.specs.Prelude.{◌≡◌, ◌≢◌, ℕ, ◌+◌, ◌<◌, ◌≤◌, ◌∷◌, [], List, length, All, Contains, IfOk, IfErr, MatchResult, true, false, vec_capacity};
ghost use Rattle.common_lemmas.specs.Lists.{times};
ghost use Rattle.rows.specs.Key as shown;
ghost use Rattle.rows.specs.Key.{key_shown};
ghost use Rattle.key_table.specs.Table.{rows_of, vacant_row, AreSame, Has, IsCrowdedAt, IsSpotFor, IsTagged, IsTagOf, IsTableOf};

use crate::entries::{Full, RowAt, Spot};
use crate::seeking::seek;
use crate::slots::{REACH, clear, locate, put, take_out};
use crate::widening::{LEAST, most_of, widen, widest};
use key_index::Keys;
use rows::Key;
use std::alloc::{AllocError, Global};
use std::marker::Model;

/// Rows that are found by their keys.
///
/// A table knows the numbers of its rows and tags of their keys. It is the table of given keys where `IsTableOf` holds; it
/// stays so as long as its rows keep their keys, wherever these are moved (see [`KeyTable::len`]).
///
/// # Examples
/// ```
/// let mut table = KeyTable::new(alloc, 1000)?;
/// let key = keys.key(row);
/// let Err(spot) = table.find(&keys, &key) else {
///     return Ok(false); // a row has the key
/// };
/// let taken = table.insert(spot, row).is_ok(); // false: too many slots in a row would hold rows
/// let gone = table.remove(spot.of(row)); // true where the row was taken
/// ```
#[derive(Drop)]
pub struct KeyTable {
    room: u32,
    count: u32,
    // one less than the number of slots that tags have, and the most of that
    mask: u32,
    most: u32,
    slots: Vec<RowAt>,
    // memory for the next slots
    spare: Vec<RowAt>,
}

impl Model for KeyTable {
    ghost use Rattle.key_table.specs.Table.{Table};
    ghost use Rattle.key_table.specs.inside.Slots.{held};
    ghost use Rattle.key_table.specs.inside.Kept.{AreKept};

    ghost Value = { Table };

    ghost view = { λ t. record { room = t.room; kept = held t.slots.items } };

    ghost invariant = { λ t. AreKept t.room t.count t.mask t.most t.slots t.spare };
}

impl KeyTable {
    /// A table with room for so many rows, and no row. No other call takes memory.
    ///
    /// # Errors
    /// Want of memory.
    pub fn new(alloc: Global, room: u32) -> Result<KeyTable, AllocError>
        ensures { IfOk result (λ made. made ≡ record { room = room; kept = [] }) }
    {
        let most = most_of(room);
        let size = most as usize + 1 + REACH;
        let mut slots = Vec::with_capacity(alloc, size)?;
        let spare = Vec::with_capacity(alloc, size)?;
        clear(&mut slots, LEAST as usize + 1 + REACH);
        Ok(KeyTable {
            room,
            count: 0,
            mask: LEAST,
            most,
            slots,
            spare,
        })
    }

    /// Makes as many slots at once as so many rows as there is room for will want, so that no insertion doubles them. A table
    /// with rows stays as it is.
    pub fn widen(&mut self)
        ensures unchanged { self.new ≡ self.old }
    {
        if self.count != 0 {
            return;
        }
        let mask = widest(self.mask, self.most);
        self.slots.clear();
        clear(&mut self.slots, mask as usize + 1 + REACH);
        self.mask = mask;
    }

    /// How many rows there are. Whoever keeps their keys, where these are moved it stays the table of its rows.
    pub fn len(&self) -> u32
        ensures count { result ≡ length self.now.kept }
        ensures within { result ≤ self.now.room }
        ensures moved { (before after : ℕ → shown.Key) → ((n : ℕ) → Has self.now n → after n ≡ before n)
            → IsTagged before self.now → IsTagged after self.now }
    {
        self.count
    }

    /// How many rows there is room for.
    pub fn room(&self) -> u32
        ensures { result ≡ self.now.room }
    {
        self.room
    }

    /// The row of a key.
    ///
    /// # Errors
    /// No row has the key. The answer is the spot for one, for [`KeyTable::insert`].
    pub fn find<K: Keys>(&self, keys: &K, key: &Key<'_>) -> Result<RowAt, Spot>
        requires { IsTableOf (K.has_row keys.now) (K.key_of keys.now) self.now }
        ensures { MatchResult result
            (λ found. Contains self.now.kept found × Has self.now found.row × (K.key_of keys.now found.row ≡ key_shown key.now))
            (λ spot. IsSpotFor (key_shown key.now) spot × ((n : ℕ) → Has self.now n → K.key_of keys.now n ≢ key_shown key.now)) }
    {
        let spot = Spot::new(key);
        match seek(keys, &self.slots, self.mask, key, spot.tag) {
            Some(found) => Ok(found),
            None => Err(spot),
        }
    }

    /// Puts a row in at the spot of its key. No memory is taken.
    ///
    /// # Errors
    /// The row would make 64 slots in a row that hold rows. The rows are as before.
    pub fn insert(&mut self, spot: Spot, row: u32) -> Result<(), Full>
        requires number { row < vacant_row }
        requires room { length self.old.kept < self.old.room }
        ensures room { self.new.room ≡ self.old.room }
        ensures rows { MatchResult result
            (λ _. AreSame (row ∷ rows_of self.old.kept) (rows_of self.new.kept))
            (λ _. AreSame (rows_of self.old.kept) (rows_of self.new.kept)) }
        ensures full { IfErr result (λ _. IsCrowdedAt self.new spot) }
        ensures tagged { (key_of : ℕ → shown.Key) → IsTagged key_of self.old → IsSpotFor (key_of row) spot
            → IsTagged key_of self.new }
    {
        self.mask = widen(
            &mut self.slots,
            &mut self.spare,
            self.mask,
            &mut self.most,
            self.count,
        );
        if !put(&mut self.slots, self.mask, spot.of(row)) {
            return Err(Full);
        }
        self.count += 1;
        Ok(())
    }

    /// Takes a row out. False where the table has not the row. It is not asked for its key.
    pub fn remove(&mut self, found: RowAt) -> bool
        requires { IsTagOf self.old found }
        ensures room { self.new.room ≡ self.old.room }
        ensures rows { result ≡ true → AreSame (rows_of self.old.kept) (found.row ∷ rows_of self.new.kept) }
        ensures absent { result ≡ false → times found.row (rows_of self.old.kept) ≡ 0 }
        ensures unchanged { result ≡ false → self.new ≡ self.old }
        ensures tagged { (key_of : ℕ → shown.Key) → IsTagged key_of self.old → IsTagged key_of self.new }
    {
        let Some(at) = locate(&self.slots, self.mask, found) else {
            return false;
        };
        take_out(&mut self.slots, self.mask, at);
        self.count -= 1;
        true
    }

    /// Takes all rows out. There are as many slots as at first then, and the memory of all stays reserved.
    pub fn clear(&mut self)
        ensures { self.new ≡ record { room = self.old.room; kept = [] } }
    {
        if self.count == 0 {
            return;
        }
        self.mask = LEAST;
        self.slots.clear();
        clear(&mut self.slots, LEAST as usize + 1 + REACH);
        self.count = 0;
    }
}
