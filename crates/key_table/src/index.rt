//! The table and the order of keys as one index.
ghost use Rattle.std.specs.Prelude.{◌≡◌, ◌≢◌, ℕ, ◌+◌, ◌<◌, ◌≤◌, ◌∷◌, [], List, true, false, length, IfOk, MatchResult};
ghost use Rattle.common_lemmas.specs.Lists.{times};
ghost use Rattle.layout.specs.Sizes.{tables};
ghost use Rattle.rows.specs.Key as shown;
ghost use Rattle.rows.specs.Key.{key_shown};
ghost use Rattle.key_index.specs.Order.{AreRising, rows_from};
ghost use Rattle.key_table.specs.Table.{AreSame, IsSpotFor};
ghost use Rattle.key_table.specs.Table as hashed;
ghost use Rattle.key_table.specs.Lazy.{rows_in, Has, IsKeyed, IsLazyOf, IsStanding, IsThere, StaysKeyed};

use crate::entries::{RowAt, Spot};
use crate::late::Late;
use crate::settling::{leave, settle_all, settle_one};
use crate::standing::Standing;
use crate::table::KeyTable;
use key_index::{KeyIndex, Keys, Rows};
use rows::Key;
use std::alloc::{AllocError, Global};
use std::marker::Model;

/// Rows that are found by their keys, and that are put in order only once order is asked for.
///
/// It is the index of given keys where `IsLazyOf` holds; it stays so as long as its rows keep their keys, wherever these
/// are moved.
///
/// # Examples
/// ```
/// let mut index = LazyIndex::new(alloc, 1000)?;
/// let key = keys.key(row);
/// let Err(spot) = index.find(&keys, &key) else {
///     return Ok(false); // a row has the key
/// };
/// index.insert(&keys, spot, row); // its number is below `room`
/// let waiting = index.waiting(); // 1, or 0 where the table did not take it
/// index.settle(&keys);
/// let first = index.rows_from(&keys, &key).next(); // Some(row), that of the least key at or above
/// ```
#[derive(Drop)]
pub struct LazyIndex {
    room: u32,
    table: KeyTable,
    order: KeyIndex,
    // the rows that are not in order yet
    late: Late,
    // how many rows are in order alone, and not in the table
    outside: u32,
}

impl Model for LazyIndex {
    ghost use Rattle.key_table.specs.Lazy.{Lazy};
    ghost use Rattle.key_table.specs.inside.Mixed.{AreMixed};

    ghost Value = { Lazy };

    ghost view = { λ a. record { room = a.room; table = a.table; order = a.order; late = a.late.numbers } };

    ghost invariant = { λ a. AreMixed a.room a.outside a.table a.order a.late };
}

impl LazyIndex {
    /// An index with room for so many rows, whose numbers are below that, and no row. No other call takes memory.
    ///
    /// # Errors
    /// Want of memory.
    pub fn new(alloc: Global, room: u32) -> Result<LazyIndex, AllocError>
        ensures room { IfOk result (λ made. made.room ≡ room) }
        ensures table { IfOk result (λ made. made.table ≡ record { room = room; kept = [] }) }
        ensures order { IfOk result (λ made. made.order ≡ record { rows = []; room = room; kept = [] }) }
        ensures late { IfOk result (λ made. made.late ≡ []) }
        ensures moved { IfOk result StaysKeyed }
    {
        let table = KeyTable::new(alloc, room)?;
        let order = KeyIndex::new(alloc, room)?;
        let late = Late::new(alloc, room)?;
        Ok(LazyIndex {
            room,
            table,
            order,
            late,
            outside: 0,
        })
    }

    /// Makes as many slots at once as so many rows as there is room for will want, so that no insertion doubles them. An index
    /// with rows in its table stays as it is.
    pub fn widen(&mut self)
        ensures unchanged { self.new ≡ self.old }
    {
        self.table.widen();
    }

    /// How many rows there are. None is there twice, and where their keys are moved it stays the index of these.
    pub fn len(&self) -> u32
        ensures count { result ≡ length (rows_in self.now) }
        ensures once { (n : ℕ) → times n (rows_in self.now) ≤ 1 }
        ensures moved { StaysKeyed self.now }
    {
        self.table.len() + self.outside
    }

    /// For how many rows there is room.
    pub fn room(&self) -> u32
        ensures { result ≡ self.now.room }
    {
        self.room
    }

    /// The row of a key.
    ///
    /// # Errors
    /// No row has the key. The answer is the spot for one, for [`LazyIndex::insert`].
    pub fn find<K: Keys>(&self, keys: &K, key: &Key<'_>) -> Result<RowAt, Spot>
        requires lazy { IsLazyOf (K.has_row keys.now) (K.key_of keys.now) self.now }
        requires table { key.now.table < tables }
        ensures { MatchResult result
            (λ found. IsThere self.now found × (K.key_of keys.now found.row ≡ key_shown key.now))
            (λ spot. IsSpotFor (key_shown key.now) spot × ((n : ℕ) → Has self.now n → K.key_of keys.now n ≢ key_shown key.now)) }
    {
        match self.table.find(keys, key) {
            Ok(found) => Ok(found),
            Err(spot) => self.find_outside(keys, key, spot),
        }
    }

    /// The row of a key that no row of the table has.
    fn find_outside<K: Keys>(&self, keys: &K, key: &Key<'_>, spot: Spot) -> Result<RowAt, Spot>
        requires lazy { IsLazyOf (K.has_row keys.now) (K.key_of keys.now) self.now }
        requires table { key.now.table < tables }
        requires spot { IsSpotFor (key_shown key.now) spot }
        requires absent { (n : ℕ) → hashed.Has self.now.table n → K.key_of keys.now n ≢ key_shown key.now }
        ensures { MatchResult result
            (λ found. IsThere self.now found × (K.key_of keys.now found.row ≡ key_shown key.now))
            (λ spot. IsSpotFor (key_shown key.now) spot × ((n : ℕ) → Has self.now n → K.key_of keys.now n ≢ key_shown key.now)) }
    {
        if self.outside == 0 {
            return Err(spot);
        }
        match self.order.search(keys, key) {
            Ok(at) => Ok(spot.of(at.row)),
            Err(_) => Err(spot),
        }
    }

    /// Where a row stands, by its key.
    pub fn row_at<K: Keys>(&self, keys: &K, row: u32) -> RowAt
        requires lazy { IsLazyOf (K.has_row keys.now) (K.key_of keys.now) self.now }
        requires row { Has self.now row }
        ensures there { IsThere self.now result }
        ensures row { result.row ≡ row }
    {
        let key = keys.key(row);
        Spot::new(&key).of(row)
    }

    /// Puts a row in at the spot of its key, which no other row has. It waits for its place in the order, but where the
    /// table does not take it.
    pub fn insert<K: Keys>(&mut self, keys: &K, spot: Spot, row: u32)
        // A row whose key is new here.
        requires lazy { IsLazyOf (K.has_row keys.now) (K.key_of keys.now) self.old }
        requires readable { K.has_row keys.now row }
        requires spot { IsSpotFor (K.key_of keys.now row) spot }
        requires absent { (n : ℕ) → Has self.old n → K.key_of keys.now n ≢ K.key_of keys.now row }

        // The index can take it.
        requires number { row < self.old.room }
        requires room { length (rows_in self.old) < self.old.room }

        // The index has it beside the others.
        ensures lazy { IsLazyOf (K.has_row keys.now) (K.key_of keys.now) self.new }
        ensures room { self.new.room ≡ self.old.room }
        ensures rows { AreSame (row ∷ rows_in self.old) (rows_in self.new) }
        ensures moved { StaysKeyed self.new }
    {
        let Err(_) = self.table.insert(spot, row) else {
            self.late.add(row);
            return;
        };
        self.order.insert(keys, row);
        self.outside += 1;
    }

    /// Where a row stands in the order of keys, for [`LazyIndex::remove`].
    pub fn standing<K: Keys>(&self, keys: &K, found: RowAt) -> Standing
        requires lazy { IsLazyOf (K.has_row keys.now) (K.key_of keys.now) self.now }
        requires there { IsThere self.now found }
        ensures standing { IsStanding self.now result }
        ensures found { result.found ≡ found }
    {
        if self.late.has(found.row) {
            return Standing { found, place: None };
        }
        let key = keys.key(found.row);
        let Ok(at) = self.order.search(keys, &key) else {
            unreachable!()
        };
        Standing {
            found,
            place: Some(at.place),
        }
    }

    /// Takes a row out. It is not asked for its key.
    pub fn remove(&mut self, standing: Standing)
        requires { IsStanding self.old standing }
        ensures room { self.new.room ≡ self.old.room }
        ensures rows { AreSame (rows_in self.old) (standing.found.row ∷ rows_in self.new) }
        ensures keyed { (key_of : ℕ → shown.Key) → IsKeyed key_of self.old → IsKeyed key_of self.new }
        ensures moved { StaysKeyed self.new }
    {
        leave(&mut self.late, &mut self.order, standing);
        if !self.table.remove(standing.found) {
            self.outside -= 1;
        }
    }

    /// Takes all rows out. The memory stays reserved.
    pub fn clear(&mut self)
        ensures room { self.new.room ≡ self.old.room }
        ensures table { self.new.table ≡ record { room = self.old.room; kept = [] } }
        ensures order { self.new.order ≡ record { rows = []; room = self.old.room; kept = [] } }
        ensures late { self.new.late ≡ [] }
        ensures moved { StaysKeyed self.new }
    {
        self.table.clear();
        self.order.clear();
        self.late.clear();
        self.outside = 0;
    }

    /// How many rows wait for their place in the order.
    pub fn waiting(&self) -> u32
        ensures { result ≡ length self.now.late }
    {
        self.late.len() as u32
    }

    /// Puts one of the rows that wait into the order, the one that came last. False where none waits.
    pub fn settle_one<K: Keys>(&mut self, keys: &K) -> bool
        requires { IsLazyOf (K.has_row keys.now) (K.key_of keys.now) self.old }
        ensures lazy { IsLazyOf (K.has_row keys.now) (K.key_of keys.now) self.new }
        ensures room { self.new.room ≡ self.old.room }
        ensures rows { AreSame (rows_in self.old) (rows_in self.new) }
        ensures none { result ≡ false → self.new.late ≡ [] }
        ensures fewer { result ≡ true → length self.new.late + 1 ≡ length self.old.late }
        ensures moved { StaysKeyed self.new }
    {
        settle_one(&mut self.late, &mut self.order, keys)
    }

    /// Puts the rows that wait into the order.
    pub fn settle<K: Keys>(&mut self, keys: &K)
        requires { IsLazyOf (K.has_row keys.now) (K.key_of keys.now) self.old }
        ensures lazy { IsLazyOf (K.has_row keys.now) (K.key_of keys.now) self.new }
        ensures room { self.new.room ≡ self.old.room }
        ensures rows { AreSame (rows_in self.old) (rows_in self.new) }
        ensures settled { self.new.late ≡ [] }
        ensures moved { StaysKeyed self.new }
    {
        settle_all(&mut self.late, &mut self.order, keys);
    }

    /// The rows of the keys that are at or above a key, in order. No row waits.
    pub fn rows_from<K: Keys>(&self, keys: &K, key: &Key<'_>) -> Rows<'_>
        requires lazy { IsLazyOf (K.has_row keys.now) (K.key_of keys.now) self.now }
        requires table { key.now.table < tables }
        requires settled { self.now.late ≡ [] }
        ensures rows { result ≡ rows_from (K.key_of keys.now) (key_shown key.now) self.now.order.rows }
        ensures rising { AreRising (K.key_of keys.now) self.now.order.rows }
        ensures all { AreSame (rows_in self.now) self.now.order.rows }
    {
        self.order.rows_from(keys, key)
    }
}
