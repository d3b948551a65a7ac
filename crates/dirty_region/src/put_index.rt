//! Rows by their keys, for exact look-up.
ghost use Rattle.std.specs.Prelude.{◌≡◌, ◌≢◌, ℕ, ◌<◌, ◌≤◌, ◌∷◌, [], List, length, replicate, true, false, IfOk, MatchResult};
ghost use Rattle.common_lemmas.specs.Lists.{times};
ghost use Rattle.layout.specs.Sizes.{tables};
ghost use Rattle.rows.specs.Key as shown;
ghost use Rattle.rows.specs.Key.{key_shown};
ghost use Rattle.key_index.specs.Index.{IsIndexOf, IsOrdered};
ghost use Rattle.key_table.specs.Hash.{tag_of};
ghost use Rattle.key_table.specs.Table.{AreSame, IsSpotFor, IsTagOf};
ghost use Rattle.dirty_region.specs.inside.PutRows.{rows_in, Has, IsKeyed, IsPutIndexOf, IsThere};

use key_index::{KeyIndex, Keys};
use key_table::{KeyTable, RowAt, Spot};
use rows::Key;
use std::alloc::{AllocError, Global};
use std::marker::Model;

// Rows that are found by their keys. Where the table refuses a row it is a stray, and a search that finds nothing in the
// table asks the strays, as long as there are any. A row that is not here is known without a look at the table.
#[derive(Drop)]
pub(crate) struct PutIndex {
    table: KeyTable,
    strays: KeyIndex,
    // for each number whether a row that is here has it
    marks: Vec<bool>,
}

impl Model for PutIndex {
    ghost use Rattle.dirty_region.specs.inside.PutRows.{PutRows, AreApart, AreMarked, put_rows};

    ghost Value = { PutRows };

    ghost view = { λ i. put_rows i.table i.strays };

    ghost invariant = { λ i. AreApart i.table i.strays × AreMarked i.marks.items (put_rows i.table i.strays) };
}

impl PutIndex {
    // No row, and room for so many. No other call takes memory.
    pub(crate) fn new(alloc: Global, room: u32) -> Result<PutIndex, AllocError>
        ensures room { IfOk result (λ made. made.room ≡ room) }
        ensures table { IfOk result (λ made. made.table ≡ record { room = room; kept = [] }) }
        ensures strays { IfOk result (λ made. made.strays ≡ record { rows = []; room = room; kept = [] }) }
    {
        let table = KeyTable::new(alloc, room)?;
        let strays = KeyIndex::new(alloc, room)?;
        let marks = no_marks(alloc, room)?;
        Ok(PutIndex {
            table,
            strays,
            marks,
        })
    }

    // The row of a key, or the spot for one.
    pub(crate) fn find<K: Keys>(&self, keys: &K, key: &Key<'_>) -> Result<RowAt, Spot>
        requires index { IsPutIndexOf (K.has_row keys.now) (K.key_of keys.now) self.now }
        requires table { key.now.table < tables }
        ensures { MatchResult result
            (λ found. IsThere self.now found × (K.key_of keys.now found.row ≡ key_shown key.now))
            (λ spot. IsSpotFor (key_shown key.now) spot × ((n : ℕ) → Has self.now n → K.key_of keys.now n ≢ key_shown key.now)) }
    {
        match self.table.find(keys, key) {
            Ok(found) => Ok(found),
            Err(spot) => find_stray(&self.strays, keys, key, spot),
        }
    }

    // Puts a row in at the spot of its key, which no other row has.
    pub(crate) fn insert<K: Keys>(&mut self, keys: &K, spot: Spot, row: u32)
        // A row whose key is new here.
        requires index { IsPutIndexOf (K.has_row keys.now) (K.key_of keys.now) self.old }
        requires readable { K.has_row keys.now row }
        requires spot { IsSpotFor (K.key_of keys.now row) spot }
        requires absent { (n : ℕ) → Has self.old n → K.key_of keys.now n ≢ K.key_of keys.now row }

        // The index can take it.
        requires number { row < self.old.room }
        requires room { length (rows_in self.old) < self.old.room }

        // The index has it beside the others.
        ensures room { self.new.room ≡ self.old.room }
        ensures rows { AreSame (row ∷ rows_in self.old) (rows_in self.new) }
        ensures keyed { IsKeyed (K.key_of keys.now) self.new }
    {
        self.marks[row as usize] = true;
        let Err(_) = self.table.insert(spot, row) else {
            return;
        };
        self.strays.insert(keys, row);
    }

    // Takes the row with this number out, whose key is given. False where the index has not the row. No other row of the
    // table is asked for its key.
    pub(crate) fn remove_row<K: Keys>(&mut self, keys: &K, key: &Key<'_>, row: u32) -> bool
        requires index { IsPutIndexOf (K.has_row keys.now) (K.key_of keys.now) self.old }
        requires number { row < self.old.room }
        requires table { key.now.table < tables }
        requires key { K.key_of keys.now row ≡ key_shown key.now }
        ensures room { self.new.room ≡ self.old.room }
        ensures rows { result ≡ true → AreSame (rows_in self.old) (row ∷ rows_in self.new) }
        ensures absent { result ≡ false → times row (rows_in self.old) ≡ 0 }
        ensures unchanged { result ≡ false → self.new ≡ self.old }
        ensures keyed { (key_of : ℕ → shown.Key) → IsKeyed key_of self.old → IsKeyed key_of self.new }
    {
        if !self.marks[row as usize] {
            return false;
        }
        self.remove(keys, key, Spot::new(key).of(row))
    }

    // The same, with the tag of the key.
    pub(crate) fn remove<K: Keys>(&mut self, keys: &K, key: &Key<'_>, found: RowAt) -> bool
        requires index { IsPutIndexOf (K.has_row keys.now) (K.key_of keys.now) self.old }
        requires number { found.row < self.old.room }
        requires tag { IsTagOf self.old.table found }
        requires table { key.now.table < tables }
        requires key { K.key_of keys.now found.row ≡ key_shown key.now }
        ensures room { self.new.room ≡ self.old.room }
        ensures rows { result ≡ true → AreSame (rows_in self.old) (found.row ∷ rows_in self.new) }
        ensures absent { result ≡ false → times found.row (rows_in self.old) ≡ 0 }
        ensures unchanged { result ≡ false → self.new ≡ self.old }
        ensures keyed { (key_of : ℕ → shown.Key) → IsKeyed key_of self.old → IsKeyed key_of self.new }
    {
        self.marks[found.row as usize] = false;
        if self.table.remove(found) {
            return true;
        }
        take_stray(&mut self.strays, keys, key, found.row)
    }
}

// Marks for so many numbers, none of which a row has.
fn no_marks(alloc: Global, room: u32) -> Result<Vec<bool>, AllocError>
    ensures { IfOk result (λ marks. marks.items ≡ replicate room false) }
{
    vec![in alloc; false; room as usize]
}

// The stray of a key whose spot is given, or the spot.
fn find_stray<K: Keys>(
    strays: &KeyIndex,
    keys: &K,
    key: &Key<'_>,
    spot: Spot,
) -> Result<RowAt, Spot>
    requires index { IsIndexOf (K.has_row keys.now) (K.key_of keys.now) strays.now }
    requires table { key.now.table < tables }
    requires spot { IsSpotFor (key_shown key.now) spot }
    ensures { MatchResult result
        (λ found. (1 ≤ times found.row strays.now.rows) × (found.tag ≡ tag_of (key_shown key.now))
        × (K.key_of keys.now found.row ≡ key_shown key.now))
        (λ spot. IsSpotFor (key_shown key.now) spot
        × ((n : ℕ) → 1 ≤ times n strays.now.rows → K.key_of keys.now n ≢ key_shown key.now)) }
{
    if strays.len() == 0 {
        return Err(spot);
    }
    match strays.search(keys, key) {
        Ok(at) => Ok(spot.of(at.row)),
        Err(_) => Err(spot),
    }
}

// Takes the stray with this number out, whose key is given. False where none has the number.
fn take_stray<K: Keys>(strays: &mut KeyIndex, keys: &K, key: &Key<'_>, row: u32) -> bool
    requires index { IsIndexOf (K.has_row keys.now) (K.key_of keys.now) strays.old }
    requires table { key.now.table < tables }
    requires key { K.key_of keys.now row ≡ key_shown key.now }
    ensures room { strays.new.room ≡ strays.old.room }
    ensures rows { result ≡ true → AreSame strays.old.rows (row ∷ strays.new.rows) }
    ensures absent { result ≡ false → times row strays.old.rows ≡ 0 }
    ensures unchanged { result ≡ false → strays.new ≡ strays.old }
    ensures ordered { (key_of : ℕ → shown.Key) → IsOrdered key_of strays.old → IsOrdered key_of strays.new }
{
    if strays.len() == 0 {
        return false;
    }
    let Ok(found) = strays.search(keys, key) else {
        return false;
    };
    if found.row != row {
        return false;
    }
    strays.remove_at(found);
    true
}
