//! The rounds that are timed over an index of keys.
ghost use Rattle.std.specs.Prelude.{◌≡◌, ℕ, ◌<◌, ◌≤◌, length, true};
ghost use Rattle.key_index.specs.Index.{IsIndexOf};

use key_index::{KeyIndex, Keys};

/// The keys of rows, some of which are there.
pub trait RowKeys: Keys {
    /// Whether there is a key of a row.
    fn has_key(&self, row: u32) -> bool
        ensures { result ≡ true → Self.has_row self.now row };
}

/// The row that comes so many rows on, in an order that jumps.
pub fn row_at(at: u32, rows: u32) -> u32 {
    if rows == 0 {
        return 0;
    }
    (u64::from(at) * 100_003 % u64::from(rows)) as u32
}

/// Puts a row in at the place that a search gives.
fn insert_row<A: RowKeys>(index: &mut KeyIndex, arena: &A, row: u32)
    requires { IsIndexOf (A.has_row arena.now) (A.key_of arena.now) index.old }
    ensures { IsIndexOf (A.has_row arena.now) (A.key_of arena.now) index.new }
{
    if !arena.has_key(row) || index.len() >= index.room() {
        return;
    }
    let key = arena.key(row);
    let Err(place) = index.search(arena, &key) else {
        return;
    };
    index.insert_at(arena, place, row);
}

/// Puts rows in, each at the place that a search gives.
pub fn fill<A: RowKeys>(index: &mut KeyIndex, arena: &A, rows: u32)
    requires { IsIndexOf (A.has_row arena.now) (A.key_of arena.now) index.old }
    ensures { IsIndexOf (A.has_row arena.now) (A.key_of arena.now) index.new }
{
    for row in 0..rows {
        insert_row(index, arena, row);
    }
}

/// How many searches found their row.
pub fn count_found<A: RowKeys>(index: &KeyIndex, arena: &A, rows: u32) -> u32
    requires { IsIndexOf (A.has_row arena.now) (A.key_of arena.now) index.now }
{
    let mut found: u32 = 0;
    for at in 0..rows {
        let row = row_at(at, rows);
        if arena.has_key(row) && index.find(arena, &arena.key(row)) == Some(row) {
            found = found.wrapping_add(1);
        }
    }
    found
}

/// Takes a row out, and answers whether it was there.
fn remove_row<A: RowKeys>(index: &mut KeyIndex, arena: &A, row: u32) -> bool
    requires { IsIndexOf (A.has_row arena.now) (A.key_of arena.now) index.old }
    ensures { IsIndexOf (A.has_row arena.now) (A.key_of arena.now) index.new }
{
    if !arena.has_key(row) {
        return false;
    }
    let key = arena.key(row);
    index.remove(arena, &key) == Some(row)
}

/// How many rows were taken out.
pub fn count_removed<A: RowKeys>(index: &mut KeyIndex, arena: &A, rows: u32) -> u32
    requires { IsIndexOf (A.has_row arena.now) (A.key_of arena.now) index.old }
    ensures { IsIndexOf (A.has_row arena.now) (A.key_of arena.now) index.new }
{
    let mut removed: u32 = 0;
    for at in 0..rows {
        if remove_row(index, arena, row_at(at, rows)) {
            removed = removed.wrapping_add(1);
        }
    }
    removed
}
