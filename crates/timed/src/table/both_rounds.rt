//! The rounds that are timed, over the table and the order together.
ghost use Rattle.std.specs.Prelude.{◌≡◌, ℕ, ◌<◌, ◌≤◌, length};
ghost use Rattle.key_table.specs.Lazy.{IsLazyOf};
ghost use Rattle.timed.specs.TableArena.{has_row, key_of};

use super::arena::Arena;
use crate::rounds::{RowKeys, row_at};
use key_table::{Keys, LazyIndex};

/// Puts a row in at the spot that a search gives.
fn insert_row(index: &mut LazyIndex, arena: &Arena, row: u32)
    requires { IsLazyOf (has_row arena.now) (key_of arena.now) index.old }
    ensures { IsLazyOf (has_row arena.now) (key_of arena.now) index.new }
{
    if !arena.has_key(row) || index.len() >= index.room() || row >= index.room() {
        return;
    }
    let key = arena.key(row);
    let Err(spot) = index.find(arena, &key) else {
        return;
    };
    index.insert(arena, spot, row);
}

/// Puts rows in, each at the spot that a search gives.
pub fn fill(index: &mut LazyIndex, arena: &Arena, rows: u32)
    requires { IsLazyOf (has_row arena.now) (key_of arena.now) index.old }
    ensures { IsLazyOf (has_row arena.now) (key_of arena.now) index.new }
{
    for row in 0..rows {
        insert_row(index, arena, row);
    }
}

/// How many searches found their row.
pub fn count_found(index: &LazyIndex, arena: &Arena, rows: u32) -> u32
    requires { IsLazyOf (has_row arena.now) (key_of arena.now) index.now }
{
    let mut count: u32 = 0;
    for at in 0..rows {
        let row = row_at(at, rows);
        if arena.has_key(row) {
            let key = arena.key(row);
            if let Ok(found) = index.find(arena, &key) {
                if found.row == row {
                    count = count.wrapping_add(1);
                }
            }
        }
    }
    count
}

/// Puts the rows that wait into the order, if they are to be.
pub fn settle_if(index: &mut LazyIndex, arena: &Arena, wanted: bool)
    requires { IsLazyOf (has_row arena.now) (key_of arena.now) index.old }
    ensures { IsLazyOf (has_row arena.now) (key_of arena.now) index.new }
{
    if !wanted {
        return;
    }
    index.settle(arena);
}

/// Takes a row out, and answers whether it was there.
fn remove_row(index: &mut LazyIndex, arena: &Arena, row: u32) -> bool
    requires { IsLazyOf (has_row arena.now) (key_of arena.now) index.old }
    ensures { IsLazyOf (has_row arena.now) (key_of arena.now) index.new }
{
    if !arena.has_key(row) {
        return false;
    }
    let key = arena.key(row);
    let Ok(found) = index.find(arena, &key) else {
        return false;
    };
    let standing = index.standing(arena, found);
    index.remove(standing);
    found.row == row
}

/// How many rows were taken out.
pub fn count_removed(index: &mut LazyIndex, arena: &Arena, rows: u32) -> u32
    requires { IsLazyOf (has_row arena.now) (key_of arena.now) index.old }
    ensures { IsLazyOf (has_row arena.now) (key_of arena.now) index.new }
{
    let mut removed: u32 = 0;
    for at in 0..rows {
        if remove_row(index, arena, row_at(at, rows)) {
            removed = removed.wrapping_add(1);
        }
    }
    removed
}
