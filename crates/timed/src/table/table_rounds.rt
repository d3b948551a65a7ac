//! The rounds that are timed, over the table.
ghost use Rattle.std.specs.Prelude.{◌≡◌, ℕ, ◌<◌, ◌≤◌, length};
ghost use Rattle.key_table.specs.Table.{IsTableOf};
ghost use Rattle.timed.specs.TableArena.{has_row, key_of};

use super::arena::Arena;
use crate::rounds::{RowKeys, row_at};
use key_table::{KeyTable, Keys};

/// Puts a row in at the spot that a search gives.
fn insert_row(table: &mut KeyTable, arena: &Arena, row: u32)
    requires { IsTableOf (has_row arena.now) (key_of arena.now) table.old }
    ensures { IsTableOf (has_row arena.now) (key_of arena.now) table.new }
{
    if !arena.has_key(row) || table.len() >= table.room() || row == u32::MAX {
        return;
    }
    let key = arena.key(row);
    let Err(spot) = table.find(arena, &key) else {
        return;
    };
    let _taken = table.insert(spot, row); // a row that finds no slot is left out
}

/// Puts rows in, each at the place that a search gives.
pub fn fill(table: &mut KeyTable, arena: &Arena, rows: u32)
    requires { IsTableOf (has_row arena.now) (key_of arena.now) table.old }
    ensures { IsTableOf (has_row arena.now) (key_of arena.now) table.new }
{
    for row in 0..rows {
        insert_row(table, arena, row);
    }
}

/// How many searches found their row.
pub fn count_found(table: &KeyTable, arena: &Arena, rows: u32) -> u32
    requires { IsTableOf (has_row arena.now) (key_of arena.now) table.now }
{
    let mut count: u32 = 0;
    for at in 0..rows {
        let row = row_at(at, rows);
        if arena.has_key(row) {
            let key = arena.key(row);
            if let Ok(found) = table.find(arena, &key) {
                if found.row == row {
                    count = count.wrapping_add(1);
                }
            }
        }
    }
    count
}

/// Takes a row out, and answers whether it was there.
fn remove_row(table: &mut KeyTable, arena: &Arena, row: u32) -> bool
    requires { IsTableOf (has_row arena.now) (key_of arena.now) table.old }
    ensures { IsTableOf (has_row arena.now) (key_of arena.now) table.new }
{
    if !arena.has_key(row) {
        return false;
    }
    let key = arena.key(row);
    let Ok(found) = table.find(arena, &key) else {
        return false;
    };
    if !table.remove(found) {
        return false;
    }
    found.row == row
}

/// How many rows were taken out.
pub fn count_removed(table: &mut KeyTable, arena: &Arena, rows: u32) -> u32
    requires { IsTableOf (has_row arena.now) (key_of arena.now) table.old }
    ensures { IsTableOf (has_row arena.now) (key_of arena.now) table.new }
{
    let mut removed: u32 = 0;
    for at in 0..rows {
        if remove_row(table, arena, row_at(at, rows)) {
            removed = removed.wrapping_add(1);
        }
    }
    removed
}
