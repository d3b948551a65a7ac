//! A caller of `row_cache`: rows are stored, compaction makes room for one, and the segments are given up.
ghost use Rattle.std.specs.Prelude.{◌≡◌, ◌<◌, ◌≤◌, [], length, true, false, IfOk, IfSome};
ghost use Rattle.row_cache.specs.Apply as apply;
ghost use Rattle.row_cache.specs.Counts.{left};
ghost use Rattle.row_cache.specs.Key.{in_table};
ghost use Rattle.row_cache.specs.Rows.{rows_of};
ghost use Rattle.row_cache.specs.Shapes.{free_count, IsUnguarded};
ghost use Rattle.row_cache.specs.Sizes as sizes;

use layout::GREATEST_OBJECT;
use row_cache::{Compacted, Piece, RowCache};
use std::alloc::AllocError;

/// How many rows the cache has room for.
const ROOM: u32 = 1000;

/// Stores a row of a table in front of the others. False where there are as many rows as there is room for, or the segment that is
/// active for the table has too little room; then nothing changed.
pub fn keep_row(cache: &mut RowCache, table: u8, key: &[u8], value: &[u8]) -> bool
    requires room { cache.old.room ≡ 1000 }
    requires table { table < sizes.tables }
    requires some_key { 1 ≤ length key.now }
    requires short_key { length key.now ≤ sizes.greatest_key }
    requires short_value { length value.now ≤ sizes.greatest_value }
    ensures room { cache.new.room ≡ 1000 }
    ensures stored { result ≡ true → rows_of cache.new ≡ (apply.put (in_table table key.now) value.now 0 (rows_of cache.old)).0 }
    ensures unchanged { result ≡ false → cache.new ≡ cache.old }
{
    if cache.rows() >= ROOM {
        return false;
    }
    let Ok(_) = cache.put(table, key, value, 0) else {
        return false;
    };
    true
}

/// Frees a second segment by compaction where fewer are free. False where none can be freed: then rows have to go.
fn free_second(cache: &mut RowCache) -> bool
    ensures freed { result ≡ true → 2 ≤ free_count cache.new.region }
    ensures rows { rows_of cache.new ≡ rows_of cache.old }
    ensures tables { cache.new.room ≡ cache.old.room }
{
    if cache.free_segments() >= 2 {
        return true;
    }
    if cache.free_segments() == 0 {
        return false;
    }
    cache.compact() == Compacted::Freed
}

/// Has a segment active for table 0 that has room for a row of any size, and answers the group that it is active in.
fn begin_next(cache: &mut RowCache) -> u32
    requires { 2 ≤ free_count cache.old.region }
    ensures room { sizes.greatest_object ≤ left cache.new.region result }
    ensures rows { rows_of cache.new ≡ rows_of cache.old }
    ensures tables { cache.new.room ≡ cache.old.room }
{
    let group = cache.group_of(0);
    if cache.left(group) >= GREATEST_OBJECT {
        return group;
    }
    cache.next_active(group);
    group
}

/// Makes room for a row of any size of table 0, and answers the group where it is. None where no segment can be freed. No row goes.
pub fn make_room(cache: &mut RowCache) -> Option<u32>
    ensures room { IfSome result (λ group. sizes.greatest_object ≤ left cache.new.region group) }
    ensures rows { rows_of cache.new ≡ rows_of cache.old }
    ensures tables { cache.new.room ≡ cache.old.room }
{
    if !free_second(cache) {
        return None;
    }
    Some(begin_next(cache))
}

/// Takes all segments out of a cache, into `pieces`. The rows go.
///
/// # Errors
/// Want of memory for `pieces`. The piece that was taken then is lost.
pub fn give_all(cache: &mut RowCache, pieces: &mut Vec<Piece>) -> Result<(), AllocError>
    requires { IsUnguarded cache.old.region }
    ensures { IfOk result (λ _. rows_of cache.new ≡ []) }
{
    while let Some(piece) = cache.give_up() {
        pieces.push(piece)?;
    }
    Ok(())
}
