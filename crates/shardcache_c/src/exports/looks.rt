//! Values that are looked up.
ghost use Rattle.std.specs.Prelude.{◌≡◌, ◌≢◌, ◌<◌, true, false, None, Some, length, take};
ghost use Rattle.layout.specs.Sizes.{tables};
ghost use Rattle.rows.specs.Key.{in_table};
ghost use Rattle.rows.specs.Row.{Row};
ghost use Rattle.rows.specs.Apply as apply;
ghost use Rattle.embedded_cache.specs.States.{EmbeddedState, IsSameCache, IsUnguarded};
ghost use Rattle.shardcache_c.specs.Handles.{cache_in, cache_of};
ghost use Rattle.shardcache_c.specs.Refusals.{RefusesGet, RefusesPeek, RefusesRead};

use crate::codes::{BAD_TABLE, CLOSED, DONE, GUARDED, MISSING, SHORT};
use crate::handle::Handle;
use crate::shard::Shard;
use embedded_cache::Cache;
use layout::TABLES;
use std::alloc::Global;

/// Where the value of the row of a table's key stands, and its tag. The row is the one used last.
#[unsafe(no_mangle)]
pub extern "C" fn shardcache_get(
    alloc: Global,
    handle: &mut Handle,
    table: u8,
    key: &[u8],
    at: &mut *const u8,
    len: &mut usize,
    tag: &mut u32,
) -> u32
    ensures found { result ≡ 0 → (old : EmbeddedState) × (new : EmbeddedState) × (cache_of handle.old.kept.value ≡ Some old)
        × (cache_of handle.new.kept.value ≡ Some new) × (new.store.rows ≡ (apply.get (in_table table key.now) old.store.rows).0)
        × (row : Row) × (apply.row_of (in_table table key.now) old.store.rows ≡ Some row) × (len.new ≡ length row.value)
        × (tag.new ≡ row.number) }
    ensures missing { result ≡ 9 → (old : EmbeddedState) × (cache_of handle.old.kept.value ≡ Some old)
        × (apply.row_of (in_table table key.now) old.store.rows ≡ None) }
    ensures refused { result ≢ 0 → result ≢ 9 → handle.new.kept.value ≡ handle.old.kept.value }
    ensures why { result ≢ 0 → RefusesGet result table key.now (cache_of handle.old.kept.value) }
{
    let Some(mut shard) = handle.take(alloc) else {
        return CLOSED;
    };
    let code = get(&mut shard, table, key, at, len, tag);
    handle.put(shard);
    code
}

fn get(
    shard: &mut Shard,
    table: u8,
    key: &[u8],
    at: &mut *const u8,
    len: &mut usize,
    tag: &mut u32,
) -> u32
    ensures found { result ≡ 0 → (old : EmbeddedState) × (new : EmbeddedState) × (cache_in shard.old ≡ Some old)
        × (cache_in shard.new ≡ Some new) × (new.store.rows ≡ (apply.get (in_table table key.now) old.store.rows).0)
        × (row : Row) × (apply.row_of (in_table table key.now) old.store.rows ≡ Some row) × (len.new ≡ length row.value)
        × (tag.new ≡ row.number) }
    ensures missing { result ≡ 9 → (old : EmbeddedState) × (cache_in shard.old ≡ Some old)
        × (apply.row_of (in_table table key.now) old.store.rows ≡ None) }
    ensures refused { result ≢ 0 → result ≢ 9 → shard.new ≡ shard.old }
    ensures why { result ≢ 0 → RefusesGet result table key.now (cache_in shard.old) }
{
    if table as u32 >= TABLES {
        return BAD_TABLE;
    }
    let Some(opened) = &mut shard.opened else {
        return CLOSED;
    };
    if opened.cache.is_guarded() {
        return GUARDED;
    }
    if find(&mut opened.cache, table, key, at, len, tag) {
        DONE
    } else {
        MISSING
    }
}

// Tells where the value stands. False where no row has the key.
fn find(
    cache: &mut Cache<'_>,
    table: u8,
    key: &[u8],
    at: &mut *const u8,
    len: &mut usize,
    tag: &mut u32,
) -> bool
    requires table { table < tables }
    requires unguarded { IsUnguarded cache.old }
    ensures found { result ≡ true → (row : Row) × (apply.row_of (in_table table key.now) cache.old.store.rows ≡ Some row)
        × (len.new ≡ length row.value) × (tag.new ≡ row.number) }
    ensures missing { result ≡ false → apply.row_of (in_table table key.now) cache.old.store.rows ≡ None }
    ensures rows { cache.new.store.rows ≡ (apply.get (in_table table key.now) cache.old.store.rows).0 }
    ensures same { IsSameCache cache.old cache.new }
{
    let Some((value, number)) = cache.get(table, key) else {
        return false;
    };
    *len = value.len();
    *tag = number;
    if !value.is_empty() {
        *at = std::ptr::from_ref(&value[0]);
    }
    true
}

/// The same, where the row is used no more than before, and nothing is counted. It may be called under a guard.
#[unsafe(no_mangle)]
pub extern "C" fn shardcache_peek(
    alloc: Global,
    handle: &mut Handle,
    table: u8,
    key: &[u8],
    at: &mut *const u8,
    len: &mut usize,
    tag: &mut u32,
) -> u32
    ensures found { result ≡ 0 → (old : EmbeddedState) × (cache_of handle.old.kept.value ≡ Some old)
        × (row : Row) × (apply.row_of (in_table table key.now) old.store.rows ≡ Some row) × (len.new ≡ length row.value)
        × (tag.new ≡ row.number) }
    ensures missing { result ≡ 9 → (old : EmbeddedState) × (cache_of handle.old.kept.value ≡ Some old)
        × (apply.row_of (in_table table key.now) old.store.rows ≡ None) }
    ensures unchanged { handle.new.kept.value ≡ handle.old.kept.value }
    ensures why { result ≢ 0 → RefusesPeek result table key.now (cache_of handle.old.kept.value) }
{
    let Some(shard) = handle.take(alloc) else {
        return CLOSED;
    };
    let code = peek(&shard, table, key, at, len, tag);
    handle.put(shard);
    code
}

fn peek(
    shard: &Shard,
    table: u8,
    key: &[u8],
    at: &mut *const u8,
    len: &mut usize,
    tag: &mut u32,
) -> u32
    ensures found { result ≡ 0 → (old : EmbeddedState) × (cache_in shard.now ≡ Some old)
        × (row : Row) × (apply.row_of (in_table table key.now) old.store.rows ≡ Some row) × (len.new ≡ length row.value)
        × (tag.new ≡ row.number) }
    ensures missing { result ≡ 9 → (old : EmbeddedState) × (cache_in shard.now ≡ Some old)
        × (apply.row_of (in_table table key.now) old.store.rows ≡ None) }
    ensures why { result ≢ 0 → RefusesPeek result table key.now (cache_in shard.now) }
{
    if table as u32 >= TABLES {
        return BAD_TABLE;
    }
    let Some(opened) = &shard.opened else {
        return CLOSED;
    };
    let Some((value, number)) = opened.cache.peek(table, key) else {
        return MISSING;
    };
    *len = value.len();
    *tag = number;
    if !value.is_empty() {
        *at = std::ptr::from_ref(&value[0]);
    }
    DONE
}

/// Copies the value of the row of a table's key, which is the one used last. Where the buffer is too short, `SHORT`: the length is
/// told, and the row counts as used.
#[unsafe(no_mangle)]
pub extern "C" fn shardcache_read(
    alloc: Global,
    handle: &mut Handle,
    table: u8,
    key: &[u8],
    into: &mut [u8],
    len: &mut usize,
    tag: &mut u32,
) -> u32
    ensures done { result ≡ 0 → (old : EmbeddedState) × (new : EmbeddedState) × (cache_of handle.old.kept.value ≡ Some old)
        × (cache_of handle.new.kept.value ≡ Some new) × (new.store.rows ≡ (apply.get (in_table table key.now) old.store.rows).0)
        × (row : Row) × (apply.row_of (in_table table key.now) old.store.rows ≡ Some row) × (take len.new into.new ≡ row.value)
        × (tag.new ≡ row.number) }
    ensures short { result ≡ 8 → (old : EmbeddedState) × (cache_of handle.old.kept.value ≡ Some old)
        × (row : Row) × (apply.row_of (in_table table key.now) old.store.rows ≡ Some row) × (len.new ≡ length row.value)
        × (length into.old < len.new) }
    ensures missing { result ≡ 9 → (old : EmbeddedState) × (cache_of handle.old.kept.value ≡ Some old)
        × (apply.row_of (in_table table key.now) old.store.rows ≡ None) }
    ensures refused { result ≢ 0 → result ≢ 8 → result ≢ 9 → handle.new.kept.value ≡ handle.old.kept.value }
    ensures why { result ≢ 0 → RefusesRead result table key.now (length into.old) (cache_of handle.old.kept.value) }
{
    let Some(mut shard) = handle.take(alloc) else {
        return CLOSED;
    };
    let code = read(&mut shard, table, key, into, len, tag);
    handle.put(shard);
    code
}

fn read(
    shard: &mut Shard,
    table: u8,
    key: &[u8],
    into: &mut [u8],
    len: &mut usize,
    tag: &mut u32,
) -> u32
    ensures done { result ≡ 0 → (old : EmbeddedState) × (new : EmbeddedState) × (cache_in shard.old ≡ Some old)
        × (cache_in shard.new ≡ Some new) × (new.store.rows ≡ (apply.get (in_table table key.now) old.store.rows).0)
        × (row : Row) × (apply.row_of (in_table table key.now) old.store.rows ≡ Some row) × (take len.new into.new ≡ row.value)
        × (tag.new ≡ row.number) }
    ensures short { result ≡ 8 → (old : EmbeddedState) × (cache_in shard.old ≡ Some old)
        × (row : Row) × (apply.row_of (in_table table key.now) old.store.rows ≡ Some row) × (len.new ≡ length row.value)
        × (length into.old < len.new) }
    ensures missing { result ≡ 9 → (old : EmbeddedState) × (cache_in shard.old ≡ Some old)
        × (apply.row_of (in_table table key.now) old.store.rows ≡ None) }
    ensures refused { result ≢ 0 → result ≢ 8 → result ≢ 9 → shard.new ≡ shard.old }
    ensures why { result ≢ 0 → RefusesRead result table key.now (length into.old) (cache_in shard.old) }
{
    if table as u32 >= TABLES {
        return BAD_TABLE;
    }
    let Some(opened) = &mut shard.opened else {
        return CLOSED;
    };
    if opened.cache.is_guarded() {
        return GUARDED;
    }
    copy(&mut opened.cache, table, key, into, len, tag)
}

// Copies the value of a table's key, where it has room.
fn copy(
    cache: &mut Cache<'_>,
    table: u8,
    key: &[u8],
    into: &mut [u8],
    len: &mut usize,
    tag: &mut u32,
) -> u32
    requires table { table < tables }
    requires unguarded { IsUnguarded cache.old }
    ensures done { result ≡ 0 → (row : Row) × (apply.row_of (in_table table key.now) cache.old.store.rows ≡ Some row)
        × (take len.new into.new ≡ row.value) × (tag.new ≡ row.number) }
    ensures short { result ≡ 8 → (row : Row) × (apply.row_of (in_table table key.now) cache.old.store.rows ≡ Some row)
        × (len.new ≡ length row.value) × (length into.old < len.new) }
    ensures missing { result ≡ 9 → apply.row_of (in_table table key.now) cache.old.store.rows ≡ None }
    ensures others { result ≢ 0 → result ≢ 8 → result ≡ 9 }
    ensures rows { cache.new.store.rows ≡ (apply.get (in_table table key.now) cache.old.store.rows).0 }
    ensures same { IsSameCache cache.old cache.new }
    ensures why { result ≢ 0 → RefusesRead result table key.now (length into.old) (Some cache.old) }
{
    let Some((value, number)) = cache.get(table, key) else {
        return MISSING;
    };
    *len = value.len();
    *tag = number;
    if value.len() > into.len() {
        return SHORT;
    }
    into[..value.len()].copy_from_slice(value);
    DONE
}
