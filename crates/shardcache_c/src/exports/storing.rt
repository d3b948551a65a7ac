//! Rows that are stored, written over in place and removed.
ghost use Rattle.std.specs.Prelude.{◌≡◌, ◌≢◌, ◌++◌, true, Some, length, ◌+◌};
ghost use Rattle.rows.specs.Key.{in_table};
ghost use Rattle.rows.specs.Apply as apply;
ghost use Rattle.row_bytes.specs.Patches as patches;
ghost use Rattle.embedded_cache.specs.States.{EmbeddedState};
ghost use Rattle.shardcache_c.specs.Handles.{Stores, cache_in, cache_of, replaces};
ghost use Rattle.shardcache_c.specs.Refusals.{RefusesGet, RefusesPatch, RefusesPut};

use crate::codes::{BAD_KEY, BAD_TABLE, BAD_VALUE, CLOSED, DONE, GUARDED, MISSING, SHORT};
use crate::handle::Handle;
use crate::shard::Shard;
use embedded_cache::{Patch, Put};
use layout::{GREATEST_KEY, GREATEST_VALUE, TABLES};
use std::alloc::Global;

/// Stores a row of a table in front of the others. The rows that were used longest ago go, one where the tables are full, and then
/// each while more bytes are live than the bound. Their tags are written to the front of `evicted`, as far as it has places, and
/// `went` is told how many went.
#[unsafe(no_mangle)]
pub extern "C" fn shardcache_put(
    alloc: Global,
    handle: &mut Handle,
    table: u8,
    key: &[u8],
    value: &[u8],
    tag: u32,
    evicted: &mut [u32],
    went: &mut u64,
    replaced: &mut bool,
) -> u32
    ensures done { result ≡ 0 → (old : EmbeddedState) × (new : EmbeddedState) × (cache_of handle.old.kept.value ≡ Some old)
        × (cache_of handle.new.kept.value ≡ Some new)
        × Stores (in_table table key.now) value.now tag went.new replaced.new evicted.old evicted.new old new }
    ensures refused { result ≢ 0 → handle.new.kept.value ≡ handle.old.kept.value }
    ensures why { result ≢ 0 → RefusesPut result table key.now (length value.now) (cache_of handle.old.kept.value) }
{
    let Some(mut shard) = handle.take(alloc) else {
        return CLOSED;
    };
    let code = put(&mut shard, table, key, value, tag, evicted, went, replaced);
    handle.put(shard);
    code
}

fn put(
    shard: &mut Shard,
    table: u8,
    key: &[u8],
    value: &[u8],
    tag: u32,
    evicted: &mut [u32],
    went: &mut u64,
    replaced: &mut bool,
) -> u32
    ensures done { result ≡ 0 → (old : EmbeddedState) × (new : EmbeddedState) × (cache_in shard.old ≡ Some old)
        × (cache_in shard.new ≡ Some new)
        × Stores (in_table table key.now) value.now tag went.new replaced.new evicted.old evicted.new old new }
    ensures refused { result ≢ 0 → shard.new ≡ shard.old }
    ensures why { result ≢ 0 → RefusesPut result table key.now (length value.now) (cache_in shard.old) }
{
    if table as u32 >= TABLES {
        return BAD_TABLE;
    }
    if key.is_empty() || key.len() > GREATEST_KEY {
        return BAD_KEY;
    }
    if value.len() > GREATEST_VALUE {
        return BAD_VALUE;
    }
    let Some(opened) = &mut shard.opened else {
        return CLOSED;
    };
    if opened.cache.is_guarded() {
        return GUARDED;
    }
    let answer = opened.cache.put(table, key, value, tag, evicted);
    *went = answer.evicted;
    *replaced = is_replaced(answer.put);
    DONE
}

fn is_replaced(put: Put) -> bool
    ensures { result ≡ replaces put }
{
    match put {
        Put::Stored => false,
        Put::Replaced => true,
    }
}

/// The same with a value in two pieces, the second one behind the first.
#[unsafe(no_mangle)]
pub extern "C" fn shardcache_put_pieces(
    alloc: Global,
    handle: &mut Handle,
    table: u8,
    key: &[u8],
    first: &[u8],
    second: &[u8],
    tag: u32,
    evicted: &mut [u32],
    went: &mut u64,
    replaced: &mut bool,
) -> u32
    ensures done { result ≡ 0 → (old : EmbeddedState) × (new : EmbeddedState) × (cache_of handle.old.kept.value ≡ Some old)
        × (cache_of handle.new.kept.value ≡ Some new)
        × Stores (in_table table key.now) (first.now ++ second.now) tag went.new replaced.new evicted.old evicted.new old new }
    ensures refused { result ≢ 0 → handle.new.kept.value ≡ handle.old.kept.value }
    ensures why { result ≢ 0 → RefusesPut result table key.now (length first.now + length second.now) (cache_of handle.old.kept.value) }
{
    let Some(mut shard) = handle.take(alloc) else {
        return CLOSED;
    };
    let code = put_pieces(
        &mut shard, table, key, first, second, tag, evicted, went, replaced,
    );
    handle.put(shard);
    code
}

fn put_pieces(
    shard: &mut Shard,
    table: u8,
    key: &[u8],
    first: &[u8],
    second: &[u8],
    tag: u32,
    evicted: &mut [u32],
    went: &mut u64,
    replaced: &mut bool,
) -> u32
    ensures done { result ≡ 0 → (old : EmbeddedState) × (new : EmbeddedState) × (cache_in shard.old ≡ Some old)
        × (cache_in shard.new ≡ Some new)
        × Stores (in_table table key.now) (first.now ++ second.now) tag went.new replaced.new evicted.old evicted.new old new }
    ensures refused { result ≢ 0 → shard.new ≡ shard.old }
    ensures why { result ≢ 0 → RefusesPut result table key.now (length first.now + length second.now) (cache_in shard.old) }
{
    if table as u32 >= TABLES {
        return BAD_TABLE;
    }
    if key.is_empty() || key.len() > GREATEST_KEY {
        return BAD_KEY;
    }
    if first.len() > GREATEST_VALUE || second.len() > GREATEST_VALUE - first.len() {
        return BAD_VALUE;
    }
    let Some(opened) = &mut shard.opened else {
        return CLOSED;
    };
    if opened.cache.is_guarded() {
        return GUARDED;
    }
    let answer = opened
        .cache
        .put_pieces(table, key, first, second, tag, evicted);
    *went = answer.evicted;
    *replaced = is_replaced(answer.put);
    DONE
}

/// Writes bytes over those of the value of a table's key from `at` on, where the row stands. `SHORT` where the value ends before the
/// last of them.
#[unsafe(no_mangle)]
pub extern "C" fn shardcache_patch(
    alloc: Global,
    handle: &mut Handle,
    table: u8,
    key: &[u8],
    at: usize,
    bytes: &[u8],
) -> u32
    ensures done { result ≡ 0 → (old : EmbeddedState) × (new : EmbeddedState) × (cache_of handle.old.kept.value ≡ Some old)
        × (cache_of handle.new.kept.value ≡ Some new)
        × (new.store.rows ≡ patches.patch (in_table table key.now) at bytes.now old.store.rows) }
    ensures refused { result ≢ 0 → handle.new.kept.value ≡ handle.old.kept.value }
    ensures why { result ≢ 0 → RefusesPatch result table key.now (at + length bytes.now) (cache_of handle.old.kept.value) }
{
    let Some(mut shard) = handle.take(alloc) else {
        return CLOSED;
    };
    let code = patch(&mut shard, table, key, at, bytes);
    handle.put(shard);
    code
}

fn patch(shard: &mut Shard, table: u8, key: &[u8], at: usize, bytes: &[u8]) -> u32
    ensures done { result ≡ 0 → (old : EmbeddedState) × (new : EmbeddedState) × (cache_in shard.old ≡ Some old)
        × (cache_in shard.new ≡ Some new) × (new.store.rows ≡ patches.patch (in_table table key.now) at bytes.now old.store.rows) }
    ensures refused { result ≢ 0 → shard.new ≡ shard.old }
    ensures why { result ≢ 0 → RefusesPatch result table key.now (at + length bytes.now) (cache_in shard.old) }
{
    if table as u32 >= TABLES {
        return BAD_TABLE;
    }
    let Some(opened) = &mut shard.opened else {
        return CLOSED;
    };
    if opened.cache.is_guarded() {
        return GUARDED;
    }
    match opened.cache.patch(table, key, at, bytes) {
        Patch::Patched => DONE,
        Patch::Missing => MISSING,
        Patch::Short => SHORT,
    }
}

/// Removes the row of a table's key.
#[unsafe(no_mangle)]
pub extern "C" fn shardcache_erase(alloc: Global, handle: &mut Handle, table: u8, key: &[u8]) -> u32
    ensures done { result ≡ 0 → (old : EmbeddedState) × (new : EmbeddedState) × (cache_of handle.old.kept.value ≡ Some old)
        × (cache_of handle.new.kept.value ≡ Some new) × (apply.has (in_table table key.now) old.store.rows ≡ true)
        × (new.store.rows ≡ apply.without (in_table table key.now) old.store.rows) }
    ensures refused { result ≢ 0 → result ≢ 9 → handle.new.kept.value ≡ handle.old.kept.value }
    ensures why { result ≢ 0 → RefusesGet result table key.now (cache_of handle.old.kept.value) }
{
    let Some(mut shard) = handle.take(alloc) else {
        return CLOSED;
    };
    let code = erase(&mut shard, table, key);
    handle.put(shard);
    code
}

fn erase(shard: &mut Shard, table: u8, key: &[u8]) -> u32
    ensures done { result ≡ 0 → (old : EmbeddedState) × (new : EmbeddedState) × (cache_in shard.old ≡ Some old)
        × (cache_in shard.new ≡ Some new) × (apply.has (in_table table key.now) old.store.rows ≡ true)
        × (new.store.rows ≡ apply.without (in_table table key.now) old.store.rows) }
    ensures refused { result ≢ 0 → result ≢ 9 → shard.new ≡ shard.old }
    ensures why { result ≢ 0 → RefusesGet result table key.now (cache_in shard.old) }
{
    if table as u32 >= TABLES {
        return BAD_TABLE;
    }
    let Some(opened) = &mut shard.opened else {
        return CLOSED;
    };
    if opened.cache.is_guarded() {
        return GUARDED;
    }
    if opened.cache.erase(table, key) {
        DONE
    } else {
        MISSING
    }
}
