//! Guards, and compaction.
ghost use Rattle.std.specs.Prelude.{◌≡◌, ◌≢◌, ◌+◌, ◌-◌, ◌≤◌, Some};
ghost use Rattle.regions.specs.Shapes.{guards_of};
ghost use Rattle.shard_store.specs.Stores.{group_for, with_guards};
ghost use Rattle.embedded_cache.specs.States.{EmbeddedState};
ghost use Rattle.shardcache_c.specs.Handles.{cache_in, cache_of};
ghost use Rattle.shardcache_c.specs.Refusals.{RefusesCompaction, RefusesGuard, RefusesUnguard};

use crate::codes::{BAD_TABLE, CLOSED, DONE, GUARDED, UNGUARDED};
use crate::handle::Handle;
use crate::shard::Shard;
use embedded_cache::Compacted;
use layout::TABLES;
use std::alloc::Global;

// So many guards may stand on a group. Nobody nests as many.
const MOST_GUARDS: u32 = 1_000_000;

/// One guard more on the segments in which the rows of a table stand: while one stands, no row of them is moved, and no byte of one
/// that went is used again.
#[unsafe(no_mangle)]
pub extern "C" fn shardcache_guard(alloc: Global, handle: &mut Handle, table: u8) -> u32
    ensures done { result ≡ 0 → (old : EmbeddedState) × (new : EmbeddedState) × (cache_of handle.old.kept.value ≡ Some old)
        × (cache_of handle.new.kept.value ≡ Some new) × (new.store ≡ with_guards old.store (group_for old.store table)
        (guards_of old.store.region (group_for old.store table) + 1)) }
    ensures refused { result ≢ 0 → handle.new.kept.value ≡ handle.old.kept.value }
    ensures why { result ≢ 0 → RefusesGuard result table (cache_of handle.old.kept.value) }
{
    let Some(mut shard) = handle.take(alloc) else {
        return CLOSED;
    };
    let code = guard(&mut shard, table);
    handle.put(shard);
    code
}

fn guard(shard: &mut Shard, table: u8) -> u32
    ensures done { result ≡ 0 → (old : EmbeddedState) × (new : EmbeddedState) × (cache_in shard.old ≡ Some old)
        × (cache_in shard.new ≡ Some new) × (new.store ≡ with_guards old.store (group_for old.store table)
        (guards_of old.store.region (group_for old.store table) + 1)) }
    ensures refused { result ≢ 0 → shard.new ≡ shard.old }
    ensures why { result ≢ 0 → RefusesGuard result table (cache_in shard.old) }
{
    if table as u32 >= TABLES {
        return BAD_TABLE;
    }
    let Some(opened) = &mut shard.opened else {
        return CLOSED;
    };
    if opened.cache.guards(table) >= MOST_GUARDS {
        return GUARDED;
    }
    opened.cache.guard(table);
    DONE
}

/// One guard less.
#[unsafe(no_mangle)]
pub extern "C" fn shardcache_unguard(alloc: Global, handle: &mut Handle, table: u8) -> u32
    ensures done { result ≡ 0 → (old : EmbeddedState) × (new : EmbeddedState) × (cache_of handle.old.kept.value ≡ Some old)
        × (cache_of handle.new.kept.value ≡ Some new) × (new.store ≡ with_guards old.store (group_for old.store table)
        (guards_of old.store.region (group_for old.store table) - 1)) × (1 ≤ guards_of old.store.region (group_for old.store table)) }
    ensures refused { result ≢ 0 → handle.new.kept.value ≡ handle.old.kept.value }
    ensures why { result ≢ 0 → RefusesUnguard result table (cache_of handle.old.kept.value) }
{
    let Some(mut shard) = handle.take(alloc) else {
        return CLOSED;
    };
    let code = unguard(&mut shard, table);
    handle.put(shard);
    code
}

fn unguard(shard: &mut Shard, table: u8) -> u32
    ensures done { result ≡ 0 → (old : EmbeddedState) × (new : EmbeddedState) × (cache_in shard.old ≡ Some old)
        × (cache_in shard.new ≡ Some new) × (new.store ≡ with_guards old.store (group_for old.store table)
        (guards_of old.store.region (group_for old.store table) - 1)) × (1 ≤ guards_of old.store.region (group_for old.store table)) }
    ensures refused { result ≢ 0 → shard.new ≡ shard.old }
    ensures why { result ≢ 0 → RefusesUnguard result table (cache_in shard.old) }
{
    if table as u32 >= TABLES {
        return BAD_TABLE;
    }
    let Some(opened) = &mut shard.opened else {
        return CLOSED;
    };
    if opened.cache.guards(table) == 0 {
        return UNGUARDED;
    }
    opened.cache.unguard(table);
    DONE
}

/// Empties segments until two are free, or none is sparse. No row goes.
#[unsafe(no_mangle)]
pub extern "C" fn shardcache_compact(alloc: Global, handle: &mut Handle) -> u32
    ensures done { result ≡ 0 → (old : EmbeddedState) × (new : EmbeddedState) × (cache_of handle.old.kept.value ≡ Some old)
        × (cache_of handle.new.kept.value ≡ Some new) × (new.store.rows ≡ old.store.rows) }
    ensures refused { result ≢ 0 → handle.new.kept.value ≡ handle.old.kept.value }
    ensures why { result ≢ 0 → RefusesCompaction result (cache_of handle.old.kept.value) }
{
    let Some(mut shard) = handle.take(alloc) else {
        return CLOSED;
    };
    let code = compact(&mut shard);
    handle.put(shard);
    code
}

fn compact(shard: &mut Shard) -> u32
    ensures done { result ≡ 0 → (old : EmbeddedState) × (new : EmbeddedState) × (cache_in shard.old ≡ Some old)
        × (cache_in shard.new ≡ Some new) × (new.store.rows ≡ old.store.rows) }
    ensures refused { result ≢ 0 → shard.new ≡ shard.old }
    ensures why { result ≢ 0 → RefusesCompaction result (cache_in shard.old) }
{
    let Some(opened) = &mut shard.opened else {
        return CLOSED;
    };
    match opened.cache.compact() {
        Compacted::Guarded => GUARDED,
        _ => DONE,
    }
}
