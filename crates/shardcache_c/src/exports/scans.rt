//! Keys in their order, and rows in the order of their keys.
ghost use Rattle.std.specs.Prelude.{◌≡◌, Some, length, take, ◌≢◌};
ghost use Rattle.rows.specs.Key.{in_table};
ghost use Rattle.rows.specs.KeyBody.{AreKeys};
ghost use Rattle.rows.specs.Apply as apply;
ghost use Rattle.embedded_cache.specs.Scans.{WritesRows};
ghost use Rattle.embedded_cache.specs.States.{EmbeddedState};
ghost use Rattle.shardcache_c.specs.Handles.{cache_in, cache_of};
ghost use Rattle.shardcache_c.specs.Refusals.{RefusesKeys, RefusesRows};

use crate::codes::{BAD_COUNT, BAD_TABLE, CLOSED, DONE, GUARDED, SHORT};
use crate::handle::Handle;
use crate::shard::Shard;
use layout::{KEY_ROOM, MOST_KEYS, TABLES};
use std::alloc::Global;

/// What a scan wrote.
#[repr(C)]
#[derive(Drop)]
pub struct Scan {
    pub keys: u32,
    pub bytes: u32,
}

/// Writes the first keys of a table at or above one, each behind its length in two bytes, low byte first.
#[unsafe(no_mangle)]
pub extern "C" fn shardcache_scan(
    alloc: Global,
    handle: &mut Handle,
    table: u8,
    from: &[u8],
    count: u32,
    into: &mut [u8],
    did: &mut Scan,
) -> u32
    ensures done { result ≡ 0 → (old : EmbeddedState) × (cache_of handle.old.kept.value ≡ Some old)
        × (did.new.keys ≡ length (apply.scanned (in_table table from.now) count old.store.rows))
        × AreKeys (take did.new.bytes into.new) (apply.scanned (in_table table from.now) count old.store.rows) }
    ensures unchanged { handle.new.kept.value ≡ handle.old.kept.value }
    ensures why { result ≢ 0 → RefusesKeys result table count (length into.old) (cache_of handle.old.kept.value) }
{
    let Some(mut shard) = handle.take(alloc) else {
        return CLOSED;
    };
    let code = scan_keys(&mut shard, table, from, count, into, did);
    handle.put(shard);
    code
}

fn scan_keys(
    shard: &mut Shard,
    table: u8,
    from: &[u8],
    count: u32,
    into: &mut [u8],
    did: &mut Scan,
) -> u32
    ensures done { result ≡ 0 → (old : EmbeddedState) × (cache_in shard.old ≡ Some old)
        × (did.new.keys ≡ length (apply.scanned (in_table table from.now) count old.store.rows))
        × AreKeys (take did.new.bytes into.new) (apply.scanned (in_table table from.now) count old.store.rows) }
    ensures unchanged { shard.new ≡ shard.old }
    ensures why { result ≢ 0 → RefusesKeys result table count (length into.old) (cache_in shard.old) }
{
    if table as u32 >= TABLES {
        return BAD_TABLE;
    }
    if count == 0 || count > MOST_KEYS {
        return BAD_COUNT;
    }
    if into.len() < (KEY_ROOM * count) as usize {
        return SHORT;
    }
    let Some(opened) = &mut shard.opened else {
        return CLOSED;
    };
    if opened.cache.is_guarded() {
        return GUARDED;
    }
    let scanned = opened.cache.scan(table, from, count, into);
    *did = Scan {
        keys: scanned.keys,
        bytes: scanned.bytes,
    };
    DONE
}

/// What a scan with values wrote, and how many bytes the next row takes, where there was no room for it; else 0.
#[repr(C)]
#[derive(Drop)]
pub struct RowScan {
    pub rows: u32,
    pub bytes: u32,
    pub wanted: u32,
}

/// Writes the first rows of a table at or above a key, as many as fit whole: each its key behind its length in two bytes, its tag in
/// four, the length of its value in two, and its value, low bytes first.
#[unsafe(no_mangle)]
pub extern "C" fn shardcache_scan_rows(
    alloc: Global,
    handle: &mut Handle,
    table: u8,
    from: &[u8],
    count: u32,
    into: &mut [u8],
    did: &mut RowScan,
) -> u32
    ensures done { result ≡ 0 → (old : EmbeddedState) × (cache_of handle.old.kept.value ≡ Some old)
        × WritesRows table (apply.scanned (in_table table from.now) count old.store.rows) old.store.rows did.new.rows did.new.bytes
        did.new.wanted into.old into.new }
    ensures unchanged { handle.new.kept.value ≡ handle.old.kept.value }
    ensures why { result ≢ 0 → RefusesRows result table count (cache_of handle.old.kept.value) }
{
    let Some(mut shard) = handle.take(alloc) else {
        return CLOSED;
    };
    let code = scan_rows(&mut shard, table, from, count, into, did);
    handle.put(shard);
    code
}

fn scan_rows(
    shard: &mut Shard,
    table: u8,
    from: &[u8],
    count: u32,
    into: &mut [u8],
    did: &mut RowScan,
) -> u32
    ensures done { result ≡ 0 → (old : EmbeddedState) × (cache_in shard.old ≡ Some old)
        × WritesRows table (apply.scanned (in_table table from.now) count old.store.rows) old.store.rows did.new.rows did.new.bytes
        did.new.wanted into.old into.new }
    ensures unchanged { shard.new ≡ shard.old }
    ensures why { result ≢ 0 → RefusesRows result table count (cache_in shard.old) }
{
    if table as u32 >= TABLES {
        return BAD_TABLE;
    }
    if count > MOST_KEYS || count == 0 {
        return BAD_COUNT;
    }
    let Some(opened) = &mut shard.opened else {
        return CLOSED;
    };
    if opened.cache.is_guarded() {
        return GUARDED;
    }
    let scanned = opened.cache.scan_rows(table, from, count, into);
    *did = RowScan {
        rows: scanned.rows,
        bytes: scanned.bytes,
        wanted: scanned.wanted,
    };
    DONE
}
