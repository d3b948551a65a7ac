//! What a cache tells of itself.
ghost use Rattle.std.specs.Prelude.{◌≡◌, Some, length, ◌≢◌};
ghost use Rattle.rows.specs.Row.{live};
ghost use Rattle.embedded_cache.specs.States.{EmbeddedState};
ghost use Rattle.shardcache_c.specs.Handles.{cache_in, cache_of};
ghost use Rattle.shardcache_c.specs.Refusals.{IsClosed};

use crate::codes::{CLOSED, DONE};
use crate::handle::Handle;
use crate::shard::Shard;
use std::alloc::Global;

/// What a cache tells of itself.
#[repr(C)]
#[derive(Drop)]
pub struct Stats {
    pub live_bytes: u64,
    pub bound: u64,
    pub evictions: u64,
    pub gets: u64,
    pub hits: u64,
    pub rows: u32,
    pub room: u32,
    pub blocks_out: u32,
    /// 1 where a guard stands, and else 0.
    pub is_guarded: u32,
}

/// What the cache tells of itself.
#[unsafe(no_mangle)]
pub extern "C" fn shardcache_stats(alloc: Global, handle: &mut Handle, stats: &mut Stats) -> u32
    ensures done { result ≡ 0 → (old : EmbeddedState) × (cache_of handle.old.kept.value ≡ Some old)
        × (stats.new.rows ≡ length old.store.rows) × (stats.new.live_bytes ≡ live old.store.rows) × (stats.new.bound ≡ old.bound)
        × (stats.new.evictions ≡ old.evictions) × (stats.new.gets ≡ old.gets) × (stats.new.hits ≡ old.hits) }
    ensures unchanged { handle.new.kept.value ≡ handle.old.kept.value }
    ensures why { result ≢ 0 → IsClosed result (cache_of handle.old.kept.value) }
{
    let Some(shard) = handle.take(alloc) else {
        return CLOSED;
    };
    let code = tell(&shard, stats);
    handle.put(shard);
    code
}

fn tell(shard: &Shard, stats: &mut Stats) -> u32
    ensures done { result ≡ 0 → (old : EmbeddedState) × (cache_in shard.now ≡ Some old)
        × (stats.new.rows ≡ length old.store.rows) × (stats.new.live_bytes ≡ live old.store.rows) × (stats.new.bound ≡ old.bound)
        × (stats.new.evictions ≡ old.evictions) × (stats.new.gets ≡ old.gets) × (stats.new.hits ≡ old.hits) }
    ensures why { result ≢ 0 → IsClosed result (cache_in shard.now) }
{
    let Some(opened) = &shard.opened else {
        return CLOSED;
    };
    let told = opened.cache.stats();
    *stats = Stats {
        live_bytes: told.live,
        bound: told.bound,
        evictions: told.evictions,
        gets: told.gets,
        hits: told.hits,
        rows: told.rows,
        room: told.room,
        blocks_out: told.blocks_out,
        is_guarded: if opened.cache.is_guarded() { 1 } else { 0 },
    };
    DONE
}
