//! How a handle is opened and closed.
ghost use Rattle.std.specs.Prelude.{◌≡◌, ◌≢◌, [], None, Some, IfSome, MatchOption, ◌⊎◌, IsSome};
ghost use Rattle.embedded_cache.specs.States.{CanOpen, EmbeddedState, most_bound};
ghost use Rattle.shardcache_c.specs.Handles.{cache_in, cache_of};
ghost use Rattle.shardcache_c.specs.Refusals.{RefusesClosing, RefusesOpening};

use crate::codes::{BLOCKS_OUT, CLOSED, DONE, GUARDED, NO_MEMORY, OPEN_ALREADY};
use crate::handle::Handle;
use crate::opening::opening_of;
use crate::shard::{Home, Shard};
use embedded_cache::Opening;
use std::alloc::Global;

/// Opens a cache of so many pages with room for so many rows, whose tables share the segments where `groups` is 1, and have
/// segments of their own where it is 8. Rows go while more bytes are live than the bound, where 0 stands for the greatest one. So many
/// rows may wait for their places in the order of keys, where 0 stands for 1,024. The table of keys is written whole where `wide` is
/// not 0, so that no put doubles it.
#[unsafe(no_mangle)]
pub extern "C" fn shardcache_open(
    alloc: Global,
    handle: &mut Handle,
    pages: u32,
    rows: u32,
    groups: u32,
    bound: u64,
    waiting: u32,
    wide: u32,
) -> u32
    ensures done { result ≡ 0 → (cache : EmbeddedState) × (cache_of handle.new.kept.value ≡ Some cache) × (cache.store.rows ≡ [])
        × (cache.store.pages ≡ pages) × (cache.store.room ≡ rows) × (cache.store.regions ≡ groups)
        × (bound ≢ 0 → cache.bound ≡ bound) × (bound ≡ 0 → cache.bound ≡ most_bound pages groups) }
    ensures closed { result ≡ 0 → cache_of handle.old.kept.value ≡ None }
    ensures refused { result ≢ 0 → cache_of handle.new.kept.value ≡ cache_of handle.old.kept.value }
    ensures why { result ≢ 0 → RefusesOpening result pages rows groups bound (cache_of handle.old.kept.value) }
{
    let opening = match opening_of(pages, rows, groups, bound, waiting, wide != 0) {
        Ok(opening) => opening,
        Err(code) => return code,
    };
    let Some(mut shard) = shard_of(alloc, handle) else {
        return NO_MEMORY;
    };
    let code = open(alloc, &mut shard, opening);
    handle.put(shard);
    code
}

// The handle's shard, or a new one, which is closed. None where there is no memory for it; then the handle is as it was.
#[tactic(auto, using(crate::proofs::Closed::closed))]
fn shard_of(alloc: Global, handle: &mut Handle) -> Option<Box<Shard, Global>>
    ensures { MatchOption result (handle.new.kept.value ≡ handle.old.kept.value)
        (λ shard. cache_in shard.value ≡ cache_of handle.old.kept.value) }
{
    match handle.take(alloc) {
        Some(shard) => Some(shard),
        None => new_shard(alloc),
    }
}

// One that is closed. None where there is no memory for it.
fn new_shard(alloc: Global) -> Option<Box<Shard, Global>>
    ensures { IfSome result (λ shard. cache_in shard.value ≡ None) }
{
    let shard = Shard {
        opened: None,
        home: None,
    };
    let Ok(shard) = Box::new(alloc, shard) else {
        return None;
    };
    Some(shard)
}

#[tactic(auto, using(crate::proofs::Closed::shut))]
fn open(alloc: Global, shard: &mut Shard, opening: Opening) -> u32
    requires opening { CanOpen opening }
    requires shard { opening.shard ≡ 0 }
    ensures done { result ≡ 0 → (cache : EmbeddedState) × (cache_in shard.new ≡ Some cache) × (cache.store.rows ≡ [])
        × (cache.store.pages ≡ opening.pages) × (cache.store.room ≡ opening.rows) × (cache.store.regions ≡ opening.regions)
        × (cache.bound ≡ opening.bound) }
    ensures closed { result ≡ 0 → cache_in shard.old ≡ None }
    ensures refused { result ≢ 0 → cache_in shard.new ≡ cache_in shard.old }
    ensures why { result ≢ 0 → ((result ≡ 2) × IsSome (cache_in shard.old)) ⊎ (result ≡ 4) }
{
    if shard.opened.is_some() {
        return OPEN_ALREADY;
    }
    let Some(home) = home_of(alloc, shard) else {
        return NO_MEMORY;
    };
    match home.open(alloc, opening) {
        Ok(opened) => {
            shard.opened = Some(opened);
            DONE
        }
        Err(home) => {
            shard.home = Some(home);
            NO_MEMORY
        }
    }
}

// The list of the last time, or a new one. None where there is no memory for it.
fn home_of(alloc: Global, shard: &mut Shard) -> Option<Home>
    ensures { shard.new.opened ≡ shard.old.opened }
{
    match shard.home.take() {
        Some(home) => Some(home),
        None => Home::new(alloc),
    }
}

/// Gives the cache's memory back. The handle is closed then, and keeps its list for the next opening.
#[unsafe(no_mangle)]
pub extern "C" fn shardcache_close(alloc: Global, handle: &mut Handle) -> u32
    ensures done { result ≡ 0 → cache_of handle.new.kept.value ≡ None }
    ensures refused { result ≢ 0 → cache_of handle.new.kept.value ≡ cache_of handle.old.kept.value }
    ensures why { result ≢ 0 → RefusesClosing result (cache_of handle.old.kept.value) }
{
    let Some(mut shard) = handle.take(alloc) else {
        return CLOSED;
    };
    let code = close(&mut shard);
    handle.put(shard);
    code
}

fn close(shard: &mut Shard) -> u32
    ensures done { result ≡ 0 → cache_in shard.new ≡ None }
    ensures refused { result ≢ 0 → cache_in shard.new ≡ cache_in shard.old }
    ensures why { result ≢ 0 → RefusesClosing result (cache_in shard.old) }
{
    let Some(opened) = shard.opened.take() else {
        return CLOSED;
    };
    if opened.cache.is_guarded() {
        shard.opened = Some(opened);
        return GUARDED;
    }
    if opened.cache.blocks_out() != 0 {
        shard.opened = Some(opened);
        return BLOCKS_OUT;
    }
    shard.home = Some(opened.close());
    DONE
}
