//! Blocks that are lent, and how they come home.
ghost use Rattle.std.specs.Prelude.{◌≡◌, ◌≢◌, ◌+◌, ◌<◌, ◌≤◌, ℕ, true, Option, None, Some, IsNone, IfNone, IfSome, length};
ghost use Rattle.layout.specs.Sizes as sizes;
ghost use Rattle.rows.specs.Key.{in_table};
ghost use Rattle.foreign_list.specs.Blocks.{Block, raced, spent};
ghost use Rattle.shard_memory.specs.Tickets.{HasIdle, tickets_out};
ghost use Rattle.shard_memory.specs.declared.share.Share.{Share as Shares};
ghost use Rattle.embedded_cache.specs.States.{EmbeddedState, IsUnguarded};
ghost use Rattle.shardcache_c.specs.Handles.{cache_in, cache_of};
ghost use Rattle.shardcache_c.specs.Leases.{Lends, LendsWithAny};
ghost use Rattle.shardcache_c.specs.declared.lease.Lease.TheVariants.{Idle, Out, Home};
ghost use Rattle.shardcache_c.specs.Refusals.{IsClosed, RefusesBlockClosing, RefusesBlockOpening, RefusesLend, RefusesRelease};

use crate::codes::{
    BAD_SIZE, BAD_TABLE, BLOCKS_OUT, CLOSED, DONE, GUARDED, NO_MEMORY, NO_TICKET, OPEN_ALREADY,
    RACED,
};
use crate::handle::Handle;
use crate::lease::Lease;
use crate::lease_handle::LeaseHandle;
use crate::shard::Shard;
use embedded_cache::{Cache, ForeignBlock, Lent, Share};
use foreign_list::Released;
use layout::TABLES;
use std::alloc::Global;
use std::mem;

// The greatest head: behind it there is room for any value.
const MOST_HEAD: u32 = 4_384;

/// Opens a block's handle: it has the room for any block, one at a time.
#[unsafe(no_mangle)]
pub extern "C" fn shardcache_block_open(alloc: Global, block: &mut LeaseHandle) -> u32
    ensures done { result ≡ 0 → IsNone block.old.kept.value × (block.new.kept.value ≡ Some Idle) }
    ensures refused { result ≢ 0 → block.new.kept.value ≡ block.old.kept.value }
    ensures why { result ≢ 0 → RefusesBlockOpening result block.old.kept.value }
{
    if let Some(lease) = block.take(alloc) {
        block.put(lease);
        return OPEN_ALREADY;
    }
    let Ok(lease) = Box::new(alloc, Lease::Idle) else {
        return NO_MEMORY;
    };
    block.put(lease);
    DONE
}

/// Lends a block with room for a head of so many bytes and, behind it, the value of the row of a table's key, which is the one used
/// last from now on; where no row has the key, a block without a value. Rows go for it as for a put. It takes no memory: `block` is
/// an open handle whose last block was released.
#[unsafe(no_mangle)]
pub extern "C" fn shardcache_lend(
    alloc: Global,
    handle: &mut Handle,
    table: u8,
    key: &[u8],
    head: u32,
    evicted: &mut [u32],
    went: &mut u64,
    block: &mut LeaseHandle,
    at: &mut *const u8,
    len: &mut usize,
    found: &mut bool,
) -> u32
    ensures done { result ≡ 0 → (old : EmbeddedState) × (new : EmbeddedState) × (cache_of handle.old.kept.value ≡ Some old)
        × (cache_of handle.new.kept.value ≡ Some new) × (lent : Block) × (block.new.kept.value ≡ Some (Out lent))
        × Lends (in_table table key.now) head lent went.new len.new found.new evicted.old evicted.new old new }
    ensures free { result ≡ 0 → (held : Block) → block.old.kept.value ≢ Some (Out held) }
    ensures refused { result ≢ 0 → (handle.new.kept.value ≡ handle.old.kept.value)
        × (block.new.kept.value ≡ block.old.kept.value) }
    ensures why { result ≢ 0 → RefusesLend result table head block.old.kept.value (cache_of handle.old.kept.value) }
{
    let Some(mut lease) = block.take(alloc) else {
        return CLOSED;
    };
    let Some(mut shard) = handle.take(alloc) else {
        block.put(lease);
        return CLOSED;
    };
    let code = lend(
        &mut shard, table, key, head, evicted, went, &mut lease, at, len, found,
    );
    handle.put(shard);
    block.put(lease);
    code
}

fn lend(
    shard: &mut Shard,
    table: u8,
    key: &[u8],
    head: u32,
    evicted: &mut [u32],
    went: &mut u64,
    lease: &mut Lease,
    at: &mut *const u8,
    len: &mut usize,
    found: &mut bool,
) -> u32
    ensures done { result ≡ 0 → (old : EmbeddedState) × (new : EmbeddedState) × (cache_in shard.old ≡ Some old)
        × (cache_in shard.new ≡ Some new) × (lent : Block) × (lease.new ≡ Out lent)
        × Lends (in_table table key.now) head lent went.new len.new found.new evicted.old evicted.new old new }
    ensures free { result ≡ 0 → (held : Block) → lease.old ≢ Out held }
    ensures refused { result ≢ 0 → (shard.new ≡ shard.old) × (lease.new ≡ lease.old) }
    ensures why { result ≢ 0 → RefusesLend result table head (Some lease.old) (cache_in shard.old) }
{
    if table as u32 >= TABLES {
        return BAD_TABLE;
    }
    if head == 0 || head > MOST_HEAD {
        return BAD_SIZE;
    }
    if is_out(lease) {
        return OPEN_ALREADY;
    }
    let Some(opened) = &mut shard.opened else {
        return CLOSED;
    };
    if opened.cache.is_guarded() {
        return GUARDED;
    }
    let Some(lent) = lend_with_any(&mut opened.cache, table, key, head, evicted) else {
        return NO_TICKET;
    };
    *went = lent.evicted;
    *found = lent.len.is_some();
    tell(&lent.block, at, len);
    *lease = Lease::Out(lent.block);
    DONE
}

// With a ticket of either share: a cache that is embedded makes no difference between them. None where no ticket is idle.
fn lend_with_any(
    cache: &mut Cache<'static>,
    table: u8,
    key: &[u8],
    head: u32,
    evicted: &mut [u32],
) -> Option<Lent<'static>>
    requires table { table < sizes.tables }
    requires head { (1 ≤ head) × (head + sizes.greatest_value ≤ sizes.greatest_block) }
    requires unguarded { IsUnguarded cache.old }
    ensures none { IfNone result ((share : Shares) → ¬ HasIdle cache.old.store.lent share) }
    ensures unchanged { IfNone result (cache.new ≡ cache.old) }
    ensures lends { IfSome result (λ lent. LendsWithAny (in_table table key.now) head lent evicted.old evicted.new
        cache.old cache.new) }
{
    match cache.lend(table, key, head, Share::Reply, evicted) {
        Some(lent) => Some(lent),
        None => cache.lend(table, key, head, Share::Request, evicted),
    }
}

/// Gives a lent block back to its owner, from any thread: one try, which waits for nobody. `RACED` where another release came between.
#[unsafe(no_mangle)]
pub extern "C" fn shardcache_release(alloc: Global, block: &mut LeaseHandle) -> u32
    ensures done { result ≡ 0 → (lent : Block) × (block.old.kept.value ≡ Some (Out lent))
        × (block.new.kept.value ≡ Some (Home (spent lent))) }
    ensures raced { result ≡ 17 → (lent : Block) × (found : Option ℕ) × (block.old.kept.value ≡ Some (Out lent))
        × (block.new.kept.value ≡ Some (Out (raced lent found))) }
    ensures refused { result ≢ 0 → result ≢ 17 → block.new.kept.value ≡ block.old.kept.value }
    ensures why { result ≢ 0 → RefusesRelease result block.old.kept.value }
{
    let Some(mut lease) = block.take(alloc) else {
        return CLOSED;
    };
    let code = release(&mut lease);
    block.put(lease);
    code
}

fn release(lease: &mut Lease) -> u32
    ensures done { result ≡ 0 → (lent : Block) × (lease.old ≡ Out lent) × (lease.new ≡ Home (spent lent)) }
    ensures raced { result ≡ 17 → (lent : Block) × (found : Option ℕ) × (lease.old ≡ Out lent)
        × (lease.new ≡ Out (raced lent found)) }
    ensures refused { result ≢ 0 → result ≢ 17 → lease.new ≡ lease.old }
    ensures why { result ≢ 0 → RefusesRelease result (Some lease.old) }
{
    match mem::replace(lease, Lease::Idle) {
        Lease::Idle => CLOSED,
        Lease::Home(pass) => refuse(lease, pass),
        Lease::Out(block) => match block.release() {
            Ok(pass) => {
                *lease = Lease::Home(pass);
                DONE
            }
            Err(again) => {
                *lease = Lease::Out(again.block);
                RACED
            }
        },
    }
}

// What was released is no block: it stays so.
fn refuse(lease: &mut Lease, pass: Released<'static>) -> u32
    ensures code { result ≡ 1 }
    ensures home { lease.new ≡ Home pass.entry }
{
    *lease = Lease::Home(pass);
    CLOSED
}

/// Gives the room of a block's handle back. `BLOCKS_OUT` where it has a block that was not released.
#[unsafe(no_mangle)]
pub extern "C" fn shardcache_block_close(alloc: Global, block: &mut LeaseHandle) -> u32
    ensures done { result ≡ 0 → block.new.kept.value ≡ None }
    ensures kept { (lent : Block) → block.old.kept.value ≡ Some (Out lent) → block.new.kept.value ≡ block.old.kept.value }
    ensures refused { result ≢ 0 → block.new.kept.value ≡ block.old.kept.value }
    ensures why { result ≢ 0 → RefusesBlockClosing result block.old.kept.value }
{
    let Some(lease) = block.take(alloc) else {
        return CLOSED;
    };
    if is_out(&lease) {
        block.put(lease);
        return BLOCKS_OUT;
    }
    DONE
}

// Whether a block is lent and was not released.
fn is_out(lease: &Lease) -> bool
    ensures out { (lent : Block) → lease.now ≡ Out lent → result ≡ true }
    ensures only { result ≡ true → (lent : Block) × (lease.now ≡ Out lent) }
{
    match lease {
        Lease::Out(_) => true,
        Lease::Idle | Lease::Home(_) => false,
    }
}

// Tells where a block's bytes stand, and how many they are.
fn tell(block: &ForeignBlock<'_>, at: &mut *const u8, len: &mut usize)
    ensures { len.new ≡ length block.now.piece.bytes }
{
    let bytes = block.bytes();
    *len = bytes.len();
    if !bytes.is_empty() {
        *at = std::ptr::from_ref(&bytes[0]);
    }
}

/// Takes back each lent block that was released, and tells how many.
#[unsafe(no_mangle)]
pub extern "C" fn shardcache_take_back(alloc: Global, handle: &mut Handle, blocks: &mut u32) -> u32
    ensures done { result ≡ 0 → (old : EmbeddedState) × (new : EmbeddedState) × (cache_of handle.old.kept.value ≡ Some old)
        × (cache_of handle.new.kept.value ≡ Some new) × (new.store.rows ≡ old.store.rows)
        × (tickets_out new.store.lent + blocks.new ≡ tickets_out old.store.lent) }
    ensures refused { result ≢ 0 → handle.new.kept.value ≡ handle.old.kept.value }
    ensures why { result ≢ 0 → IsClosed result (cache_of handle.old.kept.value) }
{
    let Some(mut shard) = handle.take(alloc) else {
        return CLOSED;
    };
    let code = take_back(&mut shard, blocks);
    handle.put(shard);
    code
}

fn take_back(shard: &mut Shard, blocks: &mut u32) -> u32
    ensures done { result ≡ 0 → (old : EmbeddedState) × (new : EmbeddedState) × (cache_in shard.old ≡ Some old)
        × (cache_in shard.new ≡ Some new) × (new.store.rows ≡ old.store.rows)
        × (tickets_out new.store.lent + blocks.new ≡ tickets_out old.store.lent) }
    ensures refused { result ≢ 0 → shard.new ≡ shard.old }
    ensures why { result ≢ 0 → IsClosed result (cache_in shard.old) }
{
    let Some(opened) = &mut shard.opened else {
        return CLOSED;
    };
    *blocks = opened.cache.take_back();
    DONE
}
