//! How a block is given that goes to another shard.
ghost use Rattle.std.specs.Prelude.{◌≡◌, ◌≢◌, ◌⊎◌, ℕ, ◌+◌, ◌-◌, ◌*◌, ◌<◌, ◌≤◌, length, replicate, IfOk, IfErr, IfSome, IfNone};
ghost use Rattle.layout.specs.Sizes.{dense, greatest_block};
ghost use Rattle.rows.specs.Row.{live};
ghost use Rattle.shard_memory.specs.Room.{LacksBlock, HasAllRoom, IsTrimmed};
ghost use Rattle.shard_memory.specs.Shards.{MemoryState, IsCrowded};
ghost use Rattle.shard_memory.specs.Tickets.{HasIdle, tickets_out};
ghost use Rattle.shard_memory.specs.Refusals.{RefusesFor};
ghost use Rattle.regions.specs.Segments.{RegionState};
ghost use Rattle.regions.specs.Shapes.{free_count, group_count, held_count, IsUnguarded};
ghost use Rattle.row_cache.specs.Rows.{rows_of, Keeps};
ghost use Rattle.shard_store.specs.Works.{floor_of};
ghost use Rattle.shard_store.specs.Stores.{IsSameStore, RowsStay, SameGuards};
ghost use Rattle.shard_store.specs.Lending.{RefusesNow, GivesNow, HandsOneBack, LendsBlock};
ghost use Rattle.shard_store.specs.inside.Consistent.{IsConsistent, IsWhole, LeavesRows, store_of};
ghost use Rattle.shard_store.specs.inside.Evicted.{HasEvicted};
ghost use Rattle.shard_store.specs.inside.Homecoming.{TakesHome, TakesOnce, GivesAfter, HandsBack, RefusesAfter};

use crate::evicting::evict;
use crate::segments::give_free_back;
use foreign_list::ForeignBlock;
use row_cache::{Compacted, RowCache};
use rows::Evictions;
use shard_memory::{GiveRefusal, ShardMemory, Share};

// Gives a block of so many bytes, for which a ticket of the share is idle. Where there is no room for it otherwise, the rows that
// were used longest ago go, one by one.
pub(crate) fn find_block<'f, E: Evictions>(
    memory: &mut ShardMemory<'f>,
    cache: &mut RowCache,
    size: u32,
    share: Share,
    evictions: &mut E,
) -> ForeignBlock<'f>
    // A block that may be lent.
    requires some { 1 ≤ size }
    requires most { size ≤ greatest_block }
    requires idle { HasIdle memory.old.lent share }

    // Unguarded, and each row may be told.
    requires unguarded { IsUnguarded cache.old.region }
    requires consistent { IsConsistent memory.old.owner memory.old.pages (group_count cache.old.region) memory.old cache.old.region }
    requires told { length (rows_of cache.old) ≤ E.room evictions.old }

    // A block is lent, others may come home.
    ensures given { GivesAfter share size memory.old memory.new result }

    // Which rows went, and were told.
    ensures evicted { HasEvicted E.tells (floor_of memory.old.pages memory.old.lent (group_count cache.old.region))
        (rows_of cache.old) (rows_of cache.new) evictions.old evictions.new }

    // Memory and cache go together still.
    ensures consistent { IsConsistent memory.old.owner memory.old.pages (group_count cache.old.region) memory.new cache.new.region }
    ensures unguarded { IsUnguarded cache.new.region }
    ensures tables { cache.new.room ≡ cache.old.room }
{
    let mut found = give_unevicted(memory, cache, size, share);
    while found.is_none() {
        evict(cache, evictions);
        found = give_unevicted(memory, cache, size, share);
    }
    found.unwrap()
}

// Gives a block without an eviction. None where nothing is left but to evict.
fn give_unevicted<'f>(
    memory: &mut ShardMemory<'f>,
    cache: &mut RowCache,
    size: u32,
    share: Share,
) -> Option<ForeignBlock<'f>>
    // A block that may be lent.
    requires some { 1 ≤ size }
    requires most { size ≤ greatest_block }
    requires idle { HasIdle memory.old.lent share }

    // No guard stands.
    requires unguarded { IsUnguarded cache.old.region }
    requires consistent { IsConsistent memory.old.owner memory.old.pages (group_count cache.old.region) memory.old cache.old.region }

    // A block is lent, others may come home.
    ensures given { IfSome result (GivesAfter share size memory.old memory.new) }

    // Else more is live than the floor.
    ensures taken { IfNone result (TakesHome memory.old memory.new) }
    ensures pressed { IfNone result
        (floor_of memory.old.pages memory.old.lent (group_count cache.old.region) < live (rows_of cache.new)) }

    // No row went, whatever moved.
    ensures consistent { IsConsistent memory.old.owner memory.old.pages (group_count cache.old.region) memory.new cache.new.region }
    ensures unguarded { IsUnguarded cache.new.region }
    ensures rows { rows_of cache.new ≡ rows_of cache.old }
    ensures tables { cache.new.room ≡ cache.old.room }
{
    match give_uncompacted(memory, cache, size, share) {
        Some(block) => Some(block),
        None => give_compacted(memory, cache, size, share),
    }
}

// Compaction frees a segment, which goes back to the pages, and the block is given. None where no closed segment is sparse.
fn give_compacted<'f>(
    memory: &mut ShardMemory<'f>,
    cache: &mut RowCache,
    size: u32,
    share: Share,
) -> Option<ForeignBlock<'f>>
    // A block that may be lent.
    requires some { 1 ≤ size }
    requires most { size ≤ greatest_block }
    requires idle { HasIdle memory.old.lent share }

    // No guard stands.
    requires unguarded { IsUnguarded cache.old.region }
    requires consistent { IsConsistent memory.old.owner memory.old.pages (group_count cache.old.region) memory.old cache.old.region }

    // A block is lent, others may come home.
    ensures given { IfSome result (GivesAfter share size memory.old memory.new) }

    // Else nothing is left to compact.
    ensures unchanged { IfNone result (memory.new ≡ memory.old) }
    ensures most { IfNone result
        ((held_count cache.new.region - 1 - group_count cache.new.region) * (dense + 1) ≤ live (rows_of cache.new)) }

    // No row went, whatever moved.
    ensures consistent { IsConsistent memory.old.owner memory.old.pages (group_count cache.old.region) memory.new cache.new.region }
    ensures unguarded { IsUnguarded cache.new.region }
    ensures rows { rows_of cache.new ≡ rows_of cache.old }
    ensures tables { cache.new.room ≡ cache.old.room }
{
    if cache.compact() != Compacted::Freed {
        return None;
    }
    give_freed(memory, cache, size, share)
}

// Gives a block; where there is no room for it, once the blocks that came home and the spans without an object are back in the
// pages; and then once a segment is back that is free besides the last one. What of it callers of a store see.
pub(crate) fn give_now<'f>(
    memory: &mut ShardMemory<'f>,
    cache: &mut RowCache,
    size: u32,
    share: Share,
) -> Result<ForeignBlock<'f>, GiveRefusal>
    // Of any size, guarded or not.
    requires some { 1 ≤ size }
    requires whole { IsWhole memory.old cache.old }

    // No row moves or goes.
    ensures same { IsSameStore (store_of memory.old cache.old) (store_of memory.new cache.new) }
    ensures rows { rows_of cache.new ≡ rows_of cache.old }
    ensures stay { RowsStay (store_of memory.old cache.old) (store_of memory.new cache.new) }

    // Why none is given.
    ensures refused { IfErr result (RefusesNow (store_of memory.old cache.old) (store_of memory.new cache.new) size share) }
    ensures unchanged { IfErr result (λ refusal. refusal ≢ GiveRefusal.NoSpan → (memory.new ≡ memory.old) ×
        (cache.new ≡ cache.old)) }

    // What is lent, and how room was made.
    ensures in_turn { IfOk result (λ _. GivesNow size share (store_of memory.old cache.old) (store_of memory.new cache.new)) }
    ensures lends { IfOk result (LendsBlock share (store_of memory.old cache.old) (store_of memory.new cache.new)) }
    ensures zeros { IfOk result (λ block. block.piece.bytes ≡ replicate size 0) }

    // Memory and cache go together still.
    ensures whole { IsWhole memory.new cache.new }
{
    let mut block = give_or_refuse(memory, cache, size, share)?;
    block.bytes_mut().fill(0);
    Ok(block)
}

// The same, of the memory and the cache.
fn give_or_refuse<'f>(
    memory: &mut ShardMemory<'f>,
    cache: &mut RowCache,
    size: u32,
    share: Share,
) -> Result<ForeignBlock<'f>, GiveRefusal>
    // Of any size, guarded or not.
    requires some { 1 ≤ size }
    requires consistent { (regions : ℕ) × IsConsistent memory.old.owner memory.old.pages regions memory.old cache.old.region }

    // What is lent, and how room was made.
    ensures given { IfOk result (GivesAfter share size memory.old memory.new) }
    ensures in_turn { IfOk result (λ _. GivesNow size share (store_of memory.old cache.old) (store_of memory.new cache.new)) }

    // Why none is given.
    ensures refused { IfErr result (RefusesAfter memory.old memory.new cache.new.region size share) }
    ensures unchanged { IfErr result (λ refusal. refusal ≢ GiveRefusal.NoSpan → memory.new ≡ memory.old) }
    ensures kept { IfErr result (λ _. cache.new ≡ cache.old) }

    // No row moves or goes.
    ensures guards { SameGuards cache.old.region cache.new.region }
    ensures consistent { (shard pages regions : ℕ) → IsConsistent shard pages regions memory.old cache.old.region
        → IsConsistent shard pages regions memory.new cache.new.region }
    ensures keeps { Keeps cache.old cache.new }
    ensures rows { rows_of cache.new ≡ rows_of cache.old }
{
    match give_at_once(memory, size, share) {
        Ok(block) => Ok(block),
        Err(GiveRefusal::NoSpan) => {
            give_squeezed(memory, cache, size, share).ok_or(GiveRefusal::NoSpan)
        }
        Err(refusal) => Err(refusal),
    }
}

// The same, where a ticket is idle and the size is that of a block.
fn give_uncompacted<'f>(
    memory: &mut ShardMemory<'f>,
    cache: &mut RowCache,
    size: u32,
    share: Share,
) -> Option<ForeignBlock<'f>>
    // A block that may be lent.
    requires some { 1 ≤ size }
    requires most { size ≤ greatest_block }
    requires idle { HasIdle memory.old.lent share }

    // Guards may stand.
    requires consistent { (regions : ℕ) × IsConsistent memory.old.owner memory.old.pages regions memory.old cache.old.region }

    // A block is lent, others may come home.
    ensures given { IfSome result (GivesAfter share size memory.old memory.new) }

    // Else the memory is crowded.
    ensures none { IfNone result (TakesHome memory.old memory.new × IsCrowded memory.new) }

    // No row went.
    ensures leaves { LeavesRows memory.old memory.new cache.old cache.new }
{
    match give_at_once(memory, size, share) {
        Ok(block) => Some(block),
        Err(_) => give_squeezed(memory, cache, size, share),
    }
}

// The same, where there was no room at once.
fn give_squeezed<'f>(
    memory: &mut ShardMemory<'f>,
    cache: &mut RowCache,
    size: u32,
    share: Share,
) -> Option<ForeignBlock<'f>>
    // A block that may be lent.
    requires some { 1 ≤ size }
    requires most { size ≤ greatest_block }
    requires idle { HasIdle memory.old.lent share }

    // Guards may stand.
    requires consistent { (regions : ℕ) × IsConsistent memory.old.owner memory.old.pages regions memory.old cache.old.region }

    // What is lent, and how room was made.
    ensures given { IfSome result (GivesAfter share size memory.old memory.new) }
    ensures once { TakesOnce memory.old memory.new }
    ensures segments { (cache.new.region ≡ cache.old.region)
        ⊎ HandsOneBack (store_of memory.old cache.old) (store_of memory.new cache.new) }

    // Why none is given.
    ensures none { IfNone result (RefusesAfter memory.old memory.new cache.new.region size share GiveRefusal.NoSpan) }
    ensures unchanged { IfNone result (cache.new ≡ cache.old) }

    // No row moves or goes.
    ensures leaves { LeavesRows memory.old memory.new cache.old cache.new }
{
    match give_trimmed(memory, size, share) {
        Some(block) => Some(block),
        None => give_freed(memory, cache, size, share),
    }
}

// Gives a block, once the blocks that came home and the spans without an object are back in the pages. None where there is no
// room for it.
fn give_trimmed<'f>(
    memory: &mut ShardMemory<'f>,
    size: u32,
    share: Share,
) -> Option<ForeignBlock<'f>>
    // A block that may be lent.
    requires some { 1 ≤ size }
    requires most { size ≤ greatest_block }
    requires idle { HasIdle memory.old.lent share }

    // Blocks may come home before one is lent.
    ensures given { IfSome result (GivesAfter share size memory.old memory.new) }
    ensures taken { IfNone result (TakesHome memory.old memory.new) }
    ensures once { TakesOnce memory.old memory.new }

    // Else no room is left, with pools trimmed.
    ensures none { IfNone result (LacksBlock memory.new.room size × IsTrimmed memory.new.room × IsCrowded memory.new) }

    // Memory and cache go together still.
    ensures consistent { (shard pages regions : ℕ) (region : RegionState) → IsConsistent shard pages regions memory.old region
        → IsConsistent shard pages regions memory.new region }
{
    memory.take_back();
    memory.trim();
    match give_at_once(memory, size, share) {
        Ok(block) => Some(block),
        Err(_) => None,
    }
}

// A segment that is free besides the last one goes back to the pages, and the block is given. None where only one is free; then
// nothing changed.
fn give_freed<'f>(
    memory: &mut ShardMemory<'f>,
    cache: &mut RowCache,
    size: u32,
    share: Share,
) -> Option<ForeignBlock<'f>>
    // A block that may be lent.
    requires some { 1 ≤ size }
    requires most { size ≤ greatest_block }
    requires idle { HasIdle memory.old.lent share }

    // Guards may stand.
    requires consistent { (regions : ℕ) × IsConsistent memory.old.owner memory.old.pages regions memory.old cache.old.region }

    // A segment goes for the block.
    ensures given { IfSome result (GivesAfter share size memory.old memory.new) }
    ensures out { IfSome result (λ _. tickets_out memory.new.lent ≡ tickets_out memory.old.lent + 1) }
    ensures looks { memory.new.take_wholes ≡ memory.old.take_wholes }
    ensures handed { IfSome result (λ _. HandsBack cache.old.region cache.new.region) }

    // Else one segment is free at most.
    ensures none { IfNone result (free_count cache.new.region ≤ 1) }
    ensures unchanged { IfNone result ((memory.new ≡ memory.old) × (cache.new ≡ cache.old)) }

    // No row moves or goes.
    ensures leaves { LeavesRows memory.old memory.new cache.old cache.new }
{
    if !give_free_back(memory, cache) {
        return None;
    }
    Some(give_surely(memory, size, share))
}

// Gives a block where there is room for each.
fn give_surely<'f>(memory: &mut ShardMemory<'f>, size: u32, share: Share) -> ForeignBlock<'f>
    requires some { 1 ≤ size }
    requires most { size ≤ greatest_block }
    requires idle { HasIdle memory.old.lent share }
    requires room { HasAllRoom memory.old.room }
    ensures given { GivesAfter share size memory.old memory.new result }
    ensures out { tickets_out memory.new.lent ≡ tickets_out memory.old.lent + 1 }
    ensures looks { memory.new.take_wholes ≡ memory.old.take_wholes }
    ensures consistent { (shard pages regions : ℕ) (region : RegionState) → IsConsistent shard pages regions memory.old region
        → IsConsistent shard pages regions memory.new region }
{
    let Ok(block) = give_at_once(memory, size, share) else {
        unreachable!()
    };
    block
}

// Gives a block of what is free now.
fn give_at_once<'f>(
    memory: &mut ShardMemory<'f>,
    size: u32,
    share: Share,
) -> Result<ForeignBlock<'f>, GiveRefusal>
    requires { 1 ≤ size }

    // What is lent of what is free.
    ensures given { IfOk result (GivesAfter share size memory.old memory.new) }
    ensures able { IfOk result (λ _. (size ≤ greatest_block) × HasIdle memory.old.lent share × ¬ LacksBlock memory.old.room size) }
    ensures out { IfOk result (λ _. tickets_out memory.new.lent ≡ tickets_out memory.old.lent + 1) }
    ensures looks { memory.new.take_wholes ≡ memory.old.take_wholes }

    // Why none is given.
    ensures refused { IfErr result (RefusesFor memory.old share size) }
    ensures crowded { IfErr result (λ refusal. refusal ≡ GiveRefusal.NoSpan → IsTrimmed memory.old.room → IsCrowded memory.old) }
    ensures unchanged { IfErr result (λ _. memory.new ≡ memory.old) }

    // Memory and cache go together still.
    ensures consistent { (shard pages regions : ℕ) (region : RegionState) → IsConsistent shard pages regions memory.old region
        → IsConsistent shard pages regions memory.new region }
{
    let block = memory.give_uncleared(size, share)?;
    Ok(block)
}
