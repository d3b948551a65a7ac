//! How a put comes to room in the active segment of its group.
ghost use Rattle.std.specs.Prelude.{◌≡◌, ℕ, ◌+◌, ◌-◌, ◌*◌, ◌<◌, ◌≤◌, true, false};
ghost use Rattle.layout.specs.Sizes.{dense, greatest_object};
ghost use Rattle.rows.specs.Row.{live};
ghost use Rattle.shard_memory.specs.Shards.{MemoryState, IsCrowded};
ghost use Rattle.regions.specs.Shapes.{free_count, group_count, held_count, HasGroup, IsUnguarded};
ghost use Rattle.regions.specs.Counts.{left};
ghost use Rattle.row_cache.specs.Rows.{rows_of};
ghost use Rattle.shard_store.specs.Stores.{SameGuards};
ghost use Rattle.shard_store.specs.Works.{pressure};
ghost use Rattle.shard_store.specs.inside.Consistent.{IsConsistent};
ghost use Rattle.shard_store.specs.inside.Homecoming.{TakesHome};

use crate::segments::add_segment;
use row_cache::{Compacted, RowCache};
use shard_memory::ShardMemory;

// Makes room for an object of so many bytes in the active segment of the group, without an eviction. False where nothing is left
// but to evict.
pub(crate) fn make_room(
    memory: &mut ShardMemory<'_>,
    cache: &mut RowCache,
    group: u32,
    size: u32,
) -> bool
    // An object of any size, and no guard.
    requires group { HasGroup cache.old.region group }
    requires size { size ≤ greatest_object }
    requires unguarded { IsUnguarded cache.old.region }
    requires consistent { IsConsistent memory.old.owner memory.old.pages (group_count cache.old.region) memory.old cache.old.region }

    // What each answer means.
    ensures room { result ≡ true → size ≤ left cache.new.region group }
    ensures pressed { result ≡ false
        → pressure memory.old.pages memory.old.lent (group_count cache.old.region) < live (rows_of cache.new) }

    // No row went, and nothing was lent.
    ensures consistent { IsConsistent memory.old.owner memory.old.pages (group_count cache.old.region) memory.new cache.new.region }
    ensures unguarded { IsUnguarded cache.new.region }
    ensures taken { TakesHome memory.old memory.new }
    ensures rows { rows_of cache.new ≡ rows_of cache.old }
    ensures tables { cache.new.room ≡ cache.old.room }
{
    if size <= cache.left(group) {
        return true;
    }
    if !free_second(memory, cache) {
        return size <= cache.left(group);
    }
    begin_next(cache, group, size);
    true
}

// A second segment of the cache is free: it was before, it is one of the pages, once blocks that came home are back in them, or
// compaction frees it. False where none of these can be had.
fn free_second(memory: &mut ShardMemory<'_>, cache: &mut RowCache) -> bool
    requires unguarded { IsUnguarded cache.old.region }
    requires consistent { IsConsistent memory.old.owner memory.old.pages (group_count cache.old.region) memory.old cache.old.region }

    // What each answer means.
    ensures freed { result ≡ true → 2 ≤ free_count cache.new.region }
    ensures crowded { result ≡ false → IsCrowded memory.new }
    ensures full { result ≡ false → (g : ℕ) → HasGroup cache.new.region g → left cache.new.region g < greatest_object
        → (held_count cache.new.region - group_count cache.new.region) * (dense + 1) ≤ live (rows_of cache.new) }

    // No row went, and nothing was lent.
    ensures consistent { IsConsistent memory.old.owner memory.old.pages (group_count cache.old.region) memory.new cache.new.region }
    ensures unguarded { IsUnguarded cache.new.region }
    ensures taken { TakesHome memory.old memory.new }
    ensures rows { rows_of cache.new ≡ rows_of cache.old }
    ensures tables { cache.new.room ≡ cache.old.room }
{
    if cache.free_segments() >= 2 {
        return true;
    }
    memory.take_back();
    memory.trim();
    add_segment(memory, cache) || cache.compact() == Compacted::Freed
}

// Where the active segment of the group has too little room, or there is none, the next one becomes active in it.
fn begin_next(cache: &mut RowCache, group: u32, size: u32)
    requires group { HasGroup cache.old.region group }
    requires size { size ≤ greatest_object }
    requires free { 2 ≤ free_count cache.old.region }
    ensures room { size ≤ left cache.new.region group }
    ensures consistent { (shard pages regions : ℕ) (memory : MemoryState) → IsConsistent shard pages regions memory cache.old.region
        → IsConsistent shard pages regions memory cache.new.region }
    ensures guards { SameGuards cache.old.region cache.new.region }
    ensures rows { rows_of cache.new ≡ rows_of cache.old }
    ensures tables { cache.new.room ≡ cache.old.room }
{
    if cache.left(group) < size {
        cache.next_active(group);
    }
}
