//! How rows go, where a put can't come to room otherwise.
ghost use Rattle.std.specs.Prelude.{◌≡◌, ◌⊎◌, ℕ, ◌+◌, ◌-◌, ◌<◌, ◌≤◌, length, take, true, None};
ghost use Rattle.std.specs.List.{last_or};
ghost use Rattle.layout.specs.Sizes.{greatest_object};
ghost use Rattle.rows.specs.Row.{live, is_of_put};
ghost use Rattle.shard_memory.specs.Shards.{MemoryState};
ghost use Rattle.regions.specs.Counts.{left};
ghost use Rattle.regions.specs.Shapes.{group_count, HasGroup, IsUnguarded};
ghost use Rattle.row_cache.specs.Rows.{rows_of};
ghost use Rattle.shard_store.specs.Stores.{SameGuards};
ghost use Rattle.shard_store.specs.Works.{pressure};
ghost use Rattle.shard_store.specs.inside.Consistent.{IsConsistent};
ghost use Rattle.shard_store.specs.inside.Evicted.{HasEvicted};
ghost use Rattle.shard_store.specs.inside.Homecoming.{TakesHome};

use crate::making_room::make_room;
use row_cache::RowCache;
use rows::Evictions;
use shard_memory::ShardMemory;

// Makes room for an object of so many bytes in the active segment of the group. Where there is none otherwise, the rows that were
// used longest ago go, one by one, of whatever table.
pub(crate) fn make_room_evicting<E: Evictions>(
    memory: &mut ShardMemory<'_>,
    cache: &mut RowCache,
    group: u32,
    size: u32,
    evictions: &mut E,
)
    // Unguarded, and each row may be told.
    requires group { HasGroup cache.old.region group }
    requires size { size ≤ greatest_object }
    requires unguarded { IsUnguarded cache.old.region }
    requires consistent { IsConsistent memory.old.owner memory.old.pages (group_count cache.old.region) memory.old cache.old.region }
    requires told { length (rows_of cache.old) ≤ E.room evictions.old }

    // The active segment has so much left.
    ensures room { size ≤ left cache.new.region group }

    // Which rows went, and were told.
    ensures evicted { HasEvicted E.tells (pressure memory.old.pages memory.old.lent (group_count cache.old.region))
        (rows_of cache.old) (rows_of cache.new) evictions.old evictions.new }
    ensures fewer { (rows_of cache.new ≡ rows_of cache.old) ⊎ (length (rows_of cache.new) < cache.new.room) }

    // Memory and cache go together, nothing was lent.
    ensures consistent { IsConsistent memory.old.owner memory.old.pages (group_count cache.old.region) memory.new cache.new.region }
    ensures unguarded { IsUnguarded cache.new.region }
    ensures taken { TakesHome memory.old memory.new }
    ensures tables { cache.new.room ≡ cache.old.room }
{
    while !make_room(memory, cache, group, size) {
        evict(cache, evictions);
    }
}

// The row that was used longest ago goes, and is told.
pub(crate) fn evict<E: Evictions>(cache: &mut RowCache, evictions: &mut E)
    requires some { 1 ≤ live (rows_of cache.old) }
    requires told { 1 ≤ E.room evictions.old }
    ensures evicted { (tag : ℕ) × (is_of_put tag (last_or None (rows_of cache.old)) ≡ true)
        × E.tells evictions.old tag evictions.new }
    ensures spare { E.room evictions.old ≤ E.room evictions.new + 1 }
    ensures rows { rows_of cache.new ≡ take (length (rows_of cache.old) - 1) (rows_of cache.old) }
    ensures one_less { length (rows_of cache.new) + 1 ≡ length (rows_of cache.old) }
    ensures few { length (rows_of cache.new) < cache.new.room }
    ensures consistent { (shard pages regions : ℕ) (memory : MemoryState) → IsConsistent shard pages regions memory cache.old.region
        → IsConsistent shard pages regions memory cache.new.region }
    ensures guards { SameGuards cache.old.region cache.new.region }
    ensures tables { cache.new.room ≡ cache.old.room }
{
    let Some(tag) = cache.evict_last() else {
        unreachable!()
    };
    evictions.evicted(tag);
}
