//! How a row is stored, behind the evictions that make room for it.
ghost use Rattle.std.specs.Prelude.{◌≡◌, ◌⊎◌, ℕ, ◌<◌, ◌≤◌, length, true};
ghost use Rattle.layout.specs.Sizes.{greatest_value, tables};
ghost use Rattle.rows.specs.Key.{in_table};
ghost use Rattle.rows.specs.Spelled.{IsKey};
ghost use Rattle.rows.specs.Row.{size};
ghost use Rattle.rows.specs.Apply as apply;
ghost use Rattle.shard_memory.specs.Shards.{MemoryState};
ghost use Rattle.regions.specs.Shapes.{group_count, IsUnguarded};
ghost use Rattle.regions.specs.Counts.{left};
ghost use Rattle.row_cache.specs.Rows.{group_for, rows_of, reply_of};
ghost use Rattle.shard_store.specs.Stores.{SameGuards};
ghost use Rattle.shard_store.specs.Works.{pressure};
ghost use Rattle.shard_store.specs.inside.Consistent.{IsConsistent};
ghost use Rattle.shard_store.specs.inside.Evicted.{HasDone};
ghost use Rattle.shard_store.specs.inside.Homecoming.{TakesHome};

use crate::evicting::make_room_evicting;
use row_bytes::row_size;
use row_cache::{Put, RowCache};
use rows::Evictions;
use shard_memory::ShardMemory;

// Makes room for a row of a table in the table's group, and stores it. Each row that goes is told.
pub(crate) fn put_evicting<E: Evictions>(
    memory: &mut ShardMemory<'_>,
    cache: &mut RowCache,
    table: u8,
    key: &[u8],
    value: &[u8],
    tag: u32,
    evictions: &mut E,
) -> Put
    // A row of any size, with no guard standing.
    requires table { table < tables }
    requires key { IsKey key.now }
    requires value { length value.now ≤ greatest_value }
    requires unguarded { IsUnguarded cache.old.region }
    requires consistent { IsConsistent memory.old.owner memory.old.pages (group_count cache.old.region) memory.old cache.old.region }

    // There is room for it, and each other row may be told.
    requires room { (apply.has (in_table table key.now) (rows_of cache.old) ≡ true) ⊎ (length (rows_of cache.old) < cache.old.room) }
    requires told { length (rows_of cache.old) ≤ E.room evictions.old }

    // What it does, answers and tells.
    ensures stored { HasDone E.tells (pressure memory.old.pages memory.old.lent (group_count cache.old.region))
        (apply.put (in_table table key.now) value.now tag) (reply_of result) (rows_of cache.old) (rows_of cache.new)
        evictions.old evictions.new }

    // Memory and cache go together, nothing was lent.
    ensures consistent { IsConsistent memory.old.owner memory.old.pages (group_count cache.old.region) memory.new cache.new.region }
    ensures unguarded { IsUnguarded cache.new.region }
    ensures taken { TakesHome memory.old memory.new }
    ensures tables { cache.new.room ≡ cache.old.room }
{
    let group = cache.group_of(table);
    make_room_evicting(memory, cache, group, row_size(key, value), evictions);
    store(cache, table, key, value, tag)
}

// Stores the row, for which the active segment of its table's group has room.
fn store(cache: &mut RowCache, table: u8, key: &[u8], value: &[u8], tag: u32) -> Put
    // A row for which there is room.
    requires table { table < tables }
    requires key { IsKey key.now }
    requires value { length value.now ≤ greatest_value }
    requires fits { size key.now value.now ≤ left cache.old.region (group_for cache.old.region table) }
    requires room { (apply.has (in_table table key.now) (rows_of cache.old) ≡ true) ⊎ (length (rows_of cache.old) < cache.old.room) }

    // What it does and answers.
    ensures rows { rows_of cache.new ≡ (apply.put (in_table table key.now) value.now tag (rows_of cache.old)).0 }
    ensures reply { reply_of result ≡ (apply.put (in_table table key.now) value.now tag (rows_of cache.old)).1 }

    // Memory and cache go together still.
    ensures consistent { (shard pages regions : ℕ) (memory : MemoryState) → IsConsistent shard pages regions memory cache.old.region
        → IsConsistent shard pages regions memory cache.new.region }
    ensures guards { SameGuards cache.old.region cache.new.region }
    ensures tables { cache.new.room ≡ cache.old.room }
{
    let Ok(did) = cache.put(table, key, value, tag) else {
        unreachable!()
    };
    did
}
