//! Segments of the pages that go to the cache.
ghost use Rattle.std.specs.Prelude.{◌≡◌, ℕ, ◌+◌, ◌/◌, ◌<◌, ◌≤◌, true, false, None, [], length};
ghost use Rattle.layout.specs.Sizes.{segment_pages};
ghost use Rattle.shard_memory.specs.Room.{HasAllRoom, IsTrimmed};
ghost use Rattle.shard_memory.specs.Shards.{IsCrowded};
ghost use Rattle.shard_memory.specs.Tickets.{tickets_out};
ghost use Rattle.regions.specs.Shapes.{active_of, free_count, group_count, IsUnguarded};
ghost use Rattle.row_cache.specs.Rows.{rows_of};
ghost use Rattle.shard_store.specs.Stores.{HoldsTwo, SameGuards};
ghost use Rattle.shard_store.specs.inside.Consistent.{IsMadeOf, IsConsistent, LeavesRows};
ghost use Rattle.shard_store.specs.inside.Homecoming.{SameTickets, HandsBack};

use row_cache::RowCache;
use shard_memory::ShardMemory;

// Gives the cache its first two segments, one of them active in group 0.
pub(crate) fn begin(memory: &mut ShardMemory<'_>, cache: &mut RowCache)
    // Nothing is given or lent yet.
    requires made { IsMadeOf memory.old.owner memory.old.pages (group_count cache.old.region) memory.old cache.old.region }
    requires none { memory.old.segments ≡ [] }
    requires groups { 1 ≤ group_count cache.old.region }
    requires idle { tickets_out memory.old.lent ≡ 0 }
    requires free { free_count cache.old.region ≡ 0 }
    requires active { active_of cache.old.region 0 ≡ None }
    requires trimmed { IsTrimmed memory.old.room }

    // A segment is active, another one free.
    ensures consistent { IsConsistent memory.old.owner memory.old.pages (group_count cache.old.region) memory.new cache.new.region }
    ensures segments { HoldsTwo cache.new.region }

    // Nothing else has changed.
    ensures guards { SameGuards cache.old.region cache.new.region }
    ensures tickets { SameTickets memory.old memory.new }
    ensures rows { rows_of cache.new ≡ rows_of cache.old }
    ensures room { cache.new.room ≡ cache.old.room }
{
    add_first(memory, cache);
    add_first(memory, cache);
    cache.next_active(0);
}

// Gives the cache a free segment more, while most of the pages are free.
fn add_first(memory: &mut ShardMemory<'_>, cache: &mut RowCache)
    // The pages have another segment.
    requires made { IsMadeOf memory.old.owner memory.old.pages (group_count cache.old.region) memory.old cache.old.region }
    requires few { length memory.old.segments < memory.old.pages / segment_pages }
    requires idle { tickets_out memory.old.lent ≡ 0 }
    requires trimmed { IsTrimmed memory.old.room }

    // The cache has one segment more.
    ensures made { IsMadeOf memory.old.owner memory.old.pages (group_count cache.old.region) memory.new cache.new.region }
    ensures one_more { length memory.new.segments ≡ length memory.old.segments + 1 }
    ensures free { free_count cache.new.region ≡ free_count cache.old.region + 1 }
    ensures trimmed { IsTrimmed memory.new.room }

    // Nothing else has changed.
    ensures active { active_of cache.new.region 0 ≡ active_of cache.old.region 0 }
    ensures guards { SameGuards cache.old.region cache.new.region }
    ensures tickets { SameTickets memory.old memory.new }
    ensures rows { rows_of cache.new ≡ rows_of cache.old }
    ensures room { cache.new.room ≡ cache.old.room }
{
    if !add_segment(memory, cache) {
        unreachable!()
    }
}

// Gives the cache a free segment more, out of the pages. False where they have no room for one; then nothing changed.
pub(crate) fn add_segment(memory: &mut ShardMemory<'_>, cache: &mut RowCache) -> bool
    requires made { IsMadeOf memory.old.owner memory.old.pages (group_count cache.old.region) memory.old cache.old.region }

    // Memory and cache go together still.
    ensures made { IsMadeOf memory.old.owner memory.old.pages (group_count cache.old.region) memory.new cache.new.region }

    // When no segment is added.
    ensures crowded { result ≡ false → IsTrimmed memory.old.room → IsCrowded memory.old }
    ensures unchanged { result ≡ false → (memory.new ≡ memory.old) × (cache.new ≡ cache.old) }

    // Else the cache has another one.
    ensures one_more { result ≡ true → length memory.new.segments ≡ length memory.old.segments + 1 }
    ensures free { result ≡ true → free_count cache.new.region ≡ free_count cache.old.region + 1 }

    // Nothing else has changed.
    ensures trimmed { IsTrimmed memory.old.room → IsTrimmed memory.new.room }
    ensures active { active_of cache.new.region 0 ≡ active_of cache.old.region 0 }
    ensures guards { SameGuards cache.old.region cache.new.region }
    ensures tickets { SameTickets memory.old memory.new }
    ensures rows { rows_of cache.new ≡ rows_of cache.old }
    ensures room { cache.new.room ≡ cache.old.room }
{
    let Some(piece) = memory.give_segment() else {
        return false;
    };
    cache.add_segment(piece);
    true
}

// Gives a free segment of the cache back to the pages, but not the last one. False where no other one is free; then nothing
// changed.
pub(crate) fn give_free_back(memory: &mut ShardMemory<'_>, cache: &mut RowCache) -> bool
    requires made { (regions : ℕ) × IsMadeOf memory.old.owner memory.old.pages regions memory.old cache.old.region }

    // What each answer means.
    ensures room { result ≡ true → HasAllRoom memory.new.room }
    ensures none { result ≡ false → free_count cache.old.region ≤ 1 }
    ensures unchanged { result ≡ false → (memory.new ≡ memory.old) × (cache.new ≡ cache.old) }
    ensures handed { result ≡ true → HandsBack cache.old.region cache.new.region }

    // No row moved, and no block came home.
    ensures leaves { LeavesRows memory.old memory.new cache.old cache.new }
    ensures tickets { SameTickets memory.old memory.new }
{
    let Some(piece) = cache.take_free() else {
        return false;
    };
    memory.segment_back(piece);
    true
}

// Gives all segments of the cache back to the pages. Its rows go.
pub(crate) fn give_back(memory: &mut ShardMemory<'_>, cache: &mut RowCache)
    requires unguarded { IsUnguarded cache.old.region }
    requires made { IsMadeOf memory.old.owner memory.old.pages (group_count cache.old.region) memory.old cache.old.region }
    ensures segments { memory.new.segments ≡ [] }
    ensures blocks { memory.new.blocks ≡ [] }
    ensures tickets { SameTickets memory.old memory.new }
{
    while give_one_back(memory, cache) {}
}

// Gives one segment of the cache back to the pages. False where it has none.
fn give_one_back(memory: &mut ShardMemory<'_>, cache: &mut RowCache) -> bool
    requires unguarded { IsUnguarded cache.old.region }
    requires made { IsMadeOf memory.old.owner memory.old.pages (group_count cache.old.region) memory.old cache.old.region }
    ensures made { result ≡ true
        → IsMadeOf memory.new.owner memory.new.pages (group_count cache.new.region) memory.new cache.new.region }
    ensures unguarded { IsUnguarded cache.new.region }
    ensures one_less { result ≡ true → length memory.new.segments + 1 ≡ length memory.old.segments }
    ensures none { result ≡ false → (memory.new.segments ≡ []) × (memory.new.blocks ≡ []) }
    ensures tickets { SameTickets memory.old memory.new }
{
    let Some(piece) = cache.give_up() else {
        return false;
    };
    memory.segment_back(piece);
    true
}
