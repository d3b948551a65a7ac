//! How a row comes to room.
ghost use Rattle.std.specs.Prelude.{◌≡◌, ◌≤◌, true};
ghost use Rattle.layout.specs.Sizes.{greatest_object};
ghost use Rattle.regions.specs.Counts.{left};
ghost use Rattle.regions.specs.Shapes.{free_count, HasGroup};
ghost use Rattle.row_cache.specs.Rows.{rows_of};
ghost use Rattle.indexed_cache.specs.inside.Kept.{KeepsSegments};

use row_cache::{Compacted, RowCache};

/// Makes room for an object of so many bytes in the active segment of the group. False where no segment is left for it.
pub(crate) fn make_room(cache: &mut RowCache, group: u32, size: u32) -> bool
    requires group { HasGroup cache.old.region group }
    requires size { size ≤ greatest_object }
    ensures room { result ≡ true → size ≤ left cache.new.region group }
    ensures rows { rows_of cache.new ≡ rows_of cache.old }
    ensures kept { KeepsSegments cache.old cache.new }
{
    if size <= cache.left(group) {
        return true;
    }
    if !free_second(cache) {
        return size <= cache.left(group);
    }
    begin_next(cache, group, size);
    true
}

/// A second segment is free: it was before, or compaction frees it. False where neither is so.
fn free_second(cache: &mut RowCache) -> bool
    ensures freed { result ≡ true → 2 ≤ free_count cache.new.region }
    ensures rows { rows_of cache.new ≡ rows_of cache.old }
    ensures kept { KeepsSegments cache.old cache.new }
{
    let free = cache.free_segments();
    if free >= 2 {
        return true;
    }
    if free == 0 {
        return false;
    }
    cache.compact() == Compacted::Freed
}

/// Where the active segment of the group has too little room, or there is none, the next one becomes active in it.
fn begin_next(cache: &mut RowCache, group: u32, size: u32)
    requires group { HasGroup cache.old.region group }
    requires size { size ≤ greatest_object }
    requires free { 2 ≤ free_count cache.old.region }
    ensures room { size ≤ left cache.new.region group }
    ensures rows { rows_of cache.new ≡ rows_of cache.old }
    ensures kept { KeepsSegments cache.old cache.new }
{
    if cache.left(group) < size {
        cache.next_active(group);
    }
}
