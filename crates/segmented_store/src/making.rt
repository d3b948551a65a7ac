//! How an object comes to room in the active segment.
ghost use Rattle.std.specs.Prelude.{◌≡◌, ℕ, ◌+◌, ◌<◌, ◌≤◌, true, false};
ghost use Rattle.layout.specs.Sizes.{greatest_object};
ghost use Rattle.object_log.specs.Objects.{IsSize};
ghost use Rattle.regions.specs.Shapes.{group_count, guards_of, held_count, free_count, IsUnguarded};
ghost use Rattle.regions.specs.Counts.{left, live_total};
ghost use Rattle.regions.specs.Contents.{live_at, Keeps};
ghost use Rattle.regions.specs.Stores.{store_of};
ghost use Rattle.compaction.specs.Emptied.{HoldsTheSame};
ghost use Rattle.segmented_store.specs.Room.{room};

use compaction::{Compacted, a_compacted_region_is_full, pass};
use regions::{Movers, Region};

/// Makes room for an object of so many bytes in the one group of a region: begins the next segment where the active one has
/// less left or there is none, and compacts before where only one segment is free.
pub fn make_room<M: Movers>(region: &mut Region, movers: &mut M, size: u32)
    // A region of one group without a guard.
    requires one { group_count region.old ≡ 1 }
    requires guards { guards_of region.old 0 ≡ 0 }
    requires fits { M.fits movers.old (live_at region.old) }

    // An object, beside which the segments surely hold what is live.
    requires size { IsSize size }
    requires held { 3 ≤ held_count region.old }
    requires free { 1 ≤ free_count region.old }
    requires within { live_total region.old + size ≤ room (held_count region.old) }

    // There is room, and nothing changes where there was.
    ensures left { size ≤ left region.new 0 }
    ensures unchanged { size ≤ left region.old 0 → (region.new ≡ region.old) × (movers.new ≡ movers.old) }
    ensures free { 1 ≤ free_count region.new }

    // The store is the same, and nothing else of the mover changed.
    ensures fits { M.fits movers.new (live_at region.new) }
    ensures store { (n : ℕ) → store_of M.bare (M.place_of movers.new) (live_at region.new) n ≡ store_of M.bare
        (M.place_of movers.old) (live_at region.old) n }
    ensures rest { M.rest movers.new ≡ M.rest movers.old }
    ensures holds { HoldsTheSame region.old region.new }
{
    if region.left(0) >= size {
        return;
    }
    if free_second(region, movers) {
        begin_next(region, size);
    }
}

// A second segment is free. False where nothing is left to compact, and then the active one has room for any object.
fn free_second<M: Movers>(region: &mut Region, movers: &mut M) -> bool
    requires one { group_count region.old ≡ 1 }
    requires guards { guards_of region.old 0 ≡ 0 }
    requires fits { M.fits movers.old (live_at region.old) }
    requires held { 3 ≤ held_count region.old }
    requires free { 1 ≤ free_count region.old }
    requires within { live_total region.old ≤ room (held_count region.old) }

    // What each answer means.
    ensures freed { result ≡ true → 2 ≤ free_count region.new }
    ensures roomy { result ≡ false → greatest_object ≤ left region.new 0 }
    ensures free { 1 ≤ free_count region.new }

    // The store is the same, and nothing else of the mover changed.
    ensures fits { M.fits movers.new (live_at region.new) }
    ensures store { (n : ℕ) → store_of M.bare (M.place_of movers.new) (live_at region.new) n ≡ store_of M.bare
        (M.place_of movers.old) (live_at region.old) n }
    ensures rest { M.rest movers.new ≡ M.rest movers.old }
    ensures holds { HoldsTheSame region.old region.new }
{
    // Of a region in which nothing is left to compact: what is live, were the active segment full.
    a_compacted_region_is_full();
    pass(region, movers) == Compacted::Freed
}

// Where the active segment has too little left, the next one becomes active. Another one stays free.
fn begin_next(region: &mut Region, size: u32)
    requires one { group_count region.old ≡ 1 }
    requires size { size ≤ greatest_object }
    requires free { 2 ≤ free_count region.old }
    ensures left { size ≤ left region.new 0 }
    ensures free { 1 ≤ free_count region.new }
    ensures objects { Keeps region.old region.new }
    ensures holds { HoldsTheSame region.old region.new }
{
    if region.left(0) < size {
        region.next_active(0);
    }
}
