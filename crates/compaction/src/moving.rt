//! One live object, from a closed segment to the active one of its group.
ghost use Rattle.std.specs.Prelude.{◌≡◌, ◌≢◌, ℕ, ◌+◌, ◌≤◌, Some, None, option_map};
ghost use Rattle.object_log.specs.Objects.{IsSize};
ghost use Rattle.regions.specs.Shapes.{shape, group_of, active_of, HasGroup, IsClosed, IsClosedIn};
ghost use Rattle.regions.specs.Counts.{used_counts, live_counts, live_bytes_at, used_total, live_total, plus, left};
ghost use Rattle.regions.specs.Contents.{Item, standing_at, live_at, ChangesAt, IsLiveAt};
ghost use Rattle.regions.specs.Stores.{Live, LeavesTheRest, StandsFor, SameBut, store_of, less, renamed};
ghost use Rattle.regions.specs.declared.place.Place.{Place};
ghost use Rattle.compaction.specs.Emptied.{IsSameAt};
ghost use Rattle.compaction.specs.inside.Drained.{IsDrained};

use regions::{Movers, Place, Region};

// Appends a copy of the live object to the active segment of the group, which has room for it, and answers where it stands.
fn append_copy(region: &mut Region, group: u32, from: Place, kind: u8, size: u32) -> Place
    requires group { HasGroup region.old group }
    requires closed { IsClosedIn region.old group from.segment }
    requires live { IsLiveAt (live_at region.old from) kind size }
    requires kind { 1 ≤ kind }
    requires size { IsSize size }
    requires room { size ≤ left region.old group }

    // The copy, and where it stands.
    ensures copied { ChangesAt result (standing_at region.old from) region.old region.new }
    ensures unused { standing_at region.old result ≡ None }
    ensures segment { active_of region.old group ≡ Some result.segment }
    ensures of { group_of region.old result.segment ≡ Some group }

    // Counted: its bytes are used and live. The segments are as they were.
    ensures used { used_counts region.new ≡ plus result.segment size (used_counts region.old) }
    ensures live { live_counts region.new ≡ plus result.segment size (live_counts region.old) }
    ensures used_total { used_total region.new ≡ used_total region.old + size }
    ensures live_total { live_total region.new ≡ live_total region.old + size }
    ensures shape { shape region.new ≡ shape region.old }
{
    let Ok(to) = region.place_copy(group, from, kind, size) else {
        unreachable!()
    };
    to
}

// Moves the live object to the active segment of its group, which has room for it, and mends the references to it.
pub(crate) fn move_object<M: Movers>(
    region: &mut Region,
    movers: &mut M,
    group: u32,
    from: Place,
    kind: u8,
    size: u32,
)
    requires group { HasGroup region.old group }
    requires closed { IsClosedIn region.old group from.segment }
    requires live { IsLiveAt (live_at region.old from) kind size }
    requires kind { 1 ≤ kind }
    requires size { IsSize size }
    requires room { size ≤ left region.old group }
    requires fits { M.fits movers.old (live_at region.old) }

    // The store is the same, and nothing else of the mover changed.
    ensures fits { M.fits movers.new (live_at region.new) }
    ensures store { (n : ℕ) → store_of M.bare (M.place_of movers.new) (live_at region.new) n ≡ store_of M.bare
        (M.place_of movers.old) (live_at region.old) n }
    ensures rest { M.rest movers.new ≡ M.rest movers.old }

    // The object is gone from its place, and no other of a closed segment is.
    ensures dead { live_at region.new from ≡ None }
    ensures others { (p : Place) → p ≢ from → IsClosed region.old p.segment → IsSameAt M.bare region.old region.new p }
    ensures drained { IsDrained M.bare from.segment region.old region.new }

    // Its bytes are not live there, and how much room is left.
    ensures live { live_bytes_at region.new from.segment + size ≡ live_bytes_at region.old from.segment }
    ensures shape { shape region.new ≡ shape region.old }
    ensures left { left region.new group + size ≡ left region.old group }
{
    let to = append_copy(region, group, from, kind, size);
    tell(region, movers, kind, from, to);
    region.kill(from);
}

// Tells the mover that the live object was copied.
fn tell<M: Movers>(region: &mut Region, movers: &mut M, kind: u8, from: Place, to: Place)
    requires copied { (i : Item) × (i.kind ≡ kind) × (live_at region.old from ≡ Some i) × (live_at region.old to ≡ Some i) }
    requires apart { from ≢ to }
    requires fits { M.fits movers.old (less to (live_at region.old)) }

    // What holds of every mover.
    ensures bare { LeavesTheRest M.bare }
    ensures stands { (m : M) (live : Live) → M.fits m live
        → StandsFor M.bare (store_of M.bare (M.place_of m) live) (M.place_of m) live }

    // What was named by the one place is named by the other.
    ensures names { (n : ℕ) → M.place_of movers.new n ≡ option_map (renamed from to) (M.place_of movers.old n) }

    // The store is the same but for the one object, and nothing else of the mover changed.
    ensures fits { M.fits movers.new (less from (live_at region.new)) }
    ensures store { SameBut M.bare region.old region.new }
    ensures rest { M.rest movers.new ≡ M.rest movers.old }
{
    movers.moved(region, kind, from, to);
}
