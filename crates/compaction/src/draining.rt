//! All live objects, from a closed segment to the active one of its group.
ghost use Rattle.std.specs.Prelude.{◌≡◌, ◌≢◌, ℕ, ◌+◌, ◌<◌, ◌≤◌, ◌⊎◌, None};
ghost use Rattle.layout.specs.Sizes as sizes;
ghost use Rattle.object_log.specs.Objects.{IsSize};
ghost use Rattle.regions.specs.Shapes.{shape, HasGroup, IsClosed, IsClosedIn};
ghost use Rattle.regions.specs.Counts.{used_counts, live_counts, live_bytes_at, left};
ghost use Rattle.regions.specs.Contents.{live_at, Keeps, IsLiveAt};
ghost use Rattle.regions.specs.Stores.{store_of};
ghost use Rattle.regions.specs.declared.place.Place.{Place};
ghost use Rattle.compaction.specs.Sparse.{IsSparse};
ghost use Rattle.compaction.specs.Emptied.{IsSameAt, HoldsTheSame};
ghost use Rattle.compaction.specs.inside.Drained.{IsDrained, HasRoomFor, BeginsNext, Took, TookOne};

use crate::moving::move_object;
use regions::{Movers, Place, Region};

// Begins the next segment of the group where the active one has less than the size left.
fn make_room(region: &mut Region, group: u32, source: u32, size: u32)
    requires group { HasGroup region.old group }
    requires size { size ≤ sizes.greatest_object }
    requires counted { size ≤ live_bytes_at region.old source }
    requires room { HasRoomFor group source region.old }

    // There is room.
    ensures room { size ≤ left region.new group }

    // No object changes, and no closed segment is begun anew.
    ensures objects { Keeps region.old region.new }
    ensures closed { (g n : ℕ) → IsClosedIn region.old g n → IsClosedIn region.new g n }
    ensures used { used_counts region.new ≡ used_counts region.old }
    ensures live { live_counts region.new ≡ live_counts region.old }
    ensures holds { HoldsTheSame region.old region.new }

    // Either nothing happened, or the next segment was begun.
    ensures begun { ((shape region.new ≡ shape region.old) × (left region.new group ≡ left region.old group))
        ⊎ ((left region.old group < size) × BeginsNext group region.old region.new × (left region.new group ≡ sizes.segment)) }
{
    if region.left(group) < size {
        region.next_active(group);
    }
}

// Moves a live object out of the closed segment of the group.
fn take_out<M: Movers>(
    region: &mut Region,
    movers: &mut M,
    group: u32,
    place: Place,
    kind: u8,
    size: u32,
)
    requires group { HasGroup region.old group }
    requires closed { IsClosedIn region.old group place.segment }
    requires live { IsLiveAt (live_at region.old place) kind size }
    requires kind { 1 ≤ kind }
    requires size { IsSize size }
    requires counted { size ≤ live_bytes_at region.old place.segment }
    requires room { HasRoomFor group place.segment region.old }
    requires fits { M.fits movers.old (live_at region.old) }

    // The store is the same, and nothing else of the mover changed.
    ensures fits { M.fits movers.new (live_at region.new) }
    ensures store { (n : ℕ) → store_of M.bare (M.place_of movers.new) (live_at region.new) n ≡ store_of M.bare
        (M.place_of movers.old) (live_at region.old) n }
    ensures rest { M.rest movers.new ≡ M.rest movers.old }

    // The object is gone from its place, and no other of a closed segment is.
    ensures dead { live_at region.new place ≡ None }
    ensures others { (p : Place) → p ≢ place → IsClosed region.old p.segment → IsSameAt M.bare region.old region.new p }
    ensures drained { IsDrained M.bare place.segment region.old region.new }

    // Its bytes are not live there, and how much room is left.
    ensures live { live_bytes_at region.new place.segment + size ≡ live_bytes_at region.old place.segment }
    ensures took { TookOne group size region.old region.new }
{
    make_room(region, group, place.segment, size);
    move_object(region, movers, group, place, kind, size);
}

// Moves the live objects out of the closed segment, the one at the least offset first, to the active one of its group.
pub(crate) fn drain<M: Movers>(region: &mut Region, movers: &mut M, group: u32, source: u32)
    requires group { HasGroup region.old group }
    requires closed { IsClosedIn region.old group source }
    requires sparse { IsSparse region.old source }
    requires room { HasRoomFor group source region.old }
    requires fits { M.fits movers.old (live_at region.old) }

    // The store is the same, and nothing else of the mover changed.
    ensures fits { M.fits movers.new (live_at region.new) }
    ensures store { (n : ℕ) → store_of M.bare (M.place_of movers.new) (live_at region.new) n ≡ store_of M.bare
        (M.place_of movers.old) (live_at region.old) n }
    ensures rest { M.rest movers.new ≡ M.rest movers.old }

    // The segment is emptied, and how much room is left.
    ensures dead { live_bytes_at region.new source ≡ 0 }
    ensures drained { IsDrained M.bare source region.old region.new }
    ensures took { Took group source region.old region.new }
{
    let mut from = 0;
    while let Some(found) = region.next_live(source, from) {
        let place = Place {
            segment: source,
            at: found.at,
        };
        take_out(region, movers, group, place, found.kind, found.size);
        from = found.at + found.size;
    }
}
