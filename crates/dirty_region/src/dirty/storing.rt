//! How a put comes into the segments, and how the oldest one goes.
ghost use Rattle.std.specs.Prelude.{◌≡◌, ℕ, ◌+◌, ◌-◌, ◌%◌, ◌^◌, ◌<◌, ◌≤◌, ◌++◌, ◌∷◌, [], length};
ghost use Rattle.rows.specs.Key.{in_table};
ghost use Rattle.rows.specs.Row.{Row, size, live};
ghost use Rattle.row_bytes.specs.NewRows.{row_of, CanStand};
ghost use Rattle.key_table.specs.Table.{IsSpotFor};
ghost use Rattle.object_log.specs.Objects.{IsSize};
ghost use Rattle.regions.specs.Shapes.{shape, held_count, HasGroup};
ghost use Rattle.regions.specs.Counts.{left, live_total};
ghost use Rattle.regions.specs.Contents.{live_at};
ghost use Rattle.segmented_store.specs.Room as bound;
ghost use Rattle.compaction.specs.Emptied.{HoldsTheSame};
ghost use Rattle.dirty_region.specs.inside.Rings.{IsRingOf, nth, popped, puts_in};
ghost use Rattle.dirty_region.specs.inside.Indexed.{IsIndexOf, IsIndexBut};
ghost use Rattle.dirty_region.specs.inside.Consistent.{HasSpare, IsStored};

use crate::objects::{kill_put, place_put};
use crate::put_index::PutIndex;
use crate::ring::Ring;
use crate::seeking::{enter, forget_oldest};
use key_table::Spot;
use regions::Region;
use row_bytes::NewRow;
use segmented_store::make_room;

// Makes room for an object of the size. The puts are the same, wherever they stand.
pub(super) fn make_way(region: &mut Region, ring: &mut Ring, index: &PutIndex, size: u32)
    // A ring and its index, and an object that the segments surely hold.
    requires ring { IsRingOf ring.old (live_at region.old) }
    requires index { IsIndexOf ring.old (live_at region.old) index.now }
    requires spare { HasSpare region.old }
    requires size { IsSize size }
    requires held { 3 ≤ held_count region.old }
    requires within { live_total region.old + size ≤ bound.room (held_count region.old) }

    // There is room.
    ensures left { size ≤ left region.new 0 }
    ensures spare { HasSpare region.new }

    // The puts are the same.
    ensures ring { IsRingOf ring.new (live_at region.new) }
    ensures index { IsIndexOf ring.new (live_at region.new) index.now }
    ensures puts { puts_in ring.new (live_at region.new) ≡ puts_in ring.old (live_at region.old) }
    ensures places { record ring.new { places = [] } ≡ record ring.old { places = [] } }
    ensures holds { HoldsTheSame region.old region.new }
{
    make_room(region, ring, size);
}

// Adds a put, for which there is room, and which is the newest one from now on.
pub(super) fn add_put(
    region: &mut Region,
    ring: &mut Ring,
    index: &mut PutIndex,
    spot: Spot,
    put: NewRow<'_>,
)
    requires group { HasGroup region.old 0 }
    requires ring { IsRingOf ring.old (live_at region.old) }
    requires index { IsIndexBut (in_table put.table put.key.now) ring.old (live_at region.old) index.old }
    requires spot { IsSpotFor (in_table put.table put.key.now) spot }
    requires put { CanStand put }
    requires few { ring.old.count < ring.old.room }
    requires left { size put.key.now put.value.now ≤ left region.old 0 }

    // The ring and its index with the put.
    ensures ring { IsRingOf ring.new (live_at region.new) }
    ensures index { IsIndexOf ring.new (live_at region.new) index.new }
    ensures puts { puts_in ring.new (live_at region.new) ≡ puts_in ring.old (live_at region.old) ++ row_of put.entry ∷ [] }
    ensures first { ring.new.first ≡ ring.old.first }
    ensures room { ring.new.room ≡ ring.old.room }

    // Its bytes are live, and the segments are as they were.
    ensures live { live_total region.new ≡ live_total region.old + size put.entry.key.now put.entry.value.now }
    ensures shape { shape region.new ≡ shape region.old }
{
    let place = place_put(region, ring.next_position(), put);
    ring.push(place);
    enter(index, ring, region, spot);
}

// Takes the oldest put out.
pub(super) fn drop_oldest(region: &mut Region, ring: &mut Ring, index: &mut PutIndex)
    requires some { 1 ≤ ring.old.count }
    requires stored { IsStored ring.old index.old region.old }
    ensures stored { IsStored ring.new index.new region.new }
    ensures puts { puts_in ring.old (live_at region.old)
        ≡ nth ring.old (live_at region.old) 0 ∷ puts_in ring.new (live_at region.new) }
    ensures count { ring.new.count + 1 ≡ ring.old.count }
    ensures first { ring.new.first ≡ (ring.old.first + 1) % 2 ^ 32 }
    ensures room { ring.new.room ≡ ring.old.room }
    ensures shape { shape region.new ≡ shape region.old }
{
    forget_oldest(index, ring, region);
    kill_put(region, ring.place(0));
    ring.pop();
}

// Takes all puts out.
pub(super) fn drop_all(region: &mut Region, ring: &mut Ring, index: &mut PutIndex)
    requires stored { IsStored ring.old index.old region.old }
    ensures stored { IsStored ring.new index.new region.new }
    ensures none { ring.new.count ≡ 0 }
    ensures first { ring.new.first ≡ (ring.old.first + ring.old.count) % 2 ^ 32 }
    ensures room { ring.new.room ≡ ring.old.room }
    ensures shape { shape region.new ≡ shape region.old }
{
    while ring.len() > 0 {
        drop_oldest(region, ring, index);
    }
}
