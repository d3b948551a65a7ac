//! The index of the keys of puts.
ghost use Rattle.std.specs.Prelude.{◌≡◌, ◌≢◌, ℕ, ◌-◌, ◌<◌, ◌≤◌, IfOk, MatchResult};
ghost use Rattle.layout.specs.Sizes.{tables};
ghost use Rattle.rows.specs.Key as shown;
ghost use Rattle.rows.specs.Key.{key_shown};
ghost use Rattle.key_table.specs.Table.{IsSpotFor};
ghost use Rattle.regions.specs.Contents.{live_at};
ghost use Rattle.dirty_region.specs.inside.Rings.{IsRingOf, key_at};
ghost use Rattle.dirty_region.specs.inside.PutRows.{Has, IsKeyed, IsThere};
ghost use Rattle.dirty_region.specs.inside.Indexed.{IsIndexOf, IsIndexBefore, IsIndexBehind, IsIndexBut, nth_key};

use crate::put_index::PutIndex;
use crate::put_keys::{PutKeys, content_of};
use crate::ring::Ring;
use key_table::{RowAt, Spot};
use regions::Region;
use row_bytes::key_of_row;
use rows::Key;
use std::alloc::{AllocError, Global};

// An index of no puts, with room for so many.
pub(crate) fn new_index(alloc: Global, room: u32) -> Result<PutIndex, AllocError>
    ensures room { IfOk result (λ index. index.room ≡ room) }
    ensures none { IfOk result (λ index. (n : ℕ) → ¬ Has index n) }
    ensures keyed { IfOk result (λ index. (key_of : ℕ → shown.Key) → IsKeyed key_of index) }
{
    PutIndex::new(alloc, room)
}

// The slot of the newest put of a key, or the spot for one.
pub(crate) fn search(
    index: &PutIndex,
    ring: &Ring,
    region: &Region,
    key: &Key<'_>,
) -> Result<RowAt, Spot>
    requires table { key.now.table < tables }
    requires ring { IsRingOf ring.now (live_at region.now) }
    requires index { IsIndexOf ring.now (live_at region.now) index.now }
    ensures { MatchResult result
        (λ found. IsThere index.now found × (key_at (live_at region.now) ring.now.places found.row ≡ key_shown key.now))
        (λ spot. IsSpotFor (key_shown key.now) spot
        × ((n : ℕ) → Has index.now n → key_at (live_at region.now) ring.now.places n ≢ key_shown key.now)) }
{
    index.find(&keys(ring, region), key)
}

// The newest put of a key leaves the index, if there is one. Answers the spot of the key.
pub(crate) fn forget(index: &mut PutIndex, ring: &Ring, region: &Region, key: &Key<'_>) -> Spot
    requires table { key.now.table < tables }
    requires ring { IsRingOf ring.now (live_at region.now) }
    requires index { IsIndexOf ring.now (live_at region.now) index.old }
    ensures spot { IsSpotFor (key_shown key.now) result }
    ensures index { IsIndexBut (key_shown key.now) ring.now (live_at region.now) index.new }
{
    let found = match search(index, ring, region, key) {
        Ok(found) => found,
        Err(spot) => return spot,
    };
    index.remove(&keys(ring, region), key, found);
    Spot::new(key)
}

// The oldest put leaves the index, if it is the newest of its key.
pub(crate) fn forget_oldest(index: &mut PutIndex, ring: &Ring, region: &Region)
    requires some { 1 ≤ ring.now.count }
    requires ring { IsRingOf ring.now (live_at region.now) }
    requires index { IsIndexOf ring.now (live_at region.now) index.old }
    ensures { IsIndexBehind ring.now (live_at region.now) index.new }
{
    let slot = ring.slot(0);
    let key = key_of_row(content_of(region, ring.places(), slot));
    index.remove_row(&keys(ring, region), &key, slot);
}

// The newest put enters the index, which has no other of its key.
pub(crate) fn enter(index: &mut PutIndex, ring: &Ring, region: &Region, spot: Spot)
    requires some { 1 ≤ ring.now.count }
    requires ring { IsRingOf ring.now (live_at region.now) }
    requires spot { IsSpotFor (nth_key ring.now (live_at region.now) (ring.now.count - 1)) spot }
    requires index { IsIndexBefore ring.now (live_at region.now) index.old }
    ensures { IsIndexOf ring.now (live_at region.now) index.new }
{
    let slot = ring.slot(ring.len() - 1);
    index.insert(&keys(ring, region), spot, slot);
}

fn keys<'a>(ring: &'a Ring, region: &'a Region) -> PutKeys<'a>
    ensures region { result.region.now ≡ region.now }
    ensures places { result.places.now ≡ ring.now.places }
{
    PutKeys {
        region,
        places: ring.places(),
    }
}
