//! The links of rows, in the bytes of the segments.
ghost use Rattle.std.specs.Prelude.{◌≡◌, ◌≢◌, ℕ, Some, None};
ghost use Rattle.regions.specs.Contents.{Item, live_at};
ghost use Rattle.regions.specs.Places as place_links;
ghost use Rattle.row_cache.specs.Links as links;
ghost use Rattle.row_cache.specs.Rows.{AreRelinked};
ghost use Rattle.row_cache.specs.inside.Tables.{HoldsARow};

use regions::{Place, Region, led_to};
use row_bytes::{Links, newer_in, older_in, set_newer, set_older};

// The places of the row that was used next after one, and of the row that was used next before it.
#[derive(Clone, Copy)]
pub(crate) struct Neighbours {
    pub(crate) newer: Option<Place>,
    pub(crate) older: Option<Place>,
}

// The rows to which the links of the row at a place lead.
pub(crate) fn neighbours_of(region: &Region, at: Place) -> Neighbours
    requires { HoldsARow (live_at region.now at) }
    ensures newer { result.newer ≡ place_links.led_to (links.newer_at (live_at region.now) at) }
    ensures older { result.older ≡ place_links.led_to (links.older_at (live_at region.now) at) }
{
    let content = region.bytes(at);
    Neighbours {
        newer: led_to(newer_in(content)),
        older: led_to(older_in(content)),
    }
}

// Writes the link of the row at a place to the next more recently used row.
pub(crate) fn link_newer(region: &mut Region, at: Place, to: u64)
    requires { HoldsARow (live_at region.old at) }
    ensures newer { links.newer_at (live_at region.new) at ≡ to }
    ensures older { links.older_at (live_at region.new) at ≡ links.older_at (live_at region.old) at }
    ensures others { (p : Place) → p ≢ at → live_at region.new p ≡ live_at region.old p }
    ensures same { AreRelinked region.old region.new }
{
    set_newer(region.bytes_mut(at), to);
}

// Writes the other link.
pub(crate) fn link_older(region: &mut Region, at: Place, to: u64)
    requires { HoldsARow (live_at region.old at) }
    ensures older { links.older_at (live_at region.new) at ≡ to }
    ensures newer { links.newer_at (live_at region.new) at ≡ links.newer_at (live_at region.old) at }
    ensures others { (p : Place) → p ≢ at → live_at region.new p ≡ live_at region.old p }
    ensures same { AreRelinked region.old region.new }
{
    set_older(region.bytes_mut(at), to);
}

// Writes both links of the row at a place.
pub(crate) fn link_both(region: &mut Region, at: Place, to: Links)
    requires { HoldsARow (live_at region.old at) }
    ensures newer { links.newer_at (live_at region.new) at ≡ to.newer }
    ensures older { links.older_at (live_at region.new) at ≡ to.older }
    ensures others { (p : Place) → p ≢ at → live_at region.new p ≡ live_at region.old p }
    ensures same { AreRelinked region.old region.new }
{
    let content = region.bytes_mut(at);
    set_newer(content, to.newer);
    set_older(content, to.older);
}
