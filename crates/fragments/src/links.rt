//! The links of fragments, in the bytes of the segments.
ghost use Rattle.std.specs.Prelude.{◌≡◌, ◌≢◌, ◌+◌, ◌<◌, ◌≤◌, ◌^◌, ℕ, length, Some, None, IfSome};
ghost use Rattle.layout.specs.Sizes as sizes;
ghost use Rattle.regions.specs.Segments.{RegionState};
ghost use Rattle.regions.specs.Shapes.{shape, group_count};
ghost use Rattle.regions.specs.Counts.{left, live_total};
ghost use Rattle.regions.specs.Contents.{Item, live_at, size_of};
ghost use Rattle.regions.specs.Stores.{SameBut};
ghost use Rattle.fragments.specs.Sizes.{fragment_bytes, object_size};
ghost use Rattle.regions.specs.Places as place_links;
ghost use Rattle.fragments.specs.Fragment as fragments;
ghost use Rattle.fragments.specs.inside.Linking as linking;

use crate::bytes::{back_in, fragment_header, name_in, next_in, object_size, set_back, set_next};
use layout::ObjectKind;
use object_log::NewContent;
use regions::{Place, Region, led_to, link_to};

// The group of all fragments.
pub(crate) const GROUP: u32 = 0;

// The number of a place's segment has 32 bits.
fn segment_fits(place: Place)
    ensures { place.segment < 2 ^ 32 }
{}

// The fragment to which the one at a place leads back.
pub(crate) fn back_of(region: &Region, at: Place) -> Option<Place>
    requires { linking.HoldsAFragment (live_at region.now at) }
    ensures { result ≡ place_links.led_to (linking.back_link (live_at region.now) at) }
{
    led_to(back_in(region.bytes(at)))
}

// The fragment to which the one at a place leads on.
pub(crate) fn next_of(region: &Region, at: Place) -> Option<Place>
    requires { linking.HoldsAFragment (live_at region.now at) }
    ensures { result ≡ place_links.led_to (linking.next_link (live_at region.now) at) }
{
    led_to(next_in(region.bytes(at)))
}

// The name of the fragment at a place, whose numbers are small.
pub(crate) fn name_of(region: &Region, at: Place) -> u32
    requires { linking.HoldsAFragment (live_at region.now at) }
    ensures name { IfSome (live_at region.now at) (λ item. result ≡ fragments.name_in item.content) }
    ensures segment { at.segment < 2 ^ 32 }
    ensures inside { at.at < sizes.segment }
{
    name_in(region.bytes(at))
}

// Writes the link back of the fragment at a place, if there is one.
pub(crate) fn lead_back(region: &mut Region, at: Option<Place>, to: Option<Place>)
    requires { IfSome at (λ p. linking.HoldsAFragment (live_at region.old p)) }
    ensures links { linking.LeadsBack at to (live_at region.old) (live_at region.new) }
    ensures same { SameBut fragments.bare region.old region.new }
{
    if let Some(place) = at {
        write_back(region, place, link_to(to));
    }
}

// Writes the link on of the fragment at a place, if there is one.
fn lead_on(region: &mut Region, at: Option<Place>, to: Option<Place>)
    requires { IfSome at (λ p. linking.HoldsAFragment (live_at region.old p)) }
    ensures links { linking.LeadsOn at to (live_at region.old) (live_at region.new) }
    ensures same { SameBut fragments.bare region.old region.new }
{
    if let Some(place) = at {
        write_next(region, place, link_to(to));
    }
}

// The fragments around one that stands at a place now lead to it.
#[tactic(auto, using(crate::proofs::Setting::led_around, crate::proofs::Lives::same_again))]
pub(crate) fn lead_around(region: &mut Region, back: Option<Place>, next: Option<Place>, to: Place)
    requires back { IfSome back (λ p. linking.HoldsAFragment (live_at region.old p)) }
    requires next { IfSome next (λ p. linking.HoldsAFragment (live_at region.old p)) }
    ensures links { linking.LeadAround back next to (live_at region.old) (live_at region.new) }
    ensures same { SameBut fragments.bare region.old region.new }
{
    lead_on(region, back, Some(to));
    lead_back(region, next, Some(to));
}

fn write_back(region: &mut Region, at: Place, link: u64)
    requires { linking.HoldsAFragment (live_at region.old at) }
    ensures here { linking.back_link (live_at region.new) at ≡ link }
    ensures next { linking.next_link (live_at region.new) at ≡ linking.next_link (live_at region.old) at }
    ensures others { (p : Place) → p ≢ at → live_at region.new p ≡ live_at region.old p }
    ensures same { SameBut fragments.bare region.old region.new }
{
    set_back(region.bytes_mut(at), link);
}

fn write_next(region: &mut Region, at: Place, link: u64)
    requires { linking.HoldsAFragment (live_at region.old at) }
    ensures here { linking.next_link (live_at region.new) at ≡ link }
    ensures back { linking.back_link (live_at region.new) at ≡ linking.back_link (live_at region.old) at }
    ensures others { (p : Place) → p ≢ at → live_at region.new p ≡ live_at region.old p }
    ensures same { SameBut fragments.bare region.old region.new }
{
    set_next(region.bytes_mut(at), link);
}

// Places a fragment that is the first of its chain, in the active segment.
pub(crate) fn place_fragment(
    region: &mut Region,
    next: Option<Place>,
    name: u32,
    bytes: &[u8],
) -> Place
    requires one { group_count region.old ≡ 1 }
    requires short { length bytes.now ≤ fragment_bytes }
    requires left { object_size (length bytes.now) ≤ left region.old 0 }

    // The fragment, where nothing lived, and that it is the only change.
    ensures absent { live_at region.old result ≡ None }
    ensures added { linking.IsPlaced (live_at region.new result) next name bytes.now }
    ensures others { (p : Place) → p ≢ result → live_at region.new p ≡ live_at region.old p }
    ensures room { place_links.HasRoom result }

    // Counted: its bytes are live. The segments are as they were.
    ensures live_total { live_total region.new ≡ live_total region.old + object_size (length bytes.now) }
    ensures shape { shape region.new ≡ shape region.old }
{
    let header = fragment_header(link_to(next), name, bytes);
    let content = NewContent::behind(header.as_slice(), bytes);
    let Ok(place) = region.place_with(
        GROUP,
        ObjectKind::Fragment as u8,
        object_size(bytes.len()),
        content,
    ) else {
        unreachable!()
    };
    // Of a place that was taken out of a result it is not known otherwise.
    segment_fits(place);
    place
}

// The fragment at a place is dead from now on.
pub(crate) fn kill_fragment(region: &mut Region, place: Place)
    requires { linking.HoldsAFragment (live_at region.old place) }
    ensures gone { live_at region.new place ≡ None }
    ensures others { (p : Place) → p ≢ place → live_at region.new p ≡ live_at region.old p }
    ensures live_total { IfSome (live_at region.old place) (λ item. live_total region.new + size_of item ≡ live_total region.old) }
    ensures shape { shape region.new ≡ shape region.old }
{
    region.kill(place);
}
