//! Places as numbers of eight bytes, for objects that have the places of others in their content.
ghost use Rattle.std.specs.Prelude.{◌≡◌};
ghost use Rattle.regions.specs.Places as place_links;

use crate::place::Place;

// The number that stands for no place.
const NO_LINK: u64 = 18_446_744_073_709_551_615;

// How many offsets a segment's number is apart from the next one.
const SEGMENT_STEP: u64 = 4_294_967_296;

/// The number that a place is written as. That of none is the greatest one.
///
/// # Examples
/// ```
/// let link = link_to(Some(Place { segment: 2, at: 16 })); // 8_589_934_608
/// let none = link_to(None); // 18_446_744_073_709_551_615
/// ```
pub fn link_to(place: Option<Place>) -> u64
    ensures { result ≡ place_links.link_to place }
{
    match place {
        Some(place) => u64::from(place.segment) * SEGMENT_STEP + u64::from(place.at),
        None => NO_LINK,
    }
}

/// The place that a number was written for, which is not that of none.
///
/// # Examples
/// ```
/// let place = place_of(8_589_934_608); // Place { segment: 2, at: 16 }
/// ```
pub fn place_of(link: u64) -> Place
    ensures { result ≡ place_links.place_of_link link }
{
    Place {
        segment: (link / SEGMENT_STEP) as u32,
        at: (link % SEGMENT_STEP) as u32,
    }
}

/// The place to which a number leads.
///
/// # Examples
/// ```
/// let some = led_to(8_589_934_608); // Some(Place { segment: 2, at: 16 })
/// let none = led_to(link_to(None)); // None
/// ```
pub fn led_to(link: u64) -> Option<Place>
    ensures { result ≡ place_links.led_to link }
{
    if link == NO_LINK {
        return None;
    }
    Some(place_of(link))
}
