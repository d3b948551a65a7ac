//! Places of objects, and why there is none.
use thiserror::Error;

/// Where an object stands: the number of its segment, and the offset of its descriptor there, in bytes.
///
/// # Examples
/// ```
/// let place = Place { segment: 2, at: 16 };
/// let content = region.bytes(place); // of the live object whose descriptor is there, without the descriptor
/// ```
#[derive(Clone, Copy, Debug, PartialEq, Eq)]
pub struct Place {
    pub segment: u32,
    pub at: u32,
}

/// A live object as it stands in its segment: the offset of its descriptor, its kind, and its size in bytes, descriptor included.
///
/// # Examples
/// ```
/// let mut from = 0;
/// while let Some(found) = region.next_live(segment, from) {
///     live += found.size; // the object at `Place { segment, at: found.at }`, of `found.kind`
///     from = found.at + found.size;
/// }
/// ```
#[derive(Clone, Copy, Debug, PartialEq, Eq)]
pub struct LiveObject {
    pub at: u32,
    pub kind: u8,
    pub size: u32,
}

/// The group has no active segment, or less than the size is left in it.
///
/// # Examples
/// ```
/// let Ok(place) = region.place(0, 1, 64) else {
///     return Err(NeedSegment); // nothing changed: `Region::next_active` begins the next segment
/// };
/// ```
#[derive(Clone, Copy, Debug, PartialEq, Eq, Error)]
#[error("the group needs a segment")]
pub struct NeedSegment;
