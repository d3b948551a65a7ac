//! The pieces of a value.
ghost use Rattle.std.specs.Prelude.{◌≡◌, ◌≢◌, [], ◌∷◌, length};
ghost use Rattle.std.specs.List.{concat};
ghost use Rattle.std.specs.Iterator.{YieldsFirstBy, item_count};
ghost use Rattle.regions.specs.Contents.{live_at};
ghost use Rattle.fragments.specs.Store.{pieces_from};
ghost use Rattle.fragments.specs.inside.Paths.{Leads};

use crate::bytes::bytes_in;
use crate::links::next_of;
use regions::{Place, Region};
use std::marker::Model;

/// An iterator over the pieces of a value, one in each fragment. Each is a slice of a segment's bytes, and nothing is copied. A
/// contract sees the pieces that are still to come.
///
/// # Examples
/// ```
/// let Some(mut pieces) = store.get(7) else {
///     return Ok(()); // the name 7 has no value
/// };
/// let len = pieces.bytes_left(); // the length of the value
/// while let Some(piece) = pieces.next() {
///     out.put(piece)?;
/// }
/// ```
#[derive(Drop)]
pub struct Pieces<'a> {
    region: &'a Region,
    at: Option<Place>,
    left: u32,
}

impl<'a> Model for Pieces<'a> {
    ghost use Rattle.std.specs.Prelude.{ℕ, List};
    ghost use Rattle.regions.specs.Contents.{live_at};
    ghost use Rattle.fragments.specs.Store.{pieces_from};
    ghost use Rattle.fragments.specs.inside.Paths.{Leads};

    ghost Value = { List (List ℕ) };

    ghost view = { λ p. pieces_from (live_at p.region.now) p.at };

    ghost invariant = { λ p. Leads (live_at p.region.now) p.at p.left };
}

impl<'a> Pieces<'a> {
    // From a fragment on.
    pub(crate) fn new(region: &'a Region, at: Option<Place>, left: u32) -> Pieces<'a>
        requires { Leads (live_at region.now) at left }
        ensures { result ≡ pieces_from (live_at region.now) at }
    {
        Pieces { region, at, left }
    }

    /// How many bytes are still to come.
    pub fn bytes_left(&self) -> u32
        ensures { result ≡ length (concat self.now) }
    {
        self.left
    }
}

impl<'a> Iterator for Pieces<'a> {
    type Item = &'a [u8];

    ghost next_gives = { YieldsFirstBy (λ x. x.now) (λ rest. rest) };

    ghost remaining = { item_count (λ rest. rest) };

    fn next(&mut self) -> Option<&'a [u8]> {
        if self.at.is_none() {
            return None;
        }
        Some(self.step())
    }
}

impl<'a> Pieces<'a> {
    // Goes on to the next fragment, and answers the bytes of the one before it.
    fn step(&mut self) -> &'a [u8]
        requires { self.old ≢ [] }
        ensures { self.old ≡ result.now ∷ self.new }
    {
        let Some(place) = self.at else { unreachable!() };
        let bytes = bytes_in(self.region.bytes(place));
        self.at = next_of(self.region, place);
        self.left -= bytes.len() as u32;
        bytes
    }
}
