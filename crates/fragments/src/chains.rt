//! The places of all fragments, by entry. It takes no memory: only contracts read it.
ghost use Rattle.std.specs.Prelude.{◌≡◌, ℕ, ◌+◌, List, [], ◌∷◌, map, drop, replicate, slice_set};
ghost use Rattle.std.specs.Borrow.{ftrue};
ghost use Rattle.regions.specs.Stores.{renamed};
ghost use Rattle.regions.specs.declared.place.Place.{Place};
ghost use Rattle.fragments.specs.Chains.{chain_at};

use regions::Place;
use std::marker::Model;

/// A clause reads the places of each entry's fragments as `places`, the first in front.
#[derive(Drop)]
pub(crate) struct Chains {
    ghost places: { List (List Place) },
}

impl Model for Chains {
    ghost also_owns = { λ _. ftrue };
}

// It owns nothing.
unsafe impl Send for Chains {}

impl Chains {
    // No fragment, of each name and of the entry behind them.
    pub(crate) fn empty(names: &u32) -> Chains
        ensures { result.places ≡ replicate (names.now + 1) [] }
    {
        Chains {}
    }

    // The fragment at a place is the first of an entry.
    pub(crate) fn with_front(&self, entry: &u32, place: &Place) -> Chains
        ensures { result.places ≡ slice_set self.now.places entry.now (place.now ∷ chain_at self.now.places entry.now) }
    {
        Chains {}
    }

    // The first fragment of an entry is gone.
    pub(crate) fn without_front(&self, entry: &u32) -> Chains
        ensures { result.places ≡ slice_set self.now.places entry.now (drop 1 (chain_at self.now.places entry.now)) }
    {
        Chains {}
    }

    // What stood at one place stands at another.
    pub(crate) fn moved(&self, from: &Place, to: &Place) -> Chains
        ensures { result.places ≡ map (map (renamed from.now to.now)) self.now.places }
    {
        Chains {}
    }

    // The chain of one entry is another's from now on.
    pub(crate) fn handed_over(&self, from: &u32, to: &u32) -> Chains
        ensures { result.places ≡ slice_set (slice_set self.now.places to.now (chain_at self.now.places from.now)) from.now [] }
    {
        Chains {}
    }
}
