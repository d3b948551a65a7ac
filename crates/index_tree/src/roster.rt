//! What only contracts know of the nodes: their places, and the index that they hold. It takes no memory.
ghost use Rattle.std.specs.Prelude.{◌≡◌, List, [], ◌∷◌, ◌++◌, map};
ghost use Rattle.std.specs.Borrow.{ftrue};
ghost use Rattle.regions.specs.Contents.{live_at};
ghost use Rattle.regions.specs.Stores.{renamed};
ghost use Rattle.index_tree.specs.Store.{nodes_of};
ghost use Rattle.index_tree.specs.Trees.{held_below};
ghost use Rattle.index_tree.specs.inside.Listings.{Listing, less_place};

use regions::{Place, Region};
use std::marker::Model;

/// A clause reads what is known as `known`: the places of the nodes in the order in which they came, and the index.
#[derive(Drop)]
pub(crate) struct Roster {
    ghost known: { Listing },
}

impl Model for Roster {
    ghost also_owns = { λ _. ftrue };
}

// It owns nothing.
unsafe impl Send for Roster {}

impl Roster {
    // No node, and no key.
    pub(crate) fn empty() -> Roster
        ensures { result.known ≡ record { places = []; index = [] } }
    {
        Roster {}
    }

    // A node more stands at the place.
    pub(crate) fn with_place(&self, place: &Place) -> Roster
        ensures { result.known ≡ record self.now.known { places = self.now.known.places ++ place.now ∷ [] } }
    {
        Roster {}
    }

    // What stood at one place stands at another.
    pub(crate) fn moved(&self, from: &Place, to: &Place) -> Roster
        ensures { result.known ≡ record self.now.known { places = map (renamed from.now to.now) self.now.known.places } }
    {
        Roster {}
    }

    // No node stands at the place any more.
    pub(crate) fn without_place(&self, place: &Place) -> Roster
        ensures { result.known ≡ record self.now.known { places = less_place place.now self.now.known.places } }
    {
        Roster {}
    }

    // The index is what the nodes below a root hold.
    pub(crate) fn holding(&self, region: &Region, root: &Option<Place>, level: &u16) -> Roster
        ensures { result.known ≡ record self.now.known { index = held_below (nodes_of (live_at region.now)) level.now root.now } }
    {
        Roster {}
    }
}
