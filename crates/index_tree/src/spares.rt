//! The places of nodes that are to be the next ones of a tree.
ghost use Rattle.std.specs.Prelude.{◌≡◌, ℕ, ◌+◌, ◌<◌, ◌≤◌, List, [], ◌∷◌, ◌++◌, length, map, take};
ghost use Rattle.regions.specs.Stores.{renamed};
ghost use Rattle.regions.specs.declared.place.Place.{Place};

use regions::Place;
use std::marker::Model;

// The most nodes that stay spare from one call to the next.
pub(crate) const MOST_SPARES: usize = 8;

// How many places there is room for: with those, as many as one removal may free.
const ROOM: usize = 16;

const NOWHERE: Place = Place { segment: 0, at: 0 };

/// At most 16 places. A clause sees a list.
#[derive(Drop)]
pub(crate) struct Spares {
    places: [Place; ROOM],
    count: usize,
}

impl Model for Spares {
    ghost Value = { List Place };

    ghost view = { λ s. take s.count s.places };

    ghost invariant = { λ s. (s.count ≤ 16) × (length s.places ≡ 16) };
}

impl Spares {
    pub(crate) fn new() -> Spares
        ensures { result ≡ [] }
    {
        Spares {
            places: [NOWHERE; ROOM],
            count: 0,
        }
    }

    pub(crate) fn len(&self) -> usize
        ensures len { result ≡ length self.now }
        ensures most { result ≤ 16 }
    {
        self.count
    }

    // One more, behind the others.
    pub(crate) fn push(&mut self, place: Place)
        requires { length self.old < 16 }
        ensures { self.new ≡ self.old ++ place ∷ [] }
    {
        self.places[self.count] = place;
        self.count += 1;
    }

    // Takes the last one away.
    pub(crate) fn pop(&mut self) -> Place
        requires { 1 ≤ length self.old }
        ensures { self.old ≡ self.new ++ result ∷ [] }
    {
        self.count -= 1;
        self.places[self.count]
    }

    // More of them, behind the others.
    pub(crate) fn extend(&mut self, more: &[Place])
        requires { length self.old + length more.now ≤ 16 }
        ensures { self.new ≡ self.old ++ more.now }
    {
        for place in more {
            self.push(*place);
        }
    }

    pub(crate) fn as_slice(&self) -> &[Place]
        ensures { result.now ≡ self.now }
    {
        &self.places[..self.count]
    }

    // Keeps the first so many.
    pub(crate) fn truncate(&mut self, count: usize)
        requires { count ≤ length self.old }
        ensures { self.new ≡ take count self.old }
    {
        self.count = count;
    }

    // What stood at one place stands at another.
    pub(crate) fn rename(&mut self, from: Place, to: Place)
        ensures { self.new ≡ map (renamed from to) self.old }
    {
        rename_all(&mut self.places, from, to);
    }
}

fn rename_all(places: &mut [Place], from: Place, to: Place)
    ensures { places.new ≡ map (renamed from to) places.old }
{
    for i in 0..places.len() {
        places[i] = renamed(places[i], from, to);
    }
}

// The place that one is once another stands for it.
pub(crate) fn renamed(place: Place, from: Place, to: Place) -> Place
    ensures { result ≡ renamed from to place }
{
    if place == from { to } else { place }
}
