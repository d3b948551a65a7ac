//! Where the puts of a queue stand.
ghost use Rattle.std.specs.Prelude.{◌≡◌, ℕ, ◌+◌, ◌<◌, ◌≤◌, ◌^◌, Some, slice_get, slice_set, replicate, IfOk, IfSome};
ghost use Rattle.regions.specs.Contents.{Item, live_at};
ghost use Rattle.row_bytes.specs.Rows.{number_in};
ghost use Rattle.dirty_region.specs.inside.Rings as rings;

use regions::{Movers, Place, Region};
use row_bytes::number_in;
use std::alloc::{AllocError, Global};
use std::marker::Model;

// What stands in a slot that holds no put's place.
const NOWHERE: Place = Place { segment: 0, at: 0 };

// The places of the puts, in a ring: the mover of their region. A put is found by its position among all puts that ever came,
// modulo 2^32, which stands in its bytes.
#[derive(Drop)]
pub(crate) struct Ring {
    room: u32,
    // where the oldest put stands, how many there are, and the position of the oldest one
    head: u32,
    count: u32,
    first: u32,
    places: Vec<Place>,
}

impl Model for Ring {
    ghost use Rattle.dirty_region.specs.inside.Rings.{RingState, IsRing};

    ghost Value = { RingState };

    ghost view = { λ r. record { room = r.room; head = r.head; count = r.count; first = r.first; places = r.places.items } };

    ghost invariant = { λ r. IsRing (record {
      room = r.room;
      head = r.head;
      count = r.count;
      first = r.first;
      places = r.places.items;
    }) };
}

impl Ring {
    // No put, and room for so many. No other call takes memory.
    pub(crate) fn new(alloc: Global, room: u32) -> Result<Ring, AllocError>
        ensures { IfOk result (λ r. r ≡ record {
          room = room;
          head = 0;
          count = 0;
          first = 0;
          places = replicate room rings.nowhere;
        }) }
    {
        Ok(Ring {
            room,
            head: 0,
            count: 0,
            first: 0,
            places: new_places(alloc, room)?,
        })
    }

    // How many puts there are.
    pub(crate) fn len(&self) -> u32
        ensures count { result ≡ self.now.count }
        ensures few { result ≤ self.now.room }
    {
        self.count
    }

    // For how many there is room.
    pub(crate) fn room(&self) -> u32
        ensures { result ≡ self.now.room }
    {
        self.room
    }

    // The slot of the put with so many older ones.
    pub(crate) fn slot(&self, older: u32) -> u32
        requires { older < self.now.room }
        ensures slot { result ≡ rings.slot self.now older }
        ensures inside { result < self.now.room }
    {
        wrapped(self.room, u64::from(self.head) + u64::from(older))
    }

    // Where it stands.
    pub(crate) fn place(&self, older: u32) -> Place
        requires { older < self.now.room }
        ensures { slice_get self.now.places (rings.slot self.now older) ≡ Some result }
    {
        self.places[self.slot(older) as usize]
    }

    // Where the put of a slot stands.
    pub(crate) fn place_in(&self, slot: u32) -> Place
        requires { slot < self.now.room }
        ensures { slice_get self.now.places slot ≡ Some result }
    {
        self.places[slot as usize]
    }

    pub(crate) fn places(&self) -> &[Place]
        ensures { result.now ≡ self.now.places }
    {
        self.places.as_slice()
    }

    // The position of the next put.
    pub(crate) fn next_position(&self) -> u32
        ensures { result ≡ rings.position self.now self.now.count }
    {
        self.first.wrapping_add(self.count)
    }

    // A put more, the newest one, stands at the place.
    pub(crate) fn push(&mut self, place: Place)
        requires { self.old.count < self.old.room }
        ensures { self.new ≡ rings.pushed place self.old }
    {
        self.put_at(self.count, place);
        self.count += 1;
    }

    // The oldest put is gone.
    pub(crate) fn pop(&mut self)
        requires { 1 ≤ self.old.count }
        ensures { self.new ≡ rings.popped self.old }
    {
        self.head = wrapped(self.room, u64::from(self.head) + 1);
        self.first = self.first.wrapping_add(1);
        self.count -= 1;
    }

    // The put with so many older ones stands at the place.
    fn put_at(&mut self, older: u32, place: Place)
        requires { older < self.old.room }
        ensures { self.new ≡ record self.old { places = slice_set self.old.places (rings.slot self.old older) place } }
    {
        let slot = self.slot(older);
        self.places[slot as usize] = place;
    }
}

// So many places, at which no put stands.
fn new_places(alloc: Global, room: u32) -> Result<Vec<Place>, AllocError>
    ensures { IfOk result (λ places. places.items ≡ replicate room rings.nowhere) }
{
    let mut places = Vec::with_capacity(alloc, room as usize)?;
    for _slot in 0..room {
        places.push(NOWHERE)?;
    }
    Ok(places)
}

// The number less the room, where it is not below it.
fn wrapped(room: u32, number: u64) -> u32
    requires { number < room + room }
    ensures wrapped { result ≡ rings.wrapped room number }
    ensures inside { result < room }
{
    let room = u64::from(room);
    if number < room {
        number as u32
    } else {
        (number - room) as u32
    }
}

// The position of the put that stands at a place.
fn position_at(region: &Region, place: Place) -> u32
    requires { rings.HoldsAPut (live_at region.now place) }
    ensures { IfSome (live_at region.now place) (λ item. result ≡ number_in item.content) }
{
    number_in(region.bytes(place))
}

impl Movers for Ring {
    ghost use Rattle.std.specs.Prelude.{ℕ, []};
    ghost use Rattle.dirty_region.specs.inside.Rings as rings;

    ghost fits = { rings.IsRingOf };

    ghost place_of = { rings.place_of };

    ghost bare = { rings.bare };

    ghost references = { rings.references };

    ghost Rest = { rings.RingState };

    ghost rest = { λ r. record r { places = [] } };

    fn moved(&mut self, store: &mut Region, _kind: u8, from: Place, to: Place) {
        let older = position_at(store, from).wrapping_sub(self.first);
        self.put_at(older, to);
    }
}
