//! Where rows stand, and in which order they were used.
ghost use Rattle.std.specs.Prelude.{◌≡◌, ◌≢◌, ◌+◌, ◌<◌, ◌≤◌, ℕ, [], ◌∷◌, length, Some, None, slice_get, slice_set, IfOk, IfSome, MatchOption, MatchResult, All, vec_len, vec_capacity, List, ◌-◌, ◌^◌, take, filter};
ghost use Rattle.std.specs.List.{last_or};
ghost use Rattle.layout.specs.Sizes as sizes;
ghost use Rattle.rows.specs.Row.{Row};
ghost use Rattle.rows.specs.Apply.{in_order, is_at_most, keys_in};
ghost use Rattle.rows.specs.Key.{key_shown};
ghost use Rattle.rows.specs.Spelled.{IsKey};
ghost use Rattle.common_lemmas.specs.Lists.{delete, times};
ghost use Rattle.key_table.specs.Table.{AreSame};
ghost use Rattle.key_table.specs.Lazy.{Has, IsKeyed, IsStanding, IsThere, rows_in};
ghost use Rattle.regions.specs.Contents.{Item, live_at};
ghost use Rattle.regions.specs.Stores.{Live};
ghost use Rattle.row_bytes.specs.Rows.{number_in};
ghost use Rattle.regions.specs.Places as place_links;
ghost use Rattle.row_cache.specs.Links as links;
ghost use Rattle.row_cache.specs.Rows.{key_at, row_at, rows_at, AreRelinked};
ghost use Rattle.row_cache.specs.inside.Scanned.{keys_in_front};
ghost use Rattle.row_cache.specs.inside.Sought.{IsFound, IsMissing};
ghost use Rattle.row_cache.specs.inside.Chained as chained;
ghost use Rattle.row_cache.specs.inside.Consistent.{Relinks};
ghost use Rattle.row_cache.specs.inside.Tables as tables;

mod settling;

use crate::ends::Ends;
use crate::order::Order;
use crate::row_keys::{RowKeys, content_of};
use key_table::{LazyIndex, RowAt, Rows, Spot, Standing};
use regions::{Movers, Place, Region};
use row_bytes::{key_of_row, number_in, put_in};
use rows::Key;
use std::alloc::{AllocError, Global};
use std::marker::Model;

// The tables of a row cache: the mover of its region.
#[derive(Drop)]
pub(crate) struct Tables {
    order: Order,
    ends: Ends,
    places: Vec<Place>,
    freed: Vec<u32>,
    index: LazyIndex,
}

impl Model for Tables {
    ghost use Rattle.std.specs.Prelude.{◌≤◌, vec_capacity};
    ghost use Rattle.row_cache.specs.inside.Tables.{TableState, AreNumbers};

    ghost Value = { TableState };

    ghost view = { λ t. record {
      room = t.index.room;
      recency = t.order.rows;
      ends = t.ends;
      places = t.places.items;
      freed = t.freed.items;
      index = t.index;
    } };

    ghost invariant = { λ t. AreNumbers (record {
      room = t.index.room;
      recency = t.order.rows;
      ends = t.ends;
      places = t.places.items;
      freed = t.freed.items;
      index = t.index;
    })
        × (t.index.room ≤ vec_capacity t.places) × (t.index.room ≤ vec_capacity t.freed) };
}

impl Tables {
    // Tables with room for so many rows. No other call takes memory.
    pub(crate) fn new(alloc: Global, room: u32) -> Result<Tables, AllocError>
        requires { room < 2 ^ 32 - 1 }
        ensures empty { IfOk result (λ t. (t.room ≡ room) × (t.recency ≡ []) × (t.places ≡ []) × (t.freed ≡ [])) }
        ensures none { IfOk result (λ t. (live : Live) → ((p : Place) → live p ≡ None) → tables.AreTablesOf t live) }
        ensures linked { IfOk result (λ t. (live : Live) → chained.IsLinked t live) }
    {
        Ok(Tables {
            order: Order::empty(),
            ends: Ends {
                front: None,
                last: None,
            },
            places: Vec::with_capacity(alloc, room as usize)?,
            freed: Vec::with_capacity(alloc, room as usize)?,
            index: LazyIndex::new(alloc, room)?,
        })
    }

    // As many slots at once as the table of keys will want, so that no insertion doubles them. With rows it stays as it is.
    pub(crate) fn widen(&mut self)
        ensures unchanged { self.new ≡ self.old }
    {
        self.index.widen();
    }

    // No row is left, and no number was given. The memory stays reserved.
    pub(crate) fn clear(&mut self)
        ensures room { self.new.room ≡ self.old.room }
        ensures empty { (self.new.recency ≡ []) × (self.new.places ≡ []) × (self.new.freed ≡ []) }
        ensures none { (live : Live) → ((p : Place) → live p ≡ None) → tables.AreTablesOf self.new live }
        ensures linked { (live : Live) → chained.IsLinked self.new live }
    {
        self.order = Order::empty();
        self.ends = Ends {
            front: None,
            last: None,
        };
        self.places.clear();
        self.freed.clear();
        self.index.clear();
    }

    // How many rows there are.
    pub(crate) fn len(&self) -> u32
        ensures { result ≡ length self.now.recency }
    {
        self.places.len() as u32 - self.freed.len() as u32
    }

    // The row that was used longest ago.
    pub(crate) fn last(&self, region: &Region) -> Option<u32>
        requires tables { tables.AreTablesOf self.now (live_at region.now) }
        requires linked { chained.IsLinked self.now (live_at region.now) }
        ensures { MatchOption result (self.now.recency ≡ []) (λ n. tables.IsLast n self.now.recency) }
    {
        match self.ends.last {
            Some(place) => Some(number_at(region, place)),
            None => None,
        }
    }

    // Where a row stands.
    pub(crate) fn place(&self, number: u32) -> Place
        requires { number < length self.now.places }
        ensures { slice_get self.now.places number ≡ Some result }
    {
        self.places[number as usize]
    }

    // The number of the next row.
    pub(crate) fn next_number(&self) -> u32
        ensures { result ≡ tables.next_number self.now }
    {
        match self.freed.last() {
            Some(number) => *number,
            None => self.places.len() as u32,
        }
    }

    // The row of a key, or the spot for one.
    pub(crate) fn search(&self, region: &Region, key: &Key<'_>) -> Result<RowAt, Spot>
        requires tables { tables.AreTablesOf self.now (live_at region.now) }
        requires table { key.now.table < sizes.tables }
        ensures { MatchResult result (IsFound self.now (live_at region.now) (key_shown key.now))
            (IsMissing self.now (live_at region.now) (key_shown key.now)) }
    {
        self.index.find(&self.keys(region), key)
    }

    // The row is the one used last.
    pub(crate) fn touch(&mut self, region: &mut Region, number: u32)
        requires tables { tables.AreTablesOf self.old (live_at region.old) }
        requires linked { chained.IsLinked self.old (live_at region.old) }
        requires listed { tables.IsListed self.old number }
        ensures state { self.new ≡ record self.old { recency = number ∷ delete number self.old.recency; ends = self.new.ends } }
        ensures relinks { Relinks self.new region.old region.new }
    {
        let place = self.place(number);
        self.ends.bring_front(region, place);
        self.order = self.order.without(&number).with_front(&number);
    }

    // The row of a number is no longer in the chain. Its object may be killed.
    pub(crate) fn unlink(&mut self, region: &mut Region, number: u32)
        requires tables { tables.AreTablesOf self.old (live_at region.old) }
        requires linked { chained.IsLinked self.old (live_at region.old) }
        requires listed { tables.IsListed self.old number }
        ensures state { self.new ≡ record self.old { ends = self.new.ends } }
        ensures tables { tables.AreTablesOf self.new (live_at region.new) }
        ensures linked { chained.IsLinkedBut number self.new (live_at region.new) }
        ensures same { AreRelinked region.old region.new }
    {
        let place = self.place(number);
        self.ends.unlink(region, place);
    }

    // The row, which is not in the chain, stands elsewhere, and is the one used last.
    pub(crate) fn replace(&mut self, region: &mut Region, number: u32, place: Place)
        requires listed { tables.IsListed self.old number }
        requires replaces { tables.ReplacesSomeRow self.old number place (live_at region.old) }
        requires room { place_links.HasRoom place }
        requires linked { chained.IsLinkedBut number self.old (live_at region.old) }
        ensures recency { self.new.recency ≡ number ∷ delete number self.old.recency }
        ensures places { self.new.places ≡ slice_set self.old.places number place }
        ensures room { self.new.room ≡ self.old.room }
        ensures relinks { Relinks self.new region.old region.new }
    {
        self.put_at(number, place);
        self.ends.push_front(region, place);
        self.order = self.order.without(&number).with_front(&number);
    }

    // The row of a number stands at the place. The index is one of its keys there, too.
    fn put_at(&mut self, number: u32, place: Place)
        requires { tables.IsListed self.old number }
        ensures state { self.new ≡ record self.old { places = slice_set self.old.places number place } }
        ensures tables { (row : Row) (old new : Live) → tables.ReplacesRow self.old number place row old new
            → tables.AreTablesOf self.new new }
    {
        self.places[number as usize] = place;
    }

    // A new row, with the next number, stands at the place.
    pub(crate) fn insert(&mut self, region: &mut Region, at: Spot, place: Place)
        requires room { length self.old.recency < self.old.room }
        requires adds { tables.AddsNewRow self.old at place (live_at region.old) }
        requires linked { chained.IsLinkedBeside place self.old (live_at region.old) }
        ensures room { self.new.room ≡ self.old.room }
        ensures recency { self.new.recency ≡ tables.next_number self.old ∷ self.old.recency }
        ensures places { self.new.places ≡ tables.placed (tables.next_number self.old) place self.old.places }
        ensures relinks { Relinks self.new region.old region.new }
    {
        self.enter(region, at, place);
        self.ends.push_front(region, place);
    }

    // The same, but that the row is not in the chain.
    fn enter(&mut self, region: &Region, at: Spot, place: Place)
        requires room { length self.old.recency < self.old.room }
        requires adds { tables.AddsNewRow self.old at place (live_at region.now) }
        ensures room { self.new.room ≡ self.old.room }
        ensures ends { self.new.ends ≡ self.old.ends }
        ensures recency { self.new.recency ≡ tables.next_number self.old ∷ self.old.recency }
        ensures places { self.new.places ≡ tables.placed (tables.next_number self.old) place self.old.places }
        ensures tables { tables.AreTablesOf self.new (live_at region.now) }
    {
        let number = give_number(&mut self.places, &mut self.freed, place);
        let keys = RowKeys {
            region,
            places: self.places.as_slice(),
        };
        self.index.insert(&keys, at, number);
        self.order = self.order.with_front(&number);
    }

    // Takes a row out, and gives its number back. Its object is to be killed, and it is in the chain no more.
    pub(crate) fn remove(&mut self, standing: Standing)
        requires at { IsStanding self.old.index standing }
        requires listed { tables.IsListed self.old standing.found.row }
        ensures recency { self.new.recency ≡ delete standing.found.row self.old.recency }
        ensures places { self.new.places ≡ self.old.places }
        ensures ends { self.new.ends ≡ self.old.ends }
        ensures room { self.new.room ≡ self.old.room }
        ensures tables { (place : Place) (old new : Live) → tables.AreTablesOf self.old old
            → slice_get self.old.places standing.found.row ≡ Some place → tables.Drops place old new
            → tables.AreTablesOf self.new new }
    {
        self.index.remove(standing);
        self.order = self.order.without(&standing.found.row);
        self.freed.push(standing.found.row).unwrap();
    }

    // The rows whose keys are at or above one, in the order of their keys: first those of its table.
    pub(crate) fn rows_from<'a>(&'a self, region: &'a Region, key: &Key<'_>) -> Rows<'a>
        requires table { key.now.table < sizes.tables }
        requires tables { tables.AreTablesOf self.now (live_at region.now) }
        requires settled { self.now.index.late ≡ [] }
        ensures rows { All (tables.HasRow (live_at region.now) self.now.places) result }
        ensures order { keys_in_front (key_at (live_at region.now) self.now.places) key.now.table result
            ≡ in_order (filter (is_at_most (key_shown key.now).bytes)
            (keys_in key.now.table (rows_at (live_at region.now) self.now.places self.now.recency))) }
    {
        self.index.rows_from(&self.keys(region), key)
    }

    // The key of a row.
    pub(crate) fn key<'a>(&'a self, region: &'a Region, number: u32) -> Key<'a>
        requires { tables.HasRow (live_at region.now) self.now.places number }
        ensures key { key_shown result ≡ key_at (live_at region.now) self.now.places number }
        ensures lengths { IsKey (key_shown result).bytes }
    {
        key_of_row(content_of(region, &self.places, number))
    }

    // The number of the put that stored a row.
    pub(crate) fn put_of(&self, region: &Region, number: u32) -> u32
        requires { tables.HasRow (live_at region.now) self.now.places number }
        ensures { result ≡ (row_at (live_at region.now) self.now.places number).number }
    {
        put_in(content_of(region, &self.places, number))
    }

    // Where the index has a row.
    pub(crate) fn row_at(&self, region: &Region, number: u32) -> RowAt
        requires tables { tables.AreTablesOf self.now (live_at region.now) }
        requires listed { tables.IsListed self.now number }
        ensures at { IsThere self.now.index result }
        ensures row { result.row ≡ number }
    {
        self.index.row_at(&self.keys(region), number)
    }

    // Where a row stands in the order of the keys.
    pub(crate) fn standing(&self, region: &Region, found: RowAt) -> Standing
        requires tables { tables.AreTablesOf self.now (live_at region.now) }
        requires at { IsThere self.now.index found }
        ensures at { IsStanding self.now.index result }
        ensures found { result.found ≡ found }
    {
        self.index.standing(&self.keys(region), found)
    }

    fn keys<'a>(&'a self, region: &'a Region) -> RowKeys<'a>
        ensures region { result.region.now ≡ region.now }
        ensures places { result.places.now ≡ self.now.places }
    {
        RowKeys {
            region,
            places: self.places.as_slice(),
        }
    }
}

// The number that was given back last, or the least that was never given; its row stands at the place.
fn give_number(places: &mut Vec<Place>, freed: &mut Vec<u32>, place: Place) -> u32
    requires room { (freed.old.items ≡ []) → vec_len places.old < vec_capacity places.old }
    requires given { All (λ n. n < length places.old.items) freed.old.items }
    requires small { length places.old.items < 2 ^ 32 }
    ensures number { result ≡ tables.number_or (length places.old.items) (last_or None freed.old.items) }
    ensures places { places.new.items ≡ tables.placed result place places.old.items }
    ensures freed { freed.new.items ≡ take (length freed.old.items - 1) freed.old.items }
    ensures capacity { (vec_capacity places.old ≤ vec_capacity places.new) × (vec_capacity freed.old ≤ vec_capacity freed.new) }
{
    let Some(number) = freed.pop() else {
        let number = places.len() as u32;
        places.push(place).unwrap();
        return number;
    };
    places[number as usize] = place;
    number
}

// The number of the row that stands at a place.
fn number_at(region: &Region, place: Place) -> u32
    requires { tables.HoldsARow (live_at region.now place) }
    ensures number { IfSome (live_at region.now place) (λ item. result ≡ number_in item.content) }
    ensures inside { place.at < sizes.segment }
    ensures fits { place.segment < 2 ^ 32 }
{
    number_in(region.bytes(place))
}

impl Movers for Tables {
    ghost use Rattle.std.specs.Prelude.{[], None};
    ghost use Rattle.row_cache.specs.Links as links;
    ghost use Rattle.row_cache.specs.inside.Chained as chained;
    ghost use Rattle.row_cache.specs.inside.Moved as moves;
    ghost use Rattle.row_cache.specs.inside.Tables as tables;

    ghost fits = { λ t live. tables.AreTablesOf t live × chained.IsLinked t live };

    ghost place_of = { tables.place_of };

    ghost bare = { links.bare };

    ghost references = { moves.references };

    ghost Rest = { tables.TableState };

    ghost rest = { λ t. record t { places = []; ends = record { front = None; last = None } } };

    fn moved(&mut self, store: &mut Region, _kind: u8, from: Place, to: Place) {
        let number = number_at(store, to);
        self.put_at(number, to);
        self.ends.relocate(store, from, to);
    }
}
