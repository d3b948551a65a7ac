//! The values of all names.
ghost use Rattle.std.specs.Prelude.{◌≡◌, ◌↔◌, ◌+◌, ◌-◌, ◌<◌, ◌≤◌, ◌^◌, ℕ, List, Option, true, false, length, replicate, slice_set, Some, None, Err, IfOk, IfErr, IfSome, IsNone, IsSome, IsTrue, MatchOption};
ghost use Rattle.std.specs.List.{concat};
ghost use Rattle.layout.specs.Sizes as sizes;
ghost use Rattle.regions.specs.Segments.{segment_at, with_segment, with_guards, fresh, all_emptied, idle};
ghost use Rattle.regions.specs.Shapes.{shape, group_count, active_of, guards_of, most_guards, pieces, held_count, free_count, IsGreatestHeld, IsLeastUnused};
ghost use Rattle.regions.specs.Counts.{live_total};
ghost use Rattle.regions.specs.Contents.{Keeps};
ghost use Rattle.regions.specs.declared.place.Place.{Place};
ghost use Rattle.segmented_store.specs.Room as bound;
ghost use Rattle.fragments.specs.Sizes.{greatest_value, size};
ghost use Rattle.fragments.specs.Values as values;
ghost use Rattle.fragments.specs.Chains.{TableState};
ghost use Rattle.segmented_store.specs.Segments.{HoldsSegments};
ghost use Rattle.fragments.specs.Store.{values_of, StandsFor, IsSetBeside, Stay};

mod writing;

use crate::bytes::{is_too_long, value_size};
use crate::links::GROUP;
use crate::pieces::Pieces;
use crate::tables::Tables;
use raw_range::Piece;
use regions::Region;
use segmented_store::{Segmented, room};
use std::alloc::{AllocError, Global};
use std::marker::Model;
use thiserror::Error;
use writing::{drop_value, set_value};

/// Why a value is not set. Nothing changed.
///
/// # Examples
/// ```
/// match store.put(7, bytes) {
///     Ok(()) => true,
///     Err(SetRefusal::TooLong) => false, // no store takes it
///     Err(SetRefusal::NoRoom) => false, // until values are dropped
/// }
/// ```
#[derive(Clone, Copy, Debug, PartialEq, Eq, Error)]
pub enum SetRefusal {
    /// It has more than [`crate::GREATEST_VALUE`] bytes.
    #[error("the value is too long")]
    TooLong,
    /// The bytes of all live objects and those of its own are more than the segments surely hold. The value that the name has
    /// counts as well, since the new one is written before that is dropped.
    #[error("the segments have no room")]
    NoRoom,
}

/// The values of names, numbers below a bound, and the segments in which they stand. A value is a chain of fragments, which
/// may move whenever a value is set. The pieces of a store that is dropped stay allocated for good: [`Fragments::give_up`] hands
/// them out.
///
/// # Examples
/// ```
/// let store = Fragments::new(alloc, 100, 1280 / SEGMENT_PAGES)?;
/// let mut ranged = Ranged::open(alloc, store, 1280)?;
/// let set = ranged.store.put(7, b"red").is_ok(); // true
/// let len = ranged.store.len(7); // Some(3)
/// let gone = ranged.store.erase(7); // true
/// ranged.close(); // gives the memory back
/// ```
#[derive(Drop)]
pub struct Fragments {
    region: Region,
    tables: Tables,
    lengths: Vec<u32>,
    segments: u32,
}

impl Model for Fragments {
    ghost use Rattle.std.specs.Prelude.{take};
    ghost use Rattle.fragments.specs.Store.{StoreState};
    ghost use Rattle.fragments.specs.inside.Consistent.{IsConsistent};

    ghost Value = { StoreState };

    ghost view = { λ f. record { firsts = take f.tables.names f.tables.firsts; region = f.region } };

    ghost invariant = { λ f. IsConsistent f.tables f.region f.lengths.items f.segments };
}

impl Fragments {
    /// A store without values and segments, with names below `names` and numbers of segments below `segments`.
    ///
    /// # Errors
    /// `AllocError` where memory is not found. No other call takes memory.
    pub fn new(alloc: Global, names: u32, segments: u32) -> Result<Fragments, AllocError>
        requires names { names < 2 ^ 32 - 1 }
        requires segments { segments ≤ sizes.most_segments }
        ensures names { IfOk result (λ f. length f.firsts ≡ names) }
        ensures values { IfOk result (λ f. values_of f ≡ replicate names None) }
        ensures region { IfOk result (λ f. f.region ≡ record {
          most = segments;
          groups = replicate 1 idle;
          segments = replicate segments None;
        }) }
    {
        Ok(Fragments {
            region: Region::new(alloc, segments, 1)?,
            tables: Tables::new(alloc, names)?,
            lengths: no_lengths(alloc, names)?,
            segments: 0,
        })
    }

    /// What holds of the store at each time: its chains stand for its values, whose sizes are those of the live objects, no more
    /// bytes are live than the segments surely hold, and these are of one group.
    pub fn facts(&self)
        ensures stands { (t : TableState) × StandsFor self.now t }
        ensures values { (n : ℕ) → values.IsShort (values.value_of (values_of self.now) n) }
        ensures live { values.live (values_of self.now) ≡ live_total self.now.region }
        ensures within { live_total self.now.region ≤ bound.room (held_count self.now.region) }
        ensures one { group_count self.now.region ≡ 1 }
    {
        // What always holds of the fields is known where one of them is used.
        let _ = &self.tables;
    }

    /// The piece becomes a free segment, with the least number that no segment has. Where no segment is active it becomes the
    /// active one, or the least free one does.
    pub fn add_segment(&mut self, piece: Piece)
        requires room { held_count self.old.region < (shape self.old.region).most }
        requires segment { length piece.bytes ≡ sizes.segment }

        // No value changes, and no object.
        ensures firsts { self.new.firsts ≡ self.old.firsts }
        ensures values { values_of self.new ≡ values_of self.old }
        ensures objects { Keeps self.old.region self.new.region }

        // The segment, and which is active.
        ensures added { (n : ℕ) × IsLeastUnused self.old.region n
            × (pieces self.new.region ≡ pieces (with_segment self.old.region n (Some (fresh piece)))) }
        ensures held { held_count self.new.region ≡ held_count self.old.region + 1 }
        ensures most { (shape self.new.region).most ≡ (shape self.old.region).most }
        ensures active { IsSome (active_of self.new.region 0) }
        ensures same { IsSome (active_of self.old.region 0) → active_of self.new.region 0 ≡ active_of self.old.region 0 }
        ensures guards { guards_of self.new.region 0 ≡ guards_of self.old.region 0 }
    {
        let active = self.region.active(GROUP);
        self.region.add_segment(piece);
        self.segments += 1;
        if active.is_none() {
            self.region.next_active(GROUP);
        }
    }

    /// Sets the value of a name. The new one is written before the old one is dropped, and fragments may move meanwhile.
    ///
    /// # Errors
    /// `TooLong` where the value has more than 1,048,576 bytes; else `NoRoom` where the bytes of all live objects, with the old
    /// value of the name, and those of the new value's are more than [`segmented_store::room`] of the segments. Nothing changed.
    pub fn put(&mut self, name: u32, bytes: &[u8]) -> Result<(), SetRefusal>
        requires name { name < length self.old.firsts }
        requires held { 3 ≤ held_count self.old.region }
        requires guards { guards_of self.old.region 0 ≡ 0 }

        // When it is refused, and that nothing changed then.
        ensures long { (result ≡ Err SetRefusal.TooLong) ↔ (greatest_value < length bytes.now) }
        ensures full { (result ≡ Err SetRefusal.NoRoom) ↔ ((length bytes.now ≤ greatest_value)
            × (bound.room (held_count self.old.region) < values.live (values_of self.old) + size (length bytes.now))) }
        ensures unchanged { IfErr result (λ _. self.new ≡ self.old) }

        // The values, and the segments in which they stand.
        ensures values { IfOk result (λ _. values_of self.new ≡ slice_set (values_of self.old) name (Some bytes.now)) }
        ensures beside { IfOk result (λ _. IsSetBeside self.old self.new bytes.now) }
        ensures segments { HoldsSegments self.old.region self.new.region }
    {
        if is_too_long(bytes.len()) {
            return Err(SetRefusal::TooLong);
        }
        let size = value_size(bytes.len());
        if !self.has_room(size) {
            return Err(SetRefusal::NoRoom);
        }
        set_value(&mut self.region, &mut self.tables, name, bytes);
        self.lengths[name as usize] = bytes.len() as u32;
        Ok(())
    }

    /// The value of a name, in pieces whose concatenation it is. None where the name has none.
    pub fn get(&self, name: u32) -> Option<Pieces<'_>>
        ensures { MatchOption result (values.value_of (values_of self.now) name ≡ None)
            (λ pieces. values.value_of (values_of self.now) name ≡ Some (concat pieces)) }
    {
        if name >= self.tables.names() {
            return None;
        }
        let place = self.tables.first(name)?;
        Some(Pieces::new(&self.region, Some(place), self.lengths[name as usize]))
    }

    /// The length of the value of a name, in bytes. None where the name has none.
    pub fn len(&self, name: u32) -> Option<u32>
        ensures { MatchOption result (values.value_of (values_of self.now) name ≡ None)
            (λ len. IfSome (values.value_of (values_of self.now) name) (λ value. len ≡ length value)
            × IsSome (values.value_of (values_of self.now) name)) }
    {
        if name >= self.tables.names() {
            return None;
        }
        self.tables.first(name)?;
        Some(self.lengths[name as usize])
    }

    /// Drops the value of a name. False where it has none. No fragment moves.
    pub fn erase(&mut self, name: u32) -> bool
        ensures found { (result ≡ true) ↔ IsSome (values.value_of (values_of self.old) name) }
        ensures unchanged { (result ≡ false) → self.new ≡ self.old }
        ensures values { values_of self.new ≡ slice_set (values_of self.old) name None }
        ensures stay { Stay self.old.region self.new.region }
        ensures shape { shape self.new.region ≡ shape self.old.region }
    {
        if name >= self.tables.names() {
            return false;
        }
        let Some(_place) = self.tables.first(name) else {
            return false;
        };
        drop_value(&mut self.region, &mut self.tables, name);
        true
    }

    // Whether the segments surely hold so many bytes beside those that are live.
    fn has_room(&self, size: u64) -> bool
        ensures { IsTrue result ↔ (values.live (values_of self.now) + size ≤ bound.room (held_count self.now.region)) }
    {
        size <= room(self.segments) - self.region.live()
    }

    /// The live bytes: the sizes of all values together, which are those of the segments' live objects.
    pub fn live(&self) -> u64
        ensures values { result ≡ values.live (values_of self.now) }
        ensures segments { result ≡ live_total self.now.region }
    {
        self.region.live()
    }

    /// One guard more. While one stands, no fragment is moved. Guards nest.
    pub fn guard(&mut self)
        requires { guards_of self.old.region 0 < most_guards }
        ensures guards { self.new ≡ record self.old { region = with_guards self.old.region 0 (guards_of self.old.region 0 + 1) } }
        ensures values { values_of self.new ≡ values_of self.old }
    {
        self.region.guard(GROUP);
    }

    /// One guard less.
    pub fn unguard(&mut self)
        requires { 1 ≤ guards_of self.old.region 0 }
        ensures guards { self.new ≡ record self.old { region = with_guards self.old.region 0 (guards_of self.old.region 0 - 1) } }
        ensures values { values_of self.new ≡ values_of self.old }
    {
        self.region.unguard(GROUP);
    }

    /// Drops all values, makes every segment free, and takes the one with the greatest number out. None where no segment is
    /// held.
    pub fn give_up(&mut self) -> Option<Piece>
        requires { guards_of self.old.region 0 ≡ 0 }

        // No value is left.
        ensures names { length self.new.firsts ≡ length self.old.firsts }
        ensures values { values_of self.new ≡ replicate (length self.old.firsts) None }

        // None where no segment is held; else its piece.
        ensures none { IsNone result ↔ (held_count self.old.region ≡ 0) }
        ensures emptied { IsNone result → self.new.region ≡ all_emptied self.old.region }
        ensures given { IfSome result (λ piece. (n : ℕ) × IsGreatestHeld self.old.region n
            × (segment_at (all_emptied self.old.region) n ≡ Some (fresh piece))
            × (self.new.region ≡ with_segment (all_emptied self.old.region) n None)) }
        ensures held { IsSome result → held_count self.new.region + 1 ≡ held_count self.old.region }
        ensures free { free_count self.new.region ≡ held_count self.new.region }
    {
        let given = self.region.give_up();
        self.tables.clear();
        self.segments = self.segments.saturating_sub(1);
        given
    }
}

impl Segmented for Fragments {
    ghost region = { λ f. f.region };

    // Where the first fragment of each name's value stands, and the values.
    ghost Content = { List (Option Place) × values.Values };

    ghost content = { λ f. (f.firsts, values_of f) };

    fn take_piece(&mut self, piece: Piece) {
        self.add_segment(piece);
    }

    fn give_piece(&mut self) -> Option<Piece> {
        self.give_up()
    }
}

// So many lengths, each 0.
fn no_lengths(alloc: Global, names: u32) -> Result<Vec<u32>, AllocError>
    ensures { IfOk result (λ lengths. lengths.items ≡ replicate names 0) }
{
    let mut lengths = Vec::with_capacity(alloc, names as usize)?;
    for _name in 0..names {
        lengths.push(0)?;
    }
    Ok(lengths)
}
