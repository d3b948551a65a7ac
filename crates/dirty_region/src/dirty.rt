//! The puts that have not reached the disk.
ghost use Rattle.std.specs.Prelude.{◌≡◌, ◌↔◌, ℕ, ◌+◌, ◌<◌, ◌≤◌, ◌^◌, ◌++◌, length, replicate, true, Err, None, IfOk, IfErr, MatchOption};
ghost use Rattle.layout.specs.Sizes as sizes;
ghost use Rattle.rows.specs.Key.{in_table};
ghost use Rattle.rows.specs.Row.{live, size};
ghost use Rattle.regions.specs.Segments.{idle};
ghost use Rattle.regions.specs.Counts.{live_total};
ghost use Rattle.regions.specs.Shapes.{held_count};
ghost use Rattle.segmented_store.specs.Room as bound;
ghost use Rattle.dirty_region.specs.Puts.{Stand};
ghost use Rattle.dirty_region.specs.Queues.{Queue, line, newest, rest, IsQueue};
ghost use Rattle.dirty_region.specs.State.{empty, with_put, Keeps};
ghost use Rattle.dirty_region.specs.declared.refusal.DirtyRefusal.{DirtyRefusal};

mod flushing;
mod segments;
mod storing;

use crate::line::GREATEST_LINE;
use crate::put_index::PutIndex;
use crate::put_keys::content_of;
use crate::refusal::DirtyRefusal;
use crate::ring::Ring;
use crate::seeking::{forget, new_index, search};
use raw_range::Piece;
use regions::Region;
use row_bytes::{NewRow, row_size, value_in};
use rows::Key;
use segmented_store::{Segmented, room};
use std::alloc::{AllocError, Global};
use std::marker::Model;
use storing::{add_put, make_way};

// All puts are of this table.
const TABLE: u8 = 0;

/// The puts that have not reached the disk, oldest first, and the segments in which they stand. Nothing is evicted. The pieces of
/// one that is dropped stay allocated for good: [`Dirty::give_up`] hands them out.
///
/// # Examples
/// ```
/// let dirty = Dirty::new(alloc, 100, 1280 / SEGMENT_PAGES)?;
/// let mut ranged = Ranged::open(alloc, dirty, 1280)?;
/// let added = ranged.store.put(b"apple", b"red", 1).is_ok(); // true
/// let newest = ranged.store.newest(b"apple"); // Some(b"red")
/// let flushed = ranged.store.flush_one(&mut sink); // Ok(Some(1)) where the sink took the line `put apple red`
/// ranged.close(); // gives the memory back
/// ```
#[derive(Drop)]
pub struct Dirty {
    region: Region,
    ring: Ring,
    index: PutIndex,
    out: usize,
    // memory for a line
    line: Vec<u8>,
}

impl Model for Dirty {
    ghost use Rattle.std.specs.Prelude.{◌≤◌, vec_capacity};
    ghost use Rattle.regions.specs.Contents.{live_at};
    ghost use Rattle.dirty_region.specs.State.{DirtyState};
    ghost use Rattle.dirty_region.specs.inside.Rings.{puts_in};
    ghost use Rattle.dirty_region.specs.inside.Lines.{greatest_line};
    ghost use Rattle.dirty_region.specs.inside.Consistent.{IsConsistent};

    ghost Value = { DirtyState };

    ghost view = { λ d. record {
      room = d.ring.room;
      queue = record { puts = puts_in d.ring (live_at d.region); out = d.out };
      first = d.ring.first;
      region = d.region;
    } };

    ghost invariant = { λ d. IsConsistent d.ring d.index d.region d.out
        × (greatest_line ≤ vec_capacity d.line) };
}

impl Dirty {
    /// An empty queue with room for so many puts, without segments, whose numbers are below `segments`.
    ///
    /// # Errors
    /// `AllocError` where memory is not found. No other call takes memory.
    pub fn new(alloc: Global, rows: u32, segments: u32) -> Result<Dirty, AllocError>
        requires segments { segments ≤ sizes.most_segments }
        ensures room { IfOk result (λ d. d.room ≡ rows) }
        ensures empty { IfOk result (λ d. d.queue ≡ empty) }
        ensures first { IfOk result (λ d. d.first ≡ 0) }
        ensures region { IfOk result (λ d. d.region ≡ record {
          most = segments;
          groups = replicate 1 idle;
          segments = replicate segments None;
        }) }
        ensures held { IfOk result (λ d. held_count d.region ≡ 0) }
    {
        Ok(Dirty {
            region: Region::new(alloc, segments, 1)?,
            ring: Ring::new(alloc, rows)?,
            index: new_index(alloc, rows)?,
            out: 0,
            line: Vec::with_capacity(alloc, GREATEST_LINE)?,
        })
    }

    /// Adds a put, which is the newest one. Where its object finds no room the next segment is begun, and segments are
    /// compacted before.
    ///
    /// # Errors
    /// `TooMany` where as many puts are held as there is room for. Else `NoRoom` where the live bytes with the put's would be
    /// more than the segments surely hold. Nothing changed.
    pub fn put(&mut self, key: &[u8], value: &[u8], number: u32) -> Result<(), DirtyRefusal>
        // A key and a value as in a trace, and three segments.
        requires some_key { 1 ≤ length key.now }
        requires short_key { length key.now ≤ sizes.greatest_key }
        requires short_value { length value.now ≤ sizes.greatest_value }
        requires held { 3 ≤ held_count self.old.region }

        // When it is refused, and that nothing changed then.
        ensures too_many { (result ≡ Err DirtyRefusal.TooMany) ↔ (length self.old.queue.puts ≡ self.old.room) }
        ensures no_room { (result ≡ Err DirtyRefusal.NoRoom) ↔ ((length self.old.queue.puts < self.old.room)
            × (bound.room (held_count self.old.region) < live self.old.queue.puts + size key.now value.now)) }
        ensures unchanged { IfErr result (λ _. self.new ≡ self.old) }

        // The queue with the put, and what is due then.
        ensures put { IfOk result (λ _. self.new.queue ≡ with_put key.now value.now number self.old.queue) }
        ensures rest { IfOk result (λ _. rest self.new.queue ≡ rest self.old.queue
            ++ line (record { key = in_table 0 key.now; value = value.now; number = number })) }

        // The oldest put's position, the room and the segments are as they were.
        ensures first { self.new.first ≡ self.old.first }
        ensures kept { Keeps self.old self.new }
    {
        if self.ring.len() == self.ring.room() {
            return Err(DirtyRefusal::TooMany);
        }
        let size = row_size(key, value);
        if exceeds(self.region.live(), size, self.region.held_segments()) {
            return Err(DirtyRefusal::NoRoom);
        }
        make_way(&mut self.region, &mut self.ring, &self.index, size);
        let sought = Key {
            table: TABLE,
            bytes: key,
        };
        let spot = forget(&mut self.index, &self.ring, &self.region, &sought);
        let put = NewRow {
            table: TABLE,
            key,
            value,
            number,
        };
        add_put(&mut self.region, &mut self.ring, &mut self.index, spot, put);
        Ok(())
    }

    /// The value of the newest put of a key. None where the queue has none.
    pub fn newest(&self, key: &[u8]) -> Option<&[u8]>
        ensures { MatchOption result (newest key.now self.now.queue.puts ≡ None)
            (λ value. newest key.now self.now.queue.puts ≡ Some value.now) }
    {
        let sought = Key {
            table: TABLE,
            bytes: key,
        };
        let Ok(found) = search(&self.index, &self.ring, &self.region, &sought) else {
            return None;
        };
        Some(value_in(content_of(&self.region, self.ring.places(), found.row)))
    }

    /// How many puts are held.
    pub fn len(&self) -> u32
        ensures { result ≡ length self.now.queue.puts }
    {
        self.ring.len()
    }

    /// The live bytes: the sizes of all puts together.
    pub fn live(&self) -> u64
        ensures { result ≡ live self.now.queue.puts }
    {
        self.region.live()
    }

    /// What holds of a dirty region at each time.
    pub fn facts(&self)
        ensures few { length self.now.queue.puts ≤ self.now.room }
        ensures queue { IsQueue self.now.queue }

        // The live objects of the segments are the puts of the queue, each at a place of its own.
        ensures live { live self.now.queue.puts ≡ live_total self.now.region }
        ensures stand { Stand self.now.first self.now.queue.puts self.now.region }
    {
        // What always holds of the fields is known where one of them is used.
        let _ = &self.ring;
    }
}

impl Segmented for Dirty {
    ghost region = { λ d. d.region };

    // The queue, and for how many puts there is room.
    ghost Content = { Queue × ℕ };

    ghost content = { λ d. (d.queue, d.room) };

    fn take_piece(&mut self, piece: Piece) {
        self.add_segment(piece);
    }

    fn give_piece(&mut self) -> Option<Piece> {
        self.give_up()
    }
}

// Whether the live bytes would be more, with so many more, than that many segments surely hold.
fn exceeds(live: u64, size: u32, held: u32) -> bool
    requires { live + size < 2 ^ 64 }
    ensures { (result ≡ true) ↔ (bound.room held < live + size) }
{
    live + u64::from(size) > room(held)
}
