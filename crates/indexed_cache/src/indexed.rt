//! The cache.
ghost use Rattle.std.specs.Prelude.{◌≡◌, ◌+◌, ◌-◌, ◌/◌, ◌^◌, ◌<◌, ◌≤◌, ◌&&◌, nat_lt, true, [], length, take, None, Contains, IfOk, OnOk};
ghost use Rattle.std.specs.Bool.{OnTrue};
ghost use Rattle.std.specs.List.{last_or};
ghost use Rattle.layout.specs.Sizes.{segment_pages, most_segments, tickets, ArePages};
ghost use Rattle.rows.specs.Apply.{apply};
ghost use Rattle.rows.specs.Row.{is_of_put, live};
ghost use Rattle.rows.specs.Spelled.{spelled, with_body};
ghost use Rattle.trace_text.specs.Operation.{operation};
ghost use Rattle.cache_model.specs.Legal.{can_evict};
ghost use Rattle.row_cache.specs.Rows.{rows_of};

use crate::stored::StoredRows;
use layout::{DENSE, FEWEST_PAGES, MOST_SEGMENTS, SEGMENT_PAGES};
use plain_cache::floor_of;
use rows::ReplyKind;
use segmented_store::Ranged;
use std::alloc::{AllocError, Global};
use std::marker::Model;
use trace_text::{Command, Trace};

/// A cache whose rows are found by their keys, most recently used first. It evicts nothing by itself.
#[derive(Drop)]
pub struct Indexed {
    pages: u32,
    regions: u32,
    ranged: Ranged<StoredRows>,
}

impl Model for Indexed {
    ghost use Rattle.std.specs.Prelude.{◌+◌, ◌/◌, ◌≤◌};
    ghost use Rattle.layout.specs.Sizes.{segment_pages, tickets};
    ghost use Rattle.row_cache.specs.Rows.{rows_of};
    ghost use Rattle.plain_cache.specs.Cache.{Cache};

    ghost Value = { Cache };

    ghost view = { λ c. record { pages = c.pages; regions = c.regions; rows = rows_of c.ranged.store } };

    ghost invariant = { λ c. tickets + 1 + c.regions ≤ c.pages / segment_pages };
}

/// The segments that surely hold so many bytes of rows, however these stand in them: all but two are dense where compaction
/// frees none. At least as many as the fewest pages have, and at most as many as a range may have.
fn segments_for(bytes: u64) -> u32
    ensures fewest { 40 ≤ result }
    ensures most { result ≤ most_segments }
{
    let segments = bytes / u64::from(DENSE) + 3;
    segments
        .max(u64::from(FEWEST_PAGES / SEGMENT_PAGES))
        .min(u64::from(MOST_SEGMENTS)) as u32
}

/// The pages of these segments.
fn pages_for(bytes: u64) -> u32
    ensures { ArePages result }
{
    segments_for(bytes) * SEGMENT_PAGES
}

/// Does one part of a command on rows in a range.
fn apply_in(
    ranged: &mut Ranged<StoredRows>,
    trace: &Trace,
    command: &Command,
    body: &mut Vec<u8>,
) -> Result<ReplyKind, AllocError>
    requires of_trace { Contains trace.now.commands command.now }
    ensures applied { OnOk result (rows_of ranged.new.store
        ≡ (apply (operation trace.now.bytes command.now) (rows_of ranged.old.store)).0) }
    ensures replied { IfOk result (λ kind. (kind, body.new.items) ≡ with_body body.old.items
        (spelled (apply (operation trace.now.bytes command.now) (rows_of ranged.old.store)).1)) }
{
    ranged.store.apply(trace, command, body)
}

/// Evicts the row of a put from rows in a range, where that may be; whether it may.
fn evict_in(ranged: &mut Ranged<StoredRows>, put: u32, floor: u64) -> bool
    ensures possible { result
        ≡ (is_of_put put (last_or None (rows_of ranged.old.store)) && nat_lt floor (live (rows_of ranged.old.store))) }
    ensures removed { result ≡ true
        → rows_of ranged.new.store ≡ take (length (rows_of ranged.old.store) - 1) (rows_of ranged.old.store) }
{
    ranged.store.evict(put, floor)
}

impl Indexed {
    /// An empty cache of a shard with so many pages and regions, for so many puts at most, fewer than 4,294,967,295, whose rows take
    /// so many bytes together, in pages of its own. `plain_cache::floor_of` says how many pages there are at least.
    ///
    /// # Errors
    /// `AllocError` where memory is not found.
    pub fn new(
        alloc: Global,
        pages: u32,
        regions: u32,
        puts: u32,
        bytes: u64,
    ) -> Result<Indexed, AllocError>
        requires pages { tickets + 1 + regions ≤ pages / segment_pages }
        requires puts { puts < 2 ^ 32 - 1 }
        ensures { IfOk result (λ cache. cache ≡ record { pages = pages; regions = regions; rows = [] }) }
    {
        let own = pages_for(bytes);
        let rows = StoredRows::new(alloc, puts, own / SEGMENT_PAGES)?;
        // Last, since only `close` gives its memory back.
        let ranged = Ranged::open(alloc, rows, own)?;
        Ok(Indexed {
            pages,
            regions,
            ranged,
        })
    }

    /// How many rows there are.
    pub fn rows(&self) -> u32
        ensures { result ≡ length self.now.rows }
    {
        self.ranged.store.rows()
    }

    /// The live bytes: the sizes of all rows together.
    pub fn live(&self) -> u64
        ensures { result ≡ live self.now.rows }
    {
        self.ranged.store.live()
    }

    /// Evicts the row of a put, where that is legal: it is the last row, and the live bytes exceed the floor. Where it is not, which
    /// rows there are afterwards is not said.
    pub fn evict(&mut self, put: u32) -> bool
        ensures possible { result ≡ can_evict self.old.pages self.old.regions put self.old.rows }
        ensures removed { OnTrue result (self.new ≡ record self.old { rows = take (length self.old.rows - 1) self.old.rows }) }
    {
        let floor = floor_of(self.pages, self.regions);
        evict_in(&mut self.ranged, put, floor)
    }

    /// Does one part of a command of the trace, and appends the reply's body.
    ///
    /// # Errors
    /// `AllocError` where memory is not found, or there were more puts than the cache was made for, or their rows took more bytes
    /// than that, or than 243,015,696. Which rows there are then, and what stands in the body, is not said.
    pub fn apply(
        &mut self,
        trace: &Trace,
        command: &Command,
        body: &mut Vec<u8>,
    ) -> Result<ReplyKind, AllocError>
        requires of_trace { Contains trace.now.commands command.now }
        ensures applied { OnOk result (self.new ≡ record self.old {
          rows =
              (apply (operation trace.now.bytes command.now) self.old.rows).0;
        }) }
        ensures replied { IfOk result (λ kind. (kind, body.new.items) ≡ with_body body.old.items
            (spelled (apply (operation trace.now.bytes command.now) self.old.rows).1)) }
    {
        apply_in(&mut self.ranged, trace, command, body)
    }

    /// Gives the memory back.
    pub fn close(self) {
        let Indexed { ranged, .. } = self;
        ranged.close();
    }
}
