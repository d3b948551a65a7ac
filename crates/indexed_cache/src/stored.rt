//! Rows in segments of one group.
ghost use Rattle.std.specs.Prelude.{◌≡◌, ◌-◌, ◌^◌, ◌<◌, ◌≤◌, ◌&&◌, nat_lt, true, List, [], length, take, replicate, None, Contains, IfOk, OnOk};
ghost use Rattle.std.specs.List.{last_or};
ghost use Rattle.layout.specs.Sizes.{most_segments};
ghost use Rattle.rows.specs.Apply as parts;
ghost use Rattle.rows.specs.Row.{is_of_put, live, Row};
ghost use Rattle.rows.specs.Spelled.{spelled, with_body};
ghost use Rattle.trace_text.specs.Operation.{operation};
ghost use Rattle.regions.specs.Segments.{idle};
ghost use Rattle.row_cache.specs.Rows.{rows_of};
ghost use Rattle.segmented_store.specs.Segments.{HoldsSegments};

use crate::doing::{do_part, evict};
use raw_range::Piece;
use row_cache::RowCache;
use rows::ReplyKind;
use segmented_store::Segmented;
use std::alloc::{AllocError, Global};
use std::marker::Model;
use trace_text::{Command, Trace};

/// Rows whose segments are all of one group, and for how many rows there is room.
#[derive(Drop)]
pub struct StoredRows {
    cache: RowCache,
    room: u32,
}

impl Model for StoredRows {
    ghost use Rattle.std.specs.Prelude.{◌≡◌};
    ghost use Rattle.regions.specs.Shapes.{group_count};
    ghost use Rattle.row_cache.specs.Rows.{CacheState};

    ghost Value = { CacheState };

    ghost view = { λ s. s.cache };

    ghost invariant = { λ s. (group_count s.cache.region ≡ 1) × (s.cache.room ≡ s.room) };
}

impl StoredRows {
    /// No rows and no segments, with room for so many of each.
    pub(crate) fn new(alloc: Global, rows: u32, segments: u32) -> Result<StoredRows, AllocError>
        requires rows { rows < 2 ^ 32 - 1 }
        requires segments { segments ≤ most_segments }
        ensures empty { IfOk result (λ stored. rows_of stored ≡ []) }
        ensures region { IfOk result (λ stored. stored.region ≡ record {
          most = segments;
          groups = replicate 1 idle;
          segments = replicate segments None;
        }) }
    {
        Ok(StoredRows {
            cache: RowCache::new(alloc, rows, segments, 1)?,
            room: rows,
        })
    }

    /// How many rows there are.
    pub(crate) fn rows(&self) -> u32
        ensures { result ≡ length (rows_of self.now) }
    {
        self.cache.rows()
    }

    /// The live bytes.
    pub(crate) fn live(&self) -> u64
        ensures { result ≡ live (rows_of self.now) }
    {
        self.cache.live()
    }

    /// Does one part of a command of the trace, and appends the reply's body.
    pub(crate) fn apply(
        &mut self,
        trace: &Trace,
        command: &Command,
        body: &mut Vec<u8>,
    ) -> Result<ReplyKind, AllocError>
        requires of_trace { Contains trace.now.commands command.now }
        ensures applied { OnOk result (rows_of self.new
            ≡ (parts.apply (operation trace.now.bytes command.now) (rows_of self.old)).0) }
        ensures replied { IfOk result (λ kind. (kind, body.new.items) ≡ with_body body.old.items
            (spelled (parts.apply (operation trace.now.bytes command.now) (rows_of self.old)).1)) }
        ensures segments { HoldsSegments self.old.region self.new.region }
    {
        do_part(&mut self.cache, self.room, trace, command, body)
    }

    /// Evicts the row of a put, where more bytes are live than the floor and it is the last row; whether it is so.
    pub(crate) fn evict(&mut self, put: u32, floor: u64) -> bool
        ensures possible { result ≡ (is_of_put put (last_or None (rows_of self.old)) && nat_lt floor (live (rows_of self.old))) }
        ensures removed { result ≡ true → rows_of self.new ≡ take (length (rows_of self.old) - 1) (rows_of self.old) }
        ensures segments { HoldsSegments self.old.region self.new.region }
    {
        evict(&mut self.cache, put, floor)
    }
}

impl Segmented for StoredRows {
    ghost region = { λ s. s.region };

    ghost Content = { List Row };

    ghost content = { λ s. rows_of s };

    fn take_piece(&mut self, piece: Piece) {
        self.cache.add_segment(piece);
    }

    fn give_piece(&mut self) -> Option<Piece> {
        self.cache.give_up()
    }
}
