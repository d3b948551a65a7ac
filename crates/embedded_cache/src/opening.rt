//! What a cache is opened with.
ghost use Rattle.std.specs.Prelude.{◌≡◌, ◌/◌, ◌≤◌, [], false, IfOk, IfErr};
ghost use Rattle.layout.specs.Sizes.{segment_pages};
ghost use Rattle.foreign_list.specs.OwnerSeats.{IsAtRest};
ghost use Rattle.shard_memory.specs.Tickets.{tickets_out};
ghost use Rattle.shard_store.specs.Stores.{IsUnguarded};
ghost use Rattle.embedded_cache.specs.States.{most_bound, most_waiting, CanOpen};

use foreign_list::{Foreign, OwnerSeat};
use layout::{DENSE, SEGMENT_PAGES};
use shard_store::ShardStore;
use std::alloc::Global;
use std::fmt;
use thiserror::Error;

/// How many rows may wait for their places in the order of keys, where nothing else is asked for.
pub const MOST_WAITING: u32 = 1024;

/// What a cache is opened with.
#[derive(Clone, Copy, Debug, PartialEq, Eq)]
pub struct Opening {
    /// The number of the shard, which the owner of the list of its blocks is.
    pub shard: u32,
    /// 1,280 to 524,288, a multiple of 32; at least 1,536 where the rows of each table have segments of their own.
    pub pages: u32,
    /// For how many rows there is room, 1 to 4,294,967,294.
    pub rows: u32,
    /// How many groups the segments have: 1, or 8, where the rows of each table stand in segments of their own.
    pub regions: u32,
    /// Rows go while more bytes than these are live: at most [`most_bound`].
    pub bound: u64,
    /// The most rows that may wait for their places in the order of keys: a put that finds more brings one of them in, so that no
    /// scan has to sort more than so many. 4,294,967,295 where nothing is scanned, which spares puts the work.
    pub waiting: u32,
    /// Whether the table of keys is written whole at the opening, 16 to 32 bytes for each row that there is room for, so that no
    /// put doubles it.
    pub wide: bool,
}

impl Opening {
    /// A shard of so many pages, whose tables share the segments, with the greatest bound; [`MOST_WAITING`] rows may wait, and the
    /// table of keys is doubled as rows come.
    pub fn of_pages(shard: u32, pages: u32, rows: u32) -> Opening
        requires { segment_pages ≤ pages }
        ensures { result ≡ record {
          shard = shard;
          pages = pages;
          rows = rows;
          regions = 1;
          bound = most_bound pages 1;
          waiting = most_waiting;
          wide = false;
        } }
    {
        Opening {
            shard,
            pages,
            rows,
            regions: 1,
            bound: most_bound(pages, 1),
            waiting: MOST_WAITING,
            wide: false,
        }
    }
}

/// The greatest bound of so many pages with so many groups: the live bytes with which all segments but one for each group are
/// dense. Up to there compaction stays cheap, as each segment that it empties has at least the room of the greatest object; with
/// 96 % of all bytes live a call would cost twice what it costs with 91 %.
pub fn most_bound(pages: u32, regions: u32) -> u64
    requires { regions ≤ pages / segment_pages }
    ensures { result ≡ most_bound pages regions }
{
    u64::from(pages / SEGMENT_PAGES - regions) * u64::from(DENSE)
}

/// There is no memory for a cache. It carries what was handed in.
#[derive(Drop, Error)]
#[error("no memory for a cache of {pages} pages with room for {rows} rows", pages = .opening.pages, rows = .opening.rows)]
pub struct OpenRefusal {
    pub opening: Opening,
    pub seat: OwnerSeat,
}

impl fmt::Debug for OpenRefusal {
    fn fmt<W: fmt::Write>(&self, f: &mut fmt::Formatter<W>) -> fmt::Result {
        f.write_str("OpenRefusal")
    }
}

// The store of a cache that is opened so.
pub(crate) fn open_store<'f>(
    alloc: Global,
    opening: Opening,
    home: &'f Foreign,
    seat: OwnerSeat,
) -> Result<ShardStore<'f>, OpenRefusal>
    // What it is opened with.
    requires opening { CanOpen opening }
    requires owner { home.now.owner ≡ opening.shard }
    requires seat { IsAtRest home.now seat }

    // Without memory all of it comes back.
    ensures refused { IfErr result (λ refusal. (refusal.opening ≡ opening) × (refusal.seat ≡ seat)) }

    // It is this shard's, and empty.
    ensures numbers { IfOk result (λ store. (store.shard ≡ opening.shard) × (store.pages ≡ opening.pages)
        × (store.room ≡ opening.rows)) }
    ensures regions { IfOk result (λ store. store.regions ≡ opening.regions) }
    ensures rows { IfOk result (λ store. store.rows ≡ []) }

    // Nothing is lent, and no guard stands.
    ensures list { IfOk result (λ store. store.list ≡ home.now) }
    ensures idle { IfOk result (λ store. tickets_out store.lent ≡ 0) }
    ensures unguarded { IfOk result IsUnguarded }
{
    match ShardStore::open(
        alloc,
        opening.shard,
        opening.pages,
        opening.rows,
        opening.regions,
        home,
        seat,
    ) {
        Ok(store) => Ok(store),
        Err(seat) => Err(OpenRefusal { opening, seat }),
    }
}

// The table of keys is written whole where that is asked for.
pub(crate) fn widen_if(store: &mut ShardStore<'_>, wide: bool)
    ensures unchanged { store.new ≡ store.old }
{
    if wide {
        store.widen();
    }
}
