// A cache that any calls are made on. A call that can't be made, as one of a table that there is not, answers None.
ghost use Rattle.std.specs.Prelude.{◌≡◌, ◌-◌, ◌^◌, ◌<◌, ◌≤◌};
ghost use Rattle.layout.specs.Sizes.{fewest_table_pages, tables};
ghost use Rattle.foreign_list.specs.OwnerSeats.{IsAtRest};
ghost use Rattle.embedded_cache.specs.States.{IsUnguarded, most_bound};

use embedded_cache::{
    Cache, Foreign, Lent, Opening, OwnerSeat, Patch, PutAnswer, Scanned, ScannedRows, Share, Stats,
};
use layout::{FEWEST_TABLE_PAGES, GREATEST_KEY, GREATEST_VALUE, MOST_KEYS, TABLES};
use std::alloc::Global;
use std::test::Fail;

// So few rows may wait for their places in the order of keys that puts bring some in.
const WAITING: u32 = 3;

// The bytes in front of a value that is lent.
const HEAD: u32 = 16;

// The most keys of a scan, and the room that they take.
pub(super) const SCANNED: u32 = 5;

pub(super) const SCAN_BYTES: usize = 1290;

// The value behind the head of a block. None where none was found.
pub(super) fn value_in(bytes: &[u8], len: Option<u32>) -> Option<&[u8]> {
    let len = len?;
    bytes.get(HEAD as usize..)?.get(..len as usize)
}

#[derive(Drop)]
pub(super) struct Trial<'f> {
    cache: Cache<'f>,
    ghost unguarded: { IsUnguarded cache },
}

impl<'f> Trial<'f> {
    // Of 1,280 pages, whose tables share the segments.
    pub(super) fn new(
        alloc: Global,
        rows: u32,
        bound: u64,
        home: &'f Foreign,
        seat: OwnerSeat,
    ) -> Result<Trial<'f>, Fail>
        requires rows { (1 ≤ rows) × (rows < 2 ^ 32 - 1) }
        requires bound { bound ≤ most_bound 1280 1 }
        requires owner { home.now.owner ≡ 0 }
        requires seat { IsAtRest home.now seat }
    {
        let opening = Opening {
            shard: 0,
            pages: 1280,
            rows,
            regions: 1,
            bound,
            waiting: WAITING,
            wide: false,
        };
        let cache = Cache::open(alloc, opening, home, seat)?;
        Ok(Trial { cache })
    }

    // Of 1,536 pages, where the rows of each table have segments of their own, and the table of keys is written whole.
    pub(super) fn in_tables(
        alloc: Global,
        rows: u32,
        bound: u64,
        home: &'f Foreign,
        seat: OwnerSeat,
    ) -> Result<Trial<'f>, Fail>
        requires rows { (1 ≤ rows) × (rows < 2 ^ 32 - 1) }
        requires bound { bound ≤ most_bound fewest_table_pages tables }
        requires owner { home.now.owner ≡ 0 }
        requires seat { IsAtRest home.now seat }
    {
        let opening = Opening {
            shard: 0,
            pages: FEWEST_TABLE_PAGES,
            rows,
            regions: TABLES,
            bound,
            waiting: WAITING,
            wide: true,
        };
        let cache = Cache::open(alloc, opening, home, seat)?;
        Ok(Trial { cache })
    }

    pub(super) fn put(
        &mut self,
        table: u8,
        key: &[u8],
        value: &[u8],
        tag: u32,
        evicted: &mut [u32],
    ) -> Option<PutAnswer> {
        if table as u32 >= TABLES {
            return None;
        }
        if key.is_empty() || key.len() > GREATEST_KEY || value.len() > GREATEST_VALUE {
            return None;
        }
        Some(self.cache.put(table, key, value, tag, evicted))
    }

    pub(super) fn put_pieces(
        &mut self,
        table: u8,
        key: &[u8],
        first: &[u8],
        second: &[u8],
        tag: u32,
        evicted: &mut [u32],
    ) -> Option<PutAnswer> {
        if table as u32 >= TABLES {
            return None;
        }
        if key.is_empty() || key.len() > GREATEST_KEY || first.len() > GREATEST_VALUE {
            return None;
        }
        if second.len() > GREATEST_VALUE - first.len() {
            return None;
        }
        Some(
            self.cache
                .put_pieces(table, key, first, second, tag, evicted),
        )
    }

    // Whether the row of a table's key has this value and this tag.
    pub(super) fn has(&mut self, table: u8, key: &[u8], value: &[u8], tag: u32) -> bool {
        if table as u32 >= TABLES {
            return false;
        }
        let Some((found, number)) = self.cache.get(table, key) else {
            return false;
        };
        found == value && number == tag
    }

    // The same, where the row is left where it is.
    pub(super) fn shows(&self, table: u8, key: &[u8], value: &[u8], tag: u32) -> bool {
        if table as u32 >= TABLES {
            return false;
        }
        let Some((found, number)) = self.cache.peek(table, key) else {
            return false;
        };
        found == value && number == tag
    }

    // Whether no row has the key in the table.
    pub(super) fn lacks(&mut self, table: u8, key: &[u8]) -> bool {
        (table as u32) < TABLES && self.cache.get(table, key).is_none()
    }

    pub(super) fn patch(
        &mut self,
        table: u8,
        key: &[u8],
        at: usize,
        bytes: &[u8],
    ) -> Option<Patch> {
        if table as u32 >= TABLES {
            return None;
        }
        Some(self.cache.patch(table, key, at, bytes))
    }

    // Whether a row went.
    pub(super) fn erase(&mut self, table: u8, key: &[u8]) -> Option<bool> {
        if table as u32 >= TABLES {
            return None;
        }
        Some(self.cache.erase(table, key))
    }

    pub(super) fn scan(
        &mut self,
        table: u8,
        from: &[u8],
        count: u32,
        into: &mut [u8],
    ) -> Option<Scanned> {
        if table as u32 >= TABLES {
            return None;
        }
        if count == 0 || count > SCANNED || into.len() < SCAN_BYTES {
            return None;
        }
        Some(self.cache.scan(table, from, count, into))
    }

    pub(super) fn scan_rows(
        &mut self,
        table: u8,
        from: &[u8],
        count: u32,
        into: &mut [u8],
    ) -> Option<ScannedRows> {
        if table as u32 >= TABLES || count == 0 || count > MOST_KEYS {
            return None;
        }
        Some(self.cache.scan_rows(table, from, count, into))
    }

    // Lends a block with the value of a key behind its head. None where no ticket is idle too.
    pub(super) fn lend(&mut self, table: u8, key: &[u8], evicted: &mut [u32]) -> Option<Lent<'f>> {
        if table as u32 >= TABLES {
            return None;
        }
        self.cache.lend(table, key, HEAD, Share::Reply, evicted)
    }

    pub(super) fn take_back(&mut self) -> u32 {
        self.cache.take_back()
    }

    pub(super) fn stats(&self) -> Stats {
        self.cache.stats()
    }

    // False where a block is out.
    pub(super) fn finish(self) -> bool {
        if self.cache.blocks_out() != 0 {
            return false;
        }
        let _seat = self.cache.close();
        true
    }
}
