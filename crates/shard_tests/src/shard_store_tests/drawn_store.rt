// A store that any calls are made on, and that tells the tags of the rows that go.
ghost use Rattle.std.specs.Prelude.{◌≡◌, ◌⊎◌, ◌<◌, ◌≤◌};
ghost use Rattle.layout.specs.Sizes as sizes;
ghost use Rattle.foreign_list.specs.OwnerSeats.{IsAtRest};
ghost use Rattle.shard_store.specs.Stores.{IsUnguarded};

use super::{HEAD, value_of};
use foreign_list::{Foreign, ForeignBlock, OwnerSeat};
use layout::{GREATEST_BLOCK, GREATEST_KEY, GREATEST_VALUE, TABLES};
use shard_store::{EvictedTags, Put, Scanned, ShardStore, Share};
use std::alloc::{AllocError, Global};
use std::test::Fail;

// For how many rows there is room.
const ROWS: u32 = 800;

// The most keys of a scan, and the room that they take.
pub(super) const SCANNED: u32 = 5;

pub(super) const SCAN_BYTES: usize = 1290;

// A call that can't be made, as one of a table that there is not, or one with a tag that has no place, answers None.
#[derive(Drop)]
pub(super) struct Drawn<'f> {
    store: ShardStore<'f>,
    ghost room: { store.room ≡ 800 },
    ghost unguarded: { IsUnguarded store },
}

impl<'f> Drawn<'f> {
    // Of so many pages, the segments in so many groups.
    pub(super) fn new(
        alloc: Global,
        pages: u32,
        regions: u32,
        home: &'f Foreign,
        seat: OwnerSeat,
    ) -> Result<Drawn<'f>, Fail>
        requires pages { sizes.ArePages pages }
        requires regions { (regions ≡ 1) ⊎ ((regions ≡ sizes.tables) × (sizes.fewest_table_pages ≤ pages)) }
        requires owner { home.now.owner ≡ 0 }
        requires seat { IsAtRest home.now seat }
    {
        let Ok(store) = ShardStore::open(alloc, 0, pages, ROWS, regions, home, seat) else {
            return Err(AllocError.into());
        };
        Ok(Drawn { store })
    }

    // Puts a row. Answers how many tags are in `tags` besides.
    pub(super) fn put(
        &mut self,
        table: u8,
        key: &[u8],
        value: &[u8],
        tag: u32,
        tags: &mut [u32],
    ) -> Option<(Put, usize)> {
        if table as u32 >= TABLES {
            return None;
        }
        if key.is_empty() || key.len() > GREATEST_KEY || value.len() > GREATEST_VALUE {
            return None;
        }
        if self.store.rows() >= ROWS {
            return None;
        }
        let mut told = EvictedTags::new(tags);
        let did = self.store.put(table, key, value, tag, &mut told);
        if told.missed > 0 {
            return None;
        }
        Some((did, told.told))
    }

    // Whether the key of a table has this value, or none.
    pub(super) fn has(&mut self, table: u8, key: &[u8], value: Option<&[u8]>) -> bool {
        (table as u32) < TABLES && value_of(self.store.get(table, key)) == value
    }

    // Whether a row went. None where there is no such table.
    pub(super) fn erase(&mut self, table: u8, key: &[u8]) -> Option<bool> {
        if table as u32 >= TABLES {
            return None;
        }
        Some(self.store.erase(table, key))
    }

    pub(super) fn scan(
        &mut self,
        table: u8,
        from: &[u8],
        count: u32,
        into: &mut [u8],
    ) -> Option<Scanned> {
        if table as u32 >= TABLES {
            return None;
        }
        if count == 0 || count > SCANNED || into.len() < SCAN_BYTES {
            return None;
        }
        Some(self.store.scan(table, from, count, into))
    }

    // Lends a block with the value of a key behind its head.
    pub(super) fn lend_value(
        &mut self,
        table: u8,
        key: &[u8],
        tags: &mut [u32],
    ) -> Option<(ForeignBlock<'f>, Option<u32>, usize)> {
        if table as u32 >= TABLES {
            return None;
        }
        if !self.store.is_idle(Share::Reply) {
            return None;
        }
        if self.store.rows() > ROWS {
            return None;
        }
        let mut told = EvictedTags::new(tags);
        let (block, found) = self
            .store
            .lend_value(table, key, HEAD, Share::Reply, &mut told);
        if told.missed > 0 {
            return None;
        }
        Some((block, found, told.told))
    }

    // Lends a block with keys behind its head.
    pub(super) fn lend_keys(
        &mut self,
        table: u8,
        from: &[u8],
        count: u32,
        tags: &mut [u32],
    ) -> Option<(ForeignBlock<'f>, Scanned, usize)> {
        if table as u32 >= TABLES {
            return None;
        }
        if count == 0 || count > SCANNED {
            return None;
        }
        if !self.store.is_idle(Share::Reply) {
            return None;
        }
        if self.store.rows() > ROWS {
            return None;
        }
        let mut told = EvictedTags::new(tags);
        let (block, scanned) = self
            .store
            .lend_keys(table, from, count, HEAD, Share::Reply, &mut told);
        if told.missed > 0 {
            return None;
        }
        Some((block, scanned, told.told))
    }

    // Lends a block of so many bytes.
    pub(super) fn lend(
        &mut self,
        size: u32,
        tags: &mut [u32],
    ) -> Option<(ForeignBlock<'f>, usize)> {
        if size == 0 || size > GREATEST_BLOCK {
            return None;
        }
        if self.store.rows() > ROWS {
            return None;
        }
        let mut told = EvictedTags::new(tags);
        let block = self.store.try_lend(size, Share::Request, &mut told)?;
        if told.missed > 0 {
            return None;
        }
        Some((block, told.told))
    }

    pub(super) fn take_back(&mut self) -> u32 {
        self.store.take_back()
    }

    // How many rows there are, and the live bytes.
    pub(super) fn size(&self) -> (u32, u64) {
        (self.store.rows(), self.store.live())
    }

    // Whether each block that was lent is home.
    pub(super) fn finish(self) -> bool {
        let all = self.store.lent() == self.store.back();
        if self.store.tickets_out() != 0 {
            return false;
        }
        let _seat = self.store.finish();
        all
    }
}
