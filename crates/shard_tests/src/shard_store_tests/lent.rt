// Blocks that are lent while rows fill the store, and a row that stays at its place under a guard.
ghost use Rattle.std.specs.Prelude.{◌≡◌, ◌<◌, ◌≤◌};
ghost use Rattle.layout.specs.Sizes.{tables};
ghost use Rattle.regions.specs.Shapes.{guards_of};
ghost use Rattle.shard_store.specs.Stores.{IsSameStore, IsUnguarded, RowsStay, group_for};

use super::steps::{Step, done, done_in_tables};
use super::{Trial, large_value};
use foreign_list::ForeignBlock;
use layout::{GREATEST_BLOCK, TICKETS};
use shard_store::{GiveRefusal, Put, ShardStore, Share};
use std::alloc::{AllocError, Global};
use std::test::Fail;

// How many bytes the larger blocks have.
const LARGE: u32 = 12_017;

// Lends a block and takes it back.
fn lend_once(store: &mut ShardStore<'_>) -> bool
    ensures stay { RowsStay store.old store.new }
    ensures same { IsSameStore store.old store.new }
{
    let Ok(block) = store.give_now(16, Share::Reply) else {
        return false;
    };
    block.release().is_ok() && store.take_back() == 1
}

// The same so many times.
fn lend_often(store: &mut ShardStore<'_>, times: u32) -> bool
    ensures stay { RowsStay store.old store.new }
    ensures same { IsSameStore store.old store.new }
{
    for _ in 0..times {
        if !lend_once(store) {
            return false;
        }
    }
    true
}

// Whether the row of a table's key has this value at its place when so many blocks were lent and taken back.
fn keeps(store: &mut ShardStore<'_>, table: u8, key: &[u8], value: &[u8], blocks: u32) -> bool
    requires table { table < tables }
    requires guarded { 1 ≤ guards_of store.old.region (group_for store.old table) }
    ensures same { IsSameStore store.old store.new }
{
    let Some(place) = store.place_of(table, key) else {
        return false;
    };
    lend_often(store, blocks) && store.value_at(place) == value
}

// The same under a guard of the table.
fn keeps_guarded(
    store: &mut ShardStore<'_>,
    table: u8,
    key: &[u8],
    value: &[u8],
    blocks: u32,
) -> bool
    requires table { table < tables }
    requires unguarded { IsUnguarded store.old }
    ensures unguarded { IsUnguarded store.new }
    ensures room { store.new.room ≡ store.old.room }
{
    store.guard(table);
    let kept = keeps(store, table, key, value, blocks);
    store.unguard(table);
    kept
}

impl<'f> Trial<'f> {
    pub(super) fn keeps(&mut self, key: &[u8], value: &[u8], blocks: u32) -> bool {
        keeps_guarded(&mut self.store, self.table, key, value, blocks)
    }

    // A block of so many bytes, with a ticket for requests. None where no ticket is idle, or where its evictions may have no room in
    // the journal.
    pub(super) fn lend(&mut self, size: u32) -> Option<ForeignBlock<'f>> {
        if size == 0 || size > GREATEST_BLOCK {
            return None;
        }
        if self.store.rows() > self.journal.spare() {
            return None;
        }
        let block = self
            .store
            .try_lend(size, Share::Request, &mut self.journal)?;
        Some(block)
    }

    // Lends a large block with a ticket for requests, and one with the value of this key with a ticket for replies, where they are
    // idle.
    fn lend_two(
        &mut self,
        key: &[u8],
        blocks: &mut Vec<ForeignBlock<'f>>,
    ) -> Result<(), AllocError> {
        if let Some(block) = self.lend(LARGE) {
            blocks.push(block)?;
        }
        if let Some((block, _)) = self.lend_value(key) {
            blocks.push(block)?;
        }
        Ok(())
    }

    // Lends blocks until no ticket is idle: large ones, and such with the value of the large row of this number.
    fn lend_all(
        &mut self,
        alloc: Global,
        number: u32,
    ) -> Result<Vec<ForeignBlock<'f>>, AllocError> {
        let mut blocks = Vec::new(alloc);
        for _ in 0..TICKETS {
            self.lend_two(&number.to_be_bytes(), &mut blocks)?;
        }
        Ok(blocks)
    }

    // Whether ten rows more are put.
    fn goes_on(&mut self, alloc: Global, from: u32) -> bool {
        self.put_large(alloc, from, from.saturating_add(10)) == 10
    }

    fn refuses(&mut self, share: Share) -> bool {
        self.store.give_now(16, share).err() == Some(GiveRefusal::NoTicket)
    }

    // Whether no block is lent, by whichever call, and nothing changed.
    fn refuses_all(&mut self) -> bool {
        let before = (self.store.rows(), self.journal.entries().len());
        let refuses = [
            self.refuses(Share::Request),
            self.refuses(Share::Reply),
            self.lend(16).is_none(),
            self.lend_value(b"a").is_none(),
        ];
        let after = (self.store.rows(), self.journal.entries().len());
        (refuses, after) == ([true; 4], before)
    }

    // Takes back all blocks. Answers how many came home.
    pub(super) fn take_back(&mut self, blocks: Vec<ForeignBlock<'f>>) -> u32 {
        if release_all(blocks) != TICKETS {
            return 0;
        }
        self.store.take_back()
    }

    // Lends all blocks, puts ten rows more while they are out, and takes the blocks back. Answers how many came home.
    pub(super) fn fill_and_lend(&mut self, alloc: Global) -> u32 {
        let Ok(blocks) = self.lend_all(alloc, 390) else {
            return 0;
        };
        let goes_on = self.goes_on(alloc, 391);
        let refuses = self.refuses_all();
        let home = self.take_back(blocks);
        if goes_on && refuses { home } else { 0 }
    }

    // Whether the large rows put first are gone, and as many others as there are rows read as they were put.
    pub(super) fn has_latest(&mut self, alloc: Global, end: u32) -> bool {
        let rows = self.store.rows();
        let first = end.saturating_sub(rows);
        let mut wrong = 0u32;
        for number in 1..end {
            if !self.has_large(alloc, number, number >= first) {
                wrong = wrong.saturating_add(1);
            }
        }
        wrong == 0 && rows < end
    }

    // Whether the large row of a number reads as it was put, or is gone.
    fn has_large(&mut self, alloc: Global, number: u32, there: bool) -> bool {
        let Ok(value) = large_value(alloc, number) else {
            return false;
        };
        let wanted = if there { Some(value.as_slice()) } else { None };
        self.has(&number.to_be_bytes(), wanted)
    }
}

#[test]
fn a_row_stays_at_its_place_under_a_guard(rt: HostRuntime) -> Result<(), Fail> {
    const STEPS: &[Step] = &[
        Step::Puts(b"a", b"abc", 1, Put::Stored),
        Step::Keeps(b"a", b"abc", 100),
        Step::Counts(100, 100),
    ];
    assert_eq!(rt; done(rt.alloc(), STEPS)?, STEPS.len());
    Ok(())
}

#[test]
fn a_row_of_a_table_stays_under_a_guard_of_it(rt: HostRuntime) -> Result<(), Fail> {
    const STEPS: &[Step] = &[
        Step::In(3),
        Step::Puts(b"a", b"abc", 1, Put::Stored),
        Step::In(4),
        Step::Puts(b"a", b"def", 2, Put::Stored),
        Step::Keeps(b"a", b"def", 100),
        Step::In(3),
        Step::Keeps(b"a", b"abc", 100),
        Step::Counts(200, 200),
    ];
    assert_eq!(rt; done_in_tables(rt.alloc(), STEPS)?, STEPS.len());
    Ok(())
}

// Releases the blocks, those in the middle first. Answers how many were released.
fn release_all(blocks: Vec<ForeignBlock<'_>>) -> u32 {
    let mut blocks = blocks;
    let mut released = 0u32;
    for _ in 0..TICKETS {
        if blocks.is_empty() {
            return released;
        }
        let middle = blocks.len() / 2;
        if blocks.swap_remove(middle).release().is_ok() {
            released = released.saturating_add(1);
        }
    }
    released
}

#[test]
fn all_tickets_are_out_while_rows_fill_the_store(rt: HostRuntime) -> Result<(), Fail> {
    const STEPS: &[Step] = &[
        Step::PutsLarge(1, 391, 390),
        Step::Lends(32),
        Step::AtMost(360),
        Step::Latest(401),
        Step::Counts(32, 32),
    ];
    assert_eq!(rt; done(rt.alloc(), STEPS)?, STEPS.len());
    Ok(())
}
