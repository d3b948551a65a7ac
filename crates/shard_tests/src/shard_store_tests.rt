//! Puts, look-ups and scans on one shard, of one table and of several, and the rows that go where there is no room for a put.
mod drawn;
mod drawn_store;
mod lent;
mod list;
mod passed;
mod pressure;
mod steps;
mod tables;
mod threads;
mod told;
mod used;

ghost use Rattle.std.specs.Prelude.{◌≡◌, ◌⊎◌, ◌<◌, ◌≤◌};
ghost use Rattle.layout.specs.Sizes as sizes;
ghost use Rattle.foreign_list.specs.OwnerSeats.{IsAtRest};
ghost use Rattle.shard_store.specs.Stores.{IsUnguarded};

use self::steps::{Step, done};
use cache_model::Entry;
use foreign_list::{Foreign, ForeignBlock, OwnerSeat};
use layout::{FEWEST_TABLE_PAGES, GREATEST_KEY, GREATEST_VALUE, TABLES};
use run_log::Journal;
use shard_store::{Put, ShardStore, Share};
use std::alloc::{AllocError, Global};
use std::test::Fail;

// The rows and the entries for which there is room.
const ROWS: u32 = 512;

const ENTRIES: u32 = 2400;

// The bytes in front of what is looked up, in a block that is lent with it.
const HEAD: u32 = 16;

// The value of the row whose key is this number.
fn large_value(alloc: Global, number: u32) -> Result<Vec<u8>, AllocError> {
    Vec::from_elem(alloc, (number % 251) as u8, 12_000)
}

// What stands behind the head of a block, in so many bytes. None where the block is shorter.
fn behind(bytes: &[u8], len: u32) -> Option<&[u8]> {
    bytes.get(HEAD as usize..)?.get(..len as usize)
}

// The value of the row that was found.
fn value_of(found: Option<(&[u8], u32)>) -> Option<&[u8]> {
    match found {
        Some((value, _)) => Some(value),
        None => None,
    }
}

// The value behind the head of a block. None where none was found.
fn value_in(bytes: &[u8], found: Option<u32>) -> Option<&[u8]> {
    match found {
        Some(len) => behind(bytes, len),
        None => None,
    }
}

// A store, the journal that is told of the rows that go, and the table of which the next calls are. A call for which there is no
// room changes nothing.
#[derive(Drop)]
struct Trial<'f> {
    store: ShardStore<'f>,
    journal: Journal,
    table: u8,
    ghost room: { store.room ≡ 512 },
    ghost unguarded: { IsUnguarded store },
    ghost below: { table < sizes.tables },
}

impl<'f> Trial<'f> {
    // Of 1,280 pages, the segments in one group.
    fn new(alloc: Global, home: &'f Foreign, seat: OwnerSeat) -> Result<Trial<'f>, Fail>
        requires owner { home.now.owner ≡ 0 }
        requires seat { IsAtRest home.now seat }
    {
        Trial::open(alloc, 1280, 1, home, seat)
    }

    // Of 1,536 pages, the segments in a group for each table.
    fn in_tables(alloc: Global, home: &'f Foreign, seat: OwnerSeat) -> Result<Trial<'f>, Fail>
        requires owner { home.now.owner ≡ 0 }
        requires seat { IsAtRest home.now seat }
    {
        Trial::open(alloc, FEWEST_TABLE_PAGES, TABLES, home, seat)
    }

    fn open(
        alloc: Global,
        pages: u32,
        regions: u32,
        home: &'f Foreign,
        seat: OwnerSeat,
    ) -> Result<Trial<'f>, Fail>
        requires pages { sizes.ArePages pages }
        requires regions { (regions ≡ 1) ⊎ ((regions ≡ sizes.tables) × (sizes.fewest_table_pages ≤ pages)) }
        requires owner { home.now.owner ≡ 0 }
        requires seat { IsAtRest home.now seat }
    {
        let journal = Journal::new(alloc, ENTRIES)?;
        let Ok(store) = ShardStore::open(alloc, 0, pages, ROWS, regions, home, seat) else {
            return Err(AllocError.into());
        };
        Ok(Trial {
            store,
            journal,
            table: 0,
        })
    }

    // The next calls are of this table. False where there is none of this number.
    fn turn_to(&mut self, table: u8) -> bool {
        if table as u32 >= TABLES {
            return false;
        }
        self.table = table;
        true
    }

    // None where the row is none, or where its evictions may have no room in the journal.
    fn put(&mut self, key: &[u8], value: &[u8], tag: u32) -> Option<Put> {
        if key.is_empty() || key.len() > GREATEST_KEY || value.len() > GREATEST_VALUE {
            return None;
        }
        if self.store.rows() >= ROWS || self.store.rows() > self.journal.spare() {
            return None;
        }
        Some(
            self.store
                .put(self.table, key, value, tag, &mut self.journal),
        )
    }

    // Whether the key has this value, or none.
    fn has(&mut self, key: &[u8], value: Option<&[u8]>) -> bool {
        value_of(self.store.get(self.table, key)) == value
    }

    fn erase(&mut self, key: &[u8]) -> bool {
        self.store.erase(self.table, key)
    }

    // Whether the first keys from one on are spelled like this.
    fn scans(&mut self, key: &[u8], count: u32, body: &[u8]) -> bool {
        if count == 0 || count > 4 {
            return false;
        }
        let mut into = [0; 1032];
        let scanned = self.store.scan(self.table, key, count, &mut into);
        &into[..scanned.bytes as usize] == body
    }

    // Puts rows of 12,048 bytes, ten of which fill a segment, and answers how many had new keys, as far as there is memory. The keys
    // are the numbers.
    fn put_large(&mut self, alloc: Global, from: u32, to: u32) -> u32 {
        let mut stored = 0u32;
        for number in from..to {
            let Ok(value) = large_value(alloc, number) else {
                return stored;
            };
            if self.put(&number.to_be_bytes(), &value, number) == Some(Put::Stored) {
                stored = stored.saturating_add(1);
            }
        }
        stored
    }

    // Puts a row of 12,048 bytes of one key so many times, and answers how often it replaced one.
    fn put_again(&mut self, alloc: Global, times: u32) -> u32 {
        let Ok(value) = Vec::from_elem(alloc, b'x', 12_000) else {
            return 0;
        };
        let mut replaced = 0u32;
        for number in 0..times {
            if self.put(b"a", &value, number) == Some(Put::Replaced) {
                replaced = replaced.saturating_add(1);
            }
        }
        replaced
    }

    // How many rows there are, and the live bytes.
    fn size(&self) -> (u32, u64) {
        (self.store.rows(), self.store.live())
    }

    // A block with the value of a key behind its head, and the length that was found. None where no ticket is idle, or where its
    // evictions may have no room in the journal.
    fn lend_value(&mut self, key: &[u8]) -> Option<(ForeignBlock<'f>, Option<u32>)> {
        if !self.store.is_idle(Share::Reply) {
            return None;
        }
        if self.store.rows() > self.journal.spare() {
            return None;
        }
        Some(
            self.store
                .lend_value(self.table, key, HEAD, Share::Reply, &mut self.journal),
        )
    }

    // Whether a block of so many bytes is lent with this value of a key, or with none, and comes home once it is released.
    fn lends_value(&mut self, key: &[u8], value: Option<&[u8]>, len: usize) -> bool {
        let Some((block, found)) = self.lend_value(key) else {
            return false;
        };
        let right = (
            block.bytes().len(),
            found.is_some() == value.is_some(),
            value_in(block.bytes(), found) == value,
        );
        let released = block.release().is_ok();
        (right, released, self.store.take_back()) == ((len, true, true), true, 1)
    }

    // False where a block is out.
    fn finish(self) -> bool {
        if self.store.tickets_out() != 0 {
            return false;
        }
        let _seat = self.store.finish();
        true
    }
}

#[test]
fn a_row_is_stored_replaced_and_erased(rt: HostRuntime) -> Result<(), Fail> {
    const STEPS: &[Step] = &[
        Step::Puts(b"a", b"1", 1, Put::Stored),
        Step::Puts(b"a", b"abc", 2, Put::Replaced),
        Step::Size(1, 48),
        Step::Has(b"a", Some(b"abc")),
        Step::LendsValue(b"a", Some(b"abc"), 19),
        Step::LendsValue(b"b", None, 16),
        Step::Erases(b"a", true),
        Step::Erases(b"a", false),
        Step::Has(b"a", None),
        Step::Size(0, 0),
        Step::Told(&[]),
    ];
    assert_eq!(rt; done(rt.alloc(), STEPS)?, STEPS.len());
    Ok(())
}

#[test]
fn a_scan_gives_the_keys_from_its_own_on(rt: HostRuntime) -> Result<(), Fail> {
    const STEPS: &[Step] = &[
        Step::Puts(b"a", b"1", 1, Put::Stored),
        Step::Puts(b"c", b"3", 2, Put::Stored),
        Step::Puts(b"b", b"2", 3, Put::Stored),
        Step::Scans(b"b", 2, b"\x01\0b\x01\0c"),
        Step::Scans(b"d", 4, b""),
        Step::Size(3, 144),
    ];
    assert_eq!(rt; done(rt.alloc(), STEPS)?, STEPS.len());
    Ok(())
}

#[test]
fn the_oldest_row_goes_where_nothing_else_makes_room(rt: HostRuntime) -> Result<(), Fail> {
    const STEPS: &[Step] = &[
        Step::PutsLarge(1, 391, 390),
        Step::Told(&[]),
        Step::PutsLarge(391, 393, 2),
        Step::Size(390, 4_698_720),
        Step::Told(&[Entry::Evicted(1), Entry::Evicted(2)]),
        Step::Has(b"\0\0\0\x01", None),
    ];
    assert_eq!(rt; done(rt.alloc(), STEPS)?, STEPS.len());
    Ok(())
}

#[test]
fn a_row_may_go_for_the_one_that_replaces_it(rt: HostRuntime) -> Result<(), Fail> {
    const STEPS: &[Step] = &[
        Step::PutsLarge(1, 391, 390),
        Step::PutsLarge(1, 2, 1),
        Step::Told(&[Entry::Evicted(1)]),
        Step::Size(390, 4_698_720),
    ];
    assert_eq!(rt; done(rt.alloc(), STEPS)?, STEPS.len());
    Ok(())
}

#[test]
fn nothing_goes_while_compaction_makes_room(rt: HostRuntime) -> Result<(), Fail> {
    const STEPS: &[Step] = &[
        Step::PutsAgain(1000, 999),
        Step::Size(1, 12_048),
        Step::Told(&[]),
    ];
    assert_eq!(rt; done(rt.alloc(), STEPS)?, STEPS.len());
    Ok(())
}

// Worked by hand: 39 segments hold ten rows each, one is free, and a block needs a second. Once row 1 went, compaction moves the
// nine beside it into the free one; while these go too, no other segment is sparse. Once row 11 went, one of the nine beside it
// goes behind them and eight into the segment that is free; then the one with a single live row is emptied too, and two are free.
#[test]
fn a_row_may_go_for_the_block_of_its_own_value(rt: HostRuntime) -> Result<(), Fail> {
    const STEPS: &[Step] = &[
        Step::PutsLarge(1, 391, 390),
        Step::LendsValue(b"\0\0\0\x01", None, 12_016),
        Step::Told(&[
            Entry::Evicted(1),
            Entry::Evicted(2),
            Entry::Evicted(3),
            Entry::Evicted(4),
            Entry::Evicted(5),
            Entry::Evicted(6),
            Entry::Evicted(7),
            Entry::Evicted(8),
            Entry::Evicted(9),
            Entry::Evicted(10),
            Entry::Evicted(11),
        ]),
        Step::Size(379, 4_566_192),
    ];
    assert_eq!(rt; done(rt.alloc(), STEPS)?, STEPS.len());
    Ok(())
}
