// Calls drawn at random on a store, beside a plain list of rows: what they answer, which rows go, and what stands in lent blocks.
ghost use Rattle.std.specs.Prelude.{◌≡◌, ◌⊎◌, ◌≤◌};
ghost use Rattle.layout.specs.Sizes as sizes;
ghost use Rattle.foreign_list.specs.OwnerSeats.{IsAtRest};

use super::drawn_store::{Drawn, SCAN_BYTES, SCANNED};
use super::list::List;
use super::{behind, value_in};
use foreign_list::{Foreign, ForeignBlock, OwnerSeat};
use layout::{FEWEST_TABLE_PAGES, GREATEST_BLOCK, TABLES};
use rand_core::utils::NextWord;
use rand_pcg::Lcg64Xsh32;
use std::alloc::{AllocError, Global};
use std::test::Fail;

// How many keys are drawn, and how many of each table. The pages hold some five or six hundred of their rows.
const KEYS: u32 = 700;

const KEYS_OF_TABLE: u32 = 90;

// The most rows that go in one call.
const MOST: usize = 512;

// The most blocks that are out at once, as many as there are tickets for requests.
const MOST_OUT: usize = 8;

// A block that another owner has, and what stood in it as it was lent.
#[derive(Drop)]
struct Lent<'f> {
    block: ForeignBlock<'f>,
    bytes: Vec<u8>,
}

// Whether the other owner reads what stood in a block, and releases it.
fn reads(lent: Lent<'_>) -> bool {
    let Lent { block, bytes } = lent;
    block.bytes() == bytes.as_slice() && block.release().is_ok()
}

#[derive(Drop)]
struct Both<'f> {
    // Whether rows are of all tables, or of table 0 alone.
    in_tables: bool,
    drawn: Drawn<'f>,
    list: List,
    out: Vec<Lent<'f>>,
    // How many rows went.
    gone: usize,
}

impl<'f> Both<'f> {
    fn new(
        alloc: Global,
        pages: u32,
        regions: u32,
        home: &'f Foreign,
        seat: OwnerSeat,
    ) -> Result<Both<'f>, Fail>
        requires pages { sizes.ArePages pages }
        requires regions { (regions ≡ 1) ⊎ ((regions ≡ sizes.tables) × (sizes.fewest_table_pages ≤ pages)) }
        requires owner { home.now.owner ≡ 0 }
        requires seat { IsAtRest home.now seat }
    {
        Ok(Both {
            in_tables: regions == TABLES,
            drawn: Drawn::new(alloc, pages, regions, home, seat)?,
            list: List::new(alloc),
            out: Vec::new(alloc),
            gone: 0,
        })
    }

    // Whether the rows that were told are the last of the list, in order. They go from it.
    fn loses(&mut self, tags: Option<&[u32]>) -> bool {
        let Some(tags) = tags else {
            return false;
        };
        self.gone = self.gone.wrapping_add(tags.len());
        self.list.loses(tags)
    }

    fn put(
        &mut self,
        alloc: Global,
        table: u8,
        key: &[u8],
        value: &[u8],
        tag: u32,
    ) -> Result<bool, AllocError> {
        let mut tags = [0u32; MOST];
        let Some((did, count)) = self.drawn.put(table, key, value, tag, &mut tags) else {
            return Ok(false);
        };
        let lost = self.loses(tags.get(..count));
        Ok(did == self.list.put(alloc, table, key, value, tag)? && lost)
    }

    fn get(&mut self, table: u8, key: &[u8]) -> bool {
        self.drawn.has(table, key, self.list.get(table, key))
    }

    fn erase(&mut self, table: u8, key: &[u8]) -> bool {
        self.drawn.erase(table, key) == Some(self.list.erase(table, key))
    }

    fn scan(
        &mut self,
        alloc: Global,
        table: u8,
        from: &[u8],
        count: u32,
    ) -> Result<bool, AllocError> {
        let mut into = [0u8; SCAN_BYTES];
        let (keys, body) = self.list.scan(alloc, table, from, count)?;
        let Some(scanned) = self.drawn.scan(table, from, count, &mut into) else {
            return Ok(false);
        };
        Ok(scanned.keys == keys && into.get(..scanned.bytes as usize) == Some(body.as_slice()))
    }

    // Hands a block to another owner.
    fn hand_out(&mut self, alloc: Global, block: ForeignBlock<'f>) -> Result<(), AllocError> {
        let bytes = block.bytes().to_vec(alloc)?;
        self.out.push(Lent { block, bytes })?;
        Ok(())
    }

    // Whether each block that is out reads as it was lent, and comes home.
    fn come_home(&mut self) -> bool {
        let count = self.out.len();
        for _ in 0..count {
            let Some(lent) = self.out.pop() else {
                return false;
            };
            if !reads(lent) {
                return false;
            }
        }
        self.drawn.take_back() as usize == count
    }

    // Whether one block more may be out. The others come home before where they are as many as may be.
    fn has_hand(&mut self) -> bool {
        self.out.len() < MOST_OUT || self.come_home()
    }

    fn lend_value(&mut self, alloc: Global, table: u8, key: &[u8]) -> Result<bool, AllocError> {
        let mut tags = [0u32; MOST];
        let Some((block, found, count)) = self.drawn.lend_value(table, key, &mut tags) else {
            return Ok(false);
        };
        let lost = self.loses(tags.get(..count));
        let same = value_in(block.bytes(), found) == self.list.get(table, key);
        self.hand_out(alloc, block)?;
        Ok(lost && same)
    }

    fn lend_keys(
        &mut self,
        alloc: Global,
        table: u8,
        from: &[u8],
        count: u32,
    ) -> Result<bool, AllocError> {
        let mut tags = [0u32; MOST];
        let Some((block, scanned, told)) = self.drawn.lend_keys(table, from, count, &mut tags)
        else {
            return Ok(false);
        };
        let lost = self.loses(tags.get(..told));
        let (keys, body) = self.list.scan(alloc, table, from, count)?;
        let same = scanned.keys == keys
            && behind(block.bytes(), scanned.bytes) == Some(body.as_slice());
        self.hand_out(alloc, block)?;
        Ok(lost && same)
    }

    fn lend(&mut self, alloc: Global, size: u32) -> Result<bool, AllocError> {
        let mut tags = [0u32; MOST];
        let Some((block, count)) = self.drawn.lend(size, &mut tags) else {
            return Ok(false);
        };
        let lost = self.loses(tags.get(..count));
        let same = block.bytes().len() == size as usize;
        self.hand_out(alloc, block)?;
        Ok(lost && same)
    }

    fn are_alike(&self) -> bool {
        let (rows, live) = self.drawn.size();
        rows as usize == self.list.len() && live == self.list.live()
    }

    fn finish(mut self) -> bool {
        let came = self.come_home();
        self.drawn.finish() && came
    }
}

// The length of a value: one of four is any length, and the others are long.
fn length_of(draw: u32) -> usize {
    if draw % 4 == 0 {
        draw as usize / 4 % 12_001
    } else {
        9_000 + draw as usize / 4 % 3_001
    }
}

// One call of a key, drawn at random, and whether both answer alike.
fn one_call_of(
    alloc: Global,
    both: &mut Both<'_>,
    random: &mut Lcg64Xsh32,
    number: u32,
    call: u32,
    table: u8,
    key: &[u8],
) -> Result<bool, AllocError> {
    match call {
        0..=6 => {
            let value = Vec::from_elem(alloc, (number % 251) as u8, length_of(random.next_word()))?;
            both.put(alloc, table, key, &value, number)
        }
        7..=9 => Ok(both.get(table, key)),
        10 => Ok(both.erase(table, key)),
        11 => both.scan(alloc, table, key, number % SCANNED + 1),
        12 | 13 => both.lend_value(alloc, table, key),
        14 => both.lend_keys(alloc, table, key, number % SCANNED + 1),
        _ => both.lend(alloc, random.next_word() % GREATEST_BLOCK + 1),
    }
}

// The table and the key of a call.
fn key_of(draw: u32, in_tables: bool) -> (u8, u32) {
    if in_tables {
        ((draw / KEYS_OF_TABLE % TABLES) as u8, draw % KEYS_OF_TABLE)
    } else {
        (0, draw % KEYS)
    }
}

// One call, drawn at random, and whether both answer alike.
fn one_call(
    alloc: Global,
    both: &mut Both<'_>,
    random: &mut Lcg64Xsh32,
    number: u32,
) -> Result<bool, AllocError> {
    if !both.has_hand() {
        return Ok(false);
    }
    let draw = random.next_word();
    let (table, key) = key_of(draw / 16, both.in_tables);
    one_call_of(
        alloc,
        both,
        random,
        number,
        draw % 16,
        table,
        &key.to_be_bytes(),
    )
}

// Which of the calls is the first whose answers are not alike.
fn first_unlike(
    alloc: Global,
    both: &mut Both<'_>,
    random: &mut Lcg64Xsh32,
) -> Result<Option<u32>, AllocError> {
    for number in 0..10_000u32 {
        if !one_call(alloc, both, random, number)? {
            return Ok(Some(number));
        }
        if number % 64 == 0 && !both.are_alike() {
            return Ok(Some(number));
        }
    }
    Ok(None)
}

// The first call whose answers are not alike, whether many rows went, and whether all blocks come home.
fn answers(alloc: Global, pages: u32, regions: u32) -> Result<(Option<u32>, bool, bool), Fail>
    requires pages { sizes.ArePages pages }
    requires regions { (regions ≡ 1) ⊎ ((regions ≡ sizes.tables) × (sizes.fewest_table_pages ≤ pages)) }
{
    let (home, seat) = Foreign::new(alloc, 0)?;
    let mut both = Both::new(alloc, pages, regions, &home, seat)?;
    let mut random = Lcg64Xsh32::new(5, 1);
    let unlike = first_unlike(alloc, &mut both, &mut random);
    let many = both.gone > 100;
    let all = both.finish();
    Ok((unlike?, many, all))
}

#[test]
fn ten_thousand_answers_are_those_of_a_list(rt: HostRuntime) -> Result<(), Fail> {
    assert_eq!(rt; answers(rt.alloc(), 1280, 1)?, (None, true, true));
    Ok(())
}

#[test]
fn ten_thousand_answers_in_tables_are_those_of_a_list(rt: HostRuntime) -> Result<(), Fail> {
    let answers = answers(rt.alloc(), FEWEST_TABLE_PAGES, TABLES)?;
    assert_eq!(rt; answers, (None, true, true));
    Ok(())
}
