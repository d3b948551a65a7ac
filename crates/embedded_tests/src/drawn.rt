// Calls drawn at random on a cache, beside a plain list of rows: what they answer, and which rows go.
use crate::list::List;
use crate::trial::{SCAN_BYTES, SCANNED, Trial};
use embedded_cache::{Foreign, PutAnswer};
use layout::TABLES;
use rand_core::utils::NextWord;
use rand_pcg::Lcg64Xsh32;
use std::alloc::{AllocError, Global};
use std::test::Fail;

// How many keys of each table are drawn.
const KEYS: u32 = 60;

// The most rows that go in one call.
const MOST: usize = 512;

#[derive(Drop)]
struct Both<'f> {
    trial: Trial<'f>,
    list: List,
    // How many rows went.
    gone: usize,
}

impl<'f> Both<'f> {
    // Whether the put answered like the list, of which the rows that were told go.
    fn is_put(
        &mut self,
        alloc: Global,
        table: u8,
        key: &[u8],
        value: &[u8],
        tag: u32,
        answer: Option<PutAnswer>,
        evicted: &[u32],
    ) -> Result<bool, AllocError> {
        let Some(answer) = answer else {
            return Ok(false);
        };
        let Some(tags) = evicted.get(..answer.evicted as usize) else {
            return Ok(false);
        };
        self.gone = self.gone.wrapping_add(tags.len());
        let lost = self.list.sheds(table, key, tags);
        Ok(self.list.put(alloc, table, key, value, tag)? == answer.put && lost)
    }

    fn put(
        &mut self,
        alloc: Global,
        table: u8,
        key: &[u8],
        value: &[u8],
        tag: u32,
    ) -> Result<bool, AllocError> {
        let mut tags = [0u32; MOST];
        let answer = self.trial.put(table, key, value, tag, &mut tags);
        self.is_put(alloc, table, key, value, tag, answer, &tags)
    }

    fn put_pieces(
        &mut self,
        alloc: Global,
        table: u8,
        key: &[u8],
        first: &[u8],
        second: &[u8],
        tag: u32,
    ) -> Result<bool, AllocError> {
        let mut tags = [0u32; MOST];
        let mut value = first.to_vec(alloc)?;
        value.extend_from_slice(second)?;
        let answer = self
            .trial
            .put_pieces(table, key, first, second, tag, &mut tags);
        self.is_put(alloc, table, key, &value, tag, answer, &tags)
    }

    fn get(&mut self, table: u8, key: &[u8]) -> bool {
        match self.list.get(table, key) {
            Some((value, tag)) => self.trial.has(table, key, value, tag),
            None => self.trial.lacks(table, key),
        }
    }

    fn patch(&mut self, table: u8, key: &[u8], at: usize, bytes: &[u8]) -> bool {
        self.trial.patch(table, key, at, bytes) == Some(self.list.patch(table, key, at, bytes))
    }

    fn erase(&mut self, table: u8, key: &[u8]) -> bool {
        self.trial.erase(table, key) == Some(self.list.erase(table, key))
    }

    fn scan(
        &mut self,
        alloc: Global,
        table: u8,
        from: &[u8],
        count: u32,
    ) -> Result<bool, AllocError> {
        let mut into = [0u8; SCAN_BYTES];
        let (keys, body) = self.list.scan(alloc, table, from, count)?;
        let Some(scanned) = self.trial.scan(table, from, count, &mut into) else {
            return Ok(false);
        };
        Ok(scanned.keys == keys && into.get(..scanned.bytes as usize) == Some(body.as_slice()))
    }

    fn lend(&mut self, table: u8, key: &[u8]) -> bool {
        match self.list.get(table, key) {
            Some((value, _)) => self.trial.lends(table, key, Some(value)),
            None => self.trial.lends(table, key, None),
        }
    }

    fn are_alike(&self) -> bool {
        let stats = self.trial.stats();
        stats.rows as usize == self.list.len() && stats.live == self.list.live()
    }
}

// The length of a value: one of four is any length, and the others are short.
fn length_of(draw: u32) -> usize {
    if draw % 4 == 0 {
        draw as usize / 4 % 12_001
    } else {
        draw as usize / 4 % 200
    }
}

// A put of one key, drawn at random, of which one in four comes in two pieces.
fn one_put(
    alloc: Global,
    both: &mut Both<'_>,
    random: &mut Lcg64Xsh32,
    number: u32,
    table: u8,
    key: &[u8],
) -> Result<bool, AllocError> {
    let value = Vec::from_elem(alloc, (number % 251) as u8, length_of(random.next_word()))?;
    if number % 4 != 0 || value.len() > 6_000 {
        return both.put(alloc, table, key, &value, number);
    }
    let second = Vec::from_elem(alloc, (number % 241) as u8, 5_999)?;
    both.put_pieces(alloc, table, key, &value, &second, number)
}

// A patch of one key, drawn at random.
fn one_patch(
    alloc: Global,
    both: &mut Both<'_>,
    random: &mut Lcg64Xsh32,
    number: u32,
    table: u8,
    key: &[u8],
) -> Result<bool, AllocError> {
    let (at, len) = (random.next_word() % 120, random.next_word() % 60);
    let bytes = Vec::from_elem(alloc, (number % 239) as u8, len as usize)?;
    Ok(both.patch(table, key, at as usize, &bytes))
}

// One call of a key, drawn at random, and whether both answer alike.
fn one_call_of(
    alloc: Global,
    both: &mut Both<'_>,
    random: &mut Lcg64Xsh32,
    number: u32,
    call: u32,
    table: u8,
    key: &[u8],
) -> Result<bool, AllocError> {
    match call {
        0..=6 => one_put(alloc, both, random, number, table, key),
        7..=9 => Ok(both.get(table, key)),
        10 | 11 => one_patch(alloc, both, random, number, table, key),
        12 => Ok(both.erase(table, key)),
        13 => both.scan(alloc, table, key, number % SCANNED + 1),
        _ => Ok(both.lend(table, key)),
    }
}

// One call, drawn at random, and whether both answer alike.
fn one_call(
    alloc: Global,
    both: &mut Both<'_>,
    random: &mut Lcg64Xsh32,
    number: u32,
) -> Result<bool, AllocError> {
    let draw = random.next_word();
    let key = draw / 16 % KEYS;
    let table = (draw / 16 / KEYS % TABLES) as u8;
    one_call_of(
        alloc,
        both,
        random,
        number,
        draw % 16,
        table,
        &key.to_be_bytes(),
    )
}

// Which of the calls is the first whose answers are not alike.
fn first_unlike(alloc: Global, both: &mut Both<'_>) -> Result<Option<u32>, AllocError> {
    let mut random = Lcg64Xsh32::new(5, 1);
    for number in 0..10_000u32 {
        if !one_call(alloc, both, &mut random, number)? {
            return Ok(Some(number));
        }
        if number % 64 == 0 && !both.are_alike() {
            return Ok(Some(number));
        }
    }
    Ok(None)
}

// The first call whose answers are not alike, whether many rows went, and whether all blocks came home.
fn answers(alloc: Global, trial: Trial<'_>, list: List) -> Result<(Option<u32>, bool, bool), Fail> {
    let mut both = Both {
        trial,
        list,
        gone: 0,
    };
    let unlike = first_unlike(alloc, &mut both);
    let many = both.gone > 100;
    let all = both.trial.finish();
    Ok((unlike?, many, all))
}

#[test]
fn ten_thousand_answers_are_those_of_a_list(rt: HostRuntime) -> Result<(), Fail> {
    let alloc = rt.alloc();
    let (home, seat) = Foreign::new(alloc, 0)?;
    let trial = Trial::new(alloc, 512, 200_000, &home, seat)?;
    let answers = answers(alloc, trial, List::new(alloc, 512, 200_000))?;
    assert_eq!(rt; answers, (None, true, true));
    Ok(())
}

#[test]
fn ten_thousand_answers_of_full_tables_are_those_of_a_list(rt: HostRuntime) -> Result<(), Fail> {
    let alloc = rt.alloc();
    let (home, seat) = Foreign::new(alloc, 0)?;
    let trial = Trial::in_tables(alloc, 50, 4_000_000, &home, seat)?;
    let answers = answers(alloc, trial, List::new(alloc, 50, 4_000_000))?;
    assert_eq!(rt; answers, (None, true, true));
    Ok(())
}
