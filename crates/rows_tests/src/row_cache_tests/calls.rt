//! The replies of a row cache are those of a list of rows, through calls that are drawn at random.
use super::list::List;
use super::trial::Trial;
use rand_core::utils::NextWord;
use rand_pcg::Lcg64Xsh32;
use row_cache::Compacted;
use std::alloc::{AllocError, Global};
use std::test::Fail;

/// For how many rows there is room, of the 200 keys that are drawn.
const ROWS: u32 = 150;

/// The room of five keys.
const ROOM: usize = 1290;

#[derive(Drop)]
pub(super) struct Both {
    trial: Trial,
    list: List,
    /// How often another segment was begun. Each but the first three was freed by compaction.
    begun: u32,
}

/// One of 200 keys, of which each begins many others.
pub(super) fn key_of(alloc: Global, draw: u32) -> Result<Vec<u8>, AllocError> {
    let mut key = Vec::from_elem(alloc, 0xfe, draw as usize % 20 + 1)?;
    let tail = (draw / 20 % 10) as u8;
    if tail > 0 {
        key.push(tail.wrapping_mul(25))?;
    }
    Ok(key)
}

/// The length of a value: one of eight is any length, and the others are short.
fn length_of(draw: u32) -> usize {
    if draw % 8 == 0 {
        draw as usize / 8 % 12_001
    } else {
        draw as usize / 8 % 400
    }
}

impl Both {
    pub(super) fn new(alloc: Global) -> Result<Both, AllocError> {
        Ok(Both {
            trial: Trial::new(alloc, ROWS)?,
            list: List::new(alloc),
            begun: 0,
        })
    }

    /// With a group for each of eight tables.
    pub(super) fn of_tables(alloc: Global) -> Result<Both, AllocError> {
        Ok(Both {
            trial: Trial::of_tables(alloc, ROWS)?,
            list: List::new(alloc),
            begun: 0,
        })
    }

    /// The next calls are of this table.
    pub(super) fn turn_to(&mut self, table: u8) -> bool {
        self.list.turn_to(table);
        self.trial.turn_to(table)
    }

    /// Begins another segment or frees one, and else evicts a row.
    fn make_room(&mut self) -> bool {
        if self.trial.go_on() {
            self.begun = self.begun.wrapping_add(1);
            return true;
        }
        if self.trial.free().0 < 2 && self.trial.compact() == Some(Compacted::Freed) {
            return true;
        }
        self.evict()
    }

    fn evict(&mut self) -> bool {
        self.trial.evict_last() == self.list.evict_last()
    }

    fn put(
        &mut self,
        alloc: Global,
        key: &[u8],
        value: &[u8],
        number: u32,
    ) -> Result<bool, AllocError> {
        for _ in 0..ROWS {
            if let Some(put) = self.trial.put(key, value, number) {
                return Ok(put == self.list.put(alloc, key, value, number)?);
            }
            if !self.make_room() {
                return Ok(false);
            }
        }
        Ok(false)
    }

    fn get(&mut self, key: &[u8]) -> bool {
        self.trial.gets(key, self.list.get(key))
    }

    fn find(&self, key: &[u8]) -> bool {
        self.trial.value_of(key) == self.list.find(key)
    }

    fn erase(&mut self, key: &[u8]) -> bool {
        self.trial.erase(key) == self.list.erase(key)
    }

    fn compact(&mut self) -> bool {
        self.trial.compact().is_some()
    }

    fn scan(&mut self, alloc: Global, lo: &[u8], count: u32) -> Result<bool, AllocError> {
        let mut into = [0u8; ROOM];
        let (keys, bytes) = self.list.scan(alloc, lo, count)?;
        let Some(scanned) = self.trial.scan(lo, count, &mut into) else {
            return Ok(false);
        };
        Ok(scanned.keys == keys && into.get(..scanned.bytes as usize) == Some(bytes.as_slice()))
    }

    pub(super) fn are_alike(&self) -> bool {
        let (rows, live) = self.trial.size();
        rows as usize == self.list.len() && live == self.list.live()
    }
}

/// One call of a key, drawn at random, and whether both reply alike.
pub(super) fn one_call_of(
    alloc: Global,
    both: &mut Both,
    random: &mut Lcg64Xsh32,
    number: u32,
    call: u32,
    key: &[u8],
) -> Result<bool, AllocError> {
    match call {
        0..=6 => {
            let value = Vec::from_elem(alloc, (number % 251) as u8, length_of(random.next_word()))?;
            both.put(alloc, key, &value, number)
        }
        7..=9 => Ok(both.get(key)),
        10 => Ok(both.find(key)),
        11 | 12 => Ok(both.erase(key)),
        13 => Ok(both.evict()),
        14 => Ok(both.compact()),
        _ => both.scan(alloc, key, number % 5 + 1),
    }
}

/// One call, drawn at random, and whether both reply alike.
fn one_call(
    alloc: Global,
    both: &mut Both,
    random: &mut Lcg64Xsh32,
    number: u32,
) -> Result<bool, AllocError> {
    let draw = random.next_word();
    let key = key_of(alloc, draw / 16)?;
    one_call_of(alloc, both, random, number, draw % 16, &key)
}

/// Which of the calls is the first whose replies are not alike.
fn first_unlike(
    alloc: Global,
    both: &mut Both,
    random: &mut Lcg64Xsh32,
) -> Result<Option<u32>, AllocError> {
    for number in 0..100_000u32 {
        if !one_call(alloc, both, random, number)? {
            return Ok(Some(number));
        }
        if number % 64 == 0 && !both.are_alike() {
            return Ok(Some(number));
        }
    }
    Ok(None)
}

/// Whether each row that is left goes from both alike, and leaves no bytes.
pub(super) fn all_go(both: &mut Both) -> bool {
    for _ in 0..ROWS {
        if !both.evict() {
            return false;
        }
    }
    both.trial.size() == (0, 0)
}

/// The first call whose replies are not alike, whether segments were begun often, and whether all rows go then.
fn replies(alloc: Global) -> Result<(Option<u32>, bool, bool), AllocError> {
    let mut both = Both::new(alloc)?;
    let mut random = Lcg64Xsh32::new(11, 1);
    let unlike = first_unlike(alloc, &mut both, &mut random);
    let begun = both.begun > 100;
    let all = all_go(&mut both);
    drop(both);
    Ok((unlike?, begun, all))
}

#[test]
fn a_hundred_thousand_replies_are_those_of_a_list(rt: HostRuntime) -> Result<(), Fail> {
    assert_eq!(rt; replies(rt.alloc())?, (None, true, true));
    Ok(())
}
