//! Calls of a cache, and what they answer.
ghost use Rattle.std.specs.Prelude.{◌<◌};

use super::trial::Trial;
use row_cache::{Compacted, Put};
use std::alloc::{AllocError, Global};

#[derive(Clone, Copy)]
pub(crate) enum Step<'a> {
    Put(&'a [u8], &'a [u8], u32, Option<Put>),
    Get(&'a [u8], Option<&'a [u8]>),
    FindLen(&'a [u8], Option<u32>),
    Erase(&'a [u8], bool),
    /// Whether the value of a key stays under a guard, which stays too, where another replaces it.
    Keeps(&'a [u8], &'a [u8], &'a [u8], Option<bool>),
    /// Whether the value of a key stays under a guard, which stays too, where a row of another table is put and erased.
    KeepsBeside(&'a [u8], &'a [u8], u8, &'a [u8], Option<bool>),
    /// How many keys a scan from here on gives, of at most so many, and their bytes.
    Scan(&'a [u8], u32, u32, &'a [u8]),
    EvictLast(Option<u32>),
    Compact(Option<Compacted>),
    Guard,
    Unguard,
    /// The next steps are of this table.
    Table(u8),
    /// Whether another segment becomes active in the table's group.
    GoOn(bool),
    /// How many rows there are, and the live bytes.
    Size(u32, u64),
    /// How many segments are free, and the bytes that the active one of the table's group has left.
    Free(u32, u32),
}

/// The room of five keys.
const ROOM: usize = 1290;

/// Whether a scan gives so many keys, which are these bytes, and leaves the bytes behind them.
fn scans(trial: &mut Trial, lo: &[u8], count: u32, keys: u32, bytes: &[u8]) -> bool {
    let mut into = [7u8; ROOM];
    let Some(scanned) = trial.scan(lo, count, &mut into) else {
        return false;
    };
    let at = scanned.bytes as usize;
    scanned.keys == keys && into.get(..at) == Some(bytes) && into.get(at) == Some(&7)
}

fn answers(trial: &mut Trial, step: &Step<'_>) -> bool {
    match step {
        Step::Put(key, value, number, answer) => trial.put(key, value, *number) == *answer,
        Step::Get(key, value) => trial.gets(key, *value),
        Step::FindLen(key, answer) => trial.find_len(key) == *answer,
        Step::Erase(key, answer) => trial.erase(key) == *answer,
        Step::Keeps(key, value, other, answer) => trial.keeps(key, value, other) == *answer,
        Step::KeepsBeside(key, value, table, other, answer) => {
            trial.keeps_beside(key, value, *table, other) == *answer
        }
        Step::Scan(lo, count, keys, bytes) => scans(trial, lo, *count, *keys, bytes),
        Step::EvictLast(answer) => trial.evict_last() == *answer,
        Step::Compact(answer) => trial.compact() == *answer,
        Step::Guard => trial.guard(),
        Step::Unguard => trial.unguard(),
        Step::Table(table) => trial.turn_to(*table),
        Step::GoOn(answer) => trial.go_on() == *answer,
        Step::Size(rows, live) => trial.size() == (*rows, *live),
        Step::Free(segments, left) => trial.free() == (*segments, *left),
    }
}

/// Which step is the first that answers otherwise.
pub(crate) fn first_wrong(trial: &mut Trial, steps: &[Step<'_>]) -> Option<usize> {
    steps.iter().position(|step| !answers(trial, step))
}

/// Which step is the first that a cache of two rows and two segments answers otherwise.
pub(crate) fn wrong_of_two(alloc: Global, steps: &[Step<'_>]) -> Result<Option<usize>, AllocError> {
    let mut trial = Trial::small(alloc)?;
    let wrong = first_wrong(&mut trial, steps);
    drop(trial);
    Ok(wrong)
}

/// Which step is the first that a cache with room for so many rows and four segments answers otherwise.
pub(crate) fn wrong(
    alloc: Global,
    rows: u32,
    steps: &[Step<'_>],
) -> Result<Option<usize>, AllocError>
    requires { rows < 1000 }
{
    let mut trial = Trial::new(alloc, rows)?;
    let wrong = first_wrong(&mut trial, steps);
    drop(trial);
    Ok(wrong)
}

/// Which step is the first that a cache of eight groups with room for so many rows answers otherwise.
pub(crate) fn wrong_of_tables(
    alloc: Global,
    rows: u32,
    steps: &[Step<'_>],
) -> Result<Option<usize>, AllocError>
    requires { rows < 1000 }
{
    let mut trial = Trial::of_tables(alloc, rows)?;
    let wrong = first_wrong(&mut trial, steps);
    drop(trial);
    Ok(wrong)
}
