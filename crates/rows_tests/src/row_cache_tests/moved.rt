//! Rows are read as before where compaction moved them.
use super::steps::{Step, first_wrong};
use super::trial::Trial;
use row_cache::{Compacted, Put};
use std::alloc::{AllocError, Global};
use std::test::Fail;

/// A row of the greatest size, each byte of which is this one.
fn put_greatest(alloc: Global, trial: &mut Trial, byte: u8) -> Result<bool, AllocError> {
    let key = Vec::from_elem(alloc, byte, 256)?;
    let value = Vec::from_elem(alloc, byte, 12_000)?;
    Ok(trial.put(&key, &value, u32::from(byte)) == Some(Put::Stored))
}

/// Ten rows of the greatest size, which fill a segment, and whether another one is active then.
pub(crate) fn fill(alloc: Global, trial: &mut Trial, first: u8) -> Result<bool, AllocError> {
    for n in 0..10u8 {
        if !put_greatest(alloc, trial, first.wrapping_add(n))? {
            return Ok(false);
        }
    }
    Ok(trial.go_on())
}

/// Whether the row of a byte stands as it was put, or has gone.
fn stands(alloc: Global, trial: &Trial, byte: u8, went: bool) -> Result<bool, AllocError> {
    let key = Vec::from_elem(alloc, byte, 256)?;
    let value = Vec::from_elem(alloc, byte, 12_000)?;
    let found = trial.value_of(&key);
    Ok(if went {
        found.is_none()
    } else {
        found == Some(value.as_slice())
    })
}

/// Whether the rows of odd bytes below 20 stand, and those of even ones have gone.
fn odd_rows_stand(alloc: Global, trial: &Trial) -> Result<bool, AllocError> {
    for byte in 0..20u8 {
        if !stands(alloc, trial, byte, byte % 2 == 0)? {
            return Ok(false);
        }
    }
    Ok(true)
}

/// Erases the row of the greatest size of this byte.
pub(crate) fn erase_row(alloc: Global, trial: &mut Trial, byte: u8) -> Result<bool, AllocError> {
    let key = Vec::from_elem(alloc, byte, 256)?;
    Ok(trial.erase(&key))
}

fn erase_even(alloc: Global, trial: &mut Trial) -> Result<bool, AllocError> {
    for half in 0..10u8 {
        if !erase_row(alloc, trial, half * 2)? {
            return Ok(false);
        }
    }
    Ok(true)
}

/// Two segments of ten rows each, of which every other one goes.
pub(crate) fn halve(alloc: Global, trial: &mut Trial) -> Result<bool, AllocError> {
    Ok(fill(alloc, trial, 0)? && fill(alloc, trial, 10)? && erase_even(alloc, trial)?)
}

/// Whether the rows that are left stand before and after one of the two segments is freed.
fn stand_moved(alloc: Global, trial: &mut Trial) -> Result<bool, AllocError> {
    const STEPS: &[Step] = &[
        Step::Free(1, 131_072),
        Step::Compact(Some(Compacted::Freed)),
        Step::Free(2, 69_592),
        Step::Size(10, 122_960),
    ];
    let stood = odd_rows_stand(alloc, trial)?;
    let moved = first_wrong(trial, STEPS).is_none();
    Ok(stood && moved && odd_rows_stand(alloc, trial)?)
}

/// Whether rows are read as before where compaction moved them, and the least recent one goes.
fn move_rows(alloc: Global, trial: &mut Trial) -> Result<bool, AllocError> {
    Ok(halve(alloc, trial)? && stand_moved(alloc, trial)? && trial.evict_last() == Some(1))
}

fn moves(alloc: Global) -> Result<bool, AllocError> {
    let mut trial = Trial::new(alloc, 20)?;
    let moved = move_rows(alloc, &mut trial);
    drop(trial);
    moved
}

#[test]
fn compaction_moves_rows_and_each_is_read_as_before(rt: HostRuntime) -> Result<(), Fail> {
    assert!(rt; moves(rt.alloc())?);
    Ok(())
}
