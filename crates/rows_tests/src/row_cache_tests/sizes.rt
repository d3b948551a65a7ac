//! Rows of each size, and keys of each length.
use super::steps::{Step, first_wrong};
use super::trial::Trial;
use row_cache::Put;
use std::alloc::{AllocError, Global};
use std::test::Fail;

/// Whether rows of the least and of the greatest size are put, and no other. There are 12,001 bytes.
fn sizes_hold<'a>(trial: &mut Trial, bytes: &'a [u8]) -> Option<bool> {
    let key: &'a [u8] = bytes.get(..256)?;
    let long: &'a [u8] = bytes.get(..257)?;
    let value: &'a [u8] = bytes.get(..12_000)?;
    let steps: [Step<'a>; 10] = [
        Step::Put(b"a", b"", 1, Some(Put::Stored)),
        Step::Size(1, 48),
        Step::Free(1, 131_024),
        Step::Put(key, value, 2, Some(Put::Stored)),
        Step::Size(2, 12_344),
        Step::Free(1, 118_728),
        Step::Get(key, Some(value)),
        Step::Put(b"", b"", 3, None),
        Step::Put(long, b"", 4, None),
        Step::Put(b"a", bytes, 5, None),
    ];
    Some(first_wrong(trial, &steps).is_none())
}

fn sizes_hold_in_two(alloc: Global) -> Result<Option<bool>, AllocError> {
    let bytes = Vec::from_elem(alloc, 200u8, 12_001)?;
    let mut trial = Trial::small(alloc)?;
    let hold = sizes_hold(&mut trial, &bytes);
    drop(trial);
    Ok(hold)
}

#[test]
fn rows_of_the_least_and_of_the_greatest_size(rt: HostRuntime) -> Result<(), Fail> {
    assert_eq!(rt; sizes_hold_in_two(rt.alloc())?, Some(true));
    Ok(())
}

/// How many fronts of a key are stored, each with itself as its value.
fn put_fronts(trial: &mut Trial, key: &[u8]) -> u32 {
    let mut stored = 0u32;
    for n in 0..key.len() {
        let front = &key[..n + 1];
        if trial.put(front, front, 7) == Some(Put::Stored) {
            stored = stored.wrapping_add(1);
        }
    }
    stored
}

/// How many fronts of a key have themselves as their value.
fn count_fronts(trial: &Trial, key: &[u8]) -> u32 {
    let mut count = 0u32;
    for n in 0..key.len() {
        let front = &key[..n + 1];
        if trial.value_of(front) == Some(front) {
            count = count.wrapping_add(1);
        }
    }
    count
}

/// Whether two of the fronts of a key, which fill the cache, are erased, and no other.
fn two_go(trial: &mut Trial, key: &[u8]) -> bool {
    const STEPS: &[Step] = &[
        Step::Size(256, 76_800),
        Step::Put(&[255], b"", 8, Some(Put::Replaced)),
        Step::Put(&[254], b"", 9, None),
        Step::Erase(&[255], true),
        Step::Erase(&[255, 255], true),
    ];
    first_wrong(trial, STEPS).is_none() && count_fronts(trial, key) == 254
}

/// How many fronts of the longest key are stored, how many have their values, and whether two of them go.
fn fronts(alloc: Global) -> Result<(u32, u32, bool), AllocError> {
    let key = Vec::from_elem(alloc, 255u8, 256)?;
    let mut trial = Trial::new(alloc, 256)?;
    let stored = put_fronts(&mut trial, &key);
    let found = count_fronts(&trial, &key);
    let two = two_go(&mut trial, &key);
    drop(trial);
    Ok((stored, found, two))
}

#[test]
fn keys_of_each_length_of_which_one_begins_the_next(rt: HostRuntime) -> Result<(), Fail> {
    assert_eq!(rt; fronts(rt.alloc())?, (256, 256, true));
    Ok(())
}
