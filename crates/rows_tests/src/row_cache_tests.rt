//! Tests of `row_cache`: rows are stored, read, replaced and go in the order of their use.
mod calls;
mod first_row;
mod guards;
mod links;
mod list;
mod moved;
mod one_tag;
mod scans;
mod sizes;
mod steps;
mod tables;
mod trial;

use row_cache::{Compacted, Put};
use std::test::Fail;
use steps::{Step, wrong_of_two};

#[test]
fn the_least_recent_row_goes(rt: HostRuntime) -> Result<(), Fail> {
    const STEPS: &[Step] = &[
        Step::Put(b"b", b"", 1, Some(Put::Stored)),
        Step::Put(b"a", b"", 2, Some(Put::Stored)),
        Step::Size(2, 96),
        Step::Get(b"b", Some(b"")),
        Step::EvictLast(Some(2)),
        Step::Get(b"a", None),
        Step::Size(1, 48),
        Step::EvictLast(Some(1)),
        Step::EvictLast(None),
        Step::Size(0, 0),
    ];
    assert_eq!(rt; wrong_of_two(rt.alloc(), STEPS)?, None);
    Ok(())
}

#[test]
fn a_put_replaces_and_an_erase_removes(rt: HostRuntime) -> Result<(), Fail> {
    const STEPS: &[Step] = &[
        Step::Put(b"a", b"one", 1, Some(Put::Stored)),
        Step::Put(b"a", b"abc", 2, Some(Put::Replaced)),
        Step::Size(1, 48),
        Step::FindLen(b"a", Some(3)),
        Step::FindLen(b"b", None),
        Step::Get(b"a", Some(b"abc")),
        Step::Erase(b"a", true),
        Step::Erase(b"a", false),
        Step::Size(0, 0),
    ];
    assert_eq!(rt; wrong_of_two(rt.alloc(), STEPS)?, None);
    Ok(())
}

#[test]
fn a_full_cache_takes_another_key_once_a_row_went(rt: HostRuntime) -> Result<(), Fail> {
    const STEPS: &[Step] = &[
        Step::Put(b"a", b"1", 1, Some(Put::Stored)),
        Step::Put(b"b", b"22", 2, Some(Put::Stored)),
        Step::Put(b"c", b"333", 3, None),
        Step::Put(b"a", b"4444", 4, Some(Put::Replaced)),
        Step::Erase(b"b", true),
        Step::Put(b"c", b"333", 5, Some(Put::Stored)),
        Step::EvictLast(Some(4)),
        Step::Size(1, 48),
    ];
    assert_eq!(rt; wrong_of_two(rt.alloc(), STEPS)?, None);
    Ok(())
}

#[test]
fn a_guard_keeps_the_value_of_a_row_that_went(rt: HostRuntime) -> Result<(), Fail> {
    const STEPS: &[Step] = &[
        Step::Put(b"a", b"abc", 1, Some(Put::Stored)),
        Step::Keeps(b"a", b"abc", b"xyz", Some(true)),
        Step::Size(1, 48),
        Step::Get(b"a", Some(b"xyz")),
        Step::Compact(Some(Compacted::Guarded)),
        Step::Unguard,
        Step::Compact(Some(Compacted::NoneSparse)),
    ];
    assert_eq!(rt; wrong_of_two(rt.alloc(), STEPS)?, None);
    Ok(())
}
