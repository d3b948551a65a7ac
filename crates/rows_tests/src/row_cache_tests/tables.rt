//! Rows of tables: each is found in its own table alone, and stands in its group of segments.
use super::calls::{Both, all_go, key_of, one_call_of};
use super::steps::{Step, wrong_of_tables};
use rand_core::utils::NextWord;
use rand_pcg::Lcg64Xsh32;
use row_cache::{Compacted, Put};
use std::alloc::{AllocError, Global};
use std::test::Fail;

#[test]
fn a_key_in_two_tables_is_two_keys(rt: HostRuntime) -> Result<(), Fail> {
    const STEPS: &[Step] = &[
        Step::Table(3),
        Step::Put(b"a", b"1", 1, None),
        Step::GoOn(true),
        Step::Put(b"a", b"1", 1, Some(Put::Stored)),
        Step::Table(4),
        Step::Get(b"a", None),
        Step::Put(b"a", b"2", 2, None),
        Step::GoOn(true),
        Step::Put(b"a", b"2", 2, Some(Put::Stored)),
        Step::Size(2, 96),
        Step::Table(3),
        Step::Get(b"a", Some(b"1")),
        Step::Scan(b"a", 2, 1, b"\x01\0a"),
        Step::Erase(b"a", true),
        Step::Erase(b"a", false),
        Step::Scan(b"a", 2, 0, b""),
        Step::Table(4),
        Step::Get(b"a", Some(b"2")),
        Step::Size(1, 48),
    ];
    assert_eq!(rt; wrong_of_tables(rt.alloc(), 11, STEPS)?, None);
    Ok(())
}

#[test]
fn the_least_recent_row_of_all_tables_goes(rt: HostRuntime) -> Result<(), Fail> {
    const STEPS: &[Step] = &[
        Step::Table(3),
        Step::GoOn(true),
        Step::Put(b"a", b"", 1, Some(Put::Stored)),
        Step::Table(4),
        Step::GoOn(true),
        Step::Put(b"b", b"", 2, Some(Put::Stored)),
        Step::Put(b"c", b"", 3, Some(Put::Stored)),
        Step::EvictLast(Some(1)),
        Step::Table(3),
        Step::Put(b"d", b"", 4, Some(Put::Stored)),
        Step::EvictLast(Some(2)),
        Step::EvictLast(Some(3)),
        Step::EvictLast(Some(4)),
        Step::EvictLast(None),
    ];
    assert_eq!(rt; wrong_of_tables(rt.alloc(), 11, STEPS)?, None);
    Ok(())
}

#[test]
fn a_guard_of_a_table_keeps_its_rows_while_others_come_and_go(rt: HostRuntime) -> Result<(), Fail> {
    const STEPS: &[Step] = &[
        Step::Table(4),
        Step::GoOn(true),
        Step::Table(3),
        Step::GoOn(true),
        Step::Put(b"a", b"abc", 1, Some(Put::Stored)),
        Step::KeepsBeside(b"a", b"abc", 4, b"b", Some(true)),
        Step::Size(1, 48),
        Step::Compact(Some(Compacted::Guarded)),
        Step::Table(4),
        Step::Compact(Some(Compacted::Guarded)),
        Step::Table(3),
        Step::Unguard,
        Step::Compact(Some(Compacted::Freed)),
        Step::Get(b"a", Some(b"abc")),
    ];
    assert_eq!(rt; wrong_of_tables(rt.alloc(), 11, STEPS)?, None);
    Ok(())
}

/// One call of a table and a key, both drawn at random, and whether both reply alike.
fn one_call(
    alloc: Global,
    both: &mut Both,
    random: &mut Lcg64Xsh32,
    number: u32,
) -> Result<bool, AllocError> {
    let table = (random.next_word() % 8) as u8;
    let draw = random.next_word();
    let key = key_of(alloc, draw / 16 % 40)?;
    if !both.turn_to(table) {
        return Ok(false);
    }
    one_call_of(alloc, both, random, number, draw % 16, &key)
}

/// Which of the calls is the first whose replies are not alike.
fn first_unlike(
    alloc: Global,
    both: &mut Both,
    random: &mut Lcg64Xsh32,
) -> Result<Option<u32>, AllocError> {
    for number in 0..50_000u32 {
        if !one_call(alloc, both, random, number)? {
            return Ok(Some(number));
        }
        if number % 64 == 0 && !both.are_alike() {
            return Ok(Some(number));
        }
    }
    Ok(None)
}

/// The first call whose replies are not alike, and whether all rows go then.
fn replies(alloc: Global) -> Result<(Option<u32>, bool), AllocError> {
    let mut both = Both::of_tables(alloc)?;
    let mut random = Lcg64Xsh32::new(13, 1);
    let unlike = first_unlike(alloc, &mut both, &mut random);
    let all = all_go(&mut both);
    drop(both);
    Ok((unlike?, all))
}

#[test]
fn replies_for_eight_tables_are_those_of_a_list(rt: HostRuntime) -> Result<(), Fail> {
    assert_eq!(rt; replies(rt.alloc())?, (None, true));
    Ok(())
}
