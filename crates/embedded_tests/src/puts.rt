// Which rows go for a put, and whose tags are told.
use crate::steps::{Step, done};
use embedded_cache::Put;
use std::test::Fail;

#[test]
fn a_row_is_stored_replaced_and_erased(rt: HostRuntime) -> Result<(), Fail> {
    const STEPS: &[Step] = &[
        Step::Puts(b"a", b"1", 1, Put::Stored, &[]),
        Step::Puts(b"a", b"abc", 2, Put::Replaced, &[]),
        Step::Size(1, 48),
        Step::Has(b"a", b"abc", 2),
        Step::Erases(b"a", true),
        Step::Erases(b"a", false),
        Step::Lacks(b"a"),
        Step::Size(0, 0),
        Step::Counts(0, 2, 1),
    ];
    assert_eq!(rt; done(rt.alloc(), 512, 4_000_000, STEPS)?, STEPS.len());
    Ok(())
}

#[test]
fn a_scan_gives_the_keys_from_its_own_on(rt: HostRuntime) -> Result<(), Fail> {
    const STEPS: &[Step] = &[
        Step::Puts(b"a", b"1", 1, Put::Stored, &[]),
        Step::Puts(b"c", b"3", 2, Put::Stored, &[]),
        Step::Puts(b"b", b"2", 3, Put::Stored, &[]),
        Step::Scans(b"b", 2, b"\x01\0b\x01\0c"),
        Step::Scans(b"d", 4, b""),
    ];
    assert_eq!(rt; done(rt.alloc(), 512, 4_000_000, STEPS)?, STEPS.len());
    Ok(())
}

#[test]
fn a_full_table_loses_the_row_that_was_used_longest_ago(rt: HostRuntime) -> Result<(), Fail> {
    const STEPS: &[Step] = &[
        Step::Puts(b"a", b"1", 1, Put::Stored, &[]),
        Step::Puts(b"b", b"2", 2, Put::Stored, &[]),
        Step::Has(b"a", b"1", 1),
        Step::Puts(b"c", b"3", 3, Put::Stored, &[2]),
        Step::Lacks(b"b"),
        Step::Puts(b"a", b"9", 4, Put::Replaced, &[]),
        Step::Size(2, 96),
        Step::Counts(1, 2, 1),
    ];
    assert_eq!(rt; done(rt.alloc(), 2, 4_000_000, STEPS)?, STEPS.len());
    Ok(())
}

#[test]
fn a_row_that_is_shown_is_used_no_more_than_before(rt: HostRuntime) -> Result<(), Fail> {
    const STEPS: &[Step] = &[
        Step::Puts(b"a", b"1", 1, Put::Stored, &[]),
        Step::Puts(b"b", b"2", 2, Put::Stored, &[]),
        Step::Shows(b"a", b"1", 1),
        Step::Puts(b"c", b"3", 3, Put::Stored, &[1]),
        Step::Counts(1, 0, 0),
    ];
    assert_eq!(rt; done(rt.alloc(), 2, 4_000_000, STEPS)?, STEPS.len());
    Ok(())
}

// Each row is of 48 bytes, and the long one of 12,048.
#[test]
fn rows_go_while_more_bytes_are_live_than_the_bound(rt: HostRuntime) -> Result<(), Fail> {
    const STEPS: &[Step] = &[
        Step::Puts(b"a", b"", 1, Put::Stored, &[]),
        Step::Puts(b"b", b"", 2, Put::Stored, &[]),
        Step::Puts(b"c", b"", 3, Put::Stored, &[]),
        Step::Size(3, 144),
        Step::Puts(b"d", b"", 4, Put::Stored, &[1]),
        Step::PutsLong(b"e", 12_000, 5, &[2]),
        Step::Size(3, 12_144),
        Step::Puts(b"f", b"", 6, Put::Stored, &[3, 4, 5]),
        Step::Size(1, 48),
        Step::Counts(5, 0, 0),
    ];
    assert_eq!(rt; done(rt.alloc(), 512, 100, STEPS)?, STEPS.len());
    Ok(())
}

#[test]
fn none_goes_at_the_bound(rt: HostRuntime) -> Result<(), Fail> {
    const STEPS: &[Step] = &[
        Step::Puts(b"a", b"", 1, Put::Stored, &[]),
        Step::Puts(b"b", b"", 2, Put::Stored, &[]),
        Step::Puts(b"c", b"", 3, Put::Stored, &[]),
        Step::Size(3, 144),
    ];
    assert_eq!(rt; done(rt.alloc(), 512, 96, STEPS)?, STEPS.len());
    Ok(())
}

#[test]
fn a_row_may_go_for_the_one_that_replaces_it(rt: HostRuntime) -> Result<(), Fail> {
    const STEPS: &[Step] = &[
        Step::Puts(b"a", b"", 1, Put::Stored, &[]),
        Step::Puts(b"b", b"", 2, Put::Stored, &[]),
        Step::Puts(b"c", b"", 3, Put::Stored, &[]),
        Step::Puts(b"a", b"", 4, Put::Stored, &[1]),
        Step::Puts(b"a", b"", 5, Put::Replaced, &[2]),
        Step::Size(2, 96),
    ];
    assert_eq!(rt; done(rt.alloc(), 512, 100, STEPS)?, STEPS.len());
    Ok(())
}

#[test]
fn tags_are_told_as_far_as_there_are_places_and_all_are_counted(
    rt: HostRuntime,
) -> Result<(), Fail> {
    const STEPS: &[Step] = &[
        Step::Puts(b"a", b"", 1, Put::Stored, &[]),
        Step::Puts(b"b", b"", 2, Put::Stored, &[]),
        Step::PutsLong(b"c", 12_000, 3, &[]),
        Step::PutsTold(b"d", 4, 1, 3),
        Step::PutsTold(b"e", 5, 0, 0),
        Step::Counts(3, 0, 0),
    ];
    assert_eq!(rt; done(rt.alloc(), 512, 100, STEPS)?, STEPS.len());
    Ok(())
}
