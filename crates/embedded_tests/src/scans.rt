// Scans with values: a row is its key behind its length in two bytes, its tag in four, the length of its value in two, and its value.
use crate::steps::{Step, done};
use embedded_cache::Put;
use std::test::Fail;

// The longest key, and the least key above it.
const LONGEST: &[u8] = &[b'k'; 256];

const ABOVE: &[u8] =
    b"kkkkkkkkkkkkkkkkkkkkkkkkkkkkkkkkkkkkkkkkkkkkkkkkkkkkkkkkkkkkkkkkkkkkkkkkkkkkkkkkkkkkkkkkkkkkkkkkkkkk\
    kkkkkkkkkkkkkkkkkkkkkkkkkkkkkkkkkkkkkkkkkkkkkkkkkkkkkkkkkkkkkkkkkkkkkkkkkkkkkkkkkkkkkkkkkkkkkkkkkkkk\
    kkkkkkkkkkkkkkkkkkkkkkkkkkkkkkkkkkkkkkkkkkkkkkkkkkkkkkkk\0";

#[test]
fn rows_are_written_in_the_order_of_their_keys(rt: HostRuntime) -> Result<(), Fail> {
    const STEPS: &[Step] = &[
        Step::Puts(b"a", b"1", 1, Put::Stored, &[]),
        Step::Puts(b"c", b"", 2, Put::Stored, &[]),
        Step::Puts(b"b", b"xy", 67_305_985, Put::Stored, &[]),
        Step::ScansRows(
            b"a",
            3,
            100,
            3,
            b"\x01\0a\x01\0\0\0\x01\01\x01\0b\x01\x02\x03\x04\x02\0xy\x01\0c\x02\0\0\0\0\0",
            0,
        ),
        Step::ScansRows(b"", 1, 100, 1, b"\x01\0a\x01\0\0\0\x01\01", 0),
        Step::ScansRows(b"b", 1, 100, 1, b"\x01\0b\x01\x02\x03\x04\x02\0xy", 0),
        Step::ScansRows(b"d", 32, 100, 0, b"", 0),
        Step::Counts(0, 0, 0),
    ];
    assert_eq!(rt; done(rt.alloc(), 512, 4_000_000, STEPS)?, STEPS.len());
    Ok(())
}

// The rows of the next take 10, 9 and 11 bytes.
#[test]
fn a_row_for_which_there_is_no_room_is_not_written_in_part(rt: HostRuntime) -> Result<(), Fail> {
    const STEPS: &[Step] = &[
        Step::Puts(b"a", b"1", 1, Put::Stored, &[]),
        Step::Puts(b"b", b"", 2, Put::Stored, &[]),
        Step::Puts(b"c", b"22", 3, Put::Stored, &[]),
        Step::ScansRows(b"a", 3, 0, 0, b"", 10),
        Step::ScansRows(b"a", 3, 9, 0, b"", 10),
        Step::ScansRows(b"a", 3, 10, 1, b"\x01\0a\x01\0\0\0\x01\01", 9),
        Step::ScansRows(b"a", 1, 10, 1, b"\x01\0a\x01\0\0\0\x01\01", 0),
        Step::ScansLong(b"a", 3, 18, 1, 10, 9),
        Step::ScansLong(b"a", 3, 19, 2, 19, 11),
        Step::ScansLong(b"a", 3, 29, 2, 19, 11),
        Step::ScansLong(b"a", 2, 29, 2, 19, 0),
        Step::ScansLong(b"a", 3, 30, 3, 30, 0),
        Step::ScansLong(b"b", 3, 19, 1, 9, 11),
    ];
    assert_eq!(rt; done(rt.alloc(), 512, 4_000_000, STEPS)?, STEPS.len());
    Ok(())
}

// It goes on behind the key that was written last, whether that one is there still or not.
#[test]
fn a_scan_goes_on_over_changes(rt: HostRuntime) -> Result<(), Fail> {
    const STEPS: &[Step] = &[
        Step::Puts(b"a", b"1", 1, Put::Stored, &[]),
        Step::Puts(b"b", b"2", 2, Put::Stored, &[]),
        Step::Puts(b"d", b"4", 4, Put::Stored, &[]),
        Step::ScansRows(b"", 1, 100, 1, b"\x01\0a\x01\0\0\0\x01\01", 0),
        Step::Erases(b"a", true),
        Step::Puts(b"aa", b"5", 5, Put::Stored, &[]),
        Step::Puts(b"d", b"6", 6, Put::Replaced, &[]),
        Step::ScansRows(b"a\0", 1, 100, 1, b"\x02\0aa\x05\0\0\0\x01\05", 0),
        Step::Erases(b"b", true),
        Step::Puts(b"a\0", b"7", 7, Put::Stored, &[]),
        Step::ScansRows(b"aa\0", 2, 100, 1, b"\x01\0d\x06\0\0\0\x01\06", 0),
        Step::ScansRows(b"d\0", 2, 100, 0, b"", 0),
    ];
    assert_eq!(rt; done(rt.alloc(), 512, 4_000_000, STEPS)?, STEPS.len());
    Ok(())
}

#[test]
fn a_scan_goes_on_behind_the_longest_key(rt: HostRuntime) -> Result<(), Fail> {
    const STEPS: &[Step] = &[
        Step::Puts(LONGEST, b"1", 1, Put::Stored, &[]),
        Step::Puts(b"l", b"2", 2, Put::Stored, &[]),
        Step::ScansLong(LONGEST, 2, 300, 2, 275, 0),
        Step::ScansRows(ABOVE, 2, 300, 1, b"\x01\0l\x02\0\0\0\x01\02", 0),
        Step::Erases(b"l", true),
        Step::ScansRows(ABOVE, 2, 300, 0, b"", 0),
        Step::ScansLong(LONGEST, 2, 300, 1, 265, 0),
    ];
    assert_eq!(rt; done(rt.alloc(), 512, 4_000_000, STEPS)?, STEPS.len());
    Ok(())
}

// A row with the longest value takes 12,009 bytes, and one with the longest key, too, 12,264.
#[test]
fn the_longest_values_are_written_whole(rt: HostRuntime) -> Result<(), Fail> {
    const STEPS: &[Step] = &[
        Step::PutsLong(b"a", 12_000, 1, &[]),
        Step::PutsLong(LONGEST, 12_000, 2, &[]),
        Step::ScansLong(b"a", 1, 12_009, 1, 12_009, 0),
        Step::ScansLong(b"a", 1, 12_008, 0, 0, 12_009),
        Step::ScansLong(b"a", 2, 24_272, 1, 12_009, 12_264),
        Step::ScansLong(b"a", 2, 24_273, 2, 24_273, 0),
        Step::ScansLong(b"b", 2, 12_264, 1, 12_264, 0),
    ];
    assert_eq!(rt; done(rt.alloc(), 512, 4_000_000, STEPS)?, STEPS.len());
    Ok(())
}
