// Values in two pieces, values whose bytes are written over, and values that are lent.
use crate::steps::{Step, done};
use embedded_cache::{Patch, Put};
use std::test::Fail;

#[test]
fn a_value_comes_in_two_pieces(rt: HostRuntime) -> Result<(), Fail> {
    const STEPS: &[Step] = &[
        Step::PutsPieces(b"a", b"ab", b"c", 1),
        Step::Has(b"a", b"abc", 1),
        Step::PutsPieces(b"a", b"", b"", 2),
        Step::Has(b"a", b"", 2),
        Step::PutsPieces(b"a", b"", b"de", 3),
        Step::Has(b"a", b"de", 3),
        Step::PutsPieces(b"b", b"fgh", b"", 4),
        Step::Has(b"b", b"fgh", 4),
        Step::Has(b"a", b"de", 3),
        Step::PutsLongPieces(b"c", 5_999, 6_001, 5),
        Step::PutsLongPieces(b"d", 12_000, 0, 6),
        Step::Size(4, 24_192),
    ];
    assert_eq!(rt; done(rt.alloc(), 512, 4_000_000, STEPS)?, STEPS.len());
    Ok(())
}

#[test]
fn bytes_of_a_value_are_written_over_in_place(rt: HostRuntime) -> Result<(), Fail> {
    const STEPS: &[Step] = &[
        Step::Puts(b"a", b"hello", 1, Put::Stored, &[]),
        Step::Patches(b"a", 1, b"ipp", Patch::Patched),
        Step::Has(b"a", b"hippo", 1),
        Step::Patches(b"a", 0, b"HELLO", Patch::Patched),
        Step::Has(b"a", b"HELLO", 1),
        Step::Patches(b"a", 5, b"", Patch::Patched),
        Step::Patches(b"a", 3, b"xyz", Patch::Short),
        Step::Patches(b"a", 6, b"", Patch::Short),
        Step::Patches(b"b", 0, b"", Patch::Missing),
        Step::Has(b"a", b"HELLO", 1),
        Step::Size(1, 48),
    ];
    assert_eq!(rt; done(rt.alloc(), 512, 4_000_000, STEPS)?, STEPS.len());
    Ok(())
}

#[test]
fn a_patch_uses_its_row_and_none_goes_for_it(rt: HostRuntime) -> Result<(), Fail> {
    const STEPS: &[Step] = &[
        Step::Puts(b"a", b"1", 1, Put::Stored, &[]),
        Step::Puts(b"b", b"2", 2, Put::Stored, &[]),
        Step::Patches(b"a", 0, b"3", Patch::Patched),
        Step::Puts(b"c", b"4", 3, Put::Stored, &[2]),
        Step::Patches(b"c", 9, b"5", Patch::Short),
        Step::Puts(b"d", b"6", 4, Put::Stored, &[1]),
    ];
    assert_eq!(rt; done(rt.alloc(), 2, 4_000_000, STEPS)?, STEPS.len());
    Ok(())
}

#[test]
fn a_value_is_lent_behind_a_head(rt: HostRuntime) -> Result<(), Fail> {
    const STEPS: &[Step] = &[
        Step::Puts(b"a", b"abc", 1, Put::Stored, &[]),
        Step::Puts(b"b", b"", 2, Put::Stored, &[]),
        Step::Lends(b"a", Some(b"abc")),
        Step::Lends(b"b", Some(b"")),
        Step::Lends(b"c", None),
        Step::Counts(0, 0, 0),
    ];
    assert_eq!(rt; done(rt.alloc(), 512, 4_000_000, STEPS)?, STEPS.len());
    Ok(())
}

#[test]
fn a_row_that_is_lent_is_the_one_used_last(rt: HostRuntime) -> Result<(), Fail> {
    const STEPS: &[Step] = &[
        Step::Puts(b"a", b"1", 1, Put::Stored, &[]),
        Step::Puts(b"b", b"2", 2, Put::Stored, &[]),
        Step::Lends(b"a", Some(b"1")),
        Step::Puts(b"c", b"3", 3, Put::Stored, &[2]),
    ];
    assert_eq!(rt; done(rt.alloc(), 2, 4_000_000, STEPS)?, STEPS.len());
    Ok(())
}
