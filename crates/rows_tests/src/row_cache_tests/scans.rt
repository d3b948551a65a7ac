// Keys are scanned in the order of their bytes.
use super::steps::{Step, wrong};
use row_cache::Put;
use std::test::Fail;

#[test]
fn a_scan_gives_the_keys_from_its_own_on(rt: HostRuntime) -> Result<(), Fail> {
    const STEPS: &[Step] = &[
        Step::Put(b"a", b"", 1, Some(Put::Stored)),
        Step::Put(b"c", b"", 1, Some(Put::Stored)),
        Step::Put(b"b", b"", 1, Some(Put::Stored)),
        Step::Scan(b"b", 2, 2, b"\x01\0b\x01\0c"),
        Step::Scan(b"d", 5, 0, b""),
        Step::Scan(b"\0", 2, 2, b"\x01\0a\x01\0b"),
    ];
    assert_eq!(rt; wrong(rt.alloc(), 3, STEPS)?, None);
    Ok(())
}

#[test]
fn a_key_stands_before_those_that_go_on(rt: HostRuntime) -> Result<(), Fail> {
    const ALL: &[u8] = b"\x02\0ab\x03\0ab\x7f\x03\0ab\x80\x01\0\xff";
    const STEPS: &[Step] = &[
        Step::Put(b"\xff", b"", 1, Some(Put::Stored)),
        Step::Put(b"ab\x80", b"", 1, Some(Put::Stored)),
        Step::Put(b"ab", b"", 1, Some(Put::Stored)),
        Step::Put(b"ab\x7f", b"", 1, Some(Put::Stored)),
        Step::Scan(b"a", 5, 4, ALL),
        Step::Scan(b"ab\x80", 1, 1, b"\x03\0ab\x80"),
    ];
    assert_eq!(rt; wrong(rt.alloc(), 4, STEPS)?, None);
    Ok(())
}
