// Rows of several tables on one shard.
use super::steps::{Step, done, done_in_tables};
use cache_model::Entry;
use shard_store::Put;
use std::test::Fail;

// The same bytes in two tables are two keys.
const APART: &[Step] = &[
    Step::In(3),
    Step::Puts(b"a", b"1", 1, Put::Stored),
    Step::Puts(b"b", b"2", 2, Put::Stored),
    Step::In(4),
    Step::Has(b"a", None),
    Step::Puts(b"a", b"3", 3, Put::Stored),
    Step::Puts(b"c", b"4", 4, Put::Stored),
    Step::Puts(b"a", b"55", 5, Put::Replaced),
    Step::Scans(b"a", 4, b"\x01\0a\x01\0c"),
    Step::LendsValue(b"b", None, 16),
    Step::LendsValue(b"a", Some(b"55"), 18),
    Step::Erases(b"b", false),
    Step::In(3),
    Step::Scans(b"a", 4, b"\x01\0a\x01\0b"),
    Step::Has(b"a", Some(b"1")),
    Step::Erases(b"a", true),
    Step::Scans(b"a", 4, b"\x01\0b"),
    Step::In(7),
    Step::Scans(b"a", 4, b""),
    Step::In(4),
    Step::Has(b"a", Some(b"55")),
    Step::Size(3, 144),
];

#[test]
fn rows_of_two_tables_are_apart(rt: HostRuntime) -> Result<(), Fail> {
    assert_eq!(rt; done_in_tables(rt.alloc(), APART)?, APART.len());
    assert_eq!(rt; done(rt.alloc(), APART)?, APART.len());
    Ok(())
}

// Worked by hand: of 48 segments one is active in group 0, where no row is, one is free, and 46 hold ten rows each.
#[test]
fn group_0_keeps_its_segment_though_its_table_is_empty(rt: HostRuntime) -> Result<(), Fail> {
    const STEPS: &[Step] = &[
        Step::In(3),
        Step::PutsLarge(1, 461, 460),
        Step::Told(&[]),
        Step::PutsLarge(461, 462, 1),
        Step::Told(&[Entry::Evicted(1)]),
        Step::Size(460, 5_542_080),
    ];
    assert_eq!(rt; done_in_tables(rt.alloc(), STEPS)?, STEPS.len());
    Ok(())
}

// Worked by hand: 1 segment of table 3 and 45 of table 4 hold ten rows each, and a row more of table 4 is put. The rows that were used
// longest ago are the ten of table 3. Their segment is the active one of its group, so none is free besides once they went. Then row 11
// goes: the nine beside it are moved into the segment that is free, where the new one has room too.
#[test]
fn the_oldest_row_of_all_tables_goes(rt: HostRuntime) -> Result<(), Fail> {
    const STEPS: &[Step] = &[
        Step::In(3),
        Step::PutsLarge(1, 11, 10),
        Step::In(4),
        Step::PutsLarge(11, 451, 440),
        Step::Told(&[]),
        Step::PutsLarge(451, 462, 11),
        Step::Told(&[
            Entry::Evicted(1),
            Entry::Evicted(2),
            Entry::Evicted(3),
            Entry::Evicted(4),
            Entry::Evicted(5),
            Entry::Evicted(6),
            Entry::Evicted(7),
            Entry::Evicted(8),
            Entry::Evicted(9),
            Entry::Evicted(10),
            Entry::Evicted(11),
        ]),
        Step::Size(450, 5_421_600),
        Step::In(3),
        Step::Has(b"\0\0\0\x0a", None),
    ];
    assert_eq!(rt; done_in_tables(rt.alloc(), STEPS)?, STEPS.len());
    Ok(())
}
