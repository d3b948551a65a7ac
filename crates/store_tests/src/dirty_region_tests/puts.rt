//! Puts, the newest of a key, and refusals.
use super::steps::{Step, played};
use super::trial::Answer;
use std::test::Fail;

#[test]
fn the_newest_put_of_a_key_is_found_and_all_go_in_order(rt: HostRuntime) -> Result<(), Fail> {
    let steps = [
        Step::Newest(b"a", None),
        Step::Put(b"a", b"1", 1, Answer::Taken),
        Step::Newest(b"a", Some(b"1")),
        Step::Put(b"b", b"", 2, Answer::Taken),
        Step::Put(b"a", b"2", 3, Answer::Taken),
        Step::Newest(b"a", Some(b"2")),
        Step::Newest(b"b", Some(b"")),
        Step::Size(3, 144),
        Step::Put(b"c", b"3", 4, Answer::TooMany),
        Step::Put(b"", b"3", 4, Answer::NoPut),
        Step::Sink(100),
        Step::Flush(Ok(Some(1))),
        Step::Newest(b"a", Some(b"2")),
        Step::Flush(Ok(Some(2))),
        Step::Newest(b"b", None),
        Step::Flush(Ok(Some(3))),
        Step::Newest(b"a", None),
        Step::Flush(Ok(None)),
        Step::Wrote(b"put a 1\nput b \nput a 2\n"),
        Step::Size(0, 0),
    ];
    assert_eq!(rt; played(rt.alloc(), 3, 3, &steps)?, (None, 3));
    Ok(())
}

#[test]
fn so_many_of_the_greatest_puts_have_room(rt: HostRuntime) -> Result<(), Fail> {
    let steps = [
        Step::Puts(1, 375, 12_000, Answer::Taken),
        Step::Size(374, 4_505_952),
        Step::Puts(375, 376, 12_000, Answer::NoRoom),
        // what fits exactly has room, and a byte more has none: the size goes by eight
        Step::Puts(375, 376, 7492, Answer::Taken),
        Step::Puts(376, 377, 0, Answer::NoRoom),
        Step::Size(375, 4_513_488),
        Step::Flushes(1, 375, 12_010),
        Step::Flushes(375, 376, 7502),
        Step::Size(0, 0),
    ];
    assert_eq!(rt; played(rt.alloc(), 1000, 40, &steps)?, (None, 40));
    Ok(())
}

#[test]
fn a_flushed_put_leaves_room_for_another(rt: HostRuntime) -> Result<(), Fail> {
    let steps = [
        Step::Puts(1, 375, 12_000, Answer::Taken),
        // each goes once the oldest one is out, five times over
        Step::Rounds(375, 2000, 12_000, 374),
        Step::Size(374, 4_505_952),
    ];
    assert_eq!(rt; played(rt.alloc(), 1000, 40, &steps)?, (None, 40));
    Ok(())
}
