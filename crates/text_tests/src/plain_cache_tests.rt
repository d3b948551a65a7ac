//! A plain cache on worked traces.
ghost use Rattle.std.specs.Prelude.{◌≡◌, ℕ, List, []};
ghost use Rattle.rows.specs.Apply.{scanned};
ghost use Rattle.rows.specs.Key.{in_table};
ghost use Rattle.rows.specs.Row.{Row};

use plain_cache::{Plain, ReplyKind};
use std::alloc::{AllocError, Global};
use std::process::Abort;
use std::test::Fail;
use trace_text::{Trace, parse};

/// The trace of these bytes, if it is one.
fn trace_of(alloc: Global, bytes: Vec<u8>) -> Option<Trace> {
    if bytes.len() > 65_536 {
        return None;
    }
    parse(alloc, bytes, 1).ok()
}

/// Does every command of a trace, appends the replies' bodies, and answers the last reply.
fn apply_all(
    alloc: Global,
    plain: &mut Plain,
    bytes: Vec<u8>,
    body: &mut Vec<u8>,
) -> Result<Option<ReplyKind>, AllocError> {
    let mut last = None;
    let Some(trace) = trace_of(alloc, bytes) else {
        return Ok(None);
    };
    for command in trace.commands() {
        if plain.rows() == u32::MAX {
            return Ok(None);
        }
        last = Some(plain.apply(alloc, &trace, command, body)?);
    }
    Ok(last)
}

/// The reply to a line.
fn reply_to(
    alloc: Global,
    plain: &mut Plain,
    line: &[u8],
) -> Result<Option<ReplyKind>, AllocError> {
    let mut body = Vec::new(alloc);
    apply_all(alloc, plain, Vec::from_slice(alloc, line)?, &mut body)
}

/// A put of 12,000 letters x, with this number: before it come gets of a key that is not there.
fn put_long(
    alloc: Global,
    plain: &mut Plain,
    number: u32,
    key: &str,
) -> Result<Option<ReplyKind>, AllocError> {
    let mut bytes = Vec::new(alloc);
    for _ in 1..number {
        bytes.extend_from_slice(b"get z\n")?;
    }
    bytes.extend_from_slice(format!(in alloc; "put {key} ")?.as_bytes())?;
    for _ in 0..12_000 {
        bytes.push(b'x')?;
    }
    apply_all(alloc, plain, bytes, &mut Vec::new(alloc))
}

/// Puts of 12,000 letters under `k001` and so on, with the numbers from 1 to `last`.
fn put_rows(alloc: Global, plain: &mut Plain, last: u32) -> Result<(), AllocError> {
    for number in 1..=last {
        put_long(
            alloc,
            plain,
            number,
            format!(in alloc; "k{number:03}")?.as_str(),
        )?;
    }
    Ok(())
}

#[test]
fn nothing_is_evicted_up_to_the_floor(rt: HostRuntime) -> Result<(), Fail> {
    let mut plain = Plain::new(rt.alloc(), 1280, 1)?;
    reply_to(rt.alloc(), &mut plain, b"put a abc")?;
    assert_eq!(rt; (plain.live(), plain.evict(1)), (48, false));
    let mut plain = Plain::new(rt.alloc(), 1280, 1)?;
    put_rows(rt.alloc(), &mut plain, 59)?;
    assert_eq!(rt; (plain.live(), plain.evict(1)), (710_832, false));
    put_long(rt.alloc(), &mut plain, 60, "k060")?;
    assert_eq!(rt; (plain.live(), plain.evict(2)), (722_880, false));
    assert_eq!(rt; (plain.evict(1), plain.rows()), (true, 59));
    Ok(())
}

#[test]
fn the_oldest_row_goes_first(rt: HostRuntime) -> Result<(), Fail> {
    let mut plain = Plain::new(rt.alloc(), 1280, 1)?;
    put_rows(rt.alloc(), &mut plain, 390)?;
    assert_eq!(rt;
        (plain.live(), plain.evict(2), plain.evict(1)),
        (4_698_720, false, true)
    );
    put_long(rt.alloc(), &mut plain, 391, "k391")?;
    assert_eq!(rt;
        (plain.rows(), plain.live(), plain.evict(2)),
        (390, 4_698_720, true)
    );
    let stored = put_long(rt.alloc(), &mut plain, 392, "k392")?;
    let gone = reply_to(rt.alloc(), &mut plain, b"get k001")?;
    let there = reply_to(rt.alloc(), &mut plain, b"get k003")?;
    assert_eq!(rt;
        [stored, gone, there],
        [
            Some(ReplyKind::Stored),
            Some(ReplyKind::Missing),
            Some(ReplyKind::Value)
        ]
    );
    assert_eq!(rt; (plain.rows(), plain.live()), (390, 4_698_720));
    Ok(())
}

#[test]
fn a_row_that_was_evicted_is_stored_again(rt: HostRuntime) -> Result<(), Fail> {
    let mut plain = Plain::new(rt.alloc(), 1280, 1)?;
    put_rows(rt.alloc(), &mut plain, 390)?;
    assert!(rt; plain.evict(1));
    assert_eq!(rt;
        put_long(rt.alloc(), &mut plain, 391, "k001")?,
        Some(ReplyKind::Stored)
    );
    assert_eq!(rt; plain.rows(), 390);
    for _ in 0..999 {
        let again = put_long(rt.alloc(), &mut plain, 1, "k001")?;
        assert_eq!(rt; again, Some(ReplyKind::Replaced));
    }
    assert_eq!(rt; (plain.rows(), plain.live()), (390, 4_698_720));
    Ok(())
}

/// These lines find these keys in a cache that was empty.
fn expect_keys(rt: &impl Abort, alloc: Global, lines: &[u8], keys: &[u8]) -> Result<(), Fail> {
    let mut plain = Plain::new(alloc, 1280, 1)?;
    let mut body = Vec::new(alloc);
    apply_all(alloc, &mut plain, Vec::from_slice(alloc, lines)?, &mut body)?;
    assert!(rt; body.as_slice() == keys);
    Ok(())
}

#[test]
fn a_scan_gives_the_keys_from_its_own_on(rt: HostRuntime) -> Result<(), Fail> {
    for (lines, keys) in [
        (
            b"put a 1\nput c 3\nput b 2\nscan b 2\n".as_slice(),
            b"\x01\0b\x01\0c".as_slice(),
        ),
        (b"put a 1\nput c 3\nput b 2\nscan d 5\n", b""),
        (
            b"put a 1\nput c 3\nput b 2\nscan a 32\n",
            b"\x01\0a\x01\0b\x01\0c",
        ),
        (b"put a 1\nput c 3\nput b 2\nscan a 1\n", b"\x01\0a"),
        (b"put a 1\nput c 3\nput b 2\nscan bb 32\n", b"\x01\0c"),
        (
            b"put b 1\nput ab 1\nput a 1\nput aa 1\nscan a 32\n",
            b"\x01\0a\x02\0aa\x02\0ab\x01\0b",
        ),
        (
            b"put b 1\nput ab 1\nput a 1\nput aa 1\nscan aa 2\n",
            b"\x02\0aa\x02\0ab",
        ),
        (
            b"put \xff 1\nput z 1\nput \x80 1\nput z\xe9 1\nscan a 32\n",
            b"\x01\0z\x02\0z\xe9\x01\0\x80\x01\0\xff",
        ),
        (
            b"put \xff 1\nput z 1\nput \x80 1\nput z\xe9 1\nscan ~ 1\n",
            b"\x01\0\x80",
        ),
    ] {
        expect_keys(&rt, rt.alloc(), lines, keys)?;
    }
    Ok(())
}

/// A scan of no key, which no line asks for, gives none.
fn no_keys(key: &[u8])
    ensures { (table : ℕ) (rows : List Row) → scanned (in_table table key.now) 0 rows ≡ [] }
{}

#[test]
fn a_scan_of_no_key_gives_none() {
    no_keys(b"a")
}

#[test]
fn a_body_is_appended(rt: HostRuntime) -> Result<(), Fail> {
    let mut plain = Plain::new(rt.alloc(), 1280, 1)?;
    let mut body = Vec::from_slice(rt.alloc(), b"xyz")?;
    let lines = Vec::from_slice(rt.alloc(), b"put b 1\nput a 1\nscan a 32\n")?;
    let last = apply_all(rt.alloc(), &mut plain, lines, &mut body)?;
    assert_eq!(rt; last, Some(ReplyKind::Keys));
    assert!(rt; body.as_slice() == b"xyz\x01\0a\x01\0b".as_slice());
    Ok(())
}

#[test]
fn a_scan_leaves_the_order_of_eviction(rt: HostRuntime) -> Result<(), Fail> {
    let mut plain = Plain::new(rt.alloc(), 1280, 1)?;
    put_rows(rt.alloc(), &mut plain, 60)?;
    reply_to(rt.alloc(), &mut plain, b"get k001\nscan k002 2")?;
    let mut body = Vec::new(rt.alloc());
    let line = Vec::from_slice(rt.alloc(), b"scan k002 2")?;
    apply_all(rt.alloc(), &mut plain, line, &mut body)?;
    assert!(rt; body.as_slice() == b"\x04\0k002\x04\0k003".as_slice());
    assert_eq!(rt; (plain.evict(1), plain.evict(2)), (false, true));
    Ok(())
}

#[test]
fn a_key_is_one_of_its_table(rt: HostRuntime) -> Result<(), Fail> {
    let mut plain = Plain::new(rt.alloc(), 1536, 8)?;
    let mut body = Vec::new(rt.alloc());
    let lines = b"version 2\nput 3 a 1\nput 4 a 2\nput 5 a 3\nput 4 b 4\nget 3 a\nscan 4 a 2\n";
    let lines = Vec::from_slice(rt.alloc(), lines)?;
    let last = apply_all(rt.alloc(), &mut plain, lines, &mut body)?;
    assert_eq!(rt; last, Some(ReplyKind::Keys));
    assert!(rt; body.as_slice() == b"1\x01\0a\x01\0b".as_slice());
    let taken = reply_to(rt.alloc(), &mut plain, b"version 2\nerase 4 a")?;
    let gone = reply_to(rt.alloc(), &mut plain, b"version 2\nget 4 a")?;
    let there = reply_to(rt.alloc(), &mut plain, b"version 2\nget 3 a")?;
    assert_eq!(rt;
        [taken, gone, there],
        [
            Some(ReplyKind::Erased),
            Some(ReplyKind::Missing),
            Some(ReplyKind::Value)
        ]
    );
    assert_eq!(rt; (plain.rows(), plain.live()), (3, 144));
    Ok(())
}

/// A put of 12,000 letters x to a table, with this number: before it come gets of a key that is not there.
fn put_long_in(
    alloc: Global,
    plain: &mut Plain,
    table: u32,
    number: u32,
) -> Result<Option<ReplyKind>, AllocError> {
    let mut bytes = Vec::from_slice(alloc, b"version 2\n")?;
    for _ in 1..number {
        bytes.extend_from_slice(b"get 0 z\n")?;
    }
    bytes.extend_from_slice(format!(in alloc; "put {table} k{number:03} ")?.as_bytes())?;
    for _ in 0..12_000 {
        bytes.push(b'x')?;
    }
    apply_all(alloc, plain, bytes, &mut Vec::new(alloc))
}

// The floor of 1,536 pages with eight regions is 831,432 bytes: of 69 rows none goes, and of 70 the one used longest ago.
#[test]
fn the_oldest_row_of_all_tables_goes_first(rt: HostRuntime) -> Result<(), Fail> {
    let mut plain = Plain::new(rt.alloc(), 1536, 8)?;
    for number in 1..=69 {
        put_long_in(rt.alloc(), &mut plain, 3 + number % 2, number)?;
    }
    assert_eq!(rt; (plain.live(), plain.evict(1)), (831_312, false));
    put_long_in(rt.alloc(), &mut plain, 3, 70)?;
    assert_eq!(rt;
        (plain.live(), plain.evict(2), plain.evict(1)),
        (843_360, false, true)
    );
    assert_eq!(rt; plain.rows(), 69);
    Ok(())
}
