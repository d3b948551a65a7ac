//! Traces whose puts stay until they are flushed, and what is written of them.
ghost use Rattle.dirty_mode.specs.Examples.{TextsAreRight};

use super::steps::key_of;
use dirty_mode::{open_dirty, write_dirty};
use outside::MemorySink;
use std::alloc::{AllocError, Global};
use std::process::Abort;
use std::test::Fail;
use trace_text::parse;

/// What is said of small traces, byte for byte.
fn texts()
    ensures { TextsAreRight }
{}

#[test]
fn texts_are_byte_for_byte() {
    texts()
}

/// Whether of a trace this text is written, or, to a sink of less room, as much of it as has room.
fn writes(
    rt: &impl Abort,
    alloc: Global,
    input: &[u8],
    room: usize,
    text: &[u8],
) -> Result<bool, AllocError> {
    assert!(rt; input.len() <= 10_000_000);
    let Ok(trace) = parse(alloc, Vec::from_slice(alloc, input)?, 1) else {
        return Ok(false);
    };
    let mut sink = MemorySink::new(alloc, room)?;
    let mut store = open_dirty(alloc, &trace, 1280)?;
    let written = write_dirty(&mut store, &trace, &mut sink);
    store.close();
    let front = text.get(..room.min(text.len()));
    Ok(written.is_ok() == (text.len() <= room) && Some(sink.bytes()) == front)
}

#[test]
fn a_get_has_the_newest_put_and_all_puts_go_in_order(rt: HostRuntime) -> Result<(), Fail> {
    let rows: [(&[u8], &[u8]); 4] = [
        (b"", b"dirty 0\n"),
        (
            b"put a 1\nget a\nput a 2\nget a\n",
            b"2 dirty 1\n4 dirty 2\nput a 1\nput a 2\ndirty 2\n",
        ),
        (
            b"get a\nput a \nget a\nget b\n",
            b"1 clean\n3 dirty \n4 clean\nput a \ndirty 1\n",
        ),
        (
            b"put b 1\nerase b\nscan a 5\nget b\n",
            b"2 passed\n3 passed\n4 dirty 1\nput b 1\ndirty 1\n",
        ),
    ];
    for (input, text) in rows {
        // too little room too
        for room in [60usize, 20, 9, 1] {
            assert!(rt; writes(&rt, rt.alloc(), input, room, text)?, "{room}");
        }
    }
    Ok(())
}

fn add_put(lines: &mut Vec<u8>, number: u32, value: &[u8]) -> Result<(), AllocError> {
    lines.extend_from_slice(b"put ")?;
    lines.extend_from_slice(&key_of(number))?;
    lines.extend_from_slice(b" ")?;
    lines.extend_from_slice(value)?;
    lines.extend_from_slice(b"\n")
}

/// The puts of these numbers and then a text, behind what the lines have.
fn add_puts(
    lines: &mut Vec<u8>,
    from: u32,
    to: u32,
    value: &[u8],
    behind: &[u8],
) -> Result<(), AllocError> {
    for number in from..to {
        add_put(lines, number, value)?;
    }
    lines.extend_from_slice(behind)
}

#[test]
fn the_oldest_put_is_flushed_where_another_has_no_room(rt: HostRuntime) -> Result<(), Fail> {
    let value = Vec::from_elem(rt.alloc(), b'X', 12_000)?;
    let mut input = Vec::new(rt.alloc());
    add_puts(&mut input, 1, 376, &value, b"get k001\nget k375\n")?;
    let mut text = Vec::new(rt.alloc());
    add_puts(&mut text, 1, 2, &value, b"376 clean\n377 dirty ")?;
    add_puts(&mut text, 1, 1, &value, &value)?;
    add_puts(&mut text, 1, 1, &value, b"\n")?;
    add_puts(&mut text, 2, 376, &value, b"dirty 375\n")?;
    for room in [5_000_000usize, 4_400_000, 12_300] {
        assert!(rt; writes(&rt, rt.alloc(), &input, room, &text)?, "{room}");
    }
    Ok(())
}
