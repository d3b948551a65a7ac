//! The limits of a trace: of its keys and values, of its commands and their replies, and of its bytes.
use super::evictions::{Part, says_with_few_pages};
use super::{says, written};
use shardcache::Status;
use std::alloc::{AllocError, Global};
use std::sync::Wait;
use std::test::Fail;
use std::thread::Threads;

/// A line `put` with a key and a value of so many letters, and their last bytes.
fn put_line(
    alloc: Global,
    key: usize,
    key_end: u8,
    value: usize,
    value_end: u8,
) -> Result<Vec<u8>, AllocError> {
    let mut line = Vec::from_slice(alloc, b"put ")?;
    for _ in 0..key {
        line.push(b'k')?;
    }
    line.push(key_end)?;
    line.push(b' ')?;
    for _ in 0..value {
        line.push(b'x')?;
    }
    line.push(value_end)?;
    Ok(line)
}

/// Whether a run writes this text.
fn is_written<R: Threads + Wait + Sync>(
    rt: &R,
    alloc: Global,
    input: &[u8],
    want: &str,
) -> Result<bool, AllocError> {
    let text = written(rt, alloc, &["run"], input, 4096)?;
    Ok(text.as_slice() == want.as_bytes())
}

/// The same for such a line.
fn is_written_for<R: Threads + Wait + Sync>(
    rt: &R,
    alloc: Global,
    key: (usize, u8),
    value: (usize, u8),
    want: &str,
) -> Result<bool, AllocError> {
    let line = put_line(alloc, key.0, key.1, value.0, value.1)?;
    is_written(rt, alloc, line.as_slice(), want)
}

#[test]
fn a_key_and_a_value_have_limits(rt: HostRuntime) -> Result<(), Fail> {
    let stored = "1 stored\njournal 0 1\nshard 0 rows 1 live 12296 lent 0 back 0\n";
    for (key, value, want) in [
        ((255, b'k'), (11_999, b'x'), stored),
        ((256, b'k'), (0, b'x'), "refused line 1 KeyLength\n"),
        ((256, 1), (0, b'x'), "refused line 1 KeyLength\n"),
        ((255, 1), (12_000, b'x'), "refused line 1 KeyByte\n"),
        ((255, b'k'), (12_000, b'x'), "refused line 1 ValueLength\n"),
        ((255, b'k'), (12_000, 1), "refused line 1 ValueLength\n"),
        ((255, b'k'), (11_999, 1), "refused line 1 ValueByte\n"),
    ] {
        assert!(rt;
            is_written_for(&rt, rt.alloc(), key, value, want)?,
            "{want}"
        );
    }
    Ok(())
}

/// So many times a line.
pub fn many(alloc: Global, line: &[u8], times: usize) -> Result<Vec<u8>, AllocError> {
    let mut bytes = Vec::with_capacity(alloc, 10_000_000)?;
    for _ in 0..times {
        bytes.extend_from_slice(line)?;
    }
    Ok(bytes)
}

/// Whether the report of so many times a line has this answer to each, byte for byte, and nothing else but the journal and
/// the shard, which has no row.
fn answers_each<R: Threads + Wait + Sync>(
    rt: &R,
    alloc: Global,
    line: &[u8],
    times: u32,
    answer: &str,
) -> Result<bool, AllocError> {
    let lines = many(alloc, line, times as usize)?;
    let report = [
        Part::Answers(1, times, answer),
        Part::Ending(times, "", 0, 0),
    ];
    says_with_few_pages(rt, alloc, "run", &[Part::Text(lines.as_slice())], &report)
}

/// Whether so many times a line is refused so.
fn refuses<R: Threads + Wait + Sync>(
    rt: &R,
    alloc: Global,
    line: &[u8],
    times: usize,
    refusal: &[u8],
) -> Result<bool, AllocError> {
    let lines = many(alloc, line, times)?;
    says(
        rt,
        alloc,
        &["run"],
        lines.as_slice(),
        Status::Refused,
        refusal,
    )
}

#[test]
fn a_trace_has_a_number_of_commands(rt: HostRuntime) -> Result<(), Fail> {
    let refusal = b"refused line 1048577 TooManyCommands\n";
    assert!(rt; answers_each(&rt, rt.alloc(), b"get a\n", 1_048_576, "missing")?);
    assert!(rt; refuses(&rt, rt.alloc(), b"get a\n", 1_048_577, refusal)?);
    Ok(())
}

#[test]
fn replies_have_room(rt: HostRuntime) -> Result<(), Fail> {
    let refusal = b"refused line 0 RepliesTooLarge\n";
    assert!(rt; answers_each(&rt, rt.alloc(), b"scan a 1\n", 64_902, "keys")?);
    assert!(rt; refuses(&rt, rt.alloc(), b"scan a 1\n", 64_903, refusal)?);
    Ok(())
}

fn comment_of(alloc: Global, length: usize) -> Result<Vec<u8>, AllocError> {
    vec![in alloc; b'#'; length]
}

/// Whether the program writes this for a comment of such a length.
fn is_written_at<R: Threads + Wait + Sync>(
    rt: &R,
    alloc: Global,
    length: usize,
    want: &str,
) -> Result<bool, AllocError> {
    let comment = comment_of(alloc, length)?;
    is_written(rt, alloc, comment.as_slice(), want)
}

#[test]
fn a_trace_has_a_length(rt: HostRuntime) -> Result<(), Fail> {
    for (length, want) in [
        (
            67_108_864,
            "journal 0\nshard 0 rows 0 live 0 lent 0 back 0\n",
        ),
        (67_108_865, "refused line 0 TooLong\n"),
    ] {
        assert!(rt; is_written_at(&rt, rt.alloc(), length, want)?, "{length}");
    }
    Ok(())
}
