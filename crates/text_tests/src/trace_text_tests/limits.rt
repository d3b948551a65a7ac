//! The limits of a trace where it is read alone, so that none of its commands need be run.
use std::alloc::{AllocError, Global};
use std::process::Abort;
use std::test::Fail;
use trace_text::{Cause, MOST_SHARDS, ParseRefusal, parse};

// A put of so many letters, where there are any, so many times a line, and a last one.
fn lines_of(
    alloc: Global,
    letters: usize,
    line: &str,
    times: usize,
    last: &str,
) -> Result<Vec<u8>, AllocError> {
    let mut bytes = Vec::new(alloc);
    if letters > 0 {
        bytes.extend_from_slice(b"put a ")?;
        bytes.extend_from_slice(&b"x".repeat(alloc, letters)?)?;
        bytes.push(b'\n')?;
    }
    bytes.extend_from_slice(&line.as_bytes().repeat(alloc, times)?)?;
    bytes.extend_from_slice(last.as_bytes())?;
    Ok(bytes)
}

// Where these lines are refused for so many shards, and why. None where they are a trace.
fn refused_for(
    rt: &impl Abort,
    alloc: Global,
    bytes: Vec<u8>,
    shards: u32,
) -> Result<Option<(u32, Cause)>, Fail> {
    assert!(rt; bytes.len() <= 67_108_864 && 1 <= shards && shards <= MOST_SHARDS);
    match parse(alloc, bytes, shards) {
        Ok(_) => Ok(None),
        Err(ParseRefusal::Trace { line, cause }) => Ok(Some((line, cause))),
        Err(ParseRefusal::Memory) => Err(Fail::from("no memory is left")),
    }
}

// One command more is refused, whatever stands in its line. A get may be answered by the longest value of the trace, and a scan by
// 8,272 bytes of each shard: all together 536,870,912 bytes.
#[test]
fn a_trace_has_so_many_commands_and_replies(rt: HostRuntime) -> Result<(), Fail> {
    let too_large = Some((0, Cause::RepliesTooLarge));
    for (letters, line, times, last, shards, refused) in [
        (
            0,
            "get a\n",
            1_048_576,
            "fetch a\n",
            1,
            Some((1_048_577, Cause::TooManyCommands)),
        ),
        (12_000, "get a\n", 44_739, "", 1, None),
        (12_000, "get a\n", 44_740, "", 1, too_large),
        (0, "scan a 1\n", 4056, "", 16, None),
        (0, "scan a 1\n", 4057, "", 16, too_large),
    ] {
        let bytes = lines_of(rt.alloc(), letters, line, times, last)?;
        assert_eq!(rt; refused_for(&rt, rt.alloc(), bytes, shards)?, refused);
    }
    Ok(())
}
