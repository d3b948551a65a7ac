//! Devices that fail: a source at each of its calls, and a sink at each of its bytes.
use super::{answer, call, words_of};
use outside::{MemorySink, MemorySource};
use shardcache::Status;
use std::alloc::{AllocError, Global};
use std::sync::Wait;
use std::test::Fail;
use std::thread::Threads;

/// A trace of 16 bytes, and its report of 72.
const TRACE: &[u8] = b"put a abc\nget a\n";

const REPORT: &[u8] =
    b"1 stored\n2 value abc\njournal 0 1 2\nshard 0 rows 1 live 48 lent 0 back 0\n";

/// Whether a run answers so and writes this text, where the source gives one byte a call, and the call of this number fails.
fn reads<R: Threads + Wait + Sync>(
    rt: &R,
    alloc: Global,
    failing: u64,
    wanted: Status,
    text: &[u8],
) -> Result<bool, AllocError> {
    let words = words_of(alloc, &["run"])?;
    let bytes = Vec::from_slice(alloc, TRACE)?;
    let mut source = MemorySource::new(bytes, 1, vec![in alloc; failing]?);
    let mut sink = MemorySink::new(alloc, 4096)?;
    let status = call(rt, alloc, words.as_slice(), &mut source, &mut sink);
    let same = sink.bytes() == text;
    Ok(same && status == wanted)
}

/// The first of the calls that the source has to answer whose failure is not told. There is one for each byte, and one for the end.
fn first_untold<R: Threads + Wait + Sync>(
    rt: &R,
    alloc: Global,
) -> Result<Option<u64>, AllocError> {
    for failing in 1..18u64 {
        if !reads(rt, alloc, failing, Status::ReadFault, b"read fault\n")? {
            return Ok(Some(failing));
        }
    }
    Ok(None)
}

#[test]
fn each_call_of_a_source_may_fail(rt: HostRuntime) -> Result<(), Fail> {
    assert_eq!(rt; first_untold(&rt, rt.alloc())?, None);
    // An 18th call is never made.
    assert!(rt; reads(&rt, rt.alloc(), 18, Status::Done, REPORT)?);
    Ok(())
}

/// Whether a run answers so to a sink of so much room, and the front of the report that fits is held.
fn writes<R: Threads + Wait + Sync>(
    rt: &R,
    alloc: Global,
    room: usize,
    wanted: Status,
) -> Result<bool, AllocError> {
    let (status, text) = answer(rt, alloc, &["run"], TRACE, &[], room)?;
    let same = REPORT.get(..room) == Some(text.as_slice());
    Ok(same && status == wanted)
}

/// The first room that is too small for the report, and of which that is not told.
fn first_unheld<R: Threads + Wait + Sync>(
    rt: &R,
    alloc: Global,
) -> Result<Option<usize>, AllocError> {
    for room in 0..72usize {
        if !writes(rt, alloc, room, Status::WriteFault)? {
            return Ok(Some(room));
        }
    }
    Ok(None)
}

#[test]
fn each_byte_may_be_the_last_that_a_sink_holds(rt: HostRuntime) -> Result<(), Fail> {
    assert_eq!(rt; first_unheld(&rt, rt.alloc())?, None);
    assert!(rt; writes(&rt, rt.alloc(), 72, Status::Done)?);
    Ok(())
}
