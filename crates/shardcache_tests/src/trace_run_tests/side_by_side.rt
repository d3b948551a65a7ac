//! A run of three shards whose trace is read on threads and whose report is made on threads, beside a text that is made here.
//!
//! The commands of each of three origins go round 40 keys of its own, so what they are answered does not depend on the order
//! of the shards' turns: a put, a get of it, a scan of the keys up to it, and an erase of a key that is never there.
ghost use Rattle.std.specs.Prelude.{◌<◌, ◌≤◌, length};
ghost use Rattle.layout.specs.Sizes.{most_trace_bytes};
ghost use Rattle.trace_text.specs.Parsed.{trace_in};
ghost use Rattle.run_log.specs.Runs.{IsFinished};

use outside::MemorySink;
use plain_cache::Entry;
use report_text::{Texts, write_report_on};
use run_log::ShardLine;
use shard_node::{OpenGates, Ran};
use std::alloc::{AllocError, Global};
use std::sync::Wait;
use std::test::Fail;
use std::thread::Threads;
use trace_run::{Order, run_trace};
use trace_text::{Trace, parse_on};

const SHARDS: u32 = 3;

/// As many pages as a trace of each version runs on.
const PAGES: u32 = 1536;

/// The keys of each origin.
const KEYS: u32 = 40;

/// The commands, so many that their report is made in pieces.
const COMMANDS: u32 = 12_000;

/// A command by its place, from 0 on: its origin, which round of the origin's four commands it is of, and which one of these.
fn parts_of(at: u32) -> (u32, u32, u32) {
    (at % SHARDS, at / SHARDS / 4, at / SHARDS % 4)
}

/// From which key on a scan asks, and how many keys: the last three, or one where fewer were put.
fn scanned(key: u32) -> (u32, u32) {
    if key < 2 { (key, 1) } else { (key - 2, 3) }
}

fn add_line(alloc: Global, lines: &mut Vec<u8>, at: u32) -> Result<(), AllocError> {
    let (origin, round, step) = parts_of(at);
    let key = round % KEYS;
    let (low, count) = scanned(key);
    let line = match step {
        0 => format!(in alloc; "put o{origin}k{key:02} v{round}\n")?,
        1 => format!(in alloc; "get o{origin}k{key:02}\n")?,
        2 => format!(in alloc; "scan o{origin}k{low:02} {count}\n")?,
        _ => format!(in alloc; "erase o{origin}x\n")?,
    };
    lines.extend_from_slice(line.as_bytes())
}

fn lines_of(alloc: Global) -> Result<Vec<u8>, AllocError> {
    let mut lines = Vec::new(alloc);
    for at in 0..COMMANDS {
        add_line(alloc, &mut lines, at)?;
    }
    Ok(lines)
}

/// What a put is answered. In the first forty rounds each key is new.
fn put_answer(round: u32) -> &'static str {
    if round < KEYS { "stored" } else { "replaced" }
}

fn add_keys(alloc: Global, text: &mut Vec<u8>, origin: u32, key: u32) -> Result<(), AllocError> {
    let (low, count) = scanned(key);
    text.extend_from_slice(b"keys")?;
    for found in low..low.wrapping_add(count) {
        text.extend_from_slice(format!(in alloc; " o{origin}k{found:02}")?.as_bytes())?;
    }
    Ok(())
}

/// The answer to a command, by its place.
fn add_answer(alloc: Global, text: &mut Vec<u8>, at: u32) -> Result<(), AllocError> {
    let (origin, round, step) = parts_of(at);
    let number = at.wrapping_add(1);
    text.extend_from_slice(format!(in alloc; "{number} ")?.as_bytes())?;
    match step {
        0 => text.extend_from_slice(put_answer(round).as_bytes())?,
        1 => text.extend_from_slice(format!(in alloc; "value v{round}")?.as_bytes())?,
        2 => add_keys(alloc, text, origin, round % KEYS)?,
        _ => text.extend_from_slice(b"missing")?,
    }
    text.extend_from_slice(b"\n")
}

/// What a shard did.
fn add_journal(
    alloc: Global,
    text: &mut Vec<u8>,
    shard: usize,
    entries: &[Entry],
) -> Result<(), AllocError> {
    text.extend_from_slice(format!(in alloc; "journal {shard}")?.as_bytes())?;
    for entry in entries {
        let entry = match entry {
            Entry::Done(number) => format!(in alloc; " {number}")?,
            Entry::Evicted(put) => format!(in alloc; " !{put}")?,
        };
        text.extend_from_slice(entry.as_bytes())?;
    }
    text.extend_from_slice(b"\n")
}

/// What a shard holds at the end.
fn add_shard(
    alloc: Global,
    text: &mut Vec<u8>,
    shard: usize,
    line: &ShardLine,
) -> Result<(), AllocError> {
    let (rows, live, lent, back) = (line.rows, line.live, line.lent, line.back);
    let line = format!(in alloc;
        "shard {shard} rows {rows} live {live} lent {lent} back {back}\n"
    )?;
    text.extend_from_slice(line.as_bytes())
}

/// The report of the commands: their answers, and the journals and the lines of this run.
fn text_of(alloc: Global, ran: &Ran) -> Result<Vec<u8>, AllocError> {
    let mut text = Vec::new(alloc);
    for at in 0..COMMANDS {
        add_answer(alloc, &mut text, at)?;
    }
    for (shard, journal) in ran.journals().iter().enumerate() {
        add_journal(alloc, &mut text, shard, journal.entries())?;
    }
    for (shard, line) in ran.lines().iter().enumerate() {
        add_shard(alloc, &mut text, shard, line)?;
    }
    Ok(text)
}

/// Whether the report of a run, whose pieces are made on so many threads, is this text.
fn writes_on<R: Threads + Wait + Sync>(
    rt: &R,
    alloc: Global,
    threads: usize,
    trace: &Trace,
    ran: &Ran,
    text: &[u8],
) -> Result<bool, AllocError>
    requires threads { 0 < threads }
    requires run { IsFinished (trace_in trace.now) trace.now.shards 1536 ran.now }
{
    let mut texts = Texts::new(alloc, threads, trace)?;
    let mut sink = MemorySink::new(alloc, text.len().saturating_add(1))?;
    let written = write_report_on(
        rt,
        &mut texts,
        threads,
        &mut sink,
        trace,
        ran.logs(),
        ran.journals(),
        ran.lines(),
    );
    Ok(written.is_ok() && sink.bytes() == text)
}

/// Whether the report of these lines is right where they are read and it is made on so many threads.
fn is_reported<R: Threads + Wait + Sync>(
    rt: &R,
    alloc: Global,
    threads: usize,
    lines: &[u8],
) -> Result<bool, Fail>
    requires threads { 0 < threads }
    requires short { length lines.now ≤ most_trace_bytes }
{
    let bytes = Vec::from_slice(alloc, lines)?;
    let trace = parse_on(rt, alloc, threads, bytes, SHARDS)?;
    let order = Order::Numbered(7);
    let ran = run_trace(rt, alloc, &trace, PAGES, order, &OpenGates)?;
    let text = text_of(alloc, &ran)?;
    Ok(writes_on(rt, alloc, threads, &trace, &ran, &text)?)
}

#[test]
fn three_shards_are_read_and_reported_on_threads(rt: HostRuntime) -> Result<(), Fail> {
    let made = lines_of(rt.alloc())?;
    let lines = made.as_slice();
    assert!(rt; lines.len() <= 1_000_000);
    let met = [
        is_reported(&rt, rt.alloc(), 1, lines)?,
        is_reported(&rt, rt.alloc(), 2, lines)?,
        is_reported(&rt, rt.alloc(), 3, lines)?,
        is_reported(&rt, rt.alloc(), 5, lines)?,
    ];
    assert_eq!(rt; met, [true; 4]);
    Ok(())
}
