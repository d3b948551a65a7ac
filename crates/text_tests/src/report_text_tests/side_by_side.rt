//! A report whose pieces are made on threads.
use super::written::{Run, writes_on};
use super::{journal_of, log_of, trace_of};
use cache_model::{Entry, ReplyKind};
use report_text::{ShardLine, Texts};
use std::alloc::{AllocError, Global};
use std::process::Abort;
use std::test::Fail;
use std::thread::Threads;

/// So many gets, each of which finds nothing.
const GETS: u32 = 20_000;

/// So many gets of a value, behind its put.
const VALUES: u32 = 5_000;

/// A thousand lines of it have no room where a thousand lines `missing` have.
const VALUE: &str = "0123456789-123456789-123456789-123456789-123456789-123456789-123456789-";

/// Adds the answers to the commands with these numbers, all alike.
fn add_answers(
    alloc: Global,
    text: &mut Vec<u8>,
    from: u32,
    to: u32,
    answer: &str,
) -> Result<(), AllocError> {
    for number in from..=to {
        let line = format!(in alloc; "{number} {answer}\n")?;
        text.extend_from_slice(line.as_bytes())?;
    }
    Ok(())
}

/// Adds the journal of [`GETS`] parts and the line of a shard that holds nothing.
fn add_end(alloc: Global, text: &mut Vec<u8>) -> Result<(), AllocError> {
    text.extend_from_slice(b"journal 0")?;
    for number in 1..=GETS {
        let entry = format!(in alloc; " {number}")?;
        text.extend_from_slice(entry.as_bytes())?;
    }
    text.extend_from_slice(b"\nshard 0 rows 0 live 0 lent 0 back 0\n")
}

/// The report of the gets that find nothing.
fn text_of_gets(alloc: Global) -> Result<Vec<u8>, AllocError> {
    let mut text = Vec::new(alloc);
    add_answers(alloc, &mut text, 1, GETS, "missing")?;
    add_end(alloc, &mut text)?;
    Ok(text)
}

/// The report of the gets that find a value.
fn text_of_values(alloc: Global) -> Result<Vec<u8>, AllocError> {
    let answer = format!(in alloc; "value {VALUE}")?;
    let mut text = Vec::from_slice(alloc, b"1 stored\n")?;
    add_answers(alloc, &mut text, 2, VALUES + 1, &answer)?;
    add_end(alloc, &mut text)?;
    Ok(text)
}

/// [`GETS`] parts that are done, in order.
fn entries_of_gets(alloc: Global) -> Result<Vec<Entry>, AllocError> {
    let mut entries = Vec::new(alloc);
    for number in 1..=GETS {
        entries.push(Entry::Done(number))?;
    }
    Ok(entries)
}

/// The gets that find nothing, and the replies to them.
fn gets(alloc: Global) -> Result<(Vec<u8>, Vec<(ReplyKind, &'static [u8])>), AllocError> {
    let missing: (ReplyKind, &[u8]) = (ReplyKind::Missing, b"");
    let input = b"get a\n".repeat(alloc, GETS as usize)?;
    Ok((input, vec![in alloc; missing; GETS as usize]?))
}

/// A put of a value and the gets that find it, and the replies to them.
fn values(alloc: Global) -> Result<(Vec<u8>, Vec<(ReplyKind, &'static [u8])>), AllocError> {
    let stored: (ReplyKind, &[u8]) = (ReplyKind::Stored, b"");
    let found: (ReplyKind, &[u8]) = (ReplyKind::Value, VALUE.as_bytes());
    let mut input = Vec::from_slice(alloc, b"put a ")?;
    input.extend_from_slice(VALUE.as_bytes())?;
    input.push(b'\n')?;
    input.extend_from_slice(&b"get a\n".repeat(alloc, VALUES as usize)?)?;
    let mut replies = vec![in alloc; found; VALUES as usize + 1]?;
    replies[0] = stored;
    Ok((input, replies))
}

/// Texts for the report of these commands on one shard, made on five threads.
fn texts_for(rt: &impl Abort, alloc: Global, input: &[u8]) -> Result<Texts, Fail> {
    let trace = trace_of(rt, alloc, input)?;
    Ok(Texts::new(alloc, 5, &trace)?)
}

/// Whether the report of these commands on one shard, with these replies and [`GETS`] parts done, is this text where it is made in
/// these texts, on one, two, three and five threads.
fn are_reports<R: Threads + Sync + Abort>(
    rt: &R,
    alloc: Global,
    texts: &mut Texts,
    input: &[u8],
    replies: &[(ReplyKind, &[u8])],
    text: &[u8],
) -> Result<[bool; 4], Fail> {
    let trace = trace_of(rt, alloc, input)?;
    let logs = [log_of(rt, alloc, &trace, replies)?];
    let journals = [journal_of(alloc, &entries_of_gets(alloc)?)?];
    let line = ShardLine {
        rows: 0,
        live: 0,
        lent: 0,
        back: 0,
    };
    let run = Run {
        trace: &trace,
        shards: 1,
        logs: &logs,
        journals: &journals,
        lines: &[line],
    };
    Ok([
        writes_on(rt, alloc, texts, 1, &run, text)?,
        writes_on(rt, alloc, texts, 2, &run, text)?,
        writes_on(rt, alloc, texts, 3, &run, text)?,
        writes_on(rt, alloc, texts, 5, &run, text)?,
    ])
}

#[test]
fn a_report_that_is_made_in_pieces_has_all_of_them_in_order(rt: HostRuntime) -> Result<(), Fail> {
    let (input, replies) = gets(rt.alloc())?;
    let text = text_of_gets(rt.alloc())?;
    let mut texts = texts_for(&rt, rt.alloc(), &input)?;
    let met = are_reports(&rt, rt.alloc(), &mut texts, &input, &replies, &text)?;
    assert_eq!(rt; met, [true; 4]);
    Ok(())
}

/// The same of the gets that find a value, and then of those that find nothing, both made in these texts.
fn both_are_reports<R: Threads + Sync + Abort>(
    rt: &R,
    alloc: Global,
    texts: &mut Texts,
) -> Result<([bool; 4], [bool; 4]), Fail> {
    let (long, found) = values(alloc)?;
    let (short, found_none) = gets(alloc)?;
    let (long_text, short_text) = (text_of_values(alloc)?, text_of_gets(alloc)?);
    let first = are_reports(rt, alloc, texts, &long, &found, &long_text)?;
    let second = are_reports(rt, alloc, texts, &short, &found_none, &short_text)?;
    Ok((first, second))
}

#[test]
fn lines_without_room_in_a_piece_are_written_all_the_same(rt: HostRuntime) -> Result<(), Fail> {
    let (short, _) = gets(rt.alloc())?;
    let mut texts = texts_for(&rt, rt.alloc(), &short)?;
    let met = both_are_reports(&rt, rt.alloc(), &mut texts)?;
    assert_eq!(rt; met, ([true; 4], [true; 4]));
    Ok(())
}

/// For so few commands as have the long lines there are no texts.
#[test]
fn without_texts_all_lines_are_written(rt: HostRuntime) -> Result<(), Fail> {
    let (long, _) = values(rt.alloc())?;
    let mut texts = texts_for(&rt, rt.alloc(), &long)?;
    let met = both_are_reports(&rt, rt.alloc(), &mut texts)?;
    assert_eq!(rt; met, ([true; 4], [true; 4]));
    Ok(())
}
