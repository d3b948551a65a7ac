//! The program on worked traces and words.
mod audits;
mod evictions;
mod examples;
mod faults;
mod gates;
mod limits;
mod long_values;
mod printed;
mod shards;
mod stores;
mod summaries;
mod tables;

use outside::{MemorySink, MemorySource};
use shard_node::Gates;
use shardcache::{Outcome, Status, shardcache, shardcache_gated};
use std::alloc::{AllocError, Global};
use std::sync::Wait;
use std::test::Fail;
use std::thread::Threads;

/// What the program answers and writes to a sink of so much room.
fn answer<R: Threads + Wait + Sync>(
    rt: &R,
    alloc: Global,
    words: &[&str],
    input: &[u8],
    failing: &[u64],
    room: usize,
) -> Result<(Status, Vec<u8>), AllocError> {
    let texts = words_of(alloc, words)?;
    let mut source = source_of(alloc, input, failing)?;
    let mut sink = MemorySink::new(alloc, room)?;
    let status = call(rt, alloc, texts.as_slice(), &mut source, &mut sink);
    Ok((status, Vec::from_slice(alloc, sink.bytes())?))
}

/// The same with gates of one's own.
fn answer_through<R: Threads + Wait + Sync, G: Gates>(
    rt: &R,
    alloc: Global,
    words: &[&str],
    input: &[u8],
    failing: &[u64],
    room: usize,
    gates: &G,
) -> Result<(Status, Vec<u8>), AllocError> {
    let texts = words_of(alloc, words)?;
    let mut source = source_of(alloc, input, failing)?;
    let mut sink = MemorySink::new(alloc, room)?;
    let status = call_gated(rt, alloc, texts.as_slice(), &mut source, &mut sink, gates);
    Ok((status, Vec::from_slice(alloc, sink.bytes())?))
}

/// The call alone.
fn call<R: Threads + Wait + Sync>(
    rt: &R,
    alloc: Global,
    words: &[String],
    source: &mut MemorySource,
    sink: &mut MemorySink,
) -> Status {
    let Outcome { status, ran: _ } = shardcache(rt, alloc, words, source, sink);
    status
}

/// The call with gates of one's own, alone.
fn call_gated<R: Threads + Wait + Sync, G: Gates>(
    rt: &R,
    alloc: Global,
    words: &[String],
    source: &mut MemorySource,
    sink: &mut MemorySink,
    gates: &G,
) -> Status {
    let Outcome { status, ran: _ } = shardcache_gated(rt, alloc, words, source, sink, gates);
    status
}

fn words_of(alloc: Global, words: &[&str]) -> Result<Vec<String>, AllocError> {
    let mut texts = Vec::new(alloc);
    for word in words {
        texts.push(String::from_str(alloc, word)?)?;
    }
    Ok(texts)
}

fn source_of(alloc: Global, input: &[u8], failing: &[u64]) -> Result<MemorySource, AllocError> {
    let failing = Vec::from_slice(alloc, failing)?;
    let bytes = Vec::from_slice(alloc, input)?;
    Ok(MemorySource::new(bytes, 65_536, failing))
}

/// What the program writes for these words, whatever it answers, to a sink of so much room.
fn written<R: Threads + Wait + Sync>(
    rt: &R,
    alloc: Global,
    words: &[&str],
    input: &[u8],
    room: usize,
) -> Result<Vec<u8>, AllocError> {
    let (_, text) = answer(rt, alloc, words, input, &[], room)?;
    Ok(text)
}

/// Whether the program answers so, and writes this text, to a sink of 4,096 bytes.
fn says<R: Threads + Wait + Sync>(
    rt: &R,
    alloc: Global,
    words: &[&str],
    input: &[u8],
    wanted: Status,
    text: &[u8],
) -> Result<bool, AllocError> {
    let (status, written) = answer(rt, alloc, words, input, &[], 4096)?;
    let same = written.as_slice() == text;
    Ok(same && status == wanted)
}

/// The first of these inputs of which the program does not answer so and write the text beside it, with these words.
fn first_unlike<'a, R: Threads + Wait + Sync>(
    rt: &R,
    alloc: Global,
    words: &[&str],
    wanted: Status,
    rows: &[(&'a [u8], &[u8])],
) -> Result<Option<&'a [u8]>, AllocError> {
    for (input, text) in rows {
        if !says(rt, alloc, words, input, wanted, text)? {
            return Ok(Some(*input));
        }
    }
    Ok(None)
}

/// Whether the program is done with this input.
fn is_done<R: Threads + Wait + Sync>(
    rt: &R,
    alloc: Global,
    words: &[&str],
    input: &[u8],
) -> Result<bool, AllocError> {
    let (status, _) = answer(rt, alloc, words, input, &[], 4096)?;
    Ok(status == Status::Done)
}

/// The first of these words with which the program is not done, with the input beside them.
fn first_not_done<R: Threads + Wait + Sync>(
    rt: &R,
    alloc: Global,
    rows: &[(&[&str], &[u8])],
) -> Result<Option<usize>, AllocError> {
    for (index, row) in rows.iter().enumerate() {
        let (words, input) = *row;
        if !is_done(rt, alloc, words, input)? {
            return Ok(Some(index));
        }
    }
    Ok(None)
}

/// Each mode ends where memory is there: no clause says when it runs out.
#[test]
fn always_out_of_memory_would_not_do(rt: HostRuntime) -> Result<(), Fail> {
    const ROWS: &[(&[&str], &[u8])] = &[
        (&["run"], b"put a 1\nget a\n"),
        (&["run", "--shards", "4"], b"put a 1\nget a\nscan a 3\n"),
        (&["sim", "--shards", "2", "--number", "7"], b"put a 1\n"),
        (&["gen", "--number", "7", "--commands", "10"], b""),
        (&["audit"], b"0\n"),
        (&["dirty"], b"put a 1\nget a\n"),
        (&["index"], b"put a 1\nget a\n"),
        (&["values"], b"set 1 a\nread 1 0 1\n"),
    ];
    assert_eq!(rt; first_not_done(&rt, rt.alloc(), ROWS)?, None);
    Ok(())
}

#[test]
fn a_trace_is_run_and_reported(rt: HostRuntime) -> Result<(), Fail> {
    let empty = b"journal 0\nshard 0 rows 0 live 0 lent 0 back 0\n".as_slice();
    let stored_and_read =
        b"1 stored\n2 value abc\njournal 0 1 2\nshard 0 rows 1 live 48 lent 0 back 0\n".as_slice();
    let rows: [(&[u8], &[u8]); 12] = [
        (b"", empty),
        (b"# a\n#\n# b", empty),
        (b"\r\n\n\r", empty),
        (b"put a abc\nget a\n", stored_and_read),
        (b"put a abc\nget a", stored_and_read),
        (b"# t\r\n\r\nput a abc\r\nget a", stored_and_read),
        (
            b"put a \nget a\n",
            b"1 stored\n2 value \njournal 0 1 2\nshard 0 rows 1 live 48 lent 0 back 0\n",
        ),
        (
            b"put a 1\nput a 2\nget a\nerase a\nerase a\nget a\n",
            b"1 stored\n2 replaced\n3 value 2\n4 erased\n5 missing\n6 missing\njournal 0 1 2 3 4 5 6\n\
            shard 0 rows 0 live 0 lent 0 back 0\n",
        ),
        (
            b"put user:42 {\"name\":\"Ada Byron\",\"tier\":2}\nget user:42\nget user:43\n",
            b"1 stored\n2 value {\"name\":\"Ada Byron\",\"tier\":2}\n3 missing\njournal 0 1 2 3\nshard 0 rows 1 live 80 lent 0 back 0\n",
        ),
        (
            b"put a Zo\xc3\xab",
            b"1 stored\njournal 0 1\nshard 0 rows 1 live 48 lent 0 back 0\n",
        ),
        (
            b"put a  \xff \x80 \nget a\n",
            b"1 stored\n2 value  \xff \x80 \njournal 0 1 2\nshard 0 rows 1 live 48 lent 0 back 0\n",
        ),
        (
            b"put a 1\nput c 3\nput b 2\nscan b 2\nscan d 5\n",
            b"1 stored\n2 stored\n3 stored\n4 keys b c\n5 keys\njournal 0 1 2 3 4 5\nshard 0 rows 3 live 144 lent 0 back 0\n",
        ),
    ];
    let unlike = first_unlike(&rt, rt.alloc(), &["run"], Status::Done, rows.as_slice())?;
    assert_eq!(rt; unlike, None);
    Ok(())
}

/// The first of these lines that is not refused so.
fn first_not_refused<'a, R: Threads + Wait + Sync>(
    rt: &R,
    alloc: Global,
    rows: &[(&'a str, &str)],
) -> Result<Option<&'a str>, AllocError> {
    for (line, refusal) in rows {
        let (input, text) = (line.as_bytes(), refusal.as_bytes());
        if !says(rt, alloc, &["run"], input, Status::Refused, text)? {
            return Ok(Some(*line));
        }
    }
    Ok(None)
}

#[test]
fn a_line_that_is_no_command_is_refused(rt: HostRuntime) -> Result<(), Fail> {
    let rows: [(&str, &str); 26] = [
        ("fetch a\n", "refused line 1 UnknownWord\n"),
        ("fetch\n", "refused line 1 UnknownWord\n"),
        (" get a\n", "refused line 1 UnknownWord\n"),
        (" # a\n", "refused line 1 UnknownWord\n"),
        ("get\n", "refused line 1 MissingField\n"),
        ("put a\n", "refused line 1 MissingField\n"),
        ("scan a\n", "refused line 1 MissingField\n"),
        ("get \n", "refused line 1 KeyLength\n"),
        ("scan  5\n", "refused line 1 KeyLength\n"),
        ("get a\u{1}b c\n", "refused line 1 KeyByte\n"),
        ("get \u{7f}\n", "refused line 1 KeyByte\n"),
        ("get a\r\r\n", "refused line 1 KeyByte\n"),
        ("erase a b\n", "refused line 1 ExtraField\n"),
        ("get a \n", "refused line 1 ExtraField\n"),
        ("put a \t", "refused line 1 ValueByte\n"),
        ("put a \u{7f}\n", "refused line 1 ValueByte\n"),
        ("put a b\r\r\n", "refused line 1 ValueByte\n"),
        ("scan a \n", "refused line 1 Count\n"),
        ("scan a 0\n", "refused line 1 Count\n"),
        ("scan a 33\n", "refused line 1 Count\n"),
        ("scan a 02\n", "refused line 1 Count\n"),
        ("scan a 33 x\n", "refused line 1 Count\n"),
        ("scan a 2 x\n", "refused line 1 ExtraField\n"),
        ("scan a 32\nscan a 1 \n", "refused line 2 ExtraField\n"),
        (
            "put a 1\n# a\n\nget\nfetch\n",
            "refused line 4 MissingField\n",
        ),
        ("get a\r\nget b\r\nget", "refused line 3 MissingField\n"),
    ];
    assert_eq!(rt; first_not_refused(&rt, rt.alloc(), rows.as_slice())?, None);
    Ok(())
}

/// What the program answers where it writes this text.
fn answer_as<R: Threads + Wait + Sync>(
    rt: &R,
    alloc: Global,
    words: &[&str],
    input: &[u8],
    failing: &[u64],
    room: usize,
    wanted: &str,
) -> Result<Option<Status>, AllocError> {
    let (status, text) = answer(rt, alloc, words, input, failing, room)?;
    Ok((text.as_slice() == wanted.as_bytes()).then_some(status))
}

/// Words, the calls of the source that fail, the room of the sink, the answer, and what is written.
type Row<'a> = (&'a [&'a str], &'a [u64], usize, Status, &'a str);

/// The first of these rows that has another answer, or writes another text.
fn first_other<R: Threads + Wait + Sync>(
    rt: &R,
    alloc: Global,
    input: &[u8],
    rows: &[Row<'_>],
) -> Result<Option<usize>, AllocError> {
    for (index, row) in rows.iter().enumerate() {
        let (words, failing, room, wanted, written) = *row;
        let found = answer_as(rt, alloc, words, input, failing, room, written)?;
        if found != Some(wanted) {
            return Ok(Some(index));
        }
    }
    Ok(None)
}

#[test]
fn words_and_devices_have_their_answers(rt: HostRuntime) -> Result<(), Fail> {
    let input = b"put a abc\nget a\n";
    let report = "1 stored\n2 value abc\njournal 0 1 2\nshard 0 rows 1 live 48 lent 0 back 0\n";
    let rows: [Row<'_>; 15] = [
        (&[], &[], 4096, Status::Usage, "usage\n"),
        (&["walk"], &[], 4096, Status::Usage, "usage\n"),
        (&["run", "run"], &[], 4096, Status::Usage, "usage\n"),
        (&["run", "--help"], &[], 4096, Status::Usage, "usage\n"),
        (
            &["run", "--pages", "1281"],
            &[],
            4096,
            Status::Usage,
            "usage\n",
        ),
        (
            &["run", "--shards", "17"],
            &[1],
            4096,
            Status::Usage,
            "usage\n",
        ),
        (&["run"], &[2], 4096, Status::ReadFault, "read fault\n"),
        (&["run"], &[], 10, Status::WriteFault, "1 stored\n2"),
        (&["run", "--pages", "1280"], &[], 4096, Status::Done, report),
        (&["run", "--pages=65536"], &[], 4096, Status::Done, report),
        (&["--number", "7", "run"], &[], 4096, Status::Done, report),
        (&["--commands=3", "run"], &[], 4096, Status::Done, report),
        (&["sim", "--number", "7"], &[], 4096, Status::Done, report),
        (&["sim"], &[2], 4096, Status::ReadFault, "read fault\n"),
        (
            &["gen", "--commands", "0"],
            &[],
            4096,
            Status::Usage,
            "usage\n",
        ),
    ];
    assert_eq!(rt; first_other(&rt, rt.alloc(), input, rows.as_slice())?, None);
    Ok(())
}
