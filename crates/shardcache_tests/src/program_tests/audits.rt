//! Reports that are checked against their traces.
use super::evictions::{Part, put_letters, text_of};
use super::limits::many;
use super::printed::lines_of;
use super::{answer, first_unlike};
use shardcache::Status;
use std::alloc::{AllocError, Global};
use std::sync::Wait;
use std::test::Fail;
use std::thread::Threads;

/// A trace behind its length, and a report behind that.
fn framed(alloc: Global, trace: &[u8], report: &[u8]) -> Result<Vec<u8>, AllocError> {
    let len = trace.len();
    let mut input = Vec::new(alloc);
    input.extend_from_slice(format!(in alloc; "{len}\n")?.as_bytes())?;
    input.extend_from_slice(trace)?;
    input.extend_from_slice(report)?;
    Ok(input)
}

/// The report that a run or the like of these words, behind its mode, writes to a sink of so much room, where it is legal to an audit
/// of the same words.
fn legal_report<R: Threads + Wait + Sync>(
    rt: &R,
    alloc: Global,
    mode: &'static str,
    words: &[&'static str],
    trace: &[u8],
    room: usize,
) -> Result<Option<Vec<u8>>, AllocError> {
    let mut run = Vec::from_slice(alloc, &[mode])?;
    run.extend_from_slice(words)?;
    let mut audit = Vec::from_slice(alloc, &["audit"])?;
    audit.extend_from_slice(words)?;
    let (done, report) = answer(rt, alloc, run.as_slice(), trace, &[], room)?;
    let input = framed(alloc, trace, report.as_slice())?;
    let (status, verdict) = answer(rt, alloc, audit.as_slice(), input.as_slice(), &[], 4096)?;
    let legal = done == Status::Done
        && status == Status::Done
        && verdict.as_slice() == b"legal\n".as_slice();
    Ok(legal.then_some(report))
}

/// Whether a run of these words, behind its mode, writes a report that is legal to an audit of the same words.
fn is_legal<R: Threads + Wait + Sync>(
    rt: &R,
    alloc: Global,
    words: &[&'static str],
    trace: &[u8],
) -> Result<bool, AllocError> {
    let report = legal_report(rt, alloc, "run", words, trace, 8_388_608)?;
    Ok(report.is_some())
}

#[test]
fn the_first_wrong_line_is_told(rt: HostRuntime) -> Result<(), Fail> {
    let rows: [(&[u8], &[u8]); 5] = [
        (
            b"16\nput a abc\nget a\n1 stored\n2 value abc\njournal 0 1 2\nshard 0 rows 1 live 48 lent 0 back 0\n",
            b"legal\n",
        ),
        (
            b"16\nput a abc\nget a\n1 stored\n2 value abd\njournal 0 1 2\nshard 0 rows 1 live 48 lent 0 back 0\n",
            b"illegal line 2\n",
        ),
        (
            b"16\nput a abc\nget a\n1 stored\n2 value abc\njournal 0 2 1\nshard 0 rows 1 live 48 lent 0 back 0\n",
            b"illegal line 3\n",
        ),
        (
            b"16\nput a abc\nget a\n1 stored\n2 value abc\njournal 0 1 !1 2\nshard 0 rows 1 live 48 lent 0 back 0\n",
            b"illegal line 3\n",
        ),
        (
            b"16\nput a abc\nget a\n1 stored\n2 value abc\njournal 0 1 2\nshard 0 rows 1 live 48 lent 0 back 0",
            b"illegal line 4\n",
        ),
    ];
    let unlike = first_unlike(&rt, rt.alloc(), &["audit"], Status::Done, rows.as_slice())?;
    assert_eq!(rt; unlike, None);
    Ok(())
}

#[test]
fn journals_are_looked_at_first(rt: HostRuntime) -> Result<(), Fail> {
    let rows: [(&[u8], &[u8]); 11] = [
        // A journal that lacks the last command, behind an answer that is wrong too.
        (
            b"16\nput a abc\nget a\n1 stored\n2 missing\njournal 0 1\nshard 0 rows 1 live 48 lent 0 back 0\n",
            b"illegal line 3\n",
        ),
        (
            b"16\nput a abc\nget a\n1 stored\n2 value abc\njournal 0 1 02\nshard 0 rows 1 live 48 lent 0 back 0\n",
            b"illegal line 3\n",
        ),
        (
            b"16\nput a abc\nget a\n1 stored\n2 value abc\njournal 0 1 2 \nshard 0 rows 1 live 48 lent 0 back 0\n",
            b"illegal line 3\n",
        ),
        (
            b"16\nput a abc\nget a\n1 stored\n2 value abc\njournal 1 1 2\nshard 0 rows 1 live 48 lent 0 back 0\n",
            b"illegal line 3\n",
        ),
        (
            b"16\nput a abc\nget a\n1 stored\n2 value abc\njournal 0 1 2\nshard 0 rows 1 live 48 lent 0 back 0\n\n",
            b"illegal line 5\n",
        ),
        (
            b"16\nput a abc\nget a\n1 stored\n2 value abc\njournal 0 1 2\n",
            b"illegal line 4\n",
        ),
        (
            b"16\nput a abc\nget a\n1 stored\n2 value abc\njournal 0 1 2",
            b"illegal line 3\n",
        ),
        (b"16\nput a abc\nget a\n", b"illegal line 3\n"),
        (
            b"0\njournal 0\nshard 0 rows 0 live 0 lent 0 back 0\n",
            b"legal\n",
        ),
        (b"0\n", b"illegal line 1\n"),
        (
            b"0\nshard 0 rows 0 live 0 lent 0 back 0\n",
            b"illegal line 1\n",
        ),
    ];
    let unlike = first_unlike(&rt, rt.alloc(), &["audit"], Status::Done, rows.as_slice())?;
    assert_eq!(rt; unlike, None);
    Ok(())
}

#[test]
fn what_is_no_trace_behind_its_length_is_refused(rt: HostRuntime) -> Result<(), Fail> {
    let rows: [(&[u8], &[u8]); 10] = [
        (b"", b"refused line 0 Frame\n"),
        (b"6", b"refused line 0 Frame\n"),
        (b"7\nget a\n", b"refused line 0 Frame\n"),
        (b"06\nget a\n", b"refused line 0 Frame\n"),
        (b"6\r\nget a\n", b"refused line 0 Frame\n"),
        (b"000000006\nget a\n", b"refused line 0 Frame\n"),
        (b"\nget a\n", b"refused line 0 Frame\n"),
        // The trace then ends with a line `1`.
        (
            b"17\nput a abc\nget a\n1 stored\n2 value abc\njournal 0 1 2\nshard 0 rows 1 live 48 lent 0 back 0\n",
            b"refused line 3 UnknownWord\n",
        ),
        (b"5\ngets ", b"refused line 1 UnknownWord\n"),
        (b"21\nversion 2\nget 8 a\n ", b"refused line 0 Frame\n"),
    ];
    let unlike = first_unlike(
        &rt,
        rt.alloc(),
        &["audit"],
        Status::Refused,
        rows.as_slice(),
    )?;
    assert_eq!(rt; unlike, None);
    Ok(())
}

#[test]
fn a_trace_of_tables_needs_pages_for_an_audit_too(rt: HostRuntime) -> Result<(), Fail> {
    let words: [&str; 3] = ["audit", "--pages", "1280"];
    let rows: [(&[u8], &[u8]); 2] = [
        (b"18\nversion 2\nget 7 a\n", b"refused line 1 PagesTooFew\n"),
        (b"18\nversion 2\nget 8 a\n", b"refused line 2 Table\n"),
    ];
    let unlike = first_unlike(&rt, rt.alloc(), &words, Status::Refused, rows.as_slice())?;
    assert_eq!(rt; unlike, None);
    Ok(())
}

#[test]
fn the_reports_of_runs_are_legal(rt: HostRuntime) -> Result<(), Fail> {
    let traces: [&[u8]; 4] = [
        b"",
        b"put a 1\nget z\nput b 2\nget z\nput c 3\nget z\nscan a 3\n",
        b"put a 1\nput b 1\nerase a\nscan a 32\nget a\nget b\nerase b\nscan a 1\n",
        b"# t\r\nput k \nget k\r\nput k  v \nget k",
    ];
    let words: [&[&'static str]; 3] = [&[], &["--shards", "2"], &["--shards", "16"]];
    for trace in traces {
        for of_run in words {
            assert!(rt; is_legal(&rt, rt.alloc(), of_run, trace)?);
        }
    }
    Ok(())
}

#[test]
fn a_report_of_sixteen_origins_is_legal(rt: HostRuntime) -> Result<(), Fail> {
    let trace = many(rt.alloc(), b"get a\n", 1000)?;
    assert!(rt; is_legal(&rt, rt.alloc(), &["--shards", "16"], trace.as_slice())?);
    Ok(())
}

#[test]
fn a_report_with_evictions_is_legal(rt: HostRuntime) -> Result<(), Fail> {
    let trace = text_of(
        rt.alloc(),
        &[Part::Puts(1, 392), Part::Text(b"get k001\nget k392\n")],
    )?;
    assert!(rt; is_legal(&rt, rt.alloc(), &["--pages", "1280"], trace.as_slice())?);
    Ok(())
}

#[test]
fn a_report_of_tables_is_legal(rt: HostRuntime) -> Result<(), Fail> {
    let trace = text_of(
        rt.alloc(),
        &[Part::Text(b"version 2\n"), Part::PutsIn(3, 1, 461)],
    )?;
    assert!(rt; is_legal(&rt, rt.alloc(), &["--pages", "1536"], trace.as_slice())?);
    Ok(())
}

/// Puts of a thousand keys, each of which is read by the next command: of two shards the first issues the puts, the second the gets.
fn puts_and_gets(alloc: Global) -> Result<Vec<u8>, AllocError> {
    let mut lines = Vec::new(alloc);
    for number in 1..=1000 {
        let key = format!(in alloc; "k{number}")?;
        put_letters(alloc, &mut lines, key.as_str())?;
        lines.extend_from_slice(format!(in alloc; "get {key}\n")?.as_bytes())?;
    }
    Ok(lines)
}

/// Whether a line is a journal in which a row went.
fn has_evicted(line: &str) -> bool {
    let Some(journal) = line.strip_prefix("journal ") else {
        return false;
    };
    for entry in journal.split(' ') {
        if entry.strip_prefix('!').is_some() {
            return true;
        }
    }
    false
}

/// How many shards evicted, by their report.
fn shards_that_evicted(alloc: Global, report: &[u8]) -> Result<u32, Fail> {
    let lines = lines_of(alloc, report)?;
    let mut shards = 0u32;
    for line in lines.as_slice() {
        if has_evicted(line) {
            shards = shards.wrapping_add(1);
        }
    }
    Ok(shards)
}

/// The legal report of a mode on two shards of 1,280 pages.
fn of_two<R: Threads + Wait + Sync>(
    rt: &R,
    alloc: Global,
    mode: &'static str,
    trace: &[u8],
) -> Result<Option<Vec<u8>>, AllocError> {
    let words = ["--shards", "2", "--pages", "1280", "--number", "3"];
    legal_report(rt, alloc, mode, words.as_slice(), trace, 20_000_000)
}

#[test]
fn two_shards_that_evict_write_legal_reports(rt: HostRuntime) -> Result<(), Fail> {
    let trace = puts_and_gets(rt.alloc())?;
    let run = of_two(&rt, rt.alloc(), "run", trace.as_slice())?.ok_or("run")?;
    assert_eq!(rt; shards_that_evicted(rt.alloc(), run.as_slice())?, 2);
    Ok(())
}

#[test]
fn one_number_makes_one_report(rt: HostRuntime) -> Result<(), Fail> {
    let trace = puts_and_gets(rt.alloc())?;
    let first = of_two(&rt, rt.alloc(), "sim", trace.as_slice())?.ok_or("first")?;
    let second = of_two(&rt, rt.alloc(), "sim", trace.as_slice())?.ok_or("second")?;
    assert_eq!(rt; shards_that_evicted(rt.alloc(), first.as_slice())?, 2);
    assert!(rt; first.as_slice() == second.as_slice());
    Ok(())
}
