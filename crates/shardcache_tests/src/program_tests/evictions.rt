//! Whole runs of 1,280 pages, which hold 390 rows of a key of four letters and a value of 12,000: a row has 12,048 bytes, so ten
//! stand in a segment, and of the 40 segments one stays free.
use super::answer;
use super::printed::answers;
use shardcache::Status;
use std::alloc::{AllocError, Global};
use std::sync::Wait;
use std::test::Fail;
use std::thread::Threads;

/// So many letters x.
fn letters(alloc: Global) -> Result<Vec<u8>, AllocError> {
    vec![in alloc; b'x'; 12_000]
}

/// Appends a line: a put of the letters under a key.
pub fn put_letters(alloc: Global, lines: &mut Vec<u8>, key: &str) -> Result<(), AllocError> {
    lines.extend_from_slice(format!(in alloc; "put {key} ")?.as_bytes())?;
    lines.extend_from_slice(letters(alloc)?.as_slice())?;
    lines.push(b'\n')?;
    Ok(())
}

/// Appends puts of the letters under a key `k001` or the like for each of these numbers.
fn put_all(alloc: Global, lines: &mut Vec<u8>, first: u32, last: u32) -> Result<(), AllocError> {
    for number in first..=last {
        let key = format!(in alloc; "k{number:03}")?;
        put_letters(alloc, lines, key.as_str())?;
    }
    Ok(())
}

/// Appends the journal that begins with so many commands, and the line of the shard.
fn ending(
    alloc: Global,
    text: &mut Vec<u8>,
    commands: u32,
    more: &str,
    rows: u32,
    live: u32,
) -> Result<(), AllocError> {
    text.extend_from_slice(b"journal 0")?;
    for number in 1..=commands {
        text.extend_from_slice(format!(in alloc; " {number}")?.as_bytes())?;
    }
    let line = format!(in alloc; "{more}\nshard 0 rows {rows} live {live} lent 0 back 0\n")?;
    text.extend_from_slice(line.as_bytes())
}

/// The same under keys of a table.
fn put_in_table(
    alloc: Global,
    lines: &mut Vec<u8>,
    table: u32,
    first: u32,
    last: u32,
) -> Result<(), AllocError> {
    for number in first..=last {
        let key = format!(in alloc; "{table} k{number:03}")?;
        put_letters(alloc, lines, key.as_str())?;
    }
    Ok(())
}

/// A part of a trace or of a report.
#[derive(Clone, Copy)]
pub enum Part<'a> {
    Text(&'a [u8]),
    Letters,
    /// Puts of the letters under the keys of these numbers.
    Puts(u32, u32),
    /// The same of a table, which is the first number.
    PutsIn(u32, u32, u32),
    /// So many puts of the letters under `a`.
    Again(u32),
    /// So many gets of `a`.
    Gets(u32),
    /// These commands are answered by the letters.
    Found(u32, u32),
    /// Puts of no value under the keys of these numbers.
    Keys(u32, u32),
    /// A line that gives a name of a script 1,048,576 letters.
    Long(u32),
    /// These commands all have this answer.
    Answers(u32, u32, &'a str),
    /// The journal of so many commands and more, and the rows and live bytes of the shard.
    Ending(u32, &'a str, u32, u32),
}

fn put_again(alloc: Global, lines: &mut Vec<u8>, times: u32) -> Result<(), AllocError> {
    for _ in 0..times {
        put_letters(alloc, lines, "a")?;
    }
    Ok(())
}

fn get_again(lines: &mut Vec<u8>, times: u32) -> Result<(), AllocError> {
    for _ in 0..times {
        lines.extend_from_slice(b"get a\n")?;
    }
    Ok(())
}

fn found(alloc: Global, text: &mut Vec<u8>, first: u32, last: u32) -> Result<(), AllocError> {
    for number in first..=last {
        text.extend_from_slice(format!(in alloc; "{number} value ")?.as_bytes())?;
        text.extend_from_slice(letters(alloc)?.as_slice())?;
        text.push(b'\n')?;
    }
    Ok(())
}

fn put_keys(alloc: Global, lines: &mut Vec<u8>, first: u32, last: u32) -> Result<(), AllocError> {
    for number in first..=last {
        lines.extend_from_slice(format!(in alloc; "put key{number} \n")?.as_bytes())?;
    }
    Ok(())
}

fn set_long(alloc: Global, lines: &mut Vec<u8>, name: u32) -> Result<(), AllocError> {
    lines.extend_from_slice(format!(in alloc; "set {name} ")?.as_bytes())?;
    lines.extend_from_slice(vec![in alloc; b'x'; 1_048_576]?.as_slice())?;
    lines.push(b'\n')?;
    Ok(())
}

/// Appends a part.
fn lay(alloc: Global, text: &mut Vec<u8>, part: Part<'_>) -> Result<(), AllocError> {
    match part {
        Part::Text(bytes) => text.extend_from_slice(bytes),
        Part::Letters => text.extend_from_slice(letters(alloc)?.as_slice()),
        Part::Puts(first, last) => put_all(alloc, text, first, last),
        Part::PutsIn(table, first, last) => put_in_table(alloc, text, table, first, last),
        Part::Again(times) => put_again(alloc, text, times),
        Part::Gets(times) => get_again(text, times),
        Part::Found(first, last) => found(alloc, text, first, last),
        Part::Keys(first, last) => put_keys(alloc, text, first, last),
        Part::Long(name) => set_long(alloc, text, name),
        Part::Answers(first, last, answer) => answers(alloc, text, first, last, answer),
        Part::Ending(commands, more, rows, live) => ending(alloc, text, commands, more, rows, live),
    }
}

pub fn text_of(alloc: Global, parts: &[Part<'_>]) -> Result<Vec<u8>, AllocError> {
    let mut text = Vec::new(alloc);
    for part in parts {
        lay(alloc, &mut text, *part)?;
    }
    Ok(text)
}

/// Whether a mode with 1,280 pages writes this text of these lines.
pub fn says_with_few_pages<R: Threads + Wait + Sync>(
    rt: &R,
    alloc: Global,
    mode: &str,
    lines: &[Part<'_>],
    text: &[Part<'_>],
) -> Result<bool, AllocError> {
    says_with_pages(rt, alloc, mode, "1280", lines, text)
}

/// The same with so many pages.
fn says_with_pages<R: Threads + Wait + Sync>(
    rt: &R,
    alloc: Global,
    mode: &str,
    pages: &str,
    lines: &[Part<'_>],
    text: &[Part<'_>],
) -> Result<bool, AllocError> {
    let words = [mode, "--pages", pages];
    let lines = text_of(alloc, lines)?;
    let text = text_of(alloc, text)?;
    let room = text.len() + 1;
    let (status, written) = answer(rt, alloc, words.as_slice(), lines.as_slice(), &[], room)?;
    Ok(status == Status::Done && written.as_slice() == text.as_slice())
}

/// Whether a run of 1,280 pages on these lines writes this report.
fn reports<R: Threads + Wait + Sync>(
    rt: &R,
    alloc: Global,
    lines: &[Part<'_>],
    report: &[Part<'_>],
) -> Result<bool, AllocError> {
    says_with_few_pages(rt, alloc, "run", lines, report)
}

#[test]
fn the_row_used_longest_ago_goes_at_the_391st_put(rt: HostRuntime) -> Result<(), Fail> {
    let report = [
        Part::Answers(1, 391, "stored"),
        Part::Ending(390, " !1 391", 390, 4_698_720),
    ];
    assert!(rt; reports(&rt, rt.alloc(), &[Part::Puts(1, 391)], &report)?);
    // The row that went is put again: it is stored, and replaces nothing.
    let lines = [Part::Puts(1, 390), Part::Puts(1, 1)];
    assert!(rt; reports(&rt, rt.alloc(), &lines, &report)?);
    Ok(())
}

#[test]
fn a_row_that_went_is_missing_and_the_next_is_there(rt: HostRuntime) -> Result<(), Fail> {
    let lines = [Part::Puts(1, 392), Part::Text(b"get k001\nget k003\n")];
    let report = [
        Part::Answers(1, 392, "stored"),
        Part::Text(b"393 missing\n394 value "),
        Part::Letters,
        Part::Text(b"\n"),
        Part::Ending(390, " !1 391 !2 392 393 394", 390, 4_698_720),
    ];
    assert!(rt; reports(&rt, rt.alloc(), &lines, &report)?);
    Ok(())
}

/// Worked by hand: of the 48 segments of 1,536 pages one stays free, and group 0 has its active one, though no row is of table 0.
#[test]
fn a_row_of_a_table_goes_at_the_461st_put(rt: HostRuntime) -> Result<(), Fail> {
    let lines = [Part::Text(b"version 2\n"), Part::PutsIn(3, 1, 461)];
    let report = [
        Part::Answers(1, 461, "stored"),
        Part::Ending(460, " !1 461", 460, 5_542_080),
    ];
    assert!(rt; says_with_pages(&rt, rt.alloc(), "run", "1536", &lines, &report)?);
    Ok(())
}

/// A row that is replaced leaves room, in a trace of 20 MB.
#[test]
fn twenty_megabytes_are_read(rt: HostRuntime) -> Result<(), Fail> {
    let report = [
        Part::Answers(1, 1, "stored"),
        Part::Answers(2, 1700, "replaced"),
        Part::Ending(1700, "", 1, 12_048),
    ];
    assert!(rt; reports(&rt, rt.alloc(), &[Part::Again(1700)], &report)?);
    Ok(())
}

#[test]
fn twenty_megabytes_are_written(rt: HostRuntime) -> Result<(), Fail> {
    let report = [
        Part::Answers(1, 1, "stored"),
        Part::Found(2, 1701),
        Part::Ending(1701, "", 1, 12_048),
    ];
    assert!(rt;
        reports(
            &rt,
            rt.alloc(),
            &[Part::Again(1), Part::Gets(1700)],
            &report
        )?
    );
    Ok(())
}

/// The trace of the folder examples that evicts, and its report.
#[test]
fn a_row_that_was_read_stays(rt: HostRuntime) -> Result<(), Fail> {
    let lines = [
        Part::Text(b"put k001 1\n"),
        Part::Puts(2, 391),
        Part::Text(b"get k001\n"),
        Part::Puts(392, 392),
        Part::Text(b"get k002\nget k001\n"),
    ];
    let report = [
        Part::Answers(1, 391, "stored"),
        Part::Text(b"392 value 1\n393 stored\n394 missing\n395 value 1\n"),
        Part::Ending(392, " !2 393 394 395", 391, 4_698_768),
    ];
    assert!(rt; reports(&rt, rt.alloc(), &lines, &report)?);
    Ok(())
}
