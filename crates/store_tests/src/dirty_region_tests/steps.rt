//! Calls that are listed, each with what it answers.
use super::trial::{Answer, Trial};
use outside::{Failed, MemorySink};
use std::alloc::{AllocError, Global};

/// A call with what it answers, or what is so then.
#[derive(Clone, Copy)]
pub(crate) enum Step<'a> {
    /// A put: key, value, number.
    Put(&'a [u8], &'a [u8], u32, Answer),
    /// Puts of the numbers from the first to the second, which is left out, with values of so many bytes. All answer alike.
    Puts(u32, u32, usize, Answer),
    Newest(&'a [u8], Option<&'a [u8]>),
    /// The flushes from here on go into a new sink of so many bytes.
    Sink(usize),
    Flush(Result<Option<u32>, Failed>),
    /// All bytes that the sink has.
    Wrote(&'a [u8]),
    /// The puts of these numbers go next, each with a line of so many bytes.
    Flushes(u32, u32, usize),
    /// Each put of these numbers, with a value of so many bytes, has no room until the oldest of so many puts is out.
    Rounds(u32, u32, usize, u32),
    /// How many puts are held, and the live bytes.
    Size(u32, u64),
}

// The key of a number below 1,000.
pub(crate) fn key_of(number: u32) -> [u8; 4] {
    [
        b'k',
        b'0' + (number / 100 % 10) as u8,
        b'0' + (number / 10 % 10) as u8,
        b'0' + (number % 10) as u8,
    ]
}

fn put_numbered(trial: &mut Trial, value: &[u8], number: u32) -> Answer {
    trial.put(&key_of(number), value, number)
}

fn all_answer(
    alloc: Global,
    trial: &mut Trial,
    from: u32,
    to: u32,
    len: usize,
    answer: Answer,
) -> Result<bool, AllocError> {
    let value = Vec::from_elem(alloc, b'X', len)?;
    for number in from..to {
        if put_numbered(trial, &value, number) != answer {
            return Ok(false);
        }
    }
    Ok(true)
}

// Whether the put of a number goes next, with a line of so many bytes.
fn goes(alloc: Global, trial: &mut Trial, number: u32, len: usize) -> Result<bool, AllocError> {
    let mut sink = MemorySink::new(alloc, len)?;
    let answer = trial.flush_one(&mut sink);
    Ok(answer == Ok(Some(number)) && sink.bytes().len() == len)
}

fn all_go(
    alloc: Global,
    trial: &mut Trial,
    from: u32,
    to: u32,
    len: usize,
) -> Result<bool, AllocError> {
    for number in from..to {
        if !goes(alloc, trial, number, len)? {
            return Ok(false);
        }
    }
    Ok(true)
}

// Whether a put has room once the one of the other number is out.
fn goes_round(
    alloc: Global,
    trial: &mut Trial,
    value: &[u8],
    number: u32,
    oldest: u32,
) -> Result<bool, AllocError> {
    if put_numbered(trial, value, number) != Answer::NoRoom {
        return Ok(false);
    }
    let gone = goes(alloc, trial, oldest, value.len().saturating_add(10))?;
    Ok(gone && put_numbered(trial, value, number) == Answer::Taken)
}

fn all_go_round(
    alloc: Global,
    trial: &mut Trial,
    from: u32,
    to: u32,
    len: usize,
    held: u32,
) -> Result<bool, AllocError> {
    let value = Vec::from_elem(alloc, b'X', len)?;
    for number in from..to {
        if !goes_round(alloc, trial, &value, number, number.saturating_sub(held))? {
            return Ok(false);
        }
    }
    Ok(true)
}

fn answers(
    alloc: Global,
    trial: &mut Trial,
    sink: &mut MemorySink,
    step: &Step<'_>,
) -> Result<bool, AllocError> {
    match step {
        Step::Put(key, value, number, answer) => Ok(trial.put(key, value, *number) == *answer),
        Step::Puts(from, to, len, answer) => all_answer(alloc, trial, *from, *to, *len, *answer),
        Step::Newest(key, value) => Ok(trial.newest(key) == *value),
        Step::Sink(room) => {
            *sink = MemorySink::new(alloc, *room)?;
            Ok(true)
        }
        Step::Flush(answer) => Ok(trial.flush_one(sink) == *answer),
        Step::Wrote(bytes) => Ok(sink.bytes() == *bytes),
        Step::Flushes(from, to, len) => all_go(alloc, trial, *from, *to, *len),
        Step::Rounds(from, to, len, held) => { all_go_round(alloc, trial, *from, *to, *len, *held) }
        Step::Size(puts, live) => Ok(trial.size() == (*puts, *live)),
    }
}

// Which step is the first that answers otherwise.
fn first_wrong(
    alloc: Global,
    trial: &mut Trial,
    steps: &[Step<'_>],
) -> Result<Option<usize>, AllocError> {
    let mut sink = MemorySink::new(alloc, 100)?;
    for (order, step) in steps.iter().enumerate() {
        if !answers(alloc, trial, &mut sink, step)? {
            return Ok(Some(order));
        }
    }
    Ok(None)
}

/// Which step is the first that answers otherwise on a region with room for so many puts and so many segments, and how many
/// segments are given up then.
pub(crate) fn played(
    alloc: Global,
    rows: u32,
    segments: u32,
    steps: &[Step<'_>],
) -> Result<(Option<usize>, u32), AllocError> {
    let mut trial = Trial::new(alloc, rows, segments)?;
    let wrong = first_wrong(alloc, &mut trial, steps)?;
    Ok((wrong, trial.give_up()))
}
