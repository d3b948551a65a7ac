//! Lines that go over sinks which fail.
use super::steps::{Step, played};
use super::trial::{Answer, Trial};
use outside::{Failed, MemorySink};
use std::alloc::{AllocError, Global};
use std::test::Fail;

#[test]
fn a_put_whose_line_is_cut_is_held_and_goes_on(rt: HostRuntime) -> Result<(), Fail> {
    let steps = [
        Step::Put(b"a", b"1", 7, Answer::Taken),
        Step::Sink(3),
        Step::Flush(Err(Failed)),
        Step::Wrote(b"put"),
        Step::Size(1, 48),
        Step::Newest(b"a", Some(b"1")),
        Step::Sink(100),
        Step::Flush(Ok(Some(7))),
        Step::Wrote(b" a 1\n"),
        Step::Size(0, 0),
    ];
    assert_eq!(rt; played(rt.alloc(), 10, 3, &steps)?, (None, 3));
    Ok(())
}

// The line of forty bytes that is put.
const LINE: &[u8] = b"put abcdefghijklmnopq 12345678901234567\n";

// Whether a line goes whole over sinks of these rooms and one more, each with what it has room for.
fn goes_over(alloc: Global, trial: &mut Trial, rooms: &[usize]) -> Result<bool, AllocError> {
    if trial.put(b"abcdefghijklmnopq", b"12345678901234567", 5) != Answer::Taken {
        return Ok(false);
    }
    let mut out = 0usize;
    for room in rooms.iter() {
        let end = out.saturating_add(*room).min(40);
        let mut sink = MemorySink::new(alloc, *room)?;
        let answer = trial.flush_one(&mut sink);
        if Some(sink.bytes()) != LINE.get(out..end) {
            return Ok(false);
        }
        out = end;
        if answer.is_ok() {
            return Ok(answer == Ok(Some(5)) && out == 40);
        }
    }
    let mut sink = MemorySink::new(alloc, 40)?;
    let answer = trial.flush_one(&mut sink);
    Ok(answer == Ok(Some(5)) && Some(sink.bytes()) == LINE.get(out..))
}

// Whether lines go over two sinks, the first with so much room, and over three, the second with any.
fn all_go_over(alloc: Global, trial: &mut Trial, first: usize) -> Result<bool, AllocError> {
    if !goes_over(alloc, trial, &[first])? {
        return Ok(false);
    }
    for second in 0..41usize {
        if !goes_over(alloc, trial, &[first, second])? {
            return Ok(false);
        }
    }
    Ok(true)
}

// The first room with which a line does not go over, and what is held at the end.
fn first_stuck(alloc: Global) -> Result<(Option<usize>, (u32, u64)), AllocError> {
    let mut trial = Trial::new(alloc, 10, 3)?;
    for first in 0..41usize {
        if !all_go_over(alloc, &mut trial, first)? {
            return Ok((Some(first), trial.size()));
        }
    }
    Ok((None, trial.size()))
}

#[test]
fn a_line_goes_over_two_and_three_sinks_wherever_it_is_cut(rt: HostRuntime) -> Result<(), Fail> {
    assert_eq!(rt; first_stuck(rt.alloc())?, (None, (0, 0)));
    Ok(())
}
