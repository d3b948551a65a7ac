//! Calls that are listed, each with what it answers.
ghost use Rattle.std.specs.Prelude.{◌≤◌};

use super::trial::{Trial, letters};
use fragments::SetRefusal;
use std::alloc::{AllocError, Global};

// The bytes of the longest value and one more.
const TEXT: usize = 1_048_577;

// A call with what it answers, or what is so then. A value is so many bytes of one text.
#[derive(Clone, Copy)]
pub(super) enum Step {
    Put(u32, usize),
    TooLong(u32, usize),
    NoRoom(u32, usize),
    // A put that may not be made, since a guard stands.
    Guarded(u32, usize),
    Holds(u32, usize),
    Lacks(u32),
    Erase(u32, bool),
    Live(u64),
    Guard,
    Unguard,
    GiveUp,
}

fn is_so(trial: &mut Trial, text: &[u8], step: Step) -> bool {
    match step {
        Step::Put(name, len) => trial.put(name, front(text, len)) == Some(Ok(())),
        Step::TooLong(name, len) => {
            trial.put(name, front(text, len)) == Some(Err(SetRefusal::TooLong))
        }
        Step::NoRoom(name, len) => {
            trial.put(name, front(text, len)) == Some(Err(SetRefusal::NoRoom))
        }
        Step::Guarded(name, len) => trial.put(name, front(text, len)).is_none(),
        Step::Holds(name, len) => trial.holds(name, Some(front(text, len))),
        Step::Lacks(name) => trial.holds(name, None),
        Step::Erase(name, some) => trial.erase(name) == some,
        Step::Live(live) => trial.live() == live,
        Step::Guard => trial.guard(),
        Step::Unguard => trial.unguard(),
        Step::GiveUp => trial.give_up(),
    }
}

fn front(text: &[u8], len: usize) -> &[u8] {
    text.get(..len).unwrap_or(&[])
}

// Which step is the first that answers otherwise, on a store of six names and so many segments.
pub(super) fn played(
    alloc: Global,
    segments: u32,
    steps: &[Step],
) -> Result<Option<usize>, AllocError>
    requires { segments ≤ 64 }
{
    let mut trial = Trial::new(alloc, 6, segments)?;
    let text = letters(alloc, TEXT, 7)?;
    for (order, step) in steps.iter().enumerate() {
        if !is_so(&mut trial, &text, *step) {
            return Ok(Some(order));
        }
    }
    Ok(None)
}
