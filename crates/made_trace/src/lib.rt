//! A trace that is made of a number, its seed: a large valid input that anybody can make again, byte for byte.
//!
//! The words come from the generator `Lcg64Xsh32`; what they make is `specs/Made.antt`. The mix is ours.
//!
//! # Choices
//! - The generator is the kit's, and the definition is stated by its states, so that the words are pinned too.
//!
//! # Promises
//! - The trace that is made of a number is the definition's, byte for byte (`make_trace`).
#![tactic(auto)]

ghost use Rattle.std.specs.Prelude.{◌≡◌, ◌++◌, ◌≤◌, codes, decimal, OnOk, IfOk};
ghost use Rattle.made_trace.specs.Made.{made, made_line, behind_line, kind_of, key_of, value_of, count_of, command_text, behind_command, word, behind, letter};

mod line;

use crate::line::push_line;
use rand_pcg::Lcg64Xsh32;
use std::alloc::{AllocError, Global};

/// The stream of words from which traces are made.
const STREAM: u64 = 2;

/// The trace of so many commands that is made of a number, at most 100,000 of them. Its lines are commands: every one
/// ends with LF.
///
/// # Errors
/// Want of memory alone.
pub fn make_trace(alloc: Global, number: u32, commands: u32) -> Result<Vec<u8>, AllocError>
    requires { commands ≤ 100000 }
    ensures { IfOk result (λ trace. trace.items ≡ made number commands) }
{
    let mut text = Vec::new(alloc);
    let mut words = Lcg64Xsh32::new(u64::from(number), STREAM);
    for i in 0..commands {
        push_line(&mut text, &mut words, i + 1)?;
    }
    Ok(text)
}
