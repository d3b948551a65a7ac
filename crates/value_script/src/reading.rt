//! The reading of a script.
ghost use Rattle.std.specs.Prelude.{◌≡◌, ℕ, ◌+◌, ◌<◌, ◌≤◌, ◌^◌, length, All, IfOk, IfErr, OnOk, Ok, Err};
ghost use Rattle.layout.specs.Sizes.{most_trace_bytes};
ghost use Rattle.trace_text.specs.Reading.{lines_from, lines, most_commands};
ghost use Rattle.value_script.specs.Commands.{orders};
ghost use Rattle.value_script.specs.Reading.{AtLine, line_reading, orders_of, script_of, IsRefusedAs};
ghost use Rattle.value_script.specs.Script.{script_in, IsSound};
ghost use Rattle.value_script.specs.inside.Found.{AddsLine, IsCommandAt, RefusesLine};

use crate::command::Command;
use crate::line::{Found, order_of};
use crate::lines::{cut_line, is_passed};
use crate::refusal::{Cause, ScriptRefusal};
use crate::script::Script;
use std::alloc::Global;
use trace_text::Span;

/// The most commands of a script.
const MOST_COMMANDS: usize = 1_048_576;

/// The command on a line that begins at `start` of the script, behind so many.
fn command_at(text: &[u8], start: usize) -> Result<Command, Cause>
    requires end { start + length text.now < 2 ^ 32 }
    ensures found { (before line : ℕ) → before < most_commands
        → IfOk result (λ command. IsCommandAt text.now start before line command) }
    ensures refused { (before line : ℕ) → before < most_commands
        → IfErr result (λ cause. line_reading before line text.now ≡ Err (AtLine line cause)) }
{
    match order_of(text)? {
        Found::Set(name, value) => Ok(Command::Set {
            name,
            value: Span {
                start: (start + text.len() - value.len()) as u32,
                len: value.len() as u32,
            },
        }),
        Found::Read(name, at, count) => Ok(Command::Read { name, at, count }),
        Found::Drop(name) => Ok(Command::Drop { name }),
    }
}

/// Adds the command on a line that begins at `start` of the script, or passes the line over.
fn add_line(
    commands: &mut Vec<Command>,
    text: &[u8],
    start: usize,
    line: u32,
) -> Result<(), ScriptRefusal>
    requires end { start + length text.now < 2 ^ 32 }
    requires few { length commands.old.items ≤ most_commands }
    ensures added { OnOk result (AddsLine text.now start line commands.old.items commands.new.items) }
    ensures few { OnOk result (length commands.new.items ≤ most_commands) }
    ensures refused { IfErr result (λ refusal. RefusesLine refusal text.now (length commands.old.items) line) }
{
    if is_passed(text) {
        return Ok(());
    }
    if commands.len() == MOST_COMMANDS {
        return Err(ScriptRefusal::Script {
            line,
            cause: Cause::TooManyCommands,
        });
    }
    match command_at(text, start) {
        Ok(command) => {
            commands.push(command)?;
            Ok(())
        }
        Err(cause) => Err(ScriptRefusal::Script { line, cause }),
    }
}

/// The commands that the bytes spell.
fn commands_of(alloc: Global, bytes: &[u8]) -> Result<Vec<Command>, ScriptRefusal>
    requires short { length bytes.now ≤ most_trace_bytes }
    ensures read { IfOk result (λ commands. orders_of 0 (lines_from 1 (lines bytes.now)) ≡ Ok (orders bytes.now commands.items)) }
    ensures sound { IfOk result (λ commands. All (IsSound bytes.now) commands.items) }
    ensures few { IfOk result (λ commands. length commands.items ≤ most_commands) }
    ensures refused { IfErr result (λ refusal. IsRefusedAs refusal (orders_of 0 (lines_from 1 (lines bytes.now)))) }
{
    let mut commands = Vec::new(alloc);
    let mut rest = bytes;
    let mut line = 1u32;
    while !rest.is_empty() {
        let start = bytes.len() - rest.len();
        let (text, after) = cut_line(rest);
        add_line(&mut commands, text, start, line)?;
        rest = after;
        line += 1;
    }
    Ok(commands)
}

/// Reads a script of at most 67,108,864 bytes.
///
/// The bytes are cut at each LF, what stands behind the last LF is a line too, and one CR at a line's end is dropped.
/// A line that is empty or begins with `#` is passed over; each other line is a command: `set NAME VALUE`,
/// `read NAME AT COUNT` or `drop NAME`. The value is the rest of the line, and numbers have no leading zero.
///
/// # Errors
///
/// [`ScriptRefusal::Script`] names the first line with a cause, lines counted from 1, and its cause.
/// [`ScriptRefusal::Memory`] says that memory ran out. Both give up the bytes.
pub fn parse_script(alloc: Global, bytes: Vec<u8>) -> Result<Script, ScriptRefusal>
    requires short { length bytes.items ≤ most_trace_bytes }
    ensures bytes { IfOk result (λ script. script.bytes ≡ bytes.items) }
    ensures read { IfOk result (λ script. script_of bytes.items ≡ Ok (script_in script)) }
    ensures refused { IfErr result (λ refusal. IsRefusedAs refusal (script_of bytes.items)) }
{
    let commands = commands_of(alloc, bytes.as_slice())?;
    Ok(Script { bytes, commands })
}
