//! The reading of a trace.
ghost use Rattle.std.specs.Prelude.{◌≡◌, ℕ, ◌+◌, ◌<◌, ◌≤◌, ◌^◌, ◌∷◌, length, IfOk, IfErr, OnOk, Ok, Err, IsTrue};
ghost use Rattle.trace_text.specs.inside.Found.{AddsLine, IsCommandAt, IsKeyAt, IsRestOf, LiesAt, RefusesLine};
ghost use Rattle.trace_text.specs.inside.Plain.{IsPlain};
ghost use Rattle.trace_text.specs.inside.Routes.{AddsRoute, routes};
ghost use Rattle.trace_text.specs.inside.Version.{reading_in};
ghost use Rattle.trace_text.specs.Operation.{operations};
ghost use Rattle.trace_text.specs.Parsed.{AreSpelled, trace_in};
ghost use Rattle.trace_text.specs.Parts.{most_shards};
ghost use Rattle.layout.specs.Sizes.{most_trace_bytes};
ghost use Rattle.trace_text.specs.Reading.{AtLine, line_reading, lines, lines_from, most_commands, most_replies, trace_of, version_in, IsRefusedAs};

use crate::command::{Command, Span};
use crate::command_list::CommandList;
use crate::line::{cut_at_lf, fields_of, is_passed};
use crate::line_end::strip_cr;
use crate::parts::{origin_after, replies_room};
use crate::plain::plain_front;
use crate::refusal::{Cause, ParseRefusal};
use crate::route::Route;
use crate::shard_counts::ShardCounts;
use crate::trace::Trace;
use crate::trace_bytes::TraceBytes;
use crate::version::{behind_version, version_of};
use std::alloc::Global;

/// The most commands of a trace.
pub(crate) const MOST_COMMANDS: usize = 1_048_576;

/// The most bytes of replies to a trace.
const MOST_REPLIES: u64 = 536_870_912;

/// The first line of a text, what follows its LF, and whether the line's bytes are known to be those of a value.
pub(crate) fn cut_line(text: &[u8]) -> (&[u8], &[u8], bool)
    ensures front { LiesAt text.now 0 result.0.now }
    ensures rest { IsRestOf text.now result.1.now }
    ensures progress { 0 < length text.now → length result.1.now < length text.now }
    ensures lines { (line : ℕ) → lines_from line (lines text.now) ≡ lines_from line (result.0.now ∷ lines result.1.now) }
    ensures sound { IsTrue result.2 → IsPlain result.0.now }
{
    let end = plain_front(text);
    if end < text.len() && text[end] == b'\n' {
        return (&text[..end], &text[end + 1..], true);
    }
    match cut_at_lf(text) {
        (line, None) => (strip_cr(line), &[], false),
        (line, Some(after)) => (strip_cr(line), after, false),
    }
}

/// The command on a line that begins at `start` of a trace of this version, and its key.
pub(crate) fn command_at(
    version: u32,
    text: &[u8],
    sound: bool,
    start: usize,
    number: u32,
    line: u32,
) -> Result<(Command, &[u8]), Cause>
    requires sound { IsTrue sound → IsPlain text.now }
    requires end { start + length text.now < 2 ^ 32 }
    requires few { number ≤ most_commands }
    ensures found { IfOk result (λ found. IsCommandAt version text.now start number line found.0) }
    ensures key { IfOk result (λ found. IsKeyAt text.now start found.0 found.1.now) }
    ensures refused { IfErr result (λ cause. line_reading version (number, (line, text.now)) ≡ Err (AtLine line cause)) }
{
    let found = fields_of(version, text, sound)?;
    let command = Command {
        number,
        line,
        kind: found.kind,
        table: found.table,
        key: Span {
            start: (start + found.key_at) as u32,
            len: found.key.len() as u32,
        },
        value: Span {
            start: (start + found.value_at) as u32,
            len: found.value.len() as u32,
        },
        count: found.count,
    };
    Ok((command, found.key))
}

/// Adds the command on a line that begins at `start` of a trace of this version, and its route, or passes the line over.
#[tactic(auto, using(crate::proofs::Routes::adds_route))]
fn add_line(
    commands: &mut CommandList,
    routes: &mut Vec<Route>,
    version: u32,
    text: &[u8],
    sound: bool,
    start: usize,
    line: u32,
    shards: u32,
) -> Result<(), ParseRefusal>
    requires sound { IsTrue sound → IsPlain text.now }
    requires end { start + length text.now < 2 ^ 32 }
    requires few { length commands.old ≤ most_commands }
    requires some_shards { 1 ≤ shards }
    requires most_shards { shards ≤ most_shards }
    ensures added { OnOk result (AddsLine version text.now start line commands.old commands.new) }
    ensures few { OnOk result (length commands.new ≤ most_commands) }
    ensures route { OnOk result (AddsRoute shards text.now start commands.old routes.old.items commands.new routes.new.items) }
    ensures refused { IfErr result (λ refusal. RefusesLine refusal version text.now (length commands.old + 1) line) }
{
    if is_passed(text) {
        return Ok(());
    }
    if commands.len() == MOST_COMMANDS {
        return Err(ParseRefusal::Trace {
            line,
            cause: Cause::TooManyCommands,
        });
    }
    let number = commands.len() as u32 + 1;
    match command_at(version, text, sound, start, number, line) {
        Ok((command, key)) => {
            let route = Route::new(command.kind, key, shards);
            commands.push(command)?;
            routes.push(route)?;
            Ok(())
        }
        Err(cause) => Err(ParseRefusal::Trace { line, cause }),
    }
}

/// The commands that the bytes spell, and where each of them goes.
fn commands_of(
    alloc: Global,
    version: u32,
    bytes: &[u8],
    shards: u32,
) -> Result<(CommandList, Vec<Route>), ParseRefusal>
    requires version { version ≡ version_in bytes.now }
    requires short { length bytes.now ≤ most_trace_bytes }
    requires some_shards { 1 ≤ shards }
    requires most_shards { shards ≤ most_shards }
    ensures read { IfOk result (λ read. AreSpelled bytes.now read.0) }
    ensures routes { IfOk result (λ read. read.1.items ≡ routes shards (operations bytes.now read.0)) }
    ensures refused { IfErr result (λ refusal. IsRefusedAs refusal (reading_in bytes.now)) }
{
    let mut commands = CommandList::new(alloc);
    let mut routes = Vec::new(alloc);
    let mut rest = behind_version(version, bytes);
    // In a trace of version 2 this is the second line.
    let mut line = version;
    while !rest.is_empty() {
        let start = bytes.len() - rest.len();
        let (text, after, sound) = cut_line(rest);
        add_line(
            &mut commands,
            &mut routes,
            version,
            text,
            sound,
            start,
            line,
            shards,
        )?;
        rest = after;
        line += 1;
    }
    Ok((commands, routes))
}

/// The trace of these commands, which the bytes spell, and of their routes; refused where the replies would be too large.
fn trace_over(
    bytes: TraceBytes,
    commands: CommandList,
    where_to: Vec<Route>,
    shards: u32,
) -> Result<Trace, ParseRefusal>
    requires short { length bytes ≤ most_trace_bytes }
    requires some_shards { 1 ≤ shards }
    requires most_shards { shards ≤ most_shards }
    requires spelled { AreSpelled bytes commands }
    requires routed { where_to.items ≡ routes shards (operations bytes commands) }
    ensures bytes { IfOk result (λ trace. trace.bytes ≡ bytes) }
    ensures shards { IfOk result (λ trace. trace.shards ≡ shards) }
    ensures read { IfOk result (λ trace. trace_of bytes shards ≡ Ok (trace_in trace)) }
    ensures refused { IfErr result (λ refusal. IsRefusedAs refusal (trace_of bytes shards)) }
{
    if replies_room(&commands, shards) > MOST_REPLIES {
        return Err(ParseRefusal::Trace {
            line: 0,
            cause: Cause::RepliesTooLarge,
        });
    }
    let mut owned = ShardCounts::new();
    let mut issued = ShardCounts::new();
    let mut origin = 0;
    for route in where_to.as_slice() {
        owned.add(u32::from(route.owner), route.kind);
        issued.add(origin, route.kind);
        origin = origin_after(origin, shards);
    }
    Ok(Trace {
        bytes,
        commands,
        shards,
        routes: where_to,
        owned,
        issued,
    })
}

/// The same over bytes that have no other owner.
pub(crate) fn trace_owning(
    bytes: Vec<u8>,
    commands: CommandList,
    where_to: Vec<Route>,
    shards: u32,
) -> Result<Trace, ParseRefusal>
    requires short { length bytes.items ≤ most_trace_bytes }
    requires some_shards { 1 ≤ shards }
    requires most_shards { shards ≤ most_shards }
    requires spelled { AreSpelled bytes.items commands }
    requires routed { where_to.items ≡ routes shards (operations bytes.items commands) }
    ensures bytes { IfOk result (λ trace. trace.bytes ≡ bytes.items) }
    ensures shards { IfOk result (λ trace. trace.shards ≡ shards) }
    ensures read { IfOk result (λ trace. trace_of bytes.items shards ≡ Ok (trace_in trace)) }
    ensures refused { IfErr result (λ refusal. IsRefusedAs refusal (trace_of bytes.items shards)) }
{
    let shared = TraceBytes::new(bytes)?;
    trace_over(shared, commands, where_to, shards)
}

/// Reads a trace of at most [`MOST_TRACE_BYTES`] bytes for a run with `shards` shards, 1 to 16.
///
/// The bytes are cut at each LF, what stands behind the last LF is a line too, and one CR at a line's end is dropped.
/// A trace whose first line is `version 2` is of version 2, in which each command names a table; that line is passed over.
/// Any other trace is of version 1, and all its commands are on table 0. A line that is empty or begins with `#` is passed
/// over; each other line is a command. The format is this project's own.
///
/// # Errors
///
/// [`ParseRefusal::Trace`] names the first line with a cause, lines counted from 1, and its cause; or line 0 where no
/// line has one and the replies would be too large. [`ParseRefusal::Memory`] says that memory ran out. Both give up
/// the bytes.
pub fn parse(alloc: Global, bytes: Vec<u8>, shards: u32) -> Result<Trace, ParseRefusal>
    requires short { length bytes.items ≤ most_trace_bytes }
    requires some_shards { 1 ≤ shards }
    requires most_shards { shards ≤ most_shards }
    ensures bytes { IfOk result (λ trace. trace.bytes ≡ bytes.items) }
    ensures shards { IfOk result (λ trace. trace.shards ≡ shards) }
    ensures read { IfOk result (λ trace. trace_of bytes.items shards ≡ Ok (trace_in trace)) }
    ensures refused { IfErr result (λ refusal. IsRefusedAs refusal (trace_of bytes.items shards)) }
{
    let version = version_of(bytes.as_slice());
    let (commands, routes) = commands_of(alloc, version, bytes.as_slice(), shards)?;
    trace_owning(bytes, commands, routes, shards)
}
