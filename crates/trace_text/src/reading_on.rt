//! The reading of a trace on threads: one cuts a stretch of lines, all read it, and so on.
ghost use Rattle.std.specs.Prelude.{◌≡◌, ◌+◌, ◌<◌, ◌≤◌, ◌^◌, [], length, slice_index_or, All};
ghost use Rattle.std.specs.Prelude.{IfErr, IfOk, IfSome, IsTrue, Ok, OnOk};
ghost use Rattle.layout.specs.Sizes.{most_trace_bytes};
ghost use Rattle.trace_text.specs.declared.command.Command.{Command};
ghost use Rattle.trace_text.specs.Operation.{operation, operations};
ghost use Rattle.trace_text.specs.Parsed.{AreSpelled, LiesWithin, trace_in};
ghost use Rattle.trace_text.specs.Parts.{most_shards};
ghost use Rattle.trace_text.specs.Reading.{most_commands, trace_of, version_in, IsRefusedAs};
ghost use Rattle.trace_text.specs.inside.Lines.{AddsCommands, AddsPlace, AddsRead, AreRead, IsCut, IsPlace, IsPlaceOf, IsRead, IsReadTo, Settles};
ghost use Rattle.trace_text.specs.inside.Plain.{IsPlain};
ghost use Rattle.trace_text.specs.inside.Routes.{route, routes, AreRoutedAt};

use crate::command::{Command, Span};
use crate::command_list::CommandList;
use crate::cutting::{Line, Place, Unread};
use crate::line::is_passed;
use crate::reading::{MOST_COMMANDS, command_at, cut_line, parse, trace_owning};
use crate::refusal::ParseRefusal;
use crate::route::Route;
use crate::trace::Trace;
use crate::version::{behind_version, version_of};
use rows::Kind;
use std::alloc::{AllocError, Global};
use std::thread;
use std::thread::Threads;

/// How many lines are cut before they are read: so many that threads pay, and so few that what is cut stays small.
const STRETCH: usize = 65_536;

/// The place of a line that begins at `start` of the trace.
fn place_of(text: &[u8], sound: bool, start: usize, number: u32, line: u32) -> Place
    requires sound { IsTrue sound → IsPlain text.now }
    requires end { start + length text.now < 2 ^ 32 }
    ensures { IsPlaceOf text.now start number line result }
{
    Place {
        number,
        line,
        text: Span {
            start: start as u32,
            len: text.len() as u32,
        },
        sound,
    }
}

/// Adds a line that begins at `start` of the trace to those that are cut, where these commands stand before them, or passes it
/// over.
fn add_place(
    lines: &mut Vec<Line>,
    commands: &CommandList,
    text: &[u8],
    sound: bool,
    start: usize,
    line: u32,
) -> Result<(), Unread>
    requires sound { IsTrue sound → IsPlain text.now }
    requires end { start + length text.now < 2 ^ 32 }
    requires few { length commands.now + length lines.old.items ≤ most_commands }
    ensures added { OnOk result (AddsPlace text.now start (length commands.now) line lines.old.items lines.new.items) }
    ensures few { OnOk result (length commands.now + length lines.new.items ≤ most_commands) }
{
    if is_passed(text) {
        return Ok(());
    }
    let before = commands.len() + lines.len();
    if before == MOST_COMMANDS {
        return Err(Unread::Refused);
    }
    let place = place_of(text, sound, start, before as u32 + 1, line);
    lines.push(Line::Cut(place))?;
    Ok(())
}

/// What the line at this place is read to be, in a trace of this version.
fn read_at(version: u32, bytes: &[u8], place: &Place) -> Line
    requires place { IsPlace bytes.now place.now }
    requires short { length bytes.now ≤ most_trace_bytes }
    ensures { IsReadTo version bytes.now place.now result }
{
    let start = place.text.start as usize;
    let text = &bytes[start..start + place.text.len as usize];
    match command_at(version, text, place.sound, start, place.number, place.line) {
        Ok((command, _)) => Line::Read(command),
        Err(_) => Line::Refused,
    }
}

/// Reads a line that was cut.
fn read_line(version: u32, bytes: &[u8], line: &mut Line)
    requires cut { IsCut bytes.now line.old }
    requires short { length bytes.now ≤ most_trace_bytes }
    ensures { IsRead version bytes.now line.old line.new }
{
    match *line {
        Line::Cut(place) => *line = read_at(version, bytes, &place),
        Line::Read(_) | Line::Refused => {}
    }
}

/// Reads these lines on at most so many threads.
fn read_lines<R: Threads + Sync>(
    rt: &R,
    threads: usize,
    version: u32,
    bytes: &[u8],
    lines: &mut [Line],
)
    requires threads { 0 < threads }
    requires cut { All (IsCut bytes.now) lines.old }
    requires short { length bytes.now ≤ most_trace_bytes }
    ensures { AreRead version bytes.now lines.old lines.new }
{
    thread::for_each_mut(
        rt,
        lines,
        threads,
        &|_, line| read_line(version, bytes, line),
    );
}

/// Adds the commands that these lines are, where none of them is refused.
fn add_commands(commands: &mut CommandList, lines: &[Line]) -> Result<(), Unread>
    ensures { OnOk result (AddsCommands commands.old lines.now commands.new) }
{
    for line in lines {
        let command = line.command().ok_or(Unread::Refused)?;
        commands.push(command)?;
    }
    Ok(())
}

/// Reads these lines on at most so many threads, and adds the commands that they are.
fn read_all<R: Threads + Sync>(
    rt: &R,
    threads: usize,
    version: u32,
    bytes: &[u8],
    commands: &mut CommandList,
    lines: &mut [Line],
) -> Result<(), Unread>
    requires threads { 0 < threads }
    requires cut { All (IsCut bytes.now) lines.old }
    requires short { length bytes.now ≤ most_trace_bytes }
    ensures { OnOk result (AddsRead version bytes.now commands.old lines.old commands.new) }
{
    read_lines(rt, threads, version, bytes, lines);
    add_commands(commands, lines)?;
    Ok(())
}

/// Reads the lines that are cut, adds the commands that they are, and takes the lines away.
fn settle<R: Threads + Sync>(
    rt: &R,
    threads: usize,
    version: u32,
    bytes: &[u8],
    commands: &mut CommandList,
    lines: &mut Vec<Line>,
) -> Result<(), Unread>
    requires threads { 0 < threads }
    requires cut { All (IsCut bytes.now) lines.old.items }
    requires short { length bytes.now ≤ most_trace_bytes }
    ensures commands { OnOk result (AddsRead version bytes.now commands.old lines.old.items commands.new) }
    ensures none_left { OnOk result (lines.new.items ≡ []) }
{
    read_all(rt, threads, version, bytes, commands, lines.as_mut_slice())?;
    lines.clear();
    Ok(())
}

/// The same where the lines are a whole stretch; else nothing.
fn settle_stretch<R: Threads + Sync>(
    rt: &R,
    threads: usize,
    version: u32,
    bytes: &[u8],
    commands: &mut CommandList,
    lines: &mut Vec<Line>,
) -> Result<(), Unread>
    requires threads { 0 < threads }
    requires cut { All (IsCut bytes.now) lines.old.items }
    requires short { length bytes.now ≤ most_trace_bytes }
    ensures { OnOk result (Settles version bytes.now commands.old lines.old.items commands.new lines.new.items) }
{
    if lines.len() < STRETCH {
        return Ok(());
    }
    settle(rt, threads, version, bytes, commands, lines)?;
    Ok(())
}

/// The commands that the bytes spell: lines are cut, and read a stretch after another on at most so many threads.
fn read_stretches<R: Threads + Sync>(
    rt: &R,
    alloc: Global,
    threads: usize,
    version: u32,
    bytes: &[u8],
) -> Result<CommandList, Unread>
    requires threads { 0 < threads }
    requires version { version ≡ version_in bytes.now }
    requires short { length bytes.now ≤ most_trace_bytes }
    ensures { IfOk result (λ commands. AreSpelled bytes.now commands) }
{
    let mut commands = CommandList::new(alloc);
    let mut lines = Vec::new(alloc);
    let mut rest = behind_version(version, bytes);
    // In a trace of version 2 this is the second line.
    let mut line = version;
    while !rest.is_empty() {
        let start = bytes.len() - rest.len();
        let (text, after, sound) = cut_line(rest);
        add_place(&mut lines, &commands, text, sound, start, line)?;
        settle_stretch(rt, threads, version, bytes, &mut commands, &mut lines)?;
        rest = after;
        line += 1;
    }
    settle(rt, threads, version, bytes, &mut commands, &mut lines)?;
    Ok(commands)
}

/// The commands that the bytes spell, read on at most so many threads, or none where a line is refused.
fn commands_on<R: Threads + Sync>(
    rt: &R,
    alloc: Global,
    threads: usize,
    bytes: &[u8],
) -> Result<Option<CommandList>, AllocError>
    requires threads { 0 < threads }
    requires short { length bytes.now ≤ most_trace_bytes }
    ensures { IfOk result (λ read. IfSome read (λ commands. AreSpelled bytes.now commands)) }
{
    let version = version_of(bytes);
    match read_stretches(rt, alloc, threads, version, bytes) {
        Ok(commands) => Ok(Some(commands)),
        Err(Unread::Refused) => Ok(None),
        Err(Unread::Memory) => Err(AllocError),
    }
}

/// Writes down where the command at this place goes.
fn set_route(bytes: &[u8], commands: &[Command], shards: u32, at: usize, here: &mut Route)
    requires within { All (LiesWithin bytes.now) commands.now }
    requires there { at < length commands.now }
    requires some_shards { 1 ≤ shards }
    requires most_shards { shards ≤ most_shards }
    ensures { (d : Command) → here.new ≡ route shards (operation bytes.now (slice_index_or commands.now at d)) }
{
    let command = &commands[at];
    let start = command.key.start as usize;
    let key = &bytes[start..start + command.key.len as usize];
    *here = Route::new(command.kind, key, shards);
}

/// Writes down where the commands go, on at most so many threads.
fn set_routes<R: Threads + Sync>(
    rt: &R,
    threads: usize,
    bytes: &[u8],
    commands: &[Command],
    shards: u32,
    routes: &mut [Route],
)
    requires threads { 0 < threads }
    requires within { All (LiesWithin bytes.now) commands.now }
    requires some_shards { 1 ≤ shards }
    requires most_shards { shards ≤ most_shards }
    requires one_each { length routes.old ≡ length commands.now }
    ensures { AreRoutedAt bytes.now commands.now shards routes.new }
{
    thread::for_each_mut(
        rt,
        routes,
        threads,
        &|at, here| set_route(bytes, commands, shards, at, here),
    );
}

/// Where the commands go, written down on at most so many threads.
fn routes_on<R: Threads + Sync>(
    rt: &R,
    alloc: Global,
    threads: usize,
    bytes: &[u8],
    commands: &[Command],
    shards: u32,
) -> Result<Vec<Route>, AllocError>
    requires threads { 0 < threads }
    requires within { All (LiesWithin bytes.now) commands.now }
    requires some_shards { 1 ≤ shards }
    requires most_shards { shards ≤ most_shards }
    ensures { IfOk result (λ all. all.items ≡ routes shards (operations bytes.now commands.now)) }
{
    let none = Route {
        kind: Kind::Get,
        owner: 0,
    };
    let mut routes = vec![in alloc; none; commands.len()]?;
    set_routes(rt, threads, bytes, commands, shards, routes.as_mut_slice());
    Ok(routes)
}

/// Reads a trace as [`parse`] does, at most [`MOST_TRACE_BYTES`] bytes for a run with `shards` shards, 1 to 16, on at most
/// `threads` threads, at least 1.
///
/// One thread cuts the lines, and all read their fields; so it is for traces of many lines. Where the system makes no thread,
/// the lines are read one after another. With one thread it is [`parse`].
///
/// # Errors
///
/// Those of [`parse`]. Where a line is refused, the whole is read again by [`parse`], which names the first such line, so
/// that a refused trace takes twice the time.
pub fn parse_on<R: Threads + Sync>(
    rt: &R,
    alloc: Global,
    threads: usize,
    bytes: Vec<u8>,
    shards: u32,
) -> Result<Trace, ParseRefusal>
    requires threads { 0 < threads }
    requires short { length bytes.items ≤ most_trace_bytes }
    requires some_shards { 1 ≤ shards }
    requires most_shards { shards ≤ most_shards }
    ensures bytes { IfOk result (λ trace. trace.bytes ≡ bytes.items) }
    ensures shards { IfOk result (λ trace. trace.shards ≡ shards) }
    ensures read { IfOk result (λ trace. trace_of bytes.items shards ≡ Ok (trace_in trace)) }
    ensures refused { IfErr result (λ refusal. IsRefusedAs refusal (trace_of bytes.items shards)) }
{
    if threads == 1 {
        return parse(alloc, bytes, shards);
    }
    let Some(commands) = commands_on(rt, alloc, threads, bytes.as_slice())? else {
        return parse(alloc, bytes, shards);
    };
    let routes = routes_on(
        rt,
        alloc,
        threads,
        bytes.as_slice(),
        commands.as_slice(),
        shards,
    )?;
    trace_owning(bytes, commands, routes, shards)
}
