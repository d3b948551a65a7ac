//! What two shards left of a trace, judged by the plain cache: their journals are legal and complete, and their logs hold its replies.
ghost use Rattle.std.specs.Prelude.{◌≡◌, ◌<◌, Contains, IfSome};

use cache_model::{Entry, ReplyKind};
use plain_cache::Plain;
use run_log::ReplyLog;
use std::alloc::{AllocError, Global};
use trace_text::{Command, Kind, Trace, origin_of, owner_of};

/// What the plain cache replies to a part.
#[derive(Drop)]
struct Told {
    number: u32,
    kind: ReplyKind,
    body: Vec<u8>,
}

/// What one shard left: its journal, and its replies to its own parts.
#[derive(Clone, Copy)]
pub(super) struct Left<'a> {
    pub(super) journal: &'a [Entry],
    pub(super) log: &'a ReplyLog,
}

/// The command of a number.
fn command_of(trace: &Trace, number: u32) -> Option<&Command>
    ensures { IfSome result (λ command. Contains trace.now.commands command.now) }
{
    trace
        .commands()
        .iter()
        .find(|command| command.number == number)
}

/// Does an entry on the plain cache. False where that is not legal.
fn follow(
    alloc: Global,
    plain: &mut Plain,
    trace: &Trace,
    entry: Entry,
    told: &mut Vec<Told>,
) -> Result<bool, AllocError> {
    let number = match entry {
        Entry::Done(number) => number,
        Entry::Evicted(put) => return Ok(plain.evict(put)),
    };
    let Some(command) = command_of(trace, number) else {
        return Ok(false);
    };
    if plain.rows() == u32::MAX {
        return Ok(false);
    }
    let mut body = Vec::new(alloc);
    let kind = plain.apply(alloc, trace, command, &mut body)?;
    told.push(Told { number, kind, body })?;
    Ok(true)
}

/// The replies of the plain cache to what a journal has done, in order. None where the journal is not legal.
fn told_of(
    alloc: Global,
    trace: &Trace,
    journal: &[Entry],
) -> Result<Option<Vec<Told>>, AllocError> {
    let mut plain = Plain::new(alloc, 1536, trace.regions())?;
    let mut told = Vec::new(alloc);
    for entry in journal {
        if !follow(alloc, &mut plain, trace, *entry, &mut told)? {
            return Ok(None);
        }
    }
    Ok(Some(told))
}

/// Whether one of two shards issues the command of a number.
fn is_of(origin: u32, number: u32) -> bool {
    number >= 1 && origin_of(number, 2) == origin
}

/// Whether one of two shards has a part of a command.
fn has_part(trace: &Trace, command: &Command, shard: u32) -> bool
    requires { Contains trace.now.commands command.now }
{
    command.kind == Kind::Scan || owner_of(trace.key(command), 2) == shard
}

/// The number of the part of one origin that a shard did behind so many others.
fn done_behind(told: &[Told], origin: u32, done: usize) -> Option<u32> {
    let mut of_origin = told.iter().filter(|told| is_of(origin, told.number));
    of_origin.nth(done).map(|told| told.number)
}

/// Whether a shard did the parts of one origin, neither more nor fewer, in order.
fn is_complete(trace: &Trace, told: &[Told], origin: u32, shard: u32) -> bool {
    let mut done = 0usize;
    for command in trace.commands() {
        if is_of(origin, command.number) && has_part(trace, command, shard) {
            if done_behind(told, origin, done) != Some(command.number) {
                return false;
            }
            done = done.saturating_add(1);
        }
    }
    done_behind(told, origin, done).is_none()
}

/// Whether a log has this reply, to the part of a command.
fn is_logged(log: &ReplyLog, part: u32, told: &[Told], number: u32) -> bool {
    match told.iter().find(|told| told.number == number) {
        Some(told) => log.reply(part) == Some((told.kind, told.body.as_slice())),
        None => false,
    }
}

/// The number of the part behind that of a shard; the same where it has no part of the command. None where a log lacks its reply.
fn part_behind(
    trace: &Trace,
    log: &ReplyLog,
    part: u32,
    command: &Command,
    told: &[Told],
    shard: u32,
) -> Option<u32>
    requires { Contains trace.now.commands command.now }
{
    if !has_part(trace, command, shard) {
        return Some(part);
    }
    if !is_logged(log, part, told, command.number) {
        return None;
    }
    Some(part.saturating_add(1))
}

/// Whether a log has the replies to all parts that one origin issues.
fn are_logged(trace: &Trace, left: Left<'_>, first: &[Told], second: &[Told], origin: u32) -> bool {
    let mut part = 0;
    for command in trace.commands() {
        if !is_of(origin, command.number) {
            continue;
        }
        let Some(behind) = part_behind(trace, left.log, part, command, first, 0) else {
            return false;
        };
        let Some(behind) = part_behind(trace, left.log, behind, command, second, 1) else {
            return false;
        };
        part = behind;
    }
    true
}

/// Whether two shards did all parts in order and have the replies to their own, where this is told of what each did.
fn are_told(
    trace: &Trace,
    first: Left<'_>,
    second: Left<'_>,
    at_first: &[Told],
    at_second: &[Told],
) -> bool {
    is_complete(trace, at_first, 0, 0)
        && is_complete(trace, at_first, 1, 0)
        && is_complete(trace, at_second, 0, 1)
        && is_complete(trace, at_second, 1, 1)
        && are_logged(trace, first, at_first, at_second, 0)
        && are_logged(trace, second, at_first, at_second, 1)
}

/// Whether the two shards of a trace left what the definitions allow.
pub(super) fn are_right(
    alloc: Global,
    trace: &Trace,
    first: Left<'_>,
    second: Left<'_>,
) -> Result<bool, AllocError> {
    let Some(at_first) = told_of(alloc, trace, first.journal)? else {
        return Ok(false);
    };
    let Some(at_second) = told_of(alloc, trace, second.journal)? else {
        return Ok(false);
    };
    Ok(are_told(
        trace,
        first,
        second,
        at_first.as_slice(),
        at_second.as_slice(),
    ))
}
