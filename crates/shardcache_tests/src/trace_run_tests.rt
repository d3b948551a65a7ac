//! Runs that evict, beside the definitions run: a plain cache accepts each eviction that the journal has, and gives each reply
//! that the log has.

mod scheduled;
mod side_by_side;

ghost use Rattle.std.specs.Prelude.{◌≡◌, ◌≤◌};
ghost use Rattle.layout.specs.Sizes.{ArePages};
ghost use Rattle.trace_text.specs.Parsed.{trace_in};
ghost use Rattle.shard_node.specs.Nodes.{HasTablePages};

use layout::{FEWEST_PAGES, FEWEST_TABLE_PAGES, TABLES};
use plain_cache::{Entry, Plain, ReplyKind, ReplyLog};
use rand_core::utils::NextWord;
use rand_pcg::Lcg64Xsh32;
use shard_node::{OpenGates, Ran};
use std::alloc::{AllocError, Global};
use std::sync::Wait;
use std::test::Fail;
use std::thread::Threads;
use trace_run::{Order, run_trace};
use trace_text::{Kind, MOST_SHARDS, Trace, parse};

const KEYS: u32 = 20_000;

/// The lengths of the values of a trace.
#[derive(Clone, Copy, Debug)]
enum Lengths {
    One,
    Alternating,
    Random,
}

fn alternating(number: u32) -> u32 {
    if number % 2 == 0 { 200 } else { 12_000 }
}

fn random_of(word: u32) -> u32 {
    word % 12_001
}

fn length_of(lengths: Lengths, number: u32, word: u32) -> u32 {
    match lengths {
        Lengths::One => 1_000,
        Lengths::Alternating => alternating(number),
        Lengths::Random => random_of(word),
    }
}

/// A key, which is drawn. In version 2 its table stands before it.
fn key_of(alloc: Global, version: u32, words: &mut Lcg64Xsh32) -> Result<String, AllocError> {
    let draw = words.next_word();
    let key = draw % KEYS;
    if version == 2 {
        let table = draw / KEYS % TABLES;
        return format!(in alloc; "{table} k{key}");
    }
    format!(in alloc; "k{key}")
}

/// A command of every sixteen is an erase, one a scan, two are gets, and the others puts.
fn command_line(
    alloc: Global,
    version: u32,
    lengths: Lengths,
    number: u32,
    words: &mut Lcg64Xsh32,
) -> Result<Vec<u8>, AllocError> {
    let key = key_of(alloc, version, words)?;
    let length = length_of(lengths, number, words.next_word());
    let text = match words.next_word() % 16 {
        0 => format!(in alloc; "erase {key}")?,
        1 => format!(in alloc; "scan {key} 32")?,
        2 | 3 => format!(in alloc; "get {key}")?,
        _ => format!(in alloc; "put {key} {number:0>w$}", w = length as usize)?,
    };
    Vec::from_slice(alloc, text.as_bytes())
}

/// The bytes of so many commands, which are drawn.
fn drawn_lines(
    alloc: Global,
    version: u32,
    lengths: Lengths,
    commands: u32,
) -> Result<Vec<u8>, AllocError> {
    let mut words = Lcg64Xsh32::new(7, 1);
    let mut bytes = Vec::new(alloc);
    if version == 2 {
        bytes.extend_from_slice(b"version 2\n")?;
    }
    for number in 0..commands {
        let line = command_line(alloc, version, lengths, number, &mut words)?;
        bytes.extend_from_slice(line.as_slice())?;
        bytes.push(b'\n')?;
    }
    Ok(bytes)
}

/// A trace of a version and of so many commands for so many shards.
fn drawn_trace(
    alloc: Global,
    version: u32,
    shards: u32,
    lengths: Lengths,
    commands: u32,
) -> Result<Option<Trace>, AllocError> {
    let bytes = drawn_lines(alloc, version, lengths, commands)?;
    if bytes.len() > 67_108_864 || shards == 0 || shards > MOST_SHARDS {
        return Ok(None);
    }
    Ok(parse(alloc, bytes, shards).ok())
}

/// For each command the place of its first part in the log of its origin: behind the parts that were issued there before, one for
/// each shard of a scan and one of another command.
fn first_parts(alloc: Global, trace: &Trace, shards: u32) -> Result<Vec<u32>, AllocError> {
    let mut places = [0u32; MOST_SHARDS as usize];
    let mut firsts = Vec::new(alloc);
    for (index, command) in trace.commands().iter().enumerate() {
        let origin = index % shards.max(1) as usize;
        let parts = if command.kind == Kind::Scan {
            shards
        } else {
            1
        };
        if let Some(place) = places.get_mut(origin) {
            firsts.push(*place)?;
            *place = place.wrapping_add(parts);
        }
    }
    Ok(firsts)
}

/// Does the command of a number on a plain cache, and answers its reply, whose body is appended; nothing where the trace has no such
/// command.
fn apply_to(
    plain: &mut Plain,
    alloc: Global,
    trace: &Trace,
    number: u32,
    body: &mut Vec<u8>,
) -> Result<Option<ReplyKind>, AllocError> {
    let index = number.wrapping_sub(1) as usize;
    let Some(command) = trace.commands().get(index) else {
        return Ok(None);
    };
    if plain.rows() == u32::MAX {
        return Ok(None);
    }
    Ok(Some(plain.apply(alloc, trace, command, body)?))
}

/// What a shard did is judged by a plain cache.
#[derive(Drop)]
struct Judge<'a> {
    trace: &'a Trace,
    shards: u32,
    shard: u32,
    firsts: &'a [u32],
    logs: &'a [ReplyLog],
    plain: Plain,
}

impl<'a> Judge<'a> {
    /// Does a command on the plain cache, and tells whether the log of its origin has the same reply.
    fn replies_the_same(&mut self, alloc: Global, number: u32) -> Result<bool, AllocError> {
        let index = number.wrapping_sub(1) as usize;
        let mut body = Vec::new(alloc);
        let Some(kind) = apply_to(&mut self.plain, alloc, self.trace, number, &mut body)? else {
            return Ok(false);
        };
        let behind = if kind == ReplyKind::Keys {
            self.shard
        } else {
            0
        };
        let Some(first) = self.firsts.get(index).copied() else {
            return Ok(false);
        };
        let Some(log) = self.logs.get(index % self.shards.max(1) as usize) else {
            return Ok(false);
        };
        match log.reply(first.wrapping_add(behind)) {
            Some((logged, bytes)) => Ok(logged == kind && bytes == body.as_slice()),
            None => Ok(false),
        }
    }

    /// The same for each entry of a journal; an eviction is made where it is legal.
    fn accepts(&mut self, alloc: Global, entries: &[Entry]) -> Result<bool, AllocError> {
        for entry in entries {
            let same = match entry {
                Entry::Evicted(put) => self.plain.evict(*put),
                Entry::Done(number) => self.replies_the_same(alloc, *number)?,
            };
            if !same {
                return Ok(false);
            }
        }
        Ok(true)
    }
}

/// The fewest pages on which a trace is run.
fn pages_for(trace: &Trace) -> u32
    ensures pages { ArePages result }
    ensures tables { HasTablePages (trace_in trace.now) result }
{
    if trace.regions() == 1 {
        FEWEST_PAGES
    } else {
        FEWEST_TABLE_PAGES
    }
}

/// A plain cache of so many pages and regions.
fn plain_for(alloc: Global, trace: &Trace) -> Result<Plain, AllocError> {
    if trace.regions() == 1 {
        Plain::new(alloc, FEWEST_PAGES, 1)
    } else {
        Plain::new(alloc, FEWEST_TABLE_PAGES, TABLES)
    }
}

/// Whether a plain cache does the same as a shard, entry by entry.
fn is_the_same(
    alloc: Global,
    trace: &Trace,
    shards: u32,
    shard: u32,
    firsts: &[u32],
    ran: &Ran,
) -> Result<bool, AllocError> {
    let (journals, logs, lines) = (ran.journals(), ran.logs(), ran.lines());
    let (Some(journal), Some(line)) = (journals.get(shard as usize), lines.get(shard as usize))
    else {
        return Ok(false);
    };
    let plain = plain_for(alloc, trace)?;
    let mut judge = Judge {
        trace,
        shards,
        shard,
        firsts,
        logs,
        plain,
    };
    let accepted = judge.accepts(alloc, journal.entries());
    let held = (judge.plain.rows(), judge.plain.live());
    drop(judge);
    Ok(accepted? && held == (line.rows, line.live))
}

/// The same of every shard.
fn are_the_same(alloc: Global, trace: &Trace, shards: u32, ran: &Ran) -> Result<bool, AllocError> {
    let firsts = first_parts(alloc, trace, shards)?;
    for shard in 0..shards {
        if !is_the_same(alloc, trace, shards, shard, firsts.as_slice(), ran)? {
            return Ok(false);
        }
    }
    Ok(true)
}

/// How many rows were evicted: the entries of all journals that are none of a part done.
fn evictions(ran: &Ran) -> usize {
    let mut evicted = 0usize;
    for journal in ran.journals() {
        for entry in journal.entries() {
            if matches!(entry, Entry::Evicted(_)) {
                evicted = evicted.wrapping_add(1);
            }
        }
    }
    evicted
}

/// Whether a plain cache does the same as a run, which evicts often where there is one shard.
fn runs_the_same<R: Threads + Wait + Sync>(
    rt: &R,
    alloc: Global,
    trace: &Trace,
    order: Order,
) -> Result<bool, AllocError> {
    let shards = trace.shards();
    let pages = pages_for(trace);
    let ran = run_trace(rt, alloc, trace, pages, order, &OpenGates)?;
    let (evicted, same) = (evictions(&ran), are_the_same(alloc, trace, shards, &ran));
    drop(ran);
    Ok((shards > 1 || evicted > 500) && same?)
}

#[test]
fn a_plain_cache_evicts_and_replies_the_same(rt: HostRuntime) -> Result<(), Fail> {
    for (version, shards, lengths, commands) in [
        (1, 1, Lengths::One, 12_000),
        (1, 1, Lengths::Alternating, 4_000),
        (1, 1, Lengths::Random, 4_000),
        (1, 2, Lengths::One, 20_000),
        (1, 3, Lengths::One, 20_000),
        (1, 4, Lengths::Random, 8_000),
        (1, 7, Lengths::One, 20_000),
        (1, 16, Lengths::One, 20_000),
        (2, 1, Lengths::One, 12_000),
        (2, 1, Lengths::Alternating, 4_000),
        (2, 1, Lengths::Random, 4_000),
        (2, 2, Lengths::One, 20_000),
        (2, 4, Lengths::Random, 8_000),
        (2, 16, Lengths::One, 20_000),
    ] {
        let alloc = rt.alloc();
        let trace = drawn_trace(alloc, version, shards, lengths, commands)?.ok_or("no trace")?;
        for order in [Order::Threads, Order::Numbered(3)] {
            let same = runs_the_same(&rt, alloc, &trace, order)?;
            assert!(rt; same, "{version} {shards} {lengths:?}");
        }
    }
    Ok(())
}
