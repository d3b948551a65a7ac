//! The parts that a shard issues, one after the other.
ghost use Rattle.std.specs.Prelude.{◌≡◌, ℕ, ◌+◌, ◌*◌, ◌<◌, ◌≤◌, ◌%◌, ◌↔◌, true, length, slice_index_or, Contains, IfSome, IfNone, IsTrue, Some};
ghost use Rattle.std.specs.List.{slice_get};
ghost use Rattle.rows.specs.Operation.{Operation};
ghost use Rattle.trace_text.specs.Operation.{operation};
ghost use Rattle.trace_text.specs.Parsed.{trace_in, IsConsistent};
ghost use Rattle.trace_text.specs.Parts.{has_part, most_shards, origin};
ghost use Rattle.trace_text.specs.Reading.{most_commands};
ghost use Rattle.cache_model.specs.OwnParts.{parts_before};
ghost use Rattle.shard_parts.specs.Own.{IsFirstPart, own_log};
ghost use Rattle.part_lemmas.specs.Rest.{part_at, shards_before};

use crate::place::commands_in_turn;
use std::marker::Model;
use trace_text::{Command, Trace};

/// The parts that a shard issues and that were not begun yet: in the order of their commands, and those of a scan in the order
/// of the shards that do them.
#[derive(Drop)]
pub struct Own<'f> {
    trace: &'f Trace,
    shard: u32,
    next: Part,
    begun: u32,
}

/// A part: the place of its command, or one behind the last command, and the shard that does it.
#[derive(Clone, Copy)]
struct Part {
    at: usize,
    to: u32,
}

impl<'f> Model for Own<'f> {
    ghost use Rattle.shard_parts.specs.Own.{OwnState, StandsAtPart};

    ghost Value = { OwnState };

    ghost view = { λ o. record { trace = o.trace.now; shard = o.shard; begun = o.begun } };

    ghost invariant = { λ o. StandsAtPart o.trace.now o.trace.now.shards o.shard o.next.at o.next.to o.begun };
}

impl<'f> Own<'f> {
    /// All parts of the commands of a trace that the shard issues.
    pub fn of(trace: &'f Trace, shard: u32) -> Own<'f>
        requires shard { shard < trace.now.shards }
        ensures trace { result.trace ≡ trace.now }
        ensures shard { result.shard ≡ shard }
        ensures begun { result.begun ≡ 0 }
    {
        let next = first_part(trace, shard as usize);
        Own {
            trace,
            shard,
            next,
            begun: 0,
        }
    }

    /// How many were begun.
    pub fn begun(&self) -> u32
        ensures value { result ≡ self.now.begun }

        // No more than there are, of a shard of the trace.
        ensures begun { self.now.begun ≤ length (own_log self.now) }
        ensures few { self.now.begun ≤ most_commands * most_shards }
        ensures shard { self.now.shard < self.now.trace.shards }
    {
        self.begun
    }

    /// The command of the next one, and the shard that does it; None where all were begun.
    pub fn next(&self) -> Option<(&'f Command, u32)>
        ensures none { IfNone result (self.now.begun ≡ length (own_log self.now)) }
        ensures some { IfSome result (λ next. slice_get (own_log self.now) self.now.begun ≡ Some (next.0.now.number, next.1)) }
        ensures of_trace { IfSome result (λ next. Contains self.now.trace.commands next.0.now) }
        ensures origin { IfSome result (λ next. origin next.0.now.number self.now.trace.shards ≡ self.now.shard) }
        ensures has_part { IfSome result
            (λ next. has_part self.now.trace.shards next.1 (operation self.now.trace.bytes next.0.now) ≡ true) }
        ensures below { IfSome result (λ next. next.1 < self.now.trace.shards) }
    {
        let commands = self.trace.commands();
        if self.next.at < commands.len() {
            Some((&commands[self.next.at], self.next.to))
        } else {
            None
        }
    }

    /// Whether all were begun.
    pub fn are_all_begun(&self) -> bool
        ensures { IsTrue result ↔ (self.now.begun ≡ length (own_log self.now)) }
    {
        self.next().is_none()
    }

    /// Whether the next one is the first part of its command.
    pub fn is_first(&self) -> bool
        ensures { (part : ℕ × ℕ) → slice_get (own_log self.now) self.now.begun ≡ Some part
            → IsTrue result ↔ IsFirstPart (own_log self.now) self.now.begun part }
    {
        let commands = self.trace.commands();
        if self.next.at < commands.len() && self.trace.is_scan(self.next.at) {
            self.next.to == 0
        } else {
            true
        }
    }

    /// Passes the next one: it is begun.
    pub fn pass(&mut self)
        requires { self.old.begun < length (own_log self.old) }
        ensures trace { self.new.trace ≡ self.old.trace }
        ensures shard { self.new.shard ≡ self.old.shard }
        ensures begun { self.new.begun ≡ self.old.begun + 1 }
    {
        self.next = part_after(self.trace, self.shard, self.next);
        self.begun += 1;
    }
}

/// The first part of the command at the place.
fn first_part(trace: &Trace, at: usize) -> Part
    ensures at { result.at ≡ at }
    ensures below { result.to < trace.now.shards }
    ensures does { (d : Operation) → at < length trace.now.commands
        → has_part trace.now.shards result.to (slice_index_or (trace_in trace.now).operations at d) ≡ true }
    ensures first { shards_before result.to (slice_get (trace_in trace.now).operations at) ≡ 0 }

    // No part is issued before a shard's first command.
    ensures read { IsConsistent trace.now }
    ensures none_before { (o : ℕ) → o < trace.now.shards → parts_before (trace_in trace.now) trace.now.shards o o ≡ 0 }
{
    let commands = commands_in_turn(trace);
    let to = if at < commands.len() && !trace.is_scan(at) {
        trace.owner(at)
    } else {
        0
    };
    Part { at, to }
}

/// The part that the shard issues next.
fn part_after(trace: &Trace, shard: u32, part: Part) -> Part
    // A part that the shard issues.
    requires origin { part.at % trace.now.shards ≡ shard }
    requires within { part.at < length trace.now.commands }
    requires to { part.to < trace.now.shards }

    // One of its parts, or the end.
    ensures origin { result.at % trace.now.shards ≡ shard }
    ensures below { result.to < trace.now.shards }
    ensures does { (d : Operation) → result.at < length trace.now.commands
        → has_part trace.now.shards result.to (slice_index_or (trace_in trace.now).operations result.at d) ≡ true }

    // None stands between them.
    ensures next { part_at trace.now trace.now.shards shard result.to result.at
        ≡ part_at trace.now trace.now.shards shard part.to part.at + 1 }
{
    let shards = trace.shards();
    if trace.is_scan(part.at) && part.to + 1 < shards {
        return Part {
            at: part.at,
            to: part.to + 1,
        };
    }
    first_part(trace, part.at + shards as usize)
}
