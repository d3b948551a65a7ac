//! The commands that one shard issues to another, one after the other.
ghost use Rattle.std.specs.Prelude.{◌≡◌, ◌≢◌, ℕ, List, ◌+◌, ◌-◌, ◌*◌, ◌<◌, ◌≤◌, ◌%◌, ◌==◌, [], ◌∷◌, length, take, drop, true, count_by, slice_index_or, Contains, IfSome, IfNone, Some};
ghost use Rattle.std.specs.List.{slice_get};
ghost use Rattle.rows.specs.Operation.{Operation};
ghost use Rattle.trace_text.specs.Operation.{operation};
ghost use Rattle.trace_text.specs.Parsed.{trace_in};
ghost use Rattle.trace_text.specs.Parts.{most_shards};
ghost use Rattle.trace_text.specs.Reading.{most_commands};
ghost use Rattle.cache_model.specs.OwnParts.{parts_before};
ghost use Rattle.part_lemmas.specs.Due.{operations_for};
ghost use Rattle.part_lemmas.specs.Due.{expected_number};
ghost use Rattle.part_lemmas.specs.Rest.{all_of, is_for, left_from, log_of};

use crate::place::{Place, commands_in_turn, past};
use std::marker::Model;
use trace_text::{Command, Trace};

/// The commands of a trace that one shard issues to another and that were not passed yet.
#[derive(Drop)]
pub struct Rest<'f> {
    trace: &'f Trace,
    origin: u32,
    shard: u32,
    // Of the first of them, or one behind the last command.
    next: Place,
}

impl<'f> Model for Rest<'f> {
    ghost use Rattle.part_lemmas.specs.Rest.{RestState, StandsAt, left_from, part_at};

    ghost Value = { RestState };

    ghost view = { λ r. record {
      trace = r.trace.now;
      origin = r.origin;
      shard = r.shard;
      left = left_from r.trace.now r.trace.now.shards r.origin r.shard r.next.at;
      part = part_at r.trace.now r.trace.now.shards r.origin r.shard r.next.at;
    } };

    ghost invariant = { λ r. StandsAt r.trace.now r.trace.now.shards r.origin r.shard r.next.at r.next.before };
}

impl<'f> Rest<'f> {
    /// All commands of a trace that the shard `origin` issues to `shard`.
    pub fn of(trace: &'f Trace, origin: u32, shard: u32) -> Rest<'f>
        requires origin { origin < trace.now.shards }
        requires shard { shard < trace.now.shards }
        ensures trace { result.trace ≡ trace.now }
        ensures origin { result.origin ≡ origin }
        ensures shard { result.shard ≡ shard }
        ensures left { result.left ≡ operations_for (trace_in trace.now) trace.now.shards origin shard }
    {
        // The commands are numbered, so that no part is issued before the first of a shard.
        commands_in_turn(trace);
        let first = Place {
            at: origin as usize,
            before: 0,
        };
        let next = find(trace, origin, shard, first);
        Rest {
            trace,
            origin,
            shard,
            next,
        }
    }

    /// What holds of them at each time: they are the last of all that the origin issues to the shard, and the part of the
    /// first of them stands among the origin's parts behind those of the ones that were passed.
    pub fn facts(&self)
        ensures shard { self.now.shard < self.now.trace.shards }
        ensures origin { self.now.origin < self.now.trace.shards }
        ensures in_log { (operation : Operation) (others : List Operation) → self.now.left ≡ operation ∷ others
            → slice_get (log_of self.now) self.now.part ≡ Some (operation.number, self.now.shard) }
        ensures before { count_by (λ part. part.1 == self.now.shard) (take self.now.part (log_of self.now)) + length self.now.left
            ≡ length (all_of self.now) }
        ensures rest { self.now.left ≡ drop (length (all_of self.now) - length self.now.left) (all_of self.now) }
        ensures few { length self.now.left ≤ most_commands }
        ensures parts { self.now.part ≤ most_commands * most_shards }
    {
        let _ = &self.next;
    }

    /// The first of them; None where all were passed.
    pub fn first(&self) -> Option<&'f Command>
        ensures none { IfNone result (self.now.left ≡ []) }
        ensures some { IfSome result (λ command. self.now.left ≡ operation self.now.trace.bytes command.now ∷ drop 1 self.now.left) }
        ensures of_trace { IfSome result (λ command. Contains self.now.trace.commands command.now) }
    {
        let commands = self.trace.commands();
        if self.next.at < commands.len() {
            Some(&commands[self.next.at])
        } else {
            None
        }
    }

    /// The number of the first of them; 0 where all were passed.
    pub fn number(&self) -> u32
        ensures { result ≡ expected_number (slice_get self.now.left 0) }
    {
        match self.first() {
            Some(command) => command.number,
            None => 0,
        }
    }

    /// Where the part of the first of them stands among the parts that the origin issues.
    pub fn part(&self) -> u32
        ensures { result ≡ self.now.part }
    {
        let commands = commands_in_turn(self.trace);
        if self.next.at < commands.len() && self.trace.is_scan(self.next.at) {
            self.next.before + self.shard
        } else {
            self.next.before
        }
    }

    /// Passes the first of them.
    pub fn pass(&mut self)
        ensures trace { self.new.trace ≡ self.old.trace }
        ensures origin { self.new.origin ≡ self.old.origin }
        ensures shard { self.new.shard ≡ self.old.shard }
        ensures left { self.new.left ≡ drop 1 self.old.left }
        ensures rises { self.old.left ≢ [] → self.old.part < self.new.part }
    {
        self.pass_on();
        // So the part of the first one now stands behind one more.
        self.facts();
    }

    fn pass_on(&mut self)
        ensures trace { self.new.trace ≡ self.old.trace }
        ensures origin { self.new.origin ≡ self.old.origin }
        ensures shard { self.new.shard ≡ self.old.shard }
        ensures left { self.new.left ≡ drop 1 self.old.left }

        // Where the part of the first of them stood.
        ensures stood { count_by (λ part. part.1 == self.old.shard) (take self.old.part (log_of self.old)) + length self.old.left
            ≡ length (all_of self.old) }
    {
        let commands = commands_in_turn(self.trace);
        if self.next.at < commands.len() {
            let from = past(self.trace, self.next);
            self.next = find(self.trace, self.origin, self.shard, from);
        }
    }
}

/// The place of the first command from this one on that the shard `origin` issues to `shard`. The place belongs to a command
/// that `origin` issues, and so does each that is as many places further as there are shards.
fn find(trace: &Trace, origin: u32, shard: u32, from: Place) -> Place
    requires origin { from.at % trace.now.shards ≡ origin }
    requires before { from.before ≡ parts_before (trace_in trace.now) trace.now.shards origin from.at }
    ensures left { (place : ℕ) → place ≤ from.at → from.at < place + trace.now.shards
        → left_from trace.now trace.now.shards origin shard result.at ≡ left_from trace.now trace.now.shards origin shard place }
    ensures origin { result.at % trace.now.shards ≡ origin }
    ensures before { result.before ≡ parts_before (trace_in trace.now) trace.now.shards origin result.at }
    ensures here { (d : Operation) → result.at < length trace.now.commands
        → is_for trace.now.shards origin shard (slice_index_or (trace_in trace.now).operations result.at d) ≡ true }
{
    let commands = commands_in_turn(trace);
    let mut next = from;
    while next.at < commands.len() && !trace.has_part(next.at, shard) {
        next = past(trace, next);
    }
    next
}
