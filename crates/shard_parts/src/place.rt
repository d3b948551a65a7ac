//! Places among the commands of a trace, and the parts that a shard issues before them.
ghost use Rattle.std.specs.Prelude.{◌≡◌, ℕ, ◌+◌, ◌*◌, ◌<◌, ◌≤◌, ◌%◌, ◌^◌, length, slice_index_or, if◌then◌else◌};
ghost use Rattle.rows.specs.Operation.{Operation, is_scan};
ghost use Rattle.trace_text.specs.Parsed.{trace_in, IsConsistent};
ghost use Rattle.trace_text.specs.Parts.{most_shards};
ghost use Rattle.trace_text.specs.Reading.{most_commands};
ghost use Rattle.cache_model.specs.OwnParts.{parts_before};

use trace_text::{Command, Trace};

/// A place among the commands of a trace, and how many parts a shard issues for the commands before it.
#[derive(Clone, Copy)]
pub(crate) struct Place {
    pub(crate) at: usize,
    pub(crate) before: u32,
}

/// The place of the next command that the shard of the command at this place issues: as many further as there are shards.
pub(crate) fn past(trace: &Trace, place: Place) -> Place
    requires within { place.at < length trace.now.commands }
    requires at { place.at + trace.now.shards < 2 ^ 64 }
    requires before { place.before + trace.now.shards < 2 ^ 32 }
    ensures at { result.at ≡ place.at + trace.now.shards }
    ensures before { (d : Operation) → result.before ≡ place.before
        + (if is_scan (slice_index_or (trace_in trace.now).operations place.at d).kind then trace.now.shards else 1) }
{
    let shards = trace.shards();
    Place {
        at: place.at + shards as usize,
        before: place.before + if trace.is_scan(place.at) { shards } else { 1 },
    }
}

/// The commands of a trace. The shards issue them in turn: so it is known how many parts one issues before its first command, and
/// from there on, round by round.
pub(crate) fn commands_in_turn(trace: &Trace) -> &[Command]
    // The commands, and what holds of each trace.
    ensures value { result.now ≡ trace.now.commands }
    ensures consistent { IsConsistent trace.now }
    ensures few { length result.now ≤ most_commands }
    ensures some_shards { 1 ≤ trace.now.shards }
    ensures most_shards { trace.now.shards ≤ most_shards }

    // The parts that a shard issues.
    ensures first { (o : ℕ) → o < trace.now.shards → parts_before (trace_in trace.now) trace.now.shards o o ≡ 0 }
    ensures next { (o at : ℕ) (d : Operation) → at % trace.now.shards ≡ o → at < length trace.now.commands
        → parts_before (trace_in trace.now) trace.now.shards o (at + trace.now.shards)
        ≡ parts_before (trace_in trace.now) trace.now.shards o at + (if is_scan
        (slice_index_or (trace_in trace.now).operations at d).kind then trace.now.shards else 1) }
    ensures most { (o at : ℕ) → at < length trace.now.commands
        → parts_before (trace_in trace.now) trace.now.shards o at + trace.now.shards ≤ most_commands * most_shards }
{
    trace.commands()
}
