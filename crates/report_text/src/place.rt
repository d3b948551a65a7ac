//! Where the replies to a command stand.
ghost use Rattle.std.specs.Prelude.{◌≡◌, ◌+◌, ◌^◌, ◌<◌, ◌≤◌, ℕ, List, length, slice_index, slice_set};
ghost use Rattle.std.specs.List.{slice_index_or};
ghost use Rattle.trace_text.specs.Operation.{operation};
ghost use Rattle.trace_text.specs.Parsed.{trace_in};
ghost use Rattle.trace_text.specs.Parts.{longest_value, most_shards, origin};
ghost use Rattle.trace_text.specs.declared.command.Command.{Command as TraceCommand};
ghost use Rattle.rows.specs.Apply.{Reply};
ghost use Rattle.cache_model.specs.Logged.{AreLogged};
ghost use Rattle.cache_model.specs.ReadOff.{IsRead};
ghost use Rattle.report_text.specs.Views.{replies_in};
ghost use Rattle.report_text.specs.inside.Places.{ArePlaces};

use run_log::ReplyLog;
use trace_text::{Command, MOST_SHARDS, Trace, origin_of};

/// The number of the next part of each shard, while the commands are gone over in order.
pub(crate) type Places = [u32; MOST_SHARDS as usize];

/// The number of the first part of a command in its origin's log. The next command of that origin comes behind its parts.
fn take_place(places: &mut Places, origin: u32, parts: u32) -> u32
    requires origin { origin < most_shards }
    requires small { slice_index places.old origin + parts < 2 ^ 32 }
    ensures first { result ≡ slice_index places.old origin }
    ensures next { places.new ≡ slice_set places.old origin (result + parts) }
{
    let place = &mut places[origin as usize];
    let first = *place;
    *place += parts;
    first
}

/// The log that has the replies to the command at this index, and the number of the first of them there. The places go
/// on to the next command.
pub(crate) fn next_replies<'l>(
    places: &mut Places,
    trace: &Trace,
    index: usize,
    logs: &'l [ReplyLog],
) -> (&'l ReplyLog, u32)
    requires index { index < length trace.now.commands }
    requires places { ArePlaces (trace_in trace.now) trace.now.shards index places.old }
    requires one_log_each { length logs.now ≡ trace.now.shards }
    ensures places_behind { ArePlaces (trace_in trace.now) trace.now.shards (index + 1) places.new }
    ensures read { (answers : List (ℕ × Reply)) (d : TraceCommand) (e : ℕ × Reply)
        → AreLogged (trace_in trace.now) trace.now.shards (replies_in logs.now) answers
        → IsRead (longest_value (trace_in trace.now)) trace.now.shards (operation trace.now.bytes
        (slice_index_or trace.now.commands index d))
        result.0.now.replies result.1 (slice_index_or answers index e) }
    ensures small { result.1 + trace.now.shards < 2 ^ 32 }
{
    let command = &trace.commands()[index];
    let shards = logs.len() as u32;
    let origin = origin_of(command.number, shards);
    let first = take_place(places, origin, command.kind.parts(shards));
    (&logs[origin as usize], first)
}
