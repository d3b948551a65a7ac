//! The top call.
ghost use Rattle.std.specs.Prelude.{◌≡◌, ◌⊎◌, true, false, ℕ, List, map, string_bytes, None, Some};
ghost use Rattle.layout.specs.Counts.{Rose};
ghost use Rattle.settings.specs.Settings.{Settings as Wanted, settings as settings_of};
ghost use Rattle.shardcache.specs.declared.status.Status.{Status};
ghost use Rattle.shardcache.specs.Meanings.{is_accepted, meaning_of};
ghost use Rattle.shardcache.specs.Table.{FollowsTable};

use crate::modes::shardcache_gated;
use crate::outcome::Outcome;
use outside::{Sink, Source};
use shard_node::OpenGates;
use std::alloc::Global;
use std::sync::Wait;
use std::thread::Threads;

/// The program: takes a trace as the words ask, runs it on its shards, and writes what came of it to the sink. Everything that
/// the program prints goes there.
///
/// | Mode | Work |
/// |---|---|
/// | `run` | reads the trace, runs it with each shard on a thread of its own, writes the report |
/// | `sim` | reads the trace, runs it on one thread with the shards in an order that is drawn from `--number`, writes the report |
/// | `gen` | makes a trace of `--commands` commands from `--number`, runs it as `sim` does, writes the summary; reads nothing |
/// | `audit` | reads a trace behind its length and a report behind that, checks the report, writes the verdict |
/// | `dirty` | reads a trace, keeps its puts in a queue until they are flushed, writes the lines that leave it and the answers |
/// | `index` | reads a trace, sets the number of each put under its key in an index, writes the answers |
/// | `values` | reads a script, runs it on a store of long values in fragments, writes the answers |
///
/// | Status | What is written |
/// |---|---|
/// | `Done` | the report or the summary of legal and complete journals, those of `ran`, the record of the run; or another mode's text |
/// | `Usage` | `usage`, exactly where the words ask for nothing that the program does; nothing was read |
/// | `Refused` | `refused line L CAUSE`, exactly where what was read or made is no trace, script or audit, or a trace that is not run so |
/// | `ReadFault` | `read fault`, only where the source failed |
/// | `WriteFault` | a front of what should have been written, only where the sink failed |
/// | `Memory` | nothing, where memory ran out |
///
/// The headline is the first row of the clause's table, `specs/Table.antt`; what each mode means stands in `specs/Meanings.antt`.
pub fn shardcache<R, S, K>(
    rt: &R,
    alloc: Global,
    words: &[String],
    source: &mut S,
    sink: &mut K,
) -> Outcome
where
    R: Threads + Wait + Sync,
    S: Source,
    K: Sink,
    ensures headline { FollowsTable (Rose (S.faults source.old) (S.faults source.new)) result.status result.ran
        (map (λ word. string_bytes word) words.now) (S.left source.old) (S.left source.new) (K.written sink.old) (K.written sink.new) }
    ensures read_fault { result.status ≡ Status.ReadFault → Rose (S.faults source.old) (S.faults source.new) }
    ensures write_fault { result.status ≡ Status.WriteFault → Rose (K.faults sink.old) (K.faults sink.new) }
    ensures usage { settings_of (map (λ word. string_bytes word) words.now) ≡ None
        → (result.status ≡ Status.Usage) ⊎ ((result.status ≡ Status.WriteFault) ⊎ (result.status ≡ Status.Memory)) }

    // Where no fault rose, a trace is run and what is no trace for this mode is refused, unless memory runs out.
    ensures accepted { (bytes : List ℕ) (wanted : Wanted)
        → ((meaning_of wanted.mode).reading.reads ≡ true → S.left source.old ≡ Some bytes)
        → settings_of (map (λ word. string_bytes word) words.now) ≡ Some wanted
        → is_accepted (meaning_of wanted.mode).reading wanted bytes ≡ true
        → ¬ Rose (S.faults source.old) (S.faults source.new) → ¬ Rose (K.faults sink.old) (K.faults sink.new)
        → (result.status ≡ Status.Done) ⊎ (result.status ≡ Status.Memory) }
    ensures refused { (bytes : List ℕ) (wanted : Wanted)
        → ((meaning_of wanted.mode).reading.reads ≡ true → S.left source.old ≡ Some bytes)
        → settings_of (map (λ word. string_bytes word) words.now) ≡ Some wanted
        → is_accepted (meaning_of wanted.mode).reading wanted bytes ≡ false
        → ¬ Rose (S.faults source.old) (S.faults source.new) → ¬ Rose (K.faults sink.old) (K.faults sink.new)
        → (result.status ≡ Status.Refused) ⊎ (result.status ≡ Status.Memory) }
{
    shardcache_gated(rt, alloc, words, source, sink, &OpenGates)
}
