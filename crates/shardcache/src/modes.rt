//! What the modes do, on a call with gates.
ghost use Rattle.std.specs.Prelude.{◌≡◌, ◌⊎◌, ◌≤◌, true, false, ℕ, List, Option, map, string_bytes, None, Some};
ghost use Rattle.layout.specs.Counts.{Rose};
ghost use Rattle.layout.specs.Sizes.{ArePages};
ghost use Rattle.trace_text.specs.Parts.{most_shards};
ghost use Rattle.settings.specs.Settings.{Settings as Wanted, most_made_commands, settings as settings_of, view};
ghost use Rattle.shardcache.specs.Meanings.{is_accepted, meaning_of};
ghost use Rattle.shardcache.specs.Table.{FollowsTable};
ghost use Rattle.shardcache.specs.inside.Ending.{EndsCall};
ghost use Rattle.settings.specs.declared.settings.mode.Mode.{Mode as Modes};

use crate::asked::Asked;
use crate::auditing::{check_report, read_audit};
use crate::outcome::Outcome;
use crate::printing::write_line;
use crate::reading::{make_trace_of, read_script, read_trace};
use crate::running::{flush_puts, keep_values, number_keys, report_shards, summarize_shards};
use crate::status::Status;
use outside::{Sink, Source};
use settings::{Mode, Settings, settings_of};
use shard_node::Gates;
use std::alloc::Global;
use std::sync::Wait;
use std::thread::Threads;
use trace_run::Order;

/// Reads a trace, runs it with its shards in this order of turns, and writes the report.
fn report_trace<R, S, K, G>(
    rt: &R,
    alloc: Global,
    settings: Settings,
    order: Order,
    source: &mut S,
    sink: &mut K,
    gates: &G,
) -> Outcome
where
    R: Threads + Wait + Sync,
    S: Source,
    K: Sink,
    G: Gates,
    requires some { 1 ≤ settings.shards }
    requires most { settings.shards ≤ most_shards }
    requires pages { ArePages settings.pages }
    ensures ending { EndsCall (meaning_of Modes.Run) (Rose (S.faults source.old) (S.faults source.new)) (view settings)
        result.status result.ran (S.left source.old) (S.left source.new) (K.written sink.old) (K.written sink.new) }
    ensures fault { result.status ≡ Status.WriteFault → Rose (K.faults sink.old) (K.faults sink.new) }
{
    match read_trace(rt, alloc, settings, source, sink) {
        Ok(trace) => {
            let asked = Asked {
                settings,
                trace: &trace,
            };
            report_shards(rt, alloc, &asked, order, sink, gates)
        }
        Err(answered) => Outcome::without_run(answered),
    }
}

/// Makes a trace, runs it, and writes the summary.
fn summarize_made<R, K, G>(
    rt: &R,
    alloc: Global,
    settings: Settings,
    sink: &mut K,
    gates: &G,
) -> Outcome
where
    R: Threads + Wait + Sync,
    K: Sink,
    G: Gates,
    requires commands { settings.commands ≤ most_made_commands }
    requires some { 1 ≤ settings.shards }
    requires most { settings.shards ≤ most_shards }
    requires pages { ArePages settings.pages }
    // Whatever a source has, and its faults were.
    ensures ending { (source : Option (List ℕ)) (before after : ℕ)
        → EndsCall (meaning_of Modes.Gen) (Rose before after) (view settings) result.status result.ran source source
        (K.written sink.old) (K.written sink.new) }

    // Only the sink can fail.
    ensures fault { result.status ≡ Status.WriteFault → Rose (K.faults sink.old) (K.faults sink.new) }
{
    match make_trace_of(rt, alloc, settings, sink) {
        Ok(trace) => {
            let asked = Asked {
                settings,
                trace: &trace,
            };
            summarize_shards(rt, alloc, &asked, sink, gates)
        }
        Err(answered) => Outcome::without_run(answered),
    }
}

/// Reads a trace, keeps its puts in a queue until they are flushed, and writes what came of it.
fn flush_trace<R, S, K>(
    rt: &R,
    alloc: Global,
    settings: Settings,
    source: &mut S,
    sink: &mut K,
) -> Outcome
where
    R: Threads + Sync,
    S: Source,
    K: Sink,
    requires some { 1 ≤ settings.shards }
    requires most { settings.shards ≤ most_shards }
    requires pages { ArePages settings.pages }
    ensures ending { EndsCall (meaning_of Modes.Dirty) (Rose (S.faults source.old) (S.faults source.new)) (view settings)
        result.status result.ran (S.left source.old) (S.left source.new) (K.written sink.old) (K.written sink.new) }
    ensures fault { result.status ≡ Status.WriteFault → Rose (K.faults sink.old) (K.faults sink.new) }
{
    match read_trace(rt, alloc, settings, source, sink) {
        Ok(trace) => flush_puts(alloc, settings, &trace, sink),
        Err(answered) => Outcome::without_run(answered),
    }
}

/// Reads a trace, numbers its keys in an index, and writes what came of it.
fn number_trace<R, S, K>(
    rt: &R,
    alloc: Global,
    settings: Settings,
    source: &mut S,
    sink: &mut K,
) -> Outcome
where
    R: Threads + Sync,
    S: Source,
    K: Sink,
    requires some { 1 ≤ settings.shards }
    requires most { settings.shards ≤ most_shards }
    requires pages { ArePages settings.pages }
    ensures ending { EndsCall (meaning_of Modes.Index) (Rose (S.faults source.old) (S.faults source.new)) (view settings)
        result.status result.ran (S.left source.old) (S.left source.new) (K.written sink.old) (K.written sink.new) }
    ensures fault { result.status ≡ Status.WriteFault → Rose (K.faults sink.old) (K.faults sink.new) }
{
    match read_trace(rt, alloc, settings, source, sink) {
        Ok(trace) => number_keys(alloc, settings, &trace, sink),
        Err(answered) => Outcome::without_run(answered),
    }
}

/// Reads a script, runs it on a store of long values, and writes what came of it.
fn play_script<S: Source, K: Sink>(
    alloc: Global,
    settings: Settings,
    source: &mut S,
    sink: &mut K,
) -> Outcome
    requires pages { ArePages settings.pages }
    ensures ending { EndsCall (meaning_of Modes.Values) (Rose (S.faults source.old) (S.faults source.new)) (view settings)
        result.status result.ran (S.left source.old) (S.left source.new) (K.written sink.old) (K.written sink.new) }
    ensures fault { result.status ≡ Status.WriteFault → Rose (K.faults sink.old) (K.faults sink.new) }
{
    match read_script(alloc, source, sink) {
        Ok(script) => keep_values(alloc, settings, &script, sink),
        Err(answered) => Outcome::without_run(answered),
    }
}

/// Reads a trace and what may be its report, checks it, and writes the verdict.
fn audit_report<R, S, K>(
    rt: &R,
    alloc: Global,
    settings: Settings,
    source: &mut S,
    sink: &mut K,
) -> Outcome
where
    R: Threads + Sync,
    S: Source,
    K: Sink,
    requires some { 1 ≤ settings.shards }
    requires most { settings.shards ≤ most_shards }
    requires pages { ArePages settings.pages }
    ensures ending { EndsCall (meaning_of Modes.Audit) (Rose (S.faults source.old) (S.faults source.new)) (view settings)
        result.status result.ran (S.left source.old) (S.left source.new) (K.written sink.old) (K.written sink.new) }
    ensures fault { result.status ≡ Status.WriteFault → Rose (K.faults sink.old) (K.faults sink.new) }
{
    match read_audit(rt, alloc, settings, source, sink) {
        Ok(framed) => check_report(alloc, settings, &framed, sink),
        Err(answered) => Outcome::without_run(answered),
    }
}

/// Does what the mode asks.
fn run_mode<R, S, K, G>(
    rt: &R,
    alloc: Global,
    settings: Settings,
    source: &mut S,
    sink: &mut K,
    gates: &G,
) -> Outcome
where
    R: Threads + Wait + Sync,
    S: Source,
    K: Sink,
    G: Gates,
    requires commands { settings.commands ≤ most_made_commands }
    requires some { 1 ≤ settings.shards }
    requires most { settings.shards ≤ most_shards }
    requires pages { ArePages settings.pages }
    ensures ending { EndsCall (meaning_of settings.mode) (Rose (S.faults source.old) (S.faults source.new)) (view settings)
        result.status result.ran (S.left source.old) (S.left source.new) (K.written sink.old) (K.written sink.new) }
    ensures fault { result.status ≡ Status.WriteFault → Rose (K.faults sink.old) (K.faults sink.new) }
{
    match settings.mode {
        Mode::Run => report_trace(rt, alloc, settings, Order::Threads, source, sink, gates),
        Mode::Sim => {
            let order = Order::Numbered(settings.number);
            report_trace(rt, alloc, settings, order, source, sink, gates)
        }
        Mode::Gen => summarize_made(rt, alloc, settings, sink, gates),
        Mode::Audit => audit_report(rt, alloc, settings, source, sink),
        Mode::Dirty => flush_trace(rt, alloc, settings, source, sink),
        Mode::Index => number_trace(rt, alloc, settings, source, sink),
        Mode::Values => play_script(alloc, settings, source, sink),
    }
}

/// Does what the program does, with gates of the caller's own: each shard asks its gate before it begins a command of its own. The
/// gates change the order of the shards' turns and nothing that is promised.
pub fn shardcache_gated<R, S, K, G>(
    rt: &R,
    alloc: Global,
    words: &[String],
    source: &mut S,
    sink: &mut K,
    gates: &G,
) -> Outcome
where
    R: Threads + Wait + Sync,
    S: Source,
    K: Sink,
    G: Gates,
    ensures headline { FollowsTable (Rose (S.faults source.old) (S.faults source.new)) result.status result.ran
        (map (λ word. string_bytes word) words.now) (S.left source.old) (S.left source.new) (K.written sink.old) (K.written sink.new) }
    ensures read_fault { result.status ≡ Status.ReadFault → Rose (S.faults source.old) (S.faults source.new) }
    ensures write_fault { result.status ≡ Status.WriteFault → Rose (K.faults sink.old) (K.faults sink.new) }
    ensures usage { settings_of (map (λ word. string_bytes word) words.now) ≡ None
        → (result.status ≡ Status.Usage) ⊎ ((result.status ≡ Status.WriteFault) ⊎ (result.status ≡ Status.Memory)) }

    // Where no fault rose, a trace is run and what is no trace for this mode is refused, unless memory runs out.
    ensures accepted { (bytes : List ℕ) (wanted : Wanted)
        → ((meaning_of wanted.mode).reading.reads ≡ true → S.left source.old ≡ Some bytes)
        → settings_of (map (λ word. string_bytes word) words.now) ≡ Some wanted
        → is_accepted (meaning_of wanted.mode).reading wanted bytes ≡ true
        → ¬ Rose (S.faults source.old) (S.faults source.new) → ¬ Rose (K.faults sink.old) (K.faults sink.new)
        → (result.status ≡ Status.Done) ⊎ (result.status ≡ Status.Memory) }
    ensures refused { (bytes : List ℕ) (wanted : Wanted)
        → ((meaning_of wanted.mode).reading.reads ≡ true → S.left source.old ≡ Some bytes)
        → settings_of (map (λ word. string_bytes word) words.now) ≡ Some wanted
        → is_accepted (meaning_of wanted.mode).reading wanted bytes ≡ false
        → ¬ Rose (S.faults source.old) (S.faults source.new) → ¬ Rose (K.faults sink.old) (K.faults sink.new)
        → (result.status ≡ Status.Refused) ⊎ (result.status ≡ Status.Memory) }
{
    let Ok(found) = settings_of(alloc, words) else {
        return Outcome::without_run(Status::Memory);
    };
    let Some(settings) = found else {
        return Outcome::without_run(write_line(sink, b"usage\n", Status::Usage));
    };
    run_mode(rt, alloc, settings, source, sink, gates)
}
