//! What is done with what a mode works on: a run on shards that is reported or summed up, or a store of the mode's own.
ghost use Rattle.std.specs.Prelude.{◌≡◌};
ghost use Rattle.layout.specs.Counts.{Rose};
ghost use Rattle.layout.specs.Sizes.{ArePages};
ghost use Rattle.trace_text.specs.Parsed.{trace_in};
ghost use Rattle.cache_model.specs.Report.{IsReportOf};
ghost use Rattle.cache_model.specs.Summary.{IsSummaryOf};
ghost use Rattle.value_script.specs.Script.{script_in};
ghost use Rattle.dirty_mode.specs.DirtyText.{dirty_text};
ghost use Rattle.index_mode.specs.IndexText.{index_text};
ghost use Rattle.values_mode.specs.Text.{values_text};
ghost use Rattle.settings.specs.Settings.{view};
ghost use Rattle.shard_node.specs.Nodes.{HasTablePages};
ghost use Rattle.shardcache.specs.Meanings.{Shown, Written};
ghost use Rattle.shardcache.specs.inside.Ending.{EndsInput};

use crate::asked::Asked;
use crate::outcome::Outcome;
use crate::printing::{report_run, summarize_run, written_or_fault};
use crate::status::Status;
use dirty_mode::run_dirty;
use index_mode::run_index;
use outside::Sink;
use report_text::Texts;
use settings::Settings;
use shard_node::Gates;
use std::alloc::Global;
use std::sync::Wait;
use std::thread::Threads;
use trace_run::{Order, run_trace};
use trace_text::Trace;
use value_script::Script;
use values_mode::run_values;

/// Runs a trace on its shards in this order of turns, and writes the report.
pub(crate) fn report_shards<R, K, G>(
    rt: &R,
    alloc: Global,
    asked: &Asked<'_>,
    order: Order,
    sink: &mut K,
    gates: &G,
) -> Outcome
where
    R: Threads + Wait + Sync,
    K: Sink,
    G: Gates,
    requires pages { ArePages asked.now.settings.pages }
    requires tables { HasTablePages (trace_in asked.now.trace.now) asked.now.settings.pages }
    ensures ending { EndsInput (Shown IsReportOf) (view asked.now.settings) (trace_in asked.now.trace.now)
        result.status result.ran (K.written sink.old) (K.written sink.new) }
    ensures fault { result.status ≡ Status.WriteFault → Rose (K.faults sink.old) (K.faults sink.new) }
{
    let (settings, trace) = (asked.settings, asked.trace);
    // From the first turn on no memory is taken, so that of the text is taken here.
    let Ok(mut texts) = Texts::new(alloc, settings.threads(), trace) else {
        return Outcome::without_run(Status::Memory);
    };
    match run_trace(rt, alloc, trace, settings.pages, order, gates) {
        Ok(ran) => Outcome {
            status: report_run(rt, &mut texts, sink, asked, &ran),
            ran: Some(ran),
        },
        Err(_) => Outcome::without_run(Status::Memory),
    }
}

/// Runs a trace on its shards in an order that is drawn from the number, and writes the summary.
pub(crate) fn summarize_shards<R, K, G>(
    rt: &R,
    alloc: Global,
    asked: &Asked<'_>,
    sink: &mut K,
    gates: &G,
) -> Outcome
where
    R: Threads + Wait + Sync,
    K: Sink,
    G: Gates,
    requires pages { ArePages asked.now.settings.pages }
    requires tables { HasTablePages (trace_in asked.now.trace.now) asked.now.settings.pages }
    ensures ending { EndsInput (Shown IsSummaryOf) (view asked.now.settings) (trace_in asked.now.trace.now)
        result.status result.ran (K.written sink.old) (K.written sink.new) }
    ensures fault { result.status ≡ Status.WriteFault → Rose (K.faults sink.old) (K.faults sink.new) }
{
    let (settings, trace) = (asked.settings, asked.trace);
    let order = Order::Numbered(settings.number);
    let Ok(ran) = run_trace(rt, alloc, trace, settings.pages, order, gates) else {
        return Outcome::without_run(Status::Memory);
    };
    let status = summarize_run(sink, asked, &ran);
    Outcome {
        status,
        ran: Some(ran),
    }
}

/// Keeps the puts of a trace in a queue until they are flushed, and writes what came of it.
pub(crate) fn flush_puts<K: Sink>(
    alloc: Global,
    settings: Settings,
    trace: &Trace,
    sink: &mut K,
) -> Outcome
    requires pages { ArePages settings.pages }
    ensures ending { EndsInput (Written dirty_text) (view settings) (trace_in trace.now)
        result.status result.ran (K.written sink.old) (K.written sink.new) }
    ensures fault { result.status ≡ Status.WriteFault → Rose (K.faults sink.old) (K.faults sink.new) }
{
    match run_dirty(alloc, trace, settings.pages, sink) {
        Ok(written) => Outcome::without_run(written_or_fault(written)),
        Err(_) => Outcome::without_run(Status::Memory),
    }
}

/// Numbers the keys of a trace in an index, and writes what came of it.
pub(crate) fn number_keys<K: Sink>(
    alloc: Global,
    settings: Settings,
    trace: &Trace,
    sink: &mut K,
) -> Outcome
    requires pages { ArePages settings.pages }
    ensures ending { EndsInput (Written index_text) (view settings) (trace_in trace.now)
        result.status result.ran (K.written sink.old) (K.written sink.new) }
    ensures fault { result.status ≡ Status.WriteFault → Rose (K.faults sink.old) (K.faults sink.new) }
{
    match run_index(alloc, trace, settings.pages, sink) {
        Ok(written) => Outcome::without_run(written_or_fault(written)),
        Err(_) => Outcome::without_run(Status::Memory),
    }
}

/// Runs a script on a store of long values, and writes what came of it.
pub(crate) fn keep_values<K: Sink>(
    alloc: Global,
    settings: Settings,
    script: &Script,
    sink: &mut K,
) -> Outcome
    requires pages { ArePages settings.pages }
    ensures ending { EndsInput (Written values_text) (view settings) (script_in script.now)
        result.status result.ran (K.written sink.old) (K.written sink.new) }
    ensures fault { result.status ≡ Status.WriteFault → Rose (K.faults sink.old) (K.faults sink.new) }
{
    match run_values(alloc, script, settings.pages, sink) {
        Ok(written) => Outcome::without_run(written_or_fault(written)),
        Err(_) => Outcome::without_run(Status::Memory),
    }
}
