//! What is written of a run: its report or its summary; and of what is refused, a line that says why.
ghost use Rattle.std.specs.Prelude.{◌≡◌, ◌≢◌, ◌⊎◌, ℕ, List, All, OnOk, OnErr, Some};
ghost use Rattle.layout.specs.Counts.{Rose};
ghost use Rattle.cache_model.specs.Report.{IsReportOf, report};
ghost use Rattle.cache_model.specs.Summary.{IsSummaryOf, summary};
ghost use Rattle.run_log.specs.Runs.{IsFinished, journals_in};
ghost use Rattle.trace_text.specs.Parsed.{IsWellFormed, trace_in};
ghost use Rattle.value_script.specs.Reading as script_refusal;
ghost use Rattle.settings.specs.Settings.{view};
ghost use Rattle.shardcache.specs.Meanings.{Shown};
ghost use Rattle.shardcache.specs.TraceFor.{AtLine, Own, TooLong, Unfit, refusal_text, refused_line, script_refusal_text};
ghost use Rattle.shardcache.specs.inside.Ending.{EndsOutput, EndsWith};

use crate::asked::Asked;
use crate::misfit::Misfit;
use crate::status::Status;
use outside::{Failed, Sink, write_all};
use report_text::{Texts, write_report_on, write_summary};
use shard_node::Ran;
use std::alloc::Global;
use std::thread::Threads;
use trace_text::Cause;
use value_script::Cause as ScriptCause;

/// Writes a text to its end, and answers this status, or that the sink failed.
pub(crate) fn write_line<K: Sink>(sink: &mut K, text: &[u8], status: Status) -> Status
    ensures written { EndsWith result status (K.written sink.old) (K.written sink.new) text.now }
    ensures cases { (result ≡ status) ⊎ (result ≡ Status.WriteFault) }
    ensures fault { status ≢ Status.WriteFault → result ≡ Status.WriteFault → Rose (K.faults sink.old) (K.faults sink.new) }
{
    match write_all(sink, text) {
        Ok(()) => status,
        Err(_) => Status::WriteFault,
    }
}

/// Writes that a line is refused: its number, and the name of the cause.
pub(crate) fn refuse_line<K: Sink>(alloc: Global, sink: &mut K, line: u32, cause: &str) -> Status
    ensures written { EndsWith result Status.Refused (K.written sink.old) (K.written sink.new) (refused_line line cause.now) }
    ensures cases { (result ≡ Status.Refused) ⊎ ((result ≡ Status.WriteFault) ⊎ (result ≡ Status.Memory)) }
    ensures fault { result ≡ Status.WriteFault → Rose (K.faults sink.old) (K.faults sink.new) }
{
    let Ok(text) = format!(in alloc; "refused line {line} {cause}\n") else {
        return Status::Memory;
    };
    write_line(sink, text.as_bytes(), Status::Refused)
}

/// Writes that a trace is refused: the line, and the cause.
pub(crate) fn refuse<K: Sink>(alloc: Global, sink: &mut K, line: u32, cause: Cause) -> Status
    ensures written { EndsWith result Status.Refused (K.written sink.old) (K.written sink.new) (refusal_text (AtLine line (Own cause))) }
    ensures cases { (result ≡ Status.Refused) ⊎ ((result ≡ Status.WriteFault) ⊎ (result ≡ Status.Memory)) }
    ensures fault { result ≡ Status.WriteFault → Rose (K.faults sink.old) (K.faults sink.new) }
{
    refuse_line(alloc, sink, line, cause.name())
}

/// Writes that a trace is refused that these settings don't run.
pub(crate) fn refuse_unfit<K: Sink>(alloc: Global, sink: &mut K, misfit: Misfit) -> Status
    ensures written { EndsWith result Status.Refused (K.written sink.old) (K.written sink.new) (refusal_text (AtLine 1 (Unfit misfit))) }
    ensures cases { (result ≡ Status.Refused) ⊎ ((result ≡ Status.WriteFault) ⊎ (result ≡ Status.Memory)) }
    ensures fault { result ≡ Status.WriteFault → Rose (K.faults sink.old) (K.faults sink.new) }
{
    refuse_line(alloc, sink, 1, misfit.name())
}

/// Writes that a script is refused: the line, and the cause.
pub(crate) fn refuse_script<K: Sink>(
    alloc: Global,
    sink: &mut K,
    line: u32,
    cause: ScriptCause,
) -> Status
    ensures written { EndsWith result Status.Refused (K.written sink.old) (K.written sink.new)
        (script_refusal_text (script_refusal.AtLine line cause)) }
    ensures cases { (result ≡ Status.Refused) ⊎ ((result ≡ Status.WriteFault) ⊎ (result ≡ Status.Memory)) }
    ensures fault { result ≡ Status.WriteFault → Rose (K.faults sink.old) (K.faults sink.new) }
{
    refuse_line(alloc, sink, line, cause.name())
}

/// Writes the text of a report, made in these texts.
fn print_report<R: Threads + Sync, K: Sink>(
    rt: &R,
    texts: &mut Texts,
    sink: &mut K,
    asked: &Asked<'_>,
    ran: &Ran,
) -> Status
    requires run { IsFinished (trace_in asked.now.trace.now) asked.now.trace.now.shards asked.now.settings.pages ran.now }
    ensures written { EndsOutput result (K.written sink.old) (K.written sink.new)
        (report (trace_in asked.now.trace.now) asked.now.trace.now.shards asked.now.settings.pages (journals_in ran.now.journals)) }
    ensures fault { result ≡ Status.WriteFault → Rose (K.faults sink.old) (K.faults sink.new) }
{
    let written = write_report_on(
        rt,
        texts,
        asked.settings.threads(),
        sink,
        asked.trace,
        ran.logs(),
        ran.journals(),
        ran.lines(),
    );
    written_or_fault(written)
}

/// Writes the text of a summary.
fn print_summary<K: Sink>(sink: &mut K, asked: &Asked<'_>, ran: &Ran) -> Status
    requires run { IsFinished (trace_in asked.now.trace.now) asked.now.settings.shards asked.now.settings.pages ran.now }
    ensures written { EndsOutput result (K.written sink.old) (K.written sink.new)
        (summary (trace_in asked.now.trace.now) asked.now.settings.shards asked.now.settings.pages (journals_in ran.now.journals)) }
    ensures fault { result ≡ Status.WriteFault → Rose (K.faults sink.old) (K.faults sink.new) }
{
    let written = write_summary(
        sink,
        asked.trace,
        asked.settings.shards,
        ran.logs(),
        ran.journals(),
        ran.lines(),
    );
    written_or_fault(written)
}

/// Writes the report of what the shards did, made in these texts.
pub(crate) fn report_run<R: Threads + Sync, K: Sink>(
    rt: &R,
    texts: &mut Texts,
    sink: &mut K,
    asked: &Asked<'_>,
    ran: &Ran,
) -> Status
    requires run { IsFinished (trace_in asked.now.trace.now) asked.now.trace.now.shards asked.now.settings.pages ran.now }
    requires well_formed { All IsWellFormed (trace_in asked.now.trace.now).operations }
    ensures written { (text : List ℕ)
        × Shown IsReportOf (view asked.now.settings) (trace_in asked.now.trace.now) (Some ran.now) text
        × EndsOutput result (K.written sink.old) (K.written sink.new) text }
    ensures fault { result ≡ Status.WriteFault → Rose (K.faults sink.old) (K.faults sink.new) }
{
    print_report(rt, texts, sink, asked, ran)
}

/// Writes the summary of what the shards did.
pub(crate) fn summarize_run<K: Sink>(sink: &mut K, asked: &Asked<'_>, ran: &Ran) -> Status
    requires run { IsFinished (trace_in asked.now.trace.now) asked.now.trace.now.shards asked.now.settings.pages ran.now }
    ensures written { (text : List ℕ)
        × Shown IsSummaryOf (view asked.now.settings) (trace_in asked.now.trace.now) (Some ran.now) text
        × EndsOutput result (K.written sink.old) (K.written sink.new) text }
    ensures fault { result ≡ Status.WriteFault → Rose (K.faults sink.old) (K.faults sink.new) }
{
    print_summary(sink, asked, ran)
}

/// The status of a call that wrote a whole text, or met a fault of the sink.
pub(crate) fn written_or_fault(written: Result<(), Failed>) -> Status
    ensures done { OnOk written (result ≡ Status.Done) }
    ensures fault { OnErr written (result ≡ Status.WriteFault) }
{
    match written {
        Ok(()) => Status::Done,
        Err(_) => Status::WriteFault,
    }
}

/// Writes that a trace or a script is too long.
pub(crate) fn too_long<K: Sink>(sink: &mut K) -> Status
    ensures written { EndsWith result Status.Refused (K.written sink.old) (K.written sink.new) (refusal_text TooLong) }
    ensures cases { (result ≡ Status.Refused) ⊎ (result ≡ Status.WriteFault) }
    ensures fault { result ≡ Status.WriteFault → Rose (K.faults sink.old) (K.faults sink.new) }
{
    write_line(sink, b"refused line 0 TooLong\n", Status::Refused)
}
