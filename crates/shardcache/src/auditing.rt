//! A report that is checked against its trace.
ghost use Rattle.std.specs.Prelude.{◌≡◌, ◌≤◌, length, IfErr, IfOk, OnOk, Ok};
ghost use Rattle.layout.specs.Counts.{Rose};
ghost use Rattle.layout.specs.Sizes.{ArePages};
ghost use Rattle.trace_text.specs.Parsed.{trace_in};
ghost use Rattle.trace_text.specs.Parts.{most_shards};
ghost use Rattle.settings.specs.Settings.{view};
ghost use Rattle.shard_node.specs.Nodes.{HasTablePages};
ghost use Rattle.shardcache.specs.Audits.{Audited, audit_for};
ghost use Rattle.shardcache.specs.Meanings.{audit_read};
ghost use Rattle.shardcache.specs.TraceFor.{trace_for};
ghost use Rattle.shardcache.specs.inside.Ending.{EndsInput, RefusesAudit, RefusesTrace, Stops, Takes};
ghost use Rattle.shardcache.specs.inside.Framed.{audit_of};

use crate::outcome::Outcome;
use crate::printing::{too_long, write_line, written_or_fault};
use crate::reading::{parse_trace, read_bytes};
use crate::status::Status;
use layout::MOST_TRACE_BYTES;
use outside::{ReadStop, Sink, Source};
use report_check::{check, frame, write_verdict};
use settings::Settings;
use std::alloc::Global;
use std::thread::Threads;
use trace_text::Trace;

/// A trace, and what may be its report.
#[derive(Drop)]
pub(crate) struct Framed {
    pub(crate) trace: Trace,
    pub(crate) report: Vec<u8>,
}

/// Takes the bytes behind a length for a trace that the settings run, and keeps a copy of what may be its report.
///
/// # Errors
/// How the call ends: the refusal was written, or memory ran out.
fn parse_framed<R: Threads + Sync, K: Sink>(
    rt: &R,
    alloc: Global,
    settings: Settings,
    trace: &[u8],
    report: &[u8],
    sink: &mut K,
) -> Result<Framed, Status>
    requires short { length trace.now ≤ MOST_TRACE_BYTES }
    requires some { 1 ≤ settings.shards }
    requires most { settings.shards ≤ most_shards }
    ensures read { IfOk result (λ framed. trace_for (view settings) trace.now ≡ Ok (trace_in framed.trace)) }
    ensures report { IfOk result (λ framed. framed.report.items ≡ report.now) }
    ensures shards { IfOk result (λ framed. settings.shards ≡ framed.trace.shards) }
    ensures tables { IfOk result (λ framed. HasTablePages (trace_in framed.trace) settings.pages) }
    ensures quiet { OnOk result (sink.new ≡ sink.old) }
    ensures refused { IfErr result (λ answered.
        RefusesTrace (view settings) trace.now answered (K.written sink.old) (K.written sink.new)) }
    ensures fault { IfErr result (λ answered. answered ≡ Status.WriteFault → Rose (K.faults sink.old) (K.faults sink.new)) }
{
    let Ok(report) = Vec::from_slice(alloc, report) else {
        return Err(Status::Memory);
    };
    let Ok(bytes) = Vec::from_slice(alloc, trace) else {
        return Err(Status::Memory);
    };
    match parse_trace(rt, alloc, settings, bytes, sink) {
        Ok(trace) => Ok(Framed { trace, report }),
        Err(answered) => Err(answered),
    }
}

/// Takes these bytes for a trace behind its length, and its report behind that.
///
/// # Errors
/// How the call ends: the refusal was written, or memory ran out.
fn parse_audit<R: Threads + Sync, K: Sink>(
    rt: &R,
    alloc: Global,
    settings: Settings,
    bytes: &[u8],
    sink: &mut K,
) -> Result<Framed, Status>
    requires short { length bytes.now ≤ MOST_TRACE_BYTES }
    requires some { 1 ≤ settings.shards }
    requires most { settings.shards ≤ most_shards }
    ensures read { IfOk result (λ framed. audit_for (view settings) bytes.now ≡ Ok (audit_of framed)) }
    ensures short { IfOk result (λ framed. length framed.report.items ≤ MOST_TRACE_BYTES) }
    ensures shards { IfOk result (λ framed. settings.shards ≡ framed.trace.shards) }
    ensures tables { IfOk result (λ framed. HasTablePages (trace_in framed.trace) settings.pages) }
    ensures quiet { OnOk result (sink.new ≡ sink.old) }
    ensures refused { IfErr result (λ answered.
        RefusesAudit (view settings) bytes.now answered (K.written sink.old) (K.written sink.new)) }
    ensures fault { IfErr result (λ answered. answered ≡ Status.WriteFault → Rose (K.faults sink.old) (K.faults sink.new)) }
{
    match frame(bytes) {
        Some((trace, report)) => parse_framed(rt, alloc, settings, trace, report, sink),
        None => Err(write_line(sink, b"refused line 0 Frame\n", Status::Refused)),
    }
}

/// Reads a trace and what may be its report from the source to its end.
///
/// # Errors
/// How the call ends: the refusal or the fault was written, or memory ran out.
pub(crate) fn read_audit<R: Threads + Sync, S: Source, K: Sink>(
    rt: &R,
    alloc: Global,
    settings: Settings,
    source: &mut S,
    sink: &mut K,
) -> Result<Framed, Status>
    requires some { 1 ≤ settings.shards }
    requires most { settings.shards ≤ most_shards }
    ensures taken { IfOk result (λ framed.
        Takes audit_read (view settings) (S.left source.old) (S.left source.new) (audit_of framed)) }
    ensures short { IfOk result (λ framed. length framed.report.items ≤ MOST_TRACE_BYTES) }
    ensures shards { IfOk result (λ framed. settings.shards ≡ framed.trace.shards) }
    ensures tables { IfOk result (λ framed. HasTablePages (trace_in framed.trace) settings.pages) }
    ensures quiet { OnOk result (sink.new ≡ sink.old) }
    ensures stopped { IfErr result (λ answered. Stops audit_read (Rose (S.faults source.old) (S.faults source.new)) (view settings)
        answered (S.left source.old) (S.left source.new) (K.written sink.old) (K.written sink.new)) }
    ensures fault { IfErr result (λ answered. answered ≡ Status.WriteFault → Rose (K.faults sink.old) (K.faults sink.new)) }
{
    match read_bytes(alloc, source) {
        Ok(bytes) => parse_audit(rt, alloc, settings, bytes.as_slice(), sink),
        Err(ReadStop::Fault) => Err(write_line(sink, b"read fault\n", Status::ReadFault)),
        Err(ReadStop::TooLong) => Err(too_long(sink)),
        Err(ReadStop::Memory) => Err(Status::Memory),
    }
}

/// Checks a report, and writes the verdict.
pub(crate) fn check_report<K: Sink>(
    alloc: Global,
    settings: Settings,
    framed: &Framed,
    sink: &mut K,
) -> Outcome
    requires pages { ArePages settings.pages }
    requires tables { HasTablePages (trace_in framed.now.trace) settings.pages }
    requires shards { settings.shards ≡ framed.now.trace.shards }
    requires short { length framed.now.report.items ≤ MOST_TRACE_BYTES }
    ensures ending { EndsInput Audited (view settings) (audit_of framed.now)
        result.status result.ran (K.written sink.old) (K.written sink.new) }
    ensures fault { result.status ≡ Status.WriteFault → Rose (K.faults sink.old) (K.faults sink.new) }
{
    let report = framed.report.as_slice();
    match check(
        alloc,
        &framed.trace,
        settings.shards,
        settings.pages,
        report,
    ) {
        Ok(verdict) => Outcome::without_run(written_or_fault(write_verdict(sink, verdict))),
        Err(_) => Outcome::without_run(Status::Memory),
    }
}
