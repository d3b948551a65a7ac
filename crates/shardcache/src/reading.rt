//! What a mode works on: a trace or a script that is read, or a trace that is made. Where there is none, the call is over, and
//! what is to be written of that was.
ghost use Rattle.std.specs.Prelude.{◌≡◌, ◌≢◌, ◌+◌, ◌≤◌, ℕ, List, Option, Some, None, length, IfErr, IfOk, OnOk, Err, Ok};
ghost use Rattle.std.specs.Io.KnownBytes.{Consumes, IsAtEnd};
ghost use Rattle.outside.specs.Moves.{ConsumesExactly, ConsumesUpTo};
ghost use Rattle.layout.specs.Counts.{Rose};
ghost use Rattle.layout.specs.Sizes.{most_trace_bytes};
ghost use Rattle.trace_text.specs.Parsed.{trace_in};
ghost use Rattle.trace_text.specs.Parts.{most_shards};
ghost use Rattle.value_script.specs.Reading.{script_of};
ghost use Rattle.value_script.specs.Script.{script_in};
ghost use Rattle.settings.specs.Settings.{Settings as Wanted, most_made_commands, view};
ghost use Rattle.shardcache.specs.Meanings.{script_read, trace_made, trace_read};
ghost use Rattle.shard_node.specs.Nodes.{HasTablePages};
ghost use Rattle.shardcache.specs.declared.misfit.Misfit.{Misfit as Misfits};
ghost use Rattle.shardcache.specs.TraceFor.{AtLine, Unfit, misfit_of, refusal_text, trace_for};
ghost use Rattle.shardcache.specs.inside.Ending.{EndsWith, RefusesScript, RefusesTrace, Stops, Takes};

use crate::misfit::misfit_of;
use crate::printing::{refuse, refuse_script, refuse_unfit, too_long, write_line};
use crate::status::Status;
use layout::MOST_TRACE_BYTES;
use made_trace::make_trace;
use outside::{ReadStop, Sink, Source, read_all};
use settings::Settings;
use std::alloc::Global;
use std::thread::Threads;
use trace_text::{ParseRefusal, Trace, parse_on};
use value_script::{Script, ScriptRefusal, parse_script};

/// The bytes of a trace, of a script or of an audit's input: all that the source has, where it can have so many.
pub(crate) fn read_bytes<S: Source>(alloc: Global, source: &mut S) -> Result<Vec<u8>, ReadStop>
    ensures taken { IfOk result (λ bytes. Consumes (S.left source.old) (S.left source.new) bytes.items) }
    ensures at_end { OnOk result (IsAtEnd (S.left source.new)) }
    ensures within { IfOk result (λ bytes. length bytes.items ≤ most_trace_bytes) }
    ensures one_above { result ≡ Err ReadStop.TooLong → ConsumesExactly (S.left source.old) (S.left source.new) (most_trace_bytes + 1) }
    ensures no_more { result ≢ Err ReadStop.TooLong → ConsumesUpTo (S.left source.old) (S.left source.new) most_trace_bytes }
    ensures fault { result ≡ Err ReadStop.Fault → Rose (S.faults source.old) (S.faults source.new) }
{
    read_all(alloc, source, MOST_TRACE_BYTES)
}

/// Hands a trace on that the settings run.
///
/// # Errors
/// How the call ends: the refusal was written, or memory ran out.
fn keep_fit<K: Sink>(
    alloc: Global,
    settings: Settings,
    trace: Trace,
    sink: &mut K,
) -> Result<Trace, Status>
    ensures kept { IfOk result (λ kept. (kept ≡ trace) × (misfit_of settings.mode settings.pages (trace_in trace) ≡ None)) }
    ensures quiet { OnOk result (sink.new ≡ sink.old) }
    ensures refused { IfErr result (λ answered. (misfit : Misfits)
        × (misfit_of settings.mode settings.pages (trace_in trace) ≡ Some misfit)
        × EndsWith answered Status.Refused (K.written sink.old) (K.written sink.new) (refusal_text (AtLine 1 (Unfit misfit)))) }
    ensures fault { IfErr result (λ answered. answered ≡ Status.WriteFault → Rose (K.faults sink.old) (K.faults sink.new)) }
{
    match misfit_of(settings, &trace) {
        None => Ok(trace),
        Some(misfit) => Err(refuse_unfit(alloc, sink, misfit)),
    }
}

/// Takes these bytes for a trace that the settings run.
///
/// # Errors
/// How the call ends: the refusal was written, or memory ran out.
pub(crate) fn parse_trace<R: Threads + Sync, K: Sink>(
    rt: &R,
    alloc: Global,
    settings: Settings,
    bytes: Vec<u8>,
    sink: &mut K,
) -> Result<Trace, Status>
    requires short { length bytes.items ≤ MOST_TRACE_BYTES }
    requires some { 1 ≤ settings.shards }
    requires most { settings.shards ≤ most_shards }
    ensures read { IfOk result (λ trace. trace_for (view settings) bytes.items ≡ Ok (trace_in trace)) }
    ensures shards { IfOk result (λ trace. settings.shards ≡ trace.shards) }
    ensures tables { IfOk result (λ trace. HasTablePages (trace_in trace) settings.pages) }
    ensures quiet { OnOk result (sink.new ≡ sink.old) }
    ensures refused { IfErr result (λ answered.
        RefusesTrace (view settings) bytes.items answered (K.written sink.old) (K.written sink.new)) }
    ensures fault { IfErr result (λ answered. answered ≡ Status.WriteFault → Rose (K.faults sink.old) (K.faults sink.new)) }
{
    match parse_on(rt, alloc, settings.threads(), bytes, settings.shards) {
        Ok(trace) => keep_fit(alloc, settings, trace, sink),
        Err(ParseRefusal::Trace { line, cause }) => Err(refuse(alloc, sink, line, cause)),
        Err(ParseRefusal::Memory) => Err(Status::Memory),
    }
}

/// Reads a trace from the source to its end.
///
/// # Errors
/// How the call ends: the refusal or the fault was written, or memory ran out.
pub(crate) fn read_trace<R: Threads + Sync, S: Source, K: Sink>(
    rt: &R,
    alloc: Global,
    settings: Settings,
    source: &mut S,
    sink: &mut K,
) -> Result<Trace, Status>
    requires some { 1 ≤ settings.shards }
    requires most { settings.shards ≤ most_shards }
    ensures taken { IfOk result (λ trace.
        Takes trace_read (view settings) (S.left source.old) (S.left source.new) (trace_in trace)) }
    ensures shards { IfOk result (λ trace. settings.shards ≡ trace.shards) }
    ensures tables { IfOk result (λ trace. HasTablePages (trace_in trace) settings.pages) }
    ensures quiet { OnOk result (sink.new ≡ sink.old) }
    ensures stopped { IfErr result (λ answered. Stops trace_read (Rose (S.faults source.old) (S.faults source.new)) (view settings)
        answered (S.left source.old) (S.left source.new) (K.written sink.old) (K.written sink.new)) }
    ensures fault { IfErr result (λ answered. answered ≡ Status.WriteFault → Rose (K.faults sink.old) (K.faults sink.new)) }
{
    match read_bytes(alloc, source) {
        Ok(bytes) => parse_trace(rt, alloc, settings, bytes, sink),
        Err(ReadStop::Fault) => Err(write_line(sink, b"read fault\n", Status::ReadFault)),
        Err(ReadStop::TooLong) => Err(too_long(sink)),
        Err(ReadStop::Memory) => Err(Status::Memory),
    }
}

/// Makes a trace of the number.
///
/// # Errors
/// How the call ends: the refusal was written, or memory ran out.
pub(crate) fn make_trace_of<R: Threads + Sync, K: Sink>(
    rt: &R,
    alloc: Global,
    settings: Settings,
    sink: &mut K,
) -> Result<Trace, Status>
    requires commands { settings.commands ≤ most_made_commands }
    requires some { 1 ≤ settings.shards }
    requires most { settings.shards ≤ most_shards }

    // Whatever a source has, and its faults were.
    ensures taken { IfOk result (λ trace. (source : Option (List ℕ))
        → Takes trace_made (view settings) source source (trace_in trace)) }
    ensures stopped { IfErr result (λ answered. (source : Option (List ℕ)) (before after : ℕ)
        → Stops trace_made (Rose before after) (view settings) answered source source (K.written sink.old) (K.written sink.new)) }

    ensures shards { IfOk result (λ trace. settings.shards ≡ trace.shards) }
    ensures tables { IfOk result (λ trace. HasTablePages (trace_in trace) settings.pages) }
    ensures quiet { OnOk result (sink.new ≡ sink.old) }
    ensures fault { IfErr result (λ answered. answered ≡ Status.WriteFault → Rose (K.faults sink.old) (K.faults sink.new)) }
{
    let Ok(bytes) = make_trace(alloc, settings.number, settings.commands) else {
        return Err(Status::Memory);
    };
    if bytes.len() > MOST_TRACE_BYTES as usize {
        return Err(too_long(sink));
    }
    parse_trace(rt, alloc, settings, bytes, sink)
}

/// Takes these bytes for a script.
///
/// # Errors
/// How the call ends: the refusal was written, or memory ran out.
fn parse_script_in<K: Sink>(alloc: Global, bytes: Vec<u8>, sink: &mut K) -> Result<Script, Status>
    requires short { length bytes.items ≤ MOST_TRACE_BYTES }
    ensures read { IfOk result (λ script. script_of bytes.items ≡ Ok (script_in script)) }
    ensures quiet { OnOk result (sink.new ≡ sink.old) }
    ensures refused { IfErr result (λ answered. RefusesScript bytes.items answered (K.written sink.old) (K.written sink.new)) }
    ensures fault { IfErr result (λ answered. answered ≡ Status.WriteFault → Rose (K.faults sink.old) (K.faults sink.new)) }
{
    match parse_script(alloc, bytes) {
        Ok(script) => Ok(script),
        Err(ScriptRefusal::Script { line, cause }) => Err(refuse_script(alloc, sink, line, cause)),
        Err(ScriptRefusal::Memory) => Err(Status::Memory),
    }
}

/// Reads a script from the source to its end.
///
/// # Errors
/// How the call ends: the refusal or the fault was written, or memory ran out.
pub(crate) fn read_script<S: Source, K: Sink>(
    alloc: Global,
    source: &mut S,
    sink: &mut K,
) -> Result<Script, Status>
    // Whatever the settings are.
    ensures taken { IfOk result (λ script. (found : Wanted)
        → Takes script_read found (S.left source.old) (S.left source.new) (script_in script)) }
    ensures stopped { IfErr result (λ answered. (found : Wanted)
        → Stops script_read (Rose (S.faults source.old) (S.faults source.new)) found
        answered (S.left source.old) (S.left source.new) (K.written sink.old) (K.written sink.new)) }

    ensures quiet { OnOk result (sink.new ≡ sink.old) }
    ensures fault { IfErr result (λ answered. answered ≡ Status.WriteFault → Rose (K.faults sink.old) (K.faults sink.new)) }
{
    match read_bytes(alloc, source) {
        Ok(bytes) => parse_script_in(alloc, bytes, sink),
        Err(ReadStop::Fault) => Err(write_line(sink, b"read fault\n", Status::ReadFault)),
        Err(ReadStop::TooLong) => Err(too_long(sink)),
        Err(ReadStop::Memory) => Err(Status::Memory),
    }
}
