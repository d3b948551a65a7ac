//! What is written of a trace.
ghost use Rattle.std.specs.Prelude.{◌≡◌, ◌≤◌, ◌++◌, [], codes, decimal, IfOk, OnOk, OnErr};
ghost use Rattle.std.specs.Io.KnownBytes.{Appends};
ghost use Rattle.outside.specs.Moves.{AppendsFront, Sends};
ghost use Rattle.layout.specs.Counts.{Rose};
ghost use Rattle.trace_text.specs.Parsed.{trace_in};
ghost use Rattle.layout.specs.Sizes.{ArePages, greatest_object};
ghost use Rattle.regions.specs.Shapes.{held_count};
ghost use Rattle.segmented_store.specs.Room as bound;
ghost use Rattle.dirty_mode.specs.DirtyText.{dirty_text, text_of, lines_from, put_count};
ghost use Rattle.dirty_mode.specs.Stores.{IsEmpty};
ghost use Rattle.text_lemmas.specs.Writing.{Writes};
ghost use Rattle.dirty_region.specs.State.{Keeps};
ghost use Rattle.dirty_mode.specs.inside.Held.{whole};

use crate::answers::write_count;
use crate::commands::do_commands;
use crate::store::{DirtyStore, open_dirty, put_count};
use dirty_region::Dirty;
use layout::SEGMENT_PAGES;
use outside::{Failed, Sink};
use segmented_store::{Ranged, room};
use std::alloc::{AllocError, Global};
use text_out::Writer;
use trace_text::Trace;

/// Opens a store of so many pages for a trace, and runs the trace on it as [`write_dirty`] does.
///
/// # Errors
/// `AllocError` where memory is not found; then nothing was written. Else what [`write_dirty`] answers.
pub fn run_dirty<K: Sink>(
    alloc: Global,
    trace: &Trace,
    pages: u32,
    sink: &mut K,
) -> Result<Result<(), Failed>, AllocError>
    requires { ArePages pages }

    // The whole text, or a front of it.
    ensures written { IfOk result (λ done. OnOk done
        (Appends (K.written sink.old) (K.written sink.new) (dirty_text (trace_in trace.now) pages))) }
    ensures front { IfOk result (λ done. OnErr done
        (AppendsFront (K.written sink.old) (K.written sink.new) (dirty_text (trace_in trace.now) pages))) }
    ensures failed { IfOk result (λ done. OnErr done (Rose (K.faults sink.old) (K.faults sink.new))) }

    // Nothing, where memory is not found.
    ensures unchanged { OnErr result (sink.new ≡ sink.old) }
{
    let mut store = open_dirty(alloc, trace, pages)?;
    let written = write_dirty(&mut store, trace, sink);
    store.close();
    Ok(written)
}

/// Runs a trace on a store that was opened for it, and writes what is said of it: each put as it is flushed, the oldest ones first,
/// each get as it comes, and how many puts there were. The store is empty then.
///
/// # Errors
/// [`Failed`] where the sink failed. A front of the text was written then; which puts are held is not said.
pub fn write_dirty<K: Sink>(
    store: &mut DirtyStore,
    trace: &Trace,
    sink: &mut K,
) -> Result<(), Failed>
    requires empty { IsEmpty store.old }
    requires room { put_count (trace_in trace.now) ≤ store.old.dirty.room }

    // The whole text, or a front of it, and then the sink failed.
    ensures sent { Sends K.written K.faults sink.old sink.new result
        (dirty_text (trace_in trace.now) store.old.pages) }

    // All puts are flushed, and the memory is as it was.
    ensures empty { OnOk result (IsEmpty store.new) }
    ensures pages { store.new.pages ≡ store.old.pages }
    ensures kept { Keeps store.old.dirty store.new.dirty }
{
    let mut out = Writer::new(sink);
    let written = write_on(&mut store.ranged, trace, &mut out);
    out.into_sink();
    written
}

/// The same on a dirty region without puts and the range of its segments.
fn write_on<K: Sink>(
    ranged: &mut Ranged<Dirty>,
    trace: &Trace,
    out: &mut Writer<'_, K>,
) -> Result<(), Failed>
    requires empty { ranged.old.store.queue ≡ whole [] }
    requires room { put_count (trace_in trace.now) ≤ ranged.old.store.room }
    ensures written { Writes result out.old out.new (dirty_text (trace_in trace.now) ranged.old.pages) }
    ensures queue { OnOk result (ranged.new.store.queue ≡ whole []) }
    ensures empty { OnOk result (out.new.block ≡ []) }
    ensures pages { ranged.new.pages ≡ ranged.old.pages }
    ensures kept { Keeps ranged.old.store ranged.new.store }
{
    let segments = ranged.pages / SEGMENT_PAGES;
    write_text(&mut ranged.store, segments, trace, out)
}

/// Writes the lines of a trace, and how many puts there were.
fn write_text<K: Sink>(
    dirty: &mut Dirty,
    segments: u32,
    trace: &Trace,
    out: &mut Writer<'_, K>,
) -> Result<(), Failed>
    requires empty { dirty.old.queue ≡ whole [] }
    requires held { segments ≡ held_count dirty.old.region }
    requires many { 3 ≤ segments }
    requires room { put_count (trace_in trace.now) ≤ dirty.old.room }
    ensures written { Writes result out.old out.new
        (text_of (lines_from (bound.room segments) (trace_in trace.now).operations [])
        ++ codes "dirty " ++ decimal (put_count (trace_in trace.now)) ++ codes "\n") }
    ensures queue { OnOk result (dirty.new.queue ≡ whole []) }
    ensures empty { OnOk result (out.new.block ≡ []) }
    ensures kept { Keeps dirty.old dirty.new }
{
    do_commands(dirty, room(segments), trace, out)?;
    write_count(out, put_count(trace))?;
    out.flush()
}
