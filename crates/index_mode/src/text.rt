//! What is written of a trace.
ghost use Rattle.std.specs.Prelude.{◌≡◌, ◌*◌, ◌≤◌, [], length, IfOk, OnOk, OnErr};
ghost use Rattle.std.specs.Io.KnownBytes.{Appends};
ghost use Rattle.outside.specs.Moves.{AppendsFront, Sends};
ghost use Rattle.layout.specs.Counts.{Rose};
ghost use Rattle.layout.specs.Sizes.{ArePages, key_room, most_keys};
ghost use Rattle.trace_text.specs.Parsed.{trace_in};
ghost use Rattle.regions.specs.Shapes.{held_count};
ghost use Rattle.index_tree.specs.Sizes.{most};
ghost use Rattle.segmented_store.specs.Segments.{HoldsSegments};
ghost use Rattle.index_tree.specs.Store.{index_in};
ghost use Rattle.index_mode.specs.IndexText.{index_after, index_left, index_text, text_from};
ghost use Rattle.index_mode.specs.Stores.{IsEmpty};
ghost use Rattle.index_mode.specs.inside.Held.{IsServing};
ghost use Rattle.text_lemmas.specs.Writing.{Writes};

use crate::commands::do_commands;
use crate::store::{IndexStore, open_index};
use index_tree::IndexTree;
use outside::{Failed, Sink};
use segmented_store::Ranged;
use std::alloc::{AllocError, Global};
use text_out::Writer;
use trace_text::Trace;

/// Opens an index on so many pages, and runs a trace on it as [`write_index`] does.
///
/// # Errors
/// `AllocError` where memory is not found; then nothing was written. Else what [`write_index`] answers.
pub fn run_index<K: Sink>(
    alloc: Global,
    trace: &Trace,
    pages: u32,
    sink: &mut K,
) -> Result<Result<(), Failed>, AllocError>
    requires { ArePages pages }

    // The whole text, or a front of it.
    ensures written { IfOk result (λ done. OnOk done
        (Appends (K.written sink.old) (K.written sink.new) (index_text (trace_in trace.now) pages))) }
    ensures front { IfOk result (λ done. OnErr done
        (AppendsFront (K.written sink.old) (K.written sink.new) (index_text (trace_in trace.now) pages))) }
    ensures failed { IfOk result (λ done. OnErr done (Rose (K.faults sink.old) (K.faults sink.new))) }

    // Nothing, where memory is not found.
    ensures unchanged { OnErr result (sink.new ≡ sink.old) }
{
    let mut store = open_index(alloc, pages)?;
    let written = write_index(&mut store, trace, sink);
    store.close();
    Ok(written)
}

/// Runs a trace on an index without keys, and writes the answer to each command and how many keys are held at the end. These
/// stay in the index.
///
/// Of a put it is `I stored`, `I replaced` or `I full`; of a get `I at Q`, with the number of the put, or `I missing`; of an erase
/// `I erased` or `I missing`; of a scan `I keys` and the keys. The last line is `index K`.
///
/// # Errors
/// [`Failed`] where the sink failed. A front of the text was written then; which keys are held is not said.
pub fn write_index<K: Sink>(
    store: &mut IndexStore,
    trace: &Trace,
    sink: &mut K,
) -> Result<(), Failed>
    requires empty { IsEmpty store.old }

    // The whole text, or a front of it, and then the sink failed.
    ensures sent { Sends K.written K.faults sink.old sink.new result
        (index_text (trace_in trace.now) store.old.pages) }

    // The index is what the commands make of none, and the memory is as it was.
    ensures index { OnOk result (index_in store.new.index ≡ index_left (trace_in trace.now) store.old.pages) }
    ensures pages { store.new.pages ≡ store.old.pages }
    ensures segments { HoldsSegments store.old.index.region store.new.index.region }
{
    let mut out = Writer::new(sink);
    let written = write_on(
        &mut store.ranged,
        store.keys.as_mut_slice(),
        trace,
        &mut out,
    );
    out.into_sink();
    written
}

/// The same on an index and the range of its segments.
fn write_on<K: Sink>(
    ranged: &mut Ranged<IndexTree>,
    keys: &mut [u8],
    trace: &Trace,
    out: &mut Writer<'_, K>,
) -> Result<(), Failed>
    requires empty { index_in ranged.old.store ≡ [] }
    requires memory { key_room * most_keys ≤ length keys.old }
    ensures written { Writes result out.old out.new (index_text (trace_in trace.now) ranged.old.pages) }
    ensures index { OnOk result (index_in ranged.new.store ≡ index_left (trace_in trace.now) ranged.old.pages) }
    ensures empty { OnOk result (out.new.block ≡ []) }
    ensures pages { ranged.new.pages ≡ ranged.old.pages }
    ensures segments { HoldsSegments ranged.old.store.region ranged.new.store.region }
{
    write_text(&mut ranged.store, keys, trace, out)
}

/// Writes the text of a trace.
fn write_text<K: Sink>(
    tree: &mut IndexTree,
    keys: &mut [u8],
    trace: &Trace,
    out: &mut Writer<'_, K>,
) -> Result<(), Failed>
    requires serving { IsServing tree.old }
    requires memory { key_room * most_keys ≤ length keys.old }
    ensures written { Writes result out.old out.new
        (text_from (most (held_count tree.old.region)) (index_in tree.old) (trace_in trace.now).operations) }
    ensures index { OnOk result (index_in tree.new ≡ index_after (most (held_count tree.old.region)) (index_in tree.old)
        (trace_in trace.now).operations) }
    ensures empty { OnOk result (out.new.block ≡ []) }
    ensures segments { HoldsSegments tree.old.region tree.new.region }
{
    do_commands(tree, keys, trace, out)?;
    out.flush()
}
