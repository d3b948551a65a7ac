//! The text of a script.
ghost use Rattle.std.specs.Prelude.{◌≡◌, [], length, IfOk, OnOk, OnErr};
ghost use Rattle.std.specs.Io.KnownBytes.{Appends};
ghost use Rattle.layout.specs.Counts.{Rose};
ghost use Rattle.layout.specs.Sizes.{ArePages};
ghost use Rattle.outside.specs.Moves.{AppendsFront, Sends};
ghost use Rattle.regions.specs.Shapes.{held_count};
ghost use Rattle.segmented_store.specs.Room.{room};
ghost use Rattle.segmented_store.specs.Segments.{HoldsSegments};
ghost use Rattle.fragments.specs.Store.{values_of};
ghost use Rattle.value_script.specs.Order.{names};
ghost use Rattle.value_script.specs.Commands.{order};
ghost use Rattle.value_script.specs.Script.{script_in};
ghost use Rattle.values_mode.specs.State.{IsEmpty};
ghost use Rattle.values_mode.specs.Text.{last_line, no_values, text_from, values_text};
ghost use Rattle.values_mode.specs.Left.{values_after, values_left};
ghost use Rattle.values_mode.specs.inside.Steps.{IsServing};
ghost use Rattle.text_lemmas.specs.Writing.{Writes};

use crate::answers::{answer, put_last};
use crate::store::{ValueStore, open_values};
use fragments::Fragments;
use outside::{Failed, Sink};
use segmented_store::Ranged;
use std::alloc::{AllocError, Global};
use text_out::Writer;
use value_script::Script;

/// Opens a store of so many pages, and does the commands of a script as [`write_values`] does.
///
/// # Errors
/// `AllocError` where memory is not found; then nothing was written. Else what [`write_values`] answers.
pub fn run_values<K: Sink>(
    alloc: Global,
    script: &Script,
    pages: u32,
    sink: &mut K,
) -> Result<Result<(), Failed>, AllocError>
    requires { ArePages pages }

    // The whole text, or a front of it.
    ensures written { IfOk result (λ done. OnOk done
        (Appends (K.written sink.old) (K.written sink.new) (values_text (script_in script.now) pages))) }
    ensures front { IfOk result (λ done. OnErr done
        (AppendsFront (K.written sink.old) (K.written sink.new) (values_text (script_in script.now) pages))) }
    ensures failed { IfOk result (λ done. OnErr done (Rose (K.faults sink.old) (K.faults sink.new))) }

    // Nothing, where memory is not found.
    ensures unchanged { OnErr result (sink.new ≡ sink.old) }
{
    let mut store = open_values(alloc, pages)?;
    let written = write_values(&mut store, script, sink);
    store.close();
    Ok(written)
}

/// Does the commands of a script on a store without values, and writes their answers and what is held at the end. The values
/// stay in the store.
///
/// The answer to command I is `I set` or `I full`; `I value LEN BYTES` or `I missing`; `I dropped` or `I missing`. The last line
/// is `values V live L`: how many names have a value, and the live bytes.
///
/// # Errors
/// [`Failed`] where the sink failed. A front of the text was written then; which values are held is not said.
pub fn write_values<K: Sink>(
    store: &mut ValueStore,
    script: &Script,
    sink: &mut K,
) -> Result<(), Failed>
    requires empty { IsEmpty store.old }

    // The whole text, or a front of it, and then the sink failed.
    ensures sent { Sends K.written K.faults sink.old sink.new result
        (values_text (script_in script.now) store.old.pages) }

    // The values are what the commands make of none, and the memory is as it was.
    ensures values { OnOk result (values_of store.new.values ≡ values_left (script_in script.now) store.old.pages) }
    ensures pages { store.new.pages ≡ store.old.pages }
    ensures segments { HoldsSegments store.old.values.region store.new.values.region }
{
    let mut out = Writer::new(sink);
    let written = write_on(&mut store.ranged, script, &mut out);
    out.into_sink();
    written
}

/// The same on the values of a store and the range of its segments. The sink has the whole text then.
fn write_on<K: Sink>(
    ranged: &mut Ranged<Fragments>,
    script: &Script,
    out: &mut Writer<'_, K>,
) -> Result<(), Failed>
    requires none { values_of ranged.old.store ≡ no_values }
    requires many { length ranged.old.store.firsts ≡ names }
    ensures written { Writes result out.old out.new (values_text (script_in script.now) ranged.old.pages) }
    ensures empty { OnOk result (out.new.block ≡ []) }
    ensures values { OnOk result (values_of ranged.new.store ≡ values_left (script_in script.now) ranged.old.pages) }
    ensures many { length ranged.new.store.firsts ≡ names }
    ensures pages { ranged.new.pages ≡ ranged.old.pages }
    ensures segments { HoldsSegments ranged.old.store.region ranged.new.store.region }
{
    write_text(&mut ranged.store, script, out)
}

/// Writes the last line. The sink has the whole text then.
fn write_last<K: Sink>(store: &Fragments, out: &mut Writer<'_, K>) -> Result<(), Failed>
    requires names { length store.now.firsts ≡ names }
    ensures written { Writes result out.old out.new (last_line (values_of store.now)) }
    ensures empty { OnOk result (out.new.block ≡ []) }
{
    put_last(store, out)?;
    out.flush()
}

/// The text of a script, from what a store holds on.
fn write_text<K: Sink>(
    store: &mut Fragments,
    script: &Script,
    out: &mut Writer<'_, K>,
) -> Result<(), Failed>
    requires serving { IsServing store.old }
    ensures written { Writes result out.old out.new
        (text_from (room (held_count store.old.region)) 1 (values_of store.old) (script_in script.now)) }
    ensures values { OnOk result (values_of store.new
        ≡ values_after (room (held_count store.old.region)) (values_of store.old) (script_in script.now)) }
    ensures empty { OnOk result (out.new.block ≡ []) }
    ensures serving { IsServing store.new }
    ensures segments { HoldsSegments store.old.region store.new.region }
{
    for (index, command) in script.commands().iter().enumerate() {
        answer(store, out, script, index as u32 + 1, *command)?;
    }
    write_last(store, out)
}
