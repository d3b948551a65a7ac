//! The commands of a trace, one after the other.
ghost use Rattle.std.specs.Prelude.{◌≡◌, ◌*◌, ◌≤◌, ℕ, length, Contains, OnOk};
ghost use Rattle.layout.specs.Sizes.{key_room, most_keys};
ghost use Rattle.trace_text.specs.Operation.{operation};
ghost use Rattle.trace_text.specs.Parsed.{trace_in, IsWellFormed};
ghost use Rattle.regions.specs.Shapes.{held_count};
ghost use Rattle.index_tree.specs.Sizes.{most};
ghost use Rattle.segmented_store.specs.Segments.{HoldsSegments};
ghost use Rattle.index_tree.specs.Store.{index_in};
ghost use Rattle.index_mode.specs.IndexText as text;
ghost use Rattle.index_mode.specs.inside.Held.{IsServing};
ghost use Rattle.text_lemmas.specs.Writing.{Writes};
ghost use Rattle.rows.specs.declared.kind.Kind.{Kind as Kinds};

use crate::answers::{write_count, write_erase, write_get, write_put};
use crate::scans::write_scan;
use index_tree::IndexTree;
use outside::{Failed, Sink};
use text_out::Writer;
use trace_text::{Command, Kind, Trace};

/// Sets the number of a put under its key.
fn put<K: Sink>(
    tree: &mut IndexTree,
    trace: &Trace,
    command: &Command,
    out: &mut Writer<'_, K>,
) -> Result<(), Failed>
    requires of_trace { Contains trace.now.commands command.now }
    requires serving { IsServing tree.old }
    ensures index { index_in tree.new ≡ (text.done Kinds.Put (most (held_count tree.old.region)) (operation trace.now.bytes command.now)
        (index_in tree.old)).0 }
    ensures written { Writes result out.old out.new
        (text.answer_line command.now.number (text.done Kinds.Put (most (held_count tree.old.region))
        (operation trace.now.bytes command.now) (index_in tree.old)).1) }
    ensures segments { HoldsSegments tree.old.region tree.new.region }
{
    let had = tree.insert(trace.key(command), command.number);
    write_put(out, command.number, had)
}

/// Gives the keys of a scan.
fn scan<K: Sink>(
    tree: &IndexTree,
    keys: &mut [u8],
    trace: &Trace,
    command: &Command,
    out: &mut Writer<'_, K>,
) -> Result<(), Failed>
    requires of_trace { Contains trace.now.commands command.now }
    requires some { 1 ≤ command.now.count }
    requires most { command.now.count ≤ most_keys }
    requires memory { key_room * most_keys ≤ length keys.old }
    ensures memory { length keys.new ≡ length keys.old }
    ensures written { Writes result out.old out.new
        (text.answer_line command.now.number (text.Keys (text.scanned_keys (operation trace.now.bytes command.now) (index_in tree.now)))) }
{
    let scanned = tree.range(trace.key(command), command.count, keys);
    write_scan(out, command.number, &keys[..scanned.bytes as usize])
}

/// Does a command.
fn do_command<K: Sink>(
    tree: &mut IndexTree,
    keys: &mut [u8],
    trace: &Trace,
    command: &Command,
    out: &mut Writer<'_, K>,
) -> Result<(), Failed>
    requires of_trace { Contains trace.now.commands command.now }
    requires well_formed { IsWellFormed (operation trace.now.bytes command.now) }
    requires serving { IsServing tree.old }
    requires memory { key_room * most_keys ≤ length keys.old }
    ensures index { index_in tree.new ≡ (text.done command.now.kind (most (held_count tree.old.region))
        (operation trace.now.bytes command.now) (index_in tree.old)).0 }
    ensures written { Writes result out.old out.new
        (text.answer_line command.now.number (text.done command.now.kind (most (held_count tree.old.region))
        (operation trace.now.bytes command.now) (index_in tree.old)).1) }
    ensures segments { HoldsSegments tree.old.region tree.new.region }
    ensures memory { length keys.new ≡ length keys.old }
{
    match command.kind {
        Kind::Put => put(tree, trace, command, out),
        Kind::Get => write_get(out, command.number, tree.get(trace.key(command))),
        Kind::Erase => write_erase(out, command.number, tree.remove(trace.key(command))),
        Kind::Scan => scan(tree, keys, trace, command, out),
    }
}

/// Does all commands of a trace, and writes how many keys are held then.
pub(crate) fn do_commands<K: Sink>(
    tree: &mut IndexTree,
    keys: &mut [u8],
    trace: &Trace,
    out: &mut Writer<'_, K>,
) -> Result<(), Failed>
    requires serving { IsServing tree.old }
    requires memory { key_room * most_keys ≤ length keys.old }
    ensures written { Writes result out.old out.new
        (text.text_from (most (held_count tree.old.region)) (index_in tree.old) (trace_in trace.now).operations) }
    ensures index { OnOk result (index_in tree.new ≡ text.index_after (most (held_count tree.old.region)) (index_in tree.old)
        (trace_in trace.now).operations) }
    ensures segments { HoldsSegments tree.old.region tree.new.region }
{
    for command in trace.commands() {
        do_command(tree, keys, trace, command, out)?;
    }
    write_count(out, tree.len())
}
