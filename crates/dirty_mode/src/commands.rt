//! The commands of a trace, one after the other.
ghost use Rattle.std.specs.Prelude.{◌≡◌, ◌+◌, ◌<◌, ◌≤◌, true, [], length, Contains, OnOk};
ghost use Rattle.layout.specs.Sizes.{greatest_object};
ghost use Rattle.trace_text.specs.Operation.{operation};
ghost use Rattle.trace_text.specs.Parsed.{trace_in};
ghost use Rattle.rows.specs.Operation.{is_put};
ghost use Rattle.regions.specs.Shapes.{held_count};
ghost use Rattle.segmented_store.specs.Room as bound;
ghost use Rattle.dirty_mode.specs.DirtyText.{text_of, lines_of, puts_after, lines_from, put_count};
ghost use Rattle.text_lemmas.specs.Writing.{Writes};
ghost use Rattle.dirty_region.specs.State.{Keeps};
ghost use Rattle.dirty_mode.specs.inside.Held.{whole};

use crate::answers::{write_get, write_passed};
use crate::flushes::{flush_all, flush_for};
use dirty_region::Dirty;
use outside::{Failed, Sink};
use row_bytes::row_size;
use text_out::Writer;
use trace_text::{Command, Kind, Trace};

/// Puts the key and the value of a command, where the oldest puts are flushed as long as there is no room.
fn put<K: Sink>(
    dirty: &mut Dirty,
    most: u64,
    trace: &Trace,
    command: &Command,
    out: &mut Writer<'_, K>,
) -> Result<(), Failed>
    requires of_trace { Contains trace.now.commands command.now }
    requires whole { dirty.old.queue.out ≡ 0 }
    requires some { greatest_object ≤ most }
    requires most { most ≤ bound.room (held_count dirty.old.region) }
    requires held { 3 ≤ held_count dirty.old.region }
    requires room { length dirty.old.queue.puts < dirty.old.room }
    ensures queue { OnOk result (dirty.new.queue ≡ whole (puts_after Kind.Put most (operation trace.now.bytes command.now)
        dirty.old.queue.puts)) }
    ensures written { Writes result out.old out.new
        (text_of (lines_of Kind.Put most (operation trace.now.bytes command.now) dirty.old.queue.puts)) }
    ensures kept { Keeps dirty.old dirty.new }
{
    let key = trace.key(command);
    let value = trace.value(command);
    flush_for(dirty, most, row_size(key, value), out)?;
    let Ok(()) = dirty.put(key, value, command.number) else {
        unreachable!()
    };
    Ok(())
}

/// Does a command.
fn do_command<K: Sink>(
    dirty: &mut Dirty,
    most: u64,
    trace: &Trace,
    command: &Command,
    out: &mut Writer<'_, K>,
) -> Result<(), Failed>
    requires of_trace { Contains trace.now.commands command.now }
    requires whole { dirty.old.queue.out ≡ 0 }
    requires some { greatest_object ≤ most }
    requires most { most ≤ bound.room (held_count dirty.old.region) }
    requires held { 3 ≤ held_count dirty.old.region }
    requires room { is_put command.now.kind ≡ true → length dirty.old.queue.puts < dirty.old.room }
    ensures queue { OnOk result (dirty.new.queue ≡ whole (puts_after command.now.kind most (operation trace.now.bytes command.now)
        dirty.old.queue.puts)) }
    ensures written { Writes result out.old out.new
        (text_of (lines_of command.now.kind most (operation trace.now.bytes command.now) dirty.old.queue.puts)) }
    ensures kept { Keeps dirty.old dirty.new }
{
    match command.kind {
        Kind::Put => put(dirty, most, trace, command, out),
        Kind::Get => write_get(out, command.number, dirty.newest(trace.key(command))),
        Kind::Erase | Kind::Scan => write_passed(out, command.number),
    }
}

/// Does all commands of a trace, and flushes what is left.
pub(crate) fn do_commands<K: Sink>(
    dirty: &mut Dirty,
    most: u64,
    trace: &Trace,
    out: &mut Writer<'_, K>,
) -> Result<(), Failed>
    requires whole { dirty.old.queue.out ≡ 0 }
    requires some { greatest_object ≤ most }
    requires most { most ≤ bound.room (held_count dirty.old.region) }
    requires held { 3 ≤ held_count dirty.old.region }
    requires room { length dirty.old.queue.puts + put_count (trace_in trace.now) ≤ dirty.old.room }
    ensures queue { OnOk result (dirty.new.queue ≡ whole []) }
    ensures written { Writes result out.old out.new
        (text_of (lines_from most (trace_in trace.now).operations dirty.old.queue.puts)) }
    ensures kept { Keeps dirty.old dirty.new }
{
    for command in trace.commands() {
        do_command(dirty, most, trace, command, out)?;
    }
    flush_all(dirty, out)
}
