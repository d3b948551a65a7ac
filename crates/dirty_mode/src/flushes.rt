//! The oldest puts of a queue go to the disk.
ghost use Rattle.std.specs.Prelude.{◌≡◌, ◌↔◌, ◌-◌, ◌<◌, ◌≤◌, IsTrue, [], take, drop, map, OnOk};
ghost use Rattle.rows.specs.Row.{live};
ghost use Rattle.dirty_mode.specs.DirtyText.{text_of, going, staying, Flushed};
ghost use Rattle.text_lemmas.specs.Writing.{Writes};
ghost use Rattle.dirty_region.specs.State.{Keeps};
ghost use Rattle.dirty_mode.specs.inside.Held.{whole};

use dirty_region::Dirty;
use outside::{Failed, Sink};
use text_out::Writer;

/// Flushes the oldest put, if there is one.
fn flush_next<K: Sink>(dirty: &mut Dirty, out: &mut Writer<'_, K>) -> Result<(), Failed>
    requires whole { dirty.old.queue.out ≡ 0 }
    ensures queue { OnOk result (dirty.new.queue ≡ whole (drop 1 dirty.old.queue.puts)) }
    ensures written { Writes result out.old out.new (text_of (map Flushed (take 1 dirty.old.queue.puts))) }
    ensures kept { Keeps dirty.old dirty.new }
{
    dirty.flush_into(out)
}

/// Whether the live bytes with so many more are above the most.
fn is_above(dirty: &Dirty, most: u64, size: u32) -> bool
    requires { size ≤ most }
    ensures { IsTrue result ↔ (most - size < live dirty.now.queue.puts) }
{
    dirty.live() > most - u64::from(size)
}

/// Flushes the oldest puts while the live bytes with so many more are above the most.
pub(crate) fn flush_for<K: Sink>(
    dirty: &mut Dirty,
    most: u64,
    size: u32,
    out: &mut Writer<'_, K>,
) -> Result<(), Failed>
    requires whole { dirty.old.queue.out ≡ 0 }
    requires fits { size ≤ most }
    ensures queue { OnOk result (dirty.new.queue ≡ whole (staying most size dirty.old.queue.puts)) }
    ensures written { Writes result out.old out.new
        (text_of (map Flushed (going most size dirty.old.queue.puts))) }
    ensures kept { Keeps dirty.old dirty.new }
{
    while is_above(dirty, most, size) {
        flush_next(dirty, out)?;
    }
    Ok(())
}

/// Flushes all puts.
pub(crate) fn flush_all<K: Sink>(dirty: &mut Dirty, out: &mut Writer<'_, K>) -> Result<(), Failed>
    requires whole { dirty.old.queue.out ≡ 0 }
    ensures queue { OnOk result (dirty.new.queue ≡ whole []) }
    ensures written { Writes result out.old out.new
        (text_of (map Flushed dirty.old.queue.puts)) }
    ensures kept { Keeps dirty.old dirty.new }
{
    while dirty.len() > 0 {
        flush_next(dirty, out)?;
    }
    Ok(())
}
