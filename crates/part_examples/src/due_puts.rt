//! A caller of `dirty_region`: a put is held until its line goes to a sink, in a queue that is opened over a range and closed.
ghost use Rattle.std.specs.Prelude.{◌≡◌, ◌≤◌, length, true, false};
ghost use Rattle.dirty_region.specs.Queues.{GoesOn};
ghost use Rattle.dirty_region.specs.Shapes.{held_count};
ghost use Rattle.dirty_region.specs.Sizes as sizes;
ghost use Rattle.dirty_region.specs.State.{with_put, Keeps};

use dirty_region::{Dirty, Failed, Ranged, Sink};
use layout::SEGMENT_PAGES;
use std::alloc::{AllocError, Global};

/// How many puts a queue has room for.
const PUTS: u32 = 100;

/// Adds a put. False where there are as many as there is room for, or the segments have no room; then nothing changed.
pub fn add_put(dirty: &mut Dirty, key: &[u8], value: &[u8], number: u32) -> bool
    requires some_key { 1 ≤ length key.now }
    requires short_key { length key.now ≤ sizes.greatest_key }
    requires short_value { length value.now ≤ sizes.greatest_value }
    requires held { 3 ≤ held_count dirty.old.region }
    ensures added { result ≡ true → dirty.new.queue ≡ with_put key.now value.now number dirty.old.queue }
    ensures unchanged { result ≡ false → dirty.new ≡ dirty.old }
    ensures kept { Keeps dirty.old dirty.new }
{
    match dirty.put(key, value, number) {
        Ok(()) => true,
        Err(_) => false,
    }
}

/// The same in a queue that has all the segments of a range, which are enough.
pub fn add_put_in(ranged: &mut Ranged<Dirty>, key: &[u8], value: &[u8], number: u32) -> bool
    requires some_key { 1 ≤ length key.now }
    requires short_key { length key.now ≤ sizes.greatest_key }
    requires short_value { length value.now ≤ sizes.greatest_value }
    ensures { result ≡ true → ranged.new.store.queue ≡ with_put key.now value.now number ranged.old.store.queue }
{
    add_put(&mut ranged.store, key, value, number)
}

/// Writes what is left of the oldest put's line to a sink, and takes the put out. None where there is no put.
///
/// # Errors
/// [`Failed`] where the sink failed, or took nothing. The next call goes on behind the bytes that it took.
pub fn flush_oldest<K: Sink>(
    ranged: &mut Ranged<Dirty>,
    sink: &mut K,
) -> Result<Option<u32>, Failed>
    ensures { GoesOn ranged.old.store.queue ranged.new.store.queue (K.written sink.old) (K.written sink.new) }
{
    ranged.store.flush_one(sink)
}

/// Opens a queue of so many pages, adds a put, writes its line to a sink, and gives the memory back. The answer is whether the sink
/// has the line.
///
/// # Errors
/// Want of memory.
pub fn write_in_new<K: Sink>(
    alloc: Global,
    pages: u32,
    key: &[u8],
    value: &[u8],
    sink: &mut K,
) -> Result<bool, AllocError>
    requires pages { sizes.ArePages pages }
    requires some_key { 1 ≤ length key.now }
    requires short_key { length key.now ≤ sizes.greatest_key }
    requires short_value { length value.now ≤ sizes.greatest_value }
{
    let dirty = Dirty::new(alloc, PUTS, pages / SEGMENT_PAGES)?;
    // Last, since only `close` gives its memory back.
    let mut ranged = Ranged::open(alloc, dirty, pages)?;
    let added = add_put_in(&mut ranged, key, value, 1);
    let flushed = flush_oldest(&mut ranged, sink).is_ok();
    ranged.close();
    Ok(added && flushed)
}
