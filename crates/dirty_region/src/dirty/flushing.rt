//! The oldest put goes to the disk.
ghost use Rattle.std.specs.Prelude.{◌≡◌, ◌↔◌, ◌+◌, ◌%◌, ◌^◌, ◌≤◌, [], ◌∷◌, length, take, drop, flat_map};
ghost use Rattle.std.specs.Prelude.{IfOk, OnOk, OnErr, IsNone, IfSome, vec_capacity};
ghost use Rattle.layout.specs.Counts.{Rose};
ghost use Rattle.dirty_region.specs.Queues.{line, FlushesOldest, BreaksOff, GoesOn};
ghost use Rattle.dirty_region.specs.State.{Keeps};
ghost use Rattle.dirty_region.specs.inside.Rings.{IsRingOf, nth, puts_in};
ghost use Rattle.dirty_region.specs.inside.Lines.{greatest_line};
ghost use Rattle.dirty_region.specs.inside.Consistent.{IsStored};
ghost use Rattle.regions.specs.Shapes.{shape};
ghost use Rattle.regions.specs.Contents.{live_at};
ghost use Rattle.text_lemmas.specs.Writing.{Writes};

use super::Dirty;
use super::storing::drop_oldest;
use crate::line::{make_line, write_rest};
use crate::put_index::PutIndex;
use crate::put_keys::content_of;
use crate::ring::Ring;
use outside::{Failed, Sink};
use regions::Region;
use row_bytes::{key_in, put_in, value_in};
use text_out::Writer;

impl Dirty {
    /// Writes what is left of the oldest put's line, takes the put out, and answers its number. None where there is no put.
    ///
    /// # Errors
    /// [`Failed`] where the sink failed, or took nothing. The put stays, and the next call goes on behind the bytes that the
    /// sink took.
    pub fn flush_one<K: Sink>(&mut self, sink: &mut K) -> Result<Option<u32>, Failed>
        // What each answer means.
        ensures none { IfOk result (λ answer. IsNone answer ↔ (self.old.queue.puts ≡ [])) }
        ensures unchanged { IfOk result (λ answer. IsNone answer → (self.new ≡ self.old) × (sink.new ≡ sink.old)) }
        ensures flushed { IfOk result (λ answer. IfSome answer (λ number.
            FlushesOldest number self.old.queue self.new.queue (K.written sink.old) (K.written sink.new))) }
        ensures stopped { OnErr result (BreaksOff self.old.queue self.new.queue (K.written sink.old) (K.written sink.new)) }
        ensures failed { OnErr result (Rose (K.faults sink.old) (K.faults sink.new)) }
        ensures never_falls { K.faults sink.old ≤ K.faults sink.new }

        // What was due is what was appended and what is due, whatever happened.
        ensures rest { GoesOn self.old.queue self.new.queue (K.written sink.old) (K.written sink.new) }

        // Where the oldest put is out, the next one is the oldest.
        ensures next { IfOk result (λ answer. IfSome answer (λ _. self.new.first ≡ (self.old.first + 1) % 2 ^ 32)) }
        ensures first { OnErr result (self.new.first ≡ self.old.first) }

        // The room and the segments are as they were.
        ensures kept { Keeps self.old self.new }
    {
        if self.ring.len() == 0 {
            return Ok(None);
        }
        let number = make_oldest_line(&self.region, &self.ring, &mut self.line);
        if let Err(failed) = write_rest(sink, self.line.as_slice(), &mut self.out) {
            return Err(failed);
        }
        take_out(
            &mut self.region,
            &mut self.ring,
            &mut self.index,
            &mut self.out,
        );
        Ok(Some(number))
    }

    /// Adds what is left of the oldest put's line to a writer, and takes the put out. Nothing where there is no put. The
    /// line may wait in the writer's block then.
    ///
    /// # Errors
    /// [`Failed`] where the writer's sink failed. The put stays, with as many bytes of its line out as before.
    pub fn flush_into<K: Sink>(&mut self, writer: &mut Writer<'_, K>) -> Result<(), Failed>
        ensures queue { OnOk result (self.new.queue ≡ record { puts = drop 1 self.old.queue.puts; out = 0 }) }
        ensures written { Writes result writer.old writer.new
            (drop self.old.queue.out (flat_map line (take 1 self.old.queue.puts))) }
        ensures stays { OnErr result (self.new.queue ≡ self.old.queue) }

        // The room and the segments are as they were.
        ensures kept { Keeps self.old self.new }
    {
        if self.ring.len() == 0 {
            return Ok(());
        }
        make_oldest_line(&self.region, &self.ring, &mut self.line);
        if let Err(failed) = writer.put(rest_of(self.line.as_slice(), self.out)) {
            return Err(failed);
        }
        take_out(
            &mut self.region,
            &mut self.ring,
            &mut self.index,
            &mut self.out,
        );
        Ok(())
    }
}

// What is left of a line, of which `out` bytes are out.
fn rest_of(line: &[u8], out: usize) -> &[u8]
    requires { out ≤ length line.now }
    ensures { result.now ≡ drop out line.now }
{
    &line[out..]
}

// Takes the oldest put, whose line is out, out of the queue. No byte of the next line is out.
fn take_out(region: &mut Region, ring: &mut Ring, index: &mut PutIndex, out: &mut usize)
    requires some { 1 ≤ ring.old.count }
    requires stored { IsStored ring.old index.old region.old }
    ensures stored { IsStored ring.new index.new region.new }
    ensures puts { puts_in ring.old (live_at region.old)
        ≡ nth ring.old (live_at region.old) 0 ∷ puts_in ring.new (live_at region.new) }
    ensures count { ring.new.count + 1 ≡ ring.old.count }
    ensures first { ring.new.first ≡ (ring.old.first + 1) % 2 ^ 32 }
    ensures room { ring.new.room ≡ ring.old.room }
    ensures shape { shape region.new ≡ shape region.old }
    ensures begun { out.new ≡ 0 }
{
    drop_oldest(region, ring, index);
    *out = 0;
}

// The text is the oldest put's line from now on. Answers the put's number.
fn make_oldest_line(region: &Region, ring: &Ring, text: &mut Vec<u8>) -> u32
    requires some { 1 ≤ ring.now.count }
    requires ring { IsRingOf ring.now (live_at region.now) }
    requires capacity { greatest_line ≤ vec_capacity text.old }
    ensures line { text.new.items ≡ line (nth ring.now (live_at region.now) 0) }
    ensures capacity { greatest_line ≤ vec_capacity text.new }
    ensures number { result ≡ (nth ring.now (live_at region.now) 0).number }
{
    let content = content_of(region, ring.places(), ring.slot(0));
    make_line(text, key_in(content), value_in(content));
    put_in(content)
}
