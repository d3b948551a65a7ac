//! The bodies of the replies that a log keeps.
ghost use Rattle.std.specs.Prelude.{◌≡◌, ◌+◌, ◌^◌, ◌<◌, ◌≤◌, [], true, length, take, drop, vec_len, vec_capacity, IfOk, IfSome};
ghost use Rattle.run_log.specs.inside.Recorded.{bytes_of, StandsAt};

use byteorder::{ByteOrder, LittleEndian};
use std::alloc::{AllocError, Global};
use std::marker::Model;
use trace_text::{Span, TraceBytes};

/// How many bytes a long body has at least. A shorter one is copied wherever else it stands.
pub const LONG_BODY: usize = 128;

/// How many places of long bodies are remembered, where there is room for one.
const SLOTS: usize = 16_384;

/// Whose bytes a body is of.
#[derive(Clone, Copy)]
pub(crate) enum Holder {
    /// It was copied.
    Log,
    /// It is a value that a put of the trace has.
    Trace,
}

/// Where a body stands.
#[derive(Clone, Copy)]
pub(crate) struct Kept {
    pub(crate) holder: Holder,
    pub(crate) start: u32,
}

/// The bytes of bodies that were copied, beside those of the trace. A long body that was copied already, as a value is that is read
/// again, is not copied a second time, where its place is still remembered.
#[derive(Drop)]
pub(crate) struct Bodies {
    bytes: Vec<u8>,
    trace: TraceBytes,
    room: u32,
    starts: Vec<u32>,
}

impl Model for Bodies {
    ghost use Rattle.std.specs.Prelude.{◌≡◌, ◌+◌, ◌^◌, ◌<◌, ◌≤◌, vec_len, vec_capacity};
    ghost use Rattle.run_log.specs.inside.Recorded.{BodiesState};

    ghost Value = { BodiesState };

    ghost view = { λ b. record { bytes = b.bytes.items; trace = b.trace; room = b.room } };

    ghost invariant = { λ b. (vec_len b.bytes + b.room ≤ vec_capacity b.bytes) × (vec_len b.bytes + b.room < 2 ^ 32) };
}

impl Bodies {
    /// No body yet beside the trace, and room for so many bytes of them.
    pub(crate) fn new(alloc: Global, trace: TraceBytes, room: u32) -> Result<Bodies, AllocError>
        ensures { IfOk result (λ bodies. bodies ≡ record { bytes = []; trace = trace; room = room }) }
    {
        let slots = if (room as usize) < LONG_BODY {
            0
        } else {
            SLOTS
        };
        Ok(Bodies {
            bytes: Vec::with_capacity(alloc, room as usize)?,
            trace,
            room,
            starts: Vec::from_elem(alloc, 0, slots)?,
        })
    }

    /// How many bytes of bodies may be kept still.
    pub(crate) fn room(&self) -> u32
        ensures { result ≡ self.now.room }
    {
        self.room
    }

    /// Where the bytes of a body stand from now on: a long one in the trace, where they stand there at the place that is told, and else
    /// in the log. Those that stood anywhere before still do.
    pub(crate) fn keep(&mut self, body: &[u8], told: Option<u32>) -> Kept
        requires { length body.now ≤ self.old.room }
        ensures stands { StandsAt (bytes_of result.holder self.new) body.now result.start }
        ensures before { take (length self.old.bytes) self.new.bytes ≡ self.old.bytes }
        ensures longer { length self.old.bytes ≤ length self.new.bytes }
        ensures trace { self.new.trace ≡ self.old.trace }
        ensures room { self.new.room + length body.now ≡ self.old.room }
        ensures short { length body.now < 2 ^ 32 }
    {
        self.room = (self.room as usize - body.len()) as u32;
        if let Some(start) = place_in(self.trace.as_slice(), body, told) {
            return Kept {
                holder: Holder::Trace,
                start,
            };
        }
        let holder = Holder::Log;
        if body.len() < LONG_BODY {
            let start = append(&mut self.bytes, body);
            return Kept { holder, start };
        }
        let slot = slot_of(body);
        let remembered = self.starts.get(slot).copied().unwrap_or(0);
        if stands_at(self.bytes.as_slice(), body, remembered) {
            return Kept {
                holder,
                start: remembered,
            };
        }
        let start = append(&mut self.bytes, body);
        if let Some(place) = self.starts.get_mut(slot) {
            *place = start;
        }
        Kept { holder, start }
    }

    /// So many of a holder's bytes, from one on.
    pub(crate) fn body(&self, holder: Holder, start: u32, len: u32) -> &[u8]
        requires { start + len ≤ length (bytes_of holder self.now) }
        ensures { result.now ≡ take len (drop start (bytes_of holder self.now)) }
    {
        match holder {
            Holder::Log => part_of(self.bytes.as_slice(), start, len),
            Holder::Trace => self.trace.part(Span { start, len }),
        }
    }
}

/// So many bytes, from one on.
fn part_of(bytes: &[u8], start: u32, len: u32) -> &[u8]
    requires { start + len ≤ length bytes.now }
    ensures { result.now ≡ take len (drop start bytes.now) }
{
    &bytes[start as usize..start as usize + len as usize]
}

/// Where a long body stands in the bytes, where that is at the place that is told.
fn place_in(bytes: &[u8], body: &[u8], told: Option<u32>) -> Option<u32>
    ensures { IfSome result (λ start. StandsAt bytes.now body.now start) }
{
    let at = told?;
    if body.len() < LONG_BODY {
        return None;
    }
    if stands_at(bytes, body, at) {
        Some(at)
    } else {
        None
    }
}

/// Whether the body stands in the bytes from there on.
fn stands_at(bytes: &[u8], body: &[u8], start: u32) -> bool
    ensures { result ≡ true → StandsAt bytes.now body.now start }
{
    let start = start as usize;
    match bytes.get(start..start + body.len()) {
        Some(there) => there == body,
        None => false,
    }
}

/// Adds the body behind the bytes, and answers where it stands.
fn append(bytes: &mut Vec<u8>, body: &[u8]) -> u32
    requires room { vec_len bytes.old + length body.now ≤ vec_capacity bytes.old }
    requires short { vec_len bytes.old < 2 ^ 32 }
    ensures stands { StandsAt bytes.new.items body.now result }
    ensures before { take (length bytes.old.items) bytes.new.items ≡ bytes.old.items }
    ensures len { vec_len bytes.new ≡ vec_len bytes.old + length body.now }
    ensures capacity { vec_capacity bytes.old ≤ vec_capacity bytes.new }
{
    let start = bytes.len() as u32;
    bytes.extend_from_slice(body).unwrap();
    start
}

/// The slot of a long body: by its length and its first and last eight bytes.
fn slot_of(body: &[u8]) -> usize
    requires { 128 ≤ length body.now }
{
    let first = LittleEndian::read_u64(body);
    let last = LittleEndian::read_u64(&body[body.len() - 8..]);
    let mixed = (first ^ last.rotate_left(32) ^ body.len() as u64).wrapping_mul(
        0x9E37_79B9_7F4A_7C15,
    );
    (mixed >> 32) as usize % SLOTS
}
