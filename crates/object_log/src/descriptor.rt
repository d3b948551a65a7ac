//! The descriptor of an object.
ghost use Rattle.std.specs.Prelude.{◌≡◌, ℕ, ◌+◌, ◌≤◌, ◌⊎◌, List, length, All};
ghost use Rattle.layout.specs.Sizes as sizes;
ghost use Rattle.object_log.specs.Objects.{descriptor_at, described, objects, state_of, is_live, with_content, IsSize, IsSegment, StandsAt};

use byteorder::{ByteOrder, LittleEndian};
use layout::DESCRIPTOR;

// The states of objects as bytes. That of the end is 0.
pub(crate) const LIVE: u8 = 1;

pub(crate) const DEAD: u8 = 2;

/// What stands at a descriptor.
#[derive(Clone, Copy, Debug, PartialEq, Eq)]
pub enum State {
    /// Nothing: the objects end there.
    End,
    Live,
    /// An object that was killed.
    Dead,
}

/// The 8 bytes in front of an object's content.
#[derive(Clone, Copy, Debug)]
pub struct Descriptor {
    pub state: State,
    /// At least 1; what it means is the caller's.
    pub kind: u8,
    /// In bytes, of the whole object with its descriptor.
    pub size: u32,
}

impl Descriptor {
    /// Whether it is that of a live object.
    pub fn is_live(self) -> bool
        ensures { result ≡ is_live self.state }
    {
        matches!(self.state, State::Live)
    }
}

/// The descriptor at the offset, where an object or the end stands.
pub fn read_descriptor(segment: &[u8], at: u32) -> Descriptor
    requires { (used : ℕ) × IsSegment segment.now used
        × (StandsAt at (objects segment.now used) ⊎ ((at ≡ used) × (used + sizes.descriptor ≤ sizes.segment))) }
    ensures read { result ≡ descriptor_at segment.now at }
    ensures object { (used : ℕ) → IsSegment segment.now used
        → All (λ o. o.at ≡ at → o ≡ described at result) (objects segment.now used) }
    ensures fits { (used : ℕ) → IsSegment segment.now used → StandsAt at (objects segment.now used)
        → IsSize result.size × (at + result.size ≤ used) }
    ensures end { IsSegment segment.now at → result.state ≡ State.End }
{
    descriptor_in(segment, at as usize)
}

/// Where the content of the object at the offset lies: the number of its first byte, and how many bytes it has.
/// Whatever is written there, the objects of the segment are the same.
pub fn content_extent(segment: &[u8], at: u32) -> (usize, usize)
    requires { (used : ℕ) × IsSegment segment.now used × StandsAt at (objects segment.now used) }
    ensures start { result.0 ≡ at + sizes.descriptor }
    ensures size { result.1 + sizes.descriptor ≡ (descriptor_at segment.now at).size }
    ensures inside { (used : ℕ) → IsSegment segment.now used → StandsAt at (objects segment.now used)
        → result.0 + result.1 ≤ used }
    ensures segment { (used : ℕ) (ws : List ℕ) → IsSegment segment.now used → StandsAt at (objects segment.now used)
        → length ws ≡ result.1 → IsSegment (with_content at ws segment.now) used }
    ensures objects { (used : ℕ) (ws : List ℕ) → IsSegment segment.now used → StandsAt at (objects segment.now used)
        → length ws ≡ result.1 → objects (with_content at ws segment.now) used ≡ objects segment.now used }
{
    behind_descriptor(at, read_descriptor(segment, at).size)
}

// Where the content lies of an object of that size at the offset.
fn behind_descriptor(at: u32, size: u32) -> (usize, usize)
    requires within { at + size ≤ sizes.segment }
    requires descriptor { sizes.descriptor ≤ size }
    ensures start { result.0 ≡ at + sizes.descriptor }
    ensures size { result.1 + sizes.descriptor ≡ size }
{
    ((at + DESCRIPTOR) as usize, (size - DESCRIPTOR) as usize)
}

pub(crate) fn descriptor_in(segment: &[u8], at: usize) -> Descriptor
    requires { at + sizes.descriptor ≤ length segment.now }
    ensures { result ≡ descriptor_at segment.now at }
{
    Descriptor {
        state: state_of(segment[at]),
        kind: segment[at + 1],
        size: LittleEndian::read_u32(&segment[at + 4..]),
    }
}

fn state_of(byte: u8) -> State
    ensures { result ≡ state_of byte }
{
    if byte == LIVE {
        return State::Live;
    }
    if byte == DEAD {
        return State::Dead;
    }
    State::End
}
