//! An allocated part of a range.
ghost use Rattle.std.specs.Prelude.{◌≡◌, ◌+◌, ◌≤◌, ℕ, List, length, take, drop};
ghost use Rattle.std.specs.Borrow.{sem};
ghost use Rattle.raw_range.specs.Writes.{IsSamePiece, rewritten, part_rewritten, LendsBytes, LendsPart, LendsRun, LendsFitted};

use crate::memory::Base;
use std::marker::Model;
use std_alloc::vec::Lodged;

/// Bytes of a `Range`, side by side, in the hands of whoever has the piece. No other piece of the range
/// has one of them. It may go to another thread. One that is dropped stays allocated for good.
#[derive(Drop)]
pub struct Piece {
    pub(crate) memory: Vec<u8, Lodged>,
    pub(crate) base: Base,
    pub(crate) at: u32,
    pub(crate) owner: u32,
}

impl Model for Piece {
    ghost use Rattle.std.specs.Prelude.{◌≡◌, ℕ, ◌<◌, ◌^◌, length};
    ghost use denote.RawPtr.{◌+ₚ◌};
    ghost use Rattle.raw_range.specs.Memory.{Lent, lent_code};

    ghost Value = { Lent };

    ghost coded = { lent_code };

    ghost view = { λ p. record { home = p.base.ptr; owner = p.owner; at = p.at; bytes = p.memory.items } };

    ghost invariant = { λ p. (0 < length p.memory.items) × (length p.memory.items < 2 ^ 32) × (p.memory.ptr ≡ p.base.ptr +ₚ p.at) };
}

impl Piece {
    /// The number of its first byte in the range.
    pub fn at(&self) -> u32
        ensures { result ≡ self.now.at }
    {
        self.at
    }

    /// How many bytes it has.
    pub fn len(&self) -> u32
        ensures { result ≡ length self.now.bytes }
    {
        self.memory.len() as u32
    }

    /// The number of the shard that owns the range.
    pub fn owner(&self) -> u32
        ensures { result ≡ self.now.owner }
    {
        self.owner
    }

    /// Its bytes, the first of which is the byte `at` of the range.
    pub fn bytes(&self) -> &[u8]
        ensures { result.now ≡ self.now.bytes }
    {
        self.memory.as_slice()
    }

    /// The same, for writing. The piece keeps its place, length, owner and range.
    pub fn bytes_mut(&mut self) -> &mut [u8]
        ensures* lends { sem 𝓛 (LendsBytes self.entry result) }
        ensures keeps { (ws : List ℕ) → IsSamePiece self.old (rewritten self.old ws) }
        ensures value { result.now ≡ self.old.bytes }
    {
        let len = self.memory.len();
        self.memory.slice_mut(0..len)
    }

    /// `len` of its bytes, from the byte `at` of the piece on, for writing. The piece keeps what `bytes_mut` says.
    pub fn part_mut(&mut self, at: usize, len: usize) -> &mut [u8]
        requires { at + len ≤ length self.old.bytes }
        ensures* lends { sem 𝓛 (LendsPart self.entry at len result) }
        ensures keeps { (ws : List ℕ) → IsSamePiece self.old (part_rewritten self.old at len ws) }
        ensures value { result.now ≡ take len (drop at self.old.bytes) }
    {
        fitted(&mut self.memory, at, len)
    }
}

// A run of the elements, as the vector lends it.
fn part_of(memory: &mut Vec<u8, Lodged>, at: usize, len: usize) -> &mut [u8]
    requires { at + len ≤ length memory.old.items }
    ensures* lends { sem 𝓛 (LendsRun memory.entry at result) }
    ensures value { result.now ≡ take len (drop at memory.old.items) }
{
    memory.slice_mut(at..at + len)
}

// The same. A slice keeps its length, so as many are left there.
fn fitted(memory: &mut Vec<u8, Lodged>, at: usize, len: usize) -> &mut [u8]
    requires { at + len ≤ length memory.old.items }
    ensures* lends { sem 𝓛 (LendsFitted memory.entry at len result) }
    ensures value { result.now ≡ take len (drop at memory.old.items) }
{
    part_of(memory, at, len)
}
