//! The block in which text waits for the sink.
ghost use Rattle.std.specs.Prelude.{◌≡◌, true, false, [], ◌++◌};

use arrayvec::ArrayVec;
use std::marker::Model;

/// The bytes of a block.
const BLOCK: usize = 65_536;

/// Text that the sink was not given yet. It takes no memory of an allocator.
#[derive(Drop)]
pub(crate) struct Block {
    bytes: ArrayVec<u8, BLOCK>,
}

impl Model for Block {
    ghost use Rattle.std.specs.Prelude.{ℕ, List};

    ghost Value = { List ℕ };

    ghost view = { λ b. b.bytes.items };
}

impl Block {
    /// With no text.
    pub(crate) fn new() -> Block
        ensures { result ≡ [] }
    {
        Block {
            bytes: ArrayVec::new(),
        }
    }

    /// The text.
    pub(crate) fn bytes(&self) -> &[u8]
        ensures { result.now ≡ self.now }
    {
        self.bytes.as_slice()
    }

    /// Drops the text.
    pub(crate) fn clear(&mut self)
        ensures { self.new ≡ [] }
    {
        self.bytes.clear();
    }

    /// Whether it has room for so many bytes more.
    pub(crate) fn has_room(&self, len: usize) -> bool {
        len <= self.bytes.remaining_capacity()
    }

    /// Adds a text where it has room for it, and answers whether it has.
    pub(crate) fn try_add(&mut self, text: &[u8]) -> bool
        ensures fits { result ≡ true → self.new ≡ self.old ++ text.now }
        ensures full { result ≡ false → self.new ≡ self.old }
    {
        self.bytes.try_extend_from_slice(text).is_ok()
    }
}
