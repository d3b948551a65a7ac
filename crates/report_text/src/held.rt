//! Text in memory, on its way to a sink.
ghost use Rattle.std.specs.Prelude.{◌≡◌, true, false, [], ◌++◌, Some, IfSome};

use outside::{Failed, Sink};
use std::alloc::{AllocError, Global};

/// A sink in memory that was reserved, and never grows. A write for which there is no room is a fault, and adds nothing.
#[derive(Drop)]
pub(crate) struct Held {
    bytes: Vec<u8>,
    faults: u64,
}

impl Held {
    /// With no text, and room for so many bytes.
    pub(crate) fn new(alloc: Global, room: usize) -> Result<Held, AllocError> {
        Ok(Held {
            bytes: Vec::with_capacity(alloc, room)?,
            faults: 0,
        })
    }

    /// Drops the text and forgets the faults. The memory is kept.
    pub(crate) fn clear(&mut self)
        ensures bytes { self.new.bytes.items ≡ [] }
        ensures faults { self.new.faults ≡ 0 }
    {
        self.bytes.clear();
        self.faults = 0;
    }

    /// The text, if no write failed.
    pub(crate) fn whole(&self) -> Option<&[u8]>
        ensures { IfSome result (λ text. (self.now.faults ≡ 0) × (text.now ≡ self.now.bytes.items)) }
    {
        if self.faults == 0 {
            Some(self.bytes.as_slice())
        } else {
            None
        }
    }

    /// Adds a text where there is room for the whole of it, and answers whether there is.
    fn try_add(&mut self, text: &[u8]) -> bool
        ensures fits { result ≡ true → self.new.bytes.items ≡ self.old.bytes.items ++ text.now }
        ensures full { result ≡ false → self.new.bytes.items ≡ self.old.bytes.items }
        ensures faults { self.new.faults ≡ self.old.faults }
    {
        if self.bytes.capacity() < self.bytes.len() + text.len() {
            return false;
        }
        self.bytes.extend_from_slice(text).is_ok()
    }
}

impl Sink for Held {
    ghost written = { λ s. Some s.bytes.items };

    ghost faults = { λ s. s.faults };

    fn write(&mut self, from: &[u8]) -> Result<usize, Failed> {
        if !self.try_add(from) {
            self.faults = self.faults.saturating_add(1);
            return Err(Failed);
        }
        Ok(from.len())
    }
}
