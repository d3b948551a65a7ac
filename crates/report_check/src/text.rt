//! Text in memory.
ghost use Rattle.std.specs.Prelude.{◌≡◌, true, false, [], ◌++◌, Some};

use outside::{Failed, Sink};
use std::alloc::Global;

/// A sink in memory that grows. A write for which there is no memory is a fault, and adds nothing.
#[derive(Drop)]
pub(crate) struct Text {
    bytes: Vec<u8>,
    faults: u64,
}

impl Text {
    /// With nothing in it.
    pub(crate) fn new(alloc: Global) -> Text
        ensures { result.bytes.items ≡ [] }
    {
        Text {
            bytes: Vec::new(alloc),
            faults: 0,
        }
    }

    /// Drops the text. The memory is kept.
    pub(crate) fn clear(&mut self)
        ensures { self.new.bytes.items ≡ [] }
    {
        self.bytes.clear();
    }

    /// The text.
    pub(crate) fn bytes(&self) -> &[u8]
        ensures { result.now ≡ self.now.bytes.items }
    {
        self.bytes.as_slice()
    }

    /// Adds a text, and answers whether there was memory for it.
    fn try_add(&mut self, text: &[u8]) -> bool
        ensures fits { result ≡ true → self.new.bytes.items ≡ self.old.bytes.items ++ text.now }
        ensures full { result ≡ false → self.new.bytes.items ≡ self.old.bytes.items }
        ensures faults { self.new.faults ≡ self.old.faults }
    {
        self.bytes.extend_from_slice(text).is_ok()
    }
}

impl Sink for Text {
    ghost written = { λ s. Some s.bytes.items };

    ghost faults = { λ s. s.faults };

    fn write(&mut self, from: &[u8]) -> Result<usize, Failed> {
        if !self.try_add(from) {
            self.faults = self.faults.saturating_add(1);
            return Err(Failed);
        }
        Ok(from.len())
    }
}
