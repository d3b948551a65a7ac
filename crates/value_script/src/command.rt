//! What a command is.

use trace_text::Span;

/// A command of a script. Names are below 1,000.
#[derive(Clone, Copy, Debug, PartialEq, Eq)]
pub enum Command {
    /// The name has the value from now on, of at most 1,048,576 bytes.
    Set { name: u32, value: Span },
    /// At most `count` bytes of the name's value, up to 64, from the byte `at` on, up to 1,048,576.
    Read { name: u32, at: u32, count: u32 },
    /// The name has no value from now on.
    Drop { name: u32 },
}
