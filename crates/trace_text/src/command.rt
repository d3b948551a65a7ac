//! What a command is.
use rows::Kind;

/// Bytes of a trace: `len` of them, from `start` on.
#[derive(Clone, Copy, Debug, PartialEq, Eq)]
pub struct Span {
    pub start: u32,
    pub len: u32,
}

/// A command of a trace.
#[derive(Clone, Copy, Debug, PartialEq, Eq)]
pub struct Command {
    /// Commands are numbered from 1.
    pub number: u32,
    /// The line on which it stands. All lines are counted, from 1.
    pub line: u32,
    pub kind: Kind,
    /// The table of the key: 0 to 7, and 0 in a trace of version 1.
    pub table: u8,
    /// The key, or the least key of a scan.
    pub key: Span,
    /// The value of a put; empty for the other kinds.
    pub value: Span,
    /// The most keys that a scan gives; 0 for the other kinds.
    pub count: u32,
}
