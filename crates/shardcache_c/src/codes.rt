//! What the functions answer. The header gives each the name of the same word.

/// It was done.
pub(crate) const DONE: u32 = 0;

/// The handle is closed, or was never opened.
pub(crate) const CLOSED: u32 = 1;

/// It is open already.
pub(crate) const OPEN_ALREADY: u32 = 2;

/// The pages, the rows or the groups are none that a cache can have.
pub(crate) const BAD_SIZE: u32 = 3;

/// Memory was not found.
pub(crate) const NO_MEMORY: u32 = 4;

/// The key has no byte, or more than a key can have.
pub(crate) const BAD_KEY: u32 = 5;

/// The value has more bytes than a value can have.
pub(crate) const BAD_VALUE: u32 = 6;

/// The count is none that a scan can have.
pub(crate) const BAD_COUNT: u32 = 7;

/// The buffer is too short, or the value that is written over.
pub(crate) const SHORT: u32 = 8;

/// No row has the key.
pub(crate) const MISSING: u32 = 9;

/// A guard stands, or as many as can.
pub(crate) const GUARDED: u32 = 10;

/// There is no table of this number. The header's own code for a null pointer is 11.
pub(crate) const BAD_TABLE: u32 = 12;

/// The bound is more than compaction can keep at a small cost.
pub(crate) const BAD_BOUND: u32 = 13;

/// No guard stands.
pub(crate) const UNGUARDED: u32 = 14;

/// A block is lent.
pub(crate) const BLOCKS_OUT: u32 = 15;

/// As many blocks are out as can be.
pub(crate) const NO_TICKET: u32 = 16;

/// Another thread's call came between: the header's own functions try again.
pub(crate) const RACED: u32 = 17;

/// No place of the queue is free.
pub(crate) const FULL: u32 = 18;

/// Nothing is in the queue.
pub(crate) const EMPTY: u32 = 19;
