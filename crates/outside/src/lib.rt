//! Where a program's bytes come from and where they go: input and output as traits.
//!
//! A [`Source`] gives bytes and a [`Sink`] takes them, piece by piece. Either may tell which bytes
//! it has left or was given, so that a contract can speak of them, and each counts its faults, so
//! that no caller can claim a fault that did not happen. [`read_all`] and [`write_all`] move
//! everything. [`MemorySource`] and [`MemorySink`] tell their bytes; [`ReadSource`] and
//! [`WriteSink`] stand over the readers and writers of std, and tell nothing.
//!
//! # Definitions
//! - `Rose` (`layout/specs/Counts.antt`): a device's count of faults rose, or stands at its type's end.
//! - `AppendsFront`, `ConsumesExactly` and `ConsumesUpTo` (`specs/Moves.antt`) are what a failed write or read left.
//! - A device may tell its bytes or not; where it tells nothing, nothing is claimed of them.
//!
//! # Choices
//! - What moved is said in the standard library's words `Appends`, `Consumes`, `Keeps` and `IsAtEnd`.
//! - What a whole text does to a sink is one record, `Sends`: all of it, or a front of it and a failure. The modes say it so.
//! - `read_all` makes room before it reads, so that a want of memory takes no byte. It reads 256 KiB at most per call,
//!   straight into the vector, and at first as many as were read before, at least 4 KiB, so a short input touches little; the
//!   room doubles up to one byte above the limit. Its zeros are copied from a table of zeros as a whole, since the kit's
//!   `resize` sets byte after byte.
//! - The adapters try an interrupted call again. `WriteSink` flushes after each write: hand it large blocks. A write that
//!   takes nothing of a piece that is not empty is a failure.
//!
//! # Promises
//! - All bytes to the end of the input (`read_all`: `all`, `taken`, `at_end`, `within`).
//! - Too long is more than the limit, of which one byte above it is taken; more than the limit is never answered as all
//!   (`read_all`: `longer`, `one_above`, `no_more`; `all`, `within`).
//! - A read fault has a cause (`read_all`: `fault`).
//! - The piece was written, or a front of it and the sink failed (`write_all`).
//! - Devices in memory do exactly what they say (the clauses of `MemorySource` and `MemorySink`).
#![tactic(auto)]

mod failure;
mod memory_sink;
mod memory_source;
mod read_source;
mod reading;
mod sink;
mod source;
mod write_sink;
mod writing;

pub use failure::Failed;
pub use memory_sink::MemorySink;
pub use memory_source::MemorySource;
pub use read_source::ReadSource;
pub use reading::{ReadStop, read_all};
pub use sink::Sink;
pub use source::Source;
pub use write_sink::WriteSink;
pub use writing::write_all;
