//! The bytes of one shard, its arena: a range of pages, from which pieces are taken and to which they are put back.
//! This is the one crate with raw memory, and few short functions of it touch that memory.
//!
//! # Definitions
//! - A range (`specs/Memory.antt`) has an owner, its pages, the extents that are allocated, and its bytes; a piece has its
//!   range, its owner, where it begins and its bytes. The bytes of an allocated extent are, in the range, those of the moment
//!   at which it was taken.
//! - A site is a piece without the bytes, but for how many there are. A deposit is a piece or none: who has it has the right to
//!   the piece's bytes.
//!
//! # Choices
//! - A piece holds its bytes as a vector that frees nothing, so raw memory stays inside the range's own functions.
//! - The extents that are allocated are known to the proof alone. Taking or putting a piece takes a constant number of steps,
//!   but for the bytes that a take is the first to write. Fewer than 4,096 are allocated at a time.
//! - A range is told from others by the address of its first byte, which range and piece both carry.
//! - Opening a range writes nothing. A range has a mark: the bytes below it are written, and those from there on have an owner
//!   of their own, `Unfilled`, who may write them but not read them. A take writes zeros up to the end of the last segment that
//!   it reaches, and raises the mark. A range shows the bytes from the mark on as 0, as if all had been written when it was
//!   opened.
//! - The mark is one number, so a take behind it writes all that lies between. Spans are cut from the low end of the least free
//!   span that suffices. Where the pages are a power of two the mark rises with use; else the least spans, at the end, go
//!   first, and the mark passes over the greater ones: with 1,280 pages the first take writes 1,056 of them.
//! - A piece parts into its `Site` and a `Deposit`, so that the right to its bytes may go where none is to be written or read
//!   for it. The right is a value without bytes, proved by hand in `memory.rt` (`Held`), as the other rights of a range are.
//! - A clause on what `Piece::part_mut` lends ranges over lists of any length, and a longer one would reach the bytes behind.
//!   So `fitted`, which is proved by hand and does nothing in a run, says that what is left is as long as what was lent.
//! - `finish` hands the bytes to a vector and drops that. The global allocator counts nothing, so a test sees it of an
//!   allocator that counts, on a vector that is taken apart and put together as `new` and `finish` do it.
//!
//! # Promises
//! - Allocated pieces lie inside the range and are disjoint (`Range::take`, `put`: `blocks`). What a piece lends are bytes of
//!   its own, and what is lent for writing keeps the piece's place, length, owner and range (`Piece::bytes_mut`, `part_mut`:
//!   `value`, `keeps`).
//! - A piece goes back only to its own range, and its bytes come back with it (`Range::put`).
//! - A piece that was parted is the same piece when site and deposit are joined, and only these two are (`Piece::site`,
//!   `Piece::into_deposit`, `Site::join`).
//! - Not promised: that the system has the memory again. The contract of an allocator's `deallocate` says nothing of it, and a
//!   range that is dropped frees nothing: only `finish` does.
#![tactic(auto)]

mod deposit;
mod free_bytes;
mod memory;
mod parts;
mod piece;
mod range;
#[cfg(test)]
mod tests;

pub use deposit::{Deposit, Site};
pub use piece::Piece;
pub use range::Range;
