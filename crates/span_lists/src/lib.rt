//! The pages of one shard, in spans of a power of two of pages: a buddy allocator, after the page lists of Seastar's
//! `core/memory.cc`.
//!
//! A span of order k has 2^k pages and begins at a multiple of its length. The free spans of each order stand in a
//! list. A request takes the span that was put last on the first list that has one of its order or above, and the
//! span is split until it has the order. A span that is given back is coalesced with its buddy while that is free as a
//! whole with the same length. Orders are 0 to 19.
//!
//! # Choices
//! - A new table begins with the greatest aligned spans that fit, one for each binary digit of the number of pages, so no page
//!   of the tables behind the first of the greatest is written.
//! - A span that is given back is first coalesced with its free buddies as an allocated span, and freed last, so that every
//!   step keeps the whole invariant.
//!
//! # Promises
//! - Spans divide the pages, and their lengths add up to them (`Spans::facts`, `free_pages`). A span comes exactly where one of
//!   its order or above is free (`Spans::take`); coalescing is complete afterwards (`Spans::put`).
#![tactic(auto)]

pub use spans::Spans;

mod spans;
