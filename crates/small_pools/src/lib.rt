//! Small objects of up to four pages, from pools by size class, as a slab allocator has them, after the small pools of
//! Seastar's `core/memory.cc`.
//!
//! There are 37 classes, four per doubling. A pool takes its memory in spans of pages and cuts each into as many
//! objects as fit. Taking an object and giving it back cost a constant number of steps, and the span of a place is
//! looked up by its page.
//!
//! # Choices
//! - The free slots of a span are the bits of one 128-bit number: a page holds at most 128 objects. The least free slot is
//!   given.
//! - There is one list of spans with room per class. A span comes from its front, leaves it when it is full, and returns in
//!   front when an object of it is freed. A span that is held is used before a new one comes from the pages.
//! - `trim` looks from page 0 up at the spans that had no allocated object after a `put` since the last `trim`, and gives back
//!   each that has none now. A set of their first pages is kept, so a `trim` with nothing to give back takes a few steps.
//! - Sizes, orders and capacities are tables; a class is found in constant time.
//!
//! # Promises
//! - Objects are disjoint (`Pools::take`, `put`). After `trim` each span has an allocated object, no allocated object changed,
//!   and what could be taken still can (`Pools::trim`).
#![tactic(auto)]

pub use classes::class_of;
pub use pools::Pools;
pub use span_lists::Spans;

mod classes;
mod held_spans;
mod listing;
mod masks;
mod pools;
