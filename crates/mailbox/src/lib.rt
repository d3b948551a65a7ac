//! A bounded queue of messages, which any number of threads push to and pop from: the bounded queue of `crossbeam_queue`, without a
//! lock and without a call that waits. It is refused where it is full.
//!
//! Each thread has a [`Mailbox`] of its own, which one thread at a time uses. The queue goes with the last of them.
//!
//! # Choices
//! - It stands on the kit's `RuledArrayQueue`, by the calls that try once: `push` and `pop` of `ArrayQueue` take a handle with
//!   `Wait`, which no export may have.
//! - A mailbox's model is what was pushed with it and popped with it. So a push that answers that it pushed has pushed this
//!   message, and a refused one has not.
//! - `Full` and `Empty` are what a look at the queue shows behind the try that failed; where it shows neither the try was
//!   raced. No clause can say that a queue was full at a moment, since what others did at that moment is known to them alone.
//!
//! # Promises
//! - Each message that was pushed was popped or is left, as often as it was pushed, whatever the threads did: the rule of the
//!   queue (`IsConserved`), which each step of it is proved to keep.
//! - A push that answers `Pushed` pushed this message behind those that were pushed before with this mailbox, and a pop popped
//!   it; where either refuses, nothing changed (`try_push`, `try_pop`: `pushed`, `popped`, `refused`).
//! - Messages of one thread come out in the order in which it pushed them: that is `crossbeam_queue`'s, and tested; no clause
//!   says it. Nor does one say that a push is refused only where the queue is full, or a pop only where it is empty.
#![tactic(auto)]

mod answers;
mod mailbox;
mod rule;

pub use answers::{Pop, Push};
pub use mailbox::Mailbox;
