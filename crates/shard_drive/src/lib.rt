//! Drives the nodes of a run turn by turn: each on a thread of its own, or all on one thread in an order that is drawn from a
//! number, its seed, or given: a deterministic simulation.
//!
//! # Choices
//! - A thread drives what names no lifetime, a private trait that nodes over rings keep: the kit has no proof for a bound with
//!   a lifetime that crosses a thread. So `drive_threads` takes nodes over `RingLink` alone; the other two calls take any link.
//! - After an idle turn a thread spins by `Backoff` of crossbeam_utils, longer each time up to 64 pauses of the processor.
//!   After 200 idle turns one after another it sleeps, some fifty microseconds at a time; after five, where there are more
//!   shards than processors, since a thread that spins is in the way of those that have something to do. Seastar's reactor
//!   polls and then sleeps too, until it is woken; here nobody wakes a thread, so that a send makes no call of the system. A
//!   thread that yields instead waits for its share of the processor beside other programs, at each step. No clause rests on
//!   it.
//! - No call tells whether a thread was made: where none can be, `for_each_mut` makes its calls one after another, and a node
//!   may wait for one that is driven only after it. So `drive_threads` goes in rounds: the threads of a round count how many
//!   nodes are neither done nor driven, and the driver of a node leaves it only where one is, after a hundred sleeps in a row,
//!   some 5 ms. Where all threads are made, and begin within 5 ms, there is one round, and a node waits for another however
//!   long that takes. Where none is made no two nodes are driven at once, so one waits for what moves only once it was left: in
//!   the next round a thread sleeps but once before it leaves its node, and a hundred times again where two were driven at
//!   once.
//! - `Follows` needs that no count of turns stands above the greatest u64, so driving by a schedule or a number looks at each
//!   count once.
//! - `drive_numbered` and `drive_threads` take nodes in standing: each node has it from its opening on, and every turn keeps
//!   it. Before each turn `drive_numbered` asks the nodes whether they are done, and stops at the first that is not.
//!
//! # Promises
//! - Nodes are changed by turns alone: each place of the row holds the node that stood there, a node in standing stays so, and
//!   what no turn changes stays ([`drive_threads`], [`drive_numbered`], [`drive_schedule`]).
//! - [`drive_threads`] and [`drive_numbered`] return only where all nodes are done; [`drive_schedule`] behind its last entry.
//! - In [`drive_schedule`] and [`drive_numbered`] each node makes as many turns as the schedule, or the words that were drawn,
//!   have for it ([`specs/Drives.antt`], [`specs/Words.antt`]).
//! - Not promised: that [`drive_threads`] and [`drive_numbered`] return, that threads run side by side, and in which order
//!   turns are made. Tested is that a run ends where the system makes no thread, or fewer than shards
//!   (`bench/refused_threads.py`).
#![tactic(auto)]

mod by_words;
mod driven;
mod round;
mod scheduled;
mod threads;

pub use by_words::drive_numbered;
pub use scheduled::drive_schedule;
pub use threads::drive_threads;

#[cfg(test)]
mod tests;
