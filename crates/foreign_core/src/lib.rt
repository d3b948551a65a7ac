//! The core of the foreign free list, which others call a remote or cross-thread free list: the list on which other
//! shards put the blocks that they free, and which the owner takes as a whole, after `xcpu_freelist` of Seastar's
//! `core/memory.cc`.
//!
//! It is a Treiber stack that is drained whole by one exchange: many push onto it, each by one
//! compare-and-exchange of the head, and no single element is ever popped.
//!
//! It stands here as a pure state machine, without atomics and without the blocks. A block is lent with
//! a ticket, a number below the number of tickets, and the list is one of tickets. Each [`Event`] is one
//! atomic step of one actor: the owner lends, takes the list whole and takes the tickets back; the
//! holder of a block looks at the head, links its ticket to it and swings the head.
//!
//! [`Core`] makes one event after another, and [`replay`] a whole history. Both cite one definition of a
//! step, and [`law_of_histories`] says of that definition what holds in every history.
//!
//! # Definitions
//! - A ticket (`specs/Tickets.antt`) is idle, carried, looked or linked (each of these two with the head that it expects),
//!   listed, or walked. `step` is a table, one line for each event and each state.
//! - Histories (`specs/Histories.antt`) are events one after another from all idle: what happens at a position, 'between',
//!   'exactly one', 'successive'.
//!
//! # Choices
//! - The state is the list of ticket states by number, the list (newest first) and the walk. An event of a ticket that is not
//!   there is not possible.
//! - A won swing is one that finds the head that its ticket expects. The ticket of a Back is the first of the walk. Both are
//!   read from the state before the event.
//! - The law stands on a function without parameters and with an empty body.
//!
//! # Promises
//! - In every history of possible events each ticket is in one state. Between a lend of a ticket and the next exactly one swing
//!   of it wins, then exactly one take-whole comes, and then it comes back exactly once; what one take-whole took comes back
//!   newest first (`law_of_histories`).
//! - `Core::step` and `replay` make exactly these steps, and an event that is not possible changes nothing.
#![tactic(auto)]

mod event;
mod history;
mod list_core;
mod ticket_state;

pub use event::Event;
pub use history::{law_of_histories, replay};
pub use list_core::Core;
pub use ticket_state::TicketState;
