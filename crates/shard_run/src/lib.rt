//! A run on many shards: its nodes are opened, and once they were driven, they are taken apart.
//!
//! [`open_nodes`] takes the memory of all nodes, or hands back the seats at the lists over which their blocks come home.
//! [`Remains::new`] makes the room for what the nodes leave. [`finish_run`] ends a run whose nodes are all done, by
//! [`finish_nodes`] and [`close_links`]: its journals are legal and complete, its logs hold the replies that stand in the
//! journals, and its caches and blocks are what a report says. It takes no memory.
//!
//! `specs/Opening.antt` says what nodes are that were opened, `specs/Running.antt` when they were driven, `specs/Remaining.antt`
//! what nodes leave, and `specs/Closing.antt` what went over a pair as it ended. When a run is finished, `run_log/specs/Runs.antt`
//! says. Driving the nodes is another crate's.
//!
//! # Choices
//! - Nodes are opened from the last shard to the first: the seats that are left are always those of the first shards, and a
//!   refusal gives them back in their order without taking memory.
//!
//! # Promises
//! - The nodes of a run are opened for all shards, or every seat comes home; what they leave is what they were (`open_nodes`,
//!   `finish_nodes`, `close_links`).
//! - That a run which is refused for want of memory leaves nothing that is not freed is tested, by `bench/refused_memory.py`:
//!   in no clause.
#![tactic(auto)]

mod closing;
mod ending;
mod finishing;
mod lists;
mod opening;
mod remains;

pub use closing::close_links;
pub use ending::{Ended, finish_run};
pub use finishing::finish_nodes;
pub use lists::{close_lists, open_lists};
pub use opening::open_nodes;
pub use remains::Remains;
