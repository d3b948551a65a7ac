//! A whole run of a trace on shards: their nodes are opened, driven and taken apart, and what they did is left.
//!
//! What it leaves is a finished run, as `run_log/specs/Runs.antt` defines one: the journals are legal and complete, the logs have the
//! answers, and the lines say what the caches hold.
//!
//! A run makes a list for each shard, over which its lent blocks come home, opens the nodes over them, drives them on threads
//! or in the order of a number, finishes them into one record, ends their links and closes the lists.
//!
//! # Promises
//! - A run that is not refused for want of memory leaves a finished run of its trace, on the shards that the trace was parsed
//!   for and with the pages that were asked (`run_trace`: `run`).
//! - Where it is refused every seat comes home (`refused` of the private `run_over`). That all memory is taken before the
//!   first turn, so that nothing was done then, is read in the code; that nothing is left that is not freed is tested by
//!   `bench/refused_memory.py`.
#![tactic(auto)]

mod run;

pub use run::{Order, run_trace};
