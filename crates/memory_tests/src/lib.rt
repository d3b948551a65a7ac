//! The tests of the crates that hold blocks of memory, which use them from outside, a file for each crate. They stand
//! apart, since the check proves a crate's tests together with all of the crate.
//!
//! The crates: `number_set`, `index_lists`, `span_lists`, `small_pools`, `shard_memory`, `foreign_core`, `foreign_list`, and of
//! `raw_range` the test that starts a thread.
#![tactic(auto)]

#[cfg(test)]
mod foreign_core_tests;
#[cfg(test)]
mod foreign_list_tests;
#[cfg(test)]
mod index_lists_tests;
#[cfg(test)]
mod number_set_tests;
#[cfg(test)]
mod raw_range_tests;
#[cfg(test)]
mod shard_memory_tests;
#[cfg(test)]
mod small_pools_tests;
#[cfg(test)]
mod span_lists_tests;
