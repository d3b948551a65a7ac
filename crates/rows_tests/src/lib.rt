//! The tests of the crates that keep rows, which use them from outside, a file for each crate. They stand apart, since
//! the check proves a crate's tests together with all of the crate.
//!
//! The crates: `object_log`, `regions`, `compaction`, `row_bytes`, `key_index` and `row_cache`.
#![tactic(auto)]

#[cfg(test)]
mod compaction_tests;
#[cfg(test)]
mod key_index_tests;
#[cfg(test)]
mod object_log_tests;
#[cfg(test)]
mod pieces;
#[cfg(test)]
mod regions_tests;
#[cfg(test)]
mod row_bytes_tests;
#[cfg(test)]
mod row_cache_tests;
