//! The tests of the stores that evict nothing, which use them from outside, a file for each crate. They stand apart, since
//! the check proves a crate's tests together with all of the crate.
//!
//! The crates: `dirty_region`, over sinks that fail and beside a plain queue; `dirty_mode` (in `src/dirty_region_tests/`);
//! `tree_nodes`; `index_tree`, beside the standard library's ordered map; and `fragments`, with values of all lengths and drawn
//! calls beside a plain map.
#![tactic(auto)]

#[cfg(test)]
mod dirty_region_tests;
#[cfg(test)]
mod fragments_tests;
#[cfg(test)]
mod index_tree_tests;
#[cfg(test)]
mod pieces;
#[cfg(test)]
mod tree_nodes_tests;
