//! The tests of the messages between shards and of a shard's store, which use them from outside, a file for each crate. They
//! stand apart, since the check proves a crate's tests together with all of the crate.
//!
//! Messages and links stand in `src/shard_rings_tests/`, a shard's store in `src/shard_store_tests/`: what a put evicts and in
//! which order, who is told, blocks that are lent while rows fill the store, where `plain_cache` judges each row that goes,
//! rows under a guard, blocks passed over a link and between threads, and 10,000 drawn calls beside a plain list of rows.
//! `used.rt` opens a store and uses it by itself.
#![tactic(auto)]

#[cfg(test)]
mod shard_rings_tests;
#[cfg(test)]
mod shard_store_tests;
