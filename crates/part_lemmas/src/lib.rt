//! What a trace makes a shard ask, answer and expect, for contracts and proofs: the commands that one shard issues to another, the
//! parts that it issues, what is due between the two and what was taken of it, and a journal that grows. Nothing here speaks of a
//! store. There is nothing to call here.
//!
//! # Choices
//! - What a trace makes a shard ask, answer and expect needs no store. So it stands below the node in crates of its own, this
//!   one and `shard_parts`, which are proved beside the store: the chain of crates that wait for each other is shorter by them.
#![tactic(auto)]
