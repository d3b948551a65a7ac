//! Tests of `shard_node`, which use it as its users do. They stand in a crate of their own, since a crate's tests are proved
//! together with all of its own functions.
//!
//! They are: the definitions of a node on worked runs (`specs/Examples.antt`, `specs/TogetherExamples.antt`), a node alone,
//! packets that are not expected, rings that are full and tickets that are all lent, and two nodes in drawn orders, judged by
//! `plain_cache` (`src/judged.rt`). What they share stands in `src/trial.rt`.
//!
//! # Choices
//! - A test keeps the far end of a node's link, and sees what was done in the record of the run.
#![tactic(auto)]

#[cfg(test)]
mod alone;
#[cfg(test)]
mod examples;
#[cfg(test)]
mod full_rings;
#[cfg(test)]
mod judged;
#[cfg(test)]
mod replies;
#[cfg(test)]
mod strays;
#[cfg(test)]
mod trial;
#[cfg(test)]
mod two_nodes;
