//! Doubly linked lists of indices, whose links stand in arrays that are reserved once.
//!
//! An index is a number below the number of indices that the lists were made for, and stands in one list at most.
//! Each call costs a constant number of steps, however long the lists are; beside them, the first call that puts an index on a
//! list writes the links of the indices below it, where none above it was put on one before.
//!
//! The arrays are lazily initialised ([`LazyTable`]): tables of entries that are all alike at first, each written as far as it
//! was ever set.
//!
//! # Choices
//! - A [`LazyTable`] is reserved whole and written up to the last entry that was set. Reading an entry anywhere asks whether it
//!   is written; callers that know it to be read it without asking (`get_written`).
//! - Each list is a ring through a sentinel, so that removing has no branch, and putting an index on one alone in each
//!   direction: whether the links are written up to it. The links of the lists stand in front of those of the indices, since
//!   they are written at once.
//!
//! # Promises
//! - Lists of indices do as std's lists do (the clauses of [`IndexLists`]).
#![tactic(auto)]

pub use lists::IndexLists;
pub use table::LazyTable;

mod links;
mod lists;
mod table;
