//! A trace whose puts set the numbers of keys in an index, and what is written of it.
//!
//! The definition is `specs/IndexText.antt`: a put sets the number of its key, a get and an erase are answered by it, and a
//! scan gives keys in their order. Keys are their bytes: whoever runs a trace here refuses one that names tables before, as a
//! trace of another version. The index stands in the segments of one range, and its nodes move.
//!
//! # Definitions
//! - `done` is what a command does to a list of keys of which so many are held at most, and its answer.
//! - `index_text` is the text of all answers and of the last line, from a list without keys on, with the keys that so many
//!   pages' segments surely have room for (`most`); `index_left` are the keys that are left then. The definitions are checked
//!   by computing `specs/Examples.antt`.
//!
//! # Choices
//! - One function lends the store out of its `Ranged`, and the one below it sees no range.
//! - The mode reads no value: a put counts by its key and its number.
//! - The keys of a scan are laid into memory that is taken at the opening, as a body of keys, and written from there.
//!
//! # Promises
//! - What is written of a trace is its text, or a front of it where the sink failed, and it fails only there; behind the
//!   whole text the index that the trace leaves stands in the store's segments (`write_index`: `sent`, `index`).
#![tactic(auto)]

mod answers;
mod commands;
mod law;
mod scans;
mod store;
mod text;

pub use law::texts_are_as_worked;
pub use store::{IndexStore, open_index};
pub use text::{run_index, write_index};
