//! A cache whose rows are found by their keys, for walks along long journals: [`Indexed`] does each part of a command and each
//! eviction as the definitions of `cache_model` say, and evicts nothing by itself, as `plain_cache::Plain` does.
//!
//! Its rows are those of a [`row_cache::RowCache`], in one group of segments. A put for whose row the active segment has too little
//! room begins the next one, and where only one segment is free, compaction frees another before. There are segments enough for
//! all the rows that are put: whoever makes a cache says how many bytes these take. So it may hold more live bytes than the pages
//! of the shard whose journal is walked, as such a journal may that leaves evictions out.
//!
//! `report_check` goes along journals with it for an audit.
//!
//! # Choices
//! - Its rows are those of a `row_cache`, whose clauses speak of a list of rows as the definitions do: a list, an index and
//!   an order of use of its own would have been proved again. What is added is room: a segment, by compaction where one is
//!   free, and never an eviction.
//! - All tables stand in one group of segments, whatever the shard has: which group a row is in shows nowhere.
//! - Its pages are its own and not the shard's, made for the rows of all puts of the shard together. A range has at most
//!   16,384 segments, which hold 1,945,788,432 bytes surely. A trace with its report in one input of 67,108,864 bytes has fewer:
//!   a command takes its line, its answer's line and its place in a journal there. Where there is no room the answer is want
//!   of memory, so no clause rests on this.
//! - An eviction takes the last row first and compares its put then: a row cache shows no last row. So which rows are there
//!   where it was another put is not said, and a walk ends there. An error leaves rows of which nothing is said, for the same
//!   reason.
//! - `close` gives the memory back, as of each store over a range.
//!
//! # Promises
//! - Each part is done as defined (`Indexed::apply`), and an eviction is made exactly where it is legal (`Indexed::evict`);
//!   of the rows behind a want of memory, or behind an eviction that is not legal, nothing is said.
#![tactic(auto)]

mod doing;
mod indexed;
mod room;
mod stored;

pub use indexed::Indexed;
