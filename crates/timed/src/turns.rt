//! Makes turns of a node, to be timed.
//!
//! `store` opens a store, a journal and a log's bytes, and `parts` then reads a row so many times, as a node's parts are done,
//! without a node. `node` opens a node of one shard that has so many reads to do, and `turns` then makes its turns until it is
//! done. `wait` opens a node of two shards whose only part waits for the other, and `idle` then makes so many turns of it.

mod nodes;
mod parts;
mod traces;

use nodes::{turn_alone, turn_idly};
use parts::read_rows;
use std::alloc::{AllocError, Global};
use traces::{of_reads, one_read};

// The most reads: a trace has at most 1,048,576 commands.
const MOST: u32 = 1_000_000;

/// Does what a word names, so many times, at most 1,000,000. How many rows were read or turns were made.
pub fn run(alloc: Global, number: u32, word: &str) -> Result<String, AllocError> {
    match made_by(alloc, word, number.min(MOST)) {
        Some(made) => format!(in alloc; "{made}"),
        None => String::from_str(alloc, "nothing was made"),
    }
}

/// How many rows were read, or turns were made. None where the word is none of those or there is no memory.
fn made_by(alloc: Global, word: &str, number: u32) -> Option<u64> {
    match word {
        "store" => read_rows(alloc, &of_reads(alloc, number)?, 0),
        "parts" => read_rows(alloc, &of_reads(alloc, number)?, number),
        "node" => turn_alone(alloc, &of_reads(alloc, number)?, 0),
        "turns" => turn_alone(alloc, &of_reads(alloc, number)?, number.saturating_add(2)),
        "wait" => turn_idly(alloc, &one_read(alloc)?, 0),
        "idle" => turn_idly(alloc, &one_read(alloc)?, number),
        _ => None,
    }
}
