//! Sets and reads values of one length, to be timed beside copies between buffers.
//!
//! `put` sets a value, and `get` writes one into a buffer; `write` copies a buffer into one of as many as there are names,
//! and `read` one of these into a buffer. Each name has a value before, where there is room. Names are drawn at random, the
//! same in each run.

mod copies;
mod names;
mod store;

use copies::{read_all, write_all};
use fragments::GREATEST_VALUE;
use layout::{MOST_RUN_PAGES, SEGMENT_PAGES};
use std::alloc::{AllocError, Global};
use store::Store;

/// The most names.
const MOST_NAMES: u32 = 10_000;

/// Does so many times what a word names, with values of so many bytes, at most 1,048,576, of so many names, at most 10,000,
/// in so many segments, from 3 to 2,048. How many names have a value, and how many bytes were moved.
pub fn run(
    alloc: Global,
    kind: &str,
    bytes: u32,
    names: u32,
    segments: u32,
    times: u32,
) -> Result<String, AllocError> {
    let bytes = (bytes as usize).min(GREATEST_VALUE);
    let names = names.max(1).min(MOST_NAMES);
    let segments = segments.max(3).min(MOST_RUN_PAGES / SEGMENT_PAGES);

    let mut buffer = Vec::from_elem(alloc, 7u8, bytes)?;
    let mut store = Store::new(alloc, names, segments)?;
    let set = store.set_all(&buffer);
    let moved = if kind == "put" {
        store.put_some(&buffer, times)
    } else if kind == "get" {
        store.get_some(&mut buffer, times)
    } else {
        // of the same bytes as the values
        let mut area = Vec::from_elem(alloc, 1u8, bytes * names as usize)?;
        if kind == "write" {
            write_all(&mut area, &buffer, names, times)
        } else if kind == "read" {
            read_all(&area, &mut buffer, names, times)
        } else {
            0
        }
    };
    format!(in alloc; "set {set} moved {moved}")
}
