//! Compacts a cache of which rows were erased, to be timed beside copies of as many objects.
//!
//! Rows whose keys have eight bytes fill all segments but two. Then rows drawn at random are erased, the same in each run,
//! and the cache is compacted until no segment is sparse; each one that is freed is taken out. Runs that are timed compare
//! no rows.

mod filled;
mod places;
mod segments;

use filled::{erase_some, fill, key_of};
use layout::{GREATEST_VALUE, MOST_RUN_PAGES, SEGMENT, SEGMENT_PAGES};
use places::{count_moved, note_places};
use row_bytes::row_size;
use segments::{compact_all, new_cache};
use std::alloc::{AllocError, Global};

/// The most rows that the cache has room for.
const MOST_ROWS: u32 = 10_000_000;

/// Fills so many segments, from 3 to 2,048, by values of so many bytes, at most 12,000, of which so many of a hundred stay,
/// and compacts them, if so. How many rows were put, how many stayed, how many segments were taken out, and of so many rows
/// compared how many stand elsewhere than before.
pub fn run(
    alloc: Global,
    segments: u32,
    bytes: u32,
    kept: u32,
    compacts: bool,
    compared: u32,
) -> Result<String, AllocError> {
    let segments = segments.max(3).min(MOST_RUN_PAGES / SEGMENT_PAGES);
    let value = Vec::from_elem(alloc, 7u8, (bytes as usize).min(GREATEST_VALUE))?;
    let in_segment = SEGMENT.checked_div(row_size(key_of(0).as_slice(), value.as_slice()));
    let rows = (segments - 2)
        .saturating_mul(in_segment.unwrap_or(0))
        .min(MOST_ROWS);

    let compared = compared.min(rows);
    let mut before = Vec::with_capacity(alloc, compared as usize)?;
    let mut cache = new_cache(alloc, rows, segments)?;
    fill(&mut cache, value.as_slice(), rows);
    let put = cache.rows();
    erase_some(&mut cache, rows, kept);
    note_places(&cache, compared, &mut before);
    let taken = if compacts {
        compact_all(&mut cache, segments)
    } else {
        0
    };
    let moved = count_moved(&cache, before.as_slice());
    let stayed = cache.rows();
    drop(cache);
    format!(in alloc; "put {put} stayed {stayed} taken {taken} compared {compared} moved {moved}")
}
