//! Puts rows into an index of keys, finds them and takes them out, to be timed.
//!
//! What is done: `keys` (they are made and no more), `insert`, `find`, `scan` or `remove`, each after those before it.
//! `index` is the order of keys, `table` the table of keys, `both` the two together, and `one_tag` the two together over
//! keys that all have one tag. A scan puts the rows that wait into the order.

mod arena;
mod both_rounds;
mod table_rounds;

use crate::rounds;
use arena::{Arena, fill_arena, fill_one_tag};
use key_index::KeyIndex;
use key_table::{KeyTable, LazyIndex};
use std::alloc::{AllocError, Global};

/// How many rows were put in, found and taken out.
#[derive(Drop)]
struct Counts {
    inserted: u32,
    found: u32,
    removed: u32,
}

/// Which index, over which keys.
#[derive(Clone, Copy)]
enum Kind {
    Index,
    Table,
    Both,
    OneTag,
}

/// Does the steps to the last, which a word names, over an index that a word names. How many rows were put in, found and
/// taken out.
pub fn run(alloc: Global, kind: &str, rows: u32, last: &str) -> Result<String, AllocError> {
    let counts = counts_of(alloc, kind_of(kind), rows, steps_of(last))?;
    let Counts {
        inserted,
        found,
        removed,
    } = counts;
    format!(in alloc; "inserted {inserted} found {found} removed {removed}")
}

/// How many of the steps a word asks for.
fn steps_of(word: &str) -> u32 {
    match word {
        "insert" => 1,
        "find" => 2,
        "scan" => 3,
        "remove" => 4,
        _ => 0,
    }
}

fn kind_of(word: &str) -> Kind {
    match word {
        "index" => Kind::Index,
        "both" => Kind::Both,
        "one_tag" => Kind::OneTag,
        _ => Kind::Table,
    }
}

fn counts_of(alloc: Global, kind: Kind, rows: u32, last: u32) -> Result<Counts, AllocError> {
    match kind {
        Kind::Index => over_index(alloc, &fill_arena(alloc, rows)?, rows, last),
        Kind::Table => over_table(alloc, &fill_arena(alloc, rows)?, rows, last),
        Kind::Both => over_both(alloc, &fill_arena(alloc, rows)?, rows, last),
        Kind::OneTag => over_both(alloc, &fill_one_tag(alloc, rows)?, rows, last),
    }
}

fn over_index(alloc: Global, arena: &Arena, rows: u32, last: u32) -> Result<Counts, AllocError> {
    let mut index = KeyIndex::new(alloc, rows)?;
    if last >= 1 {
        rounds::fill(&mut index, arena, rows);
    }
    let inserted = index.len();
    let found = if last >= 2 {
        rounds::count_found(&index, arena, rows)
    } else {
        0
    };
    let removed = if last >= 4 {
        rounds::count_removed(&mut index, arena, rows)
    } else {
        0
    };
    Ok(Counts {
        inserted,
        found,
        removed,
    })
}

fn over_table(alloc: Global, arena: &Arena, rows: u32, last: u32) -> Result<Counts, AllocError> {
    let mut table = KeyTable::new(alloc, rows)?;
    if last >= 1 {
        table_rounds::fill(&mut table, arena, rows);
    }
    let inserted = table.len();
    let found = if last >= 2 {
        table_rounds::count_found(&table, arena, rows)
    } else {
        0
    };
    let removed = if last >= 4 {
        table_rounds::count_removed(&mut table, arena, rows)
    } else {
        0
    };
    Ok(Counts {
        inserted,
        found,
        removed,
    })
}

fn over_both(alloc: Global, arena: &Arena, rows: u32, last: u32) -> Result<Counts, AllocError> {
    let mut index = LazyIndex::new(alloc, rows)?;
    both_rounds::fill(&mut index, arena, rows_if(last >= 1, rows));
    let inserted = index.len();
    let found = both_rounds::count_found(&index, arena, rows_if(last >= 2, rows));
    both_rounds::settle_if(&mut index, arena, last >= 3);
    let removed = both_rounds::count_removed(&mut index, arena, rows_if(last >= 4, rows));
    Ok(Counts {
        inserted,
        found,
        removed,
    })
}

/// All rows, or none.
fn rows_if(all: bool, rows: u32) -> u32 {
    if all { rows } else { 0 }
}
