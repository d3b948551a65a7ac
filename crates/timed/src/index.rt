//! Puts rows into an index of keys, finds them and takes them out, to be timed.
//!
//! There are at most 524,288 rows, and what is done is `keys` (they are made and no more), `insert`, `find` or `remove`,
//! each after those before it, or `range`, after `insert`: at the key of each row a range of 32 keys begins, in nodes
//! alone. The kinds of keys: `random`, `ascending` and `descending` are the order in which keys of ten bytes are put in;
//! with `prefix12` and `prefix200` all keys begin with so many bytes that are the same, with `mixed` each with one of two
//! prefixes, and these come in random order. The keys may stand in nodes in segments, at most 387,254 of them.

mod arena;
mod kinds;
mod trees;

use crate::rounds::{count_found, count_removed, fill};
use arena::{Arena, fill_arena};
use key_index::KeyIndex;
use kinds::Kind;
use std::alloc::{AllocError, Global};
use trees::Tree;

/// Does the steps to the last, which a word names, over keys of a kind; in nodes, if so. How many rows were put in, found
/// and taken out.
pub fn run(
    alloc: Global,
    kind: &str,
    rows: u32,
    last: &str,
    nodes: bool,
) -> Result<String, AllocError> {
    let last = Step::of(last);
    let arena = fill_arena(alloc, Kind::of(kind), rows)?;
    let counts = if nodes {
        run_nodes(alloc, &arena, rows, last)?
    } else {
        run_index(alloc, &arena, rows, last)?
    };
    let Counts {
        inserted,
        found,
        removed,
    } = counts;
    format!(in alloc; "inserted {inserted} found {found} removed {removed}")
}

/// How many rows were put in, found and taken out.
#[derive(Clone, Copy)]
struct Counts {
    inserted: u32,
    found: u32,
    removed: u32,
}

/// So many steps over an index of keys that stand elsewhere.
fn run_index(alloc: Global, arena: &Arena, rows: u32, last: Step) -> Result<Counts, AllocError> {
    let mut index = KeyIndex::new(alloc, rows)?;
    if last != Step::Keys {
        fill(&mut index, arena, rows);
    }
    let inserted = index.len();
    let found = if last == Step::Find || last == Step::Remove {
        count_found(&index, arena, rows)
    } else {
        0
    };
    let removed = if last == Step::Remove {
        count_removed(&mut index, arena, rows)
    } else {
        0
    };
    Ok(Counts {
        inserted,
        found,
        removed,
    })
}

/// The same over keys in nodes.
fn run_nodes(alloc: Global, arena: &Arena, rows: u32, last: Step) -> Result<Counts, AllocError> {
    let mut tree = Tree::open(alloc)?;
    let inserted = if last == Step::Keys {
        0
    } else {
        tree.fill(arena, rows)
    };
    let found = match last {
        Step::Find | Step::Remove => tree.count_found(arena, rows),
        Step::Range => tree.count_in_ranges(arena, rows),
        Step::Keys | Step::Insert => 0,
    };
    let removed = if last == Step::Remove {
        tree.count_removed(arena, rows)
    } else {
        0
    };
    Ok(Counts {
        inserted,
        found,
        removed,
    })
}

/// What is done last.
#[derive(Clone, Copy, PartialEq, Eq)]
enum Step {
    Keys,
    Insert,
    Find,
    Range,
    Remove,
}

impl Step {
    /// The step that a word asks for.
    fn of(word: &str) -> Step {
        match word {
            "insert" => Step::Insert,
            "find" => Step::Find,
            "range" => Step::Range,
            "remove" => Step::Remove,
            _ => Step::Keys,
        }
    }
}
