//! The parts that are timed, one at a time, by the scripts of bench/.
//!
//! The first word is the part: `pools`, `index`, `table`, `blocks`, `compaction`, `fragments` or `turns`. The others are
//! those of the part's `run`, in their order; a number that is none is 0. Each prints a line of what it did, which is the same
//! in each run; a script measures the time. `all` does a little of each.
#![tactic(auto)]

mod blocks;
mod compacted;
mod index;
mod pools;
mod rounds;
mod table;
mod turns;
mod values;

use std::alloc::{AllocError, Global};
use std::sync::Wait;
use std::thread::Threads;
use std::{env, io};

fn main(rt: HostRuntime) -> io::Result<()> {
    let mut words = Vec::new(rt.alloc());
    for word in env::args(&rt)? {
        words.push(word)?;
    }
    let mut lines = Vec::new(rt.alloc());
    if word(&words, 1) == "all" {
        add_all(&rt, rt.alloc(), &mut lines)?;
    } else {
        lines.push(line_of(&rt, rt.alloc(), &words)?)?;
    }
    for line in &lines {
        println!(rt; "{line}")?;
    }
    Ok(())
}

/// The word at a place, or an empty one.
fn word(words: &[String], at: usize) -> &str {
    match words.get(at) {
        Some(word) => word.as_str(),
        None => "",
    }
}

/// The number that the word at a place spells, or 0.
fn number(words: &[String], at: usize) -> u32 {
    word(words, at).parse::<u32>().unwrap_or(0)
}

/// Runs the part that the first word names.
fn line_of<R: Threads + Wait + Sync>(
    rt: &R,
    alloc: Global,
    words: &[String],
) -> Result<String, AllocError> {
    match word(words, 1) {
        "pools" => pools::run(alloc, number(words, 2), number(words, 3), number(words, 4)),
        "index" => index::run(
            alloc,
            word(words, 2),
            number(words, 3),
            word(words, 4),
            word(words, 5) == "nodes",
        ),
        "table" => table::run(alloc, word(words, 2), number(words, 3), word(words, 4)),
        "blocks" => blocks::run(rt, alloc, number(words, 2), word(words, 3)),
        "compaction" => compacted::run(
            alloc,
            number(words, 2),
            number(words, 3),
            number(words, 4),
            number(words, 5) == 1,
            number(words, 6),
        ),
        "fragments" => values::run(
            alloc,
            word(words, 2),
            number(words, 3),
            number(words, 4),
            number(words, 5),
            number(words, 6),
        ),
        "turns" => turns::run(alloc, number(words, 2), word(words, 3)),
        _ => String::from_str(alloc, "no such part"),
    }
}

/// Runs a little of each part.
fn add_all<R: Threads + Wait + Sync>(
    rt: &R,
    alloc: Global,
    lines: &mut Vec<String>,
) -> Result<(), AllocError> {
    lines.push(pools::run(alloc, 100, 20, 50)?)?;
    lines.push(index::run(alloc, "random", 2000, "remove", false)?)?;
    lines.push(table::run(alloc, "table", 2000, "remove")?)?;
    lines.push(table::run(alloc, "both", 2000, "remove")?)?;
    lines.push(blocks::run(rt, alloc, 1000, "ends")?)?;
    lines.push(blocks::run(rt, alloc, 100_000, "each")?)?;
    lines.push(blocks::run(rt, alloc, 33_334, "three")?)?;
    lines.push(compacted::run(alloc, 6, 1000, 50, true, 500)?)?;
    lines.push(values::run(alloc, "put", 65_536, 3, 8, 5)?)?;
    lines.push(turns::run(alloc, 1000, "turns")?)?;
    Ok(())
}
