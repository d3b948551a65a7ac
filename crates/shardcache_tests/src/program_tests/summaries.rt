//! Summaries of made traces.
use super::printed::{lines_of, numbers};
use super::{answer, written};
use shardcache::Status;
use std::alloc::{AllocError, Global};
use std::sync::Wait;
use std::test::Fail;
use std::thread::Threads;

/// Whether these are the numbers of a shard's line that lent blocks and got each back.
fn are_balanced(shard: u32, numbers: &[u32]) -> bool {
    match numbers {
        [number, _, _, lent, back] => *number == shard && *lent > 0 && lent == back,
        _ => false,
    }
}

/// Whether all lines of a summary say shard by shard, from the first of so many on, that each block came back.
fn each_block_came_back(alloc: Global, lines: &[&str], shards: u32) -> Result<bool, AllocError> {
    let mut shard = 0u32;
    for line in lines {
        let found = numbers(alloc, line)?;
        if !line.starts_with("shard ") || !are_balanced(shard, found.as_slice()) {
            return Ok(false);
        }
        shard = shard.wrapping_add(1);
    }
    Ok(shard == shards)
}

/// Whether a line counts the answers to the 100,000 commands that are made of number 7: these are 39,960 puts, 55,173 gets, 3,871
/// erases and 996 scans, counted in what `bench/traces.py gen FILE --number 7` writes.
fn counts_them(alloc: Global, line: &str) -> Result<bool, AllocError> {
    let found = numbers(alloc, line)?;
    let [stored, replaced, values, missing, erased, scans] = found.as_slice() else {
        return Ok(false);
    };
    let again = format!(in alloc;
        "stored {stored} replaced {replaced} values {values} missing {missing} erased {erased} scans {scans}"
    )?;
    let puts = stored.wrapping_add(*replaced);
    let looks = values.wrapping_add(*missing).wrapping_add(*erased);
    Ok(again.as_str() == line && puts == 39_960 && looks == 59_044 && *scans == 996)
}

/// Whether a text is the summary of four shards whose third line begins so.
fn are_summed(alloc: Global, text: &[u8], evictions: &str) -> Result<bool, Fail> {
    let lines = lines_of(alloc, text)?;
    let [commands, counts, evicted, shards @ ..] = lines.as_slice() else {
        return Ok(false);
    };
    let right = *commands == "commands 100000" && evicted.starts_with(evictions);
    Ok(right && counts_them(alloc, counts)? && each_block_came_back(alloc, shards, 4)?)
}

/// Whether these words make such a summary, and the same again.
fn is_made<R: Threads + Wait + Sync>(
    rt: &R,
    alloc: Global,
    words: &[&str],
    evictions: &str,
) -> Result<bool, Fail> {
    let (status, text) = answer(rt, alloc, words, b"not read", &[], 4096)?;
    let again = written(rt, alloc, words, b"", 4096)?;
    let same = status == Status::Done && text.as_slice() == again.as_slice();
    Ok(same && are_summed(alloc, text.as_slice(), evictions)?)
}

#[test]
fn one_number_makes_one_summary(rt: HostRuntime) -> Result<(), Fail> {
    // On 8,192 pages no row goes: no shard has so many keys that their rows fill them.
    let rows: [(&[&str], &str); 2] = [
        (&["gen", "--number", "7", "--shards", "4"], "evictions 0"),
        (
            &["gen", "--number", "7", "--shards", "4", "--pages", "1280"],
            "evictions ",
        ),
    ];
    for (words, evictions) in rows {
        assert!(rt; is_made(&rt, rt.alloc(), words, evictions)?);
    }
    Ok(())
}
