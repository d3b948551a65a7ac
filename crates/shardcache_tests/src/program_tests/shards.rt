//! Runs on several shards.
use super::limits::many;
use super::printed::{answers, numbers};
use super::{answer, says};
use shardcache::Status;
use std::alloc::{AllocError, Global};
use std::sync::Wait;
use std::test::Fail;
use std::thread::Threads;

#[test]
fn a_part_is_done_by_the_owner_of_its_key(rt: HostRuntime) -> Result<(), Fail> {
    let rows: [(&[u8], &[u8]); 3] = [
        (
            b"put a 1\n",
            b"1 stored\njournal 0 1\njournal 1\nshard 0 rows 1 live 48 lent 0 back 0\nshard 1 rows 0 live 0 lent 0 back 0\n",
        ),
        (
            b"put b 1\n",
            b"1 stored\njournal 0\njournal 1 1\nshard 0 rows 0 live 0 lent 1 back 1\nshard 1 rows 1 live 48 lent 1 back 1\n",
        ),
        (
            b"",
            b"journal 0\njournal 1\nshard 0 rows 0 live 0 lent 0 back 0\nshard 1 rows 0 live 0 lent 0 back 0\n",
        ),
    ];
    let modes: [&[&str]; 2] = [
        &["run", "--shards", "2"],
        &["sim", "--shards", "2", "--number", "3"],
    ];
    for (input, report) in rows {
        for words in modes {
            assert!(rt; says(&rt, rt.alloc(), words, input, Status::Done, report)?);
        }
    }
    Ok(())
}

/// What a run of these words writes between a front and an end. None where it is not done, or they are others.
fn between<R: Threads + Wait + Sync>(
    rt: &R,
    alloc: Global,
    words: &[&str],
    input: &[u8],
    front: &[u8],
    end: &[u8],
) -> Result<Option<Vec<u8>>, AllocError> {
    let (status, text) = answer(rt, alloc, words, input, &[], 65_536)?;
    let rest = text.as_slice().strip_prefix(front);
    match rest.and_then(|rest| rest.strip_suffix(end)) {
        Some(middle) if status == Status::Done => Ok(Some(Vec::from_slice(alloc, middle)?)),
        _ => Ok(None),
    }
}

#[test]
fn two_origins_meet_at_one_shard(rt: HostRuntime) -> Result<(), Fail> {
    let input = b"put a 1\nget z\nput b 2\nget z\nput c 3\nget z\nscan a 3\n";
    let replies =
        b"1 stored\n2 missing\n3 stored\n4 missing\n5 stored\n6 missing\n7 keys a b c\njournal 0 1 5 7\njournal 1 ".as_slice();
    let occupancy =
        b"\nshard 0 rows 2 live 96 lent 2 back 2\nshard 1 rows 1 live 48 lent 2 back 2\n".as_slice();
    let journals: [&[u8]; 10] = [
        b"2 4 6 3 7",
        b"2 4 3 6 7",
        b"2 4 3 7 6",
        b"2 3 4 6 7",
        b"2 3 4 7 6",
        b"2 3 7 4 6",
        b"3 2 4 6 7",
        b"3 2 4 7 6",
        b"3 2 7 4 6",
        b"3 7 2 4 6",
    ];
    let modes: [&[&str]; 2] = [&["run", "--shards", "2"], &["sim", "--shards", "2"]];
    for words in modes {
        let journal = between(&rt, rt.alloc(), words, input, replies, occupancy)?;
        assert!(rt; journal.is_some_and(|journal| journals.contains(&journal.as_slice())));
    }
    Ok(())
}

/// Whether these are the numbers of all commands up to 1000, those of each of 16 origins in their order.
fn are_in_order(numbers: &[u32]) -> bool {
    let mut nexts = [1u32, 2, 3, 4, 5, 6, 7, 8, 9, 10, 11, 12, 13, 14, 15, 16];
    for number in numbers {
        let origin = number.wrapping_sub(1) % 16;
        let Some(next) = nexts.get_mut(origin as usize) else {
            return false;
        };
        if *number != *next || *number > 1000 {
            return false;
        }
        *next = next.wrapping_add(16);
    }
    numbers.len() == 1000
}

/// How many blocks a shard of 16 lent where shard 12 answers 1,000 gets: the first eight issued 63 of them, the others 62, and
/// shard 12 answered all but its own.
fn lent_by(shard: u32) -> u32 {
    match shard {
        12 => 938,
        0..=7 => 63,
        _ => 62,
    }
}

/// What stands around the entries of shard 12 in the report of 1,000 gets of `a`, which nobody put, on 16 shards.
fn around_the_entries(alloc: Global) -> Result<(Vec<u8>, Vec<u8>), AllocError> {
    let mut before = Vec::new(alloc);
    answers(alloc, &mut before, 1, 1000, "missing")?;
    let mut behind = Vec::new(alloc);
    for shard in 0..12 {
        before.extend_from_slice(format!(in alloc; "journal {shard}\n")?.as_bytes())?;
    }
    before.extend_from_slice(b"journal 12 ")?;
    behind.extend_from_slice(b"\njournal 13\njournal 14\njournal 15\n")?;
    for shard in 0..16 {
        let lent = lent_by(shard);
        let line = format!(in alloc; "shard {shard} rows 0 live 0 lent {lent} back {lent}\n")?;
        behind.extend_from_slice(line.as_bytes())?;
    }
    Ok((before, behind))
}

/// Whether all 1,000 gets on 16 shards are answered, in the order of each origin.
fn is_answered<R: Threads + Wait + Sync>(
    rt: &R,
    alloc: Global,
    mode: &str,
    lines: &[u8],
    around: (&[u8], &[u8]),
) -> Result<bool, AllocError> {
    let words = [mode, "--shards", "16", "--pages", "1280"];
    let found = between(rt, alloc, words.as_slice(), lines, around.0, around.1)?;
    let Some(entries) = found else {
        return Ok(false);
    };
    match std::str::from_utf8(entries.as_slice()) {
        Ok(entries) => Ok(are_in_order(numbers(alloc, entries)?.as_slice())),
        Err(_) => Ok(false),
    }
}

#[test]
fn sixteen_origins_ask_one_owner(rt: HostRuntime) -> Result<(), Fail> {
    let alloc = rt.alloc();
    let lines = many(alloc, b"get a\n", 1000)?;
    let (before, behind) = around_the_entries(alloc)?;
    let around = (before.as_slice(), behind.as_slice());
    let run = is_answered(&rt, alloc, "run", lines.as_slice(), around)?;
    let sim = is_answered(&rt, alloc, "sim", lines.as_slice(), around)?;
    assert_eq!(rt; (run, sim), (true, true));
    Ok(())
}
