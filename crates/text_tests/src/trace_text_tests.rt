//! Which shard owns a key, where commands go, the longest value of a trace, and the tables of version 2.
mod limits;

ghost use Rattle.std.specs.Prelude.{◌≡◌, ◌<◌, [], ◌∷◌};
ghost use Rattle.trace_text.specs.Parts.{hash};

use std::alloc::Global;
use std::process::Abort;
use std::test::Fail;
use std::thread::Threads;
use trace_text::{Cause, MOST_SHARDS, ParseRefusal, Trace, owner_of, parse, parse_on};

// The hash of each key, by the definition that `owner_of` is proved to follow.
fn hashes_of_keys()
    ensures of_no_bytes { hash [] ≡ 14695981039346656037 }
    ensures of_a { hash (97 ∷ []) ≡ 12638187200555641996 }
    ensures of_b { hash (98 ∷ []) ≡ 12638190499090526629 }
    ensures of_c { hash (99 ∷ []) ≡ 12638189399578898418 }
    ensures of_d { hash (100 ∷ []) ≡ 12638183902020757363 }
{}

// The owner among so many shards is the hash modulo their number.
fn expect_owners(rt: &impl Abort, key: &[u8], hashed: u64) {
    for shards in 1..=MOST_SHARDS {
        let owner = u64::from(owner_of(key, shards));
        assert_eq!(rt; owner, hashed % u64::from(shards));
    }
}

#[test]
fn a_key_has_its_hash(rt: HostRuntime) -> Result<(), Fail> {
    for (key, hashed, of_2, of_16) in [
        ("", 0xcbf2_9ce4_8422_2325, 1, 5),
        ("a", 0xaf63_dc4c_8601_ec8c, 0, 12),
        ("b", 0xaf63_df4c_8601_f1a5, 1, 5),
        ("c", 0xaf63_de4c_8601_eff2, 0, 2),
        ("d", 0xaf63_d94c_8601_e773, 1, 3),
    ] {
        expect_owners(&rt, key.as_bytes(), hashed);
        let owners = (owner_of(key.as_bytes(), 2), owner_of(key.as_bytes(), 16));
        assert_eq!(rt; owners, (of_2, of_16));
    }
    hashes_of_keys();
    Ok(())
}

// The longest value of these lines.
fn longest_of(rt: &impl Abort, alloc: Global, input: &str) -> Result<u32, Fail> {
    let bytes = input.as_bytes().to_vec(alloc)?;
    assert!(rt; bytes.len() <= 1000);
    Ok(parse(alloc, bytes, 1)?.longest_value())
}

#[test]
fn the_longest_value_counts(rt: HostRuntime) -> Result<(), Fail> {
    for (input, longest) in [
        ("", 0),
        ("get a\nput a \n", 0),
        ("put a abc\nput b abcde\nput c ab\nscan abcdefgh 3\n", 5),
    ] {
        assert_eq!(rt; longest_of(&rt, rt.alloc(), input)?, longest);
    }
    Ok(())
}

// The owner of the key of the command at a place, whether it is a scan, and whether each of two shards has a part of it.
fn parts_of(rt: &impl Abort, trace: &Trace, at: usize) -> (u32, bool, [bool; 2])
    requires { trace.now.shards ≡ 2 }
{
    assert!(rt; at < trace.commands().len());
    let parts = [trace.has_part(at, 0), trace.has_part(at, 1)];
    (trace.owner(at), trace.is_scan(at), parts)
}

#[test]
fn a_trace_tells_where_its_commands_go(rt: HostRuntime) -> Result<(), Fail> {
    let bytes = "put a 1\nget b\nscan c 3\nerase d\n"
        .as_bytes()
        .to_vec(rt.alloc())?;
    assert!(rt; bytes.len() <= 1000);
    let trace = parse(rt.alloc(), bytes, 2)?;
    for (at, parts) in [
        (0, (0, false, [true, false])),
        (1, (1, false, [false, true])),
        (2, (0, true, [true, true])),
        (3, (1, false, [false, true])),
    ] {
        assert_eq!(rt; parts_of(&rt, &trace, at), parts);
    }
    Ok(())
}

// The four commands come again and again, on lines of which six stand for four.
fn expect_commands(rt: &impl Abort, trace: &Trace) {
    assert_eq!(rt; (trace.version(), trace.regions()), (1, 1));
    assert_eq!(rt; trace.commands().len(), 400);
    for (at, command) in trace.commands().iter().enumerate() {
        let (line, key, value, count) = [
            (1, "a", "12", 0),
            (2, "bc", "", 0),
            (5, "d", "", 3),
            (6, "e", "", 0),
        ][at % 4];
        let place = (command.number as usize, command.line as usize);
        assert_eq!(rt; place, (at + 1, at / 4 * 6 + line));
        assert!(rt; trace.key(command) == key.as_bytes());
        assert!(rt; trace.value(command) == value.as_bytes());
        assert_eq!(rt; (command.table, command.count), (0, count));
    }
}

// The owner of the key of the command at a place, whether it is a scan, and whether each of three shards has a part of it.
fn parts_of_three(rt: &impl Abort, trace: &Trace, at: usize) -> (u32, bool, [bool; 3])
    requires { trace.now.shards ≡ 3 }
{
    assert!(rt; at < trace.commands().len());
    let parts = [
        trace.has_part(at, 0),
        trace.has_part(at, 1),
        trace.has_part(at, 2),
    ];
    (trace.owner(at), trace.is_scan(at), parts)
}

// By their hashes modulo 3 the four keys belong to the shards 1, 1, 1 and 0, and of the scan each shard has a part.
fn expect_parts(rt: &impl Abort, trace: &Trace)
    requires { trace.now.shards ≡ 3 }
{
    const PARTS: [(u32, bool, [bool; 3]); 4] = [
        (1, false, [false, true, false]),
        (1, false, [false, true, false]),
        (1, true, [true, true, true]),
        (0, false, [true, false, false]),
    ];
    for at in 0..400 {
        assert_eq!(rt; parts_of_three(rt, trace, at), PARTS[at % 4]);
    }
}

#[test]
fn lines_are_read_on_threads_in_their_order(rt: HostRuntime) -> Result<(), Fail> {
    let lines = b"put a 12\nget bc\n# none\n\nscan d 3\r\nerase e\n".repeat(rt.alloc(), 100)?;
    for threads in [1, 2, 3, 7] {
        let bytes = lines.to_vec(rt.alloc())?;
        assert!(rt; bytes.len() <= 10_000);
        let trace = parse_on(&rt, rt.alloc(), threads, bytes, 3)?;
        expect_commands(&rt, &trace);
        expect_parts(&rt, &trace);
    }
    Ok(())
}

// A line of six bytes asks for `a` each time, so a command's number is its line's.
fn expect_gets(rt: &impl Abort, trace: &Trace, count: usize) {
    let commands = trace.commands();
    assert_eq!(rt; commands.len(), count);
    for (at, command) in commands.iter().enumerate() {
        assert_eq!(rt;
            (command.number as usize, command.line as usize),
            (at + 1, at + 1)
        );
        assert!(rt; trace.key(command) == b"a".as_slice());
    }
}

// Threads read 65,536 lines at a time: one stretch that is not full, one that is, one line more, and two and a part of a third.
#[test]
fn lines_are_read_a_stretch_after_another(rt: HostRuntime) -> Result<(), Fail> {
    const COUNTS: &[usize] = &[65_535, 65_536, 65_537, 140_000];
    for &count in COUNTS {
        let bytes = b"get a\n".repeat(rt.alloc(), count)?;
        assert!(rt; bytes.len() <= 1_000_000);
        let trace = parse_on(&rt, rt.alloc(), 2, bytes, 2)?;
        expect_gets(&rt, &trace, count);
    }
    Ok(())
}

#[test]
fn the_first_refused_line_is_named_on_threads(rt: HostRuntime) -> Result<(), Fail> {
    let bytes = b"put a 1\nget\nput a\n".to_vec(rt.alloc())?;
    assert!(rt; bytes.len() <= 1000);
    match parse_on(&rt, rt.alloc(), 2, bytes, 2) {
        Err(ParseRefusal::Trace { line, cause }) => {
            assert_eq!(rt; (line, cause), (2, Cause::MissingField));
        }
        _ => assert!(rt; false, "not refused"),
    }
    Ok(())
}

// The same with tables, behind the line that says the version.
fn expect_commands_on_tables(rt: &impl Abort, trace: &Trace) {
    assert_eq!(rt; (trace.version(), trace.regions()), (2, 8));
    assert_eq!(rt; trace.commands().len(), 400);
    for (at, command) in trace.commands().iter().enumerate() {
        let (line, table, key, value, count) = [
            (2, 0, "a", "3 12", 0),
            (3, 7, "bc", "", 0),
            (6, 3, "d", "", 3),
            (7, 4, "3", "", 0),
        ][at % 4];
        let place = (command.number as usize, command.line as usize);
        assert_eq!(rt; place, (at + 1, at / 4 * 6 + line));
        assert_eq!(rt; (command.table, command.count), (table, count));
        assert!(rt; trace.key(command) == key.as_bytes());
        assert!(rt; trace.value(command) == value.as_bytes());
    }
}

#[test]
fn a_command_of_version_2_names_its_table(rt: HostRuntime) -> Result<(), Fail> {
    let lines = b"put 0 a 3 12\nget 7 bc\n# none\n\nscan 3 d 3\r\nerase 4 3\n".repeat(
        rt.alloc(),
        100,
    )?;
    for threads in [1, 2, 3] {
        let mut bytes = Vec::from_slice(rt.alloc(), b"version 2\r\n")?;
        bytes.extend_from_slice(&lines)?;
        assert!(rt; bytes.len() <= 10_000);
        let trace = parse_on(&rt, rt.alloc(), threads, bytes, 3)?;
        expect_commands_on_tables(&rt, &trace);
    }
    Ok(())
}

// The owners of the keys of two commands.
fn two_owners(rt: &impl Abort, trace: &Trace) -> [u32; 2] {
    assert!(rt; trace.commands().len() == 2);
    [trace.owner(0), trace.owner(1)]
}

#[test]
fn a_table_plays_no_part_in_the_owner(rt: HostRuntime) -> Result<(), Fail> {
    let bytes = b"version 2\nput 3 a 1\nput 4 a 2\n".to_vec(rt.alloc())?;
    assert!(rt; bytes.len() <= 1000);
    let trace = parse(rt.alloc(), bytes, 16)?;
    assert_eq!(rt; two_owners(&rt, &trace), [12, 12]);
    Ok(())
}

// The first line of these that is refused, and its cause, where they are read on so many threads.
fn refused_of<R: Threads + Sync + Abort>(
    rt: &R,
    alloc: Global,
    threads: usize,
    input: &str,
) -> Result<Option<(u32, Cause)>, Fail>
    requires { 0 < threads }
{
    let bytes = input.as_bytes().to_vec(alloc)?;
    assert!(rt; bytes.len() <= 1000);
    match parse_on(rt, alloc, threads, bytes, 1) {
        Ok(_) => Ok(None),
        Err(ParseRefusal::Trace { line, cause }) => Ok(Some((line, cause))),
        Err(ParseRefusal::Memory) => Err(Fail::from("no memory is left")),
    }
}

// The same on one thread and on two.
fn refused_on_both<R: Threads + Sync + Abort>(
    rt: &R,
    alloc: Global,
    input: &str,
) -> Result<Option<(u32, Cause)>, Fail> {
    let refused = refused_of(rt, alloc, 1, input)?;
    assert!(rt; refused_of(rt, alloc, 2, input)? == refused);
    Ok(refused)
}

#[test]
fn a_table_is_one_digit_behind_the_word(rt: HostRuntime) -> Result<(), Fail> {
    for (input, refused) in [
        ("version 2\nput 0 a 1\nput 7 a 1\n", None),
        ("version 2\nput 8 a 1\n", Some((2, Cause::Table))),
        ("version 2\nput 03 a 1\n", Some((2, Cause::Table))),
        ("version 2\nget a\n", Some((2, Cause::Table))),
        ("version 2\nget  3 a\n", Some((2, Cause::Table))),
        ("version 2\nget /\n", Some((2, Cause::Table))),
        ("version 2\nget 3\n", Some((2, Cause::MissingField))),
        ("version 2\nget\n", Some((2, Cause::MissingField))),
        ("version 2\nget 3 \n", Some((2, Cause::KeyLength))),
        ("version 2\nget 3 a b\n", Some((2, Cause::ExtraField))),
        ("version 2\nscan 3 a 33\n", Some((2, Cause::Count))),
        ("version 2\nlist 8 a\n", Some((2, Cause::UnknownWord))),
    ] {
        assert_eq!(rt; refused_on_both(&rt, rt.alloc(), input)?, refused);
    }
    Ok(())
}

#[test]
fn the_first_line_alone_says_the_version(rt: HostRuntime) -> Result<(), Fail> {
    for (input, refused) in [
        ("version 2", None),
        ("version 2\r\nget 3 a\n", None),
        ("version 2 \nget 3 a\n", Some((1, Cause::UnknownWord))),
        ("version 2\r\r\nget 3 a\n", Some((1, Cause::UnknownWord))),
        ("version 1\nget a\n", Some((1, Cause::UnknownWord))),
        ("put a 1\nversion 2\n", Some((2, Cause::UnknownWord))),
        ("\nversion 2\n", Some((2, Cause::UnknownWord))),
        ("version 2\nversion 2\n", Some((2, Cause::UnknownWord))),
    ] {
        assert_eq!(rt; refused_on_both(&rt, rt.alloc(), input)?, refused);
    }
    Ok(())
}
