//! Words that ask for something, and words that do not.
use settings::{Mode, Settings, settings_of};
use std::alloc::{AllocError, Global};
use std::test::Fail;

/// What the words of a line ask for.
fn settings_from(alloc: Global, line: &str) -> Result<Option<Settings>, AllocError> {
    let mut words = Vec::new(alloc);
    for word in line.split_whitespace() {
        words.push(String::from_str(alloc, word)?)?;
    }
    settings_of(alloc, words.as_slice())
}

/// The line, its shards, pages, number and commands.
type Row<'a> = (&'a str, u32, u32, u32, u32);

/// The first of these lines that does not ask for a run with its numbers.
fn first_other<'a>(alloc: Global, rows: &[Row<'a>]) -> Result<Option<&'a str>, AllocError> {
    for (line, shards, pages, number, commands) in rows {
        let wanted = Settings {
            mode: Mode::Run,
            shards: *shards,
            pages: *pages,
            number: *number,
            commands: *commands,
        };
        if settings_from(alloc, line)? != Some(wanted) {
            return Ok(Some(*line));
        }
    }
    Ok(None)
}

#[test]
fn words_ask_for_settings(rt: HostRuntime) -> Result<(), Fail> {
    let rows: [Row<'_>; 15] = [
        ("run", 1, 8192, 0, 100_000),
        ("run --shards 2", 2, 8192, 0, 100_000),
        ("run --shards=2", 2, 8192, 0, 100_000),
        ("--shards 2 run", 2, 8192, 0, 100_000),
        ("--shards=2 run", 2, 8192, 0, 100_000),
        ("run --pages 1280", 1, 1280, 0, 100_000),
        ("run --shards 16 --pages 16384", 16, 16_384, 0, 100_000),
        ("run --shards 0000000001", 1, 8192, 0, 100_000),
        (
            "run --number 4294967295 --commands 1",
            1,
            8192,
            4_294_967_295,
            1,
        ),
        ("run --pages=65536 --shards 4", 4, 65_536, 0, 100_000),
        ("run --number 0 --commands 100000", 1, 8192, 0, 100_000),
        ("--commands 7 run --number=0000000009", 1, 8192, 9, 7),
        ("-- run", 1, 8192, 0, 100_000),
        ("run --", 1, 8192, 0, 100_000),
        ("--shards 3 -- run", 3, 8192, 0, 100_000),
    ];
    assert_eq!(rt; first_other(rt.alloc(), rows.as_slice())?, None);
    Ok(())
}

/// The first of these lines that asks for something.
fn first_asking<'a>(alloc: Global, lines: &[&'a str]) -> Result<Option<&'a str>, AllocError> {
    for line in lines {
        if settings_from(alloc, line)?.is_some() {
            return Ok(Some(*line));
        }
    }
    Ok(None)
}

#[test]
fn other_words_are_refused(rt: HostRuntime) -> Result<(), Fail> {
    let rows: [&str; 46] = [
        "",
        "walk",
        "Run",
        "run run",
        "dirty --shards 2",
        "values --shards=16",
        "Dirty",
        "index --shards 2",
        "Index",
        "value",
        "run --shards 17",
        "run --shards 0",
        "run --pages 1281",
        "run --pages 1248",
        "run --pages 65568",
        "run --shards 16 --pages 32768",
        "run --shards",
        "run --shards=",
        "run --shards +1",
        "run --shards -1",
        "run --shards=-1",
        "run --shards 1x",
        "run --shards 0x1",
        "run --shards 00000000001",
        "run --shards 1 --shards 1",
        "run --shards=1 --shards=1",
        "run --shards 1 2",
        "run --shard 1",
        "run --SHARDS 1",
        "run -shards 1",
        "run --help",
        "run --version",
        "--help",
        "-h",
        "-V",
        "run -h",
        "run --threads 1",
        "run --commands 0",
        "run --commands 100001",
        "run --number 4294967296",
        "run --number 9999999999",
        "run -- --shards 2",
        "simulate",
        "generate",
        "help",
        "--shards 2",
    ];
    assert_eq!(rt; first_asking(rt.alloc(), rows.as_slice())?, None);
    Ok(())
}
