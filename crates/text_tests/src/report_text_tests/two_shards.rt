//! Two shards: a and c belong to shard 0, b and z to shard 1.
ghost use Rattle.std.specs.Prelude.{◌≡◌, ℕ, List, map, Some, IfOk};
ghost use Rattle.trace_text.specs.Parsed.{trace_in};
ghost use Rattle.rows.specs.Apply.{Reply};
ghost use Rattle.cache_model.specs.Examples.{two_shards};
ghost use Rattle.cache_model.specs.Logged.{AreLogged};
ghost use Rattle.report_text.specs.Views.{replies_in};

use super::journal_of;
use super::written::{Form, Run, writes};
use cache_model::{Entry, ReplyKind};
use report_text::ShardLine;
use run_log::{Journal, ReplyLog};
use std::alloc::{AllocError, Global};
use std::process::Abort;
use std::test::Fail;
use trace_text::{Trace, parse};

/// The trace on which the definitions are checked by computation.
fn two_shards(alloc: Global) -> Result<Trace, Fail>
    ensures trace { IfOk result (λ trace. trace_in trace ≡ two_shards) }
    ensures shards { IfOk result (λ trace. trace.shards ≡ 2) }
{
    let text = b"put a 1\nget z\nput b 2\nget z\nput c 3\nget z\nscan a 3\n";
    Ok(parse(alloc, Vec::from_slice(alloc, text)?, 2)?)
}

/// A log of these replies.
fn filled_log(
    rt: &impl Abort,
    alloc: Global,
    replies: &[(ReplyKind, &[u8])],
) -> Result<ReplyLog, Fail>
    ensures { IfOk result (λ log. log.replies ≡ map (λ reply. Some (reply.0, reply.1.now)) replies.now) }
{
    assert!(rt; replies.len() <= 10);
    let mut log = ReplyLog::new(alloc, replies.len() as u32, 1000)?;
    for (part, (kind, body)) in replies.iter().enumerate() {
        assert!(rt; body.len() <= 100);
        log.record(part as u32, *kind, body);
    }
    Ok(log)
}

/// The replies to the parts that each shard issues.
fn two_logs(rt: &impl Abort, alloc: Global) -> Result<[ReplyLog; 2], Fail>
    ensures { IfOk result (λ logs. (answers : List (ℕ × Reply)) × AreLogged two_shards 2 (replies_in logs) answers) }
{
    use ReplyKind::{Keys, Missing, Stored};
    let first: [(ReplyKind, &[u8]); 5] = [
        (Stored, b""),
        (Stored, b""),
        (Stored, b""),
        (Keys, b"\x01\0a\x01\0c"),
        (Keys, b"\x01\0b"),
    ];
    let second: [(ReplyKind, &[u8]); 3] = [(Missing, b""), (Missing, b""), (Missing, b"")];
    Ok([
        filled_log(rt, alloc, &first)?,
        filled_log(rt, alloc, &second)?,
    ])
}

/// What was done on each shard.
fn two_journals(alloc: Global) -> Result<[Journal; 2], AllocError> {
    Ok([
        journal_of(alloc, &[1, 5, 7].map(Entry::Done))?,
        journal_of(alloc, &[2, 4, 3, 6, 7].map(Entry::Done))?,
    ])
}

/// What a shard of so many rows holds.
fn line_of(rows: u32, live: u64) -> ShardLine {
    ShardLine {
        rows,
        live,
        lent: 2,
        back: 2,
    }
}

/// Whether this is written of the run on the two shards.
fn writes_of_two(rt: &impl Abort, alloc: Global, form: Form, text: &str) -> Result<bool, Fail> {
    let trace = two_shards(alloc)?;
    let logs = two_logs(rt, alloc)?;
    let journals = two_journals(alloc)?;
    let lines = [line_of(2, 96), line_of(1, 48)];
    let run = Run {
        trace: &trace,
        shards: 2,
        logs: &logs,
        journals: &journals,
        lines: &lines,
    };
    writes(alloc, form, &run, 1000, Ok(()), text.as_bytes())
}

/// What a report says of the two shards, and what a summary says.
#[test]
fn two_shards_are_reported_and_summed_up(rt: HostRuntime) -> Result<(), Fail> {
    for (form, text) in [
        (
            Form::Report,
            "1 stored\n2 missing\n3 stored\n4 missing\n5 stored\n6 missing\n7 keys a b c\n\
            journal 0 1 5 7\njournal 1 2 4 3 6 7\nshard 0 rows 2 live 96 lent 2 back 2\n\
            shard 1 rows 1 live 48 lent 2 back 2\n",
        ),
        (
            Form::Summary,
            "commands 7\nstored 3 replaced 0 values 0 missing 3 erased 0 scans 1\nevictions 0\n\
            shard 0 rows 2 live 96 lent 2 back 2\nshard 1 rows 1 live 48 lent 2 back 2\n",
        ),
    ] {
        let is_written = writes_of_two(&rt, rt.alloc(), form, text)?;
        assert!(rt; is_written);
    }
    Ok(())
}
