//! What no contract says: that a report can be written at all, and what it looks like.
ghost use Rattle.std.specs.Prelude.{◌≡◌, ℕ, ◌≤◌, List, [], ◌∷◌, length, true, IfOk};
ghost use Rattle.rows.specs.Apply.{Reply, Keys, is_at_most};
ghost use Rattle.rows.specs.Fits.{AreFound, FitsKind};
ghost use Rattle.rows.specs.Key.{Key, in_table};
ghost use Rattle.trace_text.specs.Parsed.{trace_in};
ghost use Rattle.cache_model.specs.Logged.{AreLogged};
ghost use Rattle.rows.specs.Spelled.{spelled};
ghost use Rattle.rows.specs.declared.kind.Kind.TheVariants as CommandKind;

mod side_by_side;
mod two_shards;
mod written;

use cache_model::{Entry, ReplyKind, is_at_most};
use outside::Failed;
use report_text::ShardLine;
use run_log::{Journal, ReplyLog};
use std::alloc::{AllocError, Global};
use std::process::Abort;
use std::test::Fail;
use trace_text::{Kind, Trace, parse};
use written::{Form, Run, writes};

/// The keys b and c.
const B_AND_C: &[u8] = b"\x01\0b\x01\0c";

/// Whether a scan of so many keys, from this one on, can find b and c.
fn finds_b_and_c(key: &[u8], count: u32) -> bool
    ensures { result ≡ true → (2 ≤ count) × (is_at_most key.now (98 ∷ []) ≡ true) × (is_at_most key.now (99 ∷ []) ≡ true) }
{
    count >= 2 && is_at_most(key, b"b") && is_at_most(key, b"c")
}

/// The keys that a scan finds: b and c where the body is theirs and the scan can find them, else none.
fn found_keys<'b>(key: &[u8], count: u32, body: &'b [u8]) -> &'b [u8]
    ensures keys { (keys : List (List ℕ)) × AreFound key.now count keys × ((ReplyKind.Keys, result.now) ≡ spelled (Keys keys)) }
    ensures short { length result.now ≤ length body.now }
{
    if finds_b_and_c(key, count) && body == B_AND_C {
        body
    } else {
        &body[..0]
    }
}

/// The kind of a reply to a put: this one, where it can be.
fn put_reply(kind: ReplyKind) -> ReplyKind
    ensures { (reply : Reply) × ((result, []) ≡ spelled reply)
        × ((longest : ℕ) (key : Key) (count : ℕ) → FitsKind CommandKind.Put longest key count reply) }
{
    match kind {
        ReplyKind::Replaced => ReplyKind::Replaced,
        _ => ReplyKind::Stored,
    }
}

/// The kind of a reply to an erase: this one, where it can be.
fn erase_reply(kind: ReplyKind) -> ReplyKind
    ensures { (reply : Reply) × ((result, []) ≡ spelled reply)
        × ((longest : ℕ) (key : Key) (count : ℕ) → FitsKind CommandKind.Erase longest key count reply) }
{
    match kind {
        ReplyKind::Erased => ReplyKind::Erased,
        _ => ReplyKind::Missing,
    }
}

/// The reply to a get, where no value is longer than `longest`: this one where it can be, else that the key is missing.
fn get_reply(longest: u32, kind: ReplyKind, body: &[u8]) -> (ReplyKind, &[u8])
    ensures fits { (key : Key) (count : ℕ)
        → (reply : Reply) × ((result.0, result.1.now) ≡ spelled reply) × FitsKind CommandKind.Get longest key count reply }
    ensures short { length result.1.now ≤ length body.now }
{
    if kind == ReplyKind::Value && body.len() <= longest as usize {
        (ReplyKind::Value, body)
    } else {
        (ReplyKind::Missing, &body[..0])
    }
}

/// A reply that a command of this kind, with this key of a table, can have.
fn reply_to<'b>(
    asked: Kind,
    longest: u32,
    table: u8,
    key: &[u8],
    count: u32,
    kind: ReplyKind,
    body: &'b [u8],
) -> (ReplyKind, &'b [u8])
    ensures fits { (reply : Reply) × ((result.0, result.1.now) ≡ spelled reply)
        × FitsKind asked longest (in_table table key.now) count reply }
    ensures short { length result.1.now ≤ length body.now }
{
    match asked {
        Kind::Put => (put_reply(kind), &body[..0]),
        Kind::Get => get_reply(longest, kind, body),
        Kind::Erase => (erase_reply(kind), &body[..0]),
        Kind::Scan => (ReplyKind::Keys, found_keys(key, count, body)),
    }
}

/// A log with these replies, one to each command.
fn log_of(
    rt: &impl Abort,
    alloc: Global,
    trace: &Trace,
    replies: &[(ReplyKind, &[u8])],
) -> Result<ReplyLog, Fail>
    ensures { IfOk result (λ log. (answers : List (ℕ × Reply)) × AreLogged (trace_in trace.now) 1 (log.replies ∷ []) answers) }
{
    let commands = trace.commands();
    assert!(rt; commands.len() == replies.len());
    assert!(rt; replies.len() <= 20_000);
    let longest = trace.longest_value();
    let mut log = ReplyLog::new(alloc, replies.len() as u32, 2_000_000)?;
    for (part, (kind, body)) in replies.iter().enumerate() {
        assert!(rt; body.len() <= 100);
        let command = &commands[part];
        let key = trace.key(command);
        let (kind, body) = reply_to(
            command.kind,
            longest,
            command.table,
            key,
            command.count,
            *kind,
            body,
        );
        log.record(part as u32, kind, body);
    }
    Ok(log)
}

/// A journal of these entries, or of the first 20,000.
fn journal_of(alloc: Global, entries: &[Entry]) -> Result<Journal, AllocError> {
    let room = entries.len().min(20_000);
    let mut journal = Journal::new(alloc, room as u32)?;
    for entry in entries {
        if journal.spare() > 0 {
            journal.add(*entry);
        }
    }
    Ok(journal)
}

/// A trace of these commands, for one shard.
fn trace_of(rt: &impl Abort, alloc: Global, input: &[u8]) -> Result<Trace, Fail>
    ensures { IfOk result (λ trace. trace.shards ≡ 1) }
{
    let bytes = input.to_vec(alloc)?;
    assert!(rt; bytes.len() <= 200_000);
    Ok(parse(alloc, bytes, 1)?)
}

/// Whether writing this of a run of these commands on one shard, with these replies, entries and line, ends so.
fn writes_of_one(
    rt: &impl Abort,
    alloc: Global,
    form: Form,
    input: &str,
    replies: &[(ReplyKind, &[u8])],
    entries: &[Entry],
    line: ShardLine,
    room: usize,
    want: Result<(), Failed>,
    text: &[u8],
) -> Result<bool, Fail> {
    let trace = trace_of(rt, alloc, input.as_bytes())?;
    let logs = [log_of(rt, alloc, &trace, replies)?];
    let journals = [journal_of(alloc, entries)?];
    let run = Run {
        trace: &trace,
        shards: 1,
        logs: &logs,
        journals: &journals,
        lines: &[line],
    };
    writes(alloc, form, &run, room, want, text)
}

/// Writes the report of these commands and replies into a sink of so much room, and looks at what it holds.
fn check_report(
    rt: &impl Abort,
    alloc: Global,
    input: &str,
    replies: &[(ReplyKind, &[u8])],
    (rows, live): (u32, u64),
    room: usize,
    want: Result<(), Failed>,
    text: &str,
) -> Result<(), Fail> {
    let entries = [1, 2, 3, 4, 5, 6].map(Entry::Done);
    let entries = &entries[..replies.len().min(6)];
    let line = ShardLine {
        rows,
        live,
        lent: 0,
        back: 0,
    };
    let is_written = writes_of_one(
        rt,
        alloc,
        Form::Report,
        input,
        replies,
        entries,
        line,
        room,
        want,
        text.as_bytes(),
    )?;
    assert!(rt; is_written, "{input:?}");
    Ok(())
}

#[test]
fn a_report_has_the_answers_the_journal_and_the_shard(rt: HostRuntime) -> Result<(), Fail> {
    use ReplyKind::{Erased, Keys, Missing, Replaced, Stored, Value};
    const REPORTS: [(&str, &[(ReplyKind, &[u8])], (u32, u64), &str); 4] = [
        (
            "put a abc\nget a\n",
            &[(Stored, b""), (Value, b"abc")],
            (1, 48),
            "1 stored\n2 value abc\njournal 0 1 2\nshard 0 rows 1 live 48 lent 0 back 0\n",
        ),
        (
            "put a \nget a\n",
            &[(Stored, b""), (Value, b"")],
            (1, 48),
            "1 stored\n2 value \njournal 0 1 2\nshard 0 rows 1 live 48 lent 0 back 0\n",
        ),
        (
            "put a 1\nput a 2\nget a\nerase a\nerase a\nget a\n",
            &[
                (Stored, b""),
                (Replaced, b""),
                (Value, b"2"),
                (Erased, b""),
                (Missing, b""),
                (Missing, b""),
            ],
            (0, 0),
            "1 stored\n2 replaced\n3 value 2\n4 erased\n5 missing\n6 missing\njournal 0 1 2 3 4 5 6\nshard 0 rows 0 live 0 lent 0 back 0\n",
        ),
        (
            "put b 1\nput c \nget b\nscan b 2\nscan d 5\nget d\n",
            &[
                (Stored, b""),
                (Stored, b""),
                (Value, b"1"),
                (Keys, B_AND_C),
                (Keys, b""),
                (Missing, b""),
            ],
            (2, 96),
            "1 stored\n2 stored\n3 value 1\n4 keys b c\n5 keys\n6 missing\njournal 0 1 2 3 4 5 6\nshard 0 rows 2 live 96 lent 0 back 0\n",
        ),
    ];
    for (input, replies, occupancy, text) in REPORTS {
        check_report(
            &rt,
            rt.alloc(),
            input,
            replies,
            occupancy,
            1000,
            Ok(()),
            text,
        )?;
    }
    Ok(())
}

#[test]
fn a_report_of_version_2_has_keys_of_one_table(rt: HostRuntime) -> Result<(), Fail> {
    use ReplyKind::{Keys, Missing, Stored};
    check_report(
        &rt,
        rt.alloc(),
        "version 2\nput 4 b 1\nput 4 c 2\nget 3 b\nscan 4 b 2\n",
        &[
            (Stored, b""),
            (Stored, b""),
            (Missing, b""),
            (Keys, B_AND_C),
        ],
        (2, 96),
        1000,
        Ok(()),
        "1 stored\n2 stored\n3 missing\n4 keys b c\njournal 0 1 2 3 4\nshard 0 rows 2 live 96 lent 0 back 0\n",
    )
}

#[test]
fn a_report_ends_where_its_sink_fails(rt: HostRuntime) -> Result<(), Fail> {
    use ReplyKind::{Stored, Value};
    check_report(
        &rt,
        rt.alloc(),
        "put a abc\nget a\n",
        &[(Stored, b""), (Value, b"abc")],
        (1, 48),
        10,
        Err(Failed),
        "1 stored\n2",
    )
}

/// The report of a run with no command, whose journal has 20,000 entries.
fn long_text(alloc: Global) -> Result<Vec<u8>, AllocError> {
    let mut text = Vec::from_slice(alloc, b"journal 0")?;
    let entries = b" 1000000".repeat(alloc, 20_000)?;
    text.extend_from_slice(&entries)?;
    text.extend_from_slice(b"\nshard 0 rows 0 live 0 lent 3 back 2\n")?;
    Ok(text)
}

#[test]
fn a_report_longer_than_a_block_is_complete(rt: HostRuntime) -> Result<(), Fail> {
    let entries = vec![in rt.alloc(); Entry::Done(1_000_000); 20_000]?;
    let line = ShardLine {
        rows: 0,
        live: 0,
        lent: 3,
        back: 2,
    };
    let text = long_text(rt.alloc())?;
    let is_written = writes_of_one(
        &rt,
        rt.alloc(),
        Form::Report,
        "",
        &[],
        &entries,
        line,
        200_000,
        Ok(()),
        &text,
    )?;
    assert!(rt; is_written);
    Ok(())
}

#[test]
fn a_summary_counts_answers_and_evictions(rt: HostRuntime) -> Result<(), Fail> {
    use ReplyKind::{Erased, Keys, Missing, Replaced, Stored, Value};
    let input = "put a 1\nput a 2\nget a\nerase a\nerase a\nget a\nscan a 3\n";
    const REPLIES: &[(ReplyKind, &[u8])] = &[
        (Stored, b""),
        (Replaced, b""),
        (Value, b"2"),
        (Erased, b""),
        (Missing, b""),
        (Missing, b""),
        (Keys, b""),
    ];
    const ENTRIES: &[Entry] = &[Entry::Done(1), Entry::Evicted(1), Entry::Evicted(2)];
    let line = ShardLine {
        rows: 5,
        live: 240,
        lent: 3,
        back: 2,
    };
    let text = b"commands 7\nstored 1 replaced 1 values 1 missing 2 erased 1 scans 1\nevictions 2\n\
        shard 0 rows 5 live 240 lent 3 back 2\n"
        .as_slice();
    for (room, want) in [(1000, Ok(())), (30, Err(Failed))] {
        let text = &text[..room.min(text.len())];
        let is_written = writes_of_one(
            &rt,
            rt.alloc(),
            Form::Summary,
            input,
            REPLIES,
            ENTRIES,
            line,
            room,
            want,
            text,
        )?;
        assert!(rt; is_written);
    }
    Ok(())
}
