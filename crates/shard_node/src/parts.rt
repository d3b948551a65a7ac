//! The parts that a shard issues to itself: what its store answers goes into its log.
ghost use Rattle.std.specs.Prelude.{◌≡◌, ◌⊎◌, ◌*◌, ◌+◌, ◌^◌, ◌<◌, ◌≤◌, length, true, Some, None};
ghost use Rattle.std.specs.List.{slice_get};
ghost use Rattle.layout.specs.Sizes.{key_room, most_keys, tables};
ghost use Rattle.rows.specs.declared.kind.Kind.TheVariants as kinds;
ghost use Rattle.rows.specs.Apply.{apply, has};
ghost use Rattle.rows.specs.Key.{key_shown};
ghost use Rattle.rows.specs.Spelled.{spelled};
ghost use Rattle.rows.specs.Askable.{IsAskable};
ghost use Rattle.rows.specs.Operations.{erase_of, get_of, key_of, kind_of, numbered, put_of, scan_of};
ghost use Rattle.shard_store.specs.Stores.{IsUnguarded};
ghost use Rattle.shard_node.specs.inside.Parts.{DoesPart};

use crate::doing::{note_done, put_row};
use cache_model::ReplyKind;
use rows::Key;
use run_log::{Journal, LONG_BODY, ReplyLog};
use shard_rings::Operation;
use shard_store::{Put, ShardStore};
use trace_text::Trace;

/// Does a part, of the command of this number of the trace: the command is recorded in the journal, behind the evictions that it took,
/// and its reply in the log, at the place of the part. `keys` has room for the keys of any scan. Nothing takes memory.
pub(crate) fn do_part(
    store: &mut ShardStore<'_>,
    trace: &Trace,
    number: u32,
    operation: &Operation<'_>,
    part: u32,
    keys: &mut [u8],
    journal: &mut Journal,
    log: &mut ReplyLog,
)
    // What is asked, with no guard standing, and blocks that came home are counted.
    requires askable { IsAskable (numbered number operation.now) }
    requires unguarded { IsUnguarded store.old }
    requires counted { store.old.backs < 2 ^ 64 }

    // Nothing it writes lacks room.
    requires tables { kind_of operation.now ≡ kinds.Put
        → (has (key_of operation.now) store.old.rows ≡ true) ⊎ (length store.old.rows < store.old.room) }
    requires spare { length store.old.rows + 1 ≤ journal.old.spare }
    requires buffer { length keys.old ≡ key_room * most_keys }
    requires unanswered { slice_get log.old.replies part ≡ Some None }
    requires fits { length (spelled (apply (numbered number operation.now) store.old.rows).1).1 ≤ log.old.room }

    // What it does, answers and writes down.
    ensures { DoesPart part (numbered number operation.now) store.old store.new journal.old journal.new log.old log.new }
{
    match *operation {
        Operation::Put { key, value } => do_put(store, number, key, value, part, journal, log),
        Operation::Get { key } => do_get(store, trace, number, key, part, journal, log),
        Operation::Erase { key } => do_erase(store, number, key, part, journal, log),
        Operation::Scan { from, count } => {
            do_scan(store, number, from, count, part, keys, journal, log);
        }
    }
}

/// Stores a row.
fn do_put(
    store: &mut ShardStore<'_>,
    number: u32,
    key: Key<'_>,
    value: &[u8],
    part: u32,
    journal: &mut Journal,
    log: &mut ReplyLog,
)
    requires askable { IsAskable (put_of number (key_shown key) value.now) }
    requires unguarded { IsUnguarded store.old }
    requires tables { (has (key_shown key) store.old.rows ≡ true) ⊎ (length store.old.rows < store.old.room) }
    requires spare { length store.old.rows + 1 ≤ journal.old.spare }
    requires unanswered { slice_get log.old.replies part ≡ Some None }
    ensures { DoesPart part (put_of number (key_shown key.entry) value.now) store.old store.new journal.old journal.new log.old log.new }
{
    let kind = match put_row(store, number, key, value, journal) {
        Put::Stored => ReplyKind::Stored,
        Put::Replaced => ReplyKind::Replaced,
    };
    log.record(part, kind, &[]);
}

/// Looks a row up. Its value is copied once, from its segment into the log, or not at all where its put has it in the trace.
fn do_get(
    store: &mut ShardStore<'_>,
    trace: &Trace,
    number: u32,
    key: Key<'_>,
    part: u32,
    journal: &mut Journal,
    log: &mut ReplyLog,
)
    requires table { key.table < tables }
    requires unguarded { IsUnguarded store.old }
    requires counted { store.old.backs < 2 ^ 64 }
    requires spare { 1 ≤ journal.old.spare }
    requires unanswered { slice_get log.old.replies part ≡ Some None }
    requires fits { length (spelled (apply (get_of number (key_shown key)) store.old.rows).1).1 ≤ log.old.room }
    ensures { DoesPart part (get_of number (key_shown key.entry)) store.old store.new journal.old journal.new log.old log.new }
{
    note_done(journal, number);
    match store.get(key.table, key.bytes) {
        Some((value, put)) => log.record_value(part, value, place_in(trace, put, value)),
        None => log.record(part, ReplyKind::Missing, &[]),
    }
}

/// Where the put of this number has a long value in the trace. Of a short one it is not asked: a look at its command waits for memory.
fn place_in(trace: &Trace, put: u32, value: &[u8]) -> u32 {
    if value.len() < LONG_BODY {
        0
    } else {
        trace.value_start(put)
    }
}

/// Removes a row.
fn do_erase(
    store: &mut ShardStore<'_>,
    number: u32,
    key: Key<'_>,
    part: u32,
    journal: &mut Journal,
    log: &mut ReplyLog,
)
    requires table { key.table < tables }
    requires unguarded { IsUnguarded store.old }
    requires counted { store.old.backs < 2 ^ 64 }
    requires spare { 1 ≤ journal.old.spare }
    requires unanswered { slice_get log.old.replies part ≡ Some None }
    ensures { DoesPart part (erase_of number (key_shown key.entry)) store.old store.new journal.old journal.new log.old log.new }
{
    note_done(journal, number);
    let kind = if store.erase(key.table, key.bytes) {
        ReplyKind::Erased
    } else {
        ReplyKind::Missing
    };
    log.record(part, kind, &[]);
}

/// Looks keys up, and writes them into `keys` on their way into the log.
fn do_scan(
    store: &mut ShardStore<'_>,
    number: u32,
    from: Key<'_>,
    count: u32,
    part: u32,
    keys: &mut [u8],
    journal: &mut Journal,
    log: &mut ReplyLog,
)
    // A scan, with no guard standing, and blocks that came home are counted.
    requires askable { IsAskable (scan_of number (key_shown from) count) }
    requires unguarded { IsUnguarded store.old }
    requires counted { store.old.backs < 2 ^ 64 }

    // Nothing it writes lacks room.
    requires spare { 1 ≤ journal.old.spare }
    requires buffer { key_room * count ≤ length keys.old }
    requires unanswered { slice_get log.old.replies part ≡ Some None }
    requires fits { length (spelled (apply (scan_of number (key_shown from) count) store.old.rows).1).1 ≤ log.old.room }

    // What it does, answers and writes down.
    ensures { DoesPart part (scan_of number (key_shown from.entry) count) store.old store.new journal.old journal.new log.old log.new }
{
    note_done(journal, number);
    let scanned = store.scan(from.table, from.bytes, count, keys);
    log.record(part, ReplyKind::Keys, &keys[..scanned.bytes as usize]);
}
