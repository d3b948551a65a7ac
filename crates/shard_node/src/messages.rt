//! Messages to other shards, in lent blocks.
ghost use Rattle.std.specs.Prelude.{◌≡◌, ◌+◌, ◌*◌, ◌<◌, ◌≤◌, length, drop, if◌then◌else◌, IfSome};
ghost use Rattle.layout.specs.Sizes as sizes;
ghost use Rattle.rows.specs.declared.kind.Kind.TheVariants as kinds;
ghost use Rattle.rows.specs.Apply.{row_of, Reply as Replied, Erased, Missing};
ghost use Rattle.rows.specs.Key.{key_shown};
ghost use Rattle.rows.specs.Spelled.{spelled};
ghost use Rattle.row_cache.specs.Rows.{reply_of};
ghost use Rattle.shard_memory.specs.Tickets.{HasIdle};
ghost use Rattle.shard_memory.specs.declared.share.Share.{Share as Shares};
ghost use Rattle.rows.specs.Askable.{IsAskable};
ghost use Rattle.rows.specs.Operations.{count_of, erase_of, get_of, key_of, kind_of, numbered, put_of, scan_of};
ghost use Rattle.shard_rings.specs.Request.{request as request_of};
ghost use Rattle.shard_rings.specs.Reply.{HoldsReply};
ghost use Rattle.shard_store.specs.Lending.{LendsBlock, found_in, value_length};
ghost use Rattle.shard_store.specs.Stores.{IsUnguarded};
ghost use Rattle.shard_store.specs.Works.{floor_of};
ghost use Rattle.shard_node.specs.inside.Did.{body_size, DoesAbove, EvictsForBlock, HasPlace};
ghost use Rattle.shard_node.specs.inside.Bare.{IsBare};

use crate::doing::{note_done, put_row};
use cache_model::ReplyKind;
use foreign_list::ForeignBlock;
use layout::MESSAGE_HEADER;
use rows::Key;
use run_log::Journal;
use shard_memory::Share;
use shard_rings::{Operation, request_size, write_reply_header, write_request};
use shard_store::{Put, ShardStore};

/// Lends a block with the request of an operation, of the command of this number. Rows that go for it are written down.
pub(crate) fn request<'f>(
    store: &mut ShardStore<'f>,
    number: u32,
    operation: &Operation<'_>,
    journal: &mut Journal,
) -> ForeignBlock<'f>
    // A request, for which any row may go.
    requires askable { IsAskable (numbered number operation.now) }
    requires idle { HasIdle store.old.lent Shares.Request }
    requires unguarded { IsUnguarded store.old }
    requires spare { length store.old.rows ≤ journal.old.spare }

    // What is lent.
    ensures bytes { result.piece.bytes ≡ request_of (numbered number operation.now) }
    ensures lends { LendsBlock Shares.Request store.old store.new result }

    // Rows that went are written down.
    ensures evicted { EvictsForBlock store.old store.new journal.old journal.new }
{
    let size = request_size(operation);
    let mut block = store.lend(size, Share::Request, journal);
    write_request(number, operation, block.bytes_mut());
    block
}

/// Does what another shard asks with the command of this number, and lends a block with the reply. The block is made first, and what
/// is looked up is found again behind that: making the block may move the row, or make it go. Rows that go are written down, and
/// behind them that the command is done.
///
/// The block has 16 bytes, and for a get the length that was found first behind them, for a scan room for so many keys of the
/// greatest length.
pub(crate) fn reply<'f>(
    store: &mut ShardStore<'f>,
    number: u32,
    operation: &Operation<'_>,
    journal: &mut Journal,
) -> ForeignBlock<'f>
    // What is asked, with no guard standing.
    requires askable { IsAskable (numbered number operation.now) }
    requires idle { HasIdle store.old.lent Shares.Reply }
    requires unguarded { IsUnguarded store.old }

    // Nothing it writes lacks room.
    requires within { length store.old.rows ≤ store.old.room }
    requires room { kind_of operation.now ≡ kinds.Put → HasPlace (key_of operation.now) store.old }
    requires spare { length store.old.rows + 1 ≤ journal.old.spare }

    // What it does, answers and writes down.
    ensures replied { (answer : Replied) × HoldsReply result.piece.bytes number answer
        × DoesAbove (floor_of store.old.pages store.old.lent store.old.regions) (numbered number operation.now) answer
        store.old store.new journal.old journal.new }

    // What is lent.
    ensures lends { LendsBlock Shares.Reply store.old store.new result }
    ensures size { length result.piece.bytes ≡ sizes.message_header
        + body_size (kind_of operation.now) (count_of operation.now) (row_of (key_of operation.now) store.old.rows) }
{
    match *operation {
        Operation::Put { key, value } => reply_put(store, number, key, value, journal),
        Operation::Get { key } => reply_get(store, number, key, journal),
        Operation::Erase { key } => reply_erase(store, number, key, journal),
        Operation::Scan { from, count } => reply_scan(store, number, from, count, journal),
    }
}

/// Stores a row.
fn reply_put<'f>(
    store: &mut ShardStore<'f>,
    number: u32,
    key: Key<'_>,
    value: &[u8],
    journal: &mut Journal,
) -> ForeignBlock<'f>
    requires askable { IsAskable (put_of number (key_shown key) value.now) }
    requires idle { HasIdle store.old.lent Shares.Reply }
    requires unguarded { IsUnguarded store.old }
    requires within { length store.old.rows ≤ store.old.room }
    requires room { HasPlace (key_shown key) store.old }
    requires spare { length store.old.rows + 1 ≤ journal.old.spare }
    ensures replied { (answer : Replied) × HoldsReply result.piece.bytes number answer
        × DoesAbove (floor_of store.old.pages store.old.lent store.old.regions) (put_of number (key_shown key.entry) value.now) answer
        store.old store.new journal.old journal.new }
    ensures lends { LendsBlock Shares.Reply store.old store.new result }
    ensures size { length result.piece.bytes ≡ sizes.message_header }
{
    let mut block = store.lend(MESSAGE_HEADER, Share::Reply, journal);
    let did = put_row(store, number, key, value, journal);
    write_stored(did, number, block.bytes_mut());
    block
}

/// Looks a row up.
fn reply_get<'f>(
    store: &mut ShardStore<'f>,
    number: u32,
    key: Key<'_>,
    journal: &mut Journal,
) -> ForeignBlock<'f>
    requires table { key.table < sizes.tables }
    requires idle { HasIdle store.old.lent Shares.Reply }
    requires unguarded { IsUnguarded store.old }
    requires spare { length store.old.rows + 1 ≤ journal.old.spare }
    ensures replied { (answer : Replied) × HoldsReply result.piece.bytes number answer
        × DoesAbove (floor_of store.old.pages store.old.lent store.old.regions) (get_of number (key_shown key.entry)) answer
        store.old store.new journal.old journal.new }
    ensures lends { LendsBlock Shares.Reply store.old store.new result }
    ensures size { length result.piece.bytes ≡ sizes.message_header + value_length (row_of (key_shown key.entry) store.old.rows) }
{
    let (mut block, found) = store.lend_value(
        key.table,
        key.bytes,
        MESSAGE_HEADER,
        Share::Reply,
        journal,
    );
    note_done(journal, number);
    write_found(found, number, block.bytes_mut());
    block
}

/// Removes a row.
fn reply_erase<'f>(
    store: &mut ShardStore<'f>,
    number: u32,
    key: Key<'_>,
    journal: &mut Journal,
) -> ForeignBlock<'f>
    requires table { key.table < sizes.tables }
    requires idle { HasIdle store.old.lent Shares.Reply }
    requires unguarded { IsUnguarded store.old }
    requires spare { length store.old.rows + 1 ≤ journal.old.spare }
    ensures replied { (answer : Replied) × HoldsReply result.piece.bytes number answer
        × DoesAbove (floor_of store.old.pages store.old.lent store.old.regions) (erase_of number (key_shown key.entry)) answer
        store.old store.new journal.old journal.new }
    ensures lends { LendsBlock Shares.Reply store.old store.new result }
    ensures size { length result.piece.bytes ≡ sizes.message_header }
{
    let mut block = store.lend(MESSAGE_HEADER, Share::Reply, journal);
    note_done(journal, number);
    let was_there = store.erase(key.table, key.bytes);
    write_erased(was_there, number, block.bytes_mut());
    block
}

/// Looks keys up.
fn reply_scan<'f>(
    store: &mut ShardStore<'f>,
    number: u32,
    from: Key<'_>,
    count: u32,
    journal: &mut Journal,
) -> ForeignBlock<'f>
    requires askable { IsAskable (scan_of number (key_shown from) count) }
    requires idle { HasIdle store.old.lent Shares.Reply }
    requires unguarded { IsUnguarded store.old }
    requires spare { length store.old.rows + 1 ≤ journal.old.spare }
    ensures replied { (answer : Replied) × HoldsReply result.piece.bytes number answer
        × DoesAbove (floor_of store.old.pages store.old.lent store.old.regions) (scan_of number (key_shown from.entry) count) answer
        store.old store.new journal.old journal.new }
    ensures lends { LendsBlock Shares.Reply store.old store.new result }
    ensures size { length result.piece.bytes ≡ sizes.message_header + sizes.key_room * count }
{
    let (mut block, scanned) = store.lend_keys(
        from.table,
        from.bytes,
        count,
        MESSAGE_HEADER,
        Share::Reply,
        journal,
    );
    note_done(journal, number);
    write_reply_header(
        ReplyKind::Keys,
        number,
        scanned.keys,
        scanned.bytes,
        block.bytes_mut(),
    );
    block
}

/// The reply to a put.
fn write_stored(did: Put, number: u32, into: &mut [u8])
    requires room { sizes.message_header ≤ length into.old }
    ensures { HoldsReply into.new number (reply_of did) }
{
    match did {
        Put::Stored => write_bare(ReplyKind::Stored, number, into),
        Put::Replaced => write_bare(ReplyKind::Replaced, number, into),
    }
}

/// The reply to an erase.
fn write_erased(was_there: bool, number: u32, into: &mut [u8])
    requires room { sizes.message_header ≤ length into.old }
    ensures { HoldsReply into.new number (if was_there then Erased else Missing) }
{
    if was_there {
        write_bare(ReplyKind::Erased, number, into);
    } else {
        write_bare(ReplyKind::Missing, number, into);
    }
}

/// The reply to a get, in front of the value that stands behind it already.
fn write_found(found: Option<u32>, number: u32, into: &mut [u8])
    requires room { sizes.message_header ≤ length into.old }
    requires within { IfSome found (λ len. sizes.message_header + len ≤ length into.old) }
    requires short { IfSome found (λ len. len ≤ sizes.greatest_value) }
    ensures { HoldsReply into.new number (found_in found (drop sizes.message_header into.old)) }
{
    match found {
        Some(len) => write_reply_header(ReplyKind::Value, number, 0, len, into),
        None => write_bare(ReplyKind::Missing, number, into),
    }
}

/// A reply without a body.
fn write_bare(kind: ReplyKind, number: u32, into: &mut [u8])
    requires { sizes.message_header ≤ length into.old }
    ensures { (answer : Replied) → IsBare answer → (spelled answer).0 ≡ kind → HoldsReply into.new number answer }
{
    write_reply_header(kind, number, 0, 0, into);
}
