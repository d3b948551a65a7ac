//! A part of a command, done on rows in segments; and an eviction.
ghost use Rattle.std.specs.Prelude.{◌≡◌, ◌-◌, ◌&&◌, ◌<◌, ◌≤◌, nat_lt, true, [], length, take, None, Contains, IfOk, OnOk};
ghost use Rattle.std.specs.List.{last_or};
ghost use Rattle.layout.specs.Sizes.{greatest_key, greatest_value, most_keys, tables};
ghost use Rattle.rows.specs.Apply as parts;
ghost use Rattle.rows.specs.Key.{key_shown};
ghost use Rattle.rows.specs.Row.{is_of_put, live, size};
ghost use Rattle.rows.specs.Spelled.{spelled, with_body};
ghost use Rattle.trace_text.specs.Operation.{operation};
ghost use Rattle.regions.specs.Counts.{left};
ghost use Rattle.row_cache.specs.Rows.{group_for, reply_of, rows_of};
ghost use Rattle.indexed_cache.specs.inside.Kept.{KeepsSegments};

use crate::room::make_room;
use layout::SCAN_ROOM;
use row_bytes::row_size;
use row_cache::{Put, RowCache};
use rows::{Key, ReplyKind};
use std::alloc::AllocError;
use trace_text::{Command, Kind, Trace};

/// How a put is answered.
fn kind_of(did: Put) -> ReplyKind
    ensures { (result, []) ≡ spelled (reply_of did) }
{
    match did {
        Put::Stored => ReplyKind::Stored,
        Put::Replaced => ReplyKind::Replaced,
    }
}

/// Stores a row, for which the active segment of its table's group has room.
fn store(cache: &mut RowCache, key: &Key<'_>, value: &[u8], number: u32) -> ReplyKind
    requires table { key.now.table < tables }
    requires some_key { 1 ≤ length key.now.bytes.now }
    requires short_key { length key.now.bytes.now ≤ greatest_key }
    requires short_value { length value.now ≤ greatest_value }
    requires fits { size key.now.bytes.now value.now ≤ left cache.old.region (group_for cache.old.region key.now.table) }
    requires room { length (rows_of cache.old) < cache.old.room }
    ensures rows { rows_of cache.new ≡ (parts.put (key_shown key.now) value.now number (rows_of cache.old)).0 }
    ensures reply { (result, []) ≡ spelled (parts.put (key_shown key.now) value.now number (rows_of cache.old)).1 }
    ensures kept { KeepsSegments cache.old cache.new }
{
    let Ok(did) = cache.put(key.table, key.bytes, value, number) else {
        unreachable!()
    };
    kind_of(did)
}

/// Stores a row in front of the others. Refused where the tables, which have room for so many rows, or the segments are full.
fn put(
    cache: &mut RowCache,
    room: u32,
    key: &Key<'_>,
    value: &[u8],
    number: u32,
) -> Result<ReplyKind, AllocError>
    requires table { key.now.table < tables }
    requires some_key { 1 ≤ length key.now.bytes.now }
    requires short_key { length key.now.bytes.now ≤ greatest_key }
    requires short_value { length value.now ≤ greatest_value }
    requires room { room ≡ cache.old.room }
    ensures rows { OnOk result (rows_of cache.new ≡ (parts.put (key_shown key.now) value.now number (rows_of cache.old)).0) }
    ensures reply { IfOk result (λ kind. (kind, []) ≡ spelled (parts.put (key_shown key.now) value.now number (rows_of cache.old)).1) }
    ensures kept { KeepsSegments cache.old cache.new }
{
    if cache.rows() >= room {
        return Err(AllocError);
    }
    let group = cache.group_of(key.table);
    if !make_room(cache, group, row_size(key.bytes, value)) {
        return Err(AllocError);
    }
    Ok(store(cache, key, value, number))
}

/// A reply of this kind with these bytes as its body, which are put behind what stands there.
fn append_body(body: &mut Vec<u8>, kind: ReplyKind, bytes: &[u8]) -> Result<ReplyKind, AllocError>
    ensures { IfOk result (λ replied. (replied, body.new.items) ≡ with_body body.old.items (kind, bytes.now)) }
{
    body.extend_from_slice(bytes)?;
    Ok(kind)
}

/// Looks a row up, which is the one used last from now on.
fn get(cache: &mut RowCache, key: &Key<'_>, body: &mut Vec<u8>) -> Result<ReplyKind, AllocError>
    requires table { key.now.table < tables }
    ensures rows { rows_of cache.new ≡ (parts.get (key_shown key.now) (rows_of cache.old)).0 }
    ensures reply { IfOk result (λ kind. (kind, body.new.items) ≡ with_body body.old.items
        (spelled (parts.get (key_shown key.now) (rows_of cache.old)).1)) }
    ensures kept { KeepsSegments cache.old cache.new }
{
    match cache.get(key.table, key.bytes) {
        Some(value) => append_body(body, ReplyKind::Value, value),
        None => Ok(ReplyKind::Missing),
    }
}

/// Removes the row of a key.
fn erase(cache: &mut RowCache, key: &Key<'_>) -> ReplyKind
    requires table { key.now.table < tables }
    ensures rows { rows_of cache.new ≡ (parts.erase (key_shown key.now) (rows_of cache.old)).0 }
    ensures reply { (result, []) ≡ spelled (parts.erase (key_shown key.now) (rows_of cache.old)).1 }
    ensures kept { KeepsSegments cache.old cache.new }
{
    if cache.erase(key.table, key.bytes) {
        ReplyKind::Erased
    } else {
        ReplyKind::Missing
    }
}

/// Looks keys up, from a key on.
fn scan(
    cache: &mut RowCache,
    key: &Key<'_>,
    count: u32,
    body: &mut Vec<u8>,
) -> Result<ReplyKind, AllocError>
    requires table { key.now.table < tables }
    requires some { 1 ≤ count }
    requires most { count ≤ most_keys }
    ensures unchanged { cache.new ≡ cache.old }
    ensures reply { IfOk result (λ kind. (kind, body.new.items) ≡ with_body body.old.items
        (spelled (parts.scan (key_shown key.now) count (rows_of cache.old)).1)) }
{
    let mut keys = [0u8; SCAN_ROOM as usize];
    let scanned = cache.scan(key.table, key.bytes, count, &mut keys);
    append_body(body, ReplyKind::Keys, &keys[..scanned.bytes as usize])
}

/// Does one part of a command of the trace, and appends the reply's body. The tables have room for so many rows.
pub(crate) fn do_part(
    cache: &mut RowCache,
    room: u32,
    trace: &Trace,
    command: &Command,
    body: &mut Vec<u8>,
) -> Result<ReplyKind, AllocError>
    requires of_trace { Contains trace.now.commands command.now }
    requires room { room ≡ cache.old.room }
    ensures applied { OnOk result (rows_of cache.new
        ≡ (parts.apply (operation trace.now.bytes command.now) (rows_of cache.old)).0) }
    ensures replied { IfOk result (λ kind. (kind, body.new.items) ≡ with_body body.old.items
        (spelled (parts.apply (operation trace.now.bytes command.now) (rows_of cache.old)).1)) }
    ensures kept { KeepsSegments cache.old cache.new }
{
    let key = Key {
        table: command.table,
        bytes: trace.key(command),
    };
    match command.kind {
        Kind::Put => put(cache, room, &key, trace.value(command), command.number),
        Kind::Get => get(cache, &key, body),
        Kind::Erase => Ok(erase(cache, &key)),
        Kind::Scan => scan(cache, &key, command.count, body),
    }
}

/// Removes the last row, and answers whether it was the row of this put.
fn evict_last(cache: &mut RowCache, put: u32) -> bool
    ensures last { result ≡ is_of_put put (last_or None (rows_of cache.old)) }
    ensures removed { result ≡ true → rows_of cache.new ≡ take (length (rows_of cache.old) - 1) (rows_of cache.old) }
    ensures kept { KeepsSegments cache.old cache.new }
{
    match cache.evict_last() {
        Some(gone) => gone == put,
        None => false,
    }
}

/// Evicts the row of a put, where more bytes are live than the floor and it is the last row; whether it is so.
pub(crate) fn evict(cache: &mut RowCache, put: u32, floor: u64) -> bool
    ensures possible { result ≡ (is_of_put put (last_or None (rows_of cache.old)) && nat_lt floor (live (rows_of cache.old))) }
    ensures removed { result ≡ true → rows_of cache.new ≡ take (length (rows_of cache.old) - 1) (rows_of cache.old) }
    ensures kept { KeepsSegments cache.old cache.new }
{
    if cache.live() <= floor {
        return false;
    }
    evict_last(cache, put)
}
