//! Rows that are written one behind another, for a scan with values.
ghost use Rattle.std.specs.Prelude.{◌≡◌, ◌+◌, ◌*◌, ◌<◌, ◌≤◌, ◌++◌, ℕ, List, length, drop, true, false, Some, All};
ghost use Rattle.std.specs.Int.{w16, w32, to_le_bytes};
ghost use Rattle.layout.specs.Sizes.{greatest_key, greatest_value, most_keys, tables};
ghost use Rattle.rows.specs.Key.{in_table};
ghost use Rattle.rows.specs.KeyBody.{AreKeys};
ghost use Rattle.rows.specs.Row.{Row};
ghost use Rattle.rows.specs.Apply as apply;
ghost use Rattle.rows.specs.Spelled.{IsKey};
ghost use Rattle.embedded_cache.specs.Scans.{field_of, WritesRows};
ghost use Rattle.embedded_cache.specs.inside.Scanning.{LacksPlace, PutsBehind, row_room};

use crate::scanned_rows::ScannedRows;
use row_bytes::{a_row_is_read_as_it_is_written, first_key, write_key};
use shard_store::ShardStore;

// Of the rows of a body's keys writes as many of the first as fit, each of them whole, to the front of `into`.
pub(crate) fn write_rows(
    store: &ShardStore<'_>,
    table: u8,
    body: &[u8],
    into: &mut [u8],
) -> ScannedRows
    // Keys of rows, no more than one scan gives.
    requires table { table < tables }
    requires keys { (keys : List (List ℕ)) × AreKeys body.now keys × (length keys ≤ most_keys)
        × All (λ key. apply.has (in_table table key) store.now.rows ≡ true) keys }

    // What it writes, and where.
    ensures { (keys : List (List ℕ)) → AreKeys body.now keys
        → WritesRows table keys store.now.rows result.rows result.bytes result.wanted into.old into.new }
{
    let mut did = ScannedRows {
        rows: 0,
        bytes: 0,
        wanted: 0,
    };
    let mut rest = body;
    'writing: while let Some((key, behind)) = first_key(rest) {
        let (value, tag) = find_row(store, table, key);
        if !append_row(into, &mut did, key, value, tag) {
            return did;
        }
        rest = behind;
    }
    did
}

// The value and the tag of a key that has a row.
fn find_row<'a>(store: &'a ShardStore<'_>, table: u8, key: &[u8]) -> (&'a [u8], u32)
    requires table { table < tables }
    requires has { apply.has (in_table table key.now) store.now.rows ≡ true }
    ensures row { (row : Row) × (apply.row_of (in_table table key.now) store.now.rows ≡ Some row) × (result.0.now ≡ row.value)
        × (result.1 ≡ row.number) }
    ensures short { length result.0.now ≤ greatest_value }
{
    a_row_is_read_as_it_is_written();
    let Some(place) = store.place_of(table, key) else {
        unreachable!()
    };
    store.row_at(place)
}

// Writes a row behind those that were written. False where there is no room for it; then it tells how many bytes it takes.
fn append_row(into: &mut [u8], did: &mut ScannedRows, key: &[u8], value: &[u8], tag: u32) -> bool
    // A row, behind no more than a scan can give.
    requires key { IsKey key.now }
    requires value { length value.now ≤ greatest_value }
    requires few { did.old.rows < most_keys }
    requires low { did.old.bytes ≤ row_room * did.old.rows }
    requires within { did.old.bytes ≤ length into.old }

    // It stands there whole, or not at all.
    ensures written { result ≡ true → PutsBehind (field_of key.now tag value.now) did.old did.new into.old into.new }
    ensures lacks { result ≡ false → LacksPlace (field_of key.now tag value.now) did.old did.new into.old into.new }
{
    let len = row_len(key, value);
    let at = did.bytes as usize;
    if len as usize > into.len() - at {
        did.wanted = len;
        return false;
    }
    write_row(&mut into[at..], key, tag, value);
    did.rows += 1;
    did.bytes += len;
    true
}

// How many bytes a row takes.
fn row_len(key: &[u8], value: &[u8]) -> u32
    requires key { length key.now ≤ greatest_key }
    requires value { length value.now ≤ greatest_value }
    ensures { result ≡ 8 + length key.now + length value.now }
{
    8 + key.len() as u32 + value.len() as u32
}

// Writes a row to the front.
fn write_row(into: &mut [u8], key: &[u8], tag: u32, value: &[u8])
    requires key { length key.now ≤ greatest_key }
    requires value { length value.now ≤ greatest_value }
    requires room { 8 + length key.now + length value.now ≤ length into.old }
    ensures { into.new ≡ field_of key.now tag value.now ++ drop (8 + length key.now + length value.now) into.old }
{
    let (front, behind) = into.split_at_mut(2 + key.len());
    write_key(front, key);
    write_tagged(behind, tag, value);
}

// A tag in four bytes, the length of a value in two, and the value.
fn write_tagged(into: &mut [u8], tag: u32, value: &[u8])
    requires value { length value.now ≤ greatest_value }
    requires room { 6 + length value.now ≤ length into.old }
    ensures { into.new ≡ to_le_bytes w32 tag
        ++ (to_le_bytes w16 (length value.now) ++ (value.now ++ drop (6 + length value.now) into.old)) }
{
    let (front, behind) = into.split_at_mut(4);
    front.copy_from_slice(&tag.to_le_bytes());
    write_value(behind, value);
}

// The length of a value in two bytes, and the value.
fn write_value(into: &mut [u8], value: &[u8])
    requires value { length value.now ≤ greatest_value }
    requires room { 2 + length value.now ≤ length into.old }
    ensures { into.new ≡ to_le_bytes w16 (length value.now) ++ (value.now ++ drop (2 + length value.now) into.old) }
{
    let len = (value.len() as u16).to_le_bytes();
    let (front, behind) = into.split_at_mut(2);
    front.copy_from_slice(&len);
    behind[..value.len()].copy_from_slice(value);
}
