//! The definitions of a cache, run on a vector of rows.
ghost use Rattle.std.specs.Prelude.{◌≡◌, ◌+◌, ◌-◌, ◌*◌, ◌/◌, ◌^◌, ◌<◌, ◌≤◌, ◌∷◌, ◌++◌, [], length, take, map, filter, flat_map, position, Some, vec_len, vec_capacity, All, Contains, None, false, IfOk, OnOk, OnErr, IfSome, IfNone, is_some};
ghost use Rattle.std.specs.Bool.{OnTrue, OnFalse};
ghost use Rattle.std.specs.List.{last_or};
ghost use Rattle.trace_text.specs.Operation.{operation};
ghost use Rattle.rows.specs.Apply.{apply, get, has, is_at_most, is_of, keys_in, put, row_of, scan, scanned, without, HasDistinctKeys};
ghost use Rattle.rows.specs.Key.{key_shown};
ghost use Rattle.plain_cache.specs.inside.OwnedRow.{row_in, is_from, IsPositionOf, IsSmall};
ghost use Rattle.rows.specs.Row.{is_of_put, live, floor};
ghost use Rattle.cache_model.specs.Legal.{can_evict};
ghost use Rattle.layout.specs.Sizes.{greatest_key, greatest_value, row_overhead, segment_pages, tickets};
ghost use Rattle.rows.specs.Spelled.{key_field, spelled, with_body};

use cache_model::{ReplyKind, is_at_most, sort_keys};
use layout::{DENSE, GREATEST_KEY, GREATEST_OBJECT, GREATEST_VALUE, SEGMENT_PAGES, TICKETS};
use rows::Key;
use run_log::append_keys;
use std::alloc::{AllocError, Global};
use std::marker::Model;
use trace_text::{Command, Kind, Trace};

/// What a row takes beside its key and its value, in bytes.
const OVERHEAD: u64 = (GREATEST_OBJECT as u64) - (GREATEST_KEY as u64) - (GREATEST_VALUE as u64);

/// A row that owns its bytes, with the number of the put that stored it.
#[derive(Drop)]
struct OwnedRow {
    table: u8,
    key: Vec<u8>,
    value: Vec<u8>,
    number: u32,
}

/// A cache that is a list of rows, most recently used first. It evicts nothing by itself.
#[derive(Drop)]
pub struct Plain {
    pages: u32,
    regions: u32,
    rows: Vec<OwnedRow>,
}

impl Model for Plain {
    ghost use Rattle.plain_cache.specs.Cache.{Cache};

    ghost Value = { Cache };

    ghost use Rattle.std.specs.Prelude.{◌+◌, ◌/◌, ◌^◌, ◌<◌, ◌≤◌, length, map, All};
    ghost use Rattle.rows.specs.Apply.{HasDistinctKeys};
    ghost use Rattle.plain_cache.specs.inside.OwnedRow.{row_in, IsSmall};
    ghost use Rattle.layout.specs.Sizes.{segment_pages, tickets};

    ghost view = { λ p. record { pages = p.pages; regions = p.regions; rows = map row_in p.rows.items } };

    ghost invariant = { λ p. (tickets + 1 + p.regions ≤ p.pages / segment_pages)
        × All IsSmall p.rows.items × (length p.rows.items < 2 ^ 32)
        × HasDistinctKeys (map row_in p.rows.items) };
}

/// The floor of a shard with so many pages and regions, in bytes: up to so many live bytes nothing may be evicted.
/// There are at least 33 segments, of 32 pages each, beside one for each region.
pub fn floor_of(pages: u32, regions: u32) -> u64
    requires { tickets + 1 + regions ≤ pages / segment_pages }
    ensures { result ≡ floor pages regions }
{
    u64::from(pages / SEGMENT_PAGES - (TICKETS + 1 + regions)) * u64::from(DENSE)
}

/// The bytes that a row takes, from the lengths of its key and its value.
fn size_of(key: usize, value: usize) -> u64
    requires key { key ≤ greatest_key }
    requires value { value ≤ greatest_value }
    ensures { result ≡ (row_overhead + key + value + 7) / 8 * 8 }
{
    (OVERHEAD + key as u64 + value as u64 + 7) / 8 * 8
}

/// Whether it is the row of a key.
fn is_row_of(row: &OwnedRow, key: &Key<'_>) -> bool
    ensures { result ≡ is_of (key_shown key.now) (row_in row.now) }
{
    row.table == key.table && row.key.as_slice() == key.bytes
}

fn position_of(rows: &[OwnedRow], key: &Key<'_>) -> Option<usize>
    ensures { result ≡ position (λ row. is_of (key_shown key.now) (row_in row)) rows.now }
{
    rows.iter().position(|row| is_row_of(row, key))
}

/// The position of the row of a key.
fn seek(rows: &[OwnedRow], key: &Key<'_>) -> Option<usize>
    ensures absent { IfNone result (row_of (key_shown key.now) (map row_in rows.now) ≡ None) }
    ensures has { is_some result ≡ has (key_shown key.now) (map row_in rows.now) }
    ensures position { IfSome result (λ at. IsPositionOf (key_shown key.now) rows.now at) }
{
    position_of(rows, key)
}

/// Whether the last row is the row of this put.
fn is_last(rows: &[OwnedRow], put: u32) -> bool
    ensures { result ≡ is_of_put put (last_or None (map row_in rows.now)) }
{
    match rows {
        [] => false,
        [.., last] => last.number == put,
    }
}

/// Takes away the row of a key, if there is one, and answers whether there was.
fn drop_row(rows: &mut Vec<OwnedRow>, key: &Key<'_>) -> bool
    requires { HasDistinctKeys (map row_in rows.old.items) }

    // No row has the key then.
    ensures found { result ≡ has (key_shown key.now) (map row_in rows.old.items) }
    ensures rows { map row_in rows.new.items ≡ without (key_shown key.now) (map row_in rows.old.items) }
    ensures absent { has (key_shown key.now) (map row_in rows.new.items) ≡ false }
    ensures distinct { HasDistinctKeys (map row_in rows.new.items) }

    // The others stay, in the same memory.
    ensures small { All IsSmall rows.old.items → All IsSmall rows.new.items }
    ensures fewer { vec_len rows.new ≤ vec_len rows.old }
    ensures capacity { vec_capacity rows.new ≡ vec_capacity rows.old }
{
    let Some(at) = seek(rows.as_slice(), key) else {
        return false;
    };
    rows.remove(at);
    true
}

/// Takes away the last row.
fn drop_last(rows: &mut Vec<OwnedRow>)
    ensures rows { map row_in rows.new.items ≡ take (length (map row_in rows.old.items) - 1) (map row_in rows.old.items) }
    ensures distinct { HasDistinctKeys (map row_in rows.old.items) → HasDistinctKeys (map row_in rows.new.items) }
    ensures small { All IsSmall rows.old.items → All IsSmall rows.new.items }
    ensures fewer { vec_len rows.new ≤ vec_len rows.old }
{
    rows.pop();
}

/// Brings the row at this position to the front.
fn bring_to_front(rows: &mut Vec<OwnedRow>, at: usize, key: &Key<'_>)
    requires of_key { IsPositionOf (key_shown key.now) rows.old.items at }
    requires distinct { HasDistinctKeys (map row_in rows.old.items) }
    ensures rows { IfSome (row_of (key_shown key.now) (map row_in rows.old.items))
        (λ row. map row_in rows.new.items ≡ row ∷ without (key_shown key.now) (map row_in rows.old.items)) }
    ensures distinct_still { HasDistinctKeys (map row_in rows.new.items) }
    ensures small { All IsSmall rows.old.items → All IsSmall rows.new.items }
    ensures fewer { vec_len rows.new ≤ vec_len rows.old }
{
    rows.slice_mut(..at + 1).rotate_right(1);
}

/// Whether the row is of the table of a key, and not below the key.
fn is_from(row: &OwnedRow, key: &Key<'_>) -> bool
    ensures { result ≡ is_from (key_shown key.now) row.now }
{
    row.table == key.table && is_at_most(key.bytes, row.key.as_slice())
}

/// The keys of these rows that are of the table of a key, and not below the key.
fn keys_from<'a>(
    alloc: Global,
    rows: &'a [OwnedRow],
    key: &Key<'_>,
) -> Result<Vec<&'a [u8]>, AllocError>
    ensures { IfOk result (λ keys. map (λ found. found.now) keys.items ≡ filter (is_at_most key.now.bytes.now)
        (keys_in key.now.table (map row_in rows.now))) }
{
    let mut keys = Vec::new(alloc);
    for row in rows {
        if is_from(row, key) {
            keys.push(row.key.as_slice())?;
        }
    }
    Ok(keys)
}

/// The keys of a scan: those of these rows that are of the table of its key and not below it, in order, at most so many.
fn scanned<'a>(
    alloc: Global,
    rows: &'a [OwnedRow],
    key: &Key<'_>,
    count: u32,
) -> Result<Vec<&'a [u8]>, AllocError>
    ensures keys { IfOk result (λ keys. map (λ found. found.now) keys.items ≡ scanned (key_shown key.now) count (map row_in rows.now)) }
    ensures short { All IsSmall rows.now → IfOk result (λ keys. All (λ found. length found.now ≤ greatest_key) keys.items) }
{
    let mut keys = keys_from(alloc, rows, key)?;
    sort_keys(&mut keys);
    keys.truncate(count as usize);
    Ok(keys)
}

impl Plain {
    /// An empty cache of a shard with so many pages and regions: `floor_of` says how many.
    pub fn new(alloc: Global, pages: u32, regions: u32) -> Result<Plain, AllocError>
        requires { tickets + 1 + regions ≤ pages / segment_pages }
        ensures { IfOk result (λ plain. plain ≡ record { pages = pages; regions = regions; rows = [] }) }
    {
        Ok(Plain {
            pages,
            regions,
            rows: Vec::new(alloc),
        })
    }

    /// How many rows there are.
    pub fn rows(&self) -> u32
        ensures { result ≡ length self.now.rows }
    {
        self.rows.len() as u32
    }

    /// The live bytes: the sizes of all rows together.
    pub fn live(&self) -> u64
        ensures { result ≡ live self.now.rows }
    {
        let mut live = 0;
        for row in &self.rows {
            live += size_of(row.key.len(), row.value.len());
        }
        live
    }

    fn can_evict(&self, put: u32) -> bool
        ensures { result ≡ can_evict self.now.pages self.now.regions put self.now.rows }
    {
        is_last(self.rows.as_slice(), put) && self.live() > floor_of(self.pages, self.regions)
    }

    /// Evicts the row of a put, where that is legal: it is the last row, and the live bytes exceed the floor.
    pub fn evict(&mut self, put: u32) -> bool
        ensures possible { result ≡ can_evict self.old.pages self.old.regions put self.old.rows }
        ensures removed { OnTrue result (self.new ≡ record self.old { rows = take (length self.old.rows - 1) self.old.rows }) }
        ensures kept { OnFalse result (self.new ≡ self.old) }
    {
        let can = self.can_evict(put);
        if can {
            drop_last(&mut self.rows);
        }
        can
    }

    fn put(
        &mut self,
        alloc: Global,
        key: &Key<'_>,
        value: &[u8],
        number: u32,
    ) -> Result<bool, AllocError>
        requires key { length key.now.bytes.now ≤ greatest_key }
        requires value { length value.now ≤ greatest_value }
        requires few { length self.old.rows < 4294967295 }
        ensures replaced { IfOk result (λ replaced. replaced ≡ has (key_shown key.now) self.old.rows) }
        ensures put { OnOk result (self.new ≡ record self.old { rows = (put (key_shown key.now) value.now number self.old.rows).0 }) }
        ensures kept { OnErr result (self.new ≡ self.old) }
    {
        let row = OwnedRow {
            table: key.table,
            key: Vec::from_slice(alloc, key.bytes)?,
            value: Vec::from_slice(alloc, value)?,
            number,
        };
        self.rows.reserve(1)?;
        let replaced = drop_row(&mut self.rows, key);
        self.rows.insert(0, row).unwrap();
        Ok(replaced)
    }

    fn get(&mut self, key: &Key<'_>, body: &mut Vec<u8>) -> Result<ReplyKind, AllocError>
        ensures got { OnOk result (self.new ≡ record self.old { rows = (get (key_shown key.now) self.old.rows).0 }) }
        ensures replied { IfOk result (λ kind. (kind, body.new.items) ≡ with_body body.old.items
            (spelled (get (key_shown key.now) self.old.rows).1)) }
        ensures kept { OnErr result (self.new ≡ self.old) }
        ensures body_kept { OnErr result (body.new.items ≡ body.old.items) }
    {
        let Some(at) = seek(self.rows.as_slice(), key) else {
            return Ok(ReplyKind::Missing);
        };
        body.extend_from_slice(self.rows[at].value.as_slice())?;
        bring_to_front(&mut self.rows, at, key);
        Ok(ReplyKind::Value)
    }

    fn erase(&mut self, key: &Key<'_>) -> bool
        ensures found { result ≡ has (key_shown key.now) self.old.rows }
        ensures erased { self.new ≡ record self.old { rows = without (key_shown key.now) self.old.rows } }
    {
        drop_row(&mut self.rows, key)
    }

    /// The reply to a scan, which changes no row and no recency.
    pub(crate) fn scan(
        &self,
        alloc: Global,
        key: &Key<'_>,
        count: u32,
        body: &mut Vec<u8>,
    ) -> Result<ReplyKind, AllocError>
        ensures replied { IfOk result (λ kind. (kind, body.new.items) ≡ with_body body.old.items
            (spelled (scan (key_shown key.now) count self.now.rows).1)) }
        ensures body_kept { OnErr result (body.new.items ≡ body.old.items) }
    {
        let keys = scanned(alloc, self.rows.as_slice(), key, count)?;
        let start = body.len();
        match append_keys(body, keys.as_slice()) {
            Ok(()) => Ok(ReplyKind::Keys),
            Err(error) => {
                body.truncate(start);
                Err(error)
            }
        }
    }

    /// Does one part of a command of the trace, and appends the reply's body. A refusal changes nothing.
    pub fn apply(
        &mut self,
        alloc: Global,
        trace: &Trace,
        command: &Command,
        body: &mut Vec<u8>,
    ) -> Result<ReplyKind, AllocError>
        requires of_trace { Contains trace.now.commands command.now }
        requires few { length self.old.rows < 4294967295 }
        ensures applied { OnOk result (self.new ≡ record self.old {
          rows =
              (apply (operation trace.now.bytes command.now) self.old.rows).0;
        }) }
        ensures replied { IfOk result (λ kind. (kind, body.new.items) ≡ with_body body.old.items
            (spelled (apply (operation trace.now.bytes command.now) self.old.rows).1)) }
        ensures kept { OnErr result (self.new ≡ self.old) }
        ensures body_kept { OnErr result (body.new.items ≡ body.old.items) }
    {
        let key = Key {
            table: command.table,
            bytes: trace.key(command),
        };
        match command.kind {
            Kind::Put => {
                if self.put(alloc, &key, trace.value(command), command.number)? {
                    Ok(ReplyKind::Replaced)
                } else {
                    Ok(ReplyKind::Stored)
                }
            }
            Kind::Get => self.get(&key, body),
            Kind::Erase => {
                if self.erase(&key) {
                    Ok(ReplyKind::Erased)
                } else {
                    Ok(ReplyKind::Missing)
                }
            }
            Kind::Scan => self.scan(alloc, &key, command.count, body),
        }
    }
}
