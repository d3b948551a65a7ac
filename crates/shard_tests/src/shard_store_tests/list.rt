//! What a store means: a list of rows, the one used last in front.
ghost use Rattle.std.specs.Prelude.{◌<◌, length, IfSome};

use shard_store::Put;
use std::alloc::{AllocError, Global};

#[derive(Drop)]
struct Row {
    table: u8,
    key: Vec<u8>,
    value: Vec<u8>,
    tag: u32,
}

#[derive(Drop)]
pub(super) struct List {
    rows: Vec<Row>,
}

fn position_of(rows: &[Row], table: u8, key: &[u8]) -> Option<usize>
    ensures { IfSome result (λ at. at < length rows.now) }
{
    rows.iter()
        .position(|row| row.table == table && row.key.as_slice() == key)
}

impl List {
    pub(super) fn new(alloc: Global) -> List {
        List {
            rows: Vec::new(alloc),
        }
    }

    pub(super) fn len(&self) -> usize {
        self.rows.len()
    }

    // The bytes of all rows: 40 beside the key and the value of each, rounded up to 8.
    pub(super) fn live(&self) -> u64 {
        let mut live = 0u64;
        for row in &self.rows {
            live = live.wrapping_add(
                (row.key.len() as u64)
                    .wrapping_add(row.value.len() as u64)
                    .wrapping_add(47)
                    / 8
                    * 8,
            );
        }
        live
    }

    pub(super) fn put(
        &mut self,
        alloc: Global,
        table: u8,
        key: &[u8],
        value: &[u8],
        tag: u32,
    ) -> Result<Put, AllocError> {
        let put = if self.erase(table, key) {
            Put::Replaced
        } else {
            Put::Stored
        };
        let row = Row {
            table,
            key: key.to_vec(alloc)?,
            value: value.to_vec(alloc)?,
            tag,
        };
        self.rows.push(row)?;
        self.rows.as_mut_slice().rotate_right(1);
        Ok(put)
    }

    // The value of a table's key, whose row comes to the front.
    pub(super) fn get(&mut self, table: u8, key: &[u8]) -> Option<&[u8]> {
        let at = position_of(&self.rows, table, key)?;
        self.rows.slice_mut(..at + 1).rotate_right(1);
        let first = self.rows.first()?;
        Some(first.value.as_slice())
    }

    pub(super) fn erase(&mut self, table: u8, key: &[u8]) -> bool {
        let Some(at) = position_of(&self.rows, table, key) else {
            return false;
        };
        let _row = self.rows.remove(at);
        true
    }

    // The tag of the last row, which goes.
    fn lose_last(&mut self) -> Option<u32> {
        let row = self.rows.pop()?;
        Some(row.tag)
    }

    // Whether the last rows have these tags, from the last one on. They go.
    pub(super) fn loses(&mut self, tags: &[u32]) -> bool {
        for tag in tags {
            if self.lose_last() != Some(*tag) {
                return false;
            }
        }
        true
    }

    // The least key of a table that is at or above `lo`, but not `lo` itself where `above`.
    fn next_key(&self, table: u8, lo: &[u8], above: bool) -> Option<&[u8]> {
        let mut least: Option<&[u8]> = None;
        for row in &self.rows {
            let key = row.key.as_slice();
            let after = key > lo || !above && key == lo;
            let less = match least {
                None => true,
                Some(other) => key < other,
            };
            if row.table == table && after && less {
                least = Some(key);
            }
        }
        least
    }

    // How many keys of a table a scan gives, and their bytes: each behind its length in two bytes.
    pub(super) fn scan(
        &self,
        alloc: Global,
        table: u8,
        lo: &[u8],
        count: u32,
    ) -> Result<(u32, Vec<u8>), AllocError> {
        let mut bytes = Vec::new(alloc);
        let mut next = self.next_key(table, lo, false);
        for keys in 0..count {
            let Some(key) = next else {
                return Ok((keys, bytes));
            };
            bytes.extend_from_slice(&(key.len() as u64).to_le_bytes()[..2])?;
            bytes.extend_from_slice(key)?;
            next = self.next_key(table, key, true);
        }
        Ok((count, bytes))
    }
}
