//! What a row cache means: a list of rows, the one used last in front.
ghost use Rattle.std.specs.Prelude.{◌<◌, length, IfSome};

use row_cache::Put;
use std::alloc::{AllocError, Global};

#[derive(Drop)]
struct Row {
    table: u8,
    key: Vec<u8>,
    value: Vec<u8>,
    number: u32,
}

#[derive(Drop)]
pub(crate) struct List {
    rows: Vec<Row>,
    // of which the next calls are
    table: u8,
}

fn position_of(rows: &[Row], table: u8, key: &[u8]) -> Option<usize>
    ensures { IfSome result (λ at. at < length rows.now) }
{
    rows.iter()
        .position(|row| row.table == table && row.key.as_slice() == key)
}

impl List {
    pub(crate) fn new(alloc: Global) -> List {
        List {
            rows: Vec::new(alloc),
            table: 0,
        }
    }

    /// The next calls are of this table.
    pub(crate) fn turn_to(&mut self, table: u8) {
        self.table = table;
    }

    pub(crate) fn len(&self) -> usize {
        self.rows.len()
    }

    /// The bytes of all rows: 40 beside the key and the value of each, rounded up to 8.
    pub(crate) fn live(&self) -> u64 {
        let mut live = 0u64;
        for row in &self.rows {
            live = live.wrapping_add(
                (row.key.len() as u64)
                    .wrapping_add(row.value.len() as u64)
                    .wrapping_add(47)
                    / 8
                    * 8,
            );
        }
        live
    }

    pub(crate) fn put(
        &mut self,
        alloc: Global,
        key: &[u8],
        value: &[u8],
        number: u32,
    ) -> Result<Put, AllocError> {
        let put = if self.erase(key) {
            Put::Replaced
        } else {
            Put::Stored
        };
        let row = Row {
            table: self.table,
            key: key.to_vec(alloc)?,
            value: value.to_vec(alloc)?,
            number,
        };
        self.rows.push(row)?;
        self.rows.as_mut_slice().rotate_right(1);
        Ok(put)
    }

    /// The value of a key, whose row comes to the front.
    pub(crate) fn get(&mut self, key: &[u8]) -> Option<&[u8]> {
        let at = position_of(&self.rows, self.table, key)?;
        self.rows.slice_mut(..at + 1).rotate_right(1);
        let first = self.rows.first()?;
        Some(first.value.as_slice())
    }

    /// The value of a key, whose row stays where it is.
    pub(crate) fn find(&self, key: &[u8]) -> Option<&[u8]> {
        let at = position_of(&self.rows, self.table, key)?;
        Some(self.rows[at].value.as_slice())
    }

    pub(crate) fn erase(&mut self, key: &[u8]) -> bool {
        let Some(at) = position_of(&self.rows, self.table, key) else {
            return false;
        };
        let _row = self.rows.remove(at);
        true
    }

    pub(crate) fn evict_last(&mut self) -> Option<u32> {
        let row = self.rows.pop()?;
        Some(row.number)
    }

    /// The least key of the table that is at or above `lo`, but not `lo` itself where `above`.
    fn next_key(&self, lo: &[u8], above: bool) -> Option<&[u8]> {
        let mut least: Option<&[u8]> = None;
        for row in &self.rows {
            let key = row.key.as_slice();
            let after = row.table == self.table && (key > lo || !above && key == lo);
            let less = match least {
                None => true,
                Some(other) => key < other,
            };
            if after && less {
                least = Some(key);
            }
        }
        least
    }

    /// How many keys a scan gives, and their bytes: each behind its length in two bytes.
    pub(crate) fn scan(
        &self,
        alloc: Global,
        lo: &[u8],
        count: u32,
    ) -> Result<(u32, Vec<u8>), AllocError> {
        let mut bytes = Vec::new(alloc);
        let mut next = self.next_key(lo, false);
        for keys in 0..count {
            let Some(key) = next else {
                return Ok((keys, bytes));
            };
            bytes.extend_from_slice(&(key.len() as u64).to_le_bytes()[..2])?;
            bytes.extend_from_slice(key)?;
            next = self.next_key(key, true);
        }
        Ok((count, bytes))
    }
}
