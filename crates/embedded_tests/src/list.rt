//! What a cache means: a list of rows, the one used last in front.
ghost use Rattle.std.specs.Prelude.{◌<◌, length, IfSome};

use embedded_cache::{Patch, Put};
use std::alloc::{AllocError, Global};

#[derive(Drop)]
struct Row {
    table: u8,
    key: Vec<u8>,
    value: Vec<u8>,
    tag: u32,
}

#[derive(Drop)]
pub(crate) struct List {
    rows: Vec<Row>,
    // For how many rows there is room, and above how many live bytes rows go for a put.
    room: usize,
    bound: u64,
}

fn position_of(rows: &[Row], table: u8, key: &[u8]) -> Option<usize>
    ensures { IfSome result (λ at. at < length rows.now) }
{
    rows.iter()
        .position(|row| row.table == table && row.key.as_slice() == key)
}

// Writes bytes over those from a place on, where there are so many.
fn write_at(value: &mut [u8], at: usize, bytes: &[u8]) {
    if let Some(behind) = value.get_mut(at..) {
        if let Some(into) = behind.get_mut(..bytes.len()) {
            into.copy_from_slice(bytes);
        }
    }
}

impl List {
    pub(crate) fn new(alloc: Global, room: u32, bound: u64) -> List {
        List {
            rows: Vec::new(alloc),
            room: room as usize,
            bound,
        }
    }

    pub(crate) fn len(&self) -> usize {
        self.rows.len()
    }

    // The bytes of all rows: 40 beside the key and the value of each, rounded up to 8.
    pub(crate) fn live(&self) -> u64 {
        let mut live = 0u64;
        for row in &self.rows {
            live = live.wrapping_add(
                (row.key.len() as u64)
                    .wrapping_add(row.value.len() as u64)
                    .wrapping_add(47)
                    / 8
                    * 8,
            );
        }
        live
    }

    pub(crate) fn put(
        &mut self,
        alloc: Global,
        table: u8,
        key: &[u8],
        value: &[u8],
        tag: u32,
    ) -> Result<Put, AllocError> {
        let put = if self.erase(table, key) {
            Put::Replaced
        } else {
            Put::Stored
        };
        let row = Row {
            table,
            key: key.to_vec(alloc)?,
            value: value.to_vec(alloc)?,
            tag,
        };
        self.rows.push(row)?;
        self.rows.as_mut_slice().rotate_right(1);
        Ok(put)
    }

    // The value and the tag of a table's key, whose row comes to the front.
    pub(crate) fn get(&mut self, table: u8, key: &[u8]) -> Option<(&[u8], u32)> {
        let at = position_of(&self.rows, table, key)?;
        self.rows.slice_mut(..at + 1).rotate_right(1);
        let first = self.rows.first()?;
        Some((first.value.as_slice(), first.tag))
    }

    // How long the value of a table's key is.
    fn len_of(&self, table: u8, key: &[u8]) -> Option<usize> {
        let at = position_of(&self.rows, table, key)?;
        let row = self.rows.as_slice().get(at)?;
        Some(row.value.len())
    }

    pub(crate) fn patch(&mut self, table: u8, key: &[u8], at: usize, bytes: &[u8]) -> Patch {
        let Some(len) = self.len_of(table, key) else {
            return Patch::Missing;
        };
        if at > len || bytes.len() > len - at {
            return Patch::Short;
        }
        let Some(place) = position_of(&self.rows, table, key) else {
            return Patch::Missing;
        };
        self.rows.slice_mut(..place + 1).rotate_right(1);
        if let Some(row) = self.rows.get_mut(0) {
            write_at(&mut row.value, at, bytes);
        }
        Patch::Patched
    }

    pub(crate) fn erase(&mut self, table: u8, key: &[u8]) -> bool {
        let Some(at) = position_of(&self.rows, table, key) else {
            return false;
        };
        let _row = self.rows.remove(at);
        true
    }

    // The tag of the last row, which goes.
    fn lose_last(&mut self) -> Option<u32> {
        let row = self.rows.pop()?;
        Some(row.tag)
    }

    // Whether these are the tags of the rows that go for a put of a table's key, in order: one where no place is left, and then each
    // while more bytes are live than the bound. They go.
    pub(crate) fn sheds(&mut self, table: u8, key: &[u8], tags: &[u32]) -> bool {
        let full = self.rows.len() >= self.room && position_of(&self.rows, table, key).is_none();
        for (order, tag) in tags.iter().enumerate() {
            let goes = (full && order == 0) || self.live() > self.bound;
            if !goes || self.lose_last() != Some(*tag) {
                return false;
            }
        }
        self.live() <= self.bound && (!full || !tags.is_empty())
    }

    // The least key of a table that is at or above `lo`, but not `lo` itself where `above`.
    fn next_key(&self, table: u8, lo: &[u8], above: bool) -> Option<&[u8]> {
        let mut least: Option<&[u8]> = None;
        for row in &self.rows {
            let key = row.key.as_slice();
            let after = key > lo || !above && key == lo;
            let less = match least {
                None => true,
                Some(other) => key < other,
            };
            if row.table == table && after && less {
                least = Some(key);
            }
        }
        least
    }

    // How many keys of a table a scan gives, and their bytes: each behind its length in two bytes.
    pub(crate) fn scan(
        &self,
        alloc: Global,
        table: u8,
        lo: &[u8],
        count: u32,
    ) -> Result<(u32, Vec<u8>), AllocError> {
        let mut bytes = Vec::new(alloc);
        let mut next = self.next_key(table, lo, false);
        for keys in 0..count {
            let Some(key) = next else {
                return Ok((keys, bytes));
            };
            bytes.extend_from_slice(&(key.len() as u64).to_le_bytes()[..2])?;
            bytes.extend_from_slice(key)?;
            next = self.next_key(table, key, true);
        }
        Ok((count, bytes))
    }
}
