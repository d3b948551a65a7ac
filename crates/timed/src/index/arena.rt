//! Keys of one length.

use super::kinds::Kind;
use crate::rounds::RowKeys;
use key_index::Keys;
use rows::Key;
use std::alloc::{AllocError, Global};

/// How many digits the number in a key has.
const DIGITS: u32 = 7;

/// The keys of rows, one behind another.
#[derive(Drop)]
pub struct Arena {
    pub width: u32,
    pub bytes: Vec<u8>,
}

impl Keys for Arena {
    ghost use Rattle.timed.specs.IndexArena.{has_row, key_of};

    ghost has_row = { λ arena row. has_row arena row };

    ghost key_of = { λ arena row. key_of arena row };

    fn key(&self, row: u32) -> Key<'_> {
        let start = row as usize * self.width as usize;
        Key {
            table: 0,
            bytes: &self.bytes[start..start + self.width as usize],
        }
    }
}

impl RowKeys for Arena {
    fn has_key(&self, row: u32) -> bool {
        let start = row as usize * self.width as usize;
        start <= self.bytes.len() && self.width as usize <= self.bytes.len() - start
    }
}

/// Adds the key of a row, of so many.
fn push_key(bytes: &mut Vec<u8>, kind: Kind, row: u32, rows: u32) -> Result<(), AllocError> {
    let number = kind.number(row, rows);
    let digit = |at: u32| (number / 10u32.pow(at % DIGITS) % 10) as u8 + b'0';
    bytes.extend_from_slice(kind.prefix(number))?;
    bytes.extend_from_slice([
        digit(6),
        digit(5),
        digit(4),
        digit(3),
        digit(2),
        digit(1),
        digit(0),
    ]
    .as_slice())
}

/// The keys of so many rows.
pub fn fill_arena(alloc: Global, kind: Kind, rows: u32) -> Result<Arena, AllocError> {
    let mut bytes = Vec::new(alloc);
    for row in 0..rows {
        push_key(&mut bytes, kind, row, rows)?;
    }
    let width = kind.prefix_len() + DIGITS;
    Ok(Arena { width, bytes })
}
