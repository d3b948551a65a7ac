//! Keys that look like chance, and keys of one hash.

use crate::rounds::RowKeys;
use key_index::Keys;
use rows::Key;
use std::alloc::{AllocError, Global};

/// The keys of rows, each in 24 bytes, of which the first is its length.
#[derive(Drop)]
pub struct Arena {
    pub bytes: Vec<u8>,
}

impl Keys for Arena {
    ghost use Rattle.timed.specs.TableArena.{has_row, key_of};

    ghost has_row = { λ arena row. has_row arena row };

    ghost key_of = { λ arena row. key_of arena row };

    fn key(&self, row: u32) -> Key<'_> {
        let start = 24 * row as usize + 1;
        Key {
            table: 0,
            bytes: &self.bytes[start..start + self.bytes[start - 1] as usize],
        }
    }
}

impl RowKeys for Arena {
    fn has_key(&self, row: u32) -> bool {
        let start = 24 * row as usize + 1;
        start <= self.bytes.len() && self.bytes[start - 1] as usize <= self.bytes.len() - start
    }
}

/// The next of numbers that look like chance.
fn stirred(state: u64) -> u64 {
    let mut x = state ^ (state << 13);
    x ^= x >> 7;
    x ^ (x << 17)
}

/// The keys of so many rows, of 11 to 20 bytes.
pub fn fill_arena(alloc: Global, rows: u32) -> Result<Arena, AllocError> {
    let mut bytes = Vec::new(alloc);
    let mut state = 88_172_645_463_325_252;
    for _row in 0..rows {
        state = stirred(state);
        bytes.push(11 + (state % 10) as u8)?;
        let mut word = state;
        for at in 0..23u8 {
            if at % 8 == 0 {
                state = stirred(state);
                word = state;
            }
            bytes.push((word % 64) as u8 + 48)?;
            word >>= 8;
        }
    }
    Ok(Arena { bytes })
}

/// A hash of a key that is mixed with a word, as a table of keys has it.
fn mixed(hash: u64, word: u64) -> u64 {
    let product = (hash ^ word).wrapping_mul(0x9E37_79B9_7F4A_7C15);
    product ^ (product >> 32)
}

/// The keys of so many rows, of 16 bytes, which all have one hash.
pub fn fill_one_tag(alloc: Global, rows: u32) -> Result<Arena, AllocError> {
    let mut bytes = Vec::new(alloc);
    let mut state = 88_172_645_463_325_252;
    for _row in 0..rows {
        state = stirred(state);
        bytes.push(16)?;
        bytes.extend_from_slice(state.to_le_bytes().as_slice())?;
        bytes.extend_from_slice((mixed(16, state) ^ 7).to_le_bytes().as_slice())?;
        bytes.extend_from_slice([0u8; 7].as_slice())?;
    }
    Ok(Arena { bytes })
}
