//! The same steps over an index whose keys stand in nodes in segments.
ghost use Rattle.std.specs.Prelude.{◌≡◌, ◌≤◌, length, IfOk};
ghost use Rattle.layout.specs.Sizes as sizes;
ghost use Rattle.regions.specs.Shapes.{guards_of, held_count};

use super::arena::Arena;
use crate::rounds::{RowKeys, row_at};
use index_tree::IndexTree;
use key_index::Keys;
use layout::{KEY_ROOM, MOST_KEYS, MOST_RUN_PAGES, SEGMENT, SEGMENT_PAGES};
use raw_range::{Piece, Range};
use std::alloc::{AllocError, Global};

/// The bytes for the keys of a range.
const RANGE_ROOM: usize = (MOST_KEYS * KEY_ROOM) as usize;

/// The piece of a segment, of a range of its own.
fn piece(alloc: Global, owner: u32) -> Result<Piece, AllocError>
    ensures { IfOk result (λ p. length p.bytes ≡ sizes.segment) }
{
    let mut range = Range::new(alloc, owner, SEGMENT_PAGES)?;
    Ok(range.take(0, SEGMENT))
}

/// The segments of an index, as many as the program's words can ask for.
const SEGMENTS: u32 = MOST_RUN_PAGES / SEGMENT_PAGES;

/// An index with all of its segments.
#[derive(Drop)]
pub struct Tree {
    tree: IndexTree,
    ghost held: { 3 ≤ held_count tree.region },
    ghost unguarded: { guards_of tree.region 0 ≡ 0 },
}

impl Tree {
    /// A tree without keys, with so many segments: 387,254 keys have room.
    pub fn open(alloc: Global) -> Result<Tree, AllocError> {
        let mut tree = IndexTree::new(alloc, SEGMENTS)?;
        for number in 0..SEGMENTS {
            tree.add_segment(piece(alloc, number)?);
        }
        Ok(Tree { tree })
    }

    /// Puts in the key of each row that has one, and tells how many there are.
    pub fn fill(&mut self, arena: &Arena, rows: u32) -> u32 {
        for row in 0..rows {
            if !arena.has_key(row) {
                break;
            }
            let key = arena.key(row).bytes;
            if key.is_empty() || key.len() > 256 {
                break;
            }
            let Ok(_) = self.tree.insert(key, row) else {
                break;
            };
        }
        self.tree.len()
    }

    /// How many of so many rows are found, in another order.
    pub fn count_found(&self, arena: &Arena, rows: u32) -> u32 {
        let mut found = 0u32;
        for at in 0..rows {
            let row = row_at(at, rows);
            if arena.has_key(row) && self.tree.get(arena.key(row).bytes) == Some(row) {
                found = found.wrapping_add(1);
            }
        }
        found
    }

    /// How many keys the ranges of at most 32 keys have that begin at those of so many rows, in that order.
    pub fn count_in_ranges(&self, arena: &Arena, rows: u32) -> u32 {
        let mut keys = [0u8; RANGE_ROOM];
        let mut count = 0u32;
        for at in 0..rows {
            let row = row_at(at, rows);
            if arena.has_key(row) {
                let scanned = self.tree.range(arena.key(row).bytes, MOST_KEYS, &mut keys);
                count = count.wrapping_add(scanned.keys);
            }
        }
        count
    }

    /// How many of so many rows are taken out, in that order.
    pub fn count_removed(&mut self, arena: &Arena, rows: u32) -> u32 {
        let mut removed = 0u32;
        for at in 0..rows {
            let row = row_at(at, rows);
            if arena.has_key(row) && self.tree.remove(arena.key(row).bytes).is_some() {
                removed = removed.wrapping_add(1);
            }
        }
        removed
    }
}
