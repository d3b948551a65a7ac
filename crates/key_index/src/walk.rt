//! Rows in order, from a place on.
ghost use Rattle.std.specs.Prelude.{◌≡◌, ℕ, ◌+◌, ◌<◌, ◌≤◌, [], ◌∷◌, List, length, All, MatchOption};
ghost use Rattle.key_index.specs.inside.Blocks.{back, IsBlock};

use crate::blocks::Blocks;
use crate::place::Place;
use crate::settling::entry_at;
use std::marker::Model;

/// The rows from a place on, in order.
///
/// # Examples
/// ```
/// let mut rows = index.rows_from(&keys, &key);
/// let first = rows.next(); // the row of the least key at or above, or None
/// let second = rows.next(); // the row of the key behind that, or None
/// ```
#[derive(Drop)]
pub struct Rows<'a> {
    blocks: &'a Blocks,
    place: Place,
}

impl<'a> Model for Rows<'a> {
    ghost use Rattle.std.specs.Prelude.{ℕ, ◌≤◌, List, length, All};
    ghost use Rattle.key_index.specs.inside.Blocks.{back, IsBlock};

    ghost Value = { List ℕ };

    ghost view = { λ r. back r.blocks.now.contents r.place.block r.place.at };

    ghost invariant = { λ r. All IsBlock r.blocks.now.contents × (r.place.block ≤ length r.blocks.now.contents) };
}

impl<'a> Rows<'a> {
    pub(crate) fn new(blocks: &'a Blocks, place: Place) -> Rows<'a>
        requires are_blocks { All IsBlock blocks.now.contents }
        requires within { place.block ≤ length blocks.now.contents }
        ensures { result ≡ back blocks.now.contents place.block place.at }
    {
        Rows { blocks, place }
    }

    /// The next row.
    pub fn next(&mut self) -> Option<u32>
        ensures { MatchOption result ((self.old ≡ []) × (self.new ≡ [])) (λ row. self.old ≡ row ∷ self.new) }
    {
        if let Some(entry) = entry_at(self.blocks, self.place) {
            let place = Place {
                block: self.place.block,
                at: self.place.at + 1,
                skip: 0,
            };
            self.place = place;
            return Some(entry.row);
        }
        if self.place.block >= self.blocks.len() {
            return None;
        }
        let behind = Place {
            block: self.place.block + 1,
            at: 0,
            skip: 0,
        };
        let found = entry_at(self.blocks, behind);
        let Some(entry) = found else {
            return None;
        };
        self.place = Place {
            block: behind.block,
            at: 1,
            skip: 0,
        };
        Some(entry.row)
    }
}
