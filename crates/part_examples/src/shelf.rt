//! Keys of rows that stand in a vector, for whoever indexes rows by their keys.
ghost use Rattle.std.specs.List.{flat_map};
ghost use Rattle.std.specs.Prelude.{◌≡◌, ◌<◌, length, take, drop};

use key_index::{Key, Keys};

/// Keys of table 0, by row.
#[derive(Drop)]
pub struct Shelf {
    pub keys: Vec<Vec<u8>>,
}

impl Shelf {
    /// The bytes of the key of a row.
    fn bytes(&self, row: u32) -> &[u8]
        requires { row < length self.now.keys.items }
        ensures { result.now ≡ flat_map (λ key. key.items) (take 1 (drop row self.now.keys.items)) }
    {
        self.keys[row as usize].as_slice()
    }
}

impl Keys for Shelf {
    ghost use Rattle.std.specs.List.{flat_map};
    ghost use Rattle.std.specs.Prelude.{◌<◌, length, take, drop};
    ghost use Rattle.key_index.specs.Key.{in_table};

    ghost has_row = { λ shelf row. row < length shelf.keys.items };

    ghost key_of = { λ shelf row. in_table 0 (flat_map (λ key. key.items) (take 1 (drop row shelf.keys.items))) };

    fn key(&self, row: u32) -> Key<'_> {
        Key {
            table: 0,
            bytes: self.bytes(row),
        }
    }
}
