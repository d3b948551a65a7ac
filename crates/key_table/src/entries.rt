//! What a search in a table finds.
ghost use Rattle.std.specs.Prelude.{◌≡◌};
ghost use Rattle.rows.specs.Key.{key_shown};
ghost use Rattle.key_table.specs.Table.{IsSpotFor};

use crate::hash::tag_of;
use rows::Key;
use thiserror::Error;

/// A row of a table, and the tag of its key.
///
/// # Examples
/// ```
/// match index.find(&keys, &key) {
///     Ok(found) => Some(found.row), // the number of the row that has the key
///     Err(_) => None,
/// }
/// ```
#[derive(Clone, Copy, Debug)]
pub struct RowAt {
    pub row: u32,
    pub(crate) tag: u32,
}

/// Where a table would have the row of a key: the key's tag.
///
/// # Examples
/// ```
/// let spot = Spot::new(&key); // the spot that `find` answers where no row has the key
/// let taken = table.insert(spot, row).is_ok();
/// // Later, by the number and the key of the row alone:
/// let gone = table.remove(Spot::new(&key).of(row)); // true where the row was taken
/// ```
#[derive(Clone, Copy, Debug)]
pub struct Spot {
    pub(crate) tag: u32,
}

/// A row is not put in, since it would make 64 slots in a row that hold rows.
///
/// # Examples
/// ```
/// let Err(_) = table.insert(spot, row) else {
///     return;
/// };
/// strays.insert(&keys, row); // `Full`: a `KeyIndex` takes the row instead
/// ```
#[derive(Clone, Copy, Debug, Error)]
#[error("too many slots in a row would hold rows")]
pub struct Full;

impl Spot {
    /// The spot of a key.
    pub fn new(key: &Key<'_>) -> Spot
        ensures { IsSpotFor (key_shown key.now) result }
    {
        Spot { tag: tag_of(key) }
    }

    /// The row with this number, if it has the key of the spot.
    pub fn of(self, row: u32) -> RowAt
        ensures row { result.row ≡ row }
        ensures tag { result.tag ≡ self.tag }
    {
        RowAt { row, tag: self.tag }
    }
}
