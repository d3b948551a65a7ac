//! Where a row stands.

use crate::entries::RowAt;
use key_index::Place;

/// A row of a lazy index, and where it stands in the order of keys, if it is not late.
///
/// # Examples
/// ```
/// let Ok(found) = index.find(&keys, &key) else {
///     return false;
/// };
/// let standing = index.standing(&keys, found); // `standing.found.row` is the row
/// index.remove(standing); // no key is read, so that of the row may be gone by now
/// ```
#[derive(Clone, Copy, Debug)]
pub struct Standing {
    pub found: RowAt,
    pub(crate) place: Option<Place>,
}
