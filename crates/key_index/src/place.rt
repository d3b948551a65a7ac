//! Places in an index.

/// A place before a row, or behind the last one.
///
/// It is good until the index changes.
///
/// # Examples
/// ```
/// let Err(place) = index.search(&keys, &key) else {
///     return false; // a row has the key
/// };
/// index.insert_at(&keys, place, row); // nothing changed the index in between
/// ```
#[derive(Clone, Copy, Debug)]
pub struct Place {
    pub(crate) block: usize,
    pub(crate) at: usize,
    // how many bytes of its key an entry skips that is put here, best
    pub(crate) skip: u32,
}

/// A row, and where it stands.
///
/// # Examples
/// ```
/// let Ok(found) = index.search(&keys, &key) else {
///     return None; // no row has the key
/// };
/// index.remove_at(found);
/// Some(found.row) // the row that had the key
/// ```
#[derive(Clone, Copy, Debug)]
pub struct RowAt {
    pub row: u32,
    pub place: Place,
}
