//! A row as it comes.

/// A row as it comes: a key and its table, its value and the number of the put.
#[derive(Clone, Copy)]
pub struct NewRow<'a> {
    /// The table of the key, 0 to 7.
    pub table: u8,
    /// The key.
    pub key: &'a [u8],
    /// The value.
    pub value: &'a [u8],
    /// The number of the put.
    pub number: u32,
}
