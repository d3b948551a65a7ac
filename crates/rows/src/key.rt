//! The keys of rows.
ghost use Rattle.std.specs.Bool.{Decides};
ghost use Rattle.std.specs.Prelude.{◌≡◌};
ghost use Rattle.rows.specs.Key.{key_cmp, key_shown};

use std::cmp::Ordering;

/// A key: bytes in a table. Two rows may have the same bytes in two tables.
#[derive(Clone, Copy, Debug, PartialEq, Eq)]
pub struct Key<'a> {
    /// 0 to 7.
    pub table: u8,
    /// 1 to 256 bytes.
    pub bytes: &'a [u8],
}

impl<'a> Key<'a> {
    /// Whether both are one key: the same bytes in the same table.
    pub fn is_same_as(&self, other: &Key<'_>) -> bool
        ensures { Decides result (key_shown self.now ≡ key_shown other.now) }
    {
        self == other
    }

    /// How it compares with another: by the tables, and where these are the same by the bytes.
    pub fn cmp_with(&self, other: &Key<'_>) -> Ordering
        ensures { result ≡ key_cmp (key_shown self.now) (key_shown other.now) }
    {
        match self.table.cmp(&other.table) {
            Ordering::Less => Ordering::Less,
            Ordering::Equal => self.bytes.cmp(other.bytes),
            Ordering::Greater => Ordering::Greater,
        }
    }
}
