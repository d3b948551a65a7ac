//! What can be asked of a shard.
ghost use Rattle.std.specs.Prelude.{◌≡◌, ℕ};
ghost use Rattle.std.specs.Bool.{Decides};
ghost use Rattle.rows.specs.Key.{key_shown};
ghost use Rattle.rows.specs.Operations.{count_of, key_of, kind_of, numbered, value_of};

use crate::key::Key;
use crate::kind::Kind;

/// An operation on the rows of a shard.
#[derive(Clone, Copy, Debug, PartialEq, Eq)]
pub enum Operation<'a> {
    /// Stores a value, of at most 12,000 bytes, under a key of 1 to 256 bytes.
    Put { key: Key<'a>, value: &'a [u8] },
    /// Looks the value of a key up.
    Get { key: Key<'a> },
    /// Removes the row of a key.
    Erase { key: Key<'a> },
    /// Looks keys of its table up, from this one on, at most so many: 1 to 32.
    Scan { from: Key<'a>, count: u32 },
}

impl<'a> Operation<'a> {
    /// Whether both ask the same.
    pub fn is_same_as(&self, other: &Operation<'_>) -> bool
        ensures { (number : ℕ) → Decides result (numbered number self.now ≡ numbered number other.now) }
    {
        self == other
    }

    /// The kind of the commands that ask so.
    pub fn kind(&self) -> Kind
        ensures { result ≡ kind_of self.now }
    {
        match *self {
            Operation::Put { .. } => Kind::Put,
            Operation::Get { .. } => Kind::Get,
            Operation::Erase { .. } => Kind::Erase,
            Operation::Scan { .. } => Kind::Scan,
        }
    }

    /// The key, or the least key of a scan.
    pub fn key(&self) -> Key<'a>
        ensures { key_shown result ≡ key_of self.now }
    {
        match *self {
            Operation::Put { key, .. } => key,
            Operation::Get { key } => key,
            Operation::Erase { key } => key,
            Operation::Scan { from, .. } => from,
        }
    }

    /// The value of a put; else empty.
    pub fn value(&self) -> &'a [u8]
        ensures { result.now ≡ value_of self.now }
    {
        match *self {
            Operation::Put { value, .. } => value,
            Operation::Get { .. } | Operation::Erase { .. } | Operation::Scan { .. } => &[],
        }
    }

    /// The most keys that a scan gives; else 0.
    pub fn count(&self) -> u32
        ensures { result ≡ count_of self.now }
    {
        match *self {
            Operation::Scan { count, .. } => count,
            Operation::Put { .. } | Operation::Get { .. } | Operation::Erase { .. } => 0,
        }
    }
}
