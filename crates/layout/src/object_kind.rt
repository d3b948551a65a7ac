//! The kinds of objects.

/// What an object of a segment holds. Its number is the kind in the object's descriptor, where 0 is none.
#[derive(Clone, Copy, Debug, PartialEq, Eq)]
pub enum ObjectKind {
    /// A row of a cache.
    Row = 1,
    /// A fragment of a value.
    Fragment = 2,
    /// A node of an index.
    Node = 3,
    /// A put that is not flushed yet.
    Dirty = 4,
}
