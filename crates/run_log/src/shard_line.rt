//! What a report says of a shard at the end.

/// What a shard's cache came to, and how many blocks the shard lent and got back.
#[derive(Clone, Copy, Debug, PartialEq, Eq)]
pub struct ShardLine {
    /// The rows that the shard holds.
    pub rows: u32,
    /// The sizes of these rows together, in bytes.
    pub live: u64,
    /// The blocks that the shard lent to other shards.
    pub lent: u64,
    /// The lent blocks that came back.
    pub back: u64,
}
