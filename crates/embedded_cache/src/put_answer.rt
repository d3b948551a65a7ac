//! What a put answers.
use shard_store::Put;

/// What a put did, and how many rows went for it.
#[derive(Clone, Copy, Debug, PartialEq, Eq)]
pub struct PutAnswer {
    /// Whether a row had the key.
    pub put: Put,
    /// How many rows went. The tags of as many of them were told as the caller had places for.
    pub evicted: u64,
}
