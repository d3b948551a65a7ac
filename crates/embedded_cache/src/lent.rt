//! A value that is lent.
use foreign_list::ForeignBlock;

/// A block that was lent with a value behind its head.
#[derive(Drop)]
pub struct Lent<'f> {
    /// Any thread may read and write it, and gives it back by its `release`.
    pub block: ForeignBlock<'f>,
    /// The length of the value. None where no row had the key.
    pub len: Option<u32>,
    /// How many rows went for the block. The tags of as many of them were told as the caller had places for.
    pub evicted: u64,
}
