//! What a cache tells of itself.
use std::fmt;

/// What a cache tells of itself. Each count stands at the greatest u64.
#[derive(Clone, Copy, Debug, PartialEq, Eq)]
pub struct Stats {
    pub rows: u32,
    /// For how many rows there is room.
    pub room: u32,
    /// The live bytes: the sizes of all rows together.
    pub live: u64,
    /// Rows go while more bytes than these are live.
    pub bound: u64,
    /// How many rows went, for puts and for blocks.
    pub evictions: u64,
    pub gets: u64,
    /// How many gets found a row.
    pub hits: u64,
    /// How many blocks are lent and have not come home.
    pub blocks_out: u32,
}

impl fmt::Display for Stats {
    fn fmt<W: fmt::Write>(&self, f: &mut fmt::Formatter<W>) -> fmt::Result {
        write!(f, "rows {} of {} ", self.rows, self.room)?;
        write!(f, "live {} of {} ", self.live, self.bound)?;
        write!(f, "evictions {} gets {} ", self.evictions, self.gets)?;
        write!(f, "hits {} blocks {}", self.hits, self.blocks_out)
    }
}
