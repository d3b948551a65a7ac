//! What comes over a lane.

/// A packet that was not the one expected, and was set aside: who sent it, the number of the packet that was expected, and its own.
#[derive(Clone, Copy, Debug, PartialEq, Eq)]
pub struct StrayPacket {
    pub peer: u32,
    pub expected: u32,
    pub found: u32,
}

/// What the one try of a lane came to.
#[derive(Clone, Copy, Debug, PartialEq, Eq)]
pub enum Tried {
    /// Nothing was there, or the lane was not to be tried.
    Nothing,
    /// The packet that was expected came.
    Expected,
    /// Another packet came.
    Other(StrayPacket),
}
