//! A request that waits for its lane.
use foreign_list::ForeignBlock;

/// A request that waits to be sent.
#[derive(Drop)]
pub struct Waiting<'f> {
    /// The shard that it goes to.
    pub(crate) peer: u32,
    pub(crate) block: ForeignBlock<'f>,
}
