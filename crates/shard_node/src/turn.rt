/// What a node's turn came to.
#[derive(Clone, Copy, Debug, PartialEq, Eq)]
pub enum Turn {
    /// Something moved: a block came back, a packet was sent or received, a part was done, or a block that waited was
    /// released.
    Moved,
    /// Nothing moved. No block that was lent came home, each lane that was tried was full or empty, each release was raced, and
    /// what the next own part waits for is not there.
    Idle,
    /// All own parts are answered, all peers are done with this one, nothing waits, and all blocks are back.
    Done,
    /// A packet was not the one that was expected, and was set aside: the first such packet of the turn, by the number of the
    /// shard that sent it, the number of the packet that was expected, and its own. Bye, and a block that holds no whole
    /// header, have the number 0.
    Stray {
        peer: u32,
        expected: u32,
        found: u32,
    },
}
