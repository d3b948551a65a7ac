/// Whose tickets a block is lent with. A shard has some for its requests and others for its replies, so that neither wait for the
/// other.
///
/// # Examples
/// ```
/// let request = memory.give(100, Share::Request); // with one of the tickets 0 to 7
/// let reply = memory.give(100, Share::Reply); // with one of the tickets 8 to 31
/// let idle = memory.is_idle(Share::Reply); // whether one more can be lent
/// ```
#[derive(Clone, Copy, Debug, PartialEq, Eq)]
pub enum Share {
    /// The first tickets, [`layout::REQUEST_TICKETS`] of them.
    Request,
    /// The others of [`layout::TICKETS`].
    Reply,
}
