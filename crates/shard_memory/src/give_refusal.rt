//! Why no block is given.
use thiserror::Error;

/// Why no block is given.
///
/// # Examples
/// ```
/// let may_wait = match memory.give(size, Share::Request) {
///     Ok(block) => return Some(block),
///     Err(GiveRefusal::TooLarge) => false, // no block has so many bytes
///     Err(GiveRefusal::NoTicket) => true, // for a block that is released and taken back
///     Err(GiveRefusal::NoSpan) => true, // for blocks or segments that come back
/// };
/// ```
#[derive(Clone, Copy, Debug, PartialEq, Eq, Error)]
pub enum GiveRefusal {
    #[error("the block is larger than 16,384 bytes")]
    TooLarge,
    #[error("no ticket is idle")]
    NoTicket,
    #[error("neither the pool nor the pages have room")]
    NoSpan,
}
