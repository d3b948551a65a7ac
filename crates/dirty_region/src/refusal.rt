//! Why a put is not taken.
use thiserror::Error;

/// Why a put is not taken.
///
/// # Examples
/// ```
/// match dirty.put(b"apple", b"red", 1) {
///     Ok(()) => true,
///     Err(DirtyRefusal::TooMany) => false, // until a put is flushed
///     Err(DirtyRefusal::NoRoom) => false, // until enough bytes are flushed
/// }
/// ```
#[derive(Clone, Copy, Debug, PartialEq, Eq, Error)]
pub enum DirtyRefusal {
    /// As many puts are held as there is room for.
    #[error("no more puts are held")]
    TooMany,
    /// The live bytes would be more than the segments surely hold.
    #[error("the segments have no room")]
    NoRoom,
}
