/// What a put did.
///
/// # Examples
/// ```
/// let more = match cache.put(0, b"apple", b"green", 2) {
///     Ok(Put::Stored) => true, // a row more
///     Ok(Put::Replaced) => false, // as many rows as before
///     Err(_) => return None, // `NeedSegment`, and nothing changed
/// };
/// ```
#[derive(Clone, Copy, Debug, PartialEq, Eq)]
pub enum Put {
    /// No row had the key.
    Stored,
    /// The row that had the key is gone.
    Replaced,
}
