//! What a try did.

/// What a push did.
pub enum Push {
    Pushed,
    /// The queue was full at one moment of the call.
    Full,
    /// Another thread's call came between: try again.
    Raced,
}

/// What a pop did.
pub enum Pop {
    Popped(u64),
    /// The queue was empty at one moment of the call.
    Empty,
    /// Another thread's call came between: try again.
    Raced,
}
