//! What an operation can be answered.
ghost use Rattle.std.specs.Prelude.{◌≡◌};
ghost use Rattle.rows.specs.CanAnswer.{can_answer};

use crate::kind::Kind;

/// What a part was answered.
#[derive(Clone, Copy, Debug, PartialEq, Eq)]
pub enum ReplyKind {
    Stored,
    Replaced,
    /// The body is the value.
    Value,
    Missing,
    Erased,
    /// The body is the keys: for each, its length in two bytes, low byte first, and its bytes.
    Keys,
}

impl ReplyKind {
    /// Whether an operation of the kind can be answered so.
    pub fn can_answer(self, kind: Kind) -> bool
        ensures { result ≡ can_answer kind self }
    {
        match (kind, self) {
            (Kind::Put, ReplyKind::Stored | ReplyKind::Replaced) => true,
            (Kind::Get, ReplyKind::Value | ReplyKind::Missing) => true,
            (Kind::Erase, ReplyKind::Erased | ReplyKind::Missing) => true,
            (Kind::Scan, ReplyKind::Keys) => true,
            _ => false,
        }
    }
}
