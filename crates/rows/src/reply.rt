//! What a shard is answered.
ghost use Rattle.std.specs.Prelude.{◌≡◌};
ghost use Rattle.rows.specs.Shown.{body_shown, keys_shown, kind_shown};

use crate::reply_kind::ReplyKind;

/// A reply, with its body where it stands.
#[derive(Clone, Copy, Debug, PartialEq, Eq)]
pub enum Reply<'a> {
    Stored,
    Replaced,
    Value(&'a [u8]),
    Missing,
    Erased,
    /// So many keys: for each its length in two bytes, low byte first, and its bytes.
    Keys { count: u32, bytes: &'a [u8] },
}

impl<'a> Reply<'a> {
    /// The kind under which a log keeps it.
    pub fn kind(&self) -> ReplyKind
        ensures { result ≡ kind_shown self.now }
    {
        match *self {
            Reply::Stored => ReplyKind::Stored,
            Reply::Replaced => ReplyKind::Replaced,
            Reply::Value(_) => ReplyKind::Value,
            Reply::Missing => ReplyKind::Missing,
            Reply::Erased => ReplyKind::Erased,
            Reply::Keys { .. } => ReplyKind::Keys,
        }
    }

    /// The body under which a log keeps it: the value, or the bytes of the keys; else empty.
    pub fn body(&self) -> &'a [u8]
        ensures { result.now ≡ body_shown self.now }
    {
        match *self {
            Reply::Value(value) => value,
            Reply::Keys { bytes, .. } => bytes,
            Reply::Stored | Reply::Replaced | Reply::Missing | Reply::Erased => &[],
        }
    }

    /// How many keys it has.
    pub fn keys(&self) -> u32
        ensures { result ≡ keys_shown self.now }
    {
        match *self {
            Reply::Keys { count, .. } => count,
            Reply::Stored | Reply::Replaced | Reply::Value(_) | Reply::Missing | Reply::Erased => 0,
        }
    }
}
