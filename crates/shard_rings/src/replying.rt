//! Replies, written and read.
ghost use Rattle.std.specs.Prelude.{◌≡◌, ℕ, ◌+◌, ◌<◌, ◌≤◌, ◌^◌, ◌++◌, length, take, drop, IfSome, IfNone};
ghost use Rattle.layout.specs.Sizes.{message_header};
ghost use Rattle.rows.specs.Apply.{Reply as Replied};
ghost use Rattle.rows.specs.Spelled.{spelled};
ghost use Rattle.rows.specs.Shown.{body_shown, key_count, keys_shown, kind_shown, IsViewOf};
ghost use Rattle.shard_rings.specs.Reply.{reply_header, HoldsReply, IsSendable};
ghost use Rattle.shard_rings.specs.inside.Body.{HasItsBody};

use crate::body::is_body;
use crate::head::{HEADER, Head, head_in, write_head};
use crate::writing::write_at;
use cache_model::ReplyKind;
use rows::Reply;

/// The reply that the bytes begin with, and the number of the command that it answers; None where they begin with none.
/// Bytes behind its body have no meaning.
pub fn read_reply(bytes: &[u8]) -> Option<(u32, Reply<'_>)>
    ensures read { IfSome result (λ read. (reply : Replied) × IsViewOf read.1 reply × HoldsReply bytes.now read.0 reply) }
    ensures none { IfNone result ((number : ℕ) (reply : Replied) → HoldsReply bytes.now number reply → ⊥) }
{
    let head = head_in(bytes)?;
    let body = body_in(bytes, head.len)?;
    if !is_body(head.kind, head.keys, body) {
        return None;
    }
    Some((head.number, with_body(head.kind, head.keys, body)))
}

/// The reply of a kind with this body, and with so many keys.
fn with_body(kind: ReplyKind, keys: u32, body: &[u8]) -> Reply<'_>
    requires { HasItsBody kind keys body.now }
    ensures kind { kind_shown result ≡ kind }
    ensures body { body_shown result ≡ body.now }
    ensures keys { keys_shown result ≡ keys }
{
    match kind {
        ReplyKind::Stored => Reply::Stored,
        ReplyKind::Replaced => Reply::Replaced,
        ReplyKind::Value => Reply::Value(body),
        ReplyKind::Missing => Reply::Missing,
        ReplyKind::Erased => Reply::Erased,
        ReplyKind::Keys => Reply::Keys {
            count: keys,
            bytes: body,
        },
    }
}

/// The bytes behind the header, so many of them.
fn body_in(bytes: &[u8], len: u32) -> Option<&[u8]>
    ensures some { IfSome result (λ body. body.now ≡ take len (drop message_header bytes.now)) }
    ensures length { IfSome result (λ body. length body.now ≡ len) }
    ensures none { IfNone result (length bytes.now < message_header + len) }
{
    bytes.get(HEADER..HEADER + len as usize)
}

/// Writes the reply to the command of this number over the first bytes of `into`: its header, and its body behind it. Ours, for
/// whoever makes the block of a reply; `into` may be longer.
pub fn write_reply(number: u32, reply: &Reply<'_>, into: &mut [u8])
    requires sendable { (meaning : Replied) × IsSendable meaning × IsViewOf reply.now meaning }
    requires room { message_header + length (body_shown reply.now) ≤ length into.old }
    ensures bytes { into.new ≡ reply_header (kind_shown reply.now) (keys_shown reply.now) number (length (body_shown reply.now))
        ++ body_shown reply.now ++ drop (message_header + length (body_shown reply.now)) into.old }
    ensures holds { (meaning : Replied) → IsSendable meaning → IsViewOf reply.now meaning → HoldsReply into.new number meaning }
{
    write_parts(reply.kind(), number, reply.keys(), reply.body(), into);
}

/// Writes a reply of a kind, with so many keys and this body.
fn write_parts(kind: ReplyKind, number: u32, keys: u32, body: &[u8], into: &mut [u8])
    requires keys { keys < 2 ^ 16 }
    requires short { length body.now < 2 ^ 32 }
    requires room { message_header + length body.now ≤ length into.old }
    ensures { into.new ≡ reply_header kind keys number (length body.now)
        ++ body.now ++ drop (message_header + length body.now) into.old }
{
    let head = Head {
        kind,
        keys,
        number,
        len: body.len() as u32,
    };
    write_head(&head, into);
    write_at(into, HEADER, body);
}

/// Writes the header of a reply whose body stands behind it already, and has `len` bytes. Ours, for whoever
/// makes the body in the block of the reply; `into` may be longer.
pub fn write_reply_header(kind: ReplyKind, number: u32, keys: u32, len: u32, into: &mut [u8])
    requires keys { keys < 2 ^ 16 }
    requires room { message_header + len ≤ length into.old }
    ensures bytes { into.new ≡ reply_header kind keys number len ++ drop message_header into.old }
    ensures holds { (meaning : Replied) → IsSendable meaning → spelled meaning ≡ (kind, take len (drop message_header into.old))
        → key_count meaning ≡ keys → HoldsReply into.new number meaning }
{
    let head = Head {
        kind,
        keys,
        number,
        len,
    };
    write_head(&head, into);
}
