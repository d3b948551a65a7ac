//! The body of a reply.
ghost use Rattle.std.specs.Prelude.{ℕ, ◌+◌, ◌<◌, ◌^◌, ◌↔◌, IsTrue, IfSome, IfNone};
ghost use Rattle.shard_rings.specs.inside.Body.{HasKeys, IsBody};

use byteorder::{ByteOrder, LittleEndian};
use cache_model::ReplyKind;
use layout::{GREATEST_KEY, GREATEST_VALUE};

/// Whether the body is that of a reply of this kind, with so many keys.
#[tactic(auto, using(crate::proofs::Bodies::bodies))]
pub(crate) fn is_body(kind: ReplyKind, keys: u32, body: &[u8]) -> bool
    requires { keys < 2 ^ 16 }
    ensures { IsTrue result ↔ IsBody kind keys body.now }
{
    match kind {
        ReplyKind::Value => keys == 0 && body.len() <= GREATEST_VALUE,
        ReplyKind::Keys => has_keys(keys, body),
        _ => keys == 0 && body.is_empty(),
    }
}

/// Whether the body is so many keys, each behind its length.
fn has_keys(count: u32, body: &[u8]) -> bool
    ensures { IsTrue result ↔ HasKeys body.now count }
{
    let mut rest = body;
    for _ in 0..count {
        let Some(behind) = behind_key(rest) else {
            return false;
        };
        rest = behind;
    }
    rest.is_empty()
}

/// What stands behind the first key of a body of keys.
fn behind_key(body: &[u8]) -> Option<&[u8]>
    ensures some { IfSome result (λ behind. (count : ℕ) → HasKeys body.now (count + 1) ↔ HasKeys behind.now count) }
    ensures none { IfNone result ((count : ℕ) → HasKeys body.now (count + 1) → ⊥) }
{
    if body.len() < 2 {
        return None;
    }
    let len = LittleEndian::read_u16(body) as usize;
    let behind = &body[2..];
    if len == 0 || GREATEST_KEY < len || behind.len() < len {
        return None;
    }
    Some(&behind[len..])
}
