//! The header of a request.
ghost use Rattle.std.specs.Prelude.{◌≡◌, ◌≤◌, ◌++◌, length, drop, IfSome, IfNone};
ghost use Rattle.layout.specs.Sizes.{message_header};
ghost use Rattle.shard_rings.specs.declared.request_head.RequestHead.{RequestHead as Heads};
ghost use Rattle.shard_rings.specs.inside.RequestHead.{head_bytes, IsRequestHeadOf};

use crate::head::HEADER;
use byteorder::{ByteOrder, LittleEndian};

/// The fields of a request's header, whatever they say.
#[derive(Clone, Copy)]
pub(crate) struct RequestHead {
    pub(crate) kind: u8,
    pub(crate) table: u8,
    pub(crate) key_len: u16,
    pub(crate) number: u32,
    pub(crate) value_len: u16,
    pub(crate) count: u16,
}

/// The header that the bytes begin with.
#[tactic(auto, using(crate::proofs::RequestHeads::zeros_read))]
pub(crate) fn request_head_in(bytes: &[u8]) -> Option<RequestHead>
    ensures some { IfSome result (λ head. IsRequestHeadOf head bytes.now) }
    ensures none { IfNone result ((head : Heads) → IsRequestHeadOf head bytes.now → ⊥) }
{
    if bytes.len() < HEADER || LittleEndian::read_u32(&bytes[12..]) != 0 {
        return None;
    }
    Some(RequestHead {
        kind: bytes[0],
        table: bytes[1],
        key_len: LittleEndian::read_u16(&bytes[2..]),
        number: LittleEndian::read_u32(&bytes[4..]),
        value_len: LittleEndian::read_u16(&bytes[8..]),
        count: LittleEndian::read_u16(&bytes[10..]),
    })
}

/// Writes a header over the first bytes.
pub(crate) fn write_request_head(head: &RequestHead, into: &mut [u8])
    requires { message_header ≤ length into.old }
    ensures { into.new ≡ head_bytes head.now ++ drop message_header into.old }
{
    into[0] = head.kind;
    into[1] = head.table;
    LittleEndian::write_u16(&mut into[2..], head.key_len);
    LittleEndian::write_u32(&mut into[4..], head.number);
    LittleEndian::write_u16(&mut into[8..], head.value_len);
    LittleEndian::write_u16(&mut into[10..], head.count);
    LittleEndian::write_u32(&mut into[12..], 0);
}
