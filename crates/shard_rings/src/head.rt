//! The header of a message.
ghost use Rattle.std.specs.Prelude.{length, drop, ◌≡◌, ◌≢◌, ◌<◌, ◌≤◌, ◌^◌, ◌++◌, IfSome, IfNone};
ghost use Rattle.layout.specs.Sizes.{message_header};
ghost use Rattle.rows.specs.declared.reply_kind.ReplyKind.{ReplyKind};
ghost use Rattle.shard_rings.specs.Number.{message_number};
ghost use Rattle.shard_rings.specs.Reply.{reply_byte, reply_header};
ghost use Rattle.shard_rings.specs.inside.Head.{IsHeadOf};

use byteorder::{ByteOrder, LittleEndian};
use cache_model::ReplyKind;
use layout::MESSAGE_HEADER;

pub(crate) const HEADER: usize = MESSAGE_HEADER as usize;

/// The fields of a reply's header.
#[derive(Clone, Copy)]
pub(crate) struct Head {
    pub(crate) kind: ReplyKind,
    /// How many keys the body has.
    pub(crate) keys: u32,
    pub(crate) number: u32,
    /// The bytes of the body.
    pub(crate) len: u32,
}

/// The header that the bytes begin with.
pub(crate) fn head_in(bytes: &[u8]) -> Option<Head>
    ensures some { IfSome result (λ head. IsHeadOf head bytes.now) }
    ensures none { IfNone result ((head : Head) → IsHeadOf head bytes.now → ⊥) }
{
    head_of(bytes.get(..HEADER)?)
}

/// What a header says.
#[tactic(auto, using(crate::proofs::Headers::zeros_read))]
fn head_of(header: &[u8]) -> Option<Head>
    requires { length header.now ≡ message_header }
    ensures some { IfSome result (λ head. IsHeadOf head header.now) }
    ensures none { IfNone result ((head : Head) → IsHeadOf head header.now → ⊥) }
{
    let kind = kind_of(header[0])?;
    if header[1] != 0 || LittleEndian::read_u32(&header[12..]) != 0 {
        return None;
    }
    Some(Head {
        kind,
        keys: LittleEndian::read_u16(&header[2..]) as u32,
        number: LittleEndian::read_u32(&header[4..]),
        len: LittleEndian::read_u32(&header[8..]),
    })
}

fn kind_of(byte: u8) -> Option<ReplyKind>
    ensures some { IfSome result (λ kind. reply_byte kind ≡ byte) }
    ensures none { IfNone result ((kind : ReplyKind) → reply_byte kind ≢ byte) }
{
    match byte {
        17 => Some(ReplyKind::Stored),
        18 => Some(ReplyKind::Replaced),
        19 => Some(ReplyKind::Value),
        20 => Some(ReplyKind::Missing),
        21 => Some(ReplyKind::Erased),
        22 => Some(ReplyKind::Keys),
        _ => None,
    }
}

/// Writes a header over the first bytes.
pub(crate) fn write_head(head: &Head, into: &mut [u8])
    requires keys { head.now.keys < 2 ^ 16 }
    requires room { message_header ≤ length into.old }
    ensures { into.new ≡ reply_header head.now.kind head.now.keys head.now.number head.now.len ++ drop message_header into.old }
{
    into[0] = byte_of(head.kind);
    into[1] = 0;
    LittleEndian::write_u16(&mut into[2..], head.keys as u16);
    LittleEndian::write_u32(&mut into[4..], head.number);
    LittleEndian::write_u32(&mut into[8..], head.len);
    LittleEndian::write_u32(&mut into[12..], 0);
}

fn byte_of(kind: ReplyKind) -> u8
    ensures { result ≡ reply_byte kind }
{
    match kind {
        ReplyKind::Stored => 17,
        ReplyKind::Replaced => 18,
        ReplyKind::Value => 19,
        ReplyKind::Missing => 20,
        ReplyKind::Erased => 21,
        ReplyKind::Keys => 22,
    }
}

/// The number of the command that a message is of, as its header has it; 0 where the bytes hold no whole header.
pub fn message_number(bytes: &[u8]) -> u32
    ensures { result ≡ message_number bytes.now }
{
    if bytes.len() < HEADER {
        return 0;
    }
    LittleEndian::read_u32(&bytes[4..])
}
