//! The reply that is expected of a peer.
ghost use Rattle.std.specs.Prelude.{IfSome, IfNone};
ghost use Rattle.rows.specs.Apply.{Reply as Replied};
ghost use Rattle.rows.specs.Fits.{Fits};
ghost use Rattle.rows.specs.Operations.{numbered};
ghost use Rattle.rows.specs.Shown.{IsViewOf};
ghost use Rattle.shard_rings.specs.Reply.{HoldsReply};

use crate::fitting::fits;
use shard_rings::{Operation, Reply, a_message_is_one_reply, read_reply};

/// The reply to the command of this number that the bytes begin with, where it is one that its operation can have and no value of
/// it is longer than `longest`. None where they begin with no such reply.
pub fn expected_reply<'a>(
    bytes: &'a [u8],
    number: u32,
    operation: &Operation<'_>,
    longest: u32,
) -> Option<Reply<'a>>
    ensures some { IfSome result (λ view. (reply : Replied) × IsViewOf view reply × HoldsReply bytes.now number reply
        × Fits longest (numbered number operation.now) reply) }
    ensures none { IfNone result ((reply : Replied) → HoldsReply bytes.now number reply
        → Fits longest (numbered number operation.now) reply → ⊥) }
{
    // So where another reply is read than is expected, none that is expected stands there.
    a_message_is_one_reply();
    let (found, reply) = read_reply(bytes)?;
    if found != number {
        return None;
    }
    if !fits(&reply, operation, longest) {
        return None;
    }
    Some(reply)
}
