//! Whether a reply is one that an operation can have.
ghost use Rattle.std.specs.Prelude.{ℕ, ◌<◌, ◌^◌, ◌↔◌, length, IsTrue};
ghost use Rattle.rows.specs.Apply.{Reply as Replied};
ghost use Rattle.rows.specs.Fits.{Fits};
ghost use Rattle.rows.specs.Operations.{numbered};
ghost use Rattle.rows.specs.Shown.{body_shown, IsViewOf};
ghost use Rattle.shard_rings.specs.Reply.{IsSendable};
ghost use Rattle.shard_parts.specs.inside.Fitting.{BodyFits};

use crate::rising::rise;
use shard_rings::{Operation, Reply};

/// Whether the operation can have the reply, where no value is longer than `longest`.
pub(crate) fn fits(reply: &Reply<'_>, operation: &Operation<'_>, longest: u32) -> bool
    requires sendable { (meaning : Replied) × IsSendable meaning × IsViewOf reply.now meaning }
    requires short { length (body_shown reply.now) < 2 ^ 32 }
    ensures { (number : ℕ) (meaning : Replied) → IsSendable meaning → IsViewOf reply.now meaning
        → (IsTrue result ↔ Fits longest (numbered number operation.now) meaning) }
{
    let answered = reply.kind();
    let asked = operation.kind();
    let from = operation.key();
    let most = operation.count();
    answered.can_answer(asked) && body_fits(reply, from.bytes, most, longest)
}

/// Whether a value is not too long, and keys are at most so many and rise from this one on.
fn body_fits(reply: &Reply<'_>, from: &[u8], most: u32, longest: u32) -> bool
    requires sendable { (meaning : Replied) × IsSendable meaning × IsViewOf reply.now meaning }
    requires short { length (body_shown reply.now) < 2 ^ 32 }
    ensures { (meaning : Replied) → IsSendable meaning → IsViewOf reply.now meaning
        → (IsTrue result ↔ BodyFits longest from.now most meaning) }
{
    match *reply {
        Reply::Value(value) => value.len() <= longest as usize,
        Reply::Keys { count, bytes } => count <= most && rise(bytes, from),
        Reply::Stored | Reply::Replaced | Reply::Missing | Reply::Erased => true,
    }
}
