//! Laws of the definitions.
ghost use Rattle.std.specs.Prelude.{◌≡◌, ℕ, List, All};
ghost use Rattle.rows.specs.Operation.{Operation};
ghost use Rattle.trace_text.specs.Parsed.{IsWellFormed};
ghost use Rattle.rows.specs.Apply.{Reply, apply};
ghost use Rattle.rows.specs.Row.{Row};
ghost use Rattle.rows.specs.Askable.{IsAskable};
ghost use Rattle.shard_rings.specs.Reply.{HoldsReply, IsSendable, IsSendableRow};
ghost use Rattle.shard_rings.specs.Request.{IsRequest};

/// Bytes hold at most one reply, to at most one command.
pub fn a_message_is_one_reply()
    ensures number { (bytes : List ℕ) (i j : ℕ) (reply other : Reply) → HoldsReply bytes i reply → HoldsReply bytes j other
        → i ≡ j }
    ensures reply { (bytes : List ℕ) (i j : ℕ) (reply other : Reply) → HoldsReply bytes i reply → HoldsReply bytes j other
        → reply ≡ other }
{}

/// Bytes are the request of at most one operation.
pub fn a_message_is_one_request()
    ensures { (bytes : List ℕ) (operation other : Operation) → IsRequest bytes operation → IsRequest bytes other
        → operation ≡ other }
{}

/// Each command of a trace can be asked.
pub fn commands_can_be_asked()
    ensures { (operation : Operation) → IsWellFormed operation → IsAskable operation }
{}

/// What a part replies can be sent, where its operation can be asked and each row of the cache can be sent.
pub fn replies_can_be_sent()
    ensures { (operation : Operation) (cache : List Row) → IsAskable operation → All IsSendableRow cache
        → IsSendable (apply operation cache).1 }
{}
