//! What nodes that are done say, each alone and all together.
ghost use Rattle.std.specs.Prelude.{ℕ, ◌≤◌, List};
ghost use Rattle.trace_text.specs.Parsed.{AreNumbered, Parsed, trace_in};
ghost use Rattle.shard_rings.specs.Lanes.{Traffic};
ghost use Rattle.shard_node.specs.Nodes.{NodeState};
ghost use Rattle.shard_node.specs.Together.{Agree, AreTogether, IsCompleteNode, IsDoneNode};

use shard_rings::a_message_is_one_reply;

/// A node of a run of a trace that is done is complete, whatever its links brought: its journal is legal and complete, and each
/// peer was sent the replies that stand there to all of the peer's parts that this node does.
pub fn a_done_node_is_complete<L, G>()
    ensures { (traffic : L → Traffic) (holds : G → ℕ) (trace : Parsed) (n pages s : ℕ) (node : NodeState L G)
        → AreNumbered trace.commands
        → IsDoneNode traffic holds (trace_in trace) n pages s node → IsCompleteNode traffic (trace_in trace) n pages s node }
{}

/// The nodes of a run of a trace agree, once all of them are done: their journals are legal and complete, their logs hold the
/// replies that stand in the journals, and as many blocks were lent, and came back, as the report says.
pub fn done_nodes_agree<L, G>()
    ensures { (traffic : L → Traffic) (holds : G → ℕ) (trace : Parsed) (n pages : ℕ) (nodes : List (NodeState L G))
        → AreNumbered trace.commands → 1 ≤ n
        → AreTogether traffic holds (trace_in trace) n pages nodes → Agree traffic (trace_in trace) n pages nodes }
{
    // A packet holds one reply: so what was taken of a peer is what the peer sent.
    a_message_is_one_reply();
}
