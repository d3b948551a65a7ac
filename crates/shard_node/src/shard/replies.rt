//! The step that takes the replies of other shards.
ghost use Rattle.std.specs.Prelude.{◌≡◌, ◌≢◌, ◌⊎◌, ◌↔◌, ℕ, ◌<◌, length, IsTrue};
ghost use Rattle.std.specs.List.{slice_get};
ghost use Rattle.shard_rings.specs.declared.link.Lane.TheVariants.{Replies, Requests};
ghost use Rattle.shard_node.specs.Standing.{InStanding};
ghost use Rattle.shard_node.specs.inside.Moves.{packets_of, BeginsNone, Goes, HeldUp, NonePassed, ReceivesNone, ReceivesOne, ReplyLacks, ReceivesOneStray, Tells, TriedSays};
ghost use Rattle.shard_node.specs.inside.Seen.{has_come};
ghost use Rattle.shard_node.specs.inside.Shards.{IsConsistent, node_state};
ghost use Rattle.shard_node.specs.inside.Steps.{IsStep};

use super::Shard;
use crate::gate::Gate;
use crate::seen::Seen;
use shard_parts::Tried;
use shard_rings::Link;

impl<'f, L: Link<'f> + Drop, G: Gate + Drop> Shard<'f, L, G> {
    /// Receives one packet of each peer that owes a reply, and none of whose replies waits to be released.
    pub(crate) fn take_replies(&mut self, seen: &mut Seen)
        requires consistent { IsConsistent self.old }

        // At most one reply comes of each.
        ensures step { IsStep L.traffic L.end self.old self.new }
        ensures requests { ReceivesNone L.traffic Requests (node_state self.old) (node_state self.new) }
        ensures one { ReceivesOne L.traffic Replies (node_state self.old) (node_state self.new) }
        ensures goes { Goes L.traffic (node_state self.old) (node_state self.new) }
        ensures own { BeginsNone (node_state self.old) (node_state self.new) }

        // What came, or why nothing did.
        ensures moved { IsTrue seen.new.moved ↔
            (IsTrue seen.old.moved ⊎ (packets_of L.traffic (node_state self.old) < packets_of
            L.traffic (node_state self.new))) }
        ensures held_up { NonePassed L.traffic (node_state self.old) (node_state self.new)
            → HeldUp L.traffic (λ k. ReplyLacks
            L.traffic) (node_state self.old) (node_state self.new) }

        // The first packet that was not expected.
        ensures tells { InStanding L.traffic (node_state self.old)
            → Tells (ReceivesOneStray L.traffic G.holds Replies (node_state self.old)
            (node_state self.new)) seen.old.stray seen.new.stray }
    {
        let mut at = 0;
        while at < self.peers.len() {
            seen.note_try(self.take_reply(at));
            at += 1;
        }
    }

    fn take_reply(&mut self, at: usize) -> Tried
        // A peer by its place.
        requires consistent { IsConsistent self.old }
        requires peer { at < length self.old.peers.items }

        // At most one reply comes of it.
        ensures step { IsStep L.traffic L.end self.old self.new }
        ensures requests { ReceivesNone L.traffic Requests (node_state self.old) (node_state self.new) }
        ensures one { ReceivesOne L.traffic Replies (node_state self.old) (node_state self.new) }
        ensures goes { Goes L.traffic (node_state self.old) (node_state self.new) }
        ensures own { BeginsNone (node_state self.old) (node_state self.new) }

        // What came, or why nothing did.
        ensures moved { IsTrue (has_come result) ↔
            (packets_of L.traffic (node_state self.old) < packets_of
            L.traffic (node_state self.new)) }
        ensures held_up { NonePassed L.traffic (node_state self.old) (node_state self.new)
            → HeldUp L.traffic (λ k a b. k ≡ at
            → ReplyLacks L.traffic a b) (node_state self.old) (node_state self.new) }

        // Nothing happened to the other peers.
        ensures others { (k : ℕ) → k ≢ at → slice_get (node_state self.new).peers k ≡ slice_get (node_state self.old).peers k }
        ensures peers { length self.new.peers.items ≡ length self.old.peers.items }

        // Whether the packet was expected.
        ensures tells { InStanding L.traffic (node_state self.old)
            → TriedSays (ReceivesOneStray L.traffic G.holds Replies (node_state self.old)
            (node_state self.new) at) result }
    {
        let (trace, longest) = (self.trace, self.longest);
        let peer = &mut self.peers[at];
        if !peer.owes_reply() {
            return Tried::Nothing;
        }
        // The part of the reply that is due stands in the log of own parts, and was not answered.
        peer.answers.facts();
        peer.take_reply(trace, longest, &mut self.log, &mut self.tally)
    }
}
