//! A shard at work: what a node holds, and the steps of its turn.
ghost use Rattle.std.specs.Prelude.{◌≡◌, ◌+◌, ◌<◌, ◌↔◌, length, true, false, IsTrue};
ghost use Rattle.shard_rings.specs.declared.link.Lane.{Lane as AnyLane};
ghost use Rattle.shard_node.specs.inside.Calm.{IsCalm};
ghost use Rattle.shard_node.specs.inside.Moves.{packets_of, BeginsNone, ByeWaits, Frees, Goes, HeldUp, NonePassed, RacesAll, ReceivesNone, ReplyWaits};
ghost use Rattle.shard_node.specs.inside.Shards.{node_state, IsConsistent};
ghost use Rattle.shard_node.specs.inside.Steps.{IsStep};
ghost use Rattle.shard_node.specs.inside.TurnSteps.{ComesHome};

mod beginning;
mod ending;
mod opening;
mod replies;
mod requests;
mod turning;

use crate::gate::Gate;
use crate::waiting::Waiting;
use foreign_list::Tally;
use run_log::{Journal, ReplyLog};
use shard_parts::{Own, Peer, Rest, release_all, say_byes, send_replies};
use shard_rings::Link;
use shard_store::ShardStore;
use trace_text::Trace;

/// What a node holds.
#[derive(Drop)]
pub struct Shard<'f, L: Drop, G: Drop> {
    pub(crate) shard: u32,
    pub(crate) shards: u32,
    pub(crate) pages: u32,
    pub(crate) trace: &'f Trace,
    // The length of the longest value of the trace.
    pub(crate) longest: u32,
    pub(crate) store: ShardStore<'f>,
    pub(crate) journal: Journal,
    pub(crate) log: ReplyLog,
    // Where the keys of a scan stand on their way into the log.
    pub(crate) keys: Vec<u8>,
    // The other shards, in rising order.
    pub(crate) peers: Vec<Peer<'f, L>>,
    // The parts that the shard issues and that were not begun, and those among them that it does itself.
    pub(crate) own: Own<'f>,
    pub(crate) here: Rest<'f>,
    pub(crate) request: Option<Waiting<'f>>,
    pub(crate) gate: G,
    // The blocks of others that were released.
    pub(crate) tally: Tally,
    pub(crate) turns: u64,
}

impl<'f, L: Link<'f> + Drop, G: Gate + Drop> Shard<'f, L, G> {
    /// Takes back the blocks that came home.
    pub(crate) fn take_back(&mut self)
        requires { IsConsistent self.old }
        ensures { ComesHome L.traffic L.end self.old self.new }
    {
        self.store.take_back();
    }

    /// Tries each block that waits to be released once, where any may wait. True where one was.
    pub(crate) fn release_held(&mut self, calm: bool) -> bool
        requires consistent { IsConsistent self.old }
        requires calm { IsCalm calm (node_state self.old) }
        ensures step { IsStep L.traffic L.end self.old self.new }
        ensures received { (lane : AnyLane) → ReceivesNone L.traffic lane (node_state self.old) (node_state self.new) }
        ensures goes { Goes L.traffic (node_state self.old) (node_state self.new) }
        ensures own { BeginsNone (node_state self.old) (node_state self.new) }
        ensures released { result ≡ true → Frees L.traffic G.holds (node_state self.old) (node_state self.new) }
        ensures raced { result ≡ false → RacesAll L.traffic G.holds (node_state self.old) (node_state self.new) }
        ensures calm { IsCalm calm (node_state self.new) }
    {
        if calm {
            return false;
        }
        release_all(self.peers.as_mut_slice(), &mut self.tally)
    }

    /// Sends each reply that waits, where any may wait. True where one was sent.
    pub(crate) fn send_replies(&mut self, calm: bool) -> bool
        requires consistent { IsConsistent self.old }
        requires calm { IsCalm calm (node_state self.old) }
        ensures step { IsStep L.traffic L.end self.old self.new }
        ensures received { (lane : AnyLane) → ReceivesNone L.traffic lane (node_state self.old) (node_state self.new) }
        ensures goes { Goes L.traffic (node_state self.old) (node_state self.new) }
        ensures own { BeginsNone (node_state self.old) (node_state self.new) }
        ensures sent { IsTrue result ↔ (packets_of L.traffic (node_state self.old) < packets_of L.traffic (node_state self.new)) }
        ensures held_up { NonePassed L.traffic (node_state self.old) (node_state self.new)
            → HeldUp L.traffic (λ k. ReplyWaits
            L.traffic) (node_state self.old) (node_state self.new) }
    {
        if calm {
            return false;
        }
        send_replies(self.peers.as_mut_slice())
    }

    /// Says Bye to each peer that was not told, where all own parts were begun and none waits. True where it was sent to one.
    pub(crate) fn say_byes(&mut self) -> bool
        requires consistent { IsConsistent self.old }
        ensures step { IsStep L.traffic L.end self.old self.new }
        ensures received { (lane : AnyLane) → ReceivesNone L.traffic lane (node_state self.old) (node_state self.new) }
        ensures goes { Goes L.traffic (node_state self.old) (node_state self.new) }
        ensures own { BeginsNone (node_state self.old) (node_state self.new) }
        ensures sent { IsTrue result ↔ (packets_of L.traffic (node_state self.old) < packets_of L.traffic (node_state self.new)) }
        ensures held_up { NonePassed L.traffic (node_state self.old) (node_state self.new)
            → HeldUp L.traffic (λ k. ByeWaits L.traffic G.holds
            (node_state self.old)) (node_state self.old) (node_state self.new) }
    {
        if self.request.is_none() && self.own.next().is_none() {
            say_byes(self.peers.as_mut_slice())
        } else {
            false
        }
    }
}
