//! The step that does what other shards ask.
ghost use Rattle.std.specs.Prelude.{◌≡◌, ◌≢◌, ℕ, ◌⊎◌, ◌↔◌, ◌+◌, ◌<◌, ◌≤◌, length, true, Some, IsTrue};
ghost use Rattle.rows.specs.Operation.{Operation, is_put};
ghost use Rattle.shard_memory.specs.Tickets.{HasIdle};
ghost use Rattle.shard_memory.specs.declared.share.Share.{Share as Shares};
ghost use Rattle.shard_rings.specs.declared.link.Packet.TheVariants.{Block as InBlock, Bye};
ghost use Rattle.shard_store.specs.Stores.{IsUnguarded, StoreState};
ghost use Rattle.run_log.specs.JournalState.{JournalState};
ghost use Rattle.std.specs.List.{slice_get};
ghost use Rattle.shard_rings.specs.declared.link.Lane.{Lane as AnyLane};
ghost use Rattle.shard_rings.specs.declared.link.Lane.TheVariants.{Replies, Requests};
ghost use Rattle.shard_node.specs.Standing.{InStanding};
ghost use Rattle.shard_node.specs.inside.Moves.{packets_of, BeginsNone, Goes, HeldUp, NonePassed, ReceivesNone, ReceivesOne, RequestLacks, ReceivesOneStray, Tells, TriedSays};
ghost use Rattle.shard_node.specs.inside.Seen.{has_come};
ghost use Rattle.shard_parts.specs.Receives.{next_ask};
ghost use Rattle.shard_node.specs.inside.Serves.{EndsRequest, MayAsk, TriesRequest};
ghost use Rattle.shard_node.specs.inside.Shards.{IsConsistent, node_state};
ghost use Rattle.shard_node.specs.inside.Steps.{IsStep};

use super::Shard;
use crate::gate::Gate;
use crate::messages::reply;
use crate::seen::Seen;
use foreign_list::{ForeignBlock, Tally};
use run_log::Journal;
use shard_memory::Share;
use shard_parts::{Peer, Tried, release};
use shard_rings::{Lane, Link, Packet, message_number, operation_of, read_expected};
use shard_store::ShardStore;
use trace_text::Trace;

impl<'f, L: Link<'f> + Drop, G: Gate + Drop> Shard<'f, L, G> {
    /// Receives one packet of each peer that may ask, does what it asks, and sends the reply.
    pub(crate) fn serve(&mut self, seen: &mut Seen)
        requires consistent { IsConsistent self.old }

        // At most one request comes of each.
        ensures step { IsStep L.traffic L.end self.old self.new }
        ensures replies { ReceivesNone L.traffic Replies (node_state self.old) (node_state self.new) }
        ensures one { ReceivesOne L.traffic Requests (node_state self.old) (node_state self.new) }
        ensures goes { Goes L.traffic (node_state self.old) (node_state self.new) }
        ensures own { BeginsNone (node_state self.old) (node_state self.new) }

        // What came, or why nothing did.
        ensures moved { IsTrue seen.new.moved ↔
            (IsTrue seen.old.moved ⊎ (packets_of L.traffic (node_state self.old) < packets_of
            L.traffic (node_state self.new))) }
        ensures held_up { NonePassed L.traffic (node_state self.old) (node_state self.new)
            → HeldUp L.traffic (λ k. RequestLacks L.traffic
            (node_state self.old).store.lent) (node_state self.old) (node_state self.new) }

        // The first packet that was not expected.
        ensures tells { InStanding L.traffic (node_state self.old)
            → Tells (ReceivesOneStray L.traffic G.holds Requests (node_state self.old)
            (node_state self.new)) seen.old.stray seen.new.stray }
    {
        let mut at = 0;
        while at < self.peers.len() {
            seen.note_try(self.serve_peer(at));
            at += 1;
        }
    }

    fn serve_peer(&mut self, at: usize) -> Tried
        // A peer by its place.
        requires consistent { IsConsistent self.old }
        requires peer { at < length self.old.peers.items }

        // At most one request comes of it.
        ensures step { IsStep L.traffic L.end self.old self.new }
        ensures replies { ReceivesNone L.traffic Replies (node_state self.old) (node_state self.new) }
        ensures one { ReceivesOne L.traffic Requests (node_state self.old) (node_state self.new) }
        ensures goes { Goes L.traffic (node_state self.old) (node_state self.new) }
        ensures own { BeginsNone (node_state self.old) (node_state self.new) }

        // What came, or why nothing did.
        ensures moved { IsTrue (has_come result) ↔
            (packets_of L.traffic (node_state self.old) < packets_of
            L.traffic (node_state self.new)) }
        ensures held_up { NonePassed L.traffic (node_state self.old) (node_state self.new)
            → HeldUp L.traffic (λ k a b. k ≡ at
            → RequestLacks L.traffic
            (node_state self.old).store.lent a b) (node_state self.old) (node_state self.new) }

        // Nothing happened to the other peers.
        ensures others { (k : ℕ) → k ≢ at → slice_get (node_state self.new).peers k ≡ slice_get (node_state self.old).peers k }
        ensures peers { length self.new.peers.items ≡ length self.old.peers.items }

        // Whether the packet was expected.
        ensures tells { InStanding L.traffic (node_state self.old)
            → TriedSays (ReceivesOneStray L.traffic G.holds Requests (node_state self.old)
            (node_state self.new) at) result }
    {
        match self.take_request(at) {
            Tried::Expected => {
                self.send_reply(at);
                Tried::Expected
            }
            other => other,
        }
    }

    /// Receives a packet of a peer, where it may ask and a ticket for its reply is idle, and does what it asks.
    fn take_request(&mut self, at: usize) -> Tried
        // A peer by its place.
        requires consistent { IsConsistent self.old }
        requires peer { at < length self.old.peers.items }

        // At most one request comes of it.
        ensures step { IsStep L.traffic L.end self.old self.new }
        ensures replies { ReceivesNone L.traffic Replies (node_state self.old) (node_state self.new) }
        ensures one { ReceivesOne L.traffic Requests (node_state self.old) (node_state self.new) }
        ensures goes { Goes L.traffic (node_state self.old) (node_state self.new) }
        ensures own { BeginsNone (node_state self.old) (node_state self.new) }

        // What came, or why nothing did.
        ensures moved { IsTrue (has_come result) ↔
            (packets_of L.traffic (node_state self.old) < packets_of
            L.traffic (node_state self.new)) }
        ensures held_up { NonePassed L.traffic (node_state self.old) (node_state self.new)
            → HeldUp L.traffic (λ k a b. k ≡ at
            → RequestLacks L.traffic
            (node_state self.old).store.lent a b) (node_state self.old) (node_state self.new) }

        // Nothing happened to the other peers.
        ensures others { (k : ℕ) → k ≢ at → slice_get (node_state self.new).peers k ≡ slice_get (node_state self.old).peers k }
        ensures peers { length self.new.peers.items ≡ length self.old.peers.items }

        // Whether the packet was expected.
        ensures tells { InStanding L.traffic (node_state self.old)
            → TriedSays (ReceivesOneStray L.traffic G.holds Requests (node_state self.old)
            (node_state self.new) at) result }
    {
        if !self.store.is_idle(Share::Reply) || !self.peers[at].may_ask() {
            return Tried::Nothing;
        }
        let trace = self.trace;
        let (store, journal, tally) = (&mut self.store, &mut self.journal, &mut self.tally);
        serve(&mut self.peers[at], trace, store, journal, tally)
    }

    /// Sends the reply that waits for a peer, if one does.
    fn send_reply(&mut self, at: usize)
        requires consistent { IsConsistent self.old }
        requires peer { at < length self.old.peers.items }
        ensures step { IsStep L.traffic L.end self.old self.new }
        ensures received { (lane : AnyLane) → ReceivesNone L.traffic lane (node_state self.old) (node_state self.new) }
        ensures goes { Goes L.traffic (node_state self.old) (node_state self.new) }
        ensures own { BeginsNone (node_state self.old) (node_state self.new) }
        ensures others { (k : ℕ) → k ≢ at → slice_get (node_state self.new).peers k ≡ slice_get (node_state self.old).peers k }
        ensures peers { length self.new.peers.items ≡ length self.old.peers.items }
    {
        self.peers[at].send_reply();
    }
}

/// Receives a packet of a peer on the lane of requests. What is asked next is done, and its reply waits; another packet is set
/// aside, and answered.
fn serve<'f, L: Link<'f> + Drop>(
    peer: &mut Peer<'f, L>,
    trace: &Trace,
    store: &mut ShardStore<'f>,
    journal: &mut Journal,
    tally: &mut Tally,
) -> Tried
    requires may { MayAsk peer.old }
    requires trace { peer.old.asks.trace ≡ trace.now }
    requires idle { HasIdle store.old.lent Shares.Reply }
    requires unguarded { IsUnguarded store.old }
    requires room { (d : Operation) → next_ask peer.old ≡ Some d → is_put d.kind ≡ true
        → length store.old.rows < store.old.room }
    requires spare { (d : Operation) → next_ask peer.old ≡ Some d → length store.old.rows + 1 ≤ journal.old.spare }
    requires within { length store.old.rows ≤ store.old.room }
    ensures { TriesRequest
        L.traffic L.end peer.old peer.new store.old store.new journal.old journal.new tally.old tally.new result }
{
    match peer.link.receive(Lane::Requests) {
        None => Tried::Nothing,
        Some(Packet::Bye) => hear_bye(peer),
        Some(Packet::Block(block)) => {
            let tried = answer(peer, trace, &block, store, journal);
            peer.held_request = release(block, tally);
            tried
        }
    }
}

/// Hears Bye, where no request is left to come.
fn hear_bye<'f, L: Drop>(peer: &mut Peer<'f, L>) -> Tried
    ensures ends { (store : StoreState) (journal : JournalState)
        → EndsRequest Bye peer.old peer.new store store journal journal result }
    ensures same { peer.new ≡ record peer.old { has_heard_bye = peer.new.has_heard_bye } }
{
    if peer.asks.first().is_some() {
        return peer.unexpected_request(0);
    }
    peer.has_heard_bye = true;
    Tried::Expected
}

/// Reads what the block asks, and does it where that is what comes next; the reply waits.
fn answer<'f, L: Drop>(
    peer: &mut Peer<'f, L>,
    trace: &Trace,
    block: &ForeignBlock<'f>,
    store: &mut ShardStore<'f>,
    journal: &mut Journal,
) -> Tried
    requires trace { peer.old.asks.trace ≡ trace.now }
    requires idle { HasIdle store.old.lent Shares.Reply }
    requires unguarded { IsUnguarded store.old }
    requires room { (d : Operation) → next_ask peer.old ≡ Some d → is_put d.kind ≡ true
        → length store.old.rows < store.old.room }
    requires spare { (d : Operation) → next_ask peer.old ≡ Some d → length store.old.rows + 1 ≤ journal.old.spare }
    requires within { length store.old.rows ≤ store.old.room }
    ensures ends { EndsRequest (InBlock block.now) peer.old peer.new store.old store.new journal.old journal.new result }
    ensures same { peer.new ≡ record peer.old { reply = peer.new.reply; asks = peer.new.asks } }
{
    let bytes = block.bytes();
    let Some(command) = peer.asks.first() else {
        return peer.unexpected_request(message_number(bytes));
    };
    let expected = operation_of(trace, command);
    let Some(operation) = read_expected(bytes, command.number, &expected) else {
        return peer.unexpected_request(message_number(bytes));
    };
    peer.reply = Some(reply(store, command.number, &operation, journal));
    peer.asks.pass();
    Tried::Expected
}
