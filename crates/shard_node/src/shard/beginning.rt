//! The step that goes on with the shard's own parts.
ghost use Rattle.std.specs.Prelude.{◌≡◌, ◌≢◌, ◌↔◌, ℕ, ◌<◌, true, false, length, Contains, Some, None, IsTrue};
ghost use Rattle.std.specs.List.{slice_get};
ghost use Rattle.layout.specs.Sizes.{tickets};
ghost use Rattle.shard_node.specs.Nodes.{others};
ghost use Rattle.shard_parts.specs.Own.{IsFirstPart, own_log};
ghost use Rattle.shard_memory.specs.Tickets.{HasIdle};
ghost use Rattle.shard_memory.specs.declared.share.Share.{Share as Shares};
ghost use Rattle.layout.specs.Counts.{Rose};
ghost use Rattle.shard_rings.specs.declared.link.Lane.{Lane as AnyLane};
ghost use Rattle.shard_node.specs.declared.waiting.Waiting.{Waiting as IsWaiting};
ghost use Rattle.shard_node.specs.Standing.{InStanding};
ghost use Rattle.shard_node.specs.Turns.{GoesThroughGate};
ghost use Rattle.shard_node.specs.inside.Moves.{done_in, BeginsNone, BeginsOne, Goes, HeldUp, HoldsBack, ReceivesNone, Rises};
ghost use Rattle.shard_node.specs.inside.Shards.{IsConsistent, issued_by, node_state};
ghost use Rattle.shard_node.specs.inside.Steps.{IsStep};

use super::Shard;
use crate::gate::Gate;
use crate::messages::request;
use crate::parts::do_part;
use crate::waiting::Waiting;
use shard_memory::Share;
use shard_parts::send;
use shard_rings::{Lane, Link, operation_of};
use trace_text::Command;

impl<'f, L: Link<'f> + Drop, G: Gate + Drop> Shard<'f, L, G> {
    /// Sends the request that waits. Where none waits, the next own part is begun: done here, or asked of another shard. True
    /// where a request was sent or a part was done.
    pub(crate) fn go_on(&mut self) -> bool
        requires consistent { IsConsistent self.old }
        ensures step { IsStep L.traffic L.end self.old self.new }
        ensures received { (lane : AnyLane) → ReceivesNone L.traffic lane (node_state self.old) (node_state self.new) }
        ensures goes { Goes L.traffic (node_state self.old) (node_state self.new) }
        ensures gate { GoesThroughGate G.lets (node_state self.old) (node_state self.new) }
        ensures moved { IsTrue result ↔ Rises L.traffic (node_state self.old) (node_state self.new) }
        ensures held_back { result ≡ false → HoldsBack L.traffic G.holds (node_state self.old) (node_state self.new) }
    {
        if self.request.is_some() {
            self.send_request()
        } else {
            self.begin()
        }
    }

    /// Sends the request that waits, if one does. True where it was sent.
    fn send_request(&mut self) -> bool
        requires consistent { IsConsistent self.old }
        ensures step { IsStep L.traffic L.end self.old self.new }
        ensures received { (lane : AnyLane) → ReceivesNone L.traffic lane (node_state self.old) (node_state self.new) }
        ensures goes { Goes L.traffic (node_state self.old) (node_state self.new) }
        ensures own { BeginsNone (node_state self.old) (node_state self.new) }
        ensures moved { IsTrue result ↔ Rises L.traffic (node_state self.old) (node_state self.new) }
        ensures held_up { result ≡ false
            → HeldUp L.traffic
            (λ k a b. (waiting : IsWaiting) → self.old.request ≡ Some waiting → a.shard ≡ waiting.peer
            → Rose (L.traffic a.link).full.requests (L.traffic b.link).full.requests) (node_state self.old) (node_state self.new) }
    {
        let Some(Waiting { peer, block }) = self.request.take() else {
            return false;
        };
        let at = self.place_of(peer);
        let asked = &mut self.peers[at];
        // The peer owes no more than was asked of it, which are own parts.
        asked.answers.facts();
        match send(&mut asked.link, Lane::Requests, block) {
            Some(block) => {
                self.request = Some(Waiting { peer, block });
                false
            }
            None => {
                asked.owed += 1;
                true
            }
        }
    }

    /// Begins the next own part. Another shard's waits for a ticket, and a command's first part for the gate. True where its
    /// request was sent, or it was done.
    fn begin(&mut self) -> bool
        requires consistent { IsConsistent self.old }
        requires idle { self.old.request ≡ None }
        ensures step { IsStep L.traffic L.end self.old self.new }
        ensures received { (lane : AnyLane) → ReceivesNone L.traffic lane (node_state self.old) (node_state self.new) }
        ensures goes { Goes L.traffic (node_state self.old) (node_state self.new) }
        ensures gate { GoesThroughGate G.lets (node_state self.old) (node_state self.new) }
        ensures moved { IsTrue result ↔ Rises L.traffic (node_state self.old) (node_state self.new) }
        ensures held_back { result ≡ false → HoldsBack L.traffic G.holds (node_state self.old) (node_state self.new) }
    {
        let Some((command, doer)) = self.own.next() else {
            return false;
        };
        if doer != self.shard && !self.store.is_idle(Share::Request) {
            return false;
        }
        if !self.passes_gate(command.number) {
            return false;
        }
        // So many tickets there are: no more of them are out.
        self.store.facts();
        if doer == self.shard {
            self.do_here()
        } else {
            self.ask(command, doer);
            self.send_request()
        }
    }

    /// Whether the next own part, of the command of this number, may be begun: where it is the first of its command, the gate
    /// is asked, and else it is left alone.
    fn passes_gate(&mut self, number: u32) -> bool
        ensures same { self.new ≡ record self.old { gate = self.new.gate } }
        ensures first { result ≡ false → (part : ℕ × ℕ) → slice_get (own_log self.old.own) self.old.own.begun ≡ Some part
            → IsFirstPart (own_log self.old.own) self.old.own.begun part }
        ensures held { result ≡ false → G.holds self.old.gate < G.holds self.new.gate }
        ensures let_through { result ≡ true → (part : ℕ × ℕ) → slice_get (own_log self.old.own) self.old.own.begun ≡ Some part
            → IsFirstPart (own_log self.old.own) self.old.own.begun part
            → G.lets self.old.gate self.old.shard number self.new.gate }
        ensures left_alone { (part : ℕ × ℕ) → slice_get (own_log self.old.own) self.old.own.begun ≡ Some part
            → (IsFirstPart (own_log self.old.own) self.old.own.begun part → ⊥)
            → self.new.gate ≡ self.old.gate }
    {
        if !self.own.is_first() {
            return true;
        }
        self.gate.open(self.shard, number)
    }

    /// Does the next own part. True where it was done.
    fn do_here(&mut self) -> bool
        requires consistent { IsConsistent self.old }
        requires next { (i : ℕ) × (slice_get (issued_by self.old) self.old.own.begun ≡ Some (i, self.old.shard)) }
        requires many { length self.old.store.lent ≡ tickets }
        ensures step { IsStep L.traffic L.end self.old self.new }
        ensures received { (lane : AnyLane) → ReceivesNone L.traffic lane (node_state self.old) (node_state self.new) }
        ensures goes { Goes L.traffic (node_state self.old) (node_state self.new) }
        ensures own { BeginsOne (node_state self.old) (node_state self.new) }
        ensures moved { IsTrue result ↔ Rises L.traffic (node_state self.old) (node_state self.new) }
        ensures done { IsTrue result }
    {
        let Some(command) = self.here.first() else {
            return false;
        };
        let operation = operation_of(self.trace, command);
        let part = self.own.begun();
        let (store, journal, log) = (&mut self.store, &mut self.journal, &mut self.log);
        do_part(
            store,
            self.trace,
            command.number,
            &operation,
            part,
            self.keys.as_mut_slice(),
            journal,
            log,
        );
        self.here.pass();
        self.own.pass();
        true
    }

    /// Makes the request of the next own part, which waits to be sent.
    fn ask(&mut self, command: &Command, doer: u32)
        // What is due to a peer.
        requires consistent { IsConsistent self.old }
        requires idle { self.old.request ≡ None }
        requires of_trace { Contains self.old.trace.now.commands command.now }
        requires next { slice_get (issued_by self.old) self.old.own.begun ≡ Some (command.now.number, doer) }
        requires other { doer ≢ self.old.shard }
        requires below { doer < self.old.shards }
        requires ticket { HasIdle self.old.store.lent Shares.Request }
        requires many { length self.old.store.lent ≡ tickets }

        // Nothing passes over a link.
        ensures step { IsStep L.traffic L.end self.old self.new }
        ensures received { (lane : AnyLane) → ReceivesNone L.traffic lane (node_state self.old) (node_state self.new) }
        ensures goes { Goes L.traffic (node_state self.old) (node_state self.new) }
        ensures own { BeginsOne (node_state self.old) (node_state self.new) }
        ensures peers { (node_state self.new).peers ≡ (node_state self.old).peers }
        ensures done { done_in L.traffic (node_state self.new) ≡ done_in L.traffic (node_state self.old) }

        // The request is made.
        ensures waits { (waiting : IsWaiting) × (self.new.request ≡ Some waiting) }

        // Tickets of replies are as they were.
        ensures idle { InStanding L.traffic (node_state self.old)
            → self.new.store.backs ≡ self.old.store.backs
            → HasIdle self.new.store.lent Shares.Reply → HasIdle self.old.store.lent Shares.Reply }
    {
        // Entries are counted in 32 bits: so blocks that were lent are counted in 64.
        self.journal.entries();
        let operation = operation_of(self.trace, command);
        let (store, journal) = (&mut self.store, &mut self.journal);
        let block = request(store, command.number, &operation, journal);
        self.own.pass();
        self.request = Some(Waiting { peer: doer, block });
    }

    /// The place of another shard among the peers.
    fn place_of(&self, peer: u32) -> usize
        requires { Contains (others self.now.shards self.now.shard) peer }
        ensures { slice_get (others self.now.shards self.now.shard) result ≡ Some peer }
    {
        if peer < self.shard {
            peer as usize
        } else {
            peer as usize - 1
        }
    }
}
