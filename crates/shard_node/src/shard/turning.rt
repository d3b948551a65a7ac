//! A turn: its steps, one after the other.
ghost use Rattle.std.specs.Prelude.{◌≡◌, ◌↔◌, false};
ghost use Rattle.layout.specs.Counts.{counted};
ghost use Rattle.shard_node.specs.Standing.{InStanding};
ghost use Rattle.shard_node.specs.Turns.{GoesThroughGate, IsAnswer, IsDone, IsSameNode};
ghost use Rattle.shard_node.specs.declared.turn.Turn.{Turn as Turns};
ghost use Rattle.shard_node.specs.inside.Calm.{IsCalm};
ghost use Rattle.shard_node.specs.inside.Shards.{node_state, IsConsistent};
ghost use Rattle.shard_node.specs.inside.TurnSteps.{FollowsHome, NotesHome, SeesTurn};

use super::Shard;
use crate::gate::Gate;
use crate::seen::Seen;
use crate::turn::Turn;
use shard_parts::none_waits;
use shard_rings::Link;

impl<'f, L: Link<'f> + Drop, G: Gate + Drop> Shard<'f, L, G> {
    /// One turn. It waits for nobody. A shard that is done makes no step, and one where nothing waits passes over the steps that
    /// are for what waits.
    pub(crate) fn turn(&mut self, calm: &mut bool) -> Turn
        requires consistent { IsConsistent self.old }
        requires calm { IsCalm calm.old (node_state self.old) }

        // What holds after each turn.
        ensures consistent { IsConsistent self.new }
        ensures calm { IsCalm calm.new (node_state self.new) }
        ensures standing { InStanding L.traffic (node_state self.old) → InStanding L.traffic (node_state self.new) }
        ensures same { IsSameNode L.end (node_state self.old) (node_state self.new) }
        ensures turns { self.new.turns ≡ counted self.old.turns }
        ensures gate { GoesThroughGate G.lets (node_state self.old) (node_state self.new) }

        // What the result means.
        ensures done { InStanding L.traffic (node_state self.old)
            → ((result ≡ Turns.Done) ↔ IsDone L.traffic G.holds (node_state self.new)) }
        ensures rests { InStanding L.traffic (node_state self.old)
            → IsDone L.traffic G.holds (node_state self.old)
            → self.new ≡ record self.old { turns = self.new.turns } }
        ensures answer { InStanding L.traffic (node_state self.old)
            → IsAnswer L.traffic G.holds result (node_state self.old) (node_state self.new) }
    {
        self.turns = self.turns.saturating_add(1);
        if self.is_done() {
            return Turn::Done;
        }
        let seen = self.make_steps(*calm);
        self.note_waiting(seen.moved, calm);
        if self.is_done() {
            Turn::Done
        } else {
            seen.turn()
        }
    }

    /// The steps of a turn, in their order.
    fn make_steps(&mut self, calm: bool) -> Seen
        requires consistent { IsConsistent self.old }
        requires calm { IsCalm calm (node_state self.old) }
        ensures { SeesTurn L.traffic L.end G.holds G.lets result self.old self.new }
    {
        let back = self.store.back();
        self.take_back();
        let mut seen = self.make_later_steps(calm);
        self.note_home(&mut seen, back);
        seen
    }

    /// The steps behind the first one, in their order.
    fn make_later_steps(&mut self, calm: bool) -> Seen
        requires consistent { IsConsistent self.old }
        requires calm { IsCalm calm (node_state self.old) }
        ensures { FollowsHome L.traffic L.end G.holds G.lets result self.old self.new }
    {
        let mut seen = Seen::nothing();
        seen.note(self.release_held(calm));
        seen.note(self.send_replies(calm));
        self.take_replies(&mut seen);
        self.serve(&mut seen);
        seen.note(self.go_on());
        seen.note(self.say_byes());
        seen
    }

    /// Notes whether more blocks came home than had as the turn began.
    fn note_home(&self, seen: &mut Seen, back: u64)
        ensures { NotesHome L.traffic L.end G.holds G.lets back seen.old seen.new self.now }
    {
        seen.note(self.store.back() != back);
    }

    /// Looks what waits now, where something moved. Where nothing did, nothing waits that did not before.
    fn note_waiting(&self, moved: bool, calm: &mut bool)
        requires { moved ≡ false → IsCalm calm.old (node_state self.now) }
        ensures { IsCalm calm.new (node_state self.now) }
    {
        if moved {
            *calm = none_waits(self.peers.as_slice());
        }
    }
}
