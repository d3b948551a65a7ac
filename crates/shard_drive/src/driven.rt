//! What can be driven.
ghost use Rattle.std.specs.Prelude.{◌≡◌, ◌↔◌, ℕ, ◌<◌, ◌≤◌, length, slice_set, All, IsTrue};
ghost use Rattle.std.specs.List.{slice_index_or};
ghost use Rattle.layout.specs.Counts.{counted, greatest_count};
ghost use Rattle.shard_node.specs.Standing.{InStanding};
ghost use Rattle.shard_node.specs.Turns.{IsDone};
ghost use Rattle.shard_drive.specs.Lasting.{Lasting, lasting_of};

use shard_node::{Gate, Node, Turn};
use shard_rings::Link;

/// What makes turns until it is done. It names no lifetime, so that a thread can drive it.
pub(crate) trait Driven {
    // In standing.
    ghost stands: { Self → Type 0 };

    ghost is_done: { Self → Type 0 };

    // What no turn changes.
    ghost lasting: { Self → Lasting };

    // How many turns it made.
    ghost turns: { Self → ℕ };

    /// One turn.
    fn step(&mut self) -> Turn
        ensures stands { stands self.old → stands self.new }
        ensures done { stands self.old → result ≡ Turn.Done → is_done self.new }
        ensures lasting { lasting self.new ≡ lasting self.old }
        ensures turns { turns self.new ≡ counted (turns self.old) };

    /// Whether it is done.
    fn has_finished(&self) -> bool
        ensures { stands self.now → (IsTrue result ↔ is_done self.now) };

    /// How many turns it made.
    fn turns_made(&self) -> u64
        ensures { result ≡ turns self.now };
}

impl<'f, L: Link<'f> + Drop, G: Gate + Drop> Driven for Node<'f, L, G> {
    ghost stands = { λ node. InStanding L.traffic node };

    ghost is_done = { λ node. IsDone L.traffic G.holds node };

    ghost lasting = { λ node. lasting_of L.end node };

    ghost turns = { λ node. node.turns };

    fn step(&mut self) -> Turn {
        self.turn()
    }

    fn has_finished(&self) -> bool {
        self.is_done()
    }

    fn turns_made(&self) -> u64 {
        self.turns()
    }
}

/// One turn of the one at place k.
#[tactic(auto, using(std::proofs::lemmas::List::get_or_default))]
pub(crate) fn turn_of<N: Driven>(nodes: &mut [N], k: usize)
    requires { k < length nodes.old }
    ensures others { (d : N) → nodes.new ≡ slice_set nodes.old k (slice_index_or nodes.new k d) }
    ensures stands { (d : N) → N.stands (slice_index_or nodes.old k d) → N.stands (slice_index_or nodes.new k d) }
    ensures lasting { (d : N) → N.lasting (slice_index_or nodes.new k d) ≡ N.lasting (slice_index_or nodes.old k d) }
    ensures turns { (d : N) → N.turns (slice_index_or nodes.new k d) ≡ counted (N.turns (slice_index_or nodes.old k d)) }
{
    nodes[k].step();
}

/// Whether all are done.
pub(crate) fn have_finished<N: Driven>(nodes: &[N]) -> bool
    requires { All N.stands nodes.now }
    ensures { IsTrue result ↔ All N.is_done nodes.now }
{
    for node in nodes {
        if !node.has_finished() {
            return false;
        }
    }
    true
}

/// Changes nothing. No count of turns is above the greatest.
pub(crate) fn turns_are_counts<N: Driven>(nodes: &[N])
    ensures { All (λ node. N.turns node ≤ greatest_count) nodes.now }
{
    for node in nodes {
        // The count is a u64.
        node.turns_made();
    }
}
