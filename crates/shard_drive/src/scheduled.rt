//! Driving by a schedule.
ghost use Rattle.std.specs.Prelude.{◌≡◌, ◌<◌, length, All};
ghost use Rattle.shard_node.specs.Standing.{InStanding};
ghost use Rattle.shard_node.specs.Turns.{IsSameNode};
ghost use Rattle.shard_drive.specs.Drives.{AtEach, Follows};

use crate::driven::{Driven, turn_of, turns_are_counts};
use shard_node::{Gate, Node};
use shard_rings::Link;

/// Makes one turn for each entry of the schedule, of the node with that number.
pub fn drive_schedule<'f, L: Link<'f> + Drop, G: Gate + Drop>(
    nodes: &mut [Node<'f, L, G>],
    schedule: &[u32],
)
    requires { All (λ k. k < length nodes.old) schedule.now }
    ensures standing { AtEach (λ _ a b. InStanding L.traffic a → InStanding L.traffic b) nodes.old nodes.new }
    ensures same { AtEach (λ _. IsSameNode L.end) nodes.old nodes.new }
    ensures turns { Follows (λ node. node.turns) schedule.now nodes.old nodes.new }
{
    follow(nodes, schedule);
}

/// One turn for each entry, of the one with that number.
pub(crate) fn follow<N: Driven>(nodes: &mut [N], schedule: &[u32])
    requires { All (λ k. k < length nodes.old) schedule.now }
    ensures stands { AtEach (λ _ a b. N.stands a → N.stands b) nodes.old nodes.new }
    ensures lasting { AtEach (λ _ a b. N.lasting b ≡ N.lasting a) nodes.old nodes.new }
    ensures turns { Follows N.turns schedule.now nodes.old nodes.new }
{
    // So the count of one that gets no turn is what none more than it comes to.
    turns_are_counts(nodes);
    for k in schedule {
        turn_of(nodes, *k as usize);
    }
}
