//! The end of the nodes of all shards.
ghost use Rattle.std.specs.Prelude.{◌+◌, ◌<◌, length};
ghost use Rattle.shard_rings.specs.Links.{traffic_of};
ghost use Rattle.shard_node.specs.Turns.{IsDone};
ghost use Rattle.run_log.specs.Runs.{IsOfRun};
ghost use Rattle.shard_run.specs.Remaining.{AllCanFinish, AllHaveFacts, AreLeftBy, HasFacts, IsRoomFor};
ghost use Rattle.shard_run.specs.inside.Finishing.{HasFinished, Leaves};

use crate::remains::Remains;
use shard_node::{Finished, Gate, Node};
use shard_rings::RingLink;

/// Finishes the nodes of all shards, which are done, and answers what they left, in their order. There is room for it.
pub fn finish_nodes<'f, G: Gate + Drop>(
    nodes: Vec<Node<'f, RingLink<'f>, G>>,
    mut into: Remains<'f>,
) -> Remains<'f>
    requires nodes { AllCanFinish G.holds into.ran.trace into.ran.pages nodes.items }
    requires room { IsRoomFor into.ran.trace (length nodes.items) into.ran.pages into }
    ensures run { IsOfRun into.entry.ran.trace (length nodes.entry.items) into.entry.ran.pages result.ran }
    ensures left { AreLeftBy nodes.entry.items result }
    ensures facts { AllHaveFacts nodes.entry.items }
{
    for node in nodes {
        finish_one(node, &mut into);
    }
    into
}

/// Finishes the next node.
fn finish_one<'f, G: Gate + Drop>(node: Node<'f, RingLink<'f>, G>, into: &mut Remains<'f>)
    requires done { IsDone traffic_of G.holds node }
    requires within { node.shard < node.shards }
    requires so_far { HasFinished node.trace node.shards node.pages node.shard into.old }
    ensures facts { HasFacts node.entry }
    ensures leaves { Leaves node.entry into.old into.new }
    ensures room { HasFinished node.entry.trace node.entry.shards node.entry.pages (node.entry.shard + 1) into.new }
{
    let Finished { store, links } = node.finish(&mut into.ran);
    into.links.push_reserved(links);
    into.seats.push_reserved(store.finish());
}
