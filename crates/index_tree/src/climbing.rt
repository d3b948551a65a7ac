//! The way from a node to the nodes beside it.
ghost use Rattle.std.specs.Prelude.{◌≡◌, ◌≤◌, ℕ, Option, IfSome, length};
ghost use Rattle.regions.specs.Contents.{live_at};
ghost use Rattle.regions.specs.declared.place.Place.{Place};
ghost use Rattle.tree_nodes.specs.Nodes.{child_at};
ghost use Rattle.index_tree.specs.Store.{HoldsNode, nodes_of};
ghost use Rattle.index_tree.specs.inside.Climbs.{HasSubtree, HoldNodes, IsLast};

use crate::fields::{child_of, count_at};
use regions::{Place, Region, led_to};

/// Which child of the node at a place has this number.
pub(crate) fn child_index(region: &Region, at: Place, link: u64) -> u16
    requires node { HoldsNode (live_at region.now) at }
    requires there { IfSome (nodes_of (live_at region.now) at)
        (λ node. (i : ℕ) × (i ≤ length node.entries) × (child_at node i ≡ link)) }
    ensures within { IfSome (nodes_of (live_at region.now) at) (λ node. result ≤ length node.entries) }
    ensures child { IfSome (nodes_of (live_at region.now) at) (λ node. child_at node result ≡ link) }
{
    let count = count_at(region, at);
    for i in 0..count {
        if child_of(region, at, i) == link {
            return i;
        }
    }
    count
}

/// The last leaf below a node of a level.
pub(crate) fn last_leaf(region: &Region, at: Place, level: u16) -> Place
    requires nodes { HoldNodes (live_at region.now) }
    requires below { (parent : Option Place) × HasSubtree (nodes_of (live_at region.now)) level parent at }
    ensures { IsLast (nodes_of (live_at region.now)) level at result }
{
    if level == 0 {
        return at;
    }
    let Some(child) = led_to(child_of(region, at, count_at(region, at))) else {
        return at;
    };
    last_leaf(region, child, level - 1)
}
