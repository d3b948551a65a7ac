//! The way of a key down the tree, and the number of a key.
ghost use Rattle.std.specs.Prelude.{◌≡◌, ◌↔◌, ◌<◌, ℕ, List, length, IfSome, IsSome, IsTrue, None, Some};
ghost use Rattle.regions.specs.Contents.{live_at};
ghost use Rattle.regions.specs.declared.place.Place.{Place};
ghost use Rattle.tree_nodes.specs.Nodes.{child_at, entry_at};
ghost use Rattle.tree_nodes.specs.Order.{AreRising, count_below};
ghost use Rattle.index_tree.specs.Indexes as indexes;
ghost use Rattle.index_tree.specs.Store.{HoldsNode, nodes_of};
ghost use Rattle.index_tree.specs.Trees.{IsSubtree, entries_of, held_below, leaves_below};
ghost use Rattle.index_tree.specs.Ways.{IsOnWay, LeadsTo};

use crate::fields::{child_of, count_at};
use regions::{Place, Region, place_of};

/// How many keys of the node at a place are below a key: the first eight bytes of each are read, and at most five keys whole.
pub(crate) fn below_at(region: &Region, at: Place, key: &[u8]) -> u16
    requires node { HoldsNode (live_at region.now) at }
    requires rising { IfSome (nodes_of (live_at region.now) at) (λ node. AreRising node.entries) }
    ensures { IfSome (nodes_of (live_at region.now) at) (λ node. result ≡ count_below node.entries key.now) }
{
    tree_nodes::find(region.bytes(at), key)
}

/// The key of an entry of the node at a place.
pub(crate) fn key_at(region: &Region, at: Place, i: u16) -> &[u8]
    requires node { HoldsNode (live_at region.now) at }
    requires i { IfSome (nodes_of (live_at region.now) at) (λ node. i < length node.entries) }
    ensures { IfSome (nodes_of (live_at region.now) at) (λ node. result.now ≡ (entry_at node i).key) }
{
    tree_nodes::key(region.bytes(at), i)
}

/// The number of an entry of the node at a place.
pub(crate) fn number_at(region: &Region, at: Place, i: u16) -> u32
    requires node { HoldsNode (live_at region.now) at }
    requires i { IfSome (nodes_of (live_at region.now) at) (λ node. i < length node.entries) }
    ensures { IfSome (nodes_of (live_at region.now) at) (λ node. result ≡ (entry_at node i).number) }
{
    tree_nodes::number(region.bytes(at), i)
}

/// Whether an entry of the node at a place is there and has a key.
pub(crate) fn has_at(region: &Region, at: Place, i: u16, key: &[u8]) -> bool
    requires { HoldsNode (live_at region.now) at }
    ensures { IfSome (nodes_of (live_at region.now) at)
        (λ node. IsTrue result ↔ ((i < length node.entries) × ((entry_at node i).key ≡ key.now))) }
{
    i < count_at(region, at) && key_at(region, at, i) == key
}

/// Which child of the inner node at a place a key leads to: at most six of its keys are read whole.
pub(crate) fn way_at(region: &Region, at: Place, key: &[u8]) -> u16
    requires node { HoldsNode (live_at region.now) at }
    requires rising { IfSome (nodes_of (live_at region.now) at) (λ node. AreRising node.entries) }
    ensures { IfSome (nodes_of (live_at region.now) at) (λ node. LeadsTo node key.now result) }
{
    let below = below_at(region, at, key);
    if has_at(region, at, below, key) {
        below + 1
    } else {
        below
    }
}

/// The number that the leaf at a place has for a key. None where it has not the key.
fn number_in(region: &Region, leaf: Place, key: &[u8]) -> Option<u32>
    requires node { HoldsNode (live_at region.now) leaf }
    requires rising { IfSome (nodes_of (live_at region.now) leaf) (λ node. AreRising node.entries) }
    ensures { result ≡ indexes.number_of key.now (entries_of (nodes_of (live_at region.now) leaf)) }
{
    let i = below_at(region, leaf, key);
    if has_at(region, leaf, i, key) {
        Some(number_at(region, leaf, i))
    } else {
        None
    }
}

/// The leaf of a key, in a tree of a level.
pub(crate) fn leaf_of(region: &Region, root: Place, level: u16, key: &[u8]) -> Place
    requires tree { IsSubtree (nodes_of (live_at region.now)) level None None None root }
    requires nodes { (p : Place) → IsSome (live_at region.now p) → HoldsNode (live_at region.now) p }
    ensures { IsOnWay (nodes_of (live_at region.now)) (leaves_below (nodes_of (live_at region.now)) level (Some root)) key.now 0 result }
{
    let mut at = root;
    let mut left = level;
    while left > 0 {
        let child = place_of(child_of(region, at, way_at(region, at, key)));
        at = child;
        left -= 1;
    }
    at
}

/// The number of a key in a tree of a level. None where it is not there.
pub(crate) fn get(region: &Region, root: Option<Place>, level: u16, key: &[u8]) -> Option<u32>
    requires tree { (p : Place) → root ≡ Some p → IsSubtree (nodes_of (live_at region.now)) level None None None p }
    requires nodes { (p : Place) → IsSome (live_at region.now p) → HoldsNode (live_at region.now) p }
    ensures { result ≡ indexes.number_of key.now (held_below (nodes_of (live_at region.now)) level root) }
{
    let leaf = leaf_of(region, root?, level, key);
    number_in(region, leaf, key)
}
