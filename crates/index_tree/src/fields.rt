//! The fields of nodes, in the bytes of the segments. What is above sees a map from place to node.
ghost use Rattle.std.specs.Prelude.{◌≡◌, ◌<◌, IfSome, length};
ghost use Rattle.regions.specs.Contents.{live_at};
ghost use Rattle.tree_nodes.specs.Nodes.{child_at, children_count};
ghost use Rattle.regions.specs.Places as place_links;
ghost use Rattle.index_tree.specs.Links as links;
ghost use Rattle.index_tree.specs.Store.{ChangesNode, HoldsNode, nodes_of};

use regions::{Place, Region};

/// The number of the parent of the node at a place. Where a node stands, a number can lead.
pub(crate) fn parent_at(region: &Region, at: Place) -> u64
    requires { HoldsNode (live_at region.now) at }
    ensures parent { IfSome (nodes_of (live_at region.now) at) (λ node. result ≡ node.parent) }
    ensures room { place_links.HasRoom at }
{
    tree_nodes::parent(region.bytes(at))
}

/// The level of the node at a place.
pub(crate) fn level_at(region: &Region, at: Place) -> u16
    requires { HoldsNode (live_at region.now) at }
    ensures { IfSome (nodes_of (live_at region.now) at) (λ node. result ≡ node.level) }
{
    tree_nodes::level(region.bytes(at))
}

/// How many keys the node at a place has.
pub(crate) fn count_at(region: &Region, at: Place) -> u16
    requires { HoldsNode (live_at region.now) at }
    ensures { IfSome (nodes_of (live_at region.now) at) (λ node. result ≡ length node.entries) }
{
    tree_nodes::count(region.bytes(at))
}

/// The number of the next leaf of the node at a place.
pub(crate) fn next_at(region: &Region, at: Place) -> u64
    requires { HoldsNode (live_at region.now) at }
    ensures { IfSome (nodes_of (live_at region.now) at) (λ node. result ≡ node.next_leaf) }
{
    tree_nodes::next_leaf(region.bytes(at))
}

/// The number of a child of the node at a place.
pub(crate) fn child_of(region: &Region, at: Place, i: u16) -> u64
    requires node { HoldsNode (live_at region.now) at }
    requires i { i < children_count }
    ensures { IfSome (nodes_of (live_at region.now) at) (λ node. result ≡ child_at node i) }
{
    tree_nodes::child(region.bytes(at), i)
}

/// Writes the number of the parent of the node at a place.
pub(crate) fn set_parent_at(region: &mut Region, at: Place, link: u64)
    requires { HoldsNode (live_at region.old) at }
    ensures { ChangesNode at (links.with_parent link) region.old region.new }
{
    tree_nodes::a_node_is_read_as_it_is_written();
    tree_nodes::set_parent(region.bytes_mut(at), link);
}

/// Writes the number of the next leaf of the node at a place.
pub(crate) fn set_next_at(region: &mut Region, at: Place, link: u64)
    requires { HoldsNode (live_at region.old) at }
    ensures { ChangesNode at (links.with_next link) region.old region.new }
{
    tree_nodes::a_node_is_read_as_it_is_written();
    tree_nodes::set_next_leaf(region.bytes_mut(at), link);
}

/// Writes the number of a child of the node at a place.
pub(crate) fn set_child_of(region: &mut Region, at: Place, i: u16, link: u64)
    requires node { HoldsNode (live_at region.old) at }
    requires i { i < children_count }
    ensures { ChangesNode at (links.with_child i link) region.old region.new }
{
    tree_nodes::a_node_is_read_as_it_is_written();
    tree_nodes::set_child(region.bytes_mut(at), i, link);
}
