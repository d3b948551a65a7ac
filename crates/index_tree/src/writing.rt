//! Writes to the node at a place that change more than its places.
ghost use Rattle.std.specs.Prelude.{◌≡◌, ℕ, ◌+◌, ◌<◌, ◌≤◌, ◌^◌, IfSome, Some, length};
ghost use Rattle.layout.specs.Sizes.{greatest_key};
ghost use Rattle.regions.specs.Contents.{live_at};
ghost use Rattle.tree_nodes.specs.Nodes.{TreeNode, IsNode, children_count, most_entries, node_in, started};
ghost use Rattle.index_tree.specs.Links.{with_next};
ghost use Rattle.index_tree.specs.Pairs as pairs;
ghost use Rattle.index_tree.specs.Store.{HoldsNode, nodes_of};
ghost use Rattle.index_tree.specs.Writes as writes;
ghost use Rattle.index_tree.specs.Writes.{WritesNode};

use crate::copying::{cut_branch, put_first, put_last, separate, take_inner, take_leaf};
use regions::{Place, Region};

/// Makes the node at a place one of a level, with no key and no place.
pub(crate) fn start_at(region: &mut Region, at: Place, level: u16)
    requires { HoldsNode (live_at region.old) at }
    ensures { WritesNode at (λ _. started level) region.old region.new }
{
    tree_nodes::a_node_is_read_as_it_is_written();
    tree_nodes::start(region.bytes_mut(at), level);
}

/// Writes the number of an entry of the node at a place.
pub(crate) fn set_number_at(region: &mut Region, at: Place, i: u16, number: u32)
    requires node { HoldsNode (live_at region.old) at }
    requires i { IfSome (nodes_of (live_at region.old) at) (λ node. i < length node.entries) }
    ensures { WritesNode at (writes.with_number_at i number) region.old region.new }
{
    tree_nodes::a_node_is_read_as_it_is_written();
    tree_nodes::set_number(region.bytes_mut(at), i, number);
}

/// Makes a key with its number this entry of the node at a place. The later ones move up.
pub(crate) fn add_at(region: &mut Region, at: Place, i: u16, key: &[u8], number: u32)
    requires node { HoldsNode (live_at region.old) at }
    requires room { IfSome (nodes_of (live_at region.old) at) (λ node. length node.entries < most_entries) }
    requires i { IfSome (nodes_of (live_at region.old) at) (λ node. i ≤ length node.entries) }
    requires some_key { 1 ≤ length key.now }
    requires short_key { length key.now ≤ greatest_key }
    ensures { WritesNode at (writes.with_entry i (record { key = key.now; number = number })) region.old region.new }
{
    tree_nodes::a_node_is_read_as_it_is_written();
    tree_nodes::add(region.bytes_mut(at), i, key, number);
}

/// Makes a number of a place this child of the node at a place. The later ones move up, and the last is dropped.
pub(crate) fn add_child_at(region: &mut Region, at: Place, i: u16, link: u64)
    requires node { HoldsNode (live_at region.old) at }
    requires i { i < children_count }
    ensures { WritesNode at (writes.with_new_child i link) region.old region.new }
{
    tree_nodes::a_node_is_read_as_it_is_written();
    tree_nodes::add_child(region.bytes_mut(at), i, link);
}

/// Takes `n` entries of the node at a place away, from one on.
pub(crate) fn cut_run_at(region: &mut Region, at: Place, i: u16, n: u16)
    requires node { HoldsNode (live_at region.old) at }
    requires run { IfSome (nodes_of (live_at region.old) at) (λ node. i + n ≤ length node.entries) }
    ensures { WritesNode at (writes.without_entries i n) region.old region.new }
{
    tree_nodes::a_node_is_read_as_it_is_written();
    tree_nodes::cut_run(region.bytes_mut(at), i, n);
}

/// Takes `n` children of the node at a place away, from one on.
pub(crate) fn cut_children_at(region: &mut Region, at: Place, i: u16, n: u16)
    requires node { HoldsNode (live_at region.old) at }
    requires run { i + n ≤ children_count }
    ensures { WritesNode at (writes.without_children i n) region.old region.new }
{
    tree_nodes::a_node_is_read_as_it_is_written();
    tree_nodes::cut_children(region.bytes_mut(at), i, n);
}

/// Writes the node at `from` over the one at `to`.
pub(crate) fn copy_node(region: &mut Region, from: Place, to: Place)
    requires from { HoldsNode (live_at region.old) from }
    requires to { HoldsNode (live_at region.old) to }
    ensures { (node : TreeNode) → nodes_of (live_at region.old) from ≡ Some node → WritesNode to (λ _. node) region.old region.new }
{
    tree_nodes::a_node_is_read_as_it_is_written();
    region.copy(from, to);
}

/// Takes an entry of the node at a place away.
pub(crate) fn cut_at(region: &mut Region, at: Place, i: u16)
    requires node { HoldsNode (live_at region.old) at }
    requires i { IfSome (nodes_of (live_at region.old) at) (λ node. i < length node.entries) }
    ensures { WritesNode at (pairs.gives i) region.old region.new }
{
    tree_nodes::a_node_is_read_as_it_is_written();
    tree_nodes::cut(region.bytes_mut(at), i);
}

/// Takes an entry and a child of the node at a place away.
pub(crate) fn cut_branch_at(region: &mut Region, at: Place, i: u16, k: u16)
    requires node { HoldsNode (live_at region.old) at }
    requires i { IfSome (nodes_of (live_at region.old) at) (λ node. i < length node.entries) }
    requires k { k < children_count }
    ensures { WritesNode at (λ node. pairs.gives_child k (pairs.gives i node)) region.old region.new }
{
    tree_nodes::a_node_is_read_as_it_is_written();
    cut_branch(region.bytes_mut(at), i, k);
}

/// Makes a key that between two children of the node at a place.
pub(crate) fn separate_at(region: &mut Region, at: Place, j: u16, key: &[u8])
    requires node { HoldsNode (live_at region.old) at }
    requires j { IfSome (nodes_of (live_at region.old) at) (λ node. j < length node.entries) }
    requires some_key { 1 ≤ length key.now }
    requires short_key { length key.now ≤ greatest_key }
    ensures { WritesNode at (pairs.separated j key.now) region.old region.new }
{
    tree_nodes::a_node_is_read_as_it_is_written();
    separate(region.bytes_mut(at), j, key);
}

/// Makes a number of a place the first child of the node at a place, with a key behind it.
pub(crate) fn put_first_at(region: &mut Region, at: Place, key: &[u8], link: u64)
    requires node { HoldsNode (live_at region.old) at }
    requires room { IfSome (nodes_of (live_at region.old) at) (λ node. length node.entries < most_entries) }
    requires some_key { 1 ≤ length key.now }
    requires short_key { length key.now ≤ greatest_key }
    ensures { WritesNode at (λ node. pairs.gains_child 0 link (pairs.gains 0 (pairs.separator key.now) node)) region.old region.new }
{
    tree_nodes::a_node_is_read_as_it_is_written();
    put_first(region.bytes_mut(at), key, link);
}

/// Makes a number of a place the last child of the node at a place, with a key in front of it.
pub(crate) fn put_last_at(region: &mut Region, at: Place, key: &[u8], link: u64)
    requires node { HoldsNode (live_at region.old) at }
    requires room { IfSome (nodes_of (live_at region.old) at) (λ node. length node.entries < most_entries) }
    requires some_key { 1 ≤ length key.now }
    requires short_key { length key.now ≤ greatest_key }
    ensures { WritesNode at (λ node. pairs.with_child_at (length node.entries + 1) link
        (pairs.gains (length node.entries) (pairs.separator key.now) node)) region.old region.new }
{
    tree_nodes::a_node_is_read_as_it_is_written();
    put_last(region.bytes_mut(at), key, link);
}

/// Adds all that a leaf has behind what the leaf at a place has, which takes its place among the leaves.
pub(crate) fn take_leaf_at(region: &mut Region, at: Place, content: &[u8])
    requires node { HoldsNode (live_at region.old) at }
    requires content { IsNode content.now }
    requires room { IfSome (nodes_of (live_at region.old) at)
        (λ node. length node.entries + length (node_in content.now).entries ≤ most_entries) }
    ensures { WritesNode at (λ node. with_next (node_in content.now).next_leaf (pairs.takes (node_in content.now).entries node))
        region.old region.new }
{
    tree_nodes::a_node_is_read_as_it_is_written();
    take_leaf(content, region.bytes_mut(at));
}

/// Adds a key and all that an inner node has behind what the inner node at a place has.
pub(crate) fn take_inner_at(region: &mut Region, at: Place, key: &[u8], content: &[u8])
    requires node { HoldsNode (live_at region.old) at }
    requires content { IsNode content.now }
    requires room { IfSome (nodes_of (live_at region.old) at)
        (λ node. length node.entries + length (node_in content.now).entries < most_entries) }
    requires some_key { 1 ≤ length key.now }
    requires short_key { length key.now ≤ greatest_key }
    ensures { WritesNode at (λ node. pairs.with_children (length node.entries + 1) (node_in content.now).children
        (length (node_in content.now).entries + 1) (pairs.takes (node_in content.now).entries
        (pairs.gains (length node.entries) (pairs.separator key.now) node))) region.old region.new }
{
    tree_nodes::a_node_is_read_as_it_is_written();
    take_inner(content, key, region.bytes_mut(at));
}
