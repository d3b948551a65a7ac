//! What mends a node: a branch more or less, another key between two children, and all that another node has.
ghost use Rattle.std.specs.Prelude.{◌≡◌, ℕ, ◌+◌, ◌<◌, ◌≤◌, length};
ghost use Rattle.layout.specs.Sizes.{greatest_key};
ghost use Rattle.tree_nodes.specs.Nodes as nodes;
ghost use Rattle.tree_nodes.specs.Nodes.{IsNode, entry_at, node_in};
ghost use Rattle.index_tree.specs.Links.{with_next};
ghost use Rattle.index_tree.specs.Pairs as pairs;

use tree_nodes::{
    add, add_child, child, count, cut, cut_child, key, next_leaf, number, set_child, set_next_leaf,
};

/// Adds an entry of one node to another.
fn copy_entry(from: &[u8], k: u16, to: &mut [u8], i: u16)
    requires from { IsNode from.now }
    requires k { k < length (node_in from.now).entries }
    requires to { IsNode to.old }
    requires room { length (node_in to.old).entries < nodes.most_entries }
    requires i { i ≤ length (node_in to.old).entries }
    ensures node { node_in to.new ≡ pairs.gains i (entry_at (node_in from.now) k) (node_in to.old) }
    ensures holds { IsNode to.new }
{
    add(to, i, key(from, k), number(from, k));
}

/// Makes a key that between two children of a node.
pub(crate) fn separate(node: &mut [u8], j: u16, key: &[u8])
    requires node { IsNode node.old }
    requires j { j < length (node_in node.old).entries }
    requires some_key { 1 ≤ length key.now }
    requires short_key { length key.now ≤ greatest_key }
    ensures node { node_in node.new ≡ pairs.separated j key.now (node_in node.old) }
    ensures holds { IsNode node.new }
{
    cut(node, j);
    add(node, j, key, 0);
}

/// Makes a place the first child of a node, with a key behind it.
pub(crate) fn put_first(node: &mut [u8], key: &[u8], place: u64)
    requires node { IsNode node.old }
    requires room { length (node_in node.old).entries < nodes.most_entries }
    requires some_key { 1 ≤ length key.now }
    requires short_key { length key.now ≤ greatest_key }
    ensures node { node_in node.new ≡ pairs.gains_child 0 place (pairs.gains 0 (pairs.separator key.now) (node_in node.old)) }
    ensures holds { IsNode node.new }
{
    add(node, 0, key, 0);
    add_child(node, 0, place);
}

/// Makes a place the last child of a node, with a key in front of it.
pub(crate) fn put_last(node: &mut [u8], key: &[u8], place: u64)
    requires node { IsNode node.old }
    requires room { length (node_in node.old).entries < nodes.most_entries }
    requires some_key { 1 ≤ length key.now }
    requires short_key { length key.now ≤ greatest_key }
    ensures node { node_in node.new ≡ pairs.with_child_at (length (node_in node.old).entries + 1) place
        (pairs.gains (length (node_in node.old).entries) (pairs.separator key.now) (node_in node.old)) }
    ensures holds { IsNode node.new }
{
    let end = count(node);
    add(node, end, key, 0);
    set_child(node, end + 1, place);
}

/// Adds all entries of one node behind those of another.
fn copy_entries(from: &[u8], to: &mut [u8])
    requires from { IsNode from.now }
    requires to { IsNode to.old }
    requires room { length (node_in to.old).entries + length (node_in from.now).entries ≤ nodes.most_entries }
    ensures node { node_in to.new ≡ pairs.takes (node_in from.now).entries (node_in to.old) }
    ensures holds { IsNode to.new }
{
    let end = count(to);
    for k in 0..count(from) {
        copy_entry(from, k, to, end + k);
    }
}

/// Writes the first `n` children of one node over those of another from one on.
fn copy_children(from: &[u8], n: u16, to: &mut [u8], at: u16)
    requires from { IsNode from.now }
    requires to { IsNode to.old }
    requires room { at + n ≤ nodes.children_count }
    ensures node { node_in to.new ≡ pairs.with_children at (node_in from.now).children n (node_in to.old) }
    ensures holds { IsNode to.new }
{
    for k in 0..n {
        set_child(to, at + k, child(from, k));
    }
}

/// Adds all that one leaf has behind what another has, which takes its place among the leaves.
pub(crate) fn take_leaf(from: &[u8], to: &mut [u8])
    requires from { IsNode from.now }
    requires to { IsNode to.old }
    requires room { length (node_in to.old).entries + length (node_in from.now).entries ≤ nodes.most_entries }
    ensures node { node_in to.new ≡ with_next (node_in from.now).next_leaf (pairs.takes (node_in from.now).entries (node_in to.old)) }
    ensures holds { IsNode to.new }
{
    copy_entries(from, to);
    set_next_leaf(to, next_leaf(from));
}

/// Adds a key and all that one inner node has behind what another has.
pub(crate) fn take_inner(from: &[u8], key: &[u8], to: &mut [u8])
    requires from { IsNode from.now }
    requires to { IsNode to.old }
    requires room { length (node_in to.old).entries + length (node_in from.now).entries < nodes.most_entries }
    requires some_key { 1 ≤ length key.now }
    requires short_key { length key.now ≤ greatest_key }
    ensures node { node_in to.new
        ≡ pairs.with_children (length (node_in to.old).entries + 1) (node_in from.now).children
        (length (node_in from.now).entries + 1)
        (pairs.takes (node_in from.now).entries
        (pairs.gains (length (node_in to.old).entries) (pairs.separator key.now) (node_in to.old))) }
    ensures holds { IsNode to.new }
{
    let end = count(to);
    add(to, end, key, 0);
    copy_entries(from, to);
    copy_children(from, count(from) + 1, to, end + 1);
}

/// Takes an entry and a child of a node away.
pub(crate) fn cut_branch(node: &mut [u8], i: u16, k: u16)
    requires node { IsNode node.old }
    requires i { i < length (node_in node.old).entries }
    requires k { k < nodes.children_count }
    ensures node { node_in node.new ≡ pairs.gives_child k (pairs.gives i (node_in node.old)) }
    ensures holds { IsNode node.new }
{
    cut(node, i);
    cut_child(node, k);
}
