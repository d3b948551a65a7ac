//! A node read from the content of its object.
ghost use Rattle.std.specs.Prelude.{◌≡◌, ℕ, ◌+◌, ◌*◌, ◌<◌, ◌≤◌, length};
ghost use Rattle.tree_nodes.specs.Nodes.{IsNode, node_in, entry_at, child_at, children_count, header, entry_size, children_at, node_size};

use crate::bytes::{count_at, number_at, place_at};

/// The most entries of a node.
pub const MOST_ENTRIES: u16 = 16;

/// Half as many: what each part of a node has that is cut in two.
pub const HALF: u16 = 8;

/// The bytes of the header.
pub(crate) const HEADER: usize = 24;

/// The bytes of an entry.
pub(crate) const ENTRY: usize = 264;

/// The bytes of an entry in front of its key.
pub(crate) const ENTRY_HEADER: usize = 8;

/// Where the children stand.
pub(crate) const CHILDREN: usize = 4248;

/// The bytes of a child's place.
pub(crate) const CHILD: usize = 8;

/// Where the entry with a number stands.
pub(crate) fn entry_start(i: u16) -> usize
    ensures { result ≡ header + entry_size * i }
{
    HEADER + ENTRY * i as usize
}

/// Where the child with a number stands.
pub(crate) fn child_start(i: u16) -> usize
    ensures { result ≡ children_at + 8 * i }
{
    CHILDREN + CHILD * i as usize
}

/// The place of the parent.
pub fn parent(node: &[u8]) -> u64
    requires { IsNode node.now }
    ensures { result ≡ (node_in node.now).parent }
{
    place_at(node, 0)
}

/// The level, 0 for a leaf.
pub fn level(node: &[u8]) -> u16
    requires { IsNode node.now }
    ensures { result ≡ (node_in node.now).level }
{
    count_at(node, 8)
}

/// How many keys the node has.
pub fn count(node: &[u8]) -> u16
    requires { IsNode node.now }
    ensures { result ≡ length (node_in node.now).entries }
{
    count_at(node, 10)
}

/// The place of the next leaf.
pub fn next_leaf(node: &[u8]) -> u64
    requires { IsNode node.now }
    ensures { result ≡ (node_in node.now).next_leaf }
{
    place_at(node, 16)
}

/// The key of an entry.
pub fn key(node: &[u8], i: u16) -> &[u8]
    requires node { IsNode node.now }
    requires i { i < length (node_in node.now).entries }
    ensures { result.now ≡ (entry_at (node_in node.now) i).key }
{
    let at = entry_start(i);
    let len = count_at(node, at) as usize;
    &node[at + ENTRY_HEADER..at + ENTRY_HEADER + len]
}

/// The number of an entry.
pub fn number(node: &[u8], i: u16) -> u32
    requires node { IsNode node.now }
    requires i { i < length (node_in node.now).entries }
    ensures { result ≡ (entry_at (node_in node.now) i).number }
{
    number_at(node, entry_start(i) + 4)
}

/// The place of a child.
pub fn child(node: &[u8], i: u16) -> u64
    requires node { IsNode node.now }
    requires i { i < children_count }
    ensures { result ≡ child_at (node_in node.now) i }
{
    place_at(node, child_start(i))
}
