//! A new node, and the places of a node's parent and of its next leaf.
ghost use Rattle.std.specs.Prelude.{◌≡◌, ℕ, length};
ghost use Rattle.tree_nodes.specs.Nodes.{IsNode, node_in, node_size, started};

use crate::bytes::{fill_with, write_place, write_short};
use crate::reading::{CHILDREN, HEADER};

/// The place of no node.
pub const NO_PLACE: u64 = 18_446_744_073_709_551_615;

/// Makes a node of a level, with no key and no place.
pub fn start(node: &mut [u8], level: u16)
    requires { length node.old ≡ node_size }
    ensures node { node_in node.new ≡ started level }
    ensures holds { IsNode node.new }
{
    let (front, children) = node.split_at_mut(CHILDREN);
    let (header, entries) = front.split_at_mut(HEADER);
    fill_with(header, 0);
    write_place(header, 0, NO_PLACE);
    write_short(header, 8, level);
    write_place(header, 16, NO_PLACE);
    fill_with(entries, 0);
    fill_with(children, 255);
}

/// Writes the place of the parent.
pub fn set_parent(node: &mut [u8], place: u64)
    requires { IsNode node.old }
    ensures node { node_in node.new ≡ record (node_in node.old) { parent = place } }
    ensures holds { IsNode node.new }
{
    write_place(node, 0, place);
}

/// Writes the place of the next leaf.
pub fn set_next_leaf(node: &mut [u8], place: u64)
    requires { IsNode node.old }
    ensures node { node_in node.new ≡ record (node_in node.old) { next_leaf = place } }
    ensures holds { IsNode node.new }
{
    write_place(node, 16, place);
}
