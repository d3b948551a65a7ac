//! The places of a node's children, of which there are always 17.
ghost use Rattle.std.specs.Prelude.{◌≡◌, ℕ, ◌+◌, ◌<◌, ◌≤◌, ◌++◌, ◌∷◌, [], take, drop, replicate, insert, remove, slice_set};
ghost use Rattle.tree_nodes.specs.Nodes.{IsNode, node_in, children_count, no_place};

use crate::bytes::{close_up, place_bytes, put_at, take_at, write_place};
use crate::links::NO_PLACE;
use crate::reading::{CHILD, MOST_ENTRIES, child_start};

/// The number of the last child.
const LAST: u16 = MOST_ENTRIES;

/// How many children there are.
const COUNT: u16 = MOST_ENTRIES + 1;

/// Writes the place of a child.
pub fn set_child(node: &mut [u8], i: u16, place: u64)
    requires node { IsNode node.old }
    requires i { i < children_count }
    ensures node { node_in node.new ≡ record (node_in node.old) { children = slice_set (node_in node.old).children i place } }
    ensures holds { IsNode node.new }
{
    write_place(node, child_start(i), place);
}

/// Makes a place this child. The later ones move up, and the last is dropped.
pub fn add_child(node: &mut [u8], i: u16, place: u64)
    requires node { IsNode node.old }
    requires i { i < children_count }
    ensures node { node_in node.new
        ≡ record (node_in node.old) { children = take children_count (insert (node_in node.old).children i place) } }
    ensures holds { IsNode node.new }
{
    let moved = (LAST - i) as usize * CHILD;
    put_at(node, child_start(i), moved, &place_bytes(place));
}

/// Takes a child away. The later ones move down, and the last becomes none.
pub fn cut_child(node: &mut [u8], i: u16)
    requires node { IsNode node.old }
    requires i { i < children_count }
    ensures node { node_in node.new
        ≡ record (node_in node.old) { children = remove (node_in node.old).children i ++ no_place ∷ [] } }
    ensures holds { IsNode node.new }
{
    let moved = (LAST - i) as usize * CHILD;
    take_at(node, child_start(i), moved, &place_bytes(NO_PLACE));
}

/// Takes `n` children away, from one on. The later ones move down, and as many none stand behind them.
pub fn cut_children(node: &mut [u8], i: u16, n: u16)
    requires node { IsNode node.old }
    requires run { i + n ≤ children_count }
    ensures node { node_in node.new ≡ record (node_in node.old)
        { children = take i (node_in node.old).children ++ (drop (i + n) (node_in node.old).children ++ replicate n no_place) } }
    ensures holds { IsNode node.new }
{
    let moved = (COUNT - n - i) as usize * CHILD;
    close_up(node, child_start(i), moved, n as usize * CHILD, 255);
}
