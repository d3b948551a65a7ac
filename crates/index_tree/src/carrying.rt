//! What goes from one node to another: an entry, or all that a node has.
ghost use Rattle.std.specs.Prelude.{◌≡◌, ◌<◌, ◌≤◌, IfSome, Some, length, take};
ghost use Rattle.layout.specs.Sizes.{greatest_key};
ghost use Rattle.regions.specs.Contents.{live_at};
ghost use Rattle.tree_nodes.specs.Nodes.{IsNode, entry_at, node_in};
ghost use Rattle.index_tree.specs.Pairs.{entry_moved};
ghost use Rattle.index_tree.specs.Store.{HoldsNode, nodes_of};

use crate::moved_entry::MovedEntry;
use regions::{Place, Region};

/// The bytes of a node's content.
const NODE: usize = 4384;

impl MovedEntry {
    /// The bytes of its key.
    pub(crate) fn key(&self) -> &[u8]
        ensures is { result.now ≡ (entry_moved self.now).key }
        ensures some { 1 ≤ length result.now }
        ensures short { length result.now ≤ greatest_key }
    {
        &self.key[..self.len as usize]
    }
}

/// An entry of the node at a place.
pub(crate) fn moved_from(region: &Region, at: Place, i: u16) -> MovedEntry
    requires node { HoldsNode (live_at region.now) at }
    requires i { IfSome (nodes_of (live_at region.now) at) (λ node. i < length node.entries) }
    ensures { IfSome (nodes_of (live_at region.now) at) (λ node. entry_moved result ≡ entry_at node i) }
{
    let node = region.bytes(at);
    let key = tree_nodes::key(node, i);
    MovedEntry {
        number: tree_nodes::number(node, i),
        len: key.len() as u16,
        key: filled(key),
    }
}

/// A key, and zero bytes behind it.
pub(crate) fn filled(key: &[u8]) -> [u8; 256]
    requires { length key.now ≤ greatest_key }
    ensures { take (length key.now) result ≡ key.now }
{
    let mut all = [0u8; 256];
    all[..key.len()].copy_from_slice(key);
    all
}

/// The content of the node at a place, copied.
pub(crate) fn content_at(region: &Region, at: Place) -> [u8; NODE]
    requires { HoldsNode (live_at region.now) at }
    ensures holds { IsNode result }
    ensures node { nodes_of (live_at region.now) at ≡ Some (node_in result) }
{
    copied(region.bytes(at))
}

fn copied(content: &[u8]) -> [u8; NODE]
    requires { IsNode content.now }
    ensures { result ≡ content.now }
{
    tree_nodes::a_node_is_read_as_it_is_written();
    let Ok(copy) = <[u8; NODE]>::try_from(content) else {
        unreachable!()
    };
    copy
}
