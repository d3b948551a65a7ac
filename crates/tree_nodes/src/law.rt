//! That a node is read as it is written.
ghost use Rattle.std.specs.Prelude.{◌≡◌, ℕ, List, length};
ghost use Rattle.tree_nodes.specs.Nodes.{TreeNode, CanStand, IsNode, node_bytes, node_in, node_size};

/// The bytes of a node are read as this node, and they are a content's.
pub fn a_node_is_read_as_it_is_written()
    ensures node { (node : TreeNode) → CanStand node → node_in (node_bytes node) ≡ node }
    ensures holds { (node : TreeNode) → CanStand node → IsNode (node_bytes node) }
    ensures size { (content : List ℕ) → IsNode content → length content ≡ node_size }
{}
