//! The insertion of a key into a whole tree.
ghost use Rattle.std.specs.Prelude.{◌≡◌, ◌≢◌, ℕ, ◌+◌, ◌<◌, ◌≤◌, ◌++◌, ◌∷◌, [], All, IfSome, None, Option, Some, drop, length, take};
ghost use Rattle.layout.specs.Sizes.{greatest_key};
ghost use Rattle.regions.specs.Contents.{live_at};
ghost use Rattle.index_tree.specs.Inserts.{IsRoom, Plants, Touched, times};
ghost use Rattle.regions.specs.Places as place_links;
ghost use Rattle.index_tree.specs.Splits.{AdoptsBeside, branch_of, top_node};
ghost use Rattle.index_tree.specs.Store.{HoldsNode, nodes_of};
ghost use Rattle.index_tree.specs.Trees.{IsSubtree, nodes_below};

use crate::adopting::adopt;
use crate::fields::set_child_of;
use crate::inserting::insert_below;
use crate::split::{Planted, Split};
use crate::writing::{add_at, start_at};
use regions::{Place, Region, link_to};

/// Makes a node the root above one that was split and the new node behind it.
pub(crate) fn raise(region: &mut Region, top: Place, root: Place, level: u16, split: &Split)
    requires node { HoldsNode (live_at region.old) top }
    requires root { HoldsNode (live_at region.old) root }
    requires behind { HoldsNode (live_at region.old) split.now.place }
    requires not_root { top ≢ root }
    requires not_behind { top ≢ split.now.place }
    requires root_room { place_links.HasRoom root }
    requires behind_room { place_links.HasRoom split.now.place }
    ensures top { nodes_of (live_at region.new) top ≡ Some (top_node level root (branch_of split.now)) }
    ensures adopts { AdoptsBeside (root ∷ split.now.place ∷ []) top top (place_links.link_to (Some top)) region.old region.new }
{
    start_top(region, top, root, level, split);
    adopt(region, top, 2);
}

// The new root, whose children name another parent yet.
fn start_top(region: &mut Region, top: Place, root: Place, level: u16, split: &Split)
    requires { HoldsNode (live_at region.old) top }
    ensures top { nodes_of (live_at region.new) top ≡ Some (top_node level root (branch_of split.now)) }
    ensures touched { Touched (top ∷ []) region.old region.new }
{
    start_at(region, top, level);
    add_at(region, top, 0, &split.key[..split.len as usize], 0);
    set_child_of(region, top, 0, link_to(Some(root)));
    set_child_of(region, top, 1, link_to(Some(split.place)));
}

/// Puts a key with its number into the tree below a root, or sets the number of the key where it is there. Where the root is
/// split, a spare node becomes the root above both.
pub(crate) fn insert_at_root(
    region: &mut Region,
    spares: &[Place],
    root: Place,
    level: u16,
    key: &[u8],
    number: u32,
) -> Planted
    requires room { IsRoom (live_at region.old) level root spares.now key.now number }
    requires whole { IsSubtree (nodes_of (live_at region.old)) level None None None root }
    requires spares { level + 1 < length spares.now }
    requires level { level < 65535 }
    requires some_key { 1 ≤ length key.now }
    requires short_key { length key.now ≤ greatest_key }
    ensures planted { Plants (nodes_of (live_at region.old)) (nodes_of (live_at region.new)) level (Some root) result.level result.root
        key.now number (drop result.left spares.now) }
    ensures left { (result.left ≤ length spares.now) × (length spares.now ≤ result.left + level + 2) }
    ensures level { (level ≤ result.level) × (result.level ≤ level + 1) }
    ensures touched { Touched (nodes_below (nodes_of (live_at region.old)) level (Some root) ++ spares.now) region.old region.new }
{
    let below = insert_below(region, spares, root, level, key, number);
    let left = below.left;
    let Some(split) = below.split else {
        return Planted { left, root, level };
    };
    let top = spares[left - 1];
    raise(region, top, root, level + 1, &split);
    Planted {
        left: left - 1,
        root: top,
        level: level + 1,
    }
}

/// Puts a key with its number into a tree without a node: a spare one becomes its leaf.
pub(crate) fn plant(region: &mut Region, spares: &[Place], key: &[u8], number: u32) -> Planted
    requires spares { 1 ≤ length spares.now }
    requires held { All (HoldsNode (live_at region.old)) spares.now }
    requires rooms { All place_links.HasRoom spares.now }
    requires some_key { 1 ≤ length key.now }
    requires short_key { length key.now ≤ greatest_key }
    ensures planted { Plants (nodes_of (live_at region.old)) (nodes_of (live_at region.new)) 0 None result.level result.root
        key.now number (drop result.left spares.now) }
    ensures left { result.left + 1 ≡ length spares.now }
    ensures level { result.level ≡ 0 }
    ensures touched { Touched spares.now region.old region.new }
{
    let left = spares.len() - 1;
    let root = spares[left];
    start_at(region, root, 0);
    add_at(region, root, 0, key, number);
    Planted {
        left,
        root,
        level: 0,
    }
}
