//! The children of a node get it as their parent.
ghost use Rattle.std.specs.Prelude.{◌≡◌, ◌≤◌, All, IfSome, Some};
ghost use Rattle.regions.specs.Contents.{live_at};
ghost use Rattle.tree_nodes.specs.Nodes.{children_count};
ghost use Rattle.index_tree.specs.Inserts.{times};
ghost use Rattle.index_tree.specs.Mended.{AdoptsAll, HasKids};
ghost use Rattle.index_tree.specs.Splits.{Adopts, child_places};
ghost use Rattle.index_tree.specs.Store.{HoldsNode, nodes_of};
ghost use Rattle.regions.specs.Places as place_links;

use crate::fields::{child_of, count_at, set_parent_at};
use regions::{Place, Region, link_to, place_of};

/// Makes the node at a place the parent of its first n children.
pub(crate) fn adopt(region: &mut Region, at: Place, n: u16)
    requires node { HoldsNode (live_at region.old) at }
    requires n { n ≤ children_count }
    requires children { All (HoldsNode (live_at region.old)) (child_places n (nodes_of (live_at region.old) at)) }
    requires apart { times at (child_places n (nodes_of (live_at region.old) at)) ≡ 0 }
    ensures { Adopts (child_places n (nodes_of (live_at region.old) at)) (child_places n (nodes_of (live_at region.old) at))
        (place_links.link_to (Some at)) region.old region.new }
{
    let link = link_to(Some(at));
    for j in 0..n {
        let child = place_of(child_of(region, at, j));
        set_parent_at(region, child, link);
    }
}

/// Makes the node at a place the parent of each of its children.
pub(crate) fn adopt_all(region: &mut Region, at: Place)
    requires node { HoldsNode (live_at region.old) at }
    requires kids { IfSome (nodes_of (live_at region.old) at) (λ node. HasKids (live_at region.old) at node) }
    ensures { IfSome (nodes_of (live_at region.old) at) (λ node. AdoptsAll at node region.old region.new) }
{
    let n = count_at(region, at) + 1;
    adopt(region, at, n);
}
