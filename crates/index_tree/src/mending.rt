//! What is mended in the nodes when one of them is moved: each place where it was named.
ghost use Rattle.std.specs.Prelude.{◌≡◌, ◌<◌, Some, IsSome, IfSome};
ghost use Rattle.regions.specs.Contents.{live_at};
ghost use Rattle.regions.specs.declared.place.Place.{Place};
ghost use Rattle.tree_nodes.specs.Nodes.{children_count};
ghost use Rattle.regions.specs.Places as place_links;
ghost use Rattle.index_tree.specs.Links as links;
ghost use Rattle.index_tree.specs.Store.{ChangesNode, HoldsNode, nodes_of};
ghost use Rattle.index_tree.specs.inside.Climbs.{HoldNodes};
ghost use Rattle.index_tree.specs.inside.Mends.{AreItsChildren, ChangesIf, IsItsFront, IsItsParent, Mends, mended_children, mended_next, mended_parent};

use crate::climbing::child_index;
use crate::fields::{child_of, count_at, set_child_of, set_next_at, set_parent_at};
use regions::{Place, Region, led_to, link_to};

/// The children of the node have another place as their parent.
pub(crate) fn mend_children(region: &mut Region, from: Place, to: Place)
    requires nodes { HoldNodes (live_at region.old) }
    requires here { IsSome (live_at region.old from) }
    requires children { AreItsChildren (nodes_of (live_at region.old)) from }
    ensures { Mends (mended_parent from to) region.old region.new }
{
    for i in 0..count_at(region, from) + 1 {
        let child = led_to(child_of(region, from, i));
        lead_up(region, child, to);
    }
}

// The node at a place, if there is one, has another parent.
fn lead_up(region: &mut Region, at: Option<Place>, to: Place)
    requires { IfSome at (λ p. HoldsNode (live_at region.old) p) }
    ensures { ChangesIf at (links.with_parent (place_links.link_to (Some to))) region.old region.new }
{
    if let Some(place) = at {
        set_parent_at(region, place, link_to(Some(to)));
    }
}

// The node at a place, if there is one, has another next leaf.
fn lead_on(region: &mut Region, at: Option<Place>, to: Place)
    requires { IfSome at (λ p. HoldsNode (live_at region.old) p) }
    ensures { ChangesIf at (links.with_next (place_links.link_to (Some to))) region.old region.new }
{
    if let Some(place) = at {
        set_next_at(region, place, link_to(Some(to)));
    }
}

/// The leaf in front, if there is one, has another place as its next leaf.
pub(crate) fn mend_front(region: &mut Region, front: Option<Place>, from: Place, to: Place)
    requires nodes { HoldNodes (live_at region.old) }
    requires front { IsItsFront (nodes_of (live_at region.old)) from front }
    ensures { Mends (mended_next from to) region.old region.new }
{
    lead_on(region, front, to);
}

/// The parent, if there is one, has another place among its children.
pub(crate) fn mend_parent(region: &mut Region, parent: Option<Place>, from: Place, to: Place)
    requires nodes { HoldNodes (live_at region.old) }
    requires parent { IsItsParent (nodes_of (live_at region.old)) from parent }
    ensures { Mends (mended_children from to) region.old region.new }
{
    if let Some(parent) = parent {
        let i = child_index(region, parent, link_to(Some(from)));
        lead_down(region, parent, i, to);
    }
}

// The node at a place has another node as one of its children.
fn lead_down(region: &mut Region, at: Place, i: u16, to: Place)
    requires node { HoldsNode (live_at region.old) at }
    requires i { i < children_count }
    ensures { ChangesNode at (links.with_child i (place_links.link_to (Some to))) region.old region.new }
{
    set_child_of(region, at, i, link_to(Some(to)));
}
