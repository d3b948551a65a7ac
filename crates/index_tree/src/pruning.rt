//! The removal of a key from a whole tree.
ghost use Rattle.std.specs.Prelude.{◌≡◌, ℕ, ◌+◌, ◌<◌, ◌≤◌, IfSome, IsNone, List, None, Some, length, option_map};
ghost use Rattle.regions.specs.Contents.{live_at};
ghost use Rattle.regions.specs.Stores.{SameBut};
ghost use Rattle.regions.specs.declared.place.Place.{Place};
ghost use Rattle.index_tree.specs.Indexes.{number_of};
ghost use Rattle.index_tree.specs.Inserts.{times};
ghost use Rattle.index_tree.specs.Limits.{most_levels};
ghost use Rattle.index_tree.specs.Links.{Nodes};
ghost use Rattle.index_tree.specs.Prunes.{Prunes};
ghost use Rattle.index_tree.specs.Removes.{CanLose, Loses};
ghost use Rattle.index_tree.specs.Store.{nodes_of};
ghost use Rattle.index_tree.specs.Trees.{IsSubtree, held_below, nodes_below};
ghost use Rattle.index_tree.specs.Writes.{blank};
ghost use Rattle.index_tree.specs.inside.Climbs.{HoldNodes};

use crate::fields::{child_of, count_at, set_parent_at};
use crate::removing::remove_below;
use crate::spares::Spares;
use crate::writing::start_at;
use regions::{Place, Region, link_to, place_of};

/// What a removal left: the root with its level, if there is one, and the nodes that are free.
#[derive(Drop)]
pub(crate) struct Pruned {
    pub(crate) root: Option<Place>,
    pub(crate) level: u16,
    pub(crate) freed: Spares,
}

/// Takes a key away from the tree below a root, and gives its number with what is left. None where the key is not there: nothing
/// changed.
pub(crate) fn remove_at_root(
    region: &mut Region,
    root: Place,
    level: u16,
    key: &[u8],
) -> Option<(u32, Pruned)>
    requires below { CanLose (nodes_of (live_at region.old)) level root key.now }
    requires whole { IsSubtree (nodes_of (live_at region.old)) level None None None root }
    requires low { level < most_levels }
    requires nodes { HoldNodes (live_at region.old) }
    ensures number { option_map (λ left. left.0) result
        ≡ number_of key.now (held_below (nodes_of (live_at region.old)) level (Some root)) }
    ensures unchanged { IsNone result → region.new ≡ region.old }
    ensures pruned { IfSome result (λ left. Prunes (nodes_of (live_at region.old)) (nodes_of (live_at region.new)) level root
        left.1.level left.1.root key.now left.1.freed) }
    ensures few { IfSome result (λ left. length left.1.freed ≤ level + 1) }
    ensures nodes { HoldNodes (live_at region.new) }
    ensures same { SameBut blank region.old region.new }
{
    let mut freed = Spares::new();
    let number = remove_below(region, root, level, key, &mut freed)?;
    Some((number, settle_root(region, root, level, freed)))
}

/// A key was taken away below the root. A root without an entry goes: its only child, if it has one, is the root then.
pub(crate) fn settle_root(region: &mut Region, root: Place, level: u16, freed: Spares) -> Pruned
    requires lost { (nodes : Nodes) × (key : List ℕ) × Loses nodes (nodes_of (live_at region.old)) level None None None root key freed }
    requires nodes { HoldNodes (live_at region.old) }
    requires room { length freed < 16 }
    ensures pruned { (nodes : Nodes) (key : List ℕ) → Loses nodes (nodes_of (live_at region.old)) level None None None root key freed
        → ((r : Place) → times r (nodes_below nodes level (Some root)) ≤ 1)
        → Prunes nodes (nodes_of (live_at region.new)) level root result.level result.root key result.freed }
    ensures few { length result.freed ≤ length freed + 1 }
    ensures nodes { HoldNodes (live_at region.new) }
    ensures same { SameBut blank region.old region.new }
{
    if count_at(region, root) > 0 {
        return Pruned {
            root: Some(root),
            level,
            freed,
        };
    }
    let mut freed = freed;
    if level == 0 {
        start_at(region, root, 0);
        freed.push(root);
        return Pruned {
            root: None,
            level: 0,
            freed,
        };
    }
    let child = place_of(child_of(region, root, 0));
    set_parent_at(region, child, link_to(None));
    start_at(region, root, 0);
    freed.push(root);
    Pruned {
        root: Some(child),
        level: level - 1,
        freed,
    }
}
