//! A key taken away below a place, and nodes mended that have an entry too few then.
ghost use Rattle.std.specs.Prelude.{◌≡◌, ◌≢◌, ◌+◌, ℕ, suc, ◌<◌, ◌≤◌, List, [], ◌∷◌, ◌++◌, length};
ghost use Rattle.std.specs.Prelude.{Option, IfSome, IsNone, IsSome, Some, cond};
ghost use Rattle.std.specs.Option.{option_to_list};
ghost use Rattle.regions.specs.Contents.{live_at};
ghost use Rattle.regions.specs.Stores.{SameBut};
ghost use Rattle.regions.specs.declared.place.Place.{Place};
ghost use Rattle.tree_nodes.specs.Order.{AreRising, count_below};
ghost use Rattle.index_tree.specs.Indexes.{number_of};
ghost use Rattle.index_tree.specs.Links.{Nodes};
ghost use Rattle.index_tree.specs.Removes.{CanLose, IsShort, Loses};
ghost use Rattle.index_tree.specs.Trees.{IsFrom, IsSubtree, IsUpTo, entries_of, held_below};
ghost use Rattle.index_tree.specs.Store.{HoldsNode, nodes_of};
ghost use Rattle.index_tree.specs.Mended.{AreUneven, IsMendedAt, OnlyThree};
ghost use Rattle.index_tree.specs.Writes.{WritesNode, blank, without_entries};

use crate::adopting::adopt_all;
use crate::fields::{child_of, count_at};
use crate::leaves::mend_leaves;
use crate::pairs::mend_above;
use crate::search::{below_at, has_at, number_at, way_at};
use crate::spares::Spares;
use crate::writing::cut_run_at;
use regions::{Place, Region, place_of};
use tree_nodes::HALF;

// Mends two nodes side by side of which one has an entry too few, and answers whether the right one is free now. The children that
// they got have the old parent still.
fn mend_pair(region: &mut Region, above: bool, at: Place, j: u16, left: Place, right: Place) -> bool
    requires at { HoldsNode (live_at region.old) at }
    requires left { HoldsNode (live_at region.old) left }
    requires right { HoldsNode (live_at region.old) right }
    requires far_left { left ≢ at }
    requires far_right { right ≢ at }
    requires apart { right ≢ left }
    requires uneven { AreUneven (nodes_of (live_at region.old)) j at left right }
    ensures mended { IsMendedAt above result j at left right (nodes_of (live_at region.old)) (nodes_of (live_at region.new)) }
    ensures three { OnlyThree at left right region.old region.new }
{
    if above {
        return mend_above(region, at, j, left, right);
    }
    mend_leaves(region, at, j, left, right)
}

// Mends a child of the inner node at a place that has an entry too few, with the one beside it. Gives the place of a node that is
// free then.
fn mend_child(region: &mut Region, at: Place, level: u16, i: u16) -> Option<Place>
    requires short { (nodes : Nodes) × ((parent : Option Place) × ((low : Option (List ℕ)) × ((high : Option (List ℕ))
        × ((key : List ℕ) × ((freed : List Place)
        × IsShort nodes (nodes_of (live_at region.old)) level parent low high at i key freed))))) }
    requires nodes { (p : Place) → IsSome (live_at region.old p) → HoldsNode (live_at region.old) p }
    ensures mended { (nodes : Nodes) (parent : Option Place) (low high : Option (List ℕ)) (key : List ℕ) (freed : List Place)
        → IsShort nodes (nodes_of (live_at region.old)) level parent low high at i key freed
        → Loses nodes (nodes_of (live_at region.new)) (suc level) parent low high at key (option_to_list result ++ freed) }
    ensures nodes { (p : Place) → IsSome (live_at region.new p) → HoldsNode (live_at region.new) p }
    ensures same { SameBut blank region.old region.new }
{
    let j = i.saturating_sub(1);
    let left = place_of(child_of(region, at, j));
    let right = place_of(child_of(region, at, j + 1));
    let joined = mend_pair(region, level > 0, at, j, left, right);
    if level == 0 {
        return freed_if(joined, right);
    }
    adopt_all(region, left);
    if joined {
        return Some(right);
    }
    adopt_all(region, right);
    None
}

// The place, if it is free.
fn freed_if(free: bool, place: Place) -> Option<Place>
    ensures { option_to_list result ≡ cond free (place ∷ []) [] }
{
    if free { Some(place) } else { None }
}

// Takes a key away from the leaf at a place, and gives its number. None where the leaf has not the key.
fn remove_in(region: &mut Region, leaf: Place, key: &[u8]) -> Option<u32>
    requires node { HoldsNode (live_at region.old) leaf }
    requires rising { IfSome (nodes_of (live_at region.old) leaf) (λ node. AreRising node.entries) }
    ensures number { result ≡ number_of key.now (entries_of (nodes_of (live_at region.old) leaf)) }
    ensures unchanged { IsNone result → region.new ≡ region.old }
    ensures taken { IsSome result → (i : ℕ)
        × IfSome (nodes_of (live_at region.old) leaf) (λ node. i ≡ count_below node.entries key.now)
        × WritesNode leaf (without_entries i 1) region.old region.new }
{
    let i = below_at(region, leaf, key);
    if !has_at(region, leaf, i, key) {
        return None;
    }
    let number = number_at(region, leaf, i);
    cut_run_at(region, leaf, i, 1);
    Some(number)
}

/// Takes a key away below a place, and gives its number. Nodes that are free then come behind the others. None where the key is not
/// there: nothing changed.
pub(crate) fn remove_below(
    region: &mut Region,
    at: Place,
    level: u16,
    key: &[u8],
    freed: &mut Spares,
) -> Option<u32>
    requires below { CanLose (nodes_of (live_at region.old)) level at key.now }
    requires nodes { (p : Place) → IsSome (live_at region.old p) → HoldsNode (live_at region.old) p }
    requires room { length freed.old + level ≤ 8 }
    ensures number { result ≡ number_of key.now (held_below (nodes_of (live_at region.old)) level (Some at)) }
    ensures unchanged { IsNone result → (region.new ≡ region.old) × (freed.new ≡ freed.old) }
    ensures lost { IsSome result → (parent : Option Place) (low high : Option (List ℕ))
        → IsSubtree (nodes_of (live_at region.old)) level parent low high at
        → IsFrom low (record { key = key.now; number = 0 }) → IsUpTo high (record { key = key.now; number = 0 })
        → ((more : List Place) × ((freed.new ≡ freed.old ++ more)
        × Loses (nodes_of (live_at region.old)) (nodes_of (live_at region.new)) level parent low high at key.now more)) }
    ensures room { length freed.new ≤ length freed.old + level }
    ensures nodes { (p : Place) → IsSome (live_at region.new p) → HoldsNode (live_at region.new) p }
    ensures same { SameBut blank region.old region.new }
{
    if level == 0 {
        return remove_in(region, at, key);
    }
    let i = way_at(region, at, key);
    let child = place_of(child_of(region, at, i));
    let number = remove_below(region, child, level - 1, key, freed)?;
    if count_at(region, child) >= HALF {
        return Some(number);
    }
    if let Some(free) = mend_child(region, at, level - 1, i) {
        freed.push(free);
    }
    Some(number)
}
