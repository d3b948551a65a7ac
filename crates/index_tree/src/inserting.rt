//! The insertion of a key below a node.
ghost use Rattle.std.specs.Prelude.{◌+◌, ◌≤◌, ◌++◌, Some, drop, length};
ghost use Rattle.layout.specs.Sizes.{greatest_key};
ghost use Rattle.regions.specs.Contents.{live_at};
ghost use Rattle.index_tree.specs.Store.{nodes_of};
ghost use Rattle.index_tree.specs.Trees.{nodes_below};
ghost use Rattle.index_tree.specs.Inserts.{InsertsBelow, IsRoom, Touched};
ghost use Rattle.index_tree.specs.Splits.{branches_of};

use crate::fields::{child_of, count_at};
use crate::search::{below_at, has_at, way_at};
use crate::split::Inserted;
use crate::splitting::{split_inner, split_leaf, widen};
use crate::writing::{add_at, set_number_at};
use regions::{Place, Region, place_of};
use tree_nodes::MOST_ENTRIES;

/// Puts a key with its number into a leaf, or sets the number of the key where it is there.
pub(crate) fn insert_into_leaf(
    region: &mut Region,
    spares: &[Place],
    at: Place,
    key: &[u8],
    number: u32,
) -> Inserted
    requires room { IsRoom (live_at region.old) 0 at spares.now key.now number }
    requires some_key { 1 ≤ length key.now }
    requires short_key { length key.now ≤ greatest_key }
    ensures grows { InsertsBelow (nodes_of (live_at region.old)) (nodes_of (live_at region.new)) 0 at (branches_of result.split) key.now
        number (drop result.left spares.now) }
    ensures left { (result.left ≤ length spares.now) × (length spares.now ≤ result.left + 1) }
    ensures touched { Touched (nodes_below (nodes_of (live_at region.old)) 0 (Some at) ++ spares.now) region.old region.new }
{
    let i = below_at(region, at, key);
    if has_at(region, at, i, key) {
        set_number_at(region, at, i, number);
        return Inserted {
            left: spares.len(),
            split: None,
        };
    }
    if count_at(region, at) < MOST_ENTRIES {
        add_at(region, at, i, key, number);
        return Inserted {
            left: spares.len(),
            split: None,
        };
    }
    let left = spares.len() - 1;
    let split = split_leaf(region, at, spares[left], i, key, number);
    Inserted {
        left,
        split: Some(split),
    }
}

/// Puts a key with its number in below a node of a level, or sets the number of the key where it is there. Where the node is
/// split, the new one is a spare one, and so is each one below it: they are taken from the last one on.
pub(crate) fn insert_below(
    region: &mut Region,
    spares: &[Place],
    at: Place,
    level: u16,
    key: &[u8],
    number: u32,
) -> Inserted
    requires room { IsRoom (live_at region.old) level at spares.now key.now number }
    requires some_key { 1 ≤ length key.now }
    requires short_key { length key.now ≤ greatest_key }
    ensures grows { InsertsBelow (nodes_of (live_at region.old)) (nodes_of (live_at region.new)) level at (branches_of result.split) key.now
        number (drop result.left spares.now) }
    ensures left { (result.left ≤ length spares.now) × (length spares.now ≤ result.left + level + 1) }
    ensures touched { Touched (nodes_below (nodes_of (live_at region.old)) level (Some at) ++ spares.now) region.old region.new }
{
    if level == 0 {
        return insert_into_leaf(region, spares, at, key, number);
    }
    let i = way_at(region, at, key);
    let child = place_of(child_of(region, at, i));
    let below = insert_below(region, spares, child, level - 1, key, number);
    let left = below.left;
    let Some(split) = below.split else {
        return Inserted { left, split: None };
    };
    if count_at(region, at) < MOST_ENTRIES {
        widen(region, at, i, &split);
        return Inserted { left, split: None };
    }
    let middle = split_inner(region, at, spares[left - 1], i, &split);
    Inserted {
        left: left - 1,
        split: Some(middle),
    }
}
