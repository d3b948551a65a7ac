//! Two leaves side by side, of which one has an entry too few: mended where they stand, with their parent.
ghost use Rattle.std.specs.Prelude.{◌≡◌, ◌≢◌, ◌≤◌, IfSome, false, length, true};
ghost use Rattle.regions.specs.Contents.{live_at};
ghost use Rattle.index_tree.specs.Mended.{AreUneven, IsMendedAt, OnlyThree};
ghost use Rattle.index_tree.specs.Store.{HoldsNode, nodes_of};

use crate::carrying::{content_at, moved_from};
use crate::fields::count_at;
use crate::writing::{add_at, cut_at, cut_branch_at, separate_at, start_at, take_leaf_at};
use regions::{Place, Region};
use tree_nodes::HALF;

// The last entry of the left leaf, which has `end`, becomes the first of the right one.
fn give_right(region: &mut Region, at: Place, j: u16, left: Place, right: Place, end: u16)
    requires at { HoldsNode (live_at region.old) at }
    requires left { HoldsNode (live_at region.old) left }
    requires right { HoldsNode (live_at region.old) right }
    requires far_left { left ≢ at }
    requires far_right { right ≢ at }
    requires apart { right ≢ left }
    requires uneven { AreUneven (nodes_of (live_at region.old)) j at left right }
    requires more { 9 ≤ end }
    requires end { IfSome (nodes_of (live_at region.old) left) (λ node. end ≡ length node.entries) }
    ensures mended { IsMendedAt false false j at left right (nodes_of (live_at region.old)) (nodes_of (live_at region.new)) }
    ensures three { OnlyThree at left right region.old region.new }
{
    let moved = moved_from(region, left, end - 1);
    separate_at(region, at, j, moved.key());
    cut_at(region, left, end - 1);
    add_at(region, right, 0, moved.key(), moved.number);
}

// The first entry of the right leaf, which has `count`, becomes the last of the left one, which has `end`.
fn give_left(
    region: &mut Region,
    at: Place,
    j: u16,
    left: Place,
    right: Place,
    end: u16,
    count: u16,
)
    requires at { HoldsNode (live_at region.old) at }
    requires left { HoldsNode (live_at region.old) left }
    requires right { HoldsNode (live_at region.old) right }
    requires far_left { left ≢ at }
    requires far_right { right ≢ at }
    requires apart { right ≢ left }
    requires uneven { AreUneven (nodes_of (live_at region.old)) j at left right }
    requires more { 9 ≤ count }
    requires end { IfSome (nodes_of (live_at region.old) left) (λ node. end ≡ length node.entries) }
    requires count { IfSome (nodes_of (live_at region.old) right) (λ node. count ≡ length node.entries) }
    ensures mended { IsMendedAt false false j at left right (nodes_of (live_at region.old)) (nodes_of (live_at region.new)) }
    ensures three { OnlyThree at left right region.old region.new }
{
    let moved = moved_from(region, right, 0);
    let next = moved_from(region, right, 1);
    separate_at(region, at, j, next.key());
    add_at(region, left, end, moved.key(), moved.number);
    cut_at(region, right, 0);
}

// The left leaf takes all that the right one has, and its place in the parent and among the leaves.
fn join(region: &mut Region, at: Place, j: u16, left: Place, right: Place)
    requires at { HoldsNode (live_at region.old) at }
    requires left { HoldsNode (live_at region.old) left }
    requires right { HoldsNode (live_at region.old) right }
    requires far_left { left ≢ at }
    requires far_right { right ≢ at }
    requires apart { right ≢ left }
    requires uneven { AreUneven (nodes_of (live_at region.old)) j at left right }
    requires few_left { IfSome (nodes_of (live_at region.old) left) (λ node. length node.entries ≤ 8) }
    requires few_right { IfSome (nodes_of (live_at region.old) right) (λ node. length node.entries ≤ 8) }
    ensures mended { IsMendedAt false true j at left right (nodes_of (live_at region.old)) (nodes_of (live_at region.new)) }
    ensures three { OnlyThree at left right region.old region.new }
{
    let content = content_at(region, right);
    cut_branch_at(region, at, j, j + 1);
    take_leaf_at(region, left, &content);
    start_at(region, right, 0);
}

/// Mends two leaves, and answers whether the right one is free now.
pub(crate) fn mend_leaves(region: &mut Region, at: Place, j: u16, left: Place, right: Place) -> bool
    requires at { HoldsNode (live_at region.old) at }
    requires left { HoldsNode (live_at region.old) left }
    requires right { HoldsNode (live_at region.old) right }
    requires far_left { left ≢ at }
    requires far_right { right ≢ at }
    requires apart { right ≢ left }
    requires uneven { AreUneven (nodes_of (live_at region.old)) j at left right }
    ensures mended { IsMendedAt false result j at left right (nodes_of (live_at region.old)) (nodes_of (live_at region.new)) }
    ensures three { OnlyThree at left right region.old region.new }
{
    let end = count_at(region, left);
    if end > HALF {
        give_right(region, at, j, left, right, end);
        return false;
    }
    let count = count_at(region, right);
    if count > HALF {
        give_left(region, at, j, left, right, end, count);
        return false;
    }
    join(region, at, j, left, right);
    true
}
