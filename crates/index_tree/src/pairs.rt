//! Two inner nodes side by side, of which one has an entry too few: mended where they stand, with their parent.
ghost use Rattle.std.specs.Prelude.{◌≡◌, ◌≢◌, ◌≤◌, IfSome, false, length, true};
ghost use Rattle.regions.specs.Contents.{live_at};
ghost use Rattle.index_tree.specs.Mended.{AreUneven, IsMendedAt, OnlyThree};
ghost use Rattle.index_tree.specs.Store.{HoldsNode, nodes_of};

use crate::carrying::{content_at, moved_from};
use crate::fields::{child_of, count_at};
use crate::writing::{
    cut_branch_at, put_first_at, put_last_at, separate_at, start_at, take_inner_at,
};
use regions::{Place, Region};
use tree_nodes::HALF;

// The last child of the left inner node, which has `end` entries, becomes the first of the right one. The keys beside it turn.
fn give_right_above(region: &mut Region, at: Place, j: u16, left: Place, right: Place, end: u16)
    requires at { HoldsNode (live_at region.old) at }
    requires left { HoldsNode (live_at region.old) left }
    requires right { HoldsNode (live_at region.old) right }
    requires far_left { left ≢ at }
    requires far_right { right ≢ at }
    requires apart { right ≢ left }
    requires uneven { AreUneven (nodes_of (live_at region.old)) j at left right }
    requires more { 9 ≤ end }
    requires end { IfSome (nodes_of (live_at region.old) left) (λ node. end ≡ length node.entries) }
    ensures mended { IsMendedAt true false j at left right (nodes_of (live_at region.old)) (nodes_of (live_at region.new)) }
    ensures three { OnlyThree at left right region.old region.new }
{
    let last = moved_from(region, left, end - 1);
    let between = moved_from(region, at, j);
    let link = child_of(region, left, end);
    separate_at(region, at, j, last.key());
    cut_branch_at(region, left, end - 1, end);
    put_first_at(region, right, between.key(), link);
}

// The first child of the right inner node, which has `count` entries, becomes the last of the left one. The keys beside it turn.
fn give_left_above(region: &mut Region, at: Place, j: u16, left: Place, right: Place, count: u16)
    requires at { HoldsNode (live_at region.old) at }
    requires left { HoldsNode (live_at region.old) left }
    requires right { HoldsNode (live_at region.old) right }
    requires far_left { left ≢ at }
    requires far_right { right ≢ at }
    requires apart { right ≢ left }
    requires uneven { AreUneven (nodes_of (live_at region.old)) j at left right }
    requires more { 9 ≤ count }
    requires count { IfSome (nodes_of (live_at region.old) right) (λ node. count ≡ length node.entries) }
    ensures mended { IsMendedAt true false j at left right (nodes_of (live_at region.old)) (nodes_of (live_at region.new)) }
    ensures three { OnlyThree at left right region.old region.new }
{
    let first = moved_from(region, right, 0);
    let between = moved_from(region, at, j);
    let link = child_of(region, right, 0);
    separate_at(region, at, j, first.key());
    put_last_at(region, left, between.key(), link);
    cut_branch_at(region, right, 0, 0);
}

// The key between two inner nodes and all that the right one has come behind what the left one has, which takes its place.
fn join_above(region: &mut Region, at: Place, j: u16, left: Place, right: Place)
    requires at { HoldsNode (live_at region.old) at }
    requires left { HoldsNode (live_at region.old) left }
    requires right { HoldsNode (live_at region.old) right }
    requires far_left { left ≢ at }
    requires far_right { right ≢ at }
    requires apart { right ≢ left }
    requires uneven { AreUneven (nodes_of (live_at region.old)) j at left right }
    requires few_left { IfSome (nodes_of (live_at region.old) left) (λ node. length node.entries ≤ 8) }
    requires few_right { IfSome (nodes_of (live_at region.old) right) (λ node. length node.entries ≤ 8) }
    ensures mended { IsMendedAt true true j at left right (nodes_of (live_at region.old)) (nodes_of (live_at region.new)) }
    ensures three { OnlyThree at left right region.old region.new }
{
    let between = moved_from(region, at, j);
    let content = content_at(region, right);
    cut_branch_at(region, at, j, j + 1);
    take_inner_at(region, left, between.key(), &content);
    start_at(region, right, 0);
}

/// Mends two inner nodes, and answers whether the right one is free now.
pub(crate) fn mend_above(region: &mut Region, at: Place, j: u16, left: Place, right: Place) -> bool
    requires at { HoldsNode (live_at region.old) at }
    requires left { HoldsNode (live_at region.old) left }
    requires right { HoldsNode (live_at region.old) right }
    requires far_left { left ≢ at }
    requires far_right { right ≢ at }
    requires apart { right ≢ left }
    requires uneven { AreUneven (nodes_of (live_at region.old)) j at left right }
    ensures mended { IsMendedAt true result j at left right (nodes_of (live_at region.old)) (nodes_of (live_at region.new)) }
    ensures three { OnlyThree at left right region.old region.new }
{
    let end = count_at(region, left);
    if end > HALF {
        give_right_above(region, at, j, left, right, end);
        return false;
    }
    let count = count_at(region, right);
    if count > HALF {
        give_left_above(region, at, j, left, right, count);
        return false;
    }
    join_above(region, at, j, left, right);
    true
}
