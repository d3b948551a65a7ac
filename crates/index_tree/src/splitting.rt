//! The split of a full node.
ghost use Rattle.std.specs.Prelude.{◌≡◌, ◌≢◌, ℕ, ◌≤◌, ◌<◌, All, IfSome, Some, length, take, [], ◌∷◌};
ghost use Rattle.layout.specs.Sizes.{greatest_key};
ghost use Rattle.regions.specs.Contents.{live_at};
ghost use Rattle.tree_nodes.specs.Nodes.{entry_at, most_entries};
ghost use Rattle.index_tree.specs.Store.{HoldsNode, nodes_of};
ghost use Rattle.index_tree.specs.Inserts.{Touched, times};
ghost use Rattle.index_tree.specs.Splits.{AddsToHalf, AdoptsBeside, CutsInner, CutsLeaf, Halves};
ghost use Rattle.index_tree.specs.Splits.{back_of, branch_of, front_of, upper_places, widened};
ghost use Rattle.index_tree.specs.Writes.{WritesNode};
ghost use Rattle.regions.specs.Places as place_links;

use crate::adopting::adopt;
use crate::carrying::filled;
use crate::fields::{set_child_of, set_next_at};
use crate::split::Split;
use crate::writing::{add_at, add_child_at, copy_node, cut_children_at, cut_run_at};
use regions::{Place, Region, link_to};
use tree_nodes::{HALF, MOST_ENTRIES};

/// The last entry of the lower half of a full node.
const LAST_LOWER: u16 = HALF - 1;

/// The second entry of the upper half.
const SECOND_UPPER: u16 = HALF + 1;

/// How many children a half has.
const HALF_CHILDREN: u16 = HALF + 1;

/// The key of an entry of the node at a place, as that which separates a new node.
pub(crate) fn split_before(region: &Region, at: Place, i: u16, place: Place) -> Split
    requires node { HoldsNode (live_at region.now) at }
    requires i { IfSome (nodes_of (live_at region.now) at) (λ node. i < length node.entries) }
    ensures place { result.place ≡ place }
    ensures key { IfSome (nodes_of (live_at region.now) at) (λ node. take result.len result.key ≡ (entry_at node i).key) }
{
    let key = tree_nodes::key(region.bytes(at), i);
    Split {
        place,
        len: key.len() as u16,
        key: filled(key),
    }
}

/// Cuts a full leaf in two, with an entry more. The upper part goes to the new node, which stands behind.
pub(crate) fn split_leaf(
    region: &mut Region,
    at: Place,
    new: Place,
    i: u16,
    key: &[u8],
    number: u32,
) -> Split
    requires node { HoldsNode (live_at region.old) at }
    requires new { HoldsNode (live_at region.old) new }
    requires apart { at ≢ new }
    requires full { IfSome (nodes_of (live_at region.old) at) (λ node. length node.entries ≡ most_entries) }
    requires i { i ≤ most_entries }
    requires some_key { 1 ≤ length key.now }
    requires short_key { length key.now ≤ greatest_key }
    ensures cut { IfSome (nodes_of (live_at region.old) at)
        (λ node. CutsLeaf i (record { key = key.now; number = number }) at new node result (nodes_of (live_at region.new))) }
    ensures touched { Touched (at ∷ new ∷ []) region.old region.new }
{
    copy_node(region, at, new);
    set_next_at(region, at, link_to(Some(new)));
    cut_run_at(region, new, 0, HALF);
    cut_run_at(region, at, HALF, HALF);
    add_to_half(region, at, new, i, key, number);
    split_before(region, new, 0, new)
}

// Puts an entry into one of two halves of 8 entries.
fn add_to_half(region: &mut Region, at: Place, new: Place, i: u16, key: &[u8], number: u32)
    requires node { HoldsNode (live_at region.old) at }
    requires new { HoldsNode (live_at region.old) new }
    requires apart { at ≢ new }
    requires half { IfSome (nodes_of (live_at region.old) at) (λ node. length node.entries ≡ 8) }
    requires new_half { IfSome (nodes_of (live_at region.old) new) (λ node. length node.entries ≡ 8) }
    requires i { i ≤ most_entries }
    requires some_key { 1 ≤ length key.now }
    requires short_key { length key.now ≤ greatest_key }
    ensures halves { AddsToHalf i (record { key = key.now; number = number }) at new (nodes_of (live_at region.old))
        (nodes_of (live_at region.new)) }
    ensures touched { Touched (at ∷ new ∷ []) region.old region.new }
{
    if i <= HALF {
        add_at(region, at, i, key, number);
    } else {
        add_at(region, new, i - HALF, key, number);
    }
}

/// Adds the key of a split, and its node behind the child, to the node at a place.
pub(crate) fn widen(region: &mut Region, at: Place, i: u16, split: &Split)
    requires node { HoldsNode (live_at region.old) at }
    requires room { IfSome (nodes_of (live_at region.old) at) (λ node. length node.entries < most_entries) }
    requires i { IfSome (nodes_of (live_at region.old) at) (λ node. i ≤ length node.entries) }
    ensures { WritesNode at (widened i (branch_of split.now)) region.old region.new }
{
    add_at(region, at, i, &split.key[..split.len as usize], 0);
    add_child_at(region, at, i + 1, link_to(Some(split.place)));
}

/// Cuts a full inner node in two, with a branch more. The upper 8 entries go to the new node, and the one in front of them
/// separates both.
pub(crate) fn cut_inner(region: &mut Region, at: Place, new: Place, i: u16, split: &Split) -> Split
    requires node { HoldsNode (live_at region.old) at }
    requires new { HoldsNode (live_at region.old) new }
    requires apart { at ≢ new }
    requires full { IfSome (nodes_of (live_at region.old) at) (λ node. length node.entries ≡ most_entries) }
    requires i { i ≤ most_entries }
    ensures cut { IfSome (nodes_of (live_at region.old) at)
        (λ node. CutsInner i (branch_of split.now) at new node result (nodes_of (live_at region.new))) }
    ensures touched { Touched (at ∷ new ∷ []) region.old region.new }
{
    if i < HALF {
        return cut_low(region, at, new, i, split);
    }
    if i > HALF {
        return cut_high(region, at, new, i, split);
    }
    cut_between(region, at, new, split)
}

/// The same, and the children that go with the upper entries get the new node as their parent.
pub(crate) fn split_inner(
    region: &mut Region,
    at: Place,
    new: Place,
    i: u16,
    split: &Split,
) -> Split
    requires node { HoldsNode (live_at region.old) at }
    requires new { HoldsNode (live_at region.old) new }
    requires apart { at ≢ new }
    requires full { IfSome (nodes_of (live_at region.old) at) (λ node. length node.entries ≡ most_entries) }
    requires i { i ≤ most_entries }
    requires held { IfSome (nodes_of (live_at region.old) at)
        (λ node. All (HoldsNode (live_at region.old)) (upper_places i (branch_of split.now) node)) }
    requires not_at { IfSome (nodes_of (live_at region.old) at) (λ node. times at (upper_places i (branch_of split.now) node) ≡ 0) }
    requires not_new { IfSome (nodes_of (live_at region.old) at) (λ node. times new (upper_places i (branch_of split.now) node) ≡ 0) }
    ensures cut { IfSome (nodes_of (live_at region.old) at)
        (λ node. CutsInner i (branch_of split.now) at new node result (nodes_of (live_at region.new))) }
    ensures adopts { IfSome (nodes_of (live_at region.old) at)
        (λ node. AdoptsBeside (upper_places i (branch_of split.now) node) at new (place_links.link_to (Some new)) region.old region.new) }
{
    let middle = cut_inner(region, at, new, i, split);
    adopt(region, new, HALF_CHILDREN);
    middle
}

// The branch goes into the lower half.
fn cut_low(region: &mut Region, at: Place, new: Place, i: u16, split: &Split) -> Split
    requires node { HoldsNode (live_at region.old) at }
    requires new { HoldsNode (live_at region.old) new }
    requires apart { at ≢ new }
    requires full { IfSome (nodes_of (live_at region.old) at) (λ node. length node.entries ≡ most_entries) }
    requires i { i < 8 }
    ensures cut { IfSome (nodes_of (live_at region.old) at)
        (λ node. CutsInner i (branch_of split.now) at new node result (nodes_of (live_at region.new))) }
    ensures touched { Touched (at ∷ new ∷ []) region.old region.new }
{
    let middle = split_before(region, at, LAST_LOWER, new);
    halve(region, at, new, HALF, LAST_LOWER);
    widen(region, at, i, split);
    middle
}

// It goes into the upper half.
fn cut_high(region: &mut Region, at: Place, new: Place, i: u16, split: &Split) -> Split
    requires node { HoldsNode (live_at region.old) at }
    requires new { HoldsNode (live_at region.old) new }
    requires apart { at ≢ new }
    requires full { IfSome (nodes_of (live_at region.old) at) (λ node. length node.entries ≡ most_entries) }
    requires i { (8 < i) × (i ≤ most_entries) }
    ensures cut { IfSome (nodes_of (live_at region.old) at)
        (λ node. CutsInner i (branch_of split.now) at new node result (nodes_of (live_at region.new))) }
    ensures touched { Touched (at ∷ new ∷ []) region.old region.new }
{
    let middle = split_before(region, at, HALF, new);
    halve(region, at, new, SECOND_UPPER, HALF);
    widen(region, new, i - SECOND_UPPER, split);
    middle
}

// Its key separates both halves, and its node is the first child of the upper one.
fn cut_between(region: &mut Region, at: Place, new: Place, split: &Split) -> Split
    requires node { HoldsNode (live_at region.old) at }
    requires new { HoldsNode (live_at region.old) new }
    requires apart { at ≢ new }
    requires full { IfSome (nodes_of (live_at region.old) at) (λ node. length node.entries ≡ most_entries) }
    ensures cut { IfSome (nodes_of (live_at region.old) at)
        (λ node. CutsInner 8 (branch_of split.now) at new node result (nodes_of (live_at region.new))) }
    ensures touched { Touched (at ∷ new ∷ []) region.old region.new }
{
    halve(region, at, new, HALF, HALF);
    set_child_of(region, new, 0, link_to(Some(split.place)));
    moved_up(split, new)
}

// The same key, in front of another node.
fn moved_up(split: &Split, place: Place) -> Split
    ensures place { result.place ≡ place }
    ensures key { take result.len result.key ≡ take split.now.len split.now.key }
{
    Split {
        place,
        len: split.len,
        key: split.key,
    }
}

// Leaves the first n of 16 entries in a node, and gives those behind m to another one.
fn halve(region: &mut Region, at: Place, new: Place, m: u16, n: u16)
    requires node { HoldsNode (live_at region.old) at }
    requires new { HoldsNode (live_at region.old) new }
    requires apart { at ≢ new }
    requires full { IfSome (nodes_of (live_at region.old) at) (λ node. length node.entries ≡ most_entries) }
    requires m { m ≤ most_entries }
    requires n { n ≤ most_entries }
    ensures halves { IfSome (nodes_of (live_at region.old) at) (λ node. Halves m n at new node (nodes_of (live_at region.new))) }
    ensures touched { Touched (at ∷ new ∷ []) region.old region.new }
{
    copy_node(region, at, new);
    keep_back(region, new, m);
    keep_front(region, at, n);
}

// The first n of 16 entries of the node at a place, and the children beside them.
fn keep_front(region: &mut Region, at: Place, n: u16)
    requires node { HoldsNode (live_at region.old) at }
    requires full { IfSome (nodes_of (live_at region.old) at) (λ node. length node.entries ≡ most_entries) }
    requires n { n ≤ most_entries }
    ensures { WritesNode at (front_of n) region.old region.new }
{
    cut_run_at(region, at, n, MOST_ENTRIES - n);
    cut_children_at(region, at, n + 1, MOST_ENTRIES - n);
}

// The entries behind n, and the children from n on.
fn keep_back(region: &mut Region, at: Place, n: u16)
    requires node { HoldsNode (live_at region.old) at }
    requires full { IfSome (nodes_of (live_at region.old) at) (λ node. length node.entries ≡ most_entries) }
    requires n { n ≤ most_entries }
    ensures { WritesNode at (back_of n) region.old region.new }
{
    cut_run_at(region, at, 0, n);
    cut_children_at(region, at, 0, n);
}
