//! The keys of a tree from one on, along its leaves.
ghost use Rattle.std.specs.Prelude.{◌≡◌, ◌*◌, ◌<◌, ◌≤◌, ℕ, length, take, drop, IfSome, IsSome, None, Some};
ghost use Rattle.layout.specs.Sizes as sizes;
ghost use Rattle.regions.specs.Contents.{live_at};
ghost use Rattle.regions.specs.declared.place.Place.{Place};
ghost use Rattle.index_tree.specs.Indexes as indexes;
ghost use Rattle.index_tree.specs.Scans as scans;
ghost use Rattle.index_tree.specs.Scans.{IsWritten};
ghost use Rattle.index_tree.specs.Store.{HoldsNode, nodes_of};
ghost use Rattle.index_tree.specs.Trees.{AreLinked, IsSubtree, held_below, leaves_below};

use crate::fields::{count_at, next_at};
use crate::search::{below_at, key_at, leaf_of};
use regions::{Place, Region, led_to};
use row_bytes::{Scanned, write_key};

/// Writes the first `count` keys at or above `lo` of a tree of a level, each behind its length in two bytes.
pub(crate) fn range(
    region: &Region,
    root: Option<Place>,
    level: u16,
    lo: &[u8],
    count: u32,
    into: &mut [u8],
) -> Scanned
    requires tree { (p : Place) → root ≡ Some p → IsSubtree (nodes_of (live_at region.now)) level None None None p }
    requires linked { AreLinked (nodes_of (live_at region.now)) (leaves_below (nodes_of (live_at region.now)) level root) }
    requires nodes { (p : Place) → IsSome (live_at region.now p) → HoldsNode (live_at region.now) p }
    requires most { count ≤ sizes.most_keys }
    requires room { sizes.key_room * count ≤ length into.old }
    ensures keys { result.keys ≡ length (take count (indexes.from lo.now (held_below (nodes_of (live_at region.now)) level root))) }
    ensures bytes { take result.bytes into.new ≡ scans.scanned lo.now count (held_below (nodes_of (live_at region.now)) level root) }
    ensures within { result.bytes ≤ length into.old }
    ensures behind { drop result.bytes into.new ≡ drop result.bytes into.old }
{
    let Some(root) = root else {
        return Scanned { keys: 0, bytes: 0 };
    };
    range_in(region, root, level, lo, count, into)
}

/// The same below a root.
fn range_in(
    region: &Region,
    root: Place,
    level: u16,
    lo: &[u8],
    count: u32,
    into: &mut [u8],
) -> Scanned
    requires tree { IsSubtree (nodes_of (live_at region.now)) level None None None root }
    requires linked { AreLinked (nodes_of (live_at region.now)) (leaves_below (nodes_of (live_at region.now)) level (Some root)) }
    requires nodes { (p : Place) → IsSome (live_at region.now p) → HoldsNode (live_at region.now) p }
    requires most { count ≤ sizes.most_keys }
    requires room { sizes.key_room * count ≤ length into.old }
    ensures { IsWritten (take count (indexes.from lo.now (held_below (nodes_of (live_at region.now)) level (Some root))))
        result.keys result.bytes into.old into.new }
{
    let mut at = leaf_of(region, root, level, lo);
    let first = below_at(region, at, lo);
    let mut scanned = write_entries(region, at, first, count, into);
    while scanned.keys < count {
        let Some(next) = led_to(next_at(region, at)) else {
            return scanned;
        };
        let left = count - scanned.keys;
        let more = write_entries(region, next, 0, left, &mut into[scanned.bytes as usize..]);
        scanned.keys += more.keys;
        scanned.bytes += more.bytes;
        at = next;
    }
    scanned
}

/// Writes the keys of the entries of a leaf from one on, at most `most`, to the front of `into`.
fn write_entries(region: &Region, leaf: Place, from: u16, most: u32, into: &mut [u8]) -> Scanned
    requires node { HoldsNode (live_at region.now) leaf }
    requires from { IfSome (nodes_of (live_at region.now) leaf) (λ node. from ≤ length node.entries) }
    requires most { most ≤ sizes.most_keys }
    requires room { sizes.key_room * most ≤ length into.old }
    ensures { IfSome (nodes_of (live_at region.now) leaf)
        (λ node. IsWritten (take most (drop from node.entries)) result.keys result.bytes into.old into.new) }
{
    let mut scanned = Scanned { keys: 0, bytes: 0 };
    for i in from..count_at(region, leaf) {
        if scanned.keys == most {
            return scanned;
        }
        scanned.bytes += write_key(&mut into[scanned.bytes as usize..], key_at(region, leaf, i));
        scanned.keys += 1;
    }
    scanned
}
