//! How a node comes into the segments.
ghost use Rattle.std.specs.Prelude.{◌≡◌, ◌≢◌, ◌+◌, ◌≤◌, ◌<◌, ◌^◌, None};
ghost use Rattle.regions.specs.Shapes.{shape, group_count};
ghost use Rattle.regions.specs.Counts.{left, live_total};
ghost use Rattle.regions.specs.Contents.{live_at};
ghost use Rattle.regions.specs.declared.place.Place.{Place};
ghost use Rattle.regions.specs.Places as place_links;
ghost use Rattle.index_tree.specs.Sizes.{most, node_object};
ghost use Rattle.index_tree.specs.Store.{HoldsNode};
ghost use Rattle.index_tree.specs.inside.Rosters.{IsPlaced};

use layout::ObjectKind;
use regions::{Place, Region};
use segmented_store::room;

// The group of all nodes, and the bytes of an object that holds one.
pub(crate) const GROUP: u32 = 0;

pub(crate) const NODE_OBJECT: u32 = 4392;

/// Places a node with no key and no place, in the active segment.
pub(crate) fn place_node(region: &mut Region) -> Place
    requires one { group_count region.old ≡ 1 }
    requires room { node_object ≤ left region.old 0 }

    // The node, where nothing lived, and that it is the only change.
    ensures absent { live_at region.old result ≡ None }
    ensures added { IsPlaced (live_at region.new result) }
    ensures others { (p : Place) → p ≢ result → live_at region.new p ≡ live_at region.old p }
    ensures room { place_links.HasRoom result }

    // Counted: its bytes are live. The segments are as they were.
    ensures live_total { live_total region.new ≡ live_total region.old + node_object }
    ensures shape { shape region.new ≡ shape region.old }
{
    let Ok(place) = region.place(GROUP, ObjectKind::Node as u8, NODE_OBJECT) else {
        unreachable!()
    };
    segment_fits(place);
    tree_nodes::start(region.bytes_mut(place), 0);
    place
}

/// The node at a place is dead from now on.
pub(crate) fn kill_node(region: &mut Region, place: Place)
    requires { HoldsNode (live_at region.old) place }
    ensures gone { live_at region.new place ≡ None }
    ensures others { (p : Place) → p ≢ place → live_at region.new p ≡ live_at region.old p }
    ensures live_total { live_total region.new + node_object ≡ live_total region.old }
    ensures shape { shape region.new ≡ shape region.old }
{
    tree_nodes::a_node_is_read_as_it_is_written();
    region.kill(place);
}

/// The most keys of an index of so many segments.
pub(crate) fn most_keys(segments: u32) -> u64
    ensures { result ≡ most segments }
{
    (room(segments) / u64::from(NODE_OBJECT)).saturating_sub(9) * 7
}

// The number of a place's segment has 32 bits.
fn segment_fits(place: Place)
    ensures { place.segment < 2 ^ 32 }
{}
