//! Spare nodes are placed ahead: while a key is inserted, no node moves any more.
ghost use Rattle.std.specs.Prelude.{◌≡◌, ◌+◌, ◌-◌, ◌*◌, ◌<◌, ◌≤◌, is_some, length};
ghost use Rattle.regions.specs.Shapes.{group_count, guards_of, held_count, free_count};
ghost use Rattle.regions.specs.Counts.{live_total};
ghost use Rattle.regions.specs.Contents.{live_at};
ghost use Rattle.segmented_store.specs.Room.{room};
ghost use Rattle.index_tree.specs.Sizes.{node_object};
ghost use Rattle.segmented_store.specs.Segments.{HoldsSegments};
ghost use Rattle.index_tree.specs.inside.Rosters.{IsRosterOf};

use crate::placing::NODE_OBJECT;
use crate::roots::Roots;
use crate::spares::MOST_SPARES;
use regions::Region;
use segmented_store::make_room;

// Places one spare node more. Nodes may move before.
fn add_spare(region: &mut Region, roots: &mut Roots)
    requires roster { IsRosterOf roots.old (live_at region.old) }
    requires one { group_count region.old ≡ 1 }
    requires guards { guards_of region.old 0 ≡ 0 }
    requires held { 3 ≤ held_count region.old }
    requires free { 1 ≤ free_count region.old }
    requires room { live_total region.old + node_object ≤ room (held_count region.old) }
    requires few { length roots.old.tree.spares < MOST_SPARES }

    // The same index in a tree of the same level, and a spare node more.
    ensures roster { IsRosterOf roots.new (live_at region.new) }
    ensures index { roots.new.known.index ≡ roots.old.known.index }
    ensures level { roots.new.tree.level ≡ roots.old.tree.level }
    ensures rooted { is_some roots.new.tree.root ≡ is_some roots.old.tree.root }
    ensures spares { length roots.new.tree.spares ≡ length roots.old.tree.spares + 1 }
    ensures nodes { length roots.new.known.places ≡ length roots.old.known.places + 1 }

    // Counted: its bytes are live. The segments are those that were there.
    ensures live_total { live_total region.new ≡ live_total region.old + node_object }
    ensures free { 1 ≤ free_count region.new }
    ensures segments { HoldsSegments region.old region.new }
{
    make_room(region, roots, NODE_OBJECT);
    roots.place_spare(region);
}

/// Places spare nodes until there are so many. Nodes may move meanwhile.
pub(crate) fn fill_spares(region: &mut Region, roots: &mut Roots, wanted: usize)
    requires roster { IsRosterOf roots.old (live_at region.old) }
    requires one { group_count region.old ≡ 1 }
    requires guards { guards_of region.old 0 ≡ 0 }
    requires held { 3 ≤ held_count region.old }
    requires free { 1 ≤ free_count region.old }
    requires most { wanted ≤ MOST_SPARES }
    requires spares { length roots.old.tree.spares ≤ MOST_SPARES }
    requires room { live_total region.old + node_object * (wanted - length roots.old.tree.spares) ≤ room (held_count region.old) }

    // The same index in a tree of the same level, and enough spare nodes.
    ensures roster { IsRosterOf roots.new (live_at region.new) }
    ensures index { roots.new.known.index ≡ roots.old.known.index }
    ensures level { roots.new.tree.level ≡ roots.old.tree.level }
    ensures rooted { is_some roots.new.tree.root ≡ is_some roots.old.tree.root }
    ensures enough { wanted ≤ length roots.new.tree.spares }
    ensures spares { length roots.new.tree.spares ≤ MOST_SPARES }
    ensures nodes { length roots.new.known.places + length roots.old.tree.spares
        ≡ length roots.old.known.places + length roots.new.tree.spares }

    // Counted: the bytes of all nodes are live. The segments are those that were there.
    ensures live_total { live_total region.new + node_object * length roots.old.known.places
        ≡ live_total region.old + node_object * length roots.new.known.places }
    ensures free { 1 ≤ free_count region.new }
    ensures segments { HoldsSegments region.old region.new }
{
    while roots.spare_count() < wanted {
        add_spare(region, roots);
    }
}
