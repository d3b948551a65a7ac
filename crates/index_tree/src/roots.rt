//! Where the root of the tree stands, and what is mended when a node moves: the mover of the region.
ghost use Rattle.std.specs.Prelude.{◌≡◌, ◌+◌, ◌*◌, ◌<◌, ◌≤◌, ◌++◌, ℕ, Option, [], Some, None, drop, length, slice_get};
ghost use Rattle.regions.specs.Shapes.{shape, group_count};
ghost use Rattle.regions.specs.Counts.{left, live_total};
ghost use Rattle.regions.specs.Contents.{live_at};
ghost use Rattle.regions.specs.declared.place.Place.{Place};
ghost use Rattle.layout.specs.Sizes.{greatest_key};
ghost use Rattle.index_tree.specs.Inserts.{Plants, Touched};
ghost use Rattle.index_tree.specs.Links as links;
ghost use Rattle.index_tree.specs.Sizes.{node_object};
ghost use Rattle.index_tree.specs.Limits.{most_levels};
ghost use Rattle.index_tree.specs.Store.{HoldsNode, levels, nodes_of};
ghost use Rattle.index_tree.specs.Trees.{nodes_below, places_of};
ghost use Rattle.index_tree.specs.inside.Climbs.{HoldNodes, IsBefore, IsInFrontOf, IsTreeIn, StandsIn};
ghost use Rattle.index_tree.specs.inside.Rosters as rosters;
ghost use Rattle.index_tree.specs.inside.Rosters.{IsSameTree, Remain};

use crate::climbing::{child_index, last_leaf};
use crate::fields::{child_of, level_at, parent_at};
use crate::mending::{mend_children, mend_front, mend_parent};
use crate::placing::{kill_node, place_node};
use crate::planting::{insert_at_root, plant};
use crate::roster::Roster;
use crate::spares::{MOST_SPARES, Spares, renamed};
use crate::split::Planted;
use regions::{Movers, Place, Region, led_to, link_to};
use std::marker::Model;

// The root, its level, and the spare nodes.
#[derive(Drop)]
pub(crate) struct Roots {
    root: Option<Place>,
    level: u16,
    spares: Spares,
    roster: Roster,
}

impl Model for Roots {
    ghost use Rattle.index_tree.specs.inside.Rosters.{RosterState};

    ghost Value = { RosterState };

    ghost view = { λ r. record { tree = record { root = r.root; level = r.level; spares = r.spares }; known = r.roster.known } };
}

impl Roots {
    // No node.
    pub(crate) fn new() -> Roots
        ensures { result ≡ record {
          tree = record { root = None; level = 0; spares = [] };
          known = record { places = []; index = [] };
        } }
    {
        Roots {
            root: None,
            level: 0,
            spares: Spares::new(),
            roster: Roster::empty(),
        }
    }

    // The leaf in front of the first one below a node of a level. None where that is the first of all.
    fn leaf_before(&self, region: &Region, at: Place, level: u16) -> Option<Place>
        requires { StandsIn (live_at region.now) self.now.tree level at }
        ensures { IsInFrontOf (nodes_of (live_at region.now)) self.now.tree level at result }
    {
        let parent = led_to(parent_at(region, at))?;
        let i = child_index(region, parent, link_to(Some(at)));
        if i == 0 {
            return self.leaf_before(region, parent, level + 1);
        }
        let before = led_to(child_of(region, parent, i - 1))?;
        Some(last_leaf(region, before, level))
    }

    // The leaf in front of the node at a place. None where it is none, or the first one.
    fn front_of(&self, region: &Region, at: Place) -> Option<Place>
        requires nodes { HoldNodes (live_at region.now) }
        requires tree { IsTreeIn (nodes_of (live_at region.now)) self.now.tree }
        requires there { (i : ℕ) × (slice_get (places_of (nodes_of (live_at region.now)) self.now.tree) i ≡ Some at) }
        ensures { IsBefore (nodes_of (live_at region.now)) (places_of (nodes_of (live_at region.now)) self.now.tree) at result }
    {
        if level_at(region, at) > 0 {
            return None;
        }
        if led_to(parent_at(region, at)).is_none() {
            return None;
        }
        self.leaf_before(region, at, 0)
    }

    // Where the root stands. None where there is no key.
    pub(crate) fn root(&self) -> Option<Place>
        ensures { result ≡ self.now.tree.root }
    {
        self.root
    }

    // The level of the root.
    pub(crate) fn level(&self) -> u16
        ensures { result ≡ self.now.tree.level }
    {
        self.level
    }

    // How many levels the tree has.
    pub(crate) fn height(&self) -> u32
        ensures { result ≡ levels self.now.tree }
    {
        match self.root {
            Some(_) => u32::from(self.level) + 1,
            None => 0,
        }
    }

    // How many nodes are spare.
    pub(crate) fn spare_count(&self) -> usize
        ensures count { result ≡ length self.now.tree.spares }
        ensures most { result ≤ 16 }
    {
        self.spares.len()
    }

    // Places a node, which is spare.
    pub(crate) fn place_spare(&mut self, region: &mut Region)
        requires roster { rosters.IsRosterOf self.old (live_at region.old) }
        requires one { group_count region.old ≡ 1 }
        requires room { node_object ≤ left region.old 0 }
        requires few { length self.old.tree.spares < MOST_SPARES }
        ensures roster { rosters.IsRosterOf self.new (live_at region.new) }
        ensures more { (place : Place) × (self.new ≡ rosters.with_spare place self.old) }
        ensures live_total { live_total region.new ≡ live_total region.old + node_object }
        ensures shape { shape region.new ≡ shape region.old }
    {
        let place = place_node(region);
        self.keep(place);
    }

    // The spare nodes.
    pub(crate) fn spares(&self) -> &[Place]
        ensures { result.now ≡ self.now.tree.spares }
    {
        self.spares.as_slice()
    }

    // Sets the number of a key, where it is there or where spare nodes are ready. The root is that which was, until it is settled.
    pub(crate) fn plant(&self, region: &mut Region, key: &[u8], number: u32) -> Planted
        requires roster { rosters.IsRosterOf self.now (live_at region.old) }
        requires spares { levels self.now.tree < length self.now.tree.spares }
        requires low { levels self.now.tree ≤ most_levels }
        requires some_key { 1 ≤ length key.now }
        requires short_key { length key.now ≤ greatest_key }
        ensures planted { Plants (nodes_of (live_at region.old)) (nodes_of (live_at region.new)) self.now.tree.level self.now.tree.root
            result.level result.root key.now number (drop result.left self.now.tree.spares) }
        ensures left { result.left ≤ length self.now.tree.spares }
        ensures touched { Touched
            (nodes_below (nodes_of (live_at region.old)) self.now.tree.level self.now.tree.root ++ self.now.tree.spares)
            region.old region.new }
    {
        let spares = self.spares.as_slice();
        match self.root {
            Some(root) => insert_at_root(region, spares, root, self.level, key, number),
            None => plant(region, spares, key, number),
        }
    }

    // The tree has this root, and its first spare nodes alone are spare still. What its nodes hold is the index.
    pub(crate) fn settle(&mut self, region: &Region, root: Option<Place>, level: u16, spares: usize)
        requires { spares ≤ length self.old.tree.spares }
        ensures { self.new ≡ rosters.settled (nodes_of (live_at region.now)) root level spares self.old }
    {
        self.root = root;
        self.level = level;
        self.spares.truncate(spares);
        self.roster = self.roster.holding(region, &root, &level);
    }

    // The tree has this root, and more nodes are spare. What its nodes hold is the index.
    pub(crate) fn release(
        &mut self,
        region: &Region,
        root: Option<Place>,
        level: u16,
        freed: &[Place],
    )
        requires { length self.old.tree.spares + length freed.now ≤ 16 }
        ensures { self.new ≡ rosters.released (nodes_of (live_at region.now)) root level freed.now self.old }
    {
        self.root = root;
        self.level = level;
        self.spares.extend(freed);
        self.roster = self.roster.holding(region, &root, &level);
    }

    // The last spare node is dead from now on.
    fn drop_spare(&mut self, region: &mut Region)
        requires roster { rosters.IsRosterOf self.old (live_at region.old) }
        requires some { 1 ≤ length self.old.tree.spares }
        ensures roster { rosters.IsRosterOf self.new (live_at region.new) }
        ensures spares { length self.new.tree.spares + 1 ≡ length self.old.tree.spares }
        ensures same { IsSameTree self.old self.new }
        ensures counted { live_total region.old ≡ node_object * length self.old.known.places
            → live_total region.new ≡ node_object * length self.new.known.places }
        ensures remain { Remain (live_at region.old) (live_at region.new) }
        ensures shape { shape region.new ≡ shape region.old }
    {
        let place = self.spares.pop();
        kill_node(region, place);
        self.unlist(place);
    }

    // Of the spare nodes no more than 8 stay, and the others are dead from now on.
    pub(crate) fn trim(&mut self, region: &mut Region)
        requires roster { rosters.IsRosterOf self.old (live_at region.old) }
        ensures roster { rosters.IsRosterOf self.new (live_at region.new) }
        ensures spares { length self.new.tree.spares ≤ MOST_SPARES }
        ensures same { IsSameTree self.old self.new }
        ensures counted { live_total region.old ≡ node_object * length self.old.known.places
            → live_total region.new ≡ node_object * length self.new.known.places }
        ensures remain { Remain (live_at region.old) (live_at region.new) }
        ensures shape { shape region.new ≡ shape region.old }
    {
        while self.spares.len() > MOST_SPARES {
            self.drop_spare(region);
        }
    }

    // No node stands at the place any more.
    fn unlist(&mut self, place: Place)
        ensures { self.new ≡ rosters.unlisted place self.old }
    {
        self.roster = self.roster.without_place(&place);
    }

    // The node at a place is spare, behind the others.
    fn keep(&mut self, place: Place)
        requires { length self.old.tree.spares < MOST_SPARES }
        ensures { self.new ≡ rosters.with_spare place self.old }
    {
        self.spares.push(place);
        self.roster = self.roster.with_place(&place);
    }

    // What stood at one place stands at another.
    fn rename(&mut self, from: Place, to: Place)
        ensures { self.new ≡ rosters.moved_roster from to self.old }
    {
        if let Some(root) = self.root {
            self.root = Some(renamed(root, from, to));
        }
        self.spares.rename(from, to);
        self.roster = self.roster.moved(&from, &to);
    }
}

impl Movers for Roots {
    ghost fits = { rosters.IsRosterOf };

    ghost place_of = { rosters.place_of };

    ghost bare = { links.bare };

    ghost references = { links.references };

    ghost Rest = { rosters.Shape };

    ghost rest = { rosters.shape_of };

    fn moved(&mut self, store: &mut Region, _kind: u8, from: Place, to: Place) {
        // The copy has the parent of what was copied.
        let parent = led_to(parent_at(store, to));
        let front = self.front_of(store, from);
        mend_children(store, from, to);
        mend_front(store, front, from, to);
        mend_parent(store, parent, from, to);
        self.rename(from, to);
    }
}
