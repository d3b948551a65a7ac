//! What a region tells of itself.
ghost use Rattle.std.specs.Prelude.{◌≡◌, ◌↔◌, ◌⊎◌, ℕ, ◌-◌, ◌<◌, ◌≤◌, Some, option_map, IsSome, IsNone, IfSome};
ghost use Rattle.layout.specs.Sizes as sizes;
ghost use Rattle.regions.specs.declared.place.Place.{Place};
ghost use Rattle.regions.specs.Shapes.{shape, group_count, group_of, active_of, guards_of, guards_at, held_count, free_count, HasGroup, IsHeld, IsFree, IsClosed, IsClosedIn};
ghost use Rattle.regions.specs.Counts.{live_bytes_at, live_total, left};
ghost use Rattle.regions.specs.Contents.{Item, standing_at, live_at};
ghost use Rattle.regions.specs.Stores.{Bare, StandsFor, store_of, itself};

use super::Region;
use crate::place::Place;
use crate::slots::{group_in, segment_in};
use layout::SEGMENT;

impl Region {
    /// The number given to `new`.
    pub fn most(&self) -> u32
        ensures { result ≡ (shape self.now).most }
    {
        self.most
    }

    /// How many groups there are: the number given to `new`. Each closed segment is closed in one of them.
    pub fn groups(&self) -> u32
        ensures count { result ≡ group_count self.now }
        ensures closed { (n : ℕ) → IsClosed self.now n → (g : ℕ) × HasGroup self.now g × IsClosedIn self.now g n }
    {
        self.groups.len() as u32
    }

    /// The group in which the segment is closed or active. None where it is free.
    pub fn group_of(&self, segment: u32) -> Option<u32>
        requires { IsHeld self.now segment }
        ensures group { result ≡ group_of self.now segment }
        ensures free { IsNone result ↔ IsFree self.now segment }
        ensures held { IfSome result (HasGroup self.now) }
    {
        group_in(&self.slots[segment as usize])
    }

    /// The content of the live object at the place, without its descriptor. Under a guard of its group it may be dead.
    pub fn bytes(&self, place: Place) -> &[u8]
        requires { IsSome (live_at self.now place) ⊎ ((1 ≤ guards_at self.now place.segment) × IsSome (standing_at self.now place)) }
        ensures content { option_map (λ s. s.item.content) (standing_at self.now place) ≡ Some result.now }
        ensures inside { place.at < sizes.segment }
    {
        segment_in(&self.slots[place.segment as usize]).content(place.at)
    }

    /// How many guards stand on the group.
    pub fn guards(&self, group: u32) -> u32
        requires { HasGroup self.now group }
        ensures { result ≡ guards_of self.now group }
    {
        self.groups[group as usize].guards()
    }

    /// How many segments are held.
    pub fn held_segments(&self) -> u32
        ensures { result ≡ held_count self.now }
    {
        self.held.len()
    }

    /// How many segments are free.
    pub fn free_segments(&self) -> u32
        ensures { result ≡ free_count self.now }
    {
        self.free.len()
    }

    /// The bytes that the active segment of the group has left, or 0 where there is none.
    pub fn left(&self, group: u32) -> u32
        requires { HasGroup self.now group }
        ensures { result ≡ left self.now group }
    {
        let Some(segment) = self.groups[group as usize].active() else {
            return 0;
        };
        SEGMENT - segment_in(&self.slots[segment as usize]).used()
    }

    /// The bytes of the live objects of all segments, descriptors included.
    pub fn live(&self) -> u64
        ensures { result ≡ live_total self.now }
    {
        self.live
    }

    /// The sum of the sizes of the segment's live objects, in bytes.
    pub fn live_in(&self, segment: u32) -> u32
        requires { IsHeld self.now segment }
        ensures { result ≡ live_bytes_at self.now segment }
    {
        match group_in(&self.slots[segment as usize]) {
            Some(group) => self.groups[group as usize].live_in(segment),
            None => 0,
        }
    }

    /// A region by itself stands for the store in which each live object is named by its place, whatever of its items is
    /// taken for reference fields. It has 1 to 8 groups; each object, live or dead, stands in a segment of one of them, and
    /// each closed segment is closed in one; a group's active segment is of the group; and a group with a closed segment has
    /// an active one.
    pub fn facts(&self)
        ensures store { (bare : Bare) → StandsFor bare (store_of bare (itself (live_at self.now)) (live_at self.now))
            (itself (live_at self.now)) (live_at self.now) }
        ensures groups { (1 ≤ group_count self.now) × (group_count self.now ≤ 8) }
        ensures grouped { (p : Place) (i : Item) → live_at self.now p ≡ Some i
            → (g : ℕ) × (i.group ≡ Some g) × (group_of self.now p.segment ≡ Some g) × HasGroup self.now g }
        ensures stands { (p : Place) → IsSome (standing_at self.now p)
            → (g : ℕ) × (group_of self.now p.segment ≡ Some g) × HasGroup self.now g }
        ensures closed { (n : ℕ) → IsClosed self.now n → (g : ℕ) × HasGroup self.now g × IsClosedIn self.now g n }
        ensures of { (g n : ℕ) → active_of self.now g ≡ Some n → group_of self.now n ≡ Some g }
        ensures active { (g n : ℕ) → IsClosedIn self.now g n → IsSome (active_of self.now g) }
    {
        let _ = &self.groups;
    }
}
