//! The segments of one shard, their groups, and the objects in them.
ghost use Rattle.std.specs.Prelude.{◌≡◌, ◌↔◌, ℕ, ◌+◌, ◌-◌, ◌<◌, ◌≤◌, List, length, Some, None, option_map, replicate, IfOk, IfSome, IsSome, IsNone};
ghost use Rattle.std.specs.Borrow.{sem};
ghost use Rattle.layout.specs.Sizes as sizes;
ghost use Rattle.number_set.specs.Numbers.{size, IsLeast, IsGreatest, IsLeastAbsent};
ghost use Rattle.regions.specs.Segments.{segment_at, with_segment, with_guards, fresh, idle, all_emptied};
ghost use Rattle.regions.specs.Shapes.{shape, active_of, guards_of, most_guards, pieces, held_count, free_count, activated, HasGroup, IsUnguarded, IsClosedIn, IsLeastFree, IsGreatestFree, IsGreatestHeld, IsLeastUnused};
ghost use Rattle.regions.specs.Counts.{used_counts, live_counts, live_total, plus, left};
ghost use Rattle.regions.specs.Contents.{standing_at, live_at, size_of, dead, with_bytes, rewritten, ChangesAt, Keeps};
ghost use Rattle.regions.specs.Lends.{LendsContent, with_content};

mod closed;
mod placing;
mod reading;

use crate::group::{Group, clear_groups, new_groups};
use crate::place::Place;
use crate::segment::Segment;
use crate::slots::{clear_all, copy_into, group_begun, piece_of, segment_mut};
use layout::SEGMENT;
use number_set::NumberSet;
use raw_range::Piece;
use std::alloc::{AllocError, Global};
use std::marker::Model;
use std::mem;

/// The segments of one shard, by number, and the objects in them. A segment is free, or closed or active in one of the
/// region's groups, which share the free ones. A group has at most one active segment, and has one where it has a closed one.
/// It has guards of its own. The pieces of a region that is dropped stay allocated for good: [`Region::give_up`] hands them out.
///
/// # Examples
/// ```
/// let mut region = Region::new(alloc, 40, 1)?;
/// region.add_segment(piece); // of 131,072 bytes
/// region.next_active(0);
/// if let Ok(place) = region.place(0, 1, 64) {
///     region.bytes_mut(place).fill(7); // its content has 56 bytes
///     region.kill(place);
/// }
/// let piece = region.give_up(); // Some(piece)
/// ```
#[derive(Drop)]
pub struct Region {
    most: u32,
    groups: Vec<Group>,
    held: NumberSet,
    free: NumberSet,
    slots: Vec<Option<Segment>>,
    live: u64,
}

impl Model for Region {
    ghost use Rattle.regions.specs.Segments.{RegionState, region_code};
    ghost use Rattle.regions.specs.Shapes.{slots_of};
    ghost use Rattle.regions.specs.Counts.{used_in_each, live_in_each};
    ghost use Rattle.regions.specs.inside.Consistent.{IsConsistent, IsTotal, states};

    ghost Value = { RegionState };

    ghost coded = { region_code };

    ghost view = { λ r. record { most = r.most; groups = states r.groups.items; segments = r.slots.items } };

    ghost invariant = { λ r. IsConsistent r.most r.groups.items r.held r.free (slots_of r.slots.items)
        (used_in_each r.slots.items) (live_in_each r.slots.items) × IsTotal r.live (live_in_each r.slots.items) };
}

impl Region {
    /// A region of 1 to 8 groups that holds no segment. Numbers of segments are below `most`, those of groups below `groups`.
    ///
    /// # Errors
    /// `AllocError` where memory is not found.
    pub fn new(alloc: Global, most: u32, groups: u32) -> Result<Region, AllocError>
        requires most { most ≤ sizes.most_segments }
        requires groups { (1 ≤ groups) × (groups ≤ 8) }
        ensures { IfOk result (λ r. r ≡ record { most = most; groups = replicate groups idle; segments = replicate most None }) }
    {
        let mut slots = Vec::with_capacity(alloc, most as usize)?;
        for _number in 0..most {
            slots.push(None)?;
        }
        Ok(Region {
            most,
            groups: new_groups(alloc, most, groups)?,
            held: NumberSet::new(alloc, most)?,
            free: NumberSet::new(alloc, most)?,
            slots,
            live: 0,
        })
    }

    /// The piece becomes a free segment, with the least number that no segment has.
    pub fn add_segment(&mut self, piece: Piece)
        requires room { held_count self.old < (shape self.old).most }
        requires segment { length piece.bytes ≡ sizes.segment }

        // Its objects, none, stand beside those that were there.
        ensures added { (n : ℕ) × IsLeastUnused self.old n × (self.new ≡ with_segment self.old n (Some (fresh piece))) }
        ensures objects { Keeps self.old self.new }

        // Counted: one segment more, and no object.
        ensures held { held_count self.new ≡ held_count self.old + 1 }
        ensures free { free_count self.new ≡ free_count self.old + 1 }
        ensures counts { (used_counts self.new ≡ used_counts self.old) × (live_counts self.new ≡ live_counts self.old) }
        ensures live_total { live_total self.new ≡ live_total self.old }
    {
        let number = least_absent_from(&self.held);
        self.slots[number as usize] = Some(Segment::new(piece));
        self.held.insert(number);
        self.free.insert(number);
    }

    /// Takes the free segment with the greatest number out. None where at most one segment is free.
    pub fn take_free(&mut self) -> Option<Piece>
        // None where at most one is free, and then nothing changed.
        ensures none { IsNone result ↔ free_count self.old ≤ 1 }
        ensures unchanged { IsNone result → self.new ≡ self.old }

        // Where a piece is given, its segment is gone.
        ensures taken { IfSome result (λ piece. (n : ℕ) × IsGreatestFree self.old n × (segment_at self.old n ≡ Some (fresh piece))
            × (self.new ≡ with_segment self.old n None)) }
        ensures objects { Keeps self.old self.new }

        // Counted: one segment fewer, and no object.
        ensures held { IsSome result → held_count self.new + 1 ≡ held_count self.old }
        ensures free { IsSome result → free_count self.new + 1 ≡ free_count self.old }
        ensures counts { (used_counts self.new ≡ used_counts self.old) × (live_counts self.new ≡ live_counts self.old) }
        ensures live_total { live_total self.new ≡ live_total self.old }
    {
        if self.free.len() <= 1 {
            return None;
        }
        let number = greatest_of(&self.free);
        let taken = mem::replace(&mut self.slots[number as usize], None);
        self.held.remove(number);
        self.free.remove(number);
        Some(piece_of(taken))
    }

    /// Closes the active segment of the group, and makes the free one with the least number active in it.
    pub fn next_active(&mut self, group: u32)
        requires group { HasGroup self.old group }
        requires free { 1 ≤ free_count self.old }
        requires full { IsSome (active_of self.old group) → left self.old group < sizes.greatest_object }

        // Which segment is active, and which are closed.
        ensures activated { (n : ℕ) × IsLeastFree self.old n × (shape self.new ≡ activated group n (shape self.old)) }
        ensures closed { (g n : ℕ) → IsClosedIn self.old g n → IsClosedIn self.new g n }
        ensures ended { IfSome (active_of self.old group) (IsClosedIn self.new group) }

        // No object and no piece changes, and the active segment is empty.
        ensures objects { Keeps self.old self.new }
        ensures pieces { pieces self.new ≡ pieces self.old }
        ensures left { left self.new group ≡ sizes.segment }

        // Counted: one free segment fewer.
        ensures held { held_count self.new ≡ held_count self.old }
        ensures free { free_count self.new + 1 ≡ free_count self.old }
        ensures counts { (used_counts self.new ≡ used_counts self.old) × (live_counts self.new ≡ live_counts self.old) }
        ensures live_total { live_total self.new ≡ live_total self.old }
    {
        let number = least_of(&self.free);
        segment_mut(&mut self.slots[number as usize]).begin(group);
        self.free.remove(number);
        self.groups[group as usize].begin(number);
    }

    /// The live object at the place is dead from now on. It keeps its place and its content.
    pub fn kill(&mut self, place: Place)
        requires { IsSome (live_at self.old place) }
        ensures killed { ChangesAt place (option_map dead (standing_at self.old place)) self.old self.new }
        ensures used { used_counts self.new ≡ used_counts self.old }
        ensures live { IfSome (standing_at self.old place)
            (λ s. live_counts self.old ≡ plus place.segment (size_of s.item) (live_counts self.new)) }
        ensures live_total { IfSome (standing_at self.old place) (λ s. live_total self.new + size_of s.item ≡ live_total self.old) }
        ensures shape { shape self.new ≡ shape self.old }
    {
        let number = place.segment;
        let size = segment_mut(&mut self.slots[number as usize]).kill(place.at);
        let group = group_begun(&self.slots[number as usize]);
        self.groups[group as usize].lose(number, size);
        self.live -= u64::from(size);
    }

    /// The content of the live object at the place, for writing, without its descriptor.
    pub fn bytes_mut(&mut self, place: Place) -> &mut [u8]
        requires { IsSome (live_at self.old place) }

        // The content, lent.
        ensures* lends { sem 𝓛 (LendsContent self.entry place result) }
        ensures value { option_map (λ s. s.item.content) (standing_at self.old place) ≡ Some result.now }

        // Whatever is written, only this object changes.
        ensures left { (ws : List ℕ) → length ws ≡ length result.now
            → ChangesAt place (option_map (with_bytes ws) (standing_at self.old place)) self.old (with_content self.old place ws) }
        ensures fitted { (ws : List ℕ) → ChangesAt place (option_map (rewritten ws) (standing_at self.old place)) self.old
            (with_content self.old place ws) }

        // Counts and segments are as they were.
        ensures used { (ws : List ℕ) → used_counts (with_content self.old place ws) ≡ used_counts self.old }
        ensures live { (ws : List ℕ) → live_counts (with_content self.old place ws) ≡ live_counts self.old }
        ensures live_total { (ws : List ℕ) → live_total (with_content self.old place ws) ≡ live_total self.old }
        ensures shape { (ws : List ℕ) → shape (with_content self.old place ws) ≡ shape self.old }
    {
        segment_mut(&mut self.slots[place.segment as usize]).content_mut(place.at)
    }

    /// Writes the content of the live object at `from` over that of the live object at `to`, which has the same size.
    pub fn copy(&mut self, from: Place, to: Place)
        requires from { IsSome (live_at self.old from) }
        requires to { IsSome (live_at self.old to) }
        requires size { option_map size_of (live_at self.old from) ≡ option_map size_of (live_at self.old to) }

        // Only the object at `to` changes.
        ensures copied { IfSome (live_at self.old from)
            (λ i. ChangesAt to (option_map (with_bytes i.content) (standing_at self.old to)) self.old self.new) }

        // Counts and segments are as they were.
        ensures used { used_counts self.new ≡ used_counts self.old }
        ensures live { live_counts self.new ≡ live_counts self.old }
        ensures live_total { live_total self.new ≡ live_total self.old }
        ensures shape { shape self.new ≡ shape self.old }
    {
        let mut target = mem::replace(&mut self.slots[to.segment as usize], None);
        copy_into(segment_mut(&mut target), self.slots.as_slice(), from, to);
        self.slots[to.segment as usize] = target;
    }

    /// One guard more on the group. While one stands, no object of the group is moved and none of its bytes is used again.
    /// Guards nest.
    pub fn guard(&mut self, group: u32)
        requires group { HasGroup self.old group }
        requires few { guards_of self.old group < most_guards }
        ensures guards { self.new ≡ with_guards self.old group (guards_of self.old group + 1) }
        ensures live_total { live_total self.new ≡ live_total self.old }
    {
        self.groups[group as usize].guard();
    }

    /// One guard less on the group.
    pub fn unguard(&mut self, group: u32)
        requires group { HasGroup self.old group }
        requires some { 1 ≤ guards_of self.old group }
        ensures guards { self.new ≡ with_guards self.old group (guards_of self.old group - 1) }
        ensures live_total { live_total self.new ≡ live_total self.old }
    {
        self.groups[group as usize].unguard();
    }

    /// Removes all objects, makes every segment free, and takes the one with the greatest number out. None where no
    /// segment is held.
    pub fn give_up(&mut self) -> Option<Piece>
        requires { IsUnguarded self.old }

        // None where no segment is held; else its piece.
        ensures none { IsNone result ↔ held_count self.old ≡ 0 }
        ensures emptied { IsNone result → self.new ≡ all_emptied self.old }
        ensures given { IfSome result (λ piece. (n : ℕ) × IsGreatestHeld self.old n ×
            (segment_at (all_emptied self.old) n ≡ Some (fresh piece)) × (self.new ≡ with_segment (all_emptied self.old) n None)) }

        // No object is left.
        ensures objects { (p : Place) → standing_at self.new p ≡ None }

        // Counted: each segment is free, and no byte is used.
        ensures held { IsSome result → held_count self.new + 1 ≡ held_count self.old }
        ensures free { free_count self.new ≡ held_count self.new }
        ensures used { used_counts self.new ≡ replicate (shape self.old).most 0 }
        ensures live { live_counts self.new ≡ replicate (shape self.old).most 0 }
        ensures live_total { live_total self.new ≡ 0 }
    {
        let greatest = self.held.greatest();
        self.empty();
        let number = greatest?;
        let taken = mem::replace(&mut self.slots[number as usize], None);
        self.held.remove(number);
        self.free.remove(number);
        Some(piece_of(taken))
    }

    fn empty(&mut self)
        ensures { self.new ≡ all_emptied self.old }
    {
        clear_groups(&mut self.groups);
        clear_all(&mut self.slots);
        self.free.copy_from(&self.held);
        self.live = 0;
    }
}

fn least_of(set: &NumberSet) -> u32
    requires { 1 ≤ size set.now }
    ensures { IsLeast set.now result }
{
    let Some(number) = set.least() else {
        unreachable!()
    };
    number
}

fn greatest_of(set: &NumberSet) -> u32
    requires { 1 ≤ size set.now }
    ensures { IsGreatest set.now result }
{
    let Some(number) = set.greatest() else {
        unreachable!()
    };
    number
}

fn least_absent_from(set: &NumberSet) -> u32
    requires { size set.now < length set.now }
    ensures { IsLeastAbsent set.now result }
{
    let Some(number) = set.least_absent() else {
        unreachable!()
    };
    number
}
