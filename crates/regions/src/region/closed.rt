//! What compaction reads of closed segments, and how one becomes free.
ghost use Rattle.std.specs.Prelude.{◌≡◌, ◌≢◌, ◌⊎◌, ℕ, ◌+◌, ◌<◌, ◌≤◌, length, slice_index, true, Some, None, option_map, slice_set, IfSome, IsNone};
ghost use Rattle.regions.specs.declared.place.Place.{Place};
ghost use Rattle.layout.specs.Sizes as sizes;
ghost use Rattle.object_log.specs.Objects.{IsSize, IsSegment};
ghost use Rattle.regions.specs.Segments.{SegmentState, segment_at, with_segment, emptied};
ghost use Rattle.regions.specs.Shapes.{shape, active_of, group_of, guards_at, pieces, is_closed, held_count, free_count, freed, HasGroup, IsHeld, IsFree, IsClosed, IsClosedIn};
ghost use Rattle.regions.specs.Counts.{used_counts, live_counts, used_at, live_bytes_at, left, used_total, live_total};
ghost use Rattle.regions.specs.Contents.{standing_at, live_at, dead, IsStart, NoneLives, IsLiveAt};
ghost use Rattle.regions.specs.inside.Consistent.{not_closed};

use super::Region;
use crate::group::Group;
use crate::place::LiveObject;
use crate::slots::{clear, group_begun, group_in, segment_in};
use number_set::NumberSet;

impl Region {
    /// Whether a closed segment has the number.
    pub fn is_closed(&self, segment: u32) -> bool
        ensures { result ≡ is_closed (shape self.now).groups (shape self.now).slots segment }
    {
        if segment >= self.most {
            return false;
        }
        match group_in(&self.slots[segment as usize]) {
            Some(group) => !self.groups[group as usize].is_active(segment),
            None => false,
        }
    }

    /// The number of the group's active segment, which is held and of the group.
    pub fn active(&self, group: u32) -> Option<u32>
        requires { HasGroup self.now group }
        ensures active { result ≡ active_of self.now group }
        ensures held { IfSome result (IsHeld self.now) }
        ensures group { IfSome result (λ n. group_of self.now n ≡ Some group) }
    {
        self.groups[group as usize].active()
    }

    /// The bytes of a closed segment.
    pub fn segment_bytes(&self, segment: u32) -> &[u8]
        requires { IsClosed self.now segment }
        ensures bytes { option_map (λ (h : SegmentState). h.piece.bytes) (segment_at self.now segment) ≡ Some result.now }
        ensures segment { IsSegment result.now (used_at self.now segment) }
    {
        segment_in(&self.slots[segment as usize]).bytes()
    }

    /// Where the objects of a closed segment end, in bytes. It was full when it was closed. Its first object begins at 0.
    pub fn used(&self, segment: u32) -> u32
        requires { IsClosed self.now segment }
        ensures used { result ≡ used_at self.now segment }
        ensures full { sizes.dense < result }
        ensures start { IsStart self.now segment 0 }
    {
        segment_in(&self.slots[segment as usize]).used()
    }

    /// The first live object of a closed segment from the offset on. None where no object is live from there on. The offset is
    /// 0, or an object begins or the last one ends there.
    pub fn next_live(&self, segment: u32, from: u32) -> Option<LiveObject>
        requires closed { IsClosed self.now segment }
        requires start { (from ≡ 0) ⊎ IsStart self.now segment from }

        // Nothing lives before the object that is found, or up to the end where none is.
        ensures none { IsNone result → NoneLives self.now segment from (used_at self.now segment) }
        ensures skipped { IfSome result (λ f. (from ≤ f.at) × NoneLives self.now segment from f.at) }

        // The object.
        ensures found { IfSome result (λ f. IsLiveAt (live_at self.now (record { segment = segment; at = f.at })) f.kind f.size) }
        ensures size { IfSome result (λ f. (1 ≤ f.kind) × IsSize f.size) }
        ensures within { IfSome result (λ f. f.at + f.size ≤ used_at self.now segment) }
        ensures inside { IfSome result (λ f. f.at + f.size ≤ sizes.segment) }

        // Where the search goes on: nothing stands between.
        ensures next { IfSome result (λ f. IsStart self.now segment (f.at + f.size)) }
        ensures between { IfSome result (λ f. (a : ℕ) → f.at < a → a < f.at + f.size → standing_at self.now
            (record { segment = segment; at = a }) ≡ None) }

        // What the search says of the live bytes.
        ensures counted { IfSome result (λ f. f.size ≤ live_bytes_at self.now segment) }
        ensures dead { IsNone result → NoneLives self.now segment 0 from → live_bytes_at self.now segment ≡ 0 }
    {
        segment_in(&self.slots[segment as usize]).next_live(from)
    }

    /// How many closed segments of the group are sparse. Where none is, each of them is dense.
    pub fn sparse_segments(&self, group: u32) -> u32
        requires { HasGroup self.now group }
        ensures none { result ≡ 0 → (n : ℕ) → IsClosedIn self.now group n → sizes.dense < live_bytes_at self.now n }
        ensures some { result ≢ 0 → (n : ℕ) × IsClosedIn self.now group n × (live_bytes_at self.now n ≤ sizes.dense) }
    {
        self.groups[group as usize].sparse()
    }

    /// The live bytes of each closed segment of the group, by number, and `u32::MAX` for each other number.
    pub fn closed_live(&self, group: u32) -> &[u32]
        requires { HasGroup self.now group }
        ensures length { length result.now ≡ (shape self.now).most }
        ensures closed { (n : ℕ) → IsClosedIn self.now group n
            → (n < (shape self.now).most) × (slice_index result.now n ≡ live_bytes_at self.now n) }
        ensures others { (n : ℕ) → n < (shape self.now).most → ¬ IsClosedIn self.now group n
            → slice_index result.now n ≡ not_closed }
    {
        self.groups[group as usize].closed_live()
    }

    /// Makes a closed segment free, in which no object is live. Its group has no guard. It was full, so more than a dense
    /// segment's bytes are gained.
    pub fn free_closed(&mut self, segment: u32)
        requires closed { IsClosed self.old segment }
        requires dead { live_bytes_at self.old segment ≡ 0 }
        requires guards { guards_at self.old segment ≡ 0 }

        // The segment is free, and its bytes are gained.
        ensures freed { self.new ≡ with_segment self.old segment (option_map emptied (segment_at self.old segment)) }
        ensures gained { sizes.dense < used_at self.old segment }
        ensures shape { shape self.new ≡ freed segment (shape self.old) }
        ensures is_free { IsFree self.new segment }

        // The others stay as they are, and each live object; under a guard of its group each dead one too.
        ensures closed { (g n : ℕ) → n ≢ segment → IsClosedIn self.old g n → IsClosedIn self.new g n }
        ensures store { (p : Place) → live_at self.new p ≡ live_at self.old p }
        ensures stay { (p : Place) → 1 ≤ guards_at self.old p.segment → standing_at self.new p ≡ standing_at self.old p }
        ensures pieces { pieces self.new ≡ pieces self.old }
        ensures left { (g : ℕ) → left self.new g ≡ left self.old g }

        // Counted: one free segment more, and its bytes are not used.
        ensures held { held_count self.new ≡ held_count self.old }
        ensures free { free_count self.new ≡ free_count self.old + 1 }
        ensures used { used_counts self.new ≡ slice_set (used_counts self.old) segment 0 }
        ensures live { live_counts self.new ≡ live_counts self.old }
        ensures used_total { used_total self.new + used_at self.old segment ≡ used_total self.old }
        ensures live_total { live_total self.new ≡ live_total self.old }
    {
        let group = group_begun(&self.slots[segment as usize]);
        clear(&mut self.slots[segment as usize]);
        unclose(&mut self.groups[group as usize], &mut self.free, segment);
    }
}

// A closed segment of the group is free from now on.
fn unclose(group: &mut Group, free: &mut NumberSet, number: u32)
    requires table { number < length group.old.table }
    requires free { number < length free.old }
    ensures group { group.new ≡ record group.old { table = slice_set group.old.table number not_closed } }
    ensures free { free.new ≡ slice_set free.old number true }
{
    group.free(number);
    free.insert(number);
}
