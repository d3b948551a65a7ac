//! How an object comes into the active segment of a group.
ghost use Rattle.std.specs.Prelude.{◌≡◌, ◌↔◌, ◌+◌, ◌-◌, ◌^◌, ◌<◌, ◌≤◌, Some, None, option_map, IfOk, IfErr, IfSome, IsNone, IsErr};
ghost use Rattle.layout.specs.Sizes as sizes;
ghost use Rattle.object_log.specs.Objects.{IsSize};
ghost use Rattle.object_log.specs.Contents.{bytes_of, length_of, padded};
ghost use Rattle.regions.specs.Shapes.{shape, group_of, active_of, HasGroup, IsClosed};
ghost use Rattle.regions.specs.Counts.{used_counts, live_counts, used_at, used_total, live_total, plus, left};
ghost use Rattle.regions.specs.Contents.{standing_at, live_at, size_of, holding, zeros, ChangesAt};

use super::Region;
use crate::place::{NeedSegment, Place};
use crate::slots::{append_copy, segment_mut};
use object_log::NewContent;

impl Region {
    /// Adds a live object of `size` bytes, its descriptor included, to the active segment of the group, and answers where it
    /// stands. Its content is zero.
    ///
    /// # Errors
    /// `NeedSegment` where the group has no active segment, or that has less than `size` bytes left. Nothing changed.
    pub fn place(&mut self, group: u32, kind: u8, size: u32) -> Result<Place, NeedSegment>
        requires group { HasGroup self.old group }
        requires kind { 1 ≤ kind }
        requires size { IsSize size }

        // Refused exactly where it has too little room or there is none, and then nothing changed.
        ensures full { IsErr result ↔ left self.old group < size }
        ensures none { IsNone (active_of self.old group) → IsErr result }
        ensures unchanged { IfErr result (λ _. self.new ≡ self.old) }

        // Where the object stands, and that it is the only change.
        ensures segment { IfOk result (λ place. active_of self.old group ≡ Some place.segment) }
        ensures group { IfOk result (λ place. group_of self.old place.segment ≡ Some group) }
        ensures number { IfOk result (λ place. place.segment < 2 ^ 32) }
        ensures offset { IfOk result (λ place. place.at ≡ used_at self.old place.segment) }
        ensures unused { IfOk result (λ place. standing_at self.old place ≡ None) }
        ensures added { IfOk result (λ place. ChangesAt place (Some (zeros (Some group) kind size)) self.old self.new) }

        // Counted: its bytes are used and live. The segments are as they were.
        ensures used { IfOk result (λ place. used_counts self.new ≡ plus place.segment size (used_counts self.old)) }
        ensures live { IfOk result (λ place. live_counts self.new ≡ plus place.segment size (live_counts self.old)) }
        ensures used_total { IfOk result (λ _. used_total self.new ≡ used_total self.old + size) }
        ensures live_total { IfOk result (λ _. live_total self.new ≡ live_total self.old + size) }
        ensures shape { shape self.new ≡ shape self.old }
    {
        self.place_with(group, kind, size, NewContent::zeros())
    }

    /// The same with a content, which may have fewer bytes than the object has room for: those behind it are zero. No byte of
    /// the object is written twice.
    ///
    /// # Errors
    /// `NeedSegment` where the group has no active segment, or that has less than `size` bytes left. Nothing changed.
    pub fn place_with(
        &mut self,
        group: u32,
        kind: u8,
        size: u32,
        content: NewContent<'_>,
    ) -> Result<Place, NeedSegment>
        requires group { HasGroup self.old group }
        requires kind { 1 ≤ kind }
        requires size { IsSize size }
        requires content { sizes.descriptor + length_of content ≤ size }

        // Refused exactly where it has too little room or there is none, and then nothing changed.
        ensures full { IsErr result ↔ left self.old group < size }
        ensures none { IsNone (active_of self.old group) → IsErr result }
        ensures unchanged { IfErr result (λ _. self.new ≡ self.old) }

        // Where the object stands, and that it is the only change.
        ensures segment { IfOk result (λ place. active_of self.old group ≡ Some place.segment) }
        ensures group { IfOk result (λ place. group_of self.old place.segment ≡ Some group) }
        ensures number { IfOk result (λ place. place.segment < 2 ^ 32) }
        ensures offset { IfOk result (λ place. place.at ≡ used_at self.old place.segment) }
        ensures unused { IfOk result (λ place. standing_at self.old place ≡ None) }
        ensures added { IfOk result (λ place. ChangesAt place (Some (holding (Some group) kind
            (padded (size - sizes.descriptor) (bytes_of content.entry)))) self.old self.new) }

        // Counted: its bytes are used and live. The segments are as they were.
        ensures used { IfOk result (λ place. used_counts self.new ≡ plus place.segment size (used_counts self.old)) }
        ensures live { IfOk result (λ place. live_counts self.new ≡ plus place.segment size (live_counts self.old)) }
        ensures used_total { IfOk result (λ _. used_total self.new ≡ used_total self.old + size) }
        ensures live_total { IfOk result (λ _. live_total self.new ≡ live_total self.old + size) }
        ensures shape { shape self.new ≡ shape self.old }
    {
        if self.left(group) < size {
            return Err(NeedSegment);
        }
        let Some(segment) = self.active(group) else {
            unreachable!()
        };
        Ok(self.place_in(group, segment, kind, size, content))
    }

    // The same in the active segment, which has room for it.
    fn place_in(
        &mut self,
        group: u32,
        segment: u32,
        kind: u8,
        size: u32,
        content: NewContent<'_>,
    ) -> Place
        requires group { HasGroup self.old group }
        requires active { active_of self.old group ≡ Some segment }
        requires kind { 1 ≤ kind }
        requires size { IsSize size }
        requires content { sizes.descriptor + length_of content ≤ size }
        requires room { size ≤ left self.old group }

        // Where the object stands, and that it is the only change.
        ensures segment { result.segment ≡ segment }
        ensures offset { result.at ≡ used_at self.old segment }
        ensures unused { standing_at self.old result ≡ None }
        ensures added { ChangesAt result (Some (holding (Some group) kind (padded (size - sizes.descriptor) (bytes_of content.entry))))
            self.old self.new }

        // Counted: its bytes are used and live. The segments are as they were.
        ensures used { used_counts self.new ≡ plus segment size (used_counts self.old) }
        ensures live { live_counts self.new ≡ plus segment size (live_counts self.old) }
        ensures used_total { used_total self.new ≡ used_total self.old + size }
        ensures live_total { live_total self.new ≡ live_total self.old + size }
        ensures shape { shape self.new ≡ shape self.old }
    {
        let at = segment_mut(&mut self.slots[segment as usize]).append(kind, size, content);
        self.groups[group as usize].gain(size);
        self.live += u64::from(size);
        Place { segment, at }
    }

    /// Adds a live object of a kind with the content of a live object of a closed segment, whose size it has, to the active
    /// segment of the group, and answers where it stands.
    ///
    /// # Errors
    /// `NeedSegment` where the group has no active segment, or that has less than the object's bytes left. Nothing changed.
    pub fn place_copy(
        &mut self,
        group: u32,
        from: Place,
        kind: u8,
        size: u32,
    ) -> Result<Place, NeedSegment>
        requires group { HasGroup self.old group }
        requires closed { IsClosed self.old from.segment }
        requires live { option_map size_of (live_at self.old from) ≡ Some size }
        requires kind { 1 ≤ kind }
        requires size { IsSize size }

        // Refused exactly where it has too little room or there is none, and then nothing changed.
        ensures full { IsErr result ↔ left self.old group < size }
        ensures unchanged { IfErr result (λ _. self.new ≡ self.old) }

        // Where the object stands, and that it is the only change.
        ensures segment { IfOk result (λ place. active_of self.old group ≡ Some place.segment) }
        ensures group { IfOk result (λ place. group_of self.old place.segment ≡ Some group) }
        ensures unused { IfOk result (λ place. standing_at self.old place ≡ None) }
        ensures added { IfOk result (λ place. IfSome (live_at self.old from)
            (λ i. ChangesAt place (Some (holding (Some group) kind i.content)) self.old self.new)) }

        // Counted: its bytes are used and live. The segments are as they were.
        ensures used { IfOk result (λ place. used_counts self.new ≡ plus place.segment size (used_counts self.old)) }
        ensures live { IfOk result (λ place. live_counts self.new ≡ plus place.segment size (live_counts self.old)) }
        ensures used_total { IfOk result (λ _. used_total self.new ≡ used_total self.old + size) }
        ensures live_total { IfOk result (λ _. live_total self.new ≡ live_total self.old + size) }
        ensures shape { shape self.new ≡ shape self.old }
    {
        if size > self.left(group) {
            return Err(NeedSegment);
        }
        let Some(active) = self.active(group) else {
            unreachable!()
        };
        Ok(self.copy_in(group, active, from, kind, size))
    }

    // The same in the active segment, which has room for it.
    fn copy_in(&mut self, group: u32, segment: u32, from: Place, kind: u8, size: u32) -> Place
        requires group { HasGroup self.old group }
        requires active { active_of self.old group ≡ Some segment }
        requires closed { IsClosed self.old from.segment }
        requires live { option_map size_of (live_at self.old from) ≡ Some size }
        requires kind { 1 ≤ kind }
        requires size { IsSize size }
        requires room { size ≤ left self.old group }

        // Where the object stands, and that it is the only change.
        ensures segment { result.segment ≡ segment }
        ensures unused { standing_at self.old result ≡ None }
        ensures added { IfSome (live_at self.old from)
            (λ i. ChangesAt result (Some (holding (Some group) kind i.content)) self.old self.new) }

        // Counted: its bytes are used and live. The segments are as they were.
        ensures used { used_counts self.new ≡ plus segment size (used_counts self.old) }
        ensures live { live_counts self.new ≡ plus segment size (live_counts self.old) }
        ensures used_total { used_total self.new ≡ used_total self.old + size }
        ensures live_total { live_total self.new ≡ live_total self.old + size }
        ensures shape { shape self.new ≡ shape self.old }
    {
        let at = append_copy(&mut self.slots, segment, from, kind, size);
        self.groups[group as usize].gain(size);
        self.live += u64::from(size);
        Place { segment, at }
    }
}
