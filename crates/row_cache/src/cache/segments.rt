//! The segments of a cache: the region's calls, which leave its rows as they are.
ghost use Rattle.std.specs.Prelude.{◌≡◌, ◌≢◌, ◌↔◌, ◌⊎◌, ◌+◌, ◌-◌, ◌*◌, ◌<◌, ◌≤◌, ℕ, List, [], length, slice_get, slice_set, Some, None, IfSome, IsNone, IsSome};
ghost use Rattle.layout.specs.Sizes as sizes;
ghost use Rattle.rows.specs.Row.{live};
ghost use Rattle.regions.specs.Segments.{RegionState, segment_at, with_segment, with_guards, fresh, all_emptied};
ghost use Rattle.regions.specs.Shapes.{identity, shape, active_of, guards_of, most_guards, pieces, held_count, free_count, group_count, activated, HasGroup, IsLeastFree, IsGreatestFree, IsGreatestHeld, IsLeastUnused, IsUnguarded};
ghost use Rattle.regions.specs.Counts.{left};
ghost use Rattle.compaction.specs.Sparse.{IsCompacted};
ghost use Rattle.compaction.specs.Emptied.{HoldsTheSame};
ghost use Rattle.compaction.specs.Passes.{Passes};
ghost use Rattle.row_cache.specs.Links.{bare};
ghost use Rattle.row_cache.specs.Rows.{rows_of, Keeps};

use super::RowCache;
use compaction::{Compacted, pass};
use raw_range::Piece;

impl RowCache {
    /// The piece becomes a free segment, with the least number that no segment has.
    pub fn add_segment(&mut self, piece: Piece)
        requires room { held_count self.old.region < (shape self.old.region).most }
        requires segment { length piece.bytes ≡ sizes.segment }
        ensures rows { rows_of self.new ≡ rows_of self.old }
        ensures keeps { Keeps self.old self.new }
        ensures added { (n : ℕ) × IsLeastUnused self.old.region n
            × (self.new.region ≡ with_segment self.old.region n (Some (fresh piece))) }
        ensures held { held_count self.new.region ≡ held_count self.old.region + 1 }
        ensures free { free_count self.new.region ≡ free_count self.old.region + 1 }
    {
        self.region.add_segment(piece);
    }

    /// Takes the free segment with the greatest number out. None where at most one segment is free.
    pub fn take_free(&mut self) -> Option<Piece>
        ensures none { IsNone result ↔ free_count self.old.region ≤ 1 }
        ensures unchanged { IsNone result → self.new ≡ self.old }
        ensures rows { rows_of self.new ≡ rows_of self.old }
        ensures keeps { Keeps self.old self.new }
        ensures taken { IfSome result (λ piece. (n : ℕ) × IsGreatestFree self.old.region n ×
            (segment_at self.old.region n ≡ Some (fresh piece)) × (self.new.region ≡ with_segment self.old.region n None)) }
        ensures held { IsSome result → held_count self.new.region + 1 ≡ held_count self.old.region }
        ensures free { IsSome result → free_count self.new.region + 1 ≡ free_count self.old.region }
    {
        self.region.take_free()
    }

    /// Closes the active segment of the group, and makes the free one with the least number active in it. Two segments are free,
    /// or one is and no group has an active one.
    pub fn next_active(&mut self, group: u32)
        requires group { HasGroup self.old.region group }
        requires free { (2 ≤ free_count self.old.region)
            ⊎ ((1 ≤ free_count self.old.region) × ((g : ℕ) → active_of self.old.region g ≡ None)) }
        requires full { IsSome (active_of self.old.region group) → left self.old.region group < sizes.greatest_object }
        ensures rows { rows_of self.new ≡ rows_of self.old }
        ensures keeps { Keeps self.old self.new }
        ensures activated { (n : ℕ) × IsLeastFree self.old.region n
            × (shape self.new.region ≡ activated group n (shape self.old.region)) }
        ensures left { left self.new.region group ≡ sizes.segment }
        ensures pieces { pieces self.new.region ≡ pieces self.old.region }
        ensures held { held_count self.new.region ≡ held_count self.old.region }
        ensures free { free_count self.new.region + 1 ≡ free_count self.old.region }
    {
        self.region.next_active(group);
    }

    /// Empties segments one after the other until two are free, or nothing is left to compact, as [`compaction::pass`] does. Then
    /// all segments are dense but one and one for each group, and where some group has too little room besides, or no active
    /// segment, all but one for each group.
    pub fn compact(&mut self) -> Compacted
        requires { 1 ≤ free_count self.old.region }

        // What it answers, and when nothing changed.
        ensures guarded { result ≡ Compacted.Guarded ↔ ¬ IsUnguarded self.old.region }
        ensures unchanged { result ≡ Compacted.Guarded → self.new ≡ self.old }
        ensures freed { result ≡ Compacted.Freed → 2 ≤ free_count self.new.region }
        ensures none { result ≡ Compacted.NoneSparse → IsCompacted self.new.region }
        ensures most { result ≡ Compacted.NoneSparse
            → (held_count self.new.region - 1 - group_count self.new.region) * (sizes.dense + 1) ≤ live (rows_of self.new) }
        ensures full { result ≡ Compacted.NoneSparse → (g : ℕ) → HasGroup self.new.region g
            → left self.new.region g < sizes.greatest_object
            → (held_count self.new.region - group_count self.new.region) * (sizes.dense + 1) ≤ live (rows_of self.new) }
        ensures enough { IsUnguarded self.old.region → 2 ≤ free_count self.old.region
            → (result ≡ Compacted.Freed) × (self.new ≡ self.old) }

        // What it does, one segment after the other. A segment is free.
        ensures steps { (states : List RegionState) × Passes bare self.old.region states self.new.region }
        ensures free { 1 ≤ free_count self.new.region }

        // The rows are the same, wherever they stand now.
        ensures rows { rows_of self.new ≡ rows_of self.old }
        ensures room { self.new.room ≡ self.old.room }
        ensures holds { HoldsTheSame self.old.region self.new.region }
    {
        pass(&mut self.region, &mut self.tables)
    }

    /// One guard more on the group. While one stands, no row of the group is moved and no byte of one that went is used again.
    /// Guards nest.
    pub fn guard(&mut self, group: u32)
        requires group { HasGroup self.old.region group }
        requires few { guards_of self.old.region group < most_guards }
        ensures rows { rows_of self.new ≡ rows_of self.old }
        ensures keeps { Keeps self.old self.new }
        ensures guards { self.new.region ≡ with_guards self.old.region group (guards_of self.old.region group + 1) }
        ensures count { guards_of self.new.region group ≡ guards_of self.old.region group + 1 }
        ensures others { (g : ℕ) → g ≢ group → guards_of self.new.region g ≡ guards_of self.old.region g }
    {
        self.region.guard(group);
    }

    /// One guard less on the group.
    pub fn unguard(&mut self, group: u32)
        requires group { HasGroup self.old.region group }
        requires some { 1 ≤ guards_of self.old.region group }
        ensures rows { rows_of self.new ≡ rows_of self.old }
        ensures keeps { Keeps self.old self.new }
        ensures guards { self.new.region ≡ with_guards self.old.region group (guards_of self.old.region group - 1) }
        ensures count { guards_of self.new.region group + 1 ≡ guards_of self.old.region group }
        ensures others { (g : ℕ) → g ≢ group → guards_of self.new.region g ≡ guards_of self.old.region g }
    {
        self.region.unguard(group);
    }

    /// Removes all rows, makes every segment free, and takes the one with the greatest number out. None where no segment
    /// is held.
    pub fn give_up(&mut self) -> Option<Piece>
        requires { IsUnguarded self.old.region }
        ensures none { IsNone result ↔ held_count self.old.region ≡ 0 }
        ensures rows { rows_of self.new ≡ [] }
        ensures room { self.new.room ≡ self.old.room }
        ensures given { IfSome result (λ piece. (n : ℕ) × IsGreatestHeld self.old.region n ×
            (slice_get (pieces self.old.region) n ≡ Some (Some (identity piece)))
            × (pieces self.new.region ≡ slice_set (pieces self.old.region) n None)) }
        ensures held { IsSome result → held_count self.new.region + 1 ≡ held_count self.old.region }
        ensures free { free_count self.new.region ≡ held_count self.new.region }
        ensures most { (shape self.new.region).most ≡ (shape self.old.region).most }
        ensures guards { IsUnguarded self.new.region }
        ensures groups { group_count self.new.region ≡ group_count self.old.region }
    {
        self.tables.clear();
        self.region.give_up()
    }
}
