//! A law of the definitions.
ghost use Rattle.std.specs.Prelude.{ℕ, ◌+◌, ◌-◌, ◌*◌, ◌<◌, ◌≤◌};
ghost use Rattle.layout.specs.Sizes.{dense, greatest_object};
ghost use Rattle.regions.specs.Segments.{RegionState};
ghost use Rattle.regions.specs.Shapes.{group_count, held_count, HasGroup};
ghost use Rattle.regions.specs.Counts.{left, live_total};
ghost use Rattle.compaction.specs.Sparse.{IsCompacted};

/// Where nothing is left to compact, all segments are dense but one and one for each group; and where the active segment of some
/// group is full besides, or it has none, all but one for each group.
///
/// # Examples
/// A caller cites `a_compacted_region_is_full();` for how many bytes at least are live where a `pass` answers `NoneSparse`.
/// Where fewer are, the active segment of each group has room for an object of any size.
pub fn a_compacted_region_is_full()
    ensures most { (r : RegionState) → IsCompacted r → (held_count r - 1 - group_count r) * (dense + 1) ≤ live_total r }
    ensures full { (r : RegionState) (g : ℕ) → IsCompacted r → HasGroup r g → left r g < greatest_object
        → (held_count r - group_count r) * (dense + 1) ≤ live_total r }
{}
