//! Segments are emptied until two are free or none is sparse.
ghost use Rattle.std.specs.Prelude.{◌≡◌, ◌↔◌, ◌⊎◌, ℕ, ◌+◌, ◌-◌, ◌*◌, ◌<◌, ◌≤◌, true, false, List, Some, IsNone, IfSome};
ghost use Rattle.layout.specs.Sizes as sizes;
ghost use Rattle.regions.specs.Segments.{RegionState};
ghost use Rattle.regions.specs.Shapes.{active_of, guards_of, group_count, held_count, free_count, HasGroup, IsUnguarded};
ghost use Rattle.regions.specs.Counts.{used_total, live_total, left};
ghost use Rattle.regions.specs.Contents.{live_at};
ghost use Rattle.regions.specs.Stores.{store_of};
ghost use Rattle.compaction.specs.Sparse.{IsCompacted, IsDense, IsSpent};
ghost use Rattle.compaction.specs.Emptied.{HoldsTheSame};
ghost use Rattle.compaction.specs.Passes.{Passes, FreesOne, ClosesAndEmpties};

use crate::compact::{Compacted, compact_in, compact_one};
use layout::{DENSE, GREATEST_OBJECT};
use regions::{Movers, Region};

/// Empties segments until two are free: `Freed`. Where a group's active segment is sparse and full it is closed, and the
/// sparsest segment of that group is emptied, the lowest such group first; where there is none, the sparsest segment of all is
/// emptied. A segment is free before and after.
///
/// `Guarded` where any group has a guard, and then nothing changed. `NoneSparse` only where nothing is left to compact: every
/// closed segment is dense, each active one is dense or has room for an object of any size, and at most one is free. Then all
/// segments are dense but one and one for each group, and where some group has too little room or no active segment, all but
/// one for each group.
///
/// # Examples
/// ```
/// if region.free_segments() == 0 {
///     return false;
/// }
/// pass(&mut region, &mut bookmark) == Compacted::Freed // two segments are free
/// ```
pub fn pass<M: Movers>(region: &mut Region, movers: &mut M) -> Compacted
    requires fits { M.fits movers.old (live_at region.old) }
    requires free { 1 ≤ free_count region.old }

    // What it answers, and when nothing changed.
    ensures guarded { result ≡ Compacted.Guarded ↔ ¬ IsUnguarded region.old }
    ensures unchanged { result ≡ Compacted.Guarded → (region.new ≡ region.old) × (movers.new ≡ movers.old) }
    ensures freed { result ≡ Compacted.Freed → 2 ≤ free_count region.new }
    ensures none { result ≡ Compacted.NoneSparse → IsCompacted region.new }
    ensures most { result ≡ Compacted.NoneSparse
        → (held_count region.new - 1 - group_count region.new) * (sizes.dense + 1) ≤ live_total region.new }
    ensures full { result ≡ Compacted.NoneSparse → (g : ℕ) → HasGroup region.new g → left region.new g < sizes.greatest_object
        → (held_count region.new - group_count region.new) * (sizes.dense + 1) ≤ live_total region.new }
    ensures enough { IsUnguarded region.old → 2 ≤ free_count region.old
        → (result ≡ Compacted.Freed) × (region.new ≡ region.old) × (movers.new ≡ movers.old) }

    // What it does, one segment after the other. A segment is free.
    ensures steps { (states : List RegionState) × Passes M.bare region.old states region.new }
    ensures free { 1 ≤ free_count region.new }

    // The store is the same, and nothing else of the mover changed.
    ensures fits { M.fits movers.new (live_at region.new) }
    ensures store { (n : ℕ) → store_of M.bare (M.place_of movers.new) (live_at region.new) n ≡ store_of M.bare
        (M.place_of movers.old) (live_at region.old) n }
    ensures rest { M.rest movers.new ≡ M.rest movers.old }
    ensures holds { HoldsTheSame region.old region.new }
{
    if is_guarded(region) {
        return Compacted::Guarded;
    }
    while region.free_segments() < 2 {
        if !free_one(region, movers) {
            return Compacted::NoneSparse;
        }
    }
    Compacted::Freed
}

/// Whether any group has a guard.
///
/// # Examples
/// ```
/// region.guard(0);
/// let guarded = is_guarded(&region); // true, and `pass` would answer `Guarded`
/// region.unguard(0);
/// ```
pub fn is_guarded(region: &Region) -> bool
    ensures { result ≡ false ↔ IsUnguarded region.now }
{
    for group in 0..region.groups() {
        if region.guards(group) > 0 {
            return true;
        }
    }
    false
}

// Empties one more segment: of the lowest group whose active one is sparse and full, which is closed first, or where there is
// none of all groups. Answers whether one was sparse.
fn free_one<M: Movers>(region: &mut Region, movers: &mut M) -> bool
    requires guards { IsUnguarded region.old }
    requires free { free_count region.old ≡ 1 }
    requires fits { M.fits movers.old (live_at region.old) }

    // A segment was emptied and fewer bytes are used, or nothing is left to compact and nothing changed.
    ensures step { result ≡ true → FreesOne M.bare region.old region.new }
    ensures lower { result ≡ true → used_total region.new < used_total region.old }
    ensures none { result ≡ false → IsCompacted region.new }
    ensures unchanged { result ≡ false → (region.new ≡ region.old) × (movers.new ≡ movers.old) }

    // A segment is free.
    ensures free { 1 ≤ free_count region.new }

    // The store is the same, and nothing else of the mover changed.
    ensures fits { M.fits movers.new (live_at region.new) }
    ensures store { (n : ℕ) → store_of M.bare (M.place_of movers.new) (live_at region.new) n ≡ store_of M.bare
        (M.place_of movers.old) (live_at region.old) n }
    ensures rest { M.rest movers.new ≡ M.rest movers.old }
    ensures holds { HoldsTheSame region.old region.new }
{
    match first_spent(region) {
        Some(group) => close_and_empty(region, group, movers),
        None => compact_one(region, movers) == Compacted::Freed,
    }
}

// Closes the active segment of the group, which is sparse and full, and empties the sparsest one of the group.
fn close_and_empty<M: Movers>(region: &mut Region, group: u32, movers: &mut M) -> bool
    requires group { HasGroup region.old group }
    requires spent { IsSpent region.old group }
    requires first { (h : ℕ) → h < group → ¬ IsSpent region.old h }
    requires guards { guards_of region.old group ≡ 0 }
    requires free { 1 ≤ free_count region.old }
    requires fits { M.fits movers.old (live_at region.old) }

    // A segment was emptied, fewer bytes are used, and a segment is free.
    ensures freed { result ≡ true }
    ensures step { ClosesAndEmpties M.bare group region.old region.new }
    ensures lower { used_total region.new < used_total region.old }
    ensures free { 1 ≤ free_count region.new }

    // The store is the same, and nothing else of the mover changed.
    ensures fits { M.fits movers.new (live_at region.new) }
    ensures store { (n : ℕ) → store_of M.bare (M.place_of movers.new) (live_at region.new) n ≡ store_of M.bare
        (M.place_of movers.old) (live_at region.old) n }
    ensures rest { M.rest movers.new ≡ M.rest movers.old }
    ensures holds { HoldsTheSame region.old region.new }
{
    region.next_active(group);
    compact_in(region, group, movers) == Compacted::Freed
}

// The lowest group whose active segment is sparse and full.
fn first_spent(region: &Region) -> Option<u32>
    ensures none { IsNone result → (g n : ℕ) → active_of region.now g ≡ Some n
        → IsDense region.now n ⊎ (sizes.greatest_object ≤ left region.now g) }
    ensures some { IfSome result (λ g. HasGroup region.now g × IsSpent region.now g) }
    ensures first { IfSome result (λ g. (h : ℕ) → h < g → ¬ IsSpent region.now h) }
{
    for group in 0..region.groups() {
        if is_spent(region, group) {
            return Some(group);
        }
    }
    None
}

// Whether the active segment of the group is sparse and full.
fn is_spent(region: &Region, group: u32) -> bool
    requires group { HasGroup region.now group }
    ensures spent { result ≡ true → IsSpent region.now group }
    ensures other { result ≡ false → (n : ℕ) → active_of region.now group ≡ Some n
        → IsDense region.now n ⊎ (sizes.greatest_object ≤ left region.now group) }
{
    match region.active(group) {
        Some(active) => region.live_in(active) <= DENSE && region.left(group) < GREATEST_OBJECT,
        None => false,
    }
}
