//! One segment is emptied.
ghost use Rattle.std.specs.Prelude.{◌≡◌, ◌≢◌, ◌↔◌, ℕ, ◌≤◌};
ghost use Rattle.regions.specs.Shapes.{guards_of, free_count, HasGroup, IsClosed, IsClosedIn};
ghost use Rattle.regions.specs.Contents.{live_at};
ghost use Rattle.regions.specs.Stores.{store_of};
ghost use Rattle.compaction.specs.Sparse.{AreDense, AreDenseIn, AreHeldBack, IsDense, IsMovable, IsSparse, HasRoom};
ghost use Rattle.compaction.specs.Emptied.{IsEmptied, EmptiesSparsest, GuardedStay, HoldsTheSame, HasFewerDead};

use crate::choice::{is_any_sparse, sparsest, sparsest_in};
use crate::draining::drain;
use regions::{Movers, Region};

/// What compaction answers. Where no segment was freed by `compact_one` or `compact_in`, nothing changed.
///
/// # Examples
/// ```
/// let freed = match compact_one(&mut region, &mut bookmark) {
///     Compacted::Freed => true,
///     Compacted::NoneSparse => false, // until objects are killed
///     Compacted::Guarded => false, // until `Region::unguard`
/// };
/// ```
#[derive(Clone, Copy, Debug, PartialEq, Eq)]
pub enum Compacted {
    /// A segment was freed.
    Freed,
    /// Every closed segment is dense.
    NoneSparse,
    /// A guard stands.
    Guarded,
}

/// Of the groups without a guard, empties the closed segment with the fewest live bytes, of equals the one with the lowest
/// number, and frees it: `Freed`. Its live objects are appended to the active segment of their group, and the next one is
/// begun there once, where they have too little room.
///
/// `NoneSparse` where every closed segment is dense. `Guarded` where some closed segment is sparse, and each such one is of a
/// group with a guard. Then nothing changed. A segment has to be free.
///
/// # Examples
/// ```
/// if region.free_segments() == 0 {
///     return false;
/// }
/// let did = compact_one(&mut region, &mut bookmark); // the mover `bookmark` has the new places
/// did == Compacted::Freed
/// ```
pub fn compact_one<M: Movers>(region: &mut Region, movers: &mut M) -> Compacted
    requires fits { M.fits movers.old (live_at region.old) }
    requires free { 1 ≤ free_count region.old }

    // What it answers, and that nothing changed where nothing is freed.
    ensures none { result ≡ Compacted.NoneSparse ↔ AreDense region.old }
    ensures guarded { result ≡ Compacted.Guarded ↔ AreHeldBack region.old }
    ensures unchanged { result ≢ Compacted.Freed → (region.new ≡ region.old) × (movers.new ≡ movers.old) }

    // Where a segment is freed: it is the sparsest of the groups without a guard, and it was emptied.
    ensures freed { result ≡ Compacted.Freed → EmptiesSparsest M.bare (IsMovable region.old) region.old region.new }
    ensures free { 1 ≤ free_count region.new }
    ensures lower { result ≡ Compacted.Freed → HasFewerDead region.old region.new }

    // What stands under a guard stays.
    ensures stay { GuardedStay M.bare region.old region.new }

    // The store is the same, and nothing else of the mover changed.
    ensures fits { M.fits movers.new (live_at region.new) }
    ensures store { (n : ℕ) → store_of M.bare (M.place_of movers.new) (live_at region.new) n ≡ store_of M.bare
        (M.place_of movers.old) (live_at region.old) n }
    ensures rest { M.rest movers.new ≡ M.rest movers.old }
    ensures holds { HoldsTheSame region.old region.new }
{
    let Some(source) = sparsest(region) else {
        return refusal(region);
    };
    let group = group_of(region, source);
    empty(region, movers, group, source);
    Compacted::Freed
}

// The group of a closed segment.
fn group_of(region: &Region, source: u32) -> u32
    requires { IsClosed region.now source }
    ensures held { HasGroup region.now result }
    ensures closed { IsClosedIn region.now result source }
{
    let Some(group) = region.group_of(source) else {
        unreachable!()
    };
    group
}

// Why no segment can be emptied.
fn refusal(region: &Region) -> Compacted
    requires { (n : ℕ) → IsMovable region.now n → IsDense region.now n }
    ensures none { result ≡ Compacted.NoneSparse ↔ AreDense region.now }
    ensures guarded { result ≡ Compacted.Guarded ↔ AreHeldBack region.now }
    ensures nothing { result ≢ Compacted.Freed }
{
    if is_any_sparse(region) {
        Compacted::Guarded
    } else {
        Compacted::NoneSparse
    }
}

/// Of one group, empties the closed segment with the fewest live bytes, of equals the one with the lowest number, and frees it,
/// as [`compact_one`] does: `Freed`.
///
/// `Guarded` where the group has a guard. Else `NoneSparse` where every closed segment of the group is dense. Then nothing
/// changed. A segment has to be free, or the group's active one has [`DENSE`](layout::DENSE) bytes left.
///
/// # Examples
/// ```
/// if region.free_segments() == 0 && region.left(group) < DENSE {
///     return false;
/// }
/// compact_in(&mut region, group, &mut bookmark) == Compacted::Freed // of this group alone
/// ```
pub fn compact_in<M: Movers>(region: &mut Region, group: u32, movers: &mut M) -> Compacted
    requires group { HasGroup region.old group }
    requires fits { M.fits movers.old (live_at region.old) }
    requires room { HasRoom region.old group }

    // What it answers, and that nothing changed where nothing is freed.
    ensures guarded { result ≡ Compacted.Guarded ↔ 1 ≤ guards_of region.old group }
    ensures none { result ≡ Compacted.NoneSparse ↔ ((guards_of region.old group ≡ 0) × AreDenseIn region.old group) }
    ensures unchanged { result ≢ Compacted.Freed → (region.new ≡ region.old) × (movers.new ≡ movers.old) }

    // Where a segment is freed: it is the sparsest of the group, and it was emptied.
    ensures freed { result ≡ Compacted.Freed → EmptiesSparsest M.bare (IsClosedIn region.old group) region.old region.new }
    ensures free { result ≡ Compacted.Freed → 1 ≤ free_count region.new }
    ensures lower { result ≡ Compacted.Freed → HasFewerDead region.old region.new }

    // What stands under a guard stays.
    ensures stay { GuardedStay M.bare region.old region.new }

    // The store is the same, and nothing else of the mover changed.
    ensures fits { M.fits movers.new (live_at region.new) }
    ensures store { (n : ℕ) → store_of M.bare (M.place_of movers.new) (live_at region.new) n ≡ store_of M.bare
        (M.place_of movers.old) (live_at region.old) n }
    ensures rest { M.rest movers.new ≡ M.rest movers.old }
    ensures holds { HoldsTheSame region.old region.new }
{
    if region.guards(group) > 0 {
        return Compacted::Guarded;
    }
    let Some(source) = sparsest_in(region, group) else {
        return Compacted::NoneSparse;
    };
    empty(region, movers, group, source);
    Compacted::Freed
}

// Moves the live objects out of the closed segment, which has room for them in its group, and frees it.
fn empty<M: Movers>(region: &mut Region, movers: &mut M, group: u32, source: u32)
    requires group { HasGroup region.old group }
    requires closed { IsClosedIn region.old group source }
    requires guards { guards_of region.old group ≡ 0 }
    requires sparse { IsSparse region.old source }
    requires room { HasRoom region.old group }
    requires fits { M.fits movers.old (live_at region.old) }

    // The segment is free, and fewer dead bytes are left.
    ensures emptied { IsEmptied M.bare group source region.old region.new }
    ensures free { 1 ≤ free_count region.new }
    ensures lower { HasFewerDead region.old region.new }

    // What stands under a guard stays.
    ensures stay { GuardedStay M.bare region.old region.new }

    // The store is the same, and nothing else of the mover changed.
    ensures fits { M.fits movers.new (live_at region.new) }
    ensures store { (n : ℕ) → store_of M.bare (M.place_of movers.new) (live_at region.new) n ≡ store_of M.bare
        (M.place_of movers.old) (live_at region.old) n }
    ensures rest { M.rest movers.new ≡ M.rest movers.old }
    ensures holds { HoldsTheSame region.old region.new }
{
    drain(region, movers, group, source);
    region.free_closed(source);
}
