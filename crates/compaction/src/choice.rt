//! Which segment is emptied.
ghost use Rattle.std.specs.Prelude.{◌≡◌, ◌↔◌, ℕ, ◌+◌, ◌<◌, ◌≤◌, true, false, length, slice_index, IfSome, IsNone};
ghost use Rattle.regions.specs.Shapes.{guards_of, HasGroup, IsClosed, IsClosedIn};
ghost use Rattle.compaction.specs.Sparse.{AreDense, AreDenseIn, IsDense, IsSparse, IsMovable, IsSparsest};
ghost use Rattle.compaction.specs.inside.Chosen.{IsSparser, IsSparsestSoFar};

use regions::Region;

// Whether some closed segment is sparse.
pub(crate) fn is_any_sparse(region: &Region) -> bool
    ensures none { result ≡ false → AreDense region.now }
    ensures some { result ≡ true → (n : ℕ) × IsClosed region.now n × IsSparse region.now n }
{
    for group in 0..region.groups() {
        if region.sparse_segments(group) > 0 {
            return true;
        }
    }
    false
}

// The sparsest closed segment of all groups without a guard. None where each closed segment of theirs is dense.
pub(crate) fn sparsest(region: &Region) -> Option<u32>
    ensures none { IsNone result → (n : ℕ) → IsMovable region.now n → IsDense region.now n }
    ensures some { IfSome result (IsSparsest (IsMovable region.now) region.now) }
{
    let mut found = None;
    for group in 0..region.groups() {
        found = sparsest_with(region, group, found);
    }
    found
}

// The sparser of the one that was found in the groups before and the sparsest of this one, if it has no guard.
fn sparsest_with(region: &Region, group: u32, found: Option<u32>) -> Option<u32>
    requires group { HasGroup region.now group }
    requires found { IsSparsestSoFar region.now group found }
    ensures { IsSparsestSoFar region.now (group + 1) result }
{
    if region.guards(group) > 0 {
        return found;
    }
    sparsest_besides(region, group, found)
}

// The sparser of the one that was found in the groups before and the sparsest of this one, which has no guard.
fn sparsest_besides(region: &Region, group: u32, found: Option<u32>) -> Option<u32>
    requires group { HasGroup region.now group }
    requires guards { guards_of region.now group ≡ 0 }
    requires found { IsSparsestSoFar region.now group found }
    ensures { IsSparsestSoFar region.now (group + 1) result }
{
    let Some(number) = sparsest_in(region, group) else {
        return found;
    };
    match found {
        Some(other) => Some(sparser(region, other, number)),
        None => Some(number),
    }
}

// Of two closed segments the one with fewer live bytes, of equals the one with the lower number.
fn sparser(region: &Region, first: u32, second: u32) -> u32
    requires first { IsClosed region.now first }
    requires second { IsClosed region.now second }
    ensures { IsSparser region.now first second result }
{
    let (one, other) = (region.live_in(first), region.live_in(second));
    if one < other || (one == other && first < second) {
        first
    } else {
        second
    }
}

// The sparsest closed segment of the group. None where every one is dense.
pub(crate) fn sparsest_in(region: &Region, group: u32) -> Option<u32>
    requires { HasGroup region.now group }
    ensures none { IsNone result ↔ AreDenseIn region.now group }
    ensures some { IfSome result (IsSparsest (IsClosedIn region.now group) region.now) }
{
    if region.sparse_segments(group) == 0 {
        return None;
    }
    Some(least(region.closed_live(group), region.most()))
}

// The index of the least count, of equals the first.
fn least(counts: &[u32], len: u32) -> u32
    requires some { 1 ≤ len }
    requires length { length counts.now ≡ len }
    ensures inside { result < len }
    ensures least { (m : ℕ) → m < len → slice_index counts.now result ≤ slice_index counts.now m }
    ensures first { (m : ℕ) → m < result → slice_index counts.now result < slice_index counts.now m }
{
    let mut least = 0;
    for number in 1..len {
        if counts[number as usize] < counts[least as usize] {
            least = number;
        }
    }
    least
}
