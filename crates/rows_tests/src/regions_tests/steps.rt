//! Calls of a region, and what they answer.
ghost use Rattle.std.specs.Prelude.{◌≡◌, ◌≤◌, true};
ghost use Rattle.object_log.specs.Objects.{IsSize};

use super::calls::{self, Live};
use regions::Region;

#[derive(Clone, Copy)]
pub(super) enum Step<'a> {
    /// Another segment is begun where the active one is full, and this one is active then.
    GoOn(u32),
    /// The same of a group, which comes first here and below.
    GoOnIn(u32, u32),
    /// The segment of a new object of the kind and size, and where it begins there, or none where it does not fit.
    Put(u8, u32, Option<(u32, u32)>),
    PutIn(u32, u8, u32, Option<(u32, u32)>),
    /// Ten of the greatest objects.
    PutTen,
    /// Ten of the greatest objects, dead.
    SpendTen,
    SpendTenIn(u32),
    /// Two objects of 48 and 16 bytes, of which the contents are sevens and nines.
    WriteBoth,
    /// Two objects of 48 bytes, of which the sevens of the first are copied into the second.
    CopyBeside,
    /// Where the copy of a segment's first live object stands.
    CopyFirst(u32, Option<(u32, u32)>),
    /// Whether a dead object is served under three guards, of which one stays.
    ServesDead(Option<bool>),
    Guards(u32),
    /// How many guards stand on each of two groups.
    GuardsOfTwo(u32, u32),
    GuardIn(u32),
    UnguardIn(u32),
    /// The bytes that the active segment has left.
    Left(u32),
    LeftIn(u32, u32),
    /// The number of the group's active segment.
    ActiveIn(u32, Option<u32>),
    /// The group of a segment.
    GroupOf(u32, Option<u32>),
    /// The live bytes of all segments.
    Live(u64),
    FreeSegments(u32),
    IsClosed(u32, bool),
    /// Where the objects of a segment end, and its live bytes.
    Counts(u32, Option<(u32, u32)>),
    /// Where the objects of a segment end, its first live one, and the next one behind that.
    TwoLive(u32, u32, Live, Live),
    /// A segment has these bytes from here on.
    Has(u32, usize, &'a [u8]),
    /// The live bytes by segment.
    ClosedLive(&'a [u32]),
    Sparse(u32),
    ClosedLiveIn(u32, &'a [u32]),
    SparseIn(u32, u32),
    /// Whether a segment can be freed, and is.
    Free(u32, bool),
    /// The owner of a free piece.
    TakeFree(Option<u32>),
    /// The owner of a piece that is given up.
    GiveUp(Option<u32>),
}

/// What the table of live bytes has for a segment that is not closed.
pub(super) const NOT_CLOSED: u32 = 4_294_967_295;

fn is_object(kind: u8, size: u32) -> bool
    ensures { result ≡ true → (1 ≤ kind) × IsSize size }
{
    kind > 0 && 16 <= size && size <= 12_296 && size % 8 == 0
}

fn puts(region: &mut Region, group: u32, kind: u8, size: u32, answer: Option<(u32, u32)>) -> bool {
    is_object(kind, size) && calls::put(region, group, kind, size) == answer
}

fn has_two(region: &Region, segment: u32, used: u32, first: Live, second: Live) -> bool {
    calls::two_live(region, segment) == Some((used, first, second))
}

fn goes_on(region: &mut Region, group: u32, active: u32) -> bool {
    calls::go_on(region, group) == Some(active)
}

fn puts_ten(region: &mut Region, group: u32) -> bool {
    calls::put_ten(region, group);
    true
}

fn spends_ten(region: &mut Region, group: u32) -> bool {
    calls::spend_ten(region, group);
    true
}

fn answers(region: &mut Region, step: &Step<'_>) -> bool {
    match step {
        Step::GoOn(active) => goes_on(region, 0, *active),
        Step::Put(kind, size, answer) => puts(region, 0, *kind, *size, *answer),
        Step::PutTen => puts_ten(region, 0),
        Step::SpendTen => spends_ten(region, 0),
        Step::WriteBoth => calls::write_both(region),
        Step::CopyBeside => calls::copy_beside(region),
        Step::CopyFirst(segment, answer) => calls::copy_first(region, *segment) == *answer,
        Step::ServesDead(answer) => calls::serves_dead(region) == *answer,
        Step::Free(segment, answer) => calls::free(region, *segment) == *answer,
        Step::TakeFree(answer) => calls::take_free(region) == *answer,
        Step::GiveUp(answer) => calls::give_up(region) == *answer,
        _ => answers_in(region, step),
    }
}

// The same of the steps of a group.
fn answers_in(region: &mut Region, step: &Step<'_>) -> bool {
    match step {
        Step::GoOnIn(group, active) => goes_on(region, *group, *active),
        Step::PutIn(group, kind, size, answer) => puts(region, *group, *kind, *size, *answer),
        Step::SpendTenIn(group) => spends_ten(region, *group),
        Step::GuardIn(group) => calls::guard(region, *group),
        Step::UnguardIn(group) => calls::unguard(region, *group),
        _ => stands(region, step),
    }
}

fn stands(region: &Region, step: &Step<'_>) -> bool {
    match step {
        Step::Guards(guards) => calls::guards(region, 0) == Some(*guards),
        Step::Left(left) => calls::left(region, 0) == Some(*left),
        Step::Live(live) => region.live() == *live,
        Step::FreeSegments(segments) => region.free_segments() == *segments,
        Step::IsClosed(segment, answer) => region.is_closed(*segment) == *answer,
        Step::Counts(segment, counts) => calls::counts(region, *segment) == *counts,
        Step::TwoLive(segment, used, first, second) => {
            has_two(region, *segment, *used, *first, *second)
        }
        Step::Has(segment, from, bytes) => calls::has(region, *segment, *from, bytes),
        Step::ClosedLive(live) => calls::is_closed_live(region, 0, live),
        Step::Sparse(segments) => calls::sparse(region, 0) == Some(*segments),
        _ => stands_in(region, step),
    }
}

fn stands_in(region: &Region, step: &Step<'_>) -> bool {
    match step {
        Step::GuardsOfTwo(first, second) => {
            calls::guards(region, 0) == Some(*first) && calls::guards(region, 1) == Some(*second)
        }
        Step::LeftIn(group, left) => calls::left(region, *group) == Some(*left),
        Step::ActiveIn(group, active) => calls::active(region, *group) == *active,
        Step::GroupOf(segment, group) => calls::group_of(region, *segment) == *group,
        Step::ClosedLiveIn(group, live) => calls::is_closed_live(region, *group, live),
        Step::SparseIn(group, segments) => calls::sparse(region, *group) == Some(*segments),
        _ => false,
    }
}

/// Which step is the first that answers otherwise.
pub(super) fn first_wrong(region: &mut Region, steps: &[Step<'_>]) -> Option<usize> {
    steps.iter().position(|step| !answers(region, step))
}
