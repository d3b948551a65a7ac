//! Tests of `regions`: segments filled to the end, contents written and read, guards, and which segments are given.
ghost use Rattle.std.specs.Prelude.{◌≤◌};

mod calls;
mod steps;

use crate::pieces::add_segments;
use regions::{LiveObject, Region};
use std::alloc::{AllocError, Global};
use std::test::Fail;
use steps::{NOT_CLOSED, Step, first_wrong};

// An object of 48 bytes in front of a segment, and one of 16 behind it.
const IN_FRONT: LiveObject = LiveObject {
    at: 0,
    kind: 1,
    size: 48,
};

const BEHIND: LiveObject = LiveObject {
    at: 48,
    kind: 2,
    size: 16,
};

// The pieces of the segments have the owners 0, 1, 2.
fn three_segments(alloc: Global, groups: u32) -> Result<Region, AllocError>
    requires { (1 ≤ groups) × (groups ≤ 8) }
{
    let mut region = Region::new(alloc, 3, groups)?;
    add_segments(alloc, &mut region, 3)?;
    Ok(region)
}

// Which step is the first that three segments answer otherwise.
fn wrong(alloc: Global, steps: &[Step<'_>]) -> Result<Option<usize>, AllocError> {
    wrong_of(alloc, 1, steps)
}

// The same of a region of so many groups.
fn wrong_of(alloc: Global, groups: u32, steps: &[Step<'_>]) -> Result<Option<usize>, AllocError>
    requires { (1 ≤ groups) × (groups ≤ 8) }
{
    let mut region = three_segments(alloc, groups)?;
    let wrong = first_wrong(&mut region, steps);
    drop(region);
    Ok(wrong)
}

#[test]
fn a_segment_is_filled_with_and_without_room_for_the_end(rt: HostRuntime) -> Result<(), Fail> {
    const STEPS: &[Step] = &[
        Step::GoOn(0),
        Step::PutTen,
        Step::Put(1, 12_296, None),
        Step::Left(8112),
        Step::Put(1, 8112, Some((0, 122_960))),
        Step::Left(0),
        Step::GoOn(1),
        Step::ClosedLive(&[131_072, NOT_CLOSED, NOT_CLOSED]),
        Step::Sparse(0),
        Step::PutTen,
        Step::Put(1, 8104, Some((1, 122_960))),
        Step::Left(8),
    ];
    assert_eq!(rt; wrong(rt.alloc(), STEPS)?, None);
    Ok(())
}

#[test]
fn a_content_is_written_through_and_its_neighbours_stand(rt: HostRuntime) -> Result<(), Fail> {
    const STEPS: &[Step] = &[
        Step::GoOn(0),
        Step::WriteBoth,
        Step::SpendTen,
        Step::Live(64),
        Step::Counts(0, None),
        Step::GoOn(1),
        Step::Counts(0, Some((123_024, 64))),
        Step::TwoLive(0, 123_024, Some(IN_FRONT), Some(BEHIND)),
        Step::ClosedLive(&[64, NOT_CLOSED, NOT_CLOSED]),
        Step::Sparse(1),
        Step::Has(0, 0, &[1, 1, 0, 0, 48, 0, 0, 0]),
        Step::Has(0, 8, &[7; 40]),
        Step::Has(0, 48, &[1, 2, 0, 0, 16, 0, 0, 0]),
        Step::Has(0, 56, &[9; 8]),
        Step::Has(0, 64, &[2, 1, 0, 0, 0x08, 0x30, 0, 0, 0]),
    ];
    assert_eq!(rt; wrong(rt.alloc(), STEPS)?, None);
    Ok(())
}

#[test]
fn a_closed_segment_is_freed_once_none_of_its_objects_lives(rt: HostRuntime) -> Result<(), Fail> {
    const STEPS: &[Step] = &[
        Step::GoOn(0),
        Step::Put(1, 48, Some((0, 0))),
        Step::SpendTen,
        Step::GoOn(1),
        Step::SpendTen,
        Step::IsClosed(1, false),
        Step::GoOn(2),
        Step::FreeSegments(0),
        Step::Counts(0, Some((123_008, 48))),
        Step::Has(0, 0, &[1, 1, 0, 0, 48, 0, 0, 0]),
        Step::Has(0, 8, &[0; 40]),
        Step::TwoLive(0, 123_008, Some(IN_FRONT), None),
        Step::Counts(1, Some((122_960, 0))),
        Step::TwoLive(1, 122_960, None, None),
        Step::Has(1, 0, &[2, 1, 0, 0, 0x08, 0x30, 0, 0]),
        // Behind the last object stands the end.
        Step::Has(1, 122_960, &[0; 8]),
        Step::ClosedLive(&[48, 0, NOT_CLOSED]),
        Step::Sparse(2),
        Step::Free(0, false),
        Step::Free(1, true),
        Step::Free(1, false),
        Step::Free(2, false),
        Step::IsClosed(0, true),
        Step::IsClosed(1, false),
        Step::IsClosed(9, false),
        Step::FreeSegments(1),
        Step::ClosedLive(&[48, NOT_CLOSED, NOT_CLOSED]),
        Step::Sparse(1),
    ];
    assert_eq!(rt; wrong(rt.alloc(), STEPS)?, None);
    Ok(())
}

#[test]
fn a_dead_object_is_served_under_three_nested_guards(rt: HostRuntime) -> Result<(), Fail> {
    const STEPS: &[Step] = &[
        Step::GoOn(0),
        Step::ServesDead(Some(true)),
        Step::Guards(1),
        Step::ServesDead(None),
    ];
    assert_eq!(rt; wrong(rt.alloc(), STEPS)?, None);
    Ok(())
}

#[test]
fn objects_of_the_least_and_of_the_greatest_size_stand_side_by_side(
    rt: HostRuntime,
) -> Result<(), Fail> {
    const STEPS: &[Step] = &[
        Step::GoOn(0),
        Step::Put(1, 16, Some((0, 0))),
        Step::Put(2, 24, Some((0, 16))),
        Step::Put(3, 12_288, Some((0, 40))),
        Step::Put(255, 12_296, Some((0, 12_328))),
        Step::Left(106_448),
        // Eight of ten fit.
        Step::SpendTen,
        Step::Left(8080),
        Step::GoOn(1),
        Step::Counts(0, Some((122_992, 24_624))),
        Step::Has(0, 0, &[1, 1, 0, 0, 16, 0, 0, 0]),
        Step::Has(0, 16, &[1, 2, 0, 0, 24, 0, 0, 0]),
        Step::Has(0, 40, &[1, 3, 0, 0, 0, 0x30, 0, 0]),
        Step::Has(0, 12_328, &[1, 255, 0, 0, 0x08, 0x30, 0, 0]),
    ];
    assert_eq!(rt; wrong(rt.alloc(), STEPS)?, None);
    Ok(())
}

#[test]
fn a_content_is_copied_into_the_active_segment(rt: HostRuntime) -> Result<(), Fail> {
    const STEPS: &[Step] = &[
        Step::GoOn(0),
        Step::WriteBoth,
        Step::CopyFirst(0, None),
        Step::SpendTen,
        Step::GoOn(1),
        Step::CopyFirst(0, Some((1, 0))),
        Step::SpendTen,
        Step::GoOn(2),
        Step::Counts(1, Some((123_008, 48))),
        Step::Has(0, 0, &[1, 1, 0, 0, 48, 0, 0, 0]),
        Step::Has(0, 8, &[7; 40]),
        Step::Has(1, 0, &[1, 1, 0, 0, 48, 0, 0, 0]),
        Step::Has(1, 8, &[7; 40]),
        Step::Has(0, 48, &[1, 2, 0, 0, 16, 0, 0, 0]),
        Step::Has(1, 48, &[2, 1, 0, 0, 0x08, 0x30, 0, 0]),
        Step::ClosedLive(&[64, 48, NOT_CLOSED]),
    ];
    assert_eq!(rt; wrong(rt.alloc(), STEPS)?, None);
    Ok(())
}

#[test]
fn a_content_is_copied_beside_its_object(rt: HostRuntime) -> Result<(), Fail> {
    const STEPS: &[Step] = &[
        Step::GoOn(0),
        Step::CopyBeside,
        Step::SpendTen,
        Step::GoOn(1),
        Step::Has(0, 0, &[1, 1, 0, 0, 48, 0, 0, 0]),
        Step::Has(0, 48, &[1, 2, 0, 0, 48, 0, 0, 0, 7, 7]),
    ];
    assert_eq!(rt; wrong(rt.alloc(), STEPS)?, None);
    Ok(())
}

#[test]
fn the_last_free_segment_stays_until_all_is_given_up(rt: HostRuntime) -> Result<(), Fail> {
    const STEPS: &[Step] = &[
        Step::TakeFree(Some(2)),
        Step::TakeFree(Some(1)),
        Step::TakeFree(None),
        Step::GoOn(0),
        Step::GiveUp(Some(0)),
        Step::GiveUp(None),
    ];
    assert_eq!(rt; wrong(rt.alloc(), STEPS)?, None);
    Ok(())
}

#[test]
fn two_groups_share_the_free_segments(rt: HostRuntime) -> Result<(), Fail> {
    const STEPS: &[Step] = &[
        // Without an active segment nothing is left and nothing fits.
        Step::LeftIn(1, 0),
        Step::PutIn(1, 1, 16, None),
        Step::GoOnIn(1, 0),
        Step::GroupOf(0, Some(1)),
        Step::ActiveIn(0, None),
        Step::PutIn(0, 1, 16, None),
        Step::PutIn(1, 1, 48, Some((0, 0))),
        Step::GoOnIn(0, 1),
        Step::PutIn(0, 1, 24, Some((1, 0))),
        Step::LeftIn(0, 131_048),
        Step::LeftIn(1, 131_024),
        Step::SpendTenIn(1),
        Step::GoOnIn(1, 2),
        Step::IsClosed(0, true),
        Step::GroupOf(0, Some(1)),
        Step::GroupOf(1, Some(0)),
        Step::FreeSegments(0),
        Step::ClosedLiveIn(1, &[48, NOT_CLOSED, NOT_CLOSED]),
        Step::ClosedLiveIn(0, &[NOT_CLOSED; 3]),
        Step::SparseIn(1, 1),
        Step::SparseIn(0, 0),
    ];
    assert_eq!(rt; wrong_of(rt.alloc(), 2, STEPS)?, None);
    Ok(())
}

#[test]
fn a_guard_keeps_the_segments_of_its_group_alone(rt: HostRuntime) -> Result<(), Fail> {
    const STEPS: &[Step] = &[
        Step::GoOnIn(0, 0),
        Step::GoOnIn(1, 1),
        Step::SpendTenIn(1),
        Step::GoOnIn(1, 2),
        Step::GuardIn(1),
        Step::GuardIn(1),
        Step::GuardsOfTwo(0, 2),
        Step::Free(1, false),
        Step::UnguardIn(1),
        Step::GuardIn(0),
        Step::GuardsOfTwo(1, 1),
        Step::Free(1, false),
        Step::UnguardIn(1),
        Step::UnguardIn(1),
    ];
    // The last one finds no guard.
    assert_eq!(rt; wrong_of(rt.alloc(), 2, STEPS)?, Some(13));
    Ok(())
}

#[test]
fn a_segment_is_freed_under_a_guard_of_another_group(rt: HostRuntime) -> Result<(), Fail> {
    const STEPS: &[Step] = &[
        Step::GoOnIn(1, 0),
        Step::SpendTenIn(1),
        Step::GoOnIn(1, 1),
        Step::GuardIn(0),
        Step::GuardsOfTwo(1, 0),
        Step::Free(0, true),
        Step::GroupOf(0, None),
        Step::GiveUp(None),
        Step::UnguardIn(0),
        Step::GoOnIn(0, 0),
        Step::GroupOf(0, Some(0)),
        Step::GiveUp(Some(2)),
        Step::ActiveIn(0, None),
        Step::ActiveIn(1, None),
    ];
    assert_eq!(rt; wrong_of(rt.alloc(), 2, STEPS)?, None);
    Ok(())
}
