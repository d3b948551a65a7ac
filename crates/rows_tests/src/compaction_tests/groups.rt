//! Two groups: each is compacted within itself, and a guard keeps the segments of its own group.
use super::steps::Step;
use super::wrong_of;
use compaction::Compacted;
use std::test::Fail;

#[test]
fn a_guarded_group_stays_and_the_other_is_compacted(rt: HostRuntime) -> Result<(), Fail> {
    const STEPS: &[Step] = &[
        Step::FillIn(0, 7, 0),
        Step::FillIn(1, 8, 1),
        Step::GoOnIn(0, 2),
        Step::GoOnIn(1, 3),
        Step::Free(1),
        Step::Kill(&[0, 1, 2, 3, 4, 5, 6, 7, 8]),
        Step::Kill(&[10, 11, 12, 13, 14, 15, 16, 17]),
        Step::Keep(0),
        Step::GuardIn(0),
        Step::Compact(Some(Compacted::Freed)),
        Step::PlaceOf(18, Some((3, 0))),
        Step::PlaceOf(19, Some((3, 12_296))),
        Step::Holds(18, 12_296, 8),
        Step::Holds(19, 12_296, 8),
        Step::IsKept(0, 0),
        Step::Free(2),
        Step::Compact(Some(Compacted::Guarded)),
        Step::CompactAll(Some(Compacted::Guarded)),
        Step::CompactIn(0, Some(Compacted::Guarded)),
        Step::CompactIn(1, Some(Compacted::NoneSparse)),
        Step::IsKept(0, 0),
        Step::UnguardIn(0),
        Step::Compact(Some(Compacted::Freed)),
        Step::PlaceOf(9, Some((2, 0))),
        Step::Holds(9, 12_296, 7),
        Step::Free(3),
        Step::Compact(Some(Compacted::NoneSparse)),
    ];
    assert_eq!(rt; wrong_of(rt.alloc(), 2, STEPS)?, None);
    Ok(())
}

#[test]
fn of_equals_the_lower_number_goes_first_whatever_its_group(rt: HostRuntime) -> Result<(), Fail> {
    const STEPS: &[Step] = &[
        Step::FillIn(1, 7, 0),
        Step::FillIn(0, 8, 1),
        Step::GoOnIn(0, 2),
        Step::GoOnIn(1, 3),
        Step::Kill(&[0, 1, 2, 3, 4, 5, 6, 7]),
        Step::Kill(&[10, 11, 12, 13, 14, 15, 16, 17]),
        Step::Keep(1),
        Step::Compact(Some(Compacted::Freed)),
        Step::IsClosed(0, false),
        Step::IsKept(1, 0),
        Step::PlaceOf(8, Some((3, 0))),
        Step::PlaceOf(9, Some((3, 12_296))),
        Step::Compact(Some(Compacted::Freed)),
        Step::IsClosed(1, false),
        Step::PlaceOf(18, Some((2, 0))),
        Step::PlaceOf(19, Some((2, 12_296))),
    ];
    assert_eq!(rt; wrong_of(rt.alloc(), 2, STEPS)?, None);
    Ok(())
}

#[test]
fn the_sparsest_of_one_group_is_emptied_where_another_has_a_sparser_one(
    rt: HostRuntime,
) -> Result<(), Fail> {
    const STEPS: &[Step] = &[
        Step::FillIn(0, 7, 0),
        Step::FillIn(1, 8, 1),
        Step::GoOnIn(0, 2),
        Step::GoOnIn(1, 3),
        Step::CompactIn(1, Some(Compacted::NoneSparse)),
        Step::Kill(&[0, 1, 2, 3, 4, 5, 6, 7, 8]),
        Step::CompactIn(1, Some(Compacted::NoneSparse)),
        Step::Kill(&[10]),
        Step::Keep(0),
        Step::GuardIn(0),
        Step::CompactIn(1, Some(Compacted::Freed)),
        Step::IsKept(0, 0),
        Step::IsClosed(1, false),
        Step::LeftIn(1, 20_408),
        Step::LeftIn(0, 131_072),
        Step::GuardIn(1),
        Step::CompactIn(1, Some(Compacted::Guarded)),
    ];
    assert_eq!(rt; wrong_of(rt.alloc(), 2, STEPS)?, None);
    Ok(())
}

#[test]
fn a_pass_closes_the_spent_segment_of_the_lowest_group(rt: HostRuntime) -> Result<(), Fail> {
    const STEPS: &[Step] = &[
        Step::FillIn(1, 7, 0),
        Step::FillIn(0, 8, 1),
        Step::FillIn(1, 9, 2),
        Step::FillIn(0, 10, 3),
        // One is free, and both active ones are full and sparse.
        Step::Free(1),
        Step::Kill(&[20, 21, 22, 23, 24]),
        Step::Kill(&[30, 31, 32, 33]),
        Step::GuardIn(1),
        Step::CompactAll(Some(Compacted::Guarded)),
        Step::UnguardIn(1),
        // Group 0 goes on in segment 4, which takes the six objects of segment 3. Then group 1 goes on in segment 3.
        Step::CompactAll(Some(Compacted::NoneSparse)),
        Step::PlaceOf(34, Some((4, 0))),
        Step::PlaceOf(25, Some((3, 0))),
        Step::Free(1),
        Step::IsClosed(2, false),
        Step::Holds(34, 12_296, 10),
        Step::Holds(25, 12_296, 9),
    ];
    assert_eq!(rt; wrong_of(rt.alloc(), 2, STEPS)?, None);
    Ok(())
}
