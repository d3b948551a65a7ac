//! Tests of `compaction`: segments are emptied and freed, and each name keeps its content.
ghost use Rattle.std.specs.Prelude.{◌≡◌, ◌<◌, ◌≤◌, length, true, IfOk};
ghost use Rattle.slab.specs.Slab.{get};
ghost use Rattle.object_log.specs.Objects.{IsSize};
ghost use Rattle.regions.specs.Shapes.{HasGroup};
ghost use Rattle.regions.specs.Contents.{live_at, Keeps};
ghost use Rattle.rows_tests.specs.Names.{AreNamed};

mod calls;
mod groups;
mod names;
mod steps;
mod two_groups;

use crate::pieces::add_segments;
use calls::size_of;
use compaction::{Compacted, compact_in, compact_one, pass};
use names::{Names, content, kill, put};
use regions::Region;
use std::alloc::{AllocError, Global};
use std::test::Fail;
use steps::{Step, first_wrong};

/// A region and the names of its objects.
#[derive(Drop)]
struct Shelf {
    region: Region,
    names: Names,
    /// What each name should hold: its object's size and byte, or nothing.
    held: Vec<Option<(u32, u8)>>,
    /// The bytes of segments as they stood.
    kept: Vec<u8>,
}

/// A shelf of so many groups and five free segments, or of four, where it has one group.
fn new_shelf(alloc: Global, groups: u32) -> Result<Shelf, AllocError>
    requires { (1 ≤ groups) × (groups ≤ 8) }
    ensures { IfOk result (λ s. AreNamed (get s.names.places) (live_at s.region)) }
{
    let mut region = Region::new(alloc, 5, groups)?;
    add_segments(alloc, &mut region, segments_of(groups))?;
    Ok(Shelf {
        region,
        names: Names::new(alloc),
        held: Vec::new(alloc),
        kept: Vec::new(alloc),
    })
}

/// How many segments there are for so many groups.
fn segments_of(groups: u32) -> u32
    ensures { result ≤ 5 }
{
    if groups > 1 { 5 } else { 4 }
}

/// Whether the shelf has the group.
fn has_group(shelf: &Shelf, group: u32) -> bool
    ensures { result ≡ true → HasGroup shelf.now.region group }
{
    group < shelf.region.groups()
}

/// Begins the next segment of the group where one is free and none of it is active or that is full, and answers its active
/// one.
fn go_on(shelf: &mut Shelf, group: u32) -> Option<u32>
    requires fits { AreNamed (get shelf.old.names.places) (live_at shelf.old.region) }
    ensures fits { AreNamed (get shelf.new.names.places) (live_at shelf.new.region) }
{
    begin(&mut shelf.region, group);
    if !has_group(shelf, group) {
        return None;
    }
    shelf.region.active(group)
}

fn begin(region: &mut Region, group: u32)
    ensures { Keeps region.old region.new }
{
    if group >= region.groups() {
        return;
    }
    if region.free_segments() > 0
        && (region.active(group).is_none() || region.left(group) < 12_296)
    {
        region.next_active(group);
    }
}

/// An object of the size in the group, each byte of its content but for the name being this one.
fn place(
    alloc: Global,
    shelf: &mut Shelf,
    group: u32,
    size: u32,
    byte: u8,
) -> Result<Option<usize>, AllocError>
    requires size { IsSize size }
    requires fits { AreNamed (get shelf.old.names.places) (live_at shelf.old.region) }
    ensures fits { AreNamed (get shelf.new.names.places) (live_at shelf.new.region) }
{
    let mut content = Vec::from_elem(alloc, byte, size as usize - 8)?;
    put(
        &mut shelf.region,
        &mut shelf.names,
        group,
        size,
        content.as_mut_slice(),
    )
}

/// Ten of the greatest objects in the next segment of the group.
fn fill(alloc: Global, shelf: &mut Shelf, group: u32, byte: u8) -> Result<Option<u32>, AllocError>
    requires fits { AreNamed (get shelf.old.names.places) (live_at shelf.old.region) }
    ensures fits { AreNamed (get shelf.new.names.places) (live_at shelf.new.region) }
{
    let active = go_on(shelf, group);
    for _ in 0..10 {
        let _name = place(alloc, shelf, group, 12_296, byte)?;
    }
    Ok(active)
}

fn kill_each(shelf: &mut Shelf, names: &[usize])
    requires fits { AreNamed (get shelf.old.names.places) (live_at shelf.old.region) }
    ensures fits { AreNamed (get shelf.new.names.places) (live_at shelf.new.region) }
{
    for name in names {
        kill(&mut shelf.region, &mut shelf.names, *name);
    }
}

/// None where no segment is free.
fn compact(shelf: &mut Shelf) -> Option<Compacted>
    requires fits { AreNamed (get shelf.old.names.places) (live_at shelf.old.region) }
    ensures fits { AreNamed (get shelf.new.names.places) (live_at shelf.new.region) }
{
    if shelf.region.free_segments() == 0 {
        return None;
    }
    Some(compact_one(&mut shelf.region, &mut shelf.names))
}

/// None where no segment is free and the group's active one has too little left.
fn compact_group(shelf: &mut Shelf, group: u32) -> Option<Compacted>
    requires fits { AreNamed (get shelf.old.names.places) (live_at shelf.old.region) }
    ensures fits { AreNamed (get shelf.new.names.places) (live_at shelf.new.region) }
{
    if !has_group(shelf, group) {
        return None;
    }
    if shelf.region.free_segments() == 0 && shelf.region.left(group) < 118_776 {
        return None;
    }
    Some(compact_in(&mut shelf.region, group, &mut shelf.names))
}

fn compact_all(shelf: &mut Shelf) -> Option<Compacted>
    requires fits { AreNamed (get shelf.old.names.places) (live_at shelf.old.region) }
    ensures fits { AreNamed (get shelf.new.names.places) (live_at shelf.new.region) }
{
    if shelf.region.free_segments() == 0 {
        return None;
    }
    Some(pass(&mut shelf.region, &mut shelf.names))
}

fn guard(shelf: &mut Shelf, group: u32)
    requires fits { AreNamed (get shelf.old.names.places) (live_at shelf.old.region) }
    ensures fits { AreNamed (get shelf.new.names.places) (live_at shelf.new.region) }
{
    if has_group(shelf, group) && shelf.region.guards(group) < 10 {
        shelf.region.guard(group);
    }
}

fn unguard(shelf: &mut Shelf, group: u32)
    requires fits { AreNamed (get shelf.old.names.places) (live_at shelf.old.region) }
    ensures fits { AreNamed (get shelf.new.names.places) (live_at shelf.new.region) }
{
    if has_group(shelf, group) && shelf.region.guards(group) > 0 {
        shelf.region.unguard(group);
    }
}

/// Keeps the bytes of a closed segment behind those that are kept.
fn keep(shelf: &mut Shelf, segment: u32) -> bool
    requires fits { AreNamed (get shelf.old.names.places) (live_at shelf.old.region) }
    ensures fits { AreNamed (get shelf.new.names.places) (live_at shelf.new.region) }
{
    if !shelf.region.is_closed(segment) {
        return false;
    }
    let bytes = shelf.region.segment_bytes(segment);
    shelf.kept.extend_from_slice(bytes).is_ok()
}

/// Whether the bytes of a closed segment are those that were kept first, second and so on.
fn is_kept(shelf: &Shelf, segment: u32, order: usize) -> bool {
    if !shelf.region.is_closed(segment) || order > 9 {
        return false;
    }
    let bytes = shelf.region.segment_bytes(segment);
    shelf.kept.get(order * 131_072..(order + 1) * 131_072) == Some(bytes)
}

/// Which step is the first that a shelf of one group and four free segments answers otherwise.
fn wrong(alloc: Global, steps: &[Step<'_>]) -> Result<Option<usize>, AllocError> {
    wrong_of(alloc, 1, steps)
}

/// The same of a shelf of so many groups, with five segments where there are more than one.
fn wrong_of(alloc: Global, groups: u32, steps: &[Step<'_>]) -> Result<Option<usize>, AllocError>
    requires { (1 ≤ groups) × (groups ≤ 8) }
{
    let mut shelf = new_shelf(alloc, groups)?;
    let wrong = first_wrong(alloc, &mut shelf, steps);
    drop(shelf);
    Ok(wrong)
}

#[test]
fn the_sparsest_segment_is_emptied_and_the_other_stays(rt: HostRuntime) -> Result<(), Fail> {
    const STEPS: &[Step] = &[
        Step::Fill(7, 0),
        Step::Fill(8, 1),
        Step::GoOn(2),
        Step::Compact(Some(Compacted::NoneSparse)),
        Step::Kill(&[0, 1, 2, 3, 4, 5, 6, 7]),
        Step::Kill(&[10, 11, 12, 13, 14, 15, 16, 17, 18]),
        Step::Keep(0),
        Step::Keep(1),
        Step::Guard,
        Step::Compact(Some(Compacted::Guarded)),
        Step::CompactAll(Some(Compacted::Guarded)),
        Step::IsKept(1, 1),
        Step::PlaceOf(19, Some((1, 110_664))),
        Step::Unguard,
        Step::Free(1),
        Step::Compact(Some(Compacted::Freed)),
        Step::PlaceOf(19, Some((2, 0))),
        Step::Free(2),
        Step::IsClosed(1, false),
        Step::IsKept(0, 0),
    ];
    assert_eq!(rt; wrong(rt.alloc(), STEPS)?, None);
    Ok(())
}

#[test]
fn nothing_moves_until_the_last_of_three_guards_is_gone(rt: HostRuntime) -> Result<(), Fail> {
    const STEPS: &[Step] = &[
        Step::Fill(7, 0),
        Step::GoOn(1),
        Step::Kill(&[0, 1, 2, 3, 4, 5, 6, 7, 8]),
        Step::Keep(0),
        Step::Guard,
        Step::Guard,
        Step::Guard,
        Step::Compact(Some(Compacted::Guarded)),
        Step::Unguard,
        Step::Compact(Some(Compacted::Guarded)),
        Step::Unguard,
        Step::CompactAll(Some(Compacted::Guarded)),
        Step::IsKept(0, 0),
        Step::Unguard,
        Step::Compact(Some(Compacted::Freed)),
        Step::IsClosed(0, false),
    ];
    assert_eq!(rt; wrong(rt.alloc(), STEPS)?, None);
    Ok(())
}

/// Whether the content is of an object of the size, each byte of it but for the name being this one.
fn is_filled(content: &[u8], size: u32, byte: u8) -> bool {
    match content.get(8..) {
        Some(rest) => rest.len() + 16 == size as usize && is_each(rest, byte),
        None => false,
    }
}

fn is_each(bytes: &[u8], byte: u8) -> bool {
    bytes.iter().all(|b| *b == byte)
}

/// Whether the name is held as it should be: its object's size and byte, or nothing.
fn is_held(shelf: &Shelf, name: usize, held: Option<(u32, u8)>) -> bool
    requires fits { AreNamed (get shelf.now.names.places) (live_at shelf.now.region) }
{
    match (content(&shelf.region, &shelf.names, name), held) {
        (Some(bytes), Some((size, byte))) => is_filled(bytes, size, byte),
        (None, None) => true,
        _ => false,
    }
}

/// Whether each name is held as it should be.
fn are_held(shelf: &Shelf) -> bool
    requires fits { AreNamed (get shelf.now.names.places) (live_at shelf.now.region) }
{
    for (name, object) in shelf.held.iter().enumerate() {
        if !is_held(shelf, name, *object) {
            return false;
        }
    }
    true
}

#[test]
fn dead_objects_stay_behind_and_live_ones_keep_their_order(rt: HostRuntime) -> Result<(), Fail> {
    const STEPS: &[Step] = &[
        Step::Fill(7, 0),
        Step::Fill(8, 1),
        Step::Fill(9, 2),
        Step::GoOn(3),
        Step::Kill(&[0, 1, 2, 3, 4, 5, 6, 7, 8, 9]),
        Step::Kill(&[10, 12, 14, 16, 18]),
        // No segment is free.
        Step::CompactIn(0, Some(Compacted::Freed)),
        Step::Free(1),
        Step::Left(131_072),
        Step::CompactAll(Some(Compacted::Freed)),
        Step::Free(2),
        Step::Left(69_592),
        Step::PlaceOf(11, Some((3, 0))),
        Step::PlaceOf(13, Some((3, 12_296))),
        Step::PlaceOf(15, Some((3, 24_592))),
        Step::PlaceOf(17, Some((3, 36_888))),
        Step::PlaceOf(19, Some((3, 49_184))),
        Step::Holds(11, 12_296, 8),
        Step::Holds(13, 12_296, 8),
        Step::Holds(15, 12_296, 8),
        Step::Holds(17, 12_296, 8),
        Step::Holds(19, 12_296, 8),
        Step::IsClosed(2, true),
        Step::CompactAll(Some(Compacted::Freed)),
        Step::Compact(Some(Compacted::NoneSparse)),
    ];
    assert_eq!(rt; wrong(rt.alloc(), STEPS)?, None);
    Ok(())
}

/// Objects of 16 bytes, of 616 more and so on, and one of the greatest size: they fill a segment.
fn place_each(alloc: Global, shelf: &mut Shelf) -> Result<(), AllocError>
    requires fits { AreNamed (get shelf.old.names.places) (live_at shelf.old.region) }
    ensures fits { AreNamed (get shelf.new.names.places) (live_at shelf.new.region) }
{
    for byte in 0..20u8 {
        let size = size_of(u32::from(byte) * 77);
        if let Some(name) = place(alloc, shelf, 0, size, byte)? {
            note(&mut shelf.held, name, Some((size, byte)))?;
        }
    }
    if let Some(name) = place(alloc, shelf, 0, 12_296, 20)? {
        note(&mut shelf.held, name, Some((12_296, 20)))?;
    }
    Ok(())
}

#[test]
fn objects_of_each_size_are_moved(rt: HostRuntime) -> Result<(), Fail> {
    const STEPS: &[Step] = &[
        Step::GoOn(0),
        Step::PlaceEach(21),
        Step::GoOn(1),
        Step::AreHeld,
        Step::Kill(&[1, 2, 19]),
        Step::AreHeld,
        Step::Compact(Some(Compacted::Freed)),
        Step::IsClosed(0, false),
        Step::AreHeld,
    ];
    assert_eq!(rt; wrong(rt.alloc(), STEPS)?, None);
    Ok(())
}

/// What is known to be held, by name.
fn note(
    held: &mut Vec<Option<(u32, u8)>>,
    name: usize,
    object: Option<(u32, u8)>,
) -> Result<(), AllocError> {
    while held.len() <= name {
        held.push(None)?;
    }
    held[name] = object;
    Ok(())
}
