//! Two groups through calls that are drawn at random: each name keeps its content and its group.
ghost use Rattle.slab.specs.Slab.{get};
ghost use Rattle.regions.specs.Contents.{live_at};
ghost use Rattle.rows_tests.specs.Names.{AreNamed};

use super::calls::{kill_one, size_of, write_one};
use super::names::place_of;
use super::{
    Shelf, are_held, compact, compact_all, compact_group, go_on, guard, is_kept, keep, new_shelf,
    note, place, unguard,
};
use compaction::Compacted;
use rand_core::utils::NextWord;
use rand_pcg::Lcg64Xsh32;
use regions::Region;
use std::alloc::{AllocError, Global};
use std::test::Fail;

/// The group of each name, beside what it holds.
#[derive(Drop)]
struct Drawn {
    groups: Vec<u32>,
    /// How many segments were freed.
    freed: u32,
    /// How often a guard stood in the way.
    guarded: u32,
}

/// The group of a segment that is held.
fn group_of(region: &Region, segment: u32) -> Option<u32> {
    for group in 0..region.groups() {
        if region.active(group) == Some(segment) {
            return Some(group);
        }
    }
    if region.is_closed(segment) {
        region.group_of(segment)
    } else {
        None
    }
}

/// Whether each name that is held stands in a segment of its group.
fn are_grouped(shelf: &Shelf, groups: &[u32]) -> bool {
    for (name, group) in groups.iter().enumerate() {
        if let Some(place) = place_of(&shelf.names, name)
            && group_of(&shelf.region, place.segment) != Some(*group)
        {
            return false;
        }
    }
    true
}

fn note_group(groups: &mut Vec<u32>, name: usize, group: u32) -> Result<(), AllocError> {
    while groups.len() <= name {
        groups.push(0)?;
    }
    groups[name] = group;
    Ok(())
}

/// One call, drawn at random: an object is placed, killed or written, or a guard is drawn in or out.
fn one_call(
    alloc: Global,
    shelf: &mut Shelf,
    drawn: &mut Drawn,
    random: &mut Lcg64Xsh32,
) -> Result<(), AllocError>
    requires fits { AreNamed (get shelf.old.names.places) (live_at shelf.old.region) }
    ensures fits { AreNamed (get shelf.new.names.places) (live_at shelf.new.region) }
{
    let draw = random.next_word();
    let group = random.next_word() % 2;
    let name = random.next_word() as usize % 128;
    match draw % 16 {
        0..=6 => put_one(alloc, shelf, drawn, group, random),
        7..=11 => kill_one(shelf, name),
        12..=13 => write_one(alloc, shelf, name, (draw >> 24) as u8),
        14 => {
            guard(shelf, group);
            Ok(())
        }
        _ => {
            unguard(shelf, 0);
            unguard(shelf, 1);
            Ok(())
        }
    }
}

fn put_one(
    alloc: Global,
    shelf: &mut Shelf,
    drawn: &mut Drawn,
    group: u32,
    random: &mut Lcg64Xsh32,
) -> Result<(), AllocError>
    requires fits { AreNamed (get shelf.old.names.places) (live_at shelf.old.region) }
    ensures fits { AreNamed (get shelf.new.names.places) (live_at shelf.new.region) }
{
    let size = size_of(random.next_word());
    let byte = (random.next_word() >> 24) as u8;
    if shelf.region.free_segments() > 1 {
        go_on(shelf, group);
    }
    if let Some(name) = place(alloc, shelf, group, size, byte)? {
        note(&mut shelf.held, name, Some((size, byte)))?;
        note_group(&mut drawn.groups, name, group)?;
    }
    Ok(())
}

/// One compaction, drawn at random: of all groups, of one, or a whole pass.
fn compact_some(shelf: &mut Shelf, drawn: &mut Drawn, random: &mut Lcg64Xsh32)
    requires fits { AreNamed (get shelf.old.names.places) (live_at shelf.old.region) }
    ensures fits { AreNamed (get shelf.new.names.places) (live_at shelf.new.region) }
{
    let answer = match random.next_word() % 4 {
        0 => compact(shelf),
        1 => compact_group(shelf, 0),
        2 => compact_group(shelf, 1),
        _ => compact_all(shelf),
    };
    match answer {
        Some(Compacted::Freed) => drawn.freed = drawn.freed.saturating_add(1),
        Some(Compacted::Guarded) => drawn.guarded = drawn.guarded.saturating_add(1),
        _ => {}
    }
}

/// The least closed segment of a group that has a guard.
fn guarded_segment(region: &Region) -> Option<u32> {
    for segment in 0..region.most() {
        if region.is_closed(segment)
            && let Some(group) = region.group_of(segment)
            && region.guards(group) > 0
        {
            return Some(segment);
        }
    }
    None
}

/// Whether a compaction leaves the bytes of a segment under a guard, and each name what it holds and where it belongs.
fn compacts_well(shelf: &mut Shelf, drawn: &mut Drawn, random: &mut Lcg64Xsh32) -> bool
    requires fits { AreNamed (get shelf.old.names.places) (live_at shelf.old.region) }
    ensures fits { AreNamed (get shelf.new.names.places) (live_at shelf.new.region) }
{
    shelf.kept.clear();
    let guarded = guarded_segment(&shelf.region);
    if let Some(segment) = guarded {
        keep(shelf, segment);
    }
    compact_some(shelf, drawn, random);
    if let Some(segment) = guarded
        && !is_kept(shelf, segment, 0)
    {
        return false;
    }
    are_held(shelf) && are_grouped(shelf, drawn.groups.as_slice())
}

/// Whether each compaction goes well in ten thousand steps.
fn goes_well(
    alloc: Global,
    shelf: &mut Shelf,
    drawn: &mut Drawn,
    random: &mut Lcg64Xsh32,
) -> Result<bool, AllocError>
    requires fits { AreNamed (get shelf.old.names.places) (live_at shelf.old.region) }
    ensures fits { AreNamed (get shelf.new.names.places) (live_at shelf.new.region) }
{
    for _ in 0..10_000 {
        if random.next_word() % 64 > 0 {
            one_call(alloc, shelf, drawn, random)?;
            continue;
        }
        if !compacts_well(shelf, drawn, random) {
            return Ok(false);
        }
    }
    Ok(true)
}

/// The segments with which two groups begin, whether all goes well then, how many segments were freed, and how often a guard
/// stood in the way.
fn drawn_steps(alloc: Global) -> Result<([Option<u32>; 2], bool, u32, u32), AllocError> {
    let mut shelf = new_shelf(alloc, 2)?;
    let mut random = Lcg64Xsh32::new(7, 1);
    let active = [go_on(&mut shelf, 0), go_on(&mut shelf, 1)];
    let mut drawn = Drawn {
        groups: Vec::new(alloc),
        freed: 0,
        guarded: 0,
    };
    let well = goes_well(alloc, &mut shelf, &mut drawn, &mut random);
    let (freed, guarded) = (drawn.freed, drawn.guarded);
    drop(drawn);
    drop(shelf);
    Ok((active, well?, freed, guarded))
}

#[test]
fn each_name_keeps_its_content_and_its_group_through_ten_thousand_steps(
    rt: HostRuntime,
) -> Result<(), Fail> {
    let (active, well, freed, guarded) = drawn_steps(rt.alloc())?;
    assert_eq!(rt; active, [Some(0), Some(1)]);
    assert_eq!(rt; (well, freed > 10, guarded > 10), (true, true, true));
    Ok(())
}
