//! Each name keeps its content through calls that are drawn at random.
ghost use Rattle.slab.specs.Slab.{get};
ghost use Rattle.object_log.specs.Objects.{IsSize};
ghost use Rattle.regions.specs.Contents.{live_at};
ghost use Rattle.rows_tests.specs.Names.{AreNamed};

use super::names::{kill, overwrite};
use super::{Shelf, are_held, compact_all, go_on, new_shelf, note, place};
use compaction::Compacted;
use rand_core::utils::NextWord;
use rand_pcg::Lcg64Xsh32;
use std::alloc::{AllocError, Global};
use std::test::Fail;

/// A size of an object.
pub(super) fn size_of(draw: u32) -> u32
    ensures { IsSize result }
{
    16 + draw % 1536 * 8
}

/// One call, drawn at random: an object is placed, killed or written.
fn one_call(alloc: Global, shelf: &mut Shelf, random: &mut Lcg64Xsh32) -> Result<(), AllocError>
    requires fits { AreNamed (get shelf.old.names.places) (live_at shelf.old.region) }
    ensures fits { AreNamed (get shelf.new.names.places) (live_at shelf.new.region) }
{
    let draw = random.next_word();
    let byte = (draw >> 24) as u8;
    let name = random.next_word() as usize % 32;
    match draw % 8 {
        0..=2 => put_one(alloc, shelf, size_of(random.next_word()), byte),
        3..=5 => kill_one(shelf, name),
        _ => write_one(alloc, shelf, name, byte),
    }
}

/// Places an object of the size and the byte in group 0.
fn put_one(alloc: Global, shelf: &mut Shelf, size: u32, byte: u8) -> Result<(), AllocError>
    requires size { IsSize size }
    requires fits { AreNamed (get shelf.old.names.places) (live_at shelf.old.region) }
    ensures fits { AreNamed (get shelf.new.names.places) (live_at shelf.new.region) }
{
    if shelf.region.free_segments() > 1 {
        go_on(shelf, 0);
    }
    match place(alloc, shelf, 0, size, byte)? {
        Some(name) => note(&mut shelf.held, name, Some((size, byte))),
        None => Ok(()),
    }
}

/// The object of the name dies.
pub(super) fn kill_one(shelf: &mut Shelf, name: usize) -> Result<(), AllocError>
    requires fits { AreNamed (get shelf.old.names.places) (live_at shelf.old.region) }
    ensures fits { AreNamed (get shelf.new.names.places) (live_at shelf.new.region) }
{
    kill(&mut shelf.region, &mut shelf.names, name);
    note(&mut shelf.held, name, None)
}

/// Writes the byte over the content of the name.
pub(super) fn write_one(
    alloc: Global,
    shelf: &mut Shelf,
    name: usize,
    byte: u8,
) -> Result<(), AllocError>
    requires fits { AreNamed (get shelf.old.names.places) (live_at shelf.old.region) }
    ensures fits { AreNamed (get shelf.new.names.places) (live_at shelf.new.region) }
{
    if let Some(size) = size_held(&shelf.held, name) {
        let mut content = Vec::from_elem(alloc, byte, size.saturating_sub(8) as usize)?;
        overwrite(
            &mut shelf.region,
            &shelf.names,
            name,
            content.as_mut_slice(),
        );
        note(&mut shelf.held, name, Some((size, byte)))?;
    }
    Ok(())
}

fn size_held(held: &[Option<(u32, u8)>], name: usize) -> Option<u32> {
    let (size, _byte) = (*held.get(name)?)?;
    Some(size)
}

/// How many segments are freed in a thousand calls. None where a name does not hold what it should, before a pass or
/// behind it.
fn freed_in_a_thousand_calls(
    alloc: Global,
    shelf: &mut Shelf,
    random: &mut Lcg64Xsh32,
) -> Result<Option<u32>, AllocError>
    requires fits { AreNamed (get shelf.old.names.places) (live_at shelf.old.region) }
    ensures fits { AreNamed (get shelf.new.names.places) (live_at shelf.new.region) }
{
    let mut freed = 0u32;
    for _ in 0..1000 {
        let Some(more) = freed_in_a_call(alloc, shelf, random)? else {
            return Ok(None);
        };
        freed = freed.saturating_add(more);
    }
    Ok(Some(freed))
}

/// The same of one call, of which one in 32 is a pass.
fn freed_in_a_call(
    alloc: Global,
    shelf: &mut Shelf,
    random: &mut Lcg64Xsh32,
) -> Result<Option<u32>, AllocError>
    requires fits { AreNamed (get shelf.old.names.places) (live_at shelf.old.region) }
    ensures fits { AreNamed (get shelf.new.names.places) (live_at shelf.new.region) }
{
    if random.next_word() % 32 > 0 {
        one_call(alloc, shelf, random)?;
        return Ok(Some(0));
    }
    Ok(freed_in_a_pass(shelf))
}

fn freed_in_a_pass(shelf: &mut Shelf) -> Option<u32>
    requires fits { AreNamed (get shelf.old.names.places) (live_at shelf.old.region) }
    ensures fits { AreNamed (get shelf.new.names.places) (live_at shelf.new.region) }
{
    let before = are_held(shelf);
    let freed = compact_all(shelf) == Some(Compacted::Freed);
    if before && are_held(shelf) {
        Some(u32::from(freed))
    } else {
        None
    }
}

/// The segment with which a group begins, and how many are freed then.
fn drawn_calls(alloc: Global) -> Result<(Option<u32>, Option<u32>), AllocError> {
    let mut shelf = new_shelf(alloc, 1)?;
    let mut random = Lcg64Xsh32::new(7, 1);
    let active = go_on(&mut shelf, 0);
    let freed = freed_in_a_thousand_calls(alloc, &mut shelf, &mut random);
    drop(shelf);
    Ok((active, freed?))
}

#[test]
fn each_name_keeps_its_content_through_a_thousand_calls(rt: HostRuntime) -> Result<(), Fail> {
    let (active, freed) = drawn_calls(rt.alloc())?;
    assert_eq!(rt; (active, freed > Some(10)), (Some(0), true));
    Ok(())
}
