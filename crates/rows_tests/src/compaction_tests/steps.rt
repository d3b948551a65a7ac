//! Calls of a shelf, and what they answer.
ghost use Rattle.slab.specs.Slab.{get};
ghost use Rattle.regions.specs.Contents.{live_at};
ghost use Rattle.rows_tests.specs.Names.{AreNamed};

use super::names::place_of;
use super::{
    Shelf, are_held, compact, compact_all, compact_group, fill, go_on, guard, has_group, is_held,
    is_kept, keep, kill_each, note, place_each, unguard,
};
use compaction::Compacted;
use regions::Place;
use std::alloc::{AllocError, Global};

#[derive(Clone, Copy)]
pub(super) enum Step<'a> {
    /// Ten of the greatest objects with this byte in the next segment, which is this one.
    Fill(u8, u32),
    /// The same of a group, which comes first here and below.
    FillIn(u32, u8, u32),
    /// Another segment is begun where the active one is full, and this one is active then.
    GoOn(u32),
    GoOnIn(u32, u32),
    /// Objects of each size, of which there are so many.
    PlaceEach(usize),
    Kill(&'a [usize]),
    Compact(Option<Compacted>),
    CompactIn(u32, Option<Compacted>),
    CompactAll(Option<Compacted>),
    Guard,
    Unguard,
    GuardIn(u32),
    UnguardIn(u32),
    /// The bytes of a closed segment are kept.
    Keep(u32),
    /// A closed segment has the bytes that were kept first, second and so on.
    IsKept(u32, usize),
    /// The segment of a name's object, and where it begins there.
    PlaceOf(usize, Option<(u32, u32)>),
    /// A name's object has the size and the byte.
    Holds(usize, u32, u8),
    /// Each name holds what it should.
    AreHeld,
    /// How many segments are free.
    Free(u32),
    /// The bytes that the active segment has left.
    Left(u32),
    LeftIn(u32, u32),
    IsClosed(u32, bool),
}

fn fills(alloc: Global, shelf: &mut Shelf, group: u32, byte: u8, active: u32) -> bool
    requires fits { AreNamed (get shelf.old.names.places) (live_at shelf.old.region) }
    ensures fits { AreNamed (get shelf.new.names.places) (live_at shelf.new.region) }
{
    match fill(alloc, shelf, group, byte) {
        Ok(answer) => answer == Some(active),
        Err(_) => false,
    }
}

fn places_each(alloc: Global, shelf: &mut Shelf, count: usize) -> bool
    requires fits { AreNamed (get shelf.old.names.places) (live_at shelf.old.region) }
    ensures fits { AreNamed (get shelf.new.names.places) (live_at shelf.new.region) }
{
    place_each(alloc, shelf).is_ok() && shelf.held.len() == count
}

/// The objects of the names die, and each name should hold nothing.
fn kills(shelf: &mut Shelf, names: &[usize]) -> bool
    requires fits { AreNamed (get shelf.old.names.places) (live_at shelf.old.region) }
    ensures fits { AreNamed (get shelf.new.names.places) (live_at shelf.new.region) }
{
    kill_each(shelf, names);
    forget_each(&mut shelf.held, names).is_ok()
}

fn forget_each(held: &mut Vec<Option<(u32, u8)>>, names: &[usize]) -> Result<(), AllocError> {
    for name in names {
        note(held, *name, None)?;
    }
    Ok(())
}

fn guards(shelf: &mut Shelf, group: u32) -> bool
    requires fits { AreNamed (get shelf.old.names.places) (live_at shelf.old.region) }
    ensures fits { AreNamed (get shelf.new.names.places) (live_at shelf.new.region) }
{
    guard(shelf, group);
    true
}

fn unguards(shelf: &mut Shelf, group: u32) -> bool
    requires fits { AreNamed (get shelf.old.names.places) (live_at shelf.old.region) }
    ensures fits { AreNamed (get shelf.new.names.places) (live_at shelf.new.region) }
{
    unguard(shelf, group);
    true
}

fn stands_at(shelf: &Shelf, name: usize, place: Option<(u32, u32)>) -> bool {
    match place_of(&shelf.names, name) {
        Some(found) => place == Some((found.segment, found.at)),
        None => place.is_none(),
    }
}

fn answers(alloc: Global, shelf: &mut Shelf, step: &Step<'_>) -> bool
    requires fits { AreNamed (get shelf.old.names.places) (live_at shelf.old.region) }
    ensures fits { AreNamed (get shelf.new.names.places) (live_at shelf.new.region) }
{
    match step {
        Step::Fill(byte, active) => fills(alloc, shelf, 0, *byte, *active),
        Step::GoOn(active) => go_on(shelf, 0) == Some(*active),
        Step::PlaceEach(count) => places_each(alloc, shelf, *count),
        Step::Kill(names) => kills(shelf, names),
        Step::Compact(answer) => compact(shelf) == *answer,
        Step::CompactAll(answer) => compact_all(shelf) == *answer,
        Step::Guard => guards(shelf, 0),
        Step::Unguard => unguards(shelf, 0),
        Step::Keep(segment) => keep(shelf, *segment),
        _ => answers_in(alloc, shelf, step),
    }
}

/// The same of the steps of a group.
fn answers_in(alloc: Global, shelf: &mut Shelf, step: &Step<'_>) -> bool
    requires fits { AreNamed (get shelf.old.names.places) (live_at shelf.old.region) }
    ensures fits { AreNamed (get shelf.new.names.places) (live_at shelf.new.region) }
{
    match step {
        Step::FillIn(group, byte, active) => fills(alloc, shelf, *group, *byte, *active),
        Step::GoOnIn(group, active) => go_on(shelf, *group) == Some(*active),
        Step::CompactIn(group, answer) => compact_group(shelf, *group) == *answer,
        Step::GuardIn(group) => guards(shelf, *group),
        Step::UnguardIn(group) => unguards(shelf, *group),
        _ => stands(shelf, step),
    }
}

fn is_left(shelf: &Shelf, group: u32, left: u32) -> bool {
    has_group(shelf, group) && shelf.region.left(group) == left
}

fn stands(shelf: &Shelf, step: &Step<'_>) -> bool
    requires fits { AreNamed (get shelf.now.names.places) (live_at shelf.now.region) }
{
    match step {
        Step::IsKept(segment, order) => is_kept(shelf, *segment, *order),
        Step::PlaceOf(name, place) => stands_at(shelf, *name, *place),
        Step::Holds(name, size, byte) => is_held(shelf, *name, Some((*size, *byte))),
        Step::AreHeld => are_held(shelf),
        Step::Free(segments) => shelf.region.free_segments() == *segments,
        Step::Left(left) => is_left(shelf, 0, *left),
        Step::LeftIn(group, left) => is_left(shelf, *group, *left),
        Step::IsClosed(segment, answer) => shelf.region.is_closed(*segment) == *answer,
        _ => false,
    }
}

/// Which step is the first that answers otherwise.
pub(super) fn first_wrong(alloc: Global, shelf: &mut Shelf, steps: &[Step<'_>]) -> Option<usize>
    requires fits { AreNamed (get shelf.old.names.places) (live_at shelf.old.region) }
    ensures fits { AreNamed (get shelf.new.names.places) (live_at shelf.new.region) }
{
    for (order, step) in steps.iter().enumerate() {
        if !answers(alloc, shelf, step) {
            return Some(order);
        }
    }
    None
}
