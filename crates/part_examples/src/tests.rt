// Each example is run once.
ghost use Rattle.std.specs.Prelude.{◌≡◌, ℕ, ◌<◌, None, length, IfOk};
ghost use Rattle.key_index.specs.Index.{IsIndexOf};
ghost use Rattle.key_table.specs.Lazy.{IsLazyOf};
ghost use Rattle.regions.specs.Contents.{standing_at, Keeps};
ghost use Rattle.regions.specs.declared.place.Place.{Place};

mod caches;
mod pieces;

use crate::{
    Shelf, close_idle, enter, first_from, has_object, keep_row, lend_from_new, lend_piece,
    make_room, place_only, put_in_order, row_of, set_number_in_new, set_value_in_new, store_in_new,
    take_back, tidy, write_in_new,
};
use caches::new_cache;
use foreign_list::{Foreign, Piece, Range};
use key_index::{Key, KeyIndex, Keys};
use key_table::LazyIndex;
use layout::{FEWEST_PAGES, GREATEST_OBJECT};
use outside::MemorySink;
use pieces::add_segments;
use regions::Region;
use std::alloc::{AllocError, Global};
use std::test::Fail;

const ROWS: u32 = 3;

const OWNER: u32 = 3;

// The keys of three rows: the higher the row's number, the lower its key.
fn shelf_of(alloc: Global) -> Result<Shelf, AllocError>
    ensures { IfOk result (λ shelf. length shelf.keys.items ≡ 3) }
{
    let mut keys = Vec::new(alloc);
    for row in 0..ROWS {
        keys.push(Vec::from_elem(alloc, b'z'.wrapping_sub(row as u8), 2)?)?;
    }
    Ok(Shelf { keys })
}

fn put_all<K: Keys>(index: &mut KeyIndex, keys: &K)
    requires index { IsIndexOf (K.has_row keys.now) (K.key_of keys.now) index.old }
    requires readable { (row : ℕ) → row < 3 → K.has_row keys.now row }
    ensures { IsIndexOf (K.has_row keys.now) (K.key_of keys.now) index.new }
{
    for row in 0..ROWS {
        put_in_order(index, keys, row);
    }
}

// The rows that come first from two keys on.
fn first_rows(alloc: Global) -> Result<[Option<u32>; 2], AllocError> {
    let shelf = shelf_of(alloc)?;
    let mut index = KeyIndex::new(alloc, ROWS)?;
    put_all(&mut index, &shelf);
    let least = Key {
        table: 0,
        bytes: b"",
    };
    let last = Key {
        table: 0,
        bytes: b"yz",
    };
    Ok([
        first_from(&index, &shelf, &least),
        first_from(&index, &shelf, &last),
    ])
}

#[test]
fn rows_are_found_in_order(rt: HostRuntime) -> Result<(), Fail> {
    assert_eq!(rt; first_rows(rt.alloc())?, [Some(2), Some(0)]);
    Ok(())
}

fn enter_all<K: Keys>(index: &mut LazyIndex, keys: &K)
    requires lazy { IsLazyOf (K.has_row keys.now) (K.key_of keys.now) index.old }
    requires readable { (row : ℕ) → row < 3 → K.has_row keys.now row }
    ensures { IsLazyOf (K.has_row keys.now) (K.key_of keys.now) index.new }
{
    for row in 0..ROWS {
        enter(index, keys, row);
    }
}

// The rows of two keys, of which one is no row's.
fn rows_of_keys(alloc: Global) -> Result<[Option<u32>; 2], AllocError> {
    let shelf = shelf_of(alloc)?;
    let mut index = LazyIndex::new(alloc, ROWS)?;
    enter_all(&mut index, &shelf);
    let held = Key {
        table: 0,
        bytes: b"yy",
    };
    let other = Key {
        table: 0,
        bytes: b"y",
    };
    Ok([
        row_of(&index, &shelf, &held),
        row_of(&index, &shelf, &other),
    ])
}

#[test]
fn rows_are_found_by_their_keys(rt: HostRuntime) -> Result<(), Fail> {
    assert_eq!(rt; rows_of_keys(rt.alloc())?, [Some(1), None]);
    Ok(())
}

#[test]
fn an_object_is_borrowed(rt: HostRuntime) -> Result<(), Fail> {
    let small = has_object(rt.alloc(), FEWEST_PAGES, 100)?;
    let large = has_object(rt.alloc(), FEWEST_PAGES, 16_385)?;
    assert_eq!(rt; (small, large), (true, false));
    Ok(())
}

#[test]
fn a_block_is_lent_and_comes_home(rt: HostRuntime) -> Result<(), Fail> {
    assert!(rt; lend_from_new(rt.alloc(), 3, FEWEST_PAGES, 100)?);
    Ok(())
}

// A piece of a range of its own.
fn piece_of(alloc: Global, owner: u32) -> Result<Piece, AllocError>
    ensures { IfOk result (λ piece. piece.owner ≡ owner) }
{
    let mut range = Range::new(alloc, owner, 1)?;
    Ok(range.take(16, 64))
}

// How many pieces came home, of one that was lent, and whether the list ended.
fn lent_and_home(alloc: Global) -> Result<(usize, bool), AllocError> {
    let (list, mut seat) = Foreign::new(alloc, OWNER)?;
    let Ok(block) = lend_piece(&list, &mut seat, piece_of(alloc, OWNER)?) else {
        return Ok((0, false));
    };
    let released = block.release().is_ok();
    let mut home = Vec::new(alloc);
    take_back(&list, &mut seat, &mut home)?;
    let ended = close_idle(list, seat).is_ok();
    Ok((home.len(), released && ended))
}

#[test]
fn a_piece_is_lent_and_comes_home(rt: HostRuntime) -> Result<(), Fail> {
    assert_eq!(rt; lent_and_home(rt.alloc())?, (1, true));
    Ok(())
}

fn begin(region: &mut Region, group: u32)
    ensures { Keeps region.old region.new }
{
    if group >= region.groups() {
        return;
    }
    if region.free_segments() > 0 && region.left(group) < GREATEST_OBJECT {
        region.next_active(group);
    }
}

// A region in which nothing stands, with an active segment and free ones.
fn new_region(alloc: Global) -> Result<Region, AllocError>
    ensures { IfOk result (λ region. (p : Place) → standing_at region p ≡ None) }
{
    let mut region = Region::new(alloc, 5, 1)?;
    add_segments(alloc, &mut region, 4)?;
    begin(&mut region, 0);
    Ok(region)
}

// Whether a segment was emptied, where the only object stands in the active one. None where there was no room for it.
fn tidied(alloc: Global) -> Result<Option<bool>, AllocError> {
    let mut region = new_region(alloc)?;
    let Some(mut bookmark) = place_only(&mut region, 16) else {
        return Ok(None);
    };
    Ok(Some(tidy(&mut region, &mut bookmark)))
}

#[test]
fn an_active_segment_is_not_emptied(rt: HostRuntime) -> Result<(), Fail> {
    assert_eq!(rt; tidied(rt.alloc())?, Some(false));
    Ok(())
}

// The group in which there is room, and whether a row was stored there.
fn kept(alloc: Global) -> Result<(Option<u32>, bool), AllocError> {
    let mut cache = new_cache(alloc, 1000, 3)?;
    let group = make_room(&mut cache);
    Ok((group, keep_row(&mut cache, 0, b"apple", b"red")))
}

#[test]
fn a_row_is_kept(rt: HostRuntime) -> Result<(), Fail> {
    assert_eq!(rt; kept(rt.alloc())?, (Some(0), true));
    Ok(())
}

#[test]
fn a_row_is_stored_in_a_shard(rt: HostRuntime) -> Result<(), Fail> {
    assert!(rt; store_in_new(rt.alloc(), FEWEST_PAGES, b"apple", b"red")?);
    Ok(())
}

#[test]
fn a_value_is_set(rt: HostRuntime) -> Result<(), Fail> {
    assert!(rt; set_value_in_new(rt.alloc(), FEWEST_PAGES, b"red")?);
    Ok(())
}

#[test]
fn a_key_has_a_number(rt: HostRuntime) -> Result<(), Fail> {
    assert!(rt; set_number_in_new(rt.alloc(), FEWEST_PAGES, b"apple")?);
    Ok(())
}

const LINE: &[u8] = b"put apple red\n";

#[test]
fn a_put_is_written(rt: HostRuntime) -> Result<(), Fail> {
    let mut sink = MemorySink::new(rt.alloc(), 100)?;
    let written = write_in_new(rt.alloc(), FEWEST_PAGES, b"apple", b"red", &mut sink)?;
    assert_eq!(rt; (written, sink.bytes()), (true, LINE));
    Ok(())
}
