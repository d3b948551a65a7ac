//! A mover over a slab, whose keys are the names of objects.
ghost use Rattle.std.specs.Prelude.{◌≡◌, ℕ, ◌+◌, ◌≤◌, length, None, Some, IsSome, IfSome, option_map};
ghost use Rattle.slab.specs.Slab.{get, ContainsKey, Updates};
ghost use Rattle.byteorder.specs.Endian.{little_number};
ghost use Rattle.object_log.specs.Objects.{IsSize};
ghost use Rattle.regions.specs.Contents.{standing_at, live_at, with_bytes, ChangesAt};
ghost use Rattle.rows_tests.specs.Names.{AreNamed};

use byteorder::{ByteOrder, LittleEndian};
use regions::{Movers, Place, Region};
use slab::Slab;
use std::alloc::{AllocError, Global};

/// Where the object of each name stands.
#[derive(Drop)]
pub(crate) struct Names {
    pub(crate) places: Slab<Place>,
}

impl Movers for Names {
    ghost use Rattle.std.specs.Prelude.{List, []};
    ghost use Rattle.slab.specs.Slab.{get};
    ghost use Rattle.rows_tests.specs.Names.{AreNamed};

    ghost fits = { λ m live. AreNamed (get m.places) live };

    ghost place_of = { λ m n. get m.places n };

    ghost bare = { λ i. i };

    ghost references = { λ i. [] };

    ghost Rest = { Unit {0} };

    ghost rest = { λ m. tt };

    fn moved(&mut self, store: &mut Region, _kind: u8, from: Place, to: Place) {
        let name = LittleEndian::read_u64(store.bytes(from));
        set_place(&mut self.places, name as usize, to);
    }
}

fn set_place(places: &mut Slab<Place>, name: usize, place: Place)
    requires { ContainsKey places.old name }
    ensures { Updates places.old places.new name (Some place) }
{
    if let Some(held) = places.get_mut(name) {
        *held = place;
    }
}

impl Names {
    pub(crate) fn new(alloc: Global) -> Names
        ensures { (n : ℕ) → get result.places n ≡ None }
    {
        Names {
            places: Slab::new(alloc),
        }
    }
}

/// Where the object of the name stands.
pub(crate) fn place_of(names: &Names, name: usize) -> Option<Place>
    ensures { result ≡ get names.now.places name }
{
    names.places.get(name).copied()
}

/// Places an object of the size with this content in the group, and answers its name, which is written over the first eight
/// bytes of the content. None where the group has no active segment, or that has too little left.
pub(crate) fn put(
    region: &mut Region,
    names: &mut Names,
    group: u32,
    size: u32,
    content: &mut [u8],
) -> Result<Option<usize>, AllocError>
    requires size { IsSize size }
    requires content { length content.old + 8 ≡ size }
    requires fits { AreNamed (get names.old.places) (live_at region.old) }
    ensures fits { AreNamed (get names.new.places) (live_at region.new) }
{
    names.places.reserve(1)?;
    if group >= region.groups() {
        return Ok(None);
    }
    let Ok(place) = region.place(group, 1, size) else {
        return Ok(None);
    };
    let name = names.places.insert_reserved(place);
    label(content, name);
    write(region, place, content);
    Ok(Some(name))
}

fn label(content: &mut [u8], name: usize)
    requires { 8 ≤ length content.old }
    ensures { little_number 8 content.new ≡ name }
{
    LittleEndian::write_u64(content, name as u64);
}

fn write(region: &mut Region, place: Place, content: &[u8])
    requires live { IsSome (live_at region.old place) }
    requires long { IfSome (standing_at region.old place) (λ s. length s.item.content ≡ length content.now) }
    ensures { ChangesAt place (option_map (with_bytes content.now) (standing_at region.old place)) region.old region.new }
{
    region.bytes_mut(place).copy_from_slice(content);
}

/// Writes this content over that of the name but for the name itself, if it is as long.
pub(crate) fn overwrite(region: &mut Region, names: &Names, name: usize, content: &mut [u8])
    requires fits { AreNamed (get names.now.places) (live_at region.old) }
    ensures fits { AreNamed (get names.now.places) (live_at region.new) }
{
    let Some(place) = place_of(names, name) else {
        return;
    };
    if content.len() >= 8 && region.bytes(place).len() == content.len() {
        label(content, name);
        write(region, place, content);
    }
}

/// The object of the name dies.
pub(crate) fn kill(region: &mut Region, names: &mut Names, name: usize)
    requires fits { AreNamed (get names.old.places) (live_at region.old) }
    ensures fits { AreNamed (get names.new.places) (live_at region.new) }
{
    if let Some(place) = names.places.try_remove(name) {
        region.kill(place);
    }
}

/// The content of the name.
pub(crate) fn content<'a>(region: &'a Region, names: &Names, name: usize) -> Option<&'a [u8]>
    requires fits { AreNamed (get names.now.places) (live_at region.now) }
{
    let place = place_of(names, name)?;
    Some(region.bytes(place))
}
