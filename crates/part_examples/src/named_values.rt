//! A caller of `fragments`: the value of a name is set, in a store that is opened over a range and closed.
ghost use Rattle.std.specs.Prelude.{◌≡◌, ◌<◌, ◌≤◌, length, true, false, slice_set, Some};
ghost use Rattle.fragments.specs.Shapes.{guards_of, held_count};
ghost use Rattle.fragments.specs.ShardSizes.{ArePages};
ghost use Rattle.fragments.specs.Store.{values_of};
ghost use Rattle.fragments.specs.StoreSegments.{HoldsSegments};

use fragments::{Fragments, Ranged};
use layout::SEGMENT_PAGES;
use std::alloc::{AllocError, Global};

/// How many names a store has.
const NAMES: u32 = 100;

/// Sets the value of a name. False where it is too long, or the segments have no room; then nothing changed.
pub fn set_value(store: &mut Fragments, name: u32, bytes: &[u8]) -> bool
    requires name { name < length store.old.firsts }
    requires held { 3 ≤ held_count store.old.region }
    requires guards { guards_of store.old.region 0 ≡ 0 }
    ensures set { result ≡ true → values_of store.new ≡ slice_set (values_of store.old) name (Some bytes.now) }
    ensures unchanged { result ≡ false → store.new ≡ store.old }
    ensures segments { HoldsSegments store.old.region store.new.region }
{
    match store.put(name, bytes) {
        Ok(()) => true,
        Err(_) => false,
    }
}

/// The same in a store that has all the segments of a range, which are enough.
pub fn set_value_in(ranged: &mut Ranged<Fragments>, name: u32, bytes: &[u8]) -> bool
    requires { name < length ranged.old.store.firsts }
    ensures { result ≡ true → values_of ranged.new.store ≡ slice_set (values_of ranged.old.store) name (Some bytes.now) }
{
    set_value(&mut ranged.store, name, bytes)
}

/// Opens a store of so many pages, sets a value, and gives the memory back. The answer is whether it was set.
///
/// # Errors
/// Want of memory.
pub fn set_value_in_new(alloc: Global, pages: u32, bytes: &[u8]) -> Result<bool, AllocError>
    requires { ArePages pages }
{
    let fragments = Fragments::new(alloc, NAMES, pages / SEGMENT_PAGES)?;
    // Last, since only `close` gives its memory back.
    let mut ranged = Ranged::open(alloc, fragments, pages)?;
    let set = set_value_in(&mut ranged, 7, bytes);
    ranged.close();
    Ok(set)
}
