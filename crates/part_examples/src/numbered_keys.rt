//! A caller of `index_tree`: the number of a key is set, in an index that is opened over a range and closed.
ghost use Rattle.std.specs.Prelude.{◌≡◌, ◌≤◌, length, true, false};
ghost use Rattle.index_tree.specs.Indexes.{with_number};
ghost use Rattle.index_tree.specs.Shapes.{guards_of, held_count};
ghost use Rattle.index_tree.specs.ShardSizes.{greatest_key, ArePages};
ghost use Rattle.index_tree.specs.Store.{index_in};
ghost use Rattle.index_tree.specs.StoreSegments.{HoldsSegments};

use index_tree::{IndexTree, Ranged};
use layout::SEGMENT_PAGES;
use std::alloc::{AllocError, Global};

/// Sets the number of a key. False where the index has not the key and the segments have no room for it; then nothing changed.
pub fn set_number(tree: &mut IndexTree, key: &[u8], number: u32) -> bool
    requires some_key { 1 ≤ length key.now }
    requires short_key { length key.now ≤ greatest_key }
    requires held { 3 ≤ held_count tree.old.region }
    requires guards { guards_of tree.old.region 0 ≡ 0 }
    ensures set { result ≡ true → index_in tree.new ≡ with_number key.now number (index_in tree.old) }
    ensures unchanged { result ≡ false → tree.new ≡ tree.old }
    ensures segments { HoldsSegments tree.old.region tree.new.region }
{
    match tree.insert(key, number) {
        Ok(_) => true,
        Err(_) => false,
    }
}

/// The same in an index that has all the segments of a range, which are enough.
pub fn set_number_in(ranged: &mut Ranged<IndexTree>, key: &[u8], number: u32) -> bool
    requires some_key { 1 ≤ length key.now }
    requires short_key { length key.now ≤ greatest_key }
    ensures { result ≡ true → index_in ranged.new.store ≡ with_number key.now number (index_in ranged.old.store) }
{
    set_number(&mut ranged.store, key, number)
}

/// Opens an index of so many pages, sets the number of a key, and gives the memory back. The answer is whether it was set.
///
/// # Errors
/// Want of memory.
pub fn set_number_in_new(alloc: Global, pages: u32, key: &[u8]) -> Result<bool, AllocError>
    requires pages { ArePages pages }
    requires some_key { 1 ≤ length key.now }
    requires short_key { length key.now ≤ greatest_key }
{
    let tree = IndexTree::new(alloc, pages / SEGMENT_PAGES)?;
    // Last, since only `close` gives its memory back.
    let mut ranged = Ranged::open(alloc, tree, pages)?;
    let set = set_number_in(&mut ranged, key, 7);
    ranged.close();
    Ok(set)
}
