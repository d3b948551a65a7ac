//! An index and the memory in which it stands.
ghost use Rattle.std.specs.Prelude.{◌≡◌, ◌/◌, IfOk};
ghost use Rattle.layout.specs.Sizes.{segment_pages, ArePages};
ghost use Rattle.regions.specs.Shapes.{held_count};
ghost use Rattle.index_mode.specs.Stores.{IsEmpty};

use index_tree::IndexTree;
use layout::{KEY_ROOM, MOST_KEYS, SEGMENT_PAGES};
use segmented_store::Ranged;
use std::alloc::{AllocError, Global};
use std::marker::Model;

/// An index with its memory. Contracts see its pages and the index in its segments.
#[derive(Drop)]
pub struct IndexStore {
    pub(crate) ranged: Ranged<IndexTree>,
    // where the keys of a scan are written
    pub(crate) keys: Vec<u8>,
}

impl Model for IndexStore {
    ghost use Rattle.std.specs.Prelude.{◌≡◌, ◌*◌, length};
    ghost use Rattle.layout.specs.Sizes.{key_room, most_keys};
    ghost use Rattle.index_mode.specs.Stores.{StoreState};

    ghost Value = { StoreState };

    ghost view = { λ s. record { pages = s.ranged.pages; index = s.ranged.store } };

    ghost invariant = { λ s. length s.keys.items ≡ key_room * most_keys };
}

impl IndexStore {
    /// Gives the memory back.
    pub fn close(self) {
        let IndexStore {
            ranged,
            keys: _keys,
        } = self;
        ranged.close();
    }
}

/// Opens an index without keys on so many pages of memory.
///
/// # Errors
/// `AllocError` where memory is not found.
pub fn open_index(alloc: Global, pages: u32) -> Result<IndexStore, AllocError>
    requires { ArePages pages }
    ensures pages { IfOk result (λ store. store.pages ≡ pages) }
    ensures empty { IfOk result (λ store. IsEmpty store) }
    ensures held { IfOk result (λ store. held_count store.index.region ≡ pages / segment_pages) }
{
    let tree = IndexTree::new(alloc, pages / SEGMENT_PAGES)?;
    let keys = vec![in alloc; 0; (KEY_ROOM * MOST_KEYS) as usize]?;
    // Last, since only `close` gives its memory back.
    let ranged = Ranged::open(alloc, tree, pages)?;
    Ok(IndexStore { ranged, keys })
}
