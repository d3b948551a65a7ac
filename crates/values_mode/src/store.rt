//! A value store and its memory.
ghost use Rattle.std.specs.Prelude.{◌≡◌, ◌/◌, IfOk};
ghost use Rattle.layout.specs.Sizes.{segment_pages, ArePages};
ghost use Rattle.regions.specs.Shapes.{held_count};
ghost use Rattle.values_mode.specs.State.{IsEmpty};

use fragments::Fragments;
use layout::SEGMENT_PAGES;
use segmented_store::Ranged;
use std::alloc::{AllocError, Global};
use std::marker::Model;

/// How many names there are.
const NAMES: u32 = 1000;

/// A store of values of 1,000 names, whose segments are all of one range. Contracts see its pages and the values in its
/// segments.
#[derive(Drop)]
pub struct ValueStore {
    pub(crate) ranged: Ranged<Fragments>,
}

impl Model for ValueStore {
    ghost use Rattle.values_mode.specs.State.{OpenStore};
    ghost use Rattle.values_mode.specs.inside.Open.{IsOpen};

    ghost Value = { OpenStore };

    ghost view = { λ s. record { pages = s.ranged.pages; values = s.ranged.store } };

    ghost invariant = { λ s. IsOpen s.ranged.store };
}

impl ValueStore {
    /// Gives the memory back.
    pub fn close(self) {
        let ValueStore { ranged } = self;
        ranged.close();
    }
}

/// Opens a store without values on so many pages, which are a shard's, and takes all the memory that it needs.
///
/// # Errors
/// `AllocError` where memory is not found.
pub fn open_values(alloc: Global, pages: u32) -> Result<ValueStore, AllocError>
    requires pages { ArePages pages }
    ensures pages { IfOk result (λ store. store.pages ≡ pages) }
    ensures empty { IfOk result (λ store. IsEmpty store) }
    ensures held { IfOk result (λ store. held_count store.values.region ≡ pages / segment_pages) }
{
    let fragments = Fragments::new(alloc, NAMES, pages / SEGMENT_PAGES)?;
    // Last, since only `close` gives its memory back.
    let ranged = Ranged::open(alloc, fragments, pages)?;
    Ok(ValueStore { ranged })
}
