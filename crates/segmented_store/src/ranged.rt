//! A store and the range of which all its segments are.
ghost use Rattle.std.specs.Prelude.{◌≡◌, ◌/◌, ◌*◌, ◌<◌, ◌≤◌, length, replicate, None, IfOk};
ghost use Rattle.layout.specs.Sizes.{segment_pages, ArePages};
ghost use Rattle.layout.specs.Sizes as sizes;
ghost use Rattle.regions.specs.Segments.{idle};
ghost use Rattle.regions.specs.Shapes.{shape, guards_of, held_count};
ghost use Rattle.place_lemmas.specs.Ranges.{HoldsFirst};

use crate::segmented::Segmented;
use layout::{SEGMENT, SEGMENT_PAGES};
use raw_range::Range;
use std::alloc::{AllocError, Global};
use std::marker::Model;

/// A store whose segments are all those of a range, and the range. Contracts see the store and the pages of the range. One that is
/// dropped leaks these pages: only [`Ranged::close`] frees them.
#[derive(Drop)]
pub struct Ranged<S: Segmented> {
    pub store: S,
    pub range: Range,
    pub pages: u32,
}

impl<S: Segmented> Model for Ranged<S> {
    ghost use Rattle.segmented_store.specs.Ranged.{InRange, IsInRange};

    ghost Value = { InRange S };

    ghost view = { λ r. record { store = r.store; pages = r.pages } };

    ghost invariant = { λ r. IsInRange S.region r.store r.range r.pages };
}

impl<S: Segmented> Ranged<S> {
    /// A store without segments comes to those of a new range of so many pages.
    ///
    /// # Errors
    /// `AllocError` where memory is not found.
    pub fn open(alloc: Global, store: S, pages: u32) -> Result<Ranged<S>, AllocError>
    where
        S: Drop,
        requires pages { ArePages pages }
        requires none { S.region store ≡ record {
          most = pages / segment_pages;
          groups = replicate 1 idle;
          segments = replicate (pages / segment_pages) None;
        } }
        ensures pages { IfOk result (λ r. r.pages ≡ pages) }
        ensures content { IfOk result (λ r. S.content r.store ≡ S.content store) }
        ensures held { IfOk result (λ r. held_count (S.region r.store) ≡ pages / segment_pages) }
    {
        let mut range = Range::new(alloc, 0, pages)?;
        let mut store = store;
        add_segments(&mut store, &mut range, pages / SEGMENT_PAGES);
        Ok(Ranged {
            store,
            range,
            pages,
        })
    }

    /// Every segment of the range is held, and none of them is guarded.
    pub fn facts(&self)
        ensures pages { ArePages self.now.pages }
        ensures held { held_count (S.region self.now.store) ≡ self.now.pages / segment_pages }
        ensures unguarded { guards_of (S.region self.now.store) 0 ≡ 0 }
    {
        // What always holds of the fields is known where one of them is used.
        let _ = &self.pages;
    }

    /// Drops the store, and frees the range.
    pub fn close(self)
    where
        S: Drop,
    {
        let Ranged {
            mut store,
            mut range,
            pages: _,
        } = self;
        while let Some(piece) = store.give_piece() {
            range.put(piece);
        }
        range.finish();
    }
}

// The first segments of a range become those of a store that has none.
fn add_segments<S: Segmented>(store: &mut S, range: &mut Range, segments: u32)
    requires none { HoldsFirst range.old (S.region store.old) 0 }
    requires most { (shape (S.region store.old)).most ≡ segments }
    requires few { segments ≤ sizes.most_segments }
    requires inside { segments * sizes.segment ≤ sizes.page * range.old.pages }
    requires long { length range.old.bytes ≡ sizes.page * range.old.pages }
    ensures added { HoldsFirst range.new (S.region store.new) segments }
    ensures content { S.content store.new ≡ S.content store.old }
    ensures guards { guards_of (S.region store.new) 0 ≡ guards_of (S.region store.old) 0 }
{
    for segment in 0..segments {
        store.take_piece(range.take(segment * SEGMENT, SEGMENT));
    }
}
