//! A caller of `regions` and `compaction`: the only object of a region, which is found wherever it is moved.
ghost use Rattle.std.specs.Prelude.{◌≡◌, None, IfSome};
ghost use Rattle.regions.specs.Contents.{standing_at, live_at};
ghost use Rattle.regions.specs.Objects.{IsSize};
ghost use Rattle.regions.specs.declared.place.Place.{Place};
ghost use Rattle.part_examples.specs.Bookmarks.{IsOnly};

use compaction::{Compacted, compact_one};
use regions::{Movers, Place, Region};

/// Where the only object of a region stands.
#[derive(Clone, Copy)]
pub struct Bookmark {
    pub place: Place,
}

impl Movers for Bookmark {
    ghost use Rattle.std.specs.Prelude.{[]};
    ghost use Rattle.part_examples.specs.Bookmarks.{IsOnly, place_named};

    ghost fits = { λ bookmark live. IsOnly bookmark.place live };

    ghost place_of = { λ bookmark n. place_named bookmark.place n };

    ghost bare = { λ i. i };

    ghost references = { λ i. [] };

    ghost Rest = { Unit {0} };

    ghost rest = { λ bookmark. tt };

    fn moved(&mut self, _store: &mut Region, _kind: u8, _from: Place, to: Place) {
        self.place = to;
    }
}

/// Places an object of so many bytes, its descriptor of 8 bytes included, in a region that has none. None where group 0 has no room.
pub fn place_only(region: &mut Region, size: u32) -> Option<Bookmark>
    requires size { IsSize size }
    requires empty { (p : Place) → standing_at region.old p ≡ None }
    ensures { IfSome result (λ bookmark. IsOnly bookmark.place (live_at region.new)) }
{
    if region.groups() == 0 {
        return None;
    }
    let Ok(place) = region.place(0, 1, size) else {
        return None;
    };
    Some(Bookmark { place })
}

/// Empties a segment if one is sparse, and answers whether it did. The object is the same, wherever it stands.
pub fn tidy(region: &mut Region, bookmark: &mut Bookmark) -> bool
    requires { IsOnly bookmark.old.place (live_at region.old) }
    ensures only { IsOnly bookmark.new.place (live_at region.new) }
    ensures same { live_at region.new bookmark.new.place ≡ live_at region.old bookmark.old.place }
{
    if region.free_segments() == 0 {
        return false;
    }
    compact_one(region, bookmark) == Compacted::Freed
}
