//! The law of whoever keeps places of objects that move.
ghost use Rattle.std.specs.Prelude.{◌≡◌, ◌≢◌, ℕ, List, Option, Some, map, option_map};
ghost use Rattle.regions.specs.Contents.{Item, live_at};
ghost use Rattle.regions.specs.Stores.{Live, Bare, LeavesTheRest, StandsFor, SameBut, store_of, less, renamed};
ghost use Rattle.regions.specs.declared.place.Place.{Place};

use crate::place::Place;
use crate::region::Region;

/// Whoever keeps places of a region's objects, and mends them when an object is moved: what ScyllaDB calls a migrator.
///
/// A mover tells a map from names to places, and which live objects it fits. Where it fits the live objects of a region,
/// the two stand for a store, in which nothing has a place. Items are compared without their reference fields, which the
/// mover names by `bare` and reads by `references`; their group and kind are no such field. What else it keeps, `rest` tells,
/// and no move changes it. An object is moved within its group: the item at both places is one.
///
/// # Examples
/// ```
/// impl Movers for Bookmark {
///     ghost fits = { λ bookmark live. IsOnly bookmark.place live };
///     ghost place_of = { λ bookmark n. place_named bookmark.place n };
///     ghost bare = { λ i. i };
///     ghost references = { λ i. [] };
///     ghost Rest = { Unit {0} };
///     ghost rest = { λ bookmark. tt };
///
///     fn moved(&mut self, _store: &mut Region, _kind: u8, _from: Place, to: Place) {
///         self.place = to;
///     }
/// }
/// ```
pub trait Movers {
    ghost fits: { Self → Live → Type 0 };

    ghost place_of: { Self → ℕ → Option Place };

    ghost bare: { Bare };

    ghost references: { Item → List Place };

    ghost Rest: { Type 0 };

    ghost rest: { Self → Self.Rest };

    /// The live object at `from` was copied to `to`, where it is live too. Each reference to `from`, in the mover's own
    /// tables and in the live objects' reference fields, is `to` from now on.
    fn moved(&mut self, store: &mut Region, kind: u8, from: Place, to: Place)
        requires copied { (i : Item) × (i.kind ≡ kind) × (live_at store.old from ≡ Some i) × (live_at store.old to ≡ Some i) }
        requires apart { from ≢ to }
        requires fits { fits self.old (less to (live_at store.old)) }

        // Its names stand for a store, and neither group nor kind is a reference field.
        ensures bare { LeavesTheRest bare }
        ensures stands { (m : Self) (live : Live) → fits m live → StandsFor bare (store_of bare (place_of m) live) (place_of m) live }

        // The new place stands for the old one, in its tables and in reference fields.
        ensures names { (n : ℕ) → place_of self.new n ≡ option_map (renamed from to) (place_of self.old n) }
        ensures fits { fits self.new (less from (live_at store.new)) }
        ensures references { (p : Place)
            → option_map references (less from (live_at store.new) p)
            ≡ option_map (λ i. map (renamed from to) (references i)) (less from (live_at store.old) p) }

        // Nothing else changes.
        ensures store { SameBut bare store.old store.new }
        ensures rest { Self.rest self.new ≡ Self.rest self.old };
}
