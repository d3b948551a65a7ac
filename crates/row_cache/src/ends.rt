//! The chain of the rows: its ends, and how a row comes into it and goes out of it.
ghost use Rattle.std.specs.Prelude.{◌≡◌, ◌≢◌, List, ◌∷◌, ◌++◌, Some, None, IfSome, MatchOption};
ghost use Rattle.std.specs.List.{last_or};
ghost use Rattle.regions.specs.Contents.{live_at};
ghost use Rattle.regions.specs.Stores.{less};
ghost use Rattle.regions.specs.Places as place_links;
ghost use Rattle.row_cache.specs.Links as links;
ghost use Rattle.row_cache.specs.Rows.{AreRelinked};
ghost use Rattle.row_cache.specs.inside.Tables.{HoldsARow};
ghost use Rattle.row_cache.specs.inside.Chained as chained;

use crate::links::{link_both, link_newer, link_older, neighbours_of};
use regions::{Place, Region, link_to};
use row_bytes::{Links, NO_LINK};

// The places of the row that was used last, and of the one that was used longest ago. None where there is no row.
#[derive(Clone, Copy)]
pub(crate) struct Ends {
    pub(crate) front: Option<Place>,
    pub(crate) last: Option<Place>,
}

impl Ends {
    // Takes the row at a place out.
    pub(crate) fn unlink(&mut self, region: &mut Region, at: Place)
        requires { chained.IsAmong at (live_at region.old) self.old }
        ensures chain { (xs ys : List Place) → chained.IsChain (live_at region.old) self.old (xs ++ at ∷ ys)
            → chained.IsChain (live_at region.new) self.new (xs ++ ys) }
        ensures same { AreRelinked region.old region.new }
    {
        let beside = neighbours_of(region, at);
        self.join(region, beside.newer, beside.older);
    }

    // The row at a place, which is not in the chain, comes in front.
    pub(crate) fn push_front(&mut self, region: &mut Region, at: Place)
        requires row { HoldsARow (live_at region.old at) }
        requires room { place_links.HasRoom at }
        requires chain { chained.IsBeside at (live_at region.old) self.old }
        ensures chain { (ps : List Place) → chained.IsChain (live_at region.old) self.old ps → links.Lacks at ps
            → chained.IsChain (live_at region.new) self.new (at ∷ ps) }
        ensures same { AreRelinked region.old region.new }
    {
        let front = self.front;
        let to = Links {
            newer: NO_LINK,
            older: link_to(front),
        };
        link_both(region, at, to);
        self.set_before(region, Some(at), front);
        self.front = Some(at);
    }

    // The row at a place, which is in the chain, is the first from now on.
    pub(crate) fn bring_front(&mut self, region: &mut Region, at: Place)
        requires { chained.IsAmong at (live_at region.old) self.old }
        ensures chain { (xs ys : List Place) → chained.IsChain (live_at region.old) self.old (xs ++ at ∷ ys)
            → chained.IsChain (live_at region.new) self.new (at ∷ (xs ++ ys)) }
        ensures same { AreRelinked region.old region.new }
    {
        if self.front == Some(at) {
            return;
        }
        self.unlink(region, at);
        self.push_front(region, at);
    }

    // The row that is live at both places, with the same links, stands at the second from now on.
    pub(crate) fn relocate(&mut self, region: &mut Region, from: Place, to: Place)
        requires row { HoldsARow (live_at region.old to) }
        requires room { place_links.HasRoom to }
        requires same { live_at region.old to ≡ live_at region.old from }
        requires apart { from ≢ to }
        requires chain { chained.IsAmong from (less to (live_at region.old)) self.old }
        ensures chain { (xs ys : List Place) → chained.IsChain (less to (live_at region.old)) self.old (xs ++ from ∷ ys)
            → chained.IsChain (less from (live_at region.new)) self.new (xs ++ to ∷ ys) }
        ensures same { AreRelinked region.old region.new }
    {
        let beside = neighbours_of(region, to);
        self.set_behind(region, beside.newer, Some(to));
        self.set_before(region, Some(to), beside.older);
    }

    // Two rows are linked to one another. Where the first is none, the second is the front, and where the second is none, the
    // first is the last.
    fn join(&mut self, region: &mut Region, newer: Option<Place>, older: Option<Place>)
        requires newer { IfSome newer (λ p. HoldsARow (live_at region.old p)) }
        requires older { IfSome older (λ p. HoldsARow (live_at region.old p)) }
        ensures links { chained.JoinsLinks newer older (live_at region.old) (live_at region.new) }
        ensures front { MatchOption newer (self.new.front ≡ older) (λ _. self.new.front ≡ self.old.front) }
        ensures last { MatchOption older (self.new.last ≡ newer) (λ _. self.new.last ≡ self.old.last) }
        ensures same { AreRelinked region.old region.new }
    {
        self.set_behind(region, newer, older);
        self.set_before(region, newer, older);
    }

    // The second is behind the first.
    #[tactic(auto, using(crate::proofs::Joined::behind_by))]
    fn set_behind(&mut self, region: &mut Region, newer: Option<Place>, older: Option<Place>)
        requires { IfSome newer (λ p. HoldsARow (live_at region.old p)) }
        ensures links { chained.LinksBehind newer older (live_at region.old) (live_at region.new) }
        ensures front { MatchOption newer (self.new.front ≡ older) (λ _. self.new.front ≡ self.old.front) }
        ensures last { self.new.last ≡ self.old.last }
        ensures same { AreRelinked region.old region.new }
    {
        match newer {
            Some(place) => link_older(region, place, link_to(older)),
            None => self.front = older,
        }
    }

    // The first is before the second.
    fn set_before(&mut self, region: &mut Region, newer: Option<Place>, older: Option<Place>)
        requires { IfSome older (λ p. HoldsARow (live_at region.old p)) }
        ensures links { chained.LinksBefore newer older (live_at region.old) (live_at region.new) }
        ensures last { MatchOption older (self.new.last ≡ newer) (λ _. self.new.last ≡ self.old.last) }
        ensures front { self.new.front ≡ self.old.front }
        ensures same { AreRelinked region.old region.new }
    {
        match older {
            Some(place) => link_newer(region, place, link_to(newer)),
            None => self.last = newer,
        }
    }
}
