//! Small objects of 37 sizes.
ghost use Rattle.std.specs.Prelude.{◌≡◌, ◌≢◌, ◌<◌, ◌↔◌, IfOk, IfSome, IfNone, IsNone, IsSome, Some, None};
ghost use Rattle.std.specs.FinMap as map;
ghost use Rattle.layout.specs.Sizes.{ArePages};
ghost use Rattle.span_lists.specs.Layout.{Divides, IsBlocked, IsCoalesced};
ghost use Rattle.small_pools.specs.Classes.{size_of, order_of};
ghost use Rattle.small_pools.specs.Objects.{AreObjects, AreHeldIn, AreUsed, HoldsFor, KeepsRoom, LacksObject, Trims};
ghost use Rattle.small_pools.specs.inside.Marks.{AreMarked};

use crate::held_spans::HeldSpans;
use number_set::NumberSet;
use span_lists::Spans;
use std::alloc::{AllocError, Global};
use std::marker::Model;

/// The pools of all classes of one shard.
///
/// # Examples
/// ```
/// let mut spans = Spans::new(alloc, 1280)?;
/// let mut pools = Pools::new(alloc, 1280)?;
/// let Some(class) = class_of(100) else {
///     return Ok(false);
/// };
/// let Some(place) = pools.take(&mut spans, class) else {
///     return Ok(false); // neither the class nor the pages have room
/// };
/// pools.put(place);
/// pools.trim(&mut spans); // the span of the object is one of the pages' free ones again
/// ```
#[derive(Drop)]
pub struct Pools {
    held: HeldSpans,
    // the first pages of the spans that may have no allocated object; each other one has
    marks: NumberSet,
}

impl Model for Pools {
    ghost use Rattle.small_pools.specs.Objects.{Objects, objects_code};

    ghost Value = { Objects };

    ghost coded = { objects_code };

    ghost use Rattle.small_pools.specs.inside.Marks.{AreMarked};

    ghost view = { λ p. p.held };

    ghost invariant = { λ p. AreMarked p.held p.marks };
}

impl Pools {
    /// Pools that hold nothing of so many pages.
    ///
    /// # Errors
    /// Want of memory.
    pub fn new(alloc: Global, pages: u32) -> Result<Pools, AllocError>
        requires { ArePages pages }
        ensures pages { IfOk result (λ pools. pools.pages ≡ pages) }
        ensures none_held { IfOk result (λ pools. pools.held ≡ map.empty) }
        ensures none_allocated { IfOk result (λ pools. pools.allocated ≡ map.empty) }
        ensures objects { IfOk result AreObjects }
    {
        Ok(Pools {
            held: HeldSpans::new(alloc, pages)?,
            marks: NumberSet::new(alloc, pages)?,
        })
    }

    /// Allocates an object of the class, and answers its first byte.
    ///
    /// It comes from a span that the pools hold, where one has a free object, and otherwise from a new span of the pages.
    pub fn take(&mut self, spans: &mut Spans, class: u8) -> Option<u32>
        requires class { class < 37 }
        requires held { AreHeldIn self.old spans.old }

        // None exactly where neither the pools nor the pages have one, and then nothing changed.
        ensures none { IsNone result ↔ LacksObject self.old spans.old class }
        ensures unchanged { IfNone result ((self.new ≡ self.old) × (spans.new ≡ spans.old)) }
        ensures blocked { IfNone result (IsBlocked spans.old (order_of class)) }

        // The object, and the span that it comes from.
        ensures was_free { IfSome result (λ place. map.get self.old.allocated place ≡ None) }
        ensures allocated { IfSome result (λ place. self.new.allocated ≡ map.insert self.old.allocated place (size_of class)) }
        ensures spans { IfSome result (λ _. HoldsFor self.old self.new spans.old spans.new class) }

        // What holds of the pools and of the pages at each time.
        ensures pages { self.new.pages ≡ self.old.pages }
        ensures held { AreHeldIn self.new spans.new }
        ensures objects { AreObjects self.new }
        ensures divided { Divides spans.new }
        ensures coalesced { IsCoalesced spans.new }
    {
        self.held.take(spans, class)
    }

    /// Gives an allocated object back, by its first byte.
    pub fn put(&mut self, place: u32)
        requires { IsSome (map.get self.old.allocated place) }
        ensures allocated { self.new.allocated ≡ map.remove self.old.allocated place }
        ensures held { self.new.held ≡ self.old.held }
        ensures pages { self.new.pages ≡ self.old.pages }
        ensures objects { AreObjects self.new }
    {
        let first = self.held.put(place);
        if self.held.unused_at(first).is_some() {
            self.marks.insert(first);
        }
    }

    /// Gives each span back to the pages that has no allocated object. It looks only at spans that had none after a `put`
    /// since the last call.
    pub fn trim(&mut self, spans: &mut Spans)
        requires { AreHeldIn self.old spans.old }

        // Each span that is held has an allocated object. What could be taken still can.
        ensures used { AreUsed self.new }
        ensures trims { Trims self.old self.new spans.old spans.new }
        ensures room { KeepsRoom self.old self.new spans.old spans.new }

        // Nothing changes where it was so before.
        ensures unchanged { AreUsed self.old → (self.new ≡ self.old) × (spans.new ≡ spans.old) }

        // What holds of the pools and of the pages at each time.
        ensures held { AreHeldIn self.new spans.new }
        ensures objects { AreObjects self.new }
        ensures divided { Divides spans.new }
        ensures coalesced { IsCoalesced spans.new }
    {
        trim_marked(&mut self.held, &mut self.marks, spans);
    }
}

/// Gives each span of a mark back to the pages that has no allocated object, and takes the marks away.
fn trim_marked(held: &mut HeldSpans, marks: &mut NumberSet, spans: &mut Spans)
    requires marked { AreMarked held.old marks.old }
    requires held { AreHeldIn held.old spans.old }

    // Each span that is held has an allocated object. What could be taken still can.
    ensures marked { AreMarked held.new marks.new }
    ensures used { AreUsed held.new }
    ensures trims { Trims held.old held.new spans.old spans.new }
    ensures room { KeepsRoom held.old held.new spans.old spans.new }

    // Nothing changes where it was so before.
    ensures unchanged { AreUsed held.old → (held.new ≡ held.old) × (spans.new ≡ spans.old) }

    // What holds of the pools and of the pages at each time.
    ensures held { AreHeldIn held.new spans.new }
    ensures objects { AreObjects held.new }
    ensures divided { Divides spans.new }
    ensures coalesced { IsCoalesced spans.new }
{
    spans.facts();
    while let Some(first) = marks.least() {
        held.trim_span(spans, first);
        marks.remove(first);
    }
}
