//! The spans that pools hold, and the objects in them.
ghost use Rattle.std.specs.Prelude.{
  ◌≡◌,
  ◌⊎◌,
  ℕ,
  ◌+◌,
  ◌<◌,
  ◌≤◌,
  ◌≢◌,
  ◌^◌,
  ◌↔◌,
  length,
  slice_get,
  slice_index,
  IfOk,
  IfSome,
  IfNone,
  IsNone,
  IsSome,
  IsTrue,
  Some,
  None,
};
ghost use Rattle.std.specs.Ordering.{nat_cmp};
ghost use Rattle.std.specs.FinMap as map;
ghost use Rattle.layout.specs.Sizes.{ArePages, most_pages};
ghost use Rattle.index_lists.specs.Lists.{list_at};
ghost use Rattle.span_lists.specs.Layout.{Divides, IsBlocked, IsCoalesced, HasNone, IsAllocated};
ghost use Rattle.small_pools.specs.Classes.{size_of, order_of, capacity_of};
ghost use Rattle.small_pools.specs.Objects.{
  Objects,
  IsHeld,
  HasObject,
  HasRoom,
  IsUsedUp,
  AreObjects,
  AreHeldIn,
  HoldsFor,
  Trims,
  AreUsed,
  LacksObject,
  KeepsRoom,
  slot_place,
};

use crate::classes::{CLASSES, class_capacity, class_order, class_size};
use crate::listing::{list_for, relist};
use crate::masks::{all_free, least_free, occupied, released};
use index_lists::{IndexLists, LazyTable};
use layout::PAGE;
use span_lists::Spans;
use std::alloc::{AllocError, Global};
use std::marker::Model;

/// The spans that the pools of one shard hold, and the objects in them.
#[derive(Drop)]
pub struct HeldSpans {
    pages: u32,
    // the class of each span that is held, at its first page
    classes: LazyTable<Option<u8>>,
    // of each page of a span that is held, the span's first page
    firsts: LazyTable<u32>,
    // of each span, at its first page, the free slots
    masks: LazyTable<u128>,
    // of each class the spans with a free slot
    lists: IndexLists,
}

impl Model for HeldSpans {
    ghost use Rattle.small_pools.specs.Objects.{Objects, objects_code};

    ghost Value = { Objects };

    ghost coded = { objects_code };

    ghost use Rattle.small_pools.specs.inside.Tables.{objects_of, IsConsistent, AreWritten};

    ghost view = { λ a. objects_of (record {
      pages = a.pages;
      classes = a.classes.entries;
      firsts = a.firsts.entries;
      masks = a.masks.entries;
      lists = a.lists;
    }) };

    ghost invariant = { λ a. IsConsistent (record {
      pages = a.pages;
      classes = a.classes.entries;
      firsts = a.firsts.entries;
      masks = a.masks.entries;
      lists = a.lists;
    }) × AreWritten a.classes.entries a.classes.written a.firsts.written a.masks.written };
}

impl HeldSpans {
    /// No span of so many pages is held.
    ///
    /// # Errors
    /// Want of memory.
    pub fn new(alloc: Global, pages: u32) -> Result<HeldSpans, AllocError>
        requires { ArePages pages }
        ensures pages { IfOk result (λ pools. pools.pages ≡ pages) }
        ensures none_held { IfOk result (λ pools. pools.held ≡ map.empty) }
        ensures none_allocated { IfOk result (λ pools. pools.allocated ≡ map.empty) }
        ensures objects { IfOk result AreObjects }
    {
        let classes = LazyTable::new(alloc, pages, None)?;
        let firsts = LazyTable::new(alloc, pages, 0)?;
        let masks = LazyTable::new(alloc, pages, 0)?;
        let lists = IndexLists::new(alloc, pages, CLASSES as u32)?;
        Ok(HeldSpans {
            pages,
            classes,
            firsts,
            masks,
            lists,
        })
    }

    /// Allocates an object of the class, and answers its first byte.
    ///
    /// It comes from a span that the pools hold, where one has a free object, and otherwise from a new span of the pages.
    pub fn take(&mut self, spans: &mut Spans, class: u8) -> Option<u32>
        requires class { class < 37 }
        requires held { AreHeldIn self.old spans.old }

        // None exactly where neither the pools nor the pages have one, and then nothing changed.
        ensures none { IsNone result ↔ LacksObject self.old spans.old class }
        ensures unchanged { IfNone result ((self.new ≡ self.old) × (spans.new ≡ spans.old)) }
        ensures blocked { IfNone result (IsBlocked spans.old (order_of class)) }

        // The object, and the span that it comes from.
        ensures was_free { IfSome result (λ place. map.get self.old.allocated place ≡ None) }
        ensures allocated { IfSome result (λ place. self.new.allocated ≡ map.insert self.old.allocated place (size_of class)) }
        ensures spans { IfSome result (λ _. HoldsFor self.old self.new spans.old spans.new class) }
        ensures come { IfSome result (λ _. (first held : ℕ) → IsHeld self.new first held → IsHeld self.old first held
            ⊎ HasObject self.new first held) }

        // What holds of the pools and of the pages at each time.
        ensures pages { self.new.pages ≡ self.old.pages }
        ensures held { AreHeldIn self.new spans.new }
        ensures objects { AreObjects self.new }
        ensures divided { Divides spans.new }
        ensures coalesced { IsCoalesced spans.new }
    {
        let first = self.span_with_room(spans, class)?;
        Some(self.pop(first, class))
    }

    /// Gives an allocated object back, by its first byte. Answers the first page of its span.
    pub fn put(&mut self, place: u32) -> u32
        requires { IsSome (map.get self.old.allocated place) }
        ensures within { result < self.old.pages }
        ensures others { (first class : ℕ) → first ≢ result → IsHeld self.old first class → HasObject self.old first class
            → HasObject self.new first class }
        ensures allocated { self.new.allocated ≡ map.remove self.old.allocated place }
        ensures held { self.new.held ≡ self.old.held }
        ensures pages { self.new.pages ≡ self.old.pages }
        ensures objects { AreObjects self.new }
    {
        let first = self.firsts.get_written(place / PAGE);
        if let Some(class) = self.classes.get_written(first) {
            let slot = (place - PAGE * first) / class_size(class);
            self.release(first, class, slot as u8);
        }
        first
    }

    /// Gives the span that begins at the page back to the pages where it has no allocated object.
    pub fn trim_span(&mut self, spans: &mut Spans, first: u32)
        requires page { first < self.old.pages }
        requires held { AreHeldIn self.old spans.old }
        requires objects { AreObjects self.old }
        requires divided { Divides spans.old }
        requires coalesced { IsCoalesced spans.old }

        // The span goes where it has no allocated object. What could be taken still can.
        ensures used { (class : ℕ) → IsHeld self.new first class → HasObject self.new first class }
        ensures trims { Trims self.old self.new spans.old spans.new }
        ensures room { KeepsRoom self.old self.new spans.old spans.new }

        // Nothing changes where each held span has one.
        ensures unchanged { AreUsed self.old → (self.new ≡ self.old) × (spans.new ≡ spans.old) }

        // What holds of the pools and of the pages at each time.
        ensures held { AreHeldIn self.new spans.new }
        ensures objects { AreObjects self.new }
        ensures divided { Divides spans.new }
        ensures coalesced { IsCoalesced spans.new }
    {
        let Some(class) = self.unused_at(first) else {
            return;
        };
        self.remove(first, class);
        spans.put(first, class_order(class));
    }

    /// The class of the span that begins at the page, where it has no allocated object.
    pub fn unused_at(&self, first: u32) -> Option<u8>
        requires { first < self.now.pages }
        ensures none { IfNone result ((class : ℕ) → IsHeld self.now first class → HasObject self.now first class) }
        ensures class { IfSome result (λ class. class < 37) }
        ensures held { IfSome result (λ class. IsHeld self.now first class) }
        ensures unused { IfSome result (λ class. ¬ HasObject self.now first class) }
    {
        let Some(class) = self.classes.get(first) else {
            return None;
        };
        if !is_unused(
            self.masks.get_written(first),
            all_free(class_capacity(class)),
        ) {
            return None;
        }
        Some(class)
    }

    /// A held span of the class with a free object, taken from the pages where the pools hold none.
    fn span_with_room(&mut self, spans: &mut Spans, class: u8) -> Option<u32>
        requires class { class < 37 }
        requires held { AreHeldIn self.old spans.old }

        // None exactly where neither the pools nor the pages have one, and then nothing changed.
        ensures none { IsNone result ↔ LacksObject self.old spans.old class }
        ensures unchanged { IfNone result ((self.new ≡ self.old) × (spans.new ≡ spans.old)) }
        ensures blocked { IfNone result (IsBlocked spans.old (order_of class)) }

        // The span, and what was allocated.
        ensures found { IfSome result (λ first. IsHeld self.new first class) }
        ensures come { IfSome result (λ first. (other held : ℕ) → IsHeld self.new other held → (other ≡ first)
            ⊎ IsHeld self.old other held) }
        ensures room { IfSome result (λ first. HasRoom self.new first class) }
        ensures allocated { self.new.allocated ≡ self.old.allocated }
        ensures spans { IfSome result (λ _. HoldsFor self.old self.new spans.old spans.new class) }

        // What holds of the pools and of the pages at each time.
        ensures pages { self.new.pages ≡ self.old.pages }
        ensures held { AreHeldIn self.new spans.new }
        ensures objects { AreObjects self.new }
        ensures divided { Divides spans.new }
        ensures coalesced { IsCoalesced spans.new }
    {
        if let Some(first) = self.find(class) {
            spans.facts();
            return Some(first);
        }
        let first = spans.take(class_order(class))?;
        self.add(first, class);
        Some(first)
    }

    /// A held span of the class with a free object.
    fn find(&self, class: u8) -> Option<u32>
        requires { class < 37 }
        ensures none { IfNone result (IsUsedUp self.now class) }
        ensures held { IfSome result (λ first. IsHeld self.now first class) }
        ensures room { IfSome result (λ first. HasRoom self.now first class) }
        ensures objects { AreObjects self.now }
    {
        first_with_room(&self.lists, class)
    }

    /// Allocates an object of a span that has a free one, and answers its first byte.
    fn pop(&mut self, first: u32, class: u8) -> u32
        requires held { IsHeld self.old first class }
        requires room { HasRoom self.old first class }
        ensures was_free { map.get self.old.allocated result ≡ None }
        ensures moves { self.new ≡ record self.old { allocated = map.insert self.old.allocated result (size_of class) } }
        ensures has { HasObject self.new first class }
        ensures objects { AreObjects self.new }
    {
        let before = self.masks.get_written(first);
        let slot = least_free(before);
        let mask = occupied(before, slot);
        self.masks.set_written(first, mask);
        relist(
            &mut self.lists,
            first,
            Some(class as u32),
            list_for(class, mask),
        );
        PAGE * first + slot as u32 * class_size(class)
    }

    /// Makes a slot of a span free.
    fn release(&mut self, first: u32, class: u8, slot: u8)
        requires held { IsHeld self.old first class }
        requires slot { slot < capacity_of class }
        ensures moves { self.new ≡ record self.old { allocated = map.remove self.old.allocated (slot_place first class slot) } }
        ensures objects { AreObjects self.new }
    {
        let before = self.masks.get_written(first);
        self.masks.set_written(first, released(before, slot));
        relist(
            &mut self.lists,
            first,
            list_for(class, before),
            Some(class as u32),
        );
    }

    /// Holds a span for a class.
    fn add(&mut self, first: u32, class: u8)
        requires class { class < 37 }
        requires inside { first + 2 ^ order_of class ≤ self.old.pages }
        requires clear { (other held : ℕ) → IsHeld self.old other held
            → (other + 2 ^ order_of held ≤ first) ⊎ (first + 2 ^ order_of class ≤ other) }
        ensures moves { self.new ≡ record self.old { held = map.insert self.old.held first class } }
        ensures room { HasRoom self.new first class }
        ensures objects { AreObjects self.new }
    {
        relist(&mut self.lists, first, None, Some(class as u32));
        let end = span_end(first, class);
        self.classes.reach(end);
        self.firsts.reach(end);
        self.masks.reach(end);
        own(&mut self.firsts, first, end);
        self.classes.set_written(first, Some(class));
        self.masks
            .set_written(first, all_free(class_capacity(class)));
    }

    /// Lets a span go that has no allocated object.
    fn remove(&mut self, first: u32, class: u8)
        requires held { IsHeld self.old first class }
        requires unused { ¬ HasObject self.old first class }
        ensures moves { self.new ≡ record self.old { held = map.remove self.old.held first } }
        ensures objects { AreObjects self.new }
    {
        let mask = self.masks.get_written(first);
        relist(&mut self.lists, first, list_for(class, mask), None);
        self.classes.set_written(first, None);
    }
}

/// The span in front of the list of the class.
fn first_with_room(lists: &IndexLists, class: u8) -> Option<u32>
    requires { class < length lists.now.lists }
    ensures { result ≡ slice_get (list_at lists.now class) 0 }
{
    lists.front(class as u32)
}

/// Whether a span that has these free slots has no other.
fn is_unused(mask: u128, all: u128) -> bool
    ensures { IsTrue result ↔ (mask ≡ all) }
{
    mask == all
}

/// The page behind a span of the class.
fn span_end(first: u32, class: u8) -> u32
    requires class { class < 37 }
    requires small { first + 2 ^ order_of class ≤ most_pages }
    ensures { result ≡ first + 2 ^ order_of class }
{
    first + (1 << class_order(class))
}

/// Makes a page the first one of those up to another.
fn own(firsts: &mut LazyTable<u32>, first: u32, end: u32)
    requires order { first ≤ end }
    requires within { end ≤ length firsts.old.entries }
    requires written { end ≤ firsts.old.written }
    ensures written { firsts.new.written ≡ firsts.old.written }
    ensures len { length firsts.new.entries ≡ length firsts.old.entries }
    ensures mine { (page : ℕ) → first ≤ page → page < end → slice_index firsts.new.entries page ≡ first }
    ensures others { (page : ℕ) → (page < first) ⊎ (end ≤ page)
        → slice_index firsts.new.entries page ≡ slice_index firsts.old.entries page }
{
    for page in first..end {
        firsts.set_written(page, first);
    }
}
