//! The pages of one shard, in spans.
ghost use Rattle.std.specs.Prelude.{◌≡◌, ℕ, ◌+◌, ◌-◌, ◌%◌, ◌<◌, ◌≤◌, ◌^◌, ◌↔◌, ◌∷◌};
ghost use Rattle.std.specs.Prelude.{slice_set, IfOk, IfSome, IfNone, IsNone, IsTrue, Some, None, min};
ghost use Rattle.std.specs.FinMap as map;
ghost use Rattle.common_lemmas.specs.Lists.{delete};
ghost use Rattle.layout.specs.Sizes.{greatest_order, span_orders, segment_pages, fewest_pages, most_pages};
ghost use Rattle.span_lists.specs.Buddies.{buddy};
ghost use Rattle.span_lists.specs.Layout.{
  Layout,
  free_at,
  IsFree,
  IsAllocated,
  Divides,
  IsCoalesced,
  free_pages,
  allocated_pages,
  HasNone,
  TakesFrom,
  CoalescesInto,
  span_start,
  IsFirstOf,
  IsLargest,
  IsGreatest,
  IsBlocked,
};
ghost use Rattle.span_lists.specs.inside.Pages.{allocated_order_of, state_at, IsConsistent, IsBegun};
ghost use Rattle.span_lists.specs.inside.Steps.{IsSplitTo, IsCoalescedTo};

use index_lists::{IndexLists, LazyTable};
use layout::GREATEST_ORDER;
use std::alloc::{AllocError, Global};
use std::marker::Model;

/// What begins at a page.
#[derive(Clone, Copy, Debug, PartialEq, Eq)]
pub enum PageState {
    Inside,
    Free(u8),
    Allocated(u8),
}

/// The spans of a range of pages.
#[derive(Drop)]
pub struct Spans {
    pages: u32,
    states: LazyTable<PageState>,
    lists: IndexLists,
    free: u32,
}

impl Model for Spans {
    ghost use Rattle.span_lists.specs.Layout.{Layout, layout_code};

    ghost Value = { Layout };

    ghost coded = { layout_code };

    ghost use Rattle.span_lists.specs.inside.Pages.{allocated_of, IsConsistent};

    ghost view = { λ a. record { pages = a.pages; free = a.lists.lists; allocated = allocated_of a.states.entries } };

    ghost invariant = { λ a. IsConsistent a.pages a.states.entries a.lists a.free };
}

impl Spans {
    /// The pages, cut into the greatest aligned spans that fit, from page 0 on. All of them are free.
    pub fn new(alloc: Global, pages: u32) -> Result<Spans, AllocError>
        requires whole { pages % segment_pages ≡ 0 }
        requires least { fewest_pages ≤ pages }
        requires most { pages ≤ most_pages }

        // All pages are free, in the greatest spans that fit.
        ensures pages { IfOk result (λ spans. spans.pages ≡ pages) }
        ensures none_allocated { IfOk result (λ spans. spans.allocated ≡ map.empty) }
        ensures greatest { IfOk result (λ spans. (first order : ℕ) → IsFree spans first order → IsGreatest pages first order) }

        // What holds of the spans at each time.
        ensures divided { IfOk result Divides }
        ensures coalesced { IfOk result IsCoalesced }
    {
        let mut states = LazyTable::new(alloc, pages, PageState::Inside)?;
        let mut lists = IndexLists::new(alloc, pages, GREATEST_ORDER as u32 + 1)?;
        cut(&mut states, &mut lists, pages);
        Ok(Spans {
            pages,
            states,
            lists,
            free: pages,
        })
    }

    /// What holds of the spans at each time.
    pub fn facts(&self)
        ensures divided { Divides self.now }
        ensures coalesced { IsCoalesced self.now }
    {
        let _ = &self.states;
    }

    /// Allocates a span of the order, and answers its first page.
    pub fn take(&mut self, order: u8) -> Option<u32>
        requires { order ≤ greatest_order }

        // None exactly where no span of the order or a greater one is free, and then nothing changed.
        ensures none { IsNone result ↔ HasNone self.old order }
        ensures unchanged { IfNone result (self.new ≡ self.old) }
        ensures blocked { IfNone result (IsBlocked self.old order) }

        // The span, and what it was cut from.
        ensures was_free { IfSome result (λ first. map.get self.old.allocated first ≡ None) }
        ensures allocated { IfSome result (λ first. self.new.allocated ≡ map.insert self.old.allocated first order) }
        ensures free { IfSome result (TakesFrom self.old self.new order) }

        // What holds of the spans at each time.
        ensures pages { self.new.pages ≡ self.old.pages }
        ensures divided { Divides self.new }
        ensures coalesced { IsCoalesced self.new }
    {
        let (first, from) = self.find(order)?;
        self.allocate(first, from);
        self.split_down(first, from, order);
        Some(first)
    }

    /// Gives an allocated span back.
    pub fn put(&mut self, first: u32, order: u8)
        requires { IsAllocated self.old first order }
        ensures allocated { self.new.allocated ≡ map.remove self.old.allocated first }
        ensures free { CoalescesInto self.old self.new first order }
        ensures orders { (k : ℕ) → HasNone self.new k → (order < k) × HasNone self.old k }
        ensures pages { self.new.pages ≡ self.old.pages }
        ensures divided { Divides self.new }
        ensures coalesced { IsCoalesced self.new }
    {
        let (at, to) = self.coalesce(first, order);
        self.release(at, to);
    }

    /// The greatest order of which a span is free.
    pub fn largest(&self) -> Option<u8>
        ensures none { IsNone result ↔ HasNone self.now 0 }
        ensures some { IfSome result (IsLargest self.now) }
        ensures divided { Divides self.now }
        ensures coalesced { IsCoalesced self.now }
    {
        let mut above = GREATEST_ORDER + 1;
        while above > 0 {
            let order = above - 1;
            if self.lists.front(order as u32).is_some() {
                return Some(order);
            }
            above = order;
        }
        None
    }

    /// The number of pages in free spans. The others are in allocated ones, and where no span of an order or above is free, no
    /// aligned run of its length is.
    pub fn free_pages(&self) -> u32
        ensures value { result ≡ free_pages self.now }
        ensures rest { result + allocated_pages self.now ≡ self.now.pages }
        ensures most { result ≤ self.now.pages }
        ensures blocked { (order : ℕ) → order ≤ greatest_order → HasNone self.now order → IsBlocked self.now order }
    {
        self.free
    }

    /// Allocates a free span as it is.
    fn allocate(&mut self, first: u32, order: u8)
        requires order { order < span_orders }
        requires free { IsFree self.old first order }
        ensures moves { self.new ≡ record self.old {
          free = slice_set self.old.free order (delete first (free_at self.old order));
          allocated = map.insert self.old.allocated first order;
        } }
        ensures was_free { map.get self.old.allocated first ≡ None }
        ensures divided { Divides self.new }
        ensures coalesced { IsCoalesced self.new }
    {
        self.lists.remove(order as u32, first);
        self.states.set(first, PageState::Allocated(order));
        self.free -= span_pages(order);
    }

    /// Makes an allocated span free, where its buddy is not.
    fn release(&mut self, first: u32, order: u8)
        requires order { order < span_orders }
        requires allocated { IsAllocated self.old first order }
        requires alone { order < greatest_order → ¬ IsFree self.old (buddy first order) order }
        ensures moves { self.new ≡ record self.old {
          free = slice_set self.old.free order (first ∷ free_at self.old order);
          allocated = map.remove self.old.allocated first;
        } }
        ensures divided { Divides self.new }
        ensures coalesced { IsCoalesced self.new }
    {
        self.lists.push_front(order as u32, first);
        self.states.set(first, PageState::Free(order));
        self.free += span_pages(order);
    }

    /// Splits an allocated span into two of the order, of which the upper one is free.
    fn split(&mut self, first: u32, order: u8)
        requires { IsAllocated self.old first (order + 1) }
        ensures moves { self.new ≡ record self.old {
          free = slice_set self.old.free order ((first + 2 ^ order) ∷ free_at self.old order);
          allocated = map.insert self.old.allocated first order;
        } }
        ensures divided { Divides self.new }
        ensures coalesced { IsCoalesced self.new }
    {
        self.states.set(first, PageState::Allocated(order));
        let upper = first + span_pages(order);
        self.lists.push_front(order as u32, upper);
        self.states.set(upper, PageState::Free(order));
        self.free += span_pages(order);
    }

    /// Coalesces two allocated buddies, and answers their first page.
    fn coalesce_pair(&mut self, first: u32, order: u8) -> u32
        requires order { order < greatest_order }
        requires allocated { IsAllocated self.old first order }
        requires buddy { IsAllocated self.old (buddy first order) order }
        ensures first { result ≡ span_start first (order + 1) }
        ensures moves { self.new ≡ record self.old {
          allocated = map.insert (map.remove (map.remove self.old.allocated first) (buddy first order)) result (order + 1);
        } }
        ensures divided { Divides self.new }
        ensures coalesced { IsCoalesced self.new }
    {
        let other = buddy_of(first, order);
        let lower = first.min(other);
        let upper = first.max(other);
        self.states.set(upper, PageState::Inside);
        self.states.set(lower, PageState::Allocated(order + 1));
        lower
    }

    /// Coalesces an allocated span with its buddy, which is free.
    fn coalesce_once(&mut self, first: u32, order: u8) -> u32
        requires order { order < greatest_order }
        requires allocated { IsAllocated self.old first order }
        requires buddy { IsFree self.old (buddy first order) order }

        // The span that the two become. The buddy was free.
        ensures first { result ≡ span_start first (order + 1) }
        ensures moves { self.new ≡ record self.old {
          free = slice_set self.old.free order (delete (buddy first order) (free_at self.old order));
          allocated = map.insert (map.remove self.old.allocated first) result (order + 1);
        } }
        ensures was_free { map.get self.old.allocated (buddy first order) ≡ None }

        // What holds of the spans at each time.
        ensures divided { Divides self.new }
        ensures coalesced { IsCoalesced self.new }
    {
        self.allocate(buddy_of(first, order), order);
        self.coalesce_pair(first, order)
    }

    /// Whether a span has a free buddy to be coalesced with.
    fn can_coalesce(&self, first: u32, order: u8) -> bool
        ensures can { IsTrue result ↔ ((order < greatest_order) × IsFree self.now (buddy first order) order) }
        ensures divided { Divides self.now }
    {
        let pages = self.pages;
        if order >= GREATEST_ORDER {
            return false;
        }
        let other = buddy_of(first, order);
        other < pages && self.states.get(other) == PageState::Free(order)
    }

    /// The span that a request for the order is cut from, and its order.
    fn find(&self, order: u8) -> Option<(u32, u8)>
        requires { order ≤ greatest_order }
        ensures none { IfNone result (HasNone self.now order) }
        ensures blocked { IfNone result (IsBlocked self.now order) }
        ensures found { IfSome result (λ span. IsFirstOf self.now order span.0 span.1) }
        ensures divided { Divides self.now }
        ensures coalesced { IsCoalesced self.now }
    {
        for from in order..=GREATEST_ORDER {
            if let Some(first) = self.lists.front(from as u32) {
                return Some((first, from));
            }
        }
        None
    }

    /// Splits an allocated span until it has the order.
    fn split_down(&mut self, first: u32, from: u8, order: u8)
        requires order { order ≤ from }
        requires from { from < span_orders }
        requires allocated { IsAllocated self.old first from }
        requires divided { Divides self.old }
        requires coalesced { IsCoalesced self.old }
        ensures { IsSplitTo self.old self.new first from order }
    {
        let mut at = from;
        while at > order {
            at -= 1;
            self.split(first, at);
        }
    }

    /// Coalesces an allocated span with its free buddies, as far as that goes, and answers the span that they make.
    fn coalesce(&mut self, first: u32, order: u8) -> (u32, u8)
        requires { IsAllocated self.old first order }
        ensures coalesces { IsCoalescedTo self.old self.new first order result.0 result.1 }
        ensures alone { result.1 < greatest_order → ¬ IsFree self.new (buddy result.0 result.1) result.1 }
        ensures divided { Divides self.new }
    {
        let mut at = first;
        let mut to = order;
        while self.can_coalesce(at, to) {
            at = self.coalesce_once(at, to);
            to += 1;
        }
        (at, to)
    }
}

fn span_pages(order: u8) -> u32
    requires { order < span_orders }
    ensures value { result ≡ 2 ^ order }
    ensures bound { result ≤ most_pages }
{
    1 << order
}

fn buddy_of(first: u32, order: u8) -> u32
    requires { order < span_orders }
    ensures { result ≡ buddy first order }
{
    first ^ span_pages(order)
}

/// Cuts so many pages into the greatest aligned spans that fit, from page 0 on, all of which are free.
///
/// Each has as many pages as one of the binary digits of their number stands for, the highest first.
fn cut(states: &mut LazyTable<PageState>, lists: &mut IndexLists, pages: u32)
    requires most { pages ≤ most_pages }
    requires none { IsBegun pages 0 span_orders states.old.entries lists.old }
    ensures consistent { IsConsistent pages states.new.entries lists.new pages }
    ensures none_allocated { (page : ℕ) → allocated_order_of (state_at states.new.entries page) ≡ None }
{
    let mut first = 0;
    let mut least = GREATEST_ORDER + 1;
    while least > 0 {
        least -= 1;
        if first + span_pages(least) <= pages {
            states.set(first, PageState::Free(least));
            lists.push_front(least as u32, first);
            first += span_pages(least);
        }
    }
}
