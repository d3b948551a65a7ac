//! What no contract says: that memory is there, and which spans fixed requests give.
ghost use Rattle.std.specs.Prelude.{◌≡◌, ◌%◌, ◌≤◌};
ghost use Rattle.layout.specs.Sizes.{greatest_order, segment_pages, fewest_pages, most_pages};

use layout::{GREATEST_ORDER, MOST_PAGES};
use span_lists::Spans;
use std::alloc::{AllocError, Global};
use std::marker::Model;
use std::test::Fail;

// Spans, and the order of each that was taken and is not yet given back, by its first page.
#[derive(Drop)]
struct Trial {
    spans: Spans,
    taken: Vec<Option<u8>>,
}

impl Model for Trial {
    ghost use Rattle.std.specs.Prelude.{ℕ};
    ghost use Rattle.memory_tests.specs.Taken.{AreTaken};

    // the number of the pages
    ghost Value = { ℕ };

    ghost view = { λ t. t.spans.pages };

    ghost invariant = { λ t. AreTaken t.spans t.taken.items };
}

impl Trial {
    fn new(alloc: Global, pages: u32) -> Result<Trial, AllocError>
        requires whole { pages % segment_pages ≡ 0 }
        requires least { fewest_pages ≤ pages }
        requires most { pages ≤ most_pages }
    {
        let taken = vec![in alloc; None; pages as usize]?;
        let spans = Spans::new(alloc, pages)?;
        Ok(Trial { spans, taken })
    }

    fn take(&mut self, order: u8) -> Option<u32>
        requires { order ≤ greatest_order }
    {
        let first = self.spans.take(order)?;
        if (first as usize) < self.taken.len() {
            self.taken[first as usize] = Some(order);
        }
        Some(first)
    }

    // Gives a span back. False where it was not taken with this order.
    fn put(&mut self, first: u32, order: u8) -> bool {
        let at = first as usize;
        if at >= self.taken.len() || self.taken[at] != Some(order) {
            return false;
        }
        self.taken[at] = None;
        self.spans.put(first, order);
        true
    }

    fn largest(&self) -> Option<u8> {
        self.spans.largest()
    }

    fn free_pages(&self) -> u32 {
        self.spans.free_pages()
    }
}

#[test]
fn a_span_is_cut_from_the_first_list_that_has_one(rt: HostRuntime) -> Result<(), Fail> {
    let mut trial = Trial::new(rt.alloc(), 1280)?;
    assert_eq!(rt; trial.largest(), Some(10));
    assert_eq!(rt; trial.free_pages(), 1280);
    assert_eq!(rt; trial.take(11), None);
    assert_eq!(rt; trial.take(5), Some(1024));
    assert_eq!(rt; trial.free_pages(), 1248);
    assert!(rt; trial.put(1024, 5));
    assert_eq!(rt; trial.free_pages(), 1280);
    for (order, first) in [(5, 1024), (5, 1056), (6, 1088), (7, 1152), (10, 0)] {
        assert_eq!(rt; trial.take(order), Some(first));
    }
    assert_eq!(rt; trial.largest(), None);
    Ok(())
}

#[test]
fn pages_given_back_in_another_order_leave_the_first_state(rt: HostRuntime) -> Result<(), Fail> {
    let mut trial = Trial::new(rt.alloc(), 1280)?;
    for _ in 0..1280 {
        assert!(rt; trial.take(0).is_some());
    }
    assert_eq!(rt; trial.free_pages(), 0);
    assert_eq!(rt; trial.take(0), None);
    for step in 0..1280u32 {
        assert!(rt; trial.put(step * 7 % 1280, 0));
    }
    assert_eq!(rt; trial.free_pages(), 1280);
    assert_eq!(rt; trial.take(8), Some(1024));
    assert_eq!(rt; trial.take(10), Some(0));
    Ok(())
}

#[test]
fn the_greatest_range_is_one_span(rt: HostRuntime) -> Result<(), Fail> {
    let mut trial = Trial::new(rt.alloc(), MOST_PAGES)?;
    assert_eq!(rt; trial.largest(), Some(19));
    assert_eq!(rt; trial.take(0), Some(0));
    assert_eq!(rt; trial.largest(), Some(18));
    assert!(rt; trial.put(0, 0));
    assert_eq!(rt; trial.take(GREATEST_ORDER), Some(0));
    Ok(())
}
