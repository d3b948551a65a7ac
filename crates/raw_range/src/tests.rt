// What no clause says: that memory is found and is freed. That a piece goes to another thread and back, the crate `memory_tests` sees.
ghost use Rattle.std.specs.Prelude.{◌<◌, ◌≤◌};
ghost use Rattle.layout.specs.Sizes.{most_pages};

use crate::free_bytes::FreeBytes;
use crate::parts::{attach, detach};
use crate::{Piece, Range};
use layout::{MOST_RUN_PAGES, PAGE, SEGMENT};
use linked_list_allocator::LocalHeap;
use std::alloc::Global;
use std::process::Abort;
use std::test::Fail;

fn is_filled_with(piece: &Piece, byte: u8) -> bool {
    for own in piece.bytes() {
        if *own != byte {
            return false;
        }
    }
    true
}

#[test]
fn two_pages_are_written_apart_and_put_back(rt: HostRuntime) -> Result<(), Fail> {
    let mut range = Range::new(rt.alloc(), 0, 1280)?;
    let mut first = range.take(0, 4096);
    let mut second = range.take(4096, 4096);
    assert!(rt; is_filled_with(&first, 0));
    first.bytes_mut().fill(1);
    second.bytes_mut().fill(2);
    assert!(rt; is_filled_with(&first, 1));
    assert!(rt; is_filled_with(&second, 2));
    assert_eq!(rt;
        (second.at(), second.len(), second.owner()),
        (4096, 4096, 0)
    );
    range.put(first);
    range.put(second);
    range.finish();
    Ok(())
}

// The last page is taken while the first one is written already. All pages below it are written then.
fn expect_first_and_last_page(rt: &impl Abort, alloc: Global, pages: u32) -> Result<(), Fail>
    requires { (1 < pages) × (pages ≤ most_pages) }
{
    let mut range = Range::new(alloc, 0, pages)?;
    let mut first = range.take(0, PAGE);
    assert!(rt; is_filled_with(&first, 0));
    first.bytes_mut().fill(1);
    let mut last = range.take(PAGE * (pages - 1), PAGE);
    assert!(rt; is_filled_with(&last, 0));
    last.bytes_mut().fill(2);
    assert!(rt; is_filled_with(&first, 1));
    assert!(rt; is_filled_with(&last, 2));
    range.put(first);
    range.put(last);
    range.finish();
    Ok(())
}

#[test]
fn the_first_and_the_last_page_of_the_greatest_range_of_a_run_are_apart(
    rt: HostRuntime,
) -> Result<(), Fail> {
    expect_first_and_last_page(&rt, rt.alloc(), MOST_RUN_PAGES)
}

// A range takes its vector apart so, and `finish` puts it together and drops it. Half of it was written then.
#[test]
fn a_vector_that_was_taken_apart_is_freed_as_a_whole(rt: HostRuntime) -> Result<(), Fail> {
    let heap = LocalHeap::new(rt.alloc(), 1_048_576)?;
    let segment = SEGMENT as usize;
    let mut vec = Vec::with_capacity(&heap, 2 * segment)?;
    let start = vec.as_mut_ptr();
    let (unfilled, sole) = detach(vec);
    let free = FreeBytes::from_unfilled(unfilled, 2 * segment).fill_up_to(start, 1);
    assert_eq!(rt; free.filled, segment);
    assert!(rt; heap.used() >= 2 * segment);
    drop(attach(free.into_unfilled(), sole));
    assert_eq!(rt; heap.used(), 0);
    Ok(())
}

#[test]
fn a_part_of_a_piece_is_written(rt: HostRuntime) -> Result<(), Fail> {
    let mut range = Range::new(rt.alloc(), 0, 1)?;
    let mut piece = range.take(0, 8);
    piece.part_mut(2, 3).fill(9);
    assert!(rt; piece.bytes() == [0, 0, 9, 9, 9, 0, 0, 0].as_slice());
    Ok(())
}
