//! Objects of each class taken, given back and trimmed, and how many pages are free afterwards.
ghost use Rattle.std.specs.Prelude.{◌≡◌, ◌<◌, OnOk, IfOk};
ghost use Rattle.std.specs.FinMap as map;
ghost use Rattle.small_pools.specs.Objects.{AreHeldIn};
ghost use Rattle.memory_tests.specs.Given.{AreAllocated};

use small_pools::{Pools, class_of};
use span_lists::Spans;
use std::alloc::{AllocError, Global};
use std::collections::VecDeque;
use std::test::Fail;

// How many classes there are.
const CLASSES: u8 = 37;

// Takes objects until there are so many, or none is left.
fn take_many(
    pools: &mut Pools,
    spans: &mut Spans,
    class: u8,
    most: u32,
    taken: &mut VecDeque<u32>,
) -> Result<u32, AllocError>
    requires class { class < 37 }
    requires held { AreHeldIn pools.old spans.old }
    requires allocated { AreAllocated pools.old.allocated taken.old.items }
    ensures held { AreHeldIn pools.new spans.new }
    ensures allocated { OnOk result (AreAllocated pools.new.allocated taken.new.items) }
{
    for count in 0..most {
        let Some(place) = pools.take(spans, class) else {
            return Ok(count);
        };
        taken.push_front(place)?;
    }
    Ok(most)
}

// Gives back what was taken, the last one first.
fn give_all(pools: &mut Pools, spans: &Spans, taken: &mut VecDeque<u32>)
    requires held { AreHeldIn pools.old spans.now }
    requires allocated { AreAllocated pools.old.allocated taken.old.items }
    ensures held { AreHeldIn pools.new spans.now }
    ensures allocated { AreAllocated pools.new.allocated taken.new.items }
{
    while let Some(place) = taken.pop_front() {
        pools.put(place);
    }
}

// Gives back the spans without an allocated object.
fn trim_all(pools: &mut Pools, spans: &mut Spans, taken: &VecDeque<u32>)
    requires held { AreHeldIn pools.old spans.old }
    requires allocated { AreAllocated pools.old.allocated taken.now.items }
    ensures held { AreHeldIn pools.new spans.new }
    ensures allocated { AreAllocated pools.new.allocated taken.now.items }
{
    let _ = taken.len();
    pools.trim(spans);
}

// Pools that hold nothing of pages that are all free.
fn fresh(alloc: Global) -> Result<(Spans, Pools), AllocError>
    ensures { IfOk result (λ made. AreHeldIn made.1 made.0 × (made.1.allocated ≡ map.empty)) }
{
    let spans = Spans::new(alloc, 1280)?;
    let pools = Pools::new(alloc, 1280)?;
    Ok((spans, pools))
}

// A call of the pools, and what it answers.
#[derive(Clone, Copy)]
enum Step {
    // Of a class, of so many objects, so many are taken.
    Take(u8, u32, u32),
    GiveAll,
    TrimAll,
    FreePages(u32),
    Largest(Option<u8>),
}

// Whether the step answers so.
fn answers(
    pools: &mut Pools,
    spans: &mut Spans,
    taken: &mut VecDeque<u32>,
    step: Step,
) -> Result<bool, AllocError>
    requires held { AreHeldIn pools.old spans.old }
    requires allocated { AreAllocated pools.old.allocated taken.old.items }
    ensures held { AreHeldIn pools.new spans.new }
    ensures allocated { OnOk result (AreAllocated pools.new.allocated taken.new.items) }
{
    match step {
        Step::Take(class, most, count) => {
            if class >= 37 {
                return Ok(false);
            }
            return Ok(take_many(pools, spans, class, most, taken)? == count);
        }
        Step::GiveAll => give_all(pools, spans, taken),
        Step::TrimAll => trim_all(pools, spans, taken),
        Step::FreePages(pages) => return Ok(spans.free_pages() == pages),
        Step::Largest(order) => return Ok(spans.largest() == order),
    }
    Ok(true)
}

fn first_wrong(
    pools: &mut Pools,
    spans: &mut Spans,
    taken: &mut VecDeque<u32>,
    steps: &[Step],
) -> Result<Option<usize>, AllocError>
    requires held { AreHeldIn pools.old spans.old }
    requires allocated { AreAllocated pools.old.allocated taken.old.items }
    ensures held { AreHeldIn pools.new spans.new }
    ensures allocated { OnOk result (AreAllocated pools.new.allocated taken.new.items) }
{
    for (order, step) in steps.iter().enumerate() {
        if !answers(pools, spans, taken, *step)? {
            return Ok(Some(order));
        }
    }
    Ok(None)
}

// Which step is the first that fresh pools answer otherwise.
fn wrong(alloc: Global, steps: &[Step]) -> Result<Option<usize>, AllocError> {
    let (mut spans, mut pools) = fresh(alloc)?;
    let mut taken = VecDeque::new(alloc);
    first_wrong(&mut pools, &mut spans, &mut taken, steps)
}

#[test]
fn the_least_class_holds_the_size(rt: HostRuntime) -> Result<(), Fail> {
    for (size, class) in [
        (0, Some(0)),
        (32, Some(0)),
        (33, Some(1)),
        (16384, Some(36)),
        (16385, None),
    ] {
        assert_eq!(rt; class_of(size), class);
    }
    Ok(())
}

#[test]
fn a_page_holds_128_of_the_least_objects(rt: HostRuntime) -> Result<(), Fail> {
    const STEPS: &[Step] = &[
        Step::Take(0, 128, 128),
        Step::FreePages(1279),
        Step::Take(0, 1, 1),
        Step::FreePages(1278),
        Step::GiveAll,
        Step::FreePages(1278),
        Step::Take(0, 1, 1),
        Step::TrimAll,
        Step::FreePages(1279),
        Step::GiveAll,
        Step::TrimAll,
        Step::FreePages(1280),
        Step::Largest(Some(10)),
    ];
    assert_eq!(rt; wrong(rt.alloc(), STEPS)?, None);
    Ok(())
}

// How many pages are free where a class was used up and given back.
fn free_behind(
    pools: &mut Pools,
    spans: &mut Spans,
    taken: &mut VecDeque<u32>,
    class: u8,
) -> Result<u32, AllocError>
    requires class { class < 37 }
    requires held { AreHeldIn pools.old spans.old }
    requires allocated { AreAllocated pools.old.allocated taken.old.items }
    ensures held { AreHeldIn pools.new spans.new }
    ensures allocated { OnOk result (AreAllocated pools.new.allocated taken.new.items) }
{
    take_many(pools, spans, class, 200_000, taken)?;
    give_all(pools, spans, taken);
    trim_all(pools, spans, taken);
    Ok(spans.free_pages())
}

// The first class behind which not all pages are free.
fn first_left(
    pools: &mut Pools,
    spans: &mut Spans,
    taken: &mut VecDeque<u32>,
) -> Result<Option<u8>, AllocError>
    requires held { AreHeldIn pools.old spans.old }
    requires allocated { AreAllocated pools.old.allocated taken.old.items }
{
    for class in 0..CLASSES {
        if free_behind(pools, spans, taken, class)? != 1280 {
            return Ok(Some(class));
        }
    }
    Ok(None)
}

#[test]
fn every_class_used_up_and_given_back_leaves_all_pages(rt: HostRuntime) -> Result<(), Fail> {
    let (mut spans, mut pools) = fresh(rt.alloc())?;
    let mut taken = VecDeque::new(rt.alloc());
    assert_eq!(rt; first_left(&mut pools, &mut spans, &mut taken)?, None);
    Ok(())
}

// Two spans, which are all of 1280 pages, and an object.
fn take_beyond(spans: &mut Spans, pools: &mut Pools) -> (Option<u32>, Option<u32>, Option<u32>)
    requires pages { spans.old.pages ≡ pools.old.pages }
    requires none_held { pools.old.held ≡ map.empty }
{
    let first = spans.take(10);
    let second = spans.take(8);
    (first, second, pools.take(spans, 0))
}

fn take_without_pages(
    alloc: Global,
) -> Result<(Option<u32>, Option<u32>, Option<u32>), AllocError> {
    let mut spans = Spans::new(alloc, 1280)?;
    let mut pools = Pools::new(alloc, 1280)?;
    Ok(take_beyond(&mut spans, &mut pools))
}

#[test]
fn without_pages_no_object_is_given(rt: HostRuntime) -> Result<(), Fail> {
    assert_eq!(rt;
        take_without_pages(rt.alloc())?,
        (Some(0), Some(1024), None)
    );
    Ok(())
}
