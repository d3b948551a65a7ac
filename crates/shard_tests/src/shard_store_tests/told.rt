// Those that are told of rows, each by itself.
use shard_store::{EvictedTags, EvictionCount, Evictions};
use std::test::Fail;

// Tells of three rows. Answers how many tags there are, and how many did not fit.
fn tell_three(tags: &mut [u32]) -> (usize, u64) {
    let mut told = EvictedTags::new(tags);
    told.evicted(7);
    told.evicted(8);
    told.evicted(9);
    (told.told, told.missed)
}

fn told_to_two() -> ([u32; 2], (usize, u64)) {
    let mut tags = [0u32; 2];
    let counts = tell_three(&mut tags);
    (tags, counts)
}

#[test]
fn tags_are_told_in_order_as_far_as_they_fit(rt: HostRuntime) -> Result<(), Fail> {
    assert_eq!(rt; told_to_two(), ([7, 8], (2, 1)));
    Ok(())
}

fn counted_two() -> u64 {
    let mut told = EvictionCount::default();
    told.evicted(7);
    told.evicted(7);
    told.count
}

#[test]
fn each_row_that_goes_is_counted(rt: HostRuntime) -> Result<(), Fail> {
    assert_eq!(rt; counted_two(), 2);
    Ok(())
}
