//! Values of all lengths, and calls drawn at random beside a plain map.
mod drawn;
mod steps;
mod trial;

use drawn::first_wrong;
use std::test::Fail;
use steps::{Step, played};

#[test]
fn a_value_is_stored_read_and_dropped(rt: HostRuntime) -> Result<(), Fail> {
    let steps = [
        Step::Put(1, 5),
        Step::Holds(1, 5),
        Step::Live(40),
        Step::Erase(1, true),
        Step::Lacks(1),
        Step::Erase(1, false),
        Step::Live(0),
        // what is given up can be used again
        Step::Put(0, 3),
        Step::GiveUp,
        Step::Lacks(0),
        Step::Live(0),
        Step::Put(0, 4),
        Step::Holds(0, 4),
    ];
    assert_eq!(rt; played(rt.alloc(), 4, &steps)?, None);
    Ok(())
}

#[test]
fn values_of_all_lengths_are_read_as_they_were_written(rt: HostRuntime) -> Result<(), Fail> {
    let steps = [
        Step::Put(2, 0),
        Step::Holds(2, 0),
        Step::Live(32),
        Step::Put(2, 1),
        Step::Holds(2, 1),
        Step::Live(40),
        Step::Put(2, 12_263),
        Step::Holds(2, 12_263),
        Step::Live(12_296),
        Step::Put(2, 12_264),
        Step::Holds(2, 12_264),
        Step::Live(12_296),
        Step::Put(2, 12_265),
        Step::Holds(2, 12_265),
        Step::Live(12_336),
        Step::Put(2, 24_528),
        Step::Holds(2, 24_528),
        Step::Live(24_592),
        Step::Put(2, 1_048_575),
        Step::Holds(2, 1_048_575),
        Step::Live(1_051_328),
        Step::Put(2, 1_048_576),
        Step::Holds(2, 1_048_576),
        Step::Live(1_051_328),
        Step::TooLong(2, 1_048_577),
        Step::Holds(2, 1_048_576),
    ];
    assert_eq!(rt; played(rt.alloc(), 40, &steps)?, None);
    Ok(())
}

#[test]
fn forty_segments_hold_four_of_the_greatest_values(rt: HostRuntime) -> Result<(), Fail> {
    let steps = [
        Step::Put(1, 1_048_576),
        Step::Put(2, 1_048_576),
        Step::Put(3, 1_048_576),
        Step::Put(4, 1_048_576),
        Step::NoRoom(5, 1_048_576),
        Step::Live(4_205_312),
        Step::Holds(1, 1_048_576),
        Step::Holds(2, 1_048_576),
        Step::Holds(3, 1_048_576),
        Step::Holds(4, 1_048_576),
        Step::Lacks(5),
        // the old value counts as well
        Step::NoRoom(1, 1_048_576),
    ];
    assert_eq!(rt; played(rt.alloc(), 40, &steps)?, None);
    Ok(())
}

#[test]
fn a_guard_keeps_every_piece_where_it_is(rt: HostRuntime) -> Result<(), Fail> {
    let steps = [
        Step::Put(0, 30_000),
        Step::Put(2, 50_000),
        Step::Guard,
        Step::Holds(0, 30_000),
        Step::Guarded(1, 3),
        Step::Erase(2, true),
        Step::Holds(0, 30_000),
        Step::Unguard,
        Step::Put(1, 3),
        Step::Holds(0, 30_000),
    ];
    assert_eq!(rt; played(rt.alloc(), 4, &steps)?, None);
    Ok(())
}

#[test]
fn the_store_agrees_with_a_plain_map(rt: HostRuntime) -> Result<(), Fail> {
    assert_eq!(rt; first_wrong(rt.alloc(), 20_000)?, None);
    Ok(())
}
