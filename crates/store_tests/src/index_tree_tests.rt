//! Keys that come, go and are read, and calls drawn at random beside the standard library's ordered map.
mod drawn;
mod keys;
mod trial;

use drawn::{Calls, first_wrong};
use keys::Keys;
use std::test::Fail;
use trial::{Trial, all_gone, comes_and_goes};

#[test]
fn keys_come_go_and_are_read(rt: HostRuntime) -> Result<(), Fail> {
    let mut trial = Trial::new(rt.alloc(), 4)?;
    assert!(rt; trial.height() == 0 && trial.len() == 0);
    assert!(rt; trial.insert(b"b", 1) == Some(Ok(None)));
    assert!(rt; trial.insert(b"a", 2) == Some(Ok(None)));
    assert!(rt; trial.get(b"b") == Some(1) && trial.get(b"c") == None);
    assert!(rt; trial.reads(b"a", 5, b"\x01\0a\x01\0b", 2));
    assert!(rt; trial.reads(b"aa", 5, b"\x01\0b", 1));
    assert!(rt; trial.reads(b"c", 5, b"", 0));
    assert!(rt; trial.insert(b"b", 7) == Some(Ok(Some(1))));
    assert!(rt; trial.remove(b"a") == Some(2) && trial.remove(b"a") == None);
    assert!(rt; trial.height() == 1 && trial.len() == 1);
    // What is given up can be used again.
    assert!(rt; trial.give_up());
    assert!(rt; trial.len() == 0 && trial.get(b"b") == None);
    assert!(rt; trial.insert(b"a", 3) == Some(Ok(None)));
    Ok(())
}

#[test]
fn a_guard_keeps_keys_from_coming(rt: HostRuntime) -> Result<(), Fail> {
    let mut trial = Trial::new(rt.alloc(), 3)?;
    assert!(rt; trial.insert(b"a", 1) == Some(Ok(None)));
    assert!(rt; trial.guard() && trial.guard());
    assert!(rt; trial.insert(b"b", 2) == None);
    assert!(rt; trial.remove(b"a") == Some(1));
    assert!(rt; trial.unguard());
    assert!(rt; trial.insert(b"b", 2) == None);
    assert!(rt; trial.unguard());
    assert!(rt; trial.insert(b"b", 2) == Some(Ok(None)));
    Ok(())
}

/// Of 3 segments 1 is dense, which holds 27 nodes: nine fewer, each with seven keys, are 126; and so on.
#[test]
fn the_key_behind_the_last_finds_no_room(rt: HostRuntime) -> Result<(), Fail> {
    for (segments, most) in [(3, 126), (4, 315), (5, 504), (8, 1071)] {
        let mut trial = Trial::new(rt.alloc(), segments)?;
        assert!(rt; trial.fills_up(&Keys::Ascending, most));
    }
    Ok(())
}

#[test]
fn keys_come_and_go_in_any_order(rt: HostRuntime) -> Result<(), Fail> {
    for keys in [
        Keys::Ascending,
        Keys::Descending,
        Keys::Scattered,
        Keys::Long,
    ] {
        let mut trial = Trial::new(rt.alloc(), 12)?;
        for _ in 0..2 {
            assert!(rt; comes_and_goes(&mut trial, &keys, 1500));
            assert!(rt; all_gone(&trial));
        }
    }
    Ok(())
}

#[test]
fn the_index_agrees_with_an_ordered_map(rt: HostRuntime) -> Result<(), Fail> {
    // few segments, so that nodes move again and again
    for (keys, segments, calls) in [
        (Keys::Scattered, 4, 40_000),
        (Keys::Long, 5, 30_000),
        (Keys::Ascending, 9, 30_000),
    ] {
        let calls = Calls {
            keys,
            segments,
            calls,
        };
        assert_eq!(rt; first_wrong(rt.alloc(), &calls)?, None);
    }
    Ok(())
}
