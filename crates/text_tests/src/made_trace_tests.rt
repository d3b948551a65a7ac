//! What a trace that is made of a number looks like, and that it is accepted.

use made_trace::make_trace;
use std::test::Fail;
use trace_text::parse;

/// The bytes of the text, together.
fn sum_of(text: &[u8]) -> u64 {
    let mut sum = 0u64;
    for byte in text {
        sum = sum.wrapping_add(u64::from(*byte));
    }
    sum
}

// `bench/traces.py gen FILE --number 21317 --scale 0.00006`, which has a generator of its own, writes the same lines.
#[test]
fn a_number_makes_these_lines(rt: HostRuntime) -> Result<(), Fail> {
    let wanted =
        b"put k5975 bcdefghijklmnopqrstuvwxyzabcdefghijklmnopqrstuvwxyzabcdefghijklmnopqrstuvwxyzabcdefghijklmnopqrstuvwx\n\
        get k19141\nget k15411\nscan k7242 16\nerase k7687\nget k16141\n";
    assert!(rt; make_trace(rt.alloc(), 21_317, 6)?.as_slice() == wanted.as_slice());
    Ok(())
}

// Both are those of what `bench/traces.py gen FILE --number 7 --scale 0.01` writes.
#[test]
fn a_longer_trace_has_this_length_and_sum(rt: HostRuntime) -> Result<(), Fail> {
    let trace = make_trace(rt.alloc(), 7, 1000)?;
    assert!(rt; trace.len() == 451_977);
    assert!(rt; sum_of(&trace) == 49_025_197);
    Ok(())
}

#[test]
fn no_command_makes_no_line(rt: HostRuntime) -> Result<(), Fail> {
    assert!(rt; make_trace(rt.alloc(), 7, 0)?.is_empty());
    Ok(())
}

#[test]
fn a_made_trace_is_accepted(rt: HostRuntime) -> Result<(), Fail> {
    let trace = make_trace(rt.alloc(), 7, 100)?;
    assert!(rt; trace.len() < 67_108_864);
    assert!(rt; parse(rt.alloc(), trace, 4).is_ok_and(|trace| trace.commands().len() == 100));
    Ok(())
}
