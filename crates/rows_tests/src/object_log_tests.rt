//! Tests of `object_log`: the layout byte for byte, and segments that are filled to the end.
ghost use Rattle.std.specs.Prelude.{◌≡◌, ℕ, ◌+◌, ◌≤◌, length};
ghost use Rattle.layout.specs.Sizes as sizes;
ghost use Rattle.object_log.specs.Objects.{objects, IsSize, IsSegment, LivesAt};

use object_log::{Descriptor, State, Walk, append, kill, read_descriptor};
use std::test::Fail;

fn has(segment: &[u8], from: usize, bytes: &[u8]) -> bool {
    from <= segment.len() && segment[from..].starts_with(bytes)
}

// An object of 48 bytes, in front.
fn lay(segment: &mut [u8]) -> Descriptor
    requires { length segment.old ≡ sizes.segment }
    ensures { (used : ℕ) × IsSegment segment.new used × LivesAt 0 (objects segment.new used) }
{
    let _used = append(segment, 0, 1, 48);
    read_descriptor(segment, 0)
}

#[test]
fn the_first_object_is_laid_byte_for_byte(rt: HostRuntime) -> Result<(), Fail> {
    let mut segment = Vec::from_elem(rt.alloc(), 255u8, 131_072)?;
    let segment = segment.as_mut_slice();
    let first = lay(segment);
    let laid = [
        has(segment, 0, &[1, 1, 0, 0, 48, 0, 0, 0]),
        has(segment, 8, &[0; 48]),
        has(segment, 56, &[255]),
    ];
    kill(segment, 0);
    let killed = has(segment, 0, &[2, 1, 0, 0, 48, 0, 0, 0, 0]);
    assert_eq!(rt; (first.state, first.kind, first.size), (State::Live, 1, 48));
    assert_eq!(rt; (laid, killed), ([true; 3], true));
    Ok(())
}

// Ten of the greatest objects and then two, and how many a walk finds and the sum of their offsets.
fn fill(segment: &mut [u8], size: u32, last: u32) -> (u32, u64)
    requires segment { length segment.old ≡ sizes.segment }
    requires sizes { IsSize size × IsSize last }
    requires room { size + last ≤ 8112 }
{
    let mut used = 0;
    for i in 0..10 {
        used = append(segment, used, 1 + i, 12_296);
    }
    used = append(segment, used, 2, size);
    used = append(segment, used, 2, last);
    let mut sum = 0u64;
    for at in Walk::new(segment, used) {
        sum = sum.wrapping_add(at as u64);
    }
    (used, sum)
}

#[test]
fn a_segment_is_filled_with_and_without_room_for_the_end(rt: HostRuntime) -> Result<(), Fail> {
    let mut segment = Vec::from_elem(rt.alloc(), 255u8, 131_072)?;
    let with_room = fill(segment.as_mut_slice(), 16, 8088);
    let end = has(segment.as_slice(), 131_064, &[0; 8]);
    let without = fill(segment.as_mut_slice(), 16, 8096);
    let last = has(segment.as_slice(), 122_976, &[1, 2, 0, 0, 0xa0, 0x1f, 0, 0]);
    // The sum is of 12,296 times 0 to 10, and 122,976.
    assert_eq!(rt; with_room, (131_064, 799_256));
    assert_eq!(rt; without, (131_072, 799_256));
    assert_eq!(rt; (end, last), (true, true));
    Ok(())
}
