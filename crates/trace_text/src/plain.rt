//! Bytes that a value may have, many at a time.
ghost use Rattle.std.specs.Prelude.{◌≡◌, ◌+◌, ◌≤◌, length};
ghost use Rattle.trace_text.specs.inside.Plain.{ArePlain, IsPlainRun, first_set};

use std::simd::prelude::*;

const LANES: usize = 32;

// Bit k is set where byte k of the block is another.
fn stops_in_block(text: &[u8], at: usize) -> u64
    requires { at + LANES ≤ length text.now }
    ensures { IsPlainRun text.now at LANES (first_set result LANES) }
{
    let lanes = u8x32::from_slice(&text[at..]);
    let stops = lanes.simd_lt(u8x32::splat(32)) | lanes.simd_eq(u8x32::splat(127));
    stops.to_bitmask()
}

/// The length of a front of such bytes. It is the longest one, but for the last bytes of a text.
pub fn plain_front(text: &[u8]) -> usize
    ensures within { result ≤ length text.now }
    ensures plain { ArePlain text.now 0 result }
{
    let mut at = 0;
    while text.len() - at >= LANES {
        let stops = stops_in_block(text, at);
        if stops != 0 {
            return at + stops.trailing_zeros() as usize;
        }
        at += LANES;
    }
    at
}
