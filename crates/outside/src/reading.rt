//! All bytes of a source.
ghost use Rattle.std.specs.Prelude.{◌≡◌, ◌≢◌, ◌+◌, ◌^◌, ◌<◌, ◌≤◌, length, take, drop, vec_len, Err, OnOk, IfOk, OnErr, IfSome};
ghost use Rattle.std.specs.Io.KnownBytes.{Consumes, IsAtEnd, Keeps};
ghost use Rattle.outside.specs.Moves.{ConsumesExactly, ConsumesUpTo};
ghost use Rattle.layout.specs.Counts.{Rose};
ghost use Rattle.layout.specs.Sizes.{most_trace_bytes};

use crate::{Failed, Source};
use std::alloc::{AllocError, Global};
use thiserror::Error;

/// Why [`read_all`] stopped before the end of the input.
#[derive(Clone, Copy, Debug, PartialEq, Eq, Error)]
pub enum ReadStop {
    /// The source failed.
    #[error("the source failed")]
    Fault,
    /// There are more bytes than the limit.
    #[error("the input is too long")]
    TooLong,
    /// No memory was left.
    #[error("no memory is left")]
    Memory,
}

// How many bytes a read asks for at most.
const PIECE: usize = 256 * 1024;

// How many the first read asks for.
const FIRST_PIECE: usize = 4 * 1024;

// What room for a read is made of, copied as a whole.
static ZEROS: [u8; PIECE] = [0; PIECE];

/// Reads to the end of the input, of at most `limit` bytes.
///
/// # Errors
///
/// [`ReadStop::Fault`] where the source failed, [`ReadStop::TooLong`] once `limit + 1` bytes were
/// taken, [`ReadStop::Memory`] where no room could be made. What was taken is lost.
pub fn read_all<S: Source>(alloc: Global, source: &mut S, limit: u32) -> Result<Vec<u8>, ReadStop>
    requires { limit ≤ most_trace_bytes }

    // All that was left, which is at most `limit` bytes.
    ensures all { IfOk result (λ bytes. IfSome (S.left source.old) (λ left. bytes.items ≡ left)) }
    ensures taken { IfOk result (λ bytes. Consumes (S.left source.old) (S.left source.new) bytes.items) }
    ensures at_end { OnOk result (IsAtEnd (S.left source.new)) }
    ensures within { IfOk result (λ bytes. vec_len bytes ≤ limit) }

    // Too long is more than `limit` bytes, of which one above the limit was taken.
    ensures longer { result ≡ Err ReadStop.TooLong → IfSome (S.left source.old) (λ left. limit < length left) }
    ensures one_above { result ≡ Err ReadStop.TooLong → ConsumesExactly (S.left source.old) (S.left source.new) (limit + 1) }
    ensures no_more { result ≢ Err ReadStop.TooLong → ConsumesUpTo (S.left source.old) (S.left source.new) limit }

    ensures fault { result ≡ Err ReadStop.Fault → Rose (S.faults source.old) (S.faults source.new) }
    ensures never_falls { S.faults source.old ≤ S.faults source.new }
{
    let most = limit as usize + 1;
    let mut bytes = Vec::new(alloc);
    let mut filled = 0;
    while filled < most {
        let count = read_more(source, &mut bytes, filled, most)?;
        if count == 0 {
            bytes.truncate(filled);
            return Ok(bytes);
        }
        filled += count;
    }
    Err(ReadStop::TooLong)
}

// One read after the first `filled` bytes. Room is made first, so that a want of memory takes no
// byte of the source.
fn read_more<S: Source>(
    source: &mut S,
    bytes: &mut Vec<u8>,
    filled: usize,
    most: usize,
) -> Result<usize, ReadStop>
    // Where the next bytes go.
    requires within { filled ≤ vec_len bytes.old }
    requires bound { vec_len bytes.old ≤ most }
    requires more { filled < most }
    requires small { most < 2 ^ 32 }

    // The bytes before are kept.
    ensures front { take filled bytes.new.items ≡ take filled bytes.old.items }
    ensures stays { filled ≤ vec_len bytes.new }
    ensures bound { vec_len bytes.new ≤ most }

    // What a read gives.
    ensures fits { IfOk result (λ count. filled + count ≤ vec_len bytes.new) }
    ensures next { IfOk result (λ count. Consumes (S.left source.old) (S.left source.new) (take count (drop filled bytes.new.items))) }
    ensures end { IfOk result (λ count. count ≡ 0 → IsAtEnd (S.left source.new)) }

    // Why it gives none.
    ensures none_lost { OnErr result (Keeps (S.left source.old) (S.left source.new)) }
    ensures not_long { result ≢ Err ReadStop.TooLong }
    ensures fault { result ≡ Err ReadStop.Fault → Rose (S.faults source.old) (S.faults source.new) }
    ensures never_falls { S.faults source.old ≤ S.faults source.new }
{
    make_room(bytes, filled, most).map_err(|_| ReadStop::Memory)?;
    read_at(source, bytes.as_mut_slice(), filled).map_err(|_| ReadStop::Fault)
}

// One read into the part of `bytes` from `at` on.
fn read_at<S: Source>(source: &mut S, bytes: &mut [u8], at: usize) -> Result<usize, Failed>
    requires { at < length bytes.old }

    // What it reads stands behind the others.
    ensures front { take at bytes.new ≡ take at bytes.old }
    ensures fits { IfOk result (λ count. at + count ≤ length bytes.new) }
    ensures next { IfOk result (λ count. Consumes (S.left source.old) (S.left source.new) (take count (drop at bytes.new))) }
    ensures end { IfOk result (λ count. count ≡ 0 → IsAtEnd (S.left source.new)) }

    // A failure takes nothing, and is counted.
    ensures none_lost { OnErr result (Keeps (S.left source.old) (S.left source.new)) }
    ensures failed { OnErr result (Rose (S.faults source.old) (S.faults source.new)) }
    ensures never_falls { S.faults source.old ≤ S.faults source.new }
{
    source.read(&mut bytes[at..])
}

// Makes room for a read after the first `filled` bytes, up to `most` bytes in all. It asks for as many as
// were read, up to a piece, so that short inputs touch little. The memory doubles; the zeros reach only as
// far as the next read.
fn make_room(bytes: &mut Vec<u8>, filled: usize, most: usize) -> Result<(), AllocError>
    // Where the next bytes go.
    requires within { filled ≤ vec_len bytes.old }
    requires bound { vec_len bytes.old ≤ most }
    requires more { filled < most }
    requires small { most < 2 ^ 32 }

    // The bytes before are kept.
    ensures front { take filled bytes.new.items ≡ take filled bytes.old.items }
    ensures stays { filled ≤ vec_len bytes.new }

    // Behind them is place for more.
    ensures bound { vec_len bytes.new ≤ most }
    ensures room { OnOk result (filled < vec_len bytes.new) }
{
    let end = (filled + filled.clamp(FIRST_PIECE, PIECE)).min(most);
    if end <= bytes.len() {
        return Ok(());
    }
    if bytes.capacity() < end {
        let capacity = bytes.capacity().saturating_mul(2).min(most).max(end);
        bytes.reserve_exact(capacity - bytes.len())?;
    }
    bytes.extend_from_slice(&ZEROS[..end - bytes.len()])
}
