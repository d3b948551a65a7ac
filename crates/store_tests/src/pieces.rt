//! The memory of a segment, for the tests of stores.
ghost use Rattle.std.specs.Prelude.{◌≡◌, length, IfOk};
ghost use Rattle.layout.specs.Sizes as sizes;

use layout::{SEGMENT, SEGMENT_PAGES};
use raw_range::{Piece, Range};
use std::alloc::{AllocError, Global};

/// The piece of a segment, of a range of its own.
pub fn piece(alloc: Global, owner: u32) -> Result<Piece, AllocError>
    ensures { IfOk result (λ p. length p.bytes ≡ sizes.segment) }
{
    let mut range = Range::new(alloc, owner, SEGMENT_PAGES)?;
    Ok(range.take(0, SEGMENT))
}
