//! The memory of a segment.
ghost use Rattle.std.specs.Prelude.{◌≡◌, ◌+◌, ◌≤◌, length, IfOk};
ghost use Rattle.layout.specs.Sizes as sizes;
ghost use Rattle.regions.specs.Shapes.{shape, held_count};
ghost use Rattle.regions.specs.Contents.{Keeps};

use layout::{SEGMENT, SEGMENT_PAGES};
use regions::{Piece, Range, Region};
use std::alloc::{AllocError, Global};

/// The piece of a segment, of a range of its own.
pub fn piece(alloc: Global, owner: u32) -> Result<Piece, AllocError>
    ensures { IfOk result (λ p. length p.bytes ≡ sizes.segment) }
{
    let mut range = Range::new(alloc, owner, SEGMENT_PAGES)?;
    Ok(range.take(0, SEGMENT))
}

/// So many segments more, whose pieces have the owners 0, 1 and so on.
pub fn add_segments(alloc: Global, region: &mut Region, segments: u32) -> Result<(), AllocError>
    requires { held_count region.old + segments ≤ (shape region.old).most }
    ensures { Keeps region.old region.new }
{
    for owner in 0..segments {
        region.add_segment(piece(alloc, owner)?);
    }
    Ok(())
}
