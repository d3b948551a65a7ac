//! A cache and its segments.
ghost use Rattle.std.specs.Prelude.{◌≡◌, ◌-◌, ◌*◌, ◌^◌, ◌<◌, ◌≤◌, [], IfOk};
ghost use Rattle.layout.specs.Sizes as sizes;
ghost use Rattle.regions.specs.Shapes.{shape, held_count};

use layout::{SEGMENT, SEGMENT_PAGES};
use regions::Range;
use row_cache::RowCache;
use std::alloc::{AllocError, Global};

/// A cache with room for so many rows and with free segments: the pieces of one range, side by side.
pub fn new_cache(alloc: Global, rows: u32, segments: u32) -> Result<RowCache, AllocError>
    requires rows { rows < 2 ^ 32 - 1 }
    requires some { 0 < segments }
    requires few { sizes.segment_pages * segments ≤ sizes.most_pages }
    ensures { IfOk result (λ c. c.room ≡ rows) }
{
    let mut range = Range::new(alloc, 0, segments * SEGMENT_PAGES)?;
    let mut cache = RowCache::new(alloc, rows, segments, 1)?;
    add_segments(&mut cache, &mut range, segments);
    Ok(cache)
}

/// Adds the pieces of a range to a cache without segments.
fn add_segments(cache: &mut RowCache, range: &mut Range, segments: u32)
    requires few { sizes.segment_pages * segments ≤ sizes.most_pages }
    requires none { held_count cache.old.region ≡ 0 }
    requires most { (shape cache.old.region).most ≡ segments }
    requires pages { range.old.pages ≡ sizes.segment_pages * segments }
    requires allocated { range.old.allocated ≡ [] }
    ensures room { cache.new.room ≡ cache.old.room }
{
    for number in 0..segments {
        cache.add_segment(range.take(number * SEGMENT, SEGMENT));
    }
}
