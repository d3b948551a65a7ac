//! How many live bytes segments surely hold.
ghost use Rattle.std.specs.Prelude.{◌≡◌};
ghost use Rattle.segmented_store.specs.Room as bound;

use layout::DENSE;

/// The live bytes that so many segments of one group surely hold, however the objects stand in them.
pub fn room(segments: u32) -> u64
    ensures { result ≡ bound.room segments }
{
    u64::from(segments.saturating_sub(2)) * u64::from(DENSE)
}
