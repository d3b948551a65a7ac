//! How blocks of other shards go home.
ghost use Rattle.std.specs.Prelude.{◌≡◌, ◌↔◌, Some, None, IsTrue, IsSome, IsNone};
ghost use Rattle.part_lemmas.specs.Releases.{Tries};

use foreign_list::{ForeignBlock, Raced, Tally};

/// Tries a block once. One that was raced comes back, to wait.
pub fn release<'f>(block: ForeignBlock<'f>, tally: &mut Tally) -> Option<ForeignBlock<'f>>
    ensures { Tries (Some block.entry) result tally.old tally.new }
{
    match block.release() {
        Ok(released) => {
            tally.add(released);
            None
        }
        Err(Raced { block, .. }) => Some(block),
    }
}

/// Tries what waits once. True where it was released.
pub(crate) fn release_held<'f>(held: &mut Option<ForeignBlock<'f>>, tally: &mut Tally) -> bool
    ensures tries { Tries held.old held.new tally.old tally.new }
    ensures released { IsTrue result ↔ IsSome held.old × IsNone held.new }
{
    if held.is_none() {
        return false;
    }
    let Some(block) = held.take() else {
        return false;
    };
    *held = release(block, tally);
    held.is_none()
}
