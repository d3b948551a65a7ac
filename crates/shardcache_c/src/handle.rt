//! What C holds of a cache.
ghost use Rattle.std.specs.Prelude.{◌≡◌, ◌≢◌, None, Some, IsNone, IsSome, MatchOption};

use crate::kept::Kept;
use crate::shard::Shard;
use std::alloc::Global;
use std::mem;

// What `state` is while a shard is kept.
const IS_KEPT: u32 = 1;

/// A shard, or none: all zero bytes are a handle that was never opened.
#[repr(C)]
#[derive(Drop)]
pub struct Handle {
    state: u32,
    pub(crate) kept: Kept,
    ghost is_kept: { state ≡ 1 → IsSome kept.value },
    ghost is_empty: { state ≢ 1 → IsNone kept.value },
}

impl Handle {
    // One that keeps nothing.
    fn empty() -> Handle
        ensures { result.kept.value ≡ None }
    {
        Handle {
            state: 0,
            kept: Kept::empty(),
        }
    }

    /// Takes the shard out. None where there is none.
    pub(crate) fn take(&mut self, alloc: Global) -> Option<Box<Shard, Global>>
        ensures taken { MatchOption result (IsNone self.old.kept.value × (self.new.kept.value ≡ self.old.kept.value))
            (λ shard. (self.old.kept.value ≡ Some shard.value) × (self.new.kept.value ≡ None)) }
    {
        if self.state != IS_KEPT {
            return None;
        }
        let Handle { state: _, kept } = mem::replace(self, Handle::empty());
        Some(kept.into_box(alloc))
    }

    /// Puts a shard in.
    pub(crate) fn put(&mut self, shard: Box<Shard, Global>)
        ensures { self.new.kept.value ≡ Some shard.value }
    {
        *self = Handle {
            state: IS_KEPT,
            kept: Kept::of(shard),
        };
    }
}
