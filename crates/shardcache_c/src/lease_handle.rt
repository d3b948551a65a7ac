//! What C holds of a block.
ghost use Rattle.std.specs.Prelude.{◌≡◌, ◌≢◌, None, Some, IsNone, IsSome, MatchOption};

use crate::kept_lease::KeptLease;
use crate::lease::Lease;
use std::alloc::Global;
use std::mem;

// What `state` is while a block is kept.
const IS_KEPT: u32 = 1;

/// A block, or none: all zero bytes are a handle that was never opened.
#[repr(C)]
#[derive(Drop)]
pub struct LeaseHandle {
    state: u32,
    pub(crate) kept: KeptLease,
    ghost is_kept: { state ≡ 1 → IsSome kept.value },
    ghost is_empty: { state ≢ 1 → IsNone kept.value },
}

impl LeaseHandle {
    // One that keeps nothing.
    fn empty() -> LeaseHandle
        ensures { result.kept.value ≡ None }
    {
        LeaseHandle {
            state: 0,
            kept: KeptLease::empty(),
        }
    }

    /// Takes the block out. None where there is none.
    pub(crate) fn take(&mut self, alloc: Global) -> Option<Box<Lease, Global>>
        ensures taken { MatchOption result (IsNone self.old.kept.value × (self.new.kept.value ≡ self.old.kept.value))
            (λ lease. (self.old.kept.value ≡ Some lease.value) × (self.new.kept.value ≡ None)) }
    {
        if self.state != IS_KEPT {
            return None;
        }
        let LeaseHandle { state: _, kept } = mem::replace(self, LeaseHandle::empty());
        Some(kept.into_box(alloc))
    }

    /// Puts a block in.
    pub(crate) fn put(&mut self, lease: Box<Lease, Global>)
        ensures { self.new.kept.value ≡ Some lease.value }
    {
        *self = LeaseHandle {
            state: IS_KEPT,
            kept: KeptLease::of(lease),
        };
    }
}
