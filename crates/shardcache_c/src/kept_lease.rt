//! A boxed block as C holds it.
ghost use Rattle.std.specs.Prelude.{◌≡◌, Option, None, Some, IsSome};
ghost use Rattle.std.specs.Coded.{coded_option};
ghost use Rattle.shardcache_c.specs.LeaseKeeping.{keeps};
ghost use Rattle.shardcache_c.specs.contracts.lease.Lease.{the_row};

use crate::bare::Bare;
use crate::lease::Lease;
use std::alloc::Global;
use std::marker::Model;

/// A boxed block, or none.
#[repr(C)]
#[derive(Drop)]
pub struct KeptLease {
    at: *mut (),
    pub ghost value: { Option the_row.Denot } by { coded_option the_row.coded },
}

impl Model for KeptLease {
    ghost also_owns = { λ k. keeps k.at k.value };
}

impl KeptLease {
    /// The box, for C to hold.
    pub(crate) fn of(lease: Box<Lease, Global>) -> KeptLease
        ensures { result.value ≡ Some lease.value }
    {
        keep(Bare::of(lease))
    }

    /// The box again.
    pub(crate) fn into_box(self, alloc: Global) -> Box<Lease, Global>
        requires { IsSome self.value }
        ensures { Some result.value ≡ self.value }
    {
        unkept(self, alloc).into_box()
    }

    /// Nothing.
    pub(crate) fn empty() -> KeptLease
        ensures { result.value ≡ None }
    {
        KeptLease {
            at: std::ptr::null_mut(),
        }
    }
}

fn keep(bare: Bare<Lease, Global>) -> KeptLease
    ensures { result.value ≡ Some bare.value }
{
    let Bare { at, alloc: _ } = bare;
    KeptLease { at: at as *mut () }
}

fn unkept(kept: KeptLease, alloc: Global) -> Bare<Lease, Global>
    requires { IsSome kept.value }
    ensures { Some result.value ≡ kept.value }
{
    let KeptLease { at } = kept;
    Bare {
        at: at as *mut Lease,
        alloc,
    }
}
