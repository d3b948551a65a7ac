//! A boxed shard as C holds it.
ghost use Rattle.std.specs.Prelude.{◌≡◌, Option, None, Some, IsSome};
ghost use Rattle.std.specs.Coded.{coded_option};
ghost use Rattle.shardcache_c.specs.Keeping.{keeps};
ghost use Rattle.shardcache_c.specs.contracts.shard.Shard.{the_row};

use crate::bare::Bare;
use crate::shard::Shard;
use std::alloc::Global;
use std::marker::Model;

/// A boxed shard, or none.
#[repr(C)]
#[derive(Drop)]
pub struct Kept {
    at: *mut (),
    pub ghost value: { Option the_row.Denot } by { coded_option the_row.coded },
}

impl Model for Kept {
    ghost also_owns = { λ k. keeps k.at k.value };
}

impl Kept {
    /// The box, for C to hold.
    pub(crate) fn of(shard: Box<Shard, Global>) -> Kept
        ensures { result.value ≡ Some shard.value }
    {
        keep(Bare::of(shard))
    }

    /// The box again.
    pub(crate) fn into_box(self, alloc: Global) -> Box<Shard, Global>
        requires { IsSome self.value }
        ensures { Some result.value ≡ self.value }
    {
        unkept(self, alloc).into_box()
    }

    /// Nothing.
    pub(crate) fn empty() -> Kept
        ensures { result.value ≡ None }
    {
        Kept {
            at: std::ptr::null_mut(),
        }
    }
}

fn keep(bare: Bare<Shard, Global>) -> Kept
    ensures { result.value ≡ Some bare.value }
{
    let Bare { at, alloc: _ } = bare;
    Kept { at: at as *mut () }
}

fn unkept(kept: Kept, alloc: Global) -> Bare<Shard, Global>
    requires { IsSome kept.value }
    ensures { Some result.value ≡ kept.value }
{
    let Kept { at } = kept;
    Bare {
        at: at as *mut Shard,
        alloc,
    }
}
