//! A boxed mailbox as C holds it.
ghost use Rattle.std.specs.Prelude.{◌≡◌, Option, None, Some, IsSome};
ghost use Rattle.std.specs.Coded.{coded_option};
ghost use Rattle.shardcache_c.specs.MailboxKeeping.{keeps};
ghost use Rattle.mailbox.specs.contracts.mailbox.Mailbox.{the_row};

use crate::bare::Bare;
use mailbox::Mailbox;
use std::alloc::Global;
use std::marker::Model;

/// A boxed mailbox, or none.
#[repr(C)]
#[derive(Drop)]
pub struct KeptMailbox {
    at: *mut (),
    pub ghost value: { Option the_row.Denot } by { coded_option the_row.coded },
}

impl Model for KeptMailbox {
    ghost also_owns = { λ k. keeps k.at k.value };
}

impl KeptMailbox {
    /// The box, for C to hold.
    pub(crate) fn of(mailbox: Box<Mailbox, Global>) -> KeptMailbox
        ensures { result.value ≡ Some mailbox.value }
    {
        keep(Bare::of(mailbox))
    }

    /// The box again.
    pub(crate) fn into_box(self, alloc: Global) -> Box<Mailbox, Global>
        requires { IsSome self.value }
        ensures { Some result.value ≡ self.value }
    {
        unkept(self, alloc).into_box()
    }

    /// Nothing.
    pub(crate) fn empty() -> KeptMailbox
        ensures { result.value ≡ None }
    {
        KeptMailbox {
            at: std::ptr::null_mut(),
        }
    }
}

fn keep(bare: Bare<Mailbox, Global>) -> KeptMailbox
    ensures { result.value ≡ Some bare.value }
{
    let Bare { at, alloc: _ } = bare;
    KeptMailbox { at: at as *mut () }
}

fn unkept(kept: KeptMailbox, alloc: Global) -> Bare<Mailbox, Global>
    requires { IsSome kept.value }
    ensures { Some result.value ≡ kept.value }
{
    let KeptMailbox { at } = kept;
    Bare {
        at: at as *mut Mailbox,
        alloc,
    }
}
