//! What C holds of a mailbox.
ghost use Rattle.std.specs.Prelude.{◌≡◌, ◌≢◌, None, Some, IsNone, IsSome, MatchOption};

use crate::kept_mailbox::KeptMailbox;
use mailbox::Mailbox;
use std::alloc::Global;
use std::mem;

// What `state` is while a mailbox is kept.
const IS_KEPT: u32 = 1;

/// A mailbox, or none: all zero bytes are a handle that was never opened.
#[repr(C)]
#[derive(Drop)]
pub struct MailboxHandle {
    state: u32,
    pub(crate) kept: KeptMailbox,
    ghost is_kept: { state ≡ 1 → IsSome kept.value },
    ghost is_empty: { state ≢ 1 → IsNone kept.value },
}

impl MailboxHandle {
    // One that keeps nothing.
    fn empty() -> MailboxHandle
        ensures { result.kept.value ≡ None }
    {
        MailboxHandle {
            state: 0,
            kept: KeptMailbox::empty(),
        }
    }

    /// Takes the mailbox out. None where there is none.
    pub(crate) fn take(&mut self, alloc: Global) -> Option<Box<Mailbox, Global>>
        ensures taken { MatchOption result (IsNone self.old.kept.value × (self.new.kept.value ≡ self.old.kept.value))
            (λ mailbox. (self.old.kept.value ≡ Some mailbox.value) × (self.new.kept.value ≡ None)) }
    {
        if self.state != IS_KEPT {
            return None;
        }
        let MailboxHandle { state: _, kept } = mem::replace(self, MailboxHandle::empty());
        Some(kept.into_box(alloc))
    }

    /// Puts a mailbox in.
    pub(crate) fn put(&mut self, mailbox: Box<Mailbox, Global>)
        ensures { self.new.kept.value ≡ Some mailbox.value }
    {
        *self = MailboxHandle {
            state: IS_KEPT,
            kept: KeptMailbox::of(mailbox),
        };
    }
}
