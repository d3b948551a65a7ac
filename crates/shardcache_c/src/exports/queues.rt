//! Mailboxes, over which threads send each other messages.
ghost use Rattle.std.specs.Prelude.{◌≡◌, ◌≢◌, None, Some, IsNone, IfSome, ◌⊎◌};
ghost use Rattle.mailbox.specs.Messages.{Messages, unused, with_popped, with_pushed};
ghost use Rattle.shardcache_c.specs.Refusals.{RefusesPop, RefusesPush, RefusesQueueClosing, RefusesQueueOpening, RefusesShare};

use crate::codes::{BAD_SIZE, CLOSED, DONE, EMPTY, FULL, NO_MEMORY, OPEN_ALREADY, RACED};
use crate::mailbox_handle::MailboxHandle;
use mailbox::{Mailbox, Pop, Push};
use std::alloc::Global;

/// Opens a mailbox of a new queue with so many places.
#[unsafe(no_mangle)]
pub extern "C" fn shardcache_queue_open(
    alloc: Global,
    queue: &mut MailboxHandle,
    places: u32,
) -> u32
    ensures done { result ≡ 0 → IsNone queue.old.kept.value × (opened : Messages) × (queue.new.kept.value ≡ Some opened)
        × (opened ≡ unused opened.queue) }
    ensures refused { result ≢ 0 → queue.new.kept.value ≡ queue.old.kept.value }
    ensures why { result ≢ 0 → RefusesQueueOpening result places queue.old.kept.value }
{
    if places == 0 {
        return BAD_SIZE;
    }
    if let Some(mailbox) = queue.take(alloc) {
        queue.put(mailbox);
        return OPEN_ALREADY;
    }
    let Ok(mailbox) = Mailbox::new(alloc, places as usize) else {
        return NO_MEMORY;
    };
    let Ok(mailbox) = Box::new(alloc, mailbox) else {
        return NO_MEMORY;
    };
    queue.put(mailbox);
    DONE
}

/// Opens another mailbox of the same queue, for another thread.
#[unsafe(no_mangle)]
pub extern "C" fn shardcache_queue_share(
    alloc: Global,
    queue: &mut MailboxHandle,
    other: &mut MailboxHandle,
) -> u32
    ensures done { result ≡ 0 → IsNone other.old.kept.value × (shared : Messages) × (queue.old.kept.value ≡ Some shared)
        × (other.new.kept.value ≡ Some (unused shared.queue)) }
    ensures unchanged { queue.new.kept.value ≡ queue.old.kept.value }
    ensures refused { result ≢ 0 → other.new.kept.value ≡ other.old.kept.value }
    ensures why { result ≢ 0 → RefusesShare result queue.old.kept.value other.old.kept.value }
{
    if let Some(mailbox) = other.take(alloc) {
        other.put(mailbox);
        return OPEN_ALREADY;
    }
    let Some(mut mailbox) = queue.take(alloc) else {
        return CLOSED;
    };
    let shared = another(alloc, &mut mailbox);
    queue.put(mailbox);
    let Some(shared) = shared else {
        return NO_MEMORY;
    };
    other.put(shared);
    DONE
}

// Another mailbox of the same queue. None where there is no memory for it.
fn another(alloc: Global, mailbox: &mut Mailbox) -> Option<Box<Mailbox, Global>>
    ensures unchanged { mailbox.new ≡ mailbox.old }
    ensures shared { IfSome result (λ shared. shared.value ≡ unused mailbox.old.queue) }
{
    let Ok(shared) = mailbox.share() else {
        return None;
    };
    let Ok(shared) = Box::new(alloc, shared) else {
        return None;
    };
    Some(shared)
}

/// Pushes a message, in one try.
#[unsafe(no_mangle)]
pub extern "C" fn shardcache_queue_push(
    alloc: Global,
    queue: &mut MailboxHandle,
    message: u64,
) -> u32
    ensures done { result ≡ 0 → (old : Messages) × (queue.old.kept.value ≡ Some old)
        × (queue.new.kept.value ≡ Some (with_pushed old message)) }
    ensures refused { result ≢ 0 → queue.new.kept.value ≡ queue.old.kept.value }
    ensures why { result ≢ 0 → RefusesPush result queue.old.kept.value }
{
    let Some(mut mailbox) = queue.take(alloc) else {
        return CLOSED;
    };
    let code = push_one(&mut mailbox, message);
    queue.put(mailbox);
    code
}

fn push_one(mailbox: &mut Mailbox, message: u64) -> u32
    ensures done { result ≡ 0 → mailbox.new ≡ with_pushed mailbox.old message }
    ensures refused { result ≢ 0 → mailbox.new ≡ mailbox.old }
    ensures why { result ≢ 0 → (result ≡ 18) ⊎ (result ≡ 17) }
{
    match mailbox.try_push(message) {
        Push::Pushed => DONE,
        Push::Full => FULL,
        Push::Raced => RACED,
    }
}

/// Pops the message that was pushed first, in one try.
#[unsafe(no_mangle)]
pub extern "C" fn shardcache_queue_try_pop(
    alloc: Global,
    queue: &mut MailboxHandle,
    message: &mut u64,
) -> u32
    ensures done { result ≡ 0 → (old : Messages) × (queue.old.kept.value ≡ Some old)
        × (queue.new.kept.value ≡ Some (with_popped old message.new)) }
    ensures refused { result ≢ 0 → (queue.new.kept.value ≡ queue.old.kept.value) × (message.new ≡ message.old) }
    ensures why { result ≢ 0 → RefusesPop result queue.old.kept.value }
{
    let Some(mut mailbox) = queue.take(alloc) else {
        return CLOSED;
    };
    let code = pop_one(&mut mailbox, message);
    queue.put(mailbox);
    code
}

fn pop_one(mailbox: &mut Mailbox, message: &mut u64) -> u32
    ensures done { result ≡ 0 → mailbox.new ≡ with_popped mailbox.old message.new }
    ensures refused { result ≢ 0 → (mailbox.new ≡ mailbox.old) × (message.new ≡ message.old) }
    ensures why { result ≢ 0 → (result ≡ 19) ⊎ (result ≡ 17) }
{
    match mailbox.try_pop() {
        Pop::Popped(popped) => {
            *message = popped;
            DONE
        }
        Pop::Empty => EMPTY,
        Pop::Raced => RACED,
    }
}

/// Closes a mailbox. The queue goes with its last one, and what is left in it.
#[unsafe(no_mangle)]
pub extern "C" fn shardcache_queue_close(alloc: Global, queue: &mut MailboxHandle) -> u32
    ensures done { result ≡ 0 → queue.new.kept.value ≡ None }
    ensures refused { result ≢ 0 → queue.new.kept.value ≡ queue.old.kept.value }
    ensures why { result ≢ 0 → RefusesQueueClosing result queue.old.kept.value }
{
    match queue.take(alloc) {
        Some(_) => DONE,
        None => CLOSED,
    }
}
