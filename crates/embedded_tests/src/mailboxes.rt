// Messages over a bounded queue, in one thread and between two.
use mailbox::{Mailbox, Pop, Push};
use std::sync::Wait;
use std::test::Fail;
use std::thread;

// How many messages go between two threads.
const MESSAGES: u64 = 20_000;

fn is_pushed(mailbox: &mut Mailbox, message: u64) -> bool {
    match mailbox.try_push(message) {
        Push::Pushed => true,
        Push::Full | Push::Raced => false,
    }
}

// Whether a push is refused since the queue is full.
fn is_full(mailbox: &mut Mailbox) -> bool {
    match mailbox.try_push(0) {
        Push::Full => true,
        Push::Pushed | Push::Raced => false,
    }
}

// The message that came, or None.
fn popped(mailbox: &mut Mailbox) -> Option<u64> {
    match mailbox.try_pop() {
        Pop::Popped(message) => Some(message),
        Pop::Empty | Pop::Raced => None,
    }
}

// Whether nothing is popped since the queue is empty.
fn is_empty(mailbox: &mut Mailbox) -> bool {
    match mailbox.try_pop() {
        Pop::Empty => true,
        Pop::Popped(_) | Pop::Raced => false,
    }
}

// Pushes the numbers below `MESSAGES`.
fn push_all<R: Wait>(rt: &R, mailbox: Mailbox) -> bool {
    let mut mailbox = mailbox;
    let mut next = 0u64;
    for _ in rt.forever() {
        if next >= MESSAGES {
            return true;
        }
        if is_pushed(&mut mailbox, next) {
            next += 1;
        } else {
            thread::yield_now();
        }
    }
    unreachable!()
}

// Pops as many messages. Whether they came in the order in which they were pushed.
fn pop_all<R: Wait>(rt: &R, mailbox: Mailbox) -> bool {
    let mut mailbox = mailbox;
    let mut next = 0u64;
    let mut in_order = true;
    for _ in rt.forever() {
        if next >= MESSAGES {
            return in_order;
        }
        match popped(&mut mailbox) {
            Some(message) => {
                in_order = in_order && message == next;
                next += 1;
            }
            None => thread::yield_now(),
        }
    }
    unreachable!()
}

#[test]
fn a_full_queue_refuses_a_message_and_an_empty_one_has_none(rt: HostRuntime) -> Result<(), Fail> {
    let mut mailbox = Mailbox::new(rt.alloc(), 2)?;
    let mut other = mailbox.share()?;
    assert_eq!(rt; popped(&mut mailbox), None);
    assert!(rt; is_pushed(&mut mailbox, 7));
    assert!(rt; is_pushed(&mut other, 8));
    assert!(rt; is_full(&mut mailbox));
    assert_eq!(rt; popped(&mut other), Some(7));
    assert_eq!(rt; popped(&mut other), Some(8));
    assert!(rt; is_empty(&mut other));
    Ok(())
}

#[test]
fn what_one_thread_pushes_another_pops_in_order(rt: HostRuntime) -> Result<(), Fail> {
    let mut mailbox = Mailbox::new(rt.alloc(), 64)?;
    let other = mailbox.share()?;
    let did = thread::join(&rt, || push_all(&rt, mailbox), || pop_all(&rt, other));
    assert_eq!(rt; did, (true, true));
    Ok(())
}
