// Blocks that a store lends, which other threads release while it lends more and takes them back.
ghost use Rattle.std.specs.Prelude.{◌<◌, length};

use super::Trial;
use foreign_list::{Foreign, ForeignBlock};
use layout::TICKETS;
use rtrb::{Consumer, Producer, RingBuffer};
use shard_store::{Put, Share};
use std::alloc::{AllocError, Global};
use std::sync::Wait;
use std::test::Fail;
use std::thread::{self, Threads};

// How many bytes a block has.
const LEN: u32 = 64;

// What the owner writes into each byte of a block.
fn byte_of(ticket: u32) -> u8 {
    (ticket % 251) as u8 + 1
}

fn release<'f, R: Wait>(rt: &R, block: ForeignBlock<'f>) {
    let mut block = block;
    for _ in rt.forever() {
        match block.release() {
            Ok(_) => return,
            Err(raced) => block = raced.block,
        }
    }
    unreachable!()
}

fn is_each(bytes: &[u8], byte: u8) -> bool {
    bytes.iter().all(|b| *b == byte)
}

// Releases so many blocks as they come, and answers how many had the owner's byte in each place.
fn give_back<'f, R: Wait>(rt: &R, ring: &mut Consumer<ForeignBlock<'f>>, blocks: u32) -> u32 {
    let mut left = blocks;
    let mut right = 0u32;
    for _ in rt.forever() {
        if left == 0 {
            return right;
        }
        match ring.pop() {
            Ok(block) => {
                let byte = byte_of(block.ticket());
                right = right.wrapping_add(u32::from(is_each(block.bytes(), byte)));
                release(rt, block);
                left -= 1;
            }
            Err(_) => thread::yield_now(),
        }
    }
    unreachable!()
}

// The share that lends the next block where so many are left: every fourth is a request's.
fn share_of(left: u32) -> Share {
    if left % 4 == 0 {
        Share::Request
    } else {
        Share::Reply
    }
}

impl<'f> Trial<'f> {
    // Sends a block whose bytes were all 0, where any is left. False where no ticket of its share is idle.
    fn send(&mut self, left: u32, ring: &mut Producer<ForeignBlock<'f>>) -> bool {
        if left == 0 {
            return false;
        }
        let Ok(mut block) = self.store.give_now(LEN, share_of(left)) else {
            return false;
        };
        if !is_each(block.bytes(), 0) {
            return false;
        }
        let byte = byte_of(block.ticket());
        block.bytes_mut().fill(byte);
        ring.push(block).is_ok()
    }

    // Takes back the blocks that came home. Lets other threads run where none did.
    fn collect(&mut self) -> u32 {
        let came = self.store.take_back();
        if came == 0 {
            thread::yield_now();
        }
        came
    }

    // Whether no block is left, and none is out.
    fn is_through(&self, left: u32) -> bool {
        left == 0 && self.store.tickets_out() == 0
    }
}

// Sends one of the blocks that are left, or takes back what came home. Answers how many are left then, and how many came.
fn send_or_collect<'f>(
    trial: &mut Trial<'f>,
    ring: &mut Producer<ForeignBlock<'f>>,
    left: u32,
) -> (u32, u32) {
    if trial.send(left, ring) {
        (left.saturating_sub(1), 0)
    } else {
        (left, trial.collect())
    }
}

// Sends so many blocks over the rings in turn, a fourth of them with tickets for requests, and takes them all back. Answers how
// many came home.
fn lend_out<'f, R: Wait>(
    rt: &R,
    trial: &mut Trial<'f>,
    rings: &mut [Producer<ForeignBlock<'f>>],
    blocks: u32,
) -> u32
    requires { 0 < length rings.old }
{
    let mut left = blocks;
    let mut home = 0u32;
    for _ in rt.forever() {
        if trial.is_through(left) {
            return home;
        }
        let turn = left as usize % rings.len();
        let (now_left, came) = send_or_collect(trial, &mut rings[turn], left);
        left = now_left;
        home = home.wrapping_add(came);
    }
    unreachable!()
}

// Passes so many blocks to another thread. Answers how many came home, and how many had the right bytes there.
fn pass_to_one<'f, R: Threads + Wait + Sync>(
    rt: &R,
    alloc: Global,
    trial: &mut Trial<'f>,
    blocks: u32,
) -> Result<(u32, u32), AllocError> {
    let (to, mut from) = RingBuffer::new(alloc, TICKETS as usize)?;
    let mut rings = [to];
    Ok(thread::join(
        rt,
        || lend_out(rt, trial, &mut rings, blocks),
        || give_back(rt, &mut from, blocks),
    ))
}

// Passes three times so many blocks to three threads in turn.
fn pass_to_three<'f, R: Threads + Wait + Sync>(
    rt: &R,
    alloc: Global,
    trial: &mut Trial<'f>,
    each: u32,
) -> Result<(u32, u32), AllocError> {
    let (a, mut from_a) = RingBuffer::new(alloc, TICKETS as usize)?;
    let (b, mut from_b) = RingBuffer::new(alloc, TICKETS as usize)?;
    let (c, mut from_c) = RingBuffer::new(alloc, TICKETS as usize)?;
    let mut rings = [a, b, c];
    let (home, (first, (second, third))) = thread::join(
        rt,
        || lend_out(rt, trial, &mut rings, each.wrapping_mul(3)),
        || {
            thread::join(
                rt,
                || give_back(rt, &mut from_a, each),
                || {
                    thread::join(
                        rt,
                        || give_back(rt, &mut from_b, each),
                        || give_back(rt, &mut from_c, each),
                    )
                },
            )
        },
    );
    Ok((home, first.wrapping_add(second).wrapping_add(third)))
}

// Whether the blocks that go to other threads come home with the right bytes, and a row stays as it was put.
fn lends<'f, R: Threads + Wait + Sync>(
    rt: &R,
    alloc: Global,
    trial: &mut Trial<'f>,
) -> Result<bool, AllocError> {
    let stored = trial.put(b"a", b"abc", 1) == Some(Put::Stored);
    let to_one = pass_to_one(rt, alloc, trial, 10_000)?;
    let to_three = pass_to_three(rt, alloc, trial, 3_000)?;
    let counts = (trial.store.lent(), trial.store.back());
    let has = (stored, trial.has(b"a", Some(b"abc")));
    Ok(
        (to_one, to_three, counts, has)
            == (
                (10_000, 10_000),
                (9_000, 9_000),
                (19_000, 19_000),
                (true, true),
            ),
    )
}

#[test]
fn a_store_lends_blocks_to_other_threads(rt: HostRuntime) -> Result<(), Fail> {
    let (home, seat) = Foreign::new(rt.alloc(), 0)?;
    let mut trial = Trial::new(rt.alloc(), &home, seat)?;
    let right = lends(&rt, rt.alloc(), &mut trial)?;
    assert!(rt; trial.finish() && right);
    Ok(())
}
