//! Two threads that pass marked blocks to each other and give them back.
ghost use Rattle.std.specs.Prelude.{◌≡◌, ◌<◌, [], length};
ghost use Rattle.foreign_list.specs.OwnerSeats.{IsSeatOf};

use foreign_list::{Foreign, ForeignBlock, OwnerSeat, Released, Returned, Tally};
use layout::TICKETS;
use raw_range::Range;
use rtrb::{Consumer, Producer, RingBuffer};
use std::alloc::{AllocError, Global};
use std::sync::Wait;
use std::thread::{self, Threads};

/// Whose blocks they are.
pub const OWNER: u32 = 3;

// The owner looks for blocks that came home once half a ring is free: each look takes the head's cache line from those who
// release.
const HALF: usize = TICKETS as usize / 2;

/// How long a block is, in bytes.
const LEN: u32 = 64;

/// What is written into a block: its first and last byte by the owner, or each byte by the owner and then by the other.
#[derive(Clone, Copy, PartialEq, Eq)]
pub enum Marks {
    Ends,
    Each,
}

/// A piece for each ticket, each of a range of its own, and no two at one place there.
pub fn pieces(alloc: Global) -> Result<Vec<Returned>, AllocError> {
    let mut home = Vec::with_capacity(alloc, TICKETS as usize)?;
    for ticket in 0..TICKETS {
        let mut range = Range::new(alloc, OWNER, 1)?;
        let piece = range.take(ticket * LEN, LEN);
        let _ = home.push(Returned { ticket, piece });
    }
    Ok(home)
}

// The byte that the owner writes into a block with this ticket, and that with which it comes home.
fn byte_of(ticket: u32) -> u8 {
    (ticket % 256) as u8
}

fn answer_of(ticket: u32, marks: Marks) -> u8 {
    match marks {
        Marks::Each => !byte_of(ticket),
        Marks::Ends => byte_of(ticket),
    }
}

fn mark(bytes: &mut [u8], byte: u8, marks: Marks) {
    if marks == Marks::Each {
        bytes.fill(byte);
        return;
    }
    if let Some(first) = bytes.first_mut() {
        *first = byte;
    }
    if let Some(last) = bytes.last_mut() {
        *last = byte;
    }
}

fn is_marked(bytes: &[u8], byte: u8, marks: Marks) -> bool {
    match marks {
        Marks::Each => bytes.iter().all(|b| *b == byte),
        Marks::Ends => bytes.first() == Some(&byte) && bytes.last() == Some(&byte),
    }
}

// Lets another run, now and then.
fn pause(idle: &mut u32) {
    *idle = idle.wrapping_add(1);
    if *idle % 256 == 0 {
        thread::yield_now();
    }
}

fn release<'f, R: Wait>(rt: &R, block: ForeignBlock<'f>) -> Released<'f> {
    let mut block = block;
    for _ in rt.forever() {
        match block.release() {
            Ok(released) => return released,
            Err(raced) => block = raced.block,
        }
    }
    unreachable!()
}

/// Releases so many blocks as they come, and answers how many had the owner's bytes.
fn give_back<'f, R: Wait>(
    rt: &R,
    ring: &mut Consumer<ForeignBlock<'f>>,
    blocks: u32,
    marks: Marks,
) -> u64 {
    let mut tally = Tally::new();
    let mut right = 0u64;
    let mut idle = 0;
    for _ in rt.forever() {
        if tally.count() >= u64::from(blocks) {
            return right;
        }
        match ring.pop() {
            Ok(mut block) => {
                let ticket = block.ticket();
                if is_marked(block.bytes(), byte_of(ticket), marks) {
                    right = right.wrapping_add(1);
                }
                if marks == Marks::Each {
                    mark(block.bytes_mut(), answer_of(ticket, marks), marks);
                }
                tally.add(release(rt, block));
            }
            Err(_) => pause(&mut idle),
        }
    }
    unreachable!()
}

/// Takes back what came home, and answers how many had the other's bytes.
fn take_back(list: &Foreign, seat: &mut OwnerSeat, home: &mut Vec<Returned>, marks: Marks) -> u64
    requires { IsSeatOf list.now seat.old × (seat.old.walk ≡ []) }
    ensures { IsSeatOf list.now seat.new × (seat.new.walk ≡ []) }
{
    let mut right = 0u64;
    list.take_whole(seat);
    while let Some(back) = list.next_back(seat) {
        if is_marked(back.piece.bytes(), answer_of(back.ticket, marks), marks) {
            right = right.wrapping_add(1);
        }
        let _ = home.push(back);
    }
    right
}

/// Lends a block and sends it. False where the ticket is out, the piece is another's or the ring is full.
fn send<'f>(
    list: &'f Foreign,
    seat: &mut OwnerSeat,
    idle: Returned,
    ring: &mut Producer<ForeignBlock<'f>>,
    marks: Marks,
) -> bool
    requires seat { IsSeatOf list.now seat.old × (seat.old.walk ≡ []) }
    requires owner { list.now.owner ≡ 3 }
    ensures { IsSeatOf list.now seat.new × (seat.new.walk ≡ []) }
{
    let Returned { ticket, piece } = idle;
    if !seat.is_idle(ticket) || piece.owner() != OWNER {
        return false;
    }
    let mut block = list.lend(seat, ticket, piece);
    mark(block.bytes_mut(), byte_of(ticket), marks);
    ring.push(block).is_ok()
}

/// Sends so many blocks over the rings in turn, takes each back, and answers how many came home with the other's bytes.
fn lend_out<'f, R: Wait>(
    rt: &R,
    list: &'f Foreign,
    seat: &mut OwnerSeat,
    home: Vec<Returned>,
    rings: &mut [Producer<ForeignBlock<'f>>],
    blocks: u32,
    marks: Marks,
) -> u64
    requires seat { IsSeatOf list.now seat.old × (seat.old.walk ≡ []) }
    requires owner { list.now.owner ≡ 3 }
    requires rings { 0 < length rings.old }
    ensures { IsSeatOf list.now seat.new × (seat.new.walk ≡ []) }
{
    let mut home = home;
    let mut left = blocks;
    let mut right = 0u64;
    let mut idle = 0;
    for _ in rt.forever() {
        if left == 0 {
            if home.len() >= TICKETS as usize {
                return right;
            }
            right = right.wrapping_add(take_back(list, seat, &mut home, marks));
            pause(&mut idle);
            continue;
        }
        match home.pop() {
            Some(back) => {
                let turn = left as usize % rings.len();
                if !send(list, seat, back, &mut rings[turn], marks) {
                    return right;
                }
                left -= 1;
            }
            None if rings[left as usize % rings.len()].slots() < HALF => pause(&mut idle),
            None => {
                right = right.wrapping_add(take_back(list, seat, &mut home, marks));
                if home.is_empty() {
                    pause(&mut idle);
                }
            }
        }
    }
    unreachable!()
}

/// Passes so many blocks to another thread and takes them back. Answers how often the bytes were right, twice for each block.
pub fn pass<'f, R: Threads + Wait + Sync>(
    rt: &R,
    alloc: Global,
    list: &'f Foreign,
    seat: &mut OwnerSeat,
    home: Vec<Returned>,
    blocks: u32,
    marks: Marks,
) -> Result<u64, AllocError>
    requires seat { IsSeatOf list.now seat.old × (seat.old.walk ≡ []) }
    requires owner { list.now.owner ≡ 3 }
{
    let (producer, mut consumer) = RingBuffer::new(alloc, TICKETS as usize)?;
    let mut rings = [producer];
    let (came, gone) = thread::join(
        rt,
        || lend_out(rt, list, seat, home, &mut rings, blocks, marks),
        || give_back(rt, &mut consumer, blocks, marks),
    );
    Ok(came.wrapping_add(gone))
}

/// Passes blocks to three threads in turn, to each so many, which release them on one list. Answers how often the bytes
/// were right, twice for each block.
pub fn pass_to_three<'f, R: Threads + Wait + Sync>(
    rt: &R,
    alloc: Global,
    list: &'f Foreign,
    seat: &mut OwnerSeat,
    home: Vec<Returned>,
    each: u32,
) -> Result<u64, AllocError>
    requires seat { IsSeatOf list.now seat.old × (seat.old.walk ≡ []) }
    requires owner { list.now.owner ≡ 3 }
{
    let (a, mut from_a) = RingBuffer::new(alloc, TICKETS as usize)?;
    let (b, mut from_b) = RingBuffer::new(alloc, TICKETS as usize)?;
    let (c, mut from_c) = RingBuffer::new(alloc, TICKETS as usize)?;
    let mut rings = [a, b, c];
    let marks = Marks::Each;
    let (came, (first, (second, third))) = thread::join(
        rt,
        || lend_out(
            rt,
            list,
            seat,
            home,
            &mut rings,
            each.wrapping_mul(3),
            marks,
        ),
        || {
            thread::join(
                rt,
                || give_back(rt, &mut from_a, each, marks),
                || {
                    thread::join(
                        rt,
                        || give_back(rt, &mut from_b, each, marks),
                        || give_back(rt, &mut from_c, each, marks),
                    )
                },
            )
        },
    );
    Ok(
        came.wrapping_add(first)
            .wrapping_add(second)
            .wrapping_add(third),
    )
}
