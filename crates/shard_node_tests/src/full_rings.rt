//! Rings that are full and tickets that are all lent: shard 0 of two, turn by turn.
ghost use Rattle.std.specs.Prelude.{◌≡◌};
ghost use Rattle.foreign_list.specs.OwnerSeats.{IsAtRest};

use super::trial::{Lender, Trial, parsed};
use foreign_list::{Foreign, ForeignBlock, OwnerSeat};
use shard_node::Turn;
use shard_rings::{Lane, Packet};
use std::alloc::Global;
use std::process::Abort;
use std::test::Fail;
use trace_text::Trace;

/// What the node does, or what is offered to it.
#[derive(Clone, Copy)]
enum Step {
    /// So many turns have this answer, one after the other.
    Turns(u32, Turn),
    /// The next packet that it sent on the lane of requests is that of `put b 1` with this number. The block is held.
    Asks(u8),
    /// It has lent so many blocks.
    HasLent(u64),
    /// All that it sent on the lane was taken.
    SendsNone(Lane),
    /// The request of `put a 1` with this number is offered. Whether the lane has room for it.
    IsAsked(u8, bool),
    /// The next packet on the lane of replies is that of this kind and number. The block is held.
    Replies(u8, u8),
    /// The request of `put a 1` is offered, a turn moves, the reply of this kind is held, and the request came home.
    Serves(u8, u8),
    /// A block that is held is released.
    Frees,
}

// The kinds of replies to a put.
const STORED: u8 = 17;

const REPLACED: u8 = 18;

/// The request of a put of the value 1.
fn request_of(key: u8, number: u8) -> [u8; 18] {
    [
        1, 0, 1, 0, number, 0, 0, 0, 1, 0, 0, 0, 0, 0, 0, 0, key, b'1',
    ]
}

fn reply_of(kind: u8, number: u8) -> [u8; 16] {
    [kind, 0, 0, 0, number, 0, 0, 0, 0, 0, 0, 0, 0, 0, 0, 0]
}

/// The node, the other shard, and the blocks of the node that are held.
#[derive(Drop)]
struct Held<'f> {
    node: Trial<'f>,
    lender: Lender<'f>,
    blocks: Vec<ForeignBlock<'f>>,
}

impl<'f> Held<'f> {
    fn open(
        alloc: Global,
        trace: &'f Trace,
        homes: (&'f Foreign, &'f Foreign),
        seats: (OwnerSeat, OwnerSeat),
    ) -> Result<Held<'f>, Fail>
        requires two { trace.now.shards ≡ 2 }
        requires owners { (homes.0.now.owner ≡ 0) × (homes.1.now.owner ≡ 1) }
        requires node { IsAtRest homes.0.now seats.0 }
        requires lender { IsAtRest homes.1.now seats.1 }
    {
        let node = Trial::open(alloc, 0, trace, homes.0, seats.0)?;
        match Lender::open(alloc, 1, homes.1, seats.1) {
            Ok(lender) => Ok(Held {
                node,
                lender,
                blocks: Vec::new(alloc),
            }),
            Err(error) => {
                drop(node);
                Err(error)
            }
        }
    }

    fn turns(&mut self, times: u32, answer: Turn) -> bool {
        for _ in 0..times {
            if self.node.turn() != answer {
                return false;
            }
        }
        true
    }

    /// Whether the next packet on the lane is a block of these bytes.
    fn takes(&mut self, lane: Lane, bytes: &[u8]) -> bool {
        match self.node.taken(lane) {
            Some(Packet::Block(block)) => {
                block.bytes() == bytes && self.blocks.push(block).is_ok()
            }
            _ => false,
        }
    }

    /// Whether the lane of requests has room for a block of these bytes. None where the other shard has none.
    fn offer(&mut self, bytes: &[u8]) -> Option<bool> {
        let block = self.lender.block(bytes)?;
        Some(self.node.offer(Lane::Requests, Packet::Block(block)))
    }

    fn serves(&mut self, request: &[u8], reply: &[u8]) -> bool {
        self.offer(request) == Some(true)
            && self.node.turn() == Turn::Moved
            && self.takes(Lane::Replies, reply)
            && self.lender.takes_one()
    }

    fn frees(&mut self) -> bool {
        match self.blocks.pop() {
            Some(block) => block.release().is_ok(),
            None => false,
        }
    }

    fn does(&mut self, step: Step) -> bool {
        match step {
            Step::Turns(times, answer) => self.turns(times, answer),
            Step::Asks(number) => self.takes(Lane::Requests, &request_of(b'b', number)),
            Step::HasLent(count) => self.node.lent() == count,
            Step::SendsNone(lane) => self.node.taken(lane).is_none(),
            Step::IsAsked(number, fits) => self.offer(&request_of(b'a', number)) == Some(fits),
            Step::Replies(kind, number) => self.takes(Lane::Replies, &reply_of(kind, number)),
            Step::Serves(kind, number) => {
                self.serves(&request_of(b'a', number), &reply_of(kind, number))
            }
            Step::Frees => self.frees(),
        }
    }

    /// How many steps go as they should, up to the first that does not.
    fn play(&mut self, steps: &[Step]) -> usize {
        let mut done = 0usize;
        for step in steps {
            if !self.does(*step) {
                return done;
            }
            done = done.saturating_add(1);
        }
        done
    }
}

/// The same of a new node on so many times a line.
fn done(
    rt: &impl Abort,
    alloc: Global,
    line: &[u8],
    times: usize,
    steps: &[Step],
) -> Result<usize, Fail> {
    let lines = line.repeat(alloc, times)?;
    let trace = parsed(rt, alloc, lines.as_slice(), 2)?;
    let (home, seat) = Foreign::new(alloc, 0)?;
    let (lending, lent) = Foreign::new(alloc, 1)?;
    let (homes, seats) = ((&home, &lending), (seat, lent));
    let mut held = Held::open(alloc, &trace, homes, seats)?;
    let count = held.play(steps);
    drop(held);
    Ok(count)
}

/// The shard issues five requests, and the ring of requests holds four.
#[test]
fn a_request_waits_for_a_slot_of_its_ring(rt: HostRuntime) -> Result<(), Fail> {
    const STEPS: &[Step] = &[
        Step::Turns(4, Turn::Moved),
        Step::Turns(2, Turn::Idle),
        Step::HasLent(5),
        Step::Asks(1),
        Step::Turns(1, Turn::Moved),
        Step::Asks(3),
        Step::Asks(5),
        Step::Asks(7),
        Step::Asks(9),
        Step::SendsNone(Lane::Requests),
    ];
    assert_eq!(rt;
        done(&rt, rt.alloc(), b"put b 1\n", 10, STEPS)?,
        STEPS.len()
    );
    Ok(())
}

/// The shard issues ten requests, and has eight tickets for them.
#[test]
fn a_request_waits_for_a_ticket(rt: HostRuntime) -> Result<(), Fail> {
    const STEPS: &[Step] = &[
        Step::Turns(1, Turn::Moved),
        Step::Asks(1),
        Step::Turns(1, Turn::Moved),
        Step::Asks(3),
        Step::Turns(1, Turn::Moved),
        Step::Asks(5),
        Step::Turns(1, Turn::Moved),
        Step::Asks(7),
        Step::Turns(1, Turn::Moved),
        Step::Asks(9),
        Step::Turns(1, Turn::Moved),
        Step::Asks(11),
        Step::Turns(1, Turn::Moved),
        Step::Asks(13),
        Step::Turns(1, Turn::Moved),
        Step::Asks(15),
        Step::Turns(1, Turn::Idle),
        Step::HasLent(8),
        Step::SendsNone(Lane::Requests),
        Step::Frees,
        Step::Turns(1, Turn::Moved),
        Step::Asks(17),
        Step::Turns(1, Turn::Idle),
    ];
    assert_eq!(rt;
        done(&rt, rt.alloc(), b"put b 1\n", 20, STEPS)?,
        STEPS.len()
    );
    Ok(())
}

/// The other shard issues thirty requests, and 24 tickets are there for their replies. Of the shard's own thirty parts one is done
/// in each turn: the first behind the first request.
#[test]
fn a_request_that_came_waits_for_a_ticket_of_its_reply(rt: HostRuntime) -> Result<(), Fail> {
    const STEPS: &[Step] = &[
        Step::Serves(STORED, 2),
        Step::Serves(REPLACED, 4),
        Step::Serves(REPLACED, 6),
        Step::Serves(REPLACED, 8),
        Step::Serves(REPLACED, 10),
        Step::Serves(REPLACED, 12),
        Step::Serves(REPLACED, 14),
        Step::Serves(REPLACED, 16),
        Step::Serves(REPLACED, 18),
        Step::Serves(REPLACED, 20),
        Step::Serves(REPLACED, 22),
        Step::Serves(REPLACED, 24),
        Step::Serves(REPLACED, 26),
        Step::Serves(REPLACED, 28),
        Step::Serves(REPLACED, 30),
        Step::Serves(REPLACED, 32),
        Step::Serves(REPLACED, 34),
        Step::Serves(REPLACED, 36),
        Step::Serves(REPLACED, 38),
        Step::Serves(REPLACED, 40),
        Step::Serves(REPLACED, 42),
        Step::Serves(REPLACED, 44),
        Step::Serves(REPLACED, 46),
        Step::Serves(REPLACED, 48),
        // The ring of requests holds four.
        Step::IsAsked(50, true),
        Step::IsAsked(52, true),
        Step::IsAsked(54, true),
        Step::IsAsked(56, true),
        Step::IsAsked(58, false),
        // The rest of the shard's own parts.
        Step::Turns(6, Turn::Moved),
        Step::Turns(1, Turn::Idle),
        Step::SendsNone(Lane::Replies),
        Step::IsAsked(58, false),
        Step::Frees,
        Step::Turns(1, Turn::Moved),
        Step::Replies(REPLACED, 50),
        Step::IsAsked(58, true),
        Step::Turns(1, Turn::Idle),
    ];
    assert_eq!(rt;
        done(&rt, rt.alloc(), b"put a 1\n", 60, STEPS)?,
        STEPS.len()
    );
    Ok(())
}
