//! Requests that are not the ones that were expected: shard 1 of two on `put b 1`, which shard 0 asks of it.
ghost use Rattle.std.specs.Prelude.{◌≡◌, IfOk, OnOk};
ghost use Rattle.trace_text.specs.Parsed.{trace_in};
ghost use Rattle.foreign_list.specs.OwnerSeats.{IsAtRest};
ghost use Rattle.run_log.specs.Runs.{IsOfRun};

use super::replies::play_right;
use super::trial::{Lender, Trial, parsed};
use cache_model::Entry;
use foreign_list::{Foreign, OwnerSeat};
use shard_node::{Ran, Turn};
use shard_rings::{Lane, Packet};
use std::alloc::Global;
use std::process::Abort;
use std::test::Fail;
use trace_text::Trace;

/// What comes to the node, and what it does with it.
#[derive(Clone, Copy)]
enum Step<'a> {
    /// A block of these bytes is set aside, where the packet of the first of these numbers was expected: the second is its own.
    SetsAside(&'a [u8], u32, u32),
    /// Bye is set aside, where the packet of this number was expected.
    SetsByeAside(u32),
    /// The request is done.
    Does,
    /// The put was answered.
    Answers,
    /// Bye comes, and the node is done.
    Ends,
}

/// Packets of which the node expects none: another number, Bye, another key, a kind that there is not, another table, and one that
/// there is not. Then comes what it expects, with the request once more behind it.
const ONE_BY_ONE: &[Step] = &[
    Step::SetsAside(b"\x01\0\x01\0\x03\0\0\0\x01\0\0\0\0\0\0\0b1", 1, 3),
    Step::SetsByeAside(1),
    Step::SetsAside(b"\x01\0\x01\0\x01\0\0\0\x01\0\0\0\0\0\0\0c1", 1, 1),
    Step::SetsAside(b"\x09\0\x01\0\x01\0\0\0\x01\0\0\0\0\0\0\0b1", 1, 1),
    Step::SetsAside(b"\x01\x03\x01\0\x01\0\0\0\x01\0\0\0\0\0\0\0b1", 1, 1),
    Step::SetsAside(b"\x01\x08\x01\0\x01\0\0\0\x01\0\0\0\0\0\0\0b1", 1, 1),
    Step::Does,
    Step::Answers,
    Step::SetsAside(b"\x01\0\x01\0\x01\0\0\0\x01\0\0\0\0\0\0\0b1", 0, 1),
    Step::Ends,
];

/// One hostile packet, and then what the node expects.
const BYE: &[Step] = &[Step::SetsByeAside(1), Step::Does, Step::Answers, Step::Ends];

const FIVE_BYTES: &[Step] = &[
    Step::SetsAside(b"\x01\0\x01\0\x01", 1, 0),
    Step::Does,
    Step::Answers,
    Step::Ends,
];

const OTHER_VALUE: &[Step] = &[
    Step::SetsAside(b"\x01\0\x01\0\x01\0\0\0\x01\0\0\0\0\0\0\0b2", 1, 1),
    Step::Does,
    Step::Answers,
    Step::Ends,
];

/// The request comes again before its reply was taken.
const TWICE: &[Step] = &[
    Step::Does,
    Step::SetsAside(b"\x01\0\x01\0\x01\0\0\0\x01\0\0\0\0\0\0\0b1", 0, 1),
    Step::Answers,
    Step::Ends,
];

// The reply to the put.
const STORED: [u8; 16] = [17, 0, 0, 0, 1, 0, 0, 0, 0, 0, 0, 0, 0, 0, 0, 0];

/// Whether a turn on a block of these bytes sets it aside, and the block came home.
fn sets_aside<'f>(node: &mut Trial<'f>, lender: &mut Lender<'f>, bytes: &[u8], answer: Turn) -> bool
    ensures { node.new ≡ node.old }
{
    let Some(block) = lender.block(bytes) else {
        return false;
    };
    node.offer(Lane::Requests, Packet::Block(block)) && node.turn() == answer && lender.takes_one()
}

/// Whether a turn on the request moves, and the block came home.
fn moves<'f>(node: &mut Trial<'f>, lender: &mut Lender<'f>) -> bool
    ensures { node.new ≡ node.old }
{
    let Some(block) = lender.request(1) else {
        return false;
    };
    node.offer(Lane::Requests, Packet::Block(block))
        && node.turn() == Turn::Moved
        && lender.takes_one()
}

/// Whether the node answers Bye so.
fn turns_on_bye<'f>(node: &mut Trial<'f>, answer: Turn) -> bool
    ensures { node.new ≡ node.old }
{
    node.offer(Lane::Requests, Packet::Bye) && node.turn() == answer
}

/// What a turn answers that set aside the packet of this number.
fn stray(expected: u32, found: u32) -> Turn {
    Turn::Stray {
        peer: 0,
        expected,
        found,
    }
}

/// Whether the put was answered. The block goes home.
fn is_answered<'f>(node: &mut Trial<'f>) -> bool
    ensures { node.new ≡ node.old }
{
    match node.taken(Lane::Replies) {
        Some(Packet::Block(block)) => {
            block.bytes() == STORED.as_slice() && block.release().is_ok()
        }
        _ => false,
    }
}

/// Whether a step goes as it should.
fn goes<'f>(node: &mut Trial<'f>, lender: &mut Lender<'f>, step: Step<'_>) -> bool
    ensures { node.new ≡ node.old }
{
    match step {
        Step::SetsAside(bytes, expected, found) => {
            sets_aside(node, lender, bytes, stray(expected, found))
        }
        Step::SetsByeAside(expected) => turns_on_bye(node, stray(expected, 0)),
        Step::Does => moves(node, lender),
        Step::Answers => is_answered(node),
        Step::Ends => turns_on_bye(node, Turn::Done),
    }
}

/// The same for each of these steps.
fn play<'f>(node: &mut Trial<'f>, lender: &mut Lender<'f>, steps: &[Step<'_>]) -> bool
    ensures { node.new ≡ node.old }
{
    for step in steps {
        if !goes(node, lender, *step) {
            return false;
        }
    }
    true
}

/// The record of a run whose first shard has finished, which asked the other for the put.
fn ran_first(rt: &impl Abort, alloc: Global, trace: &Trace) -> Result<Ran, Fail>
    requires two { trace.now.shards ≡ 2 }
    ensures { IfOk result (λ ran. IsOfRun (trace_in trace.now) 2 1536 ran) }
{
    let (home, seat) = Foreign::new(alloc, 0)?;
    let (lending, lent) = Foreign::new(alloc, 1)?;
    let mut ran = Ran::new(alloc, trace, 2, 1536)?;
    let is_finished = finish_first(alloc, trace, (&home, &lending), (seat, lent), &mut ran)?;
    assert!(rt; is_finished);
    Ok(ran)
}

/// Plays the first shard and finishes it. False where it does not get done.
fn finish_first<'f>(
    alloc: Global,
    trace: &'f Trace,
    homes: (&'f Foreign, &'f Foreign),
    seats: (OwnerSeat, OwnerSeat),
    ran: &mut Ran,
) -> Result<bool, Fail>
    requires two { trace.now.shards ≡ 2 }
    requires owners { (homes.0.now.owner ≡ 0) × (homes.1.now.owner ≡ 1) }
    requires node { IsAtRest homes.0.now seats.0 }
    requires lender { IsAtRest homes.1.now seats.1 }
    requires ran { IsOfRun (trace_in trace.now) 2 1536 ran.old }
    ensures { OnOk result (IsOfRun (trace_in trace.now) 2 1536 ran.new) }
{
    let mut node = Trial::open(alloc, 0, trace, homes.0, seats.0)?;
    let mut lender = match Lender::open(alloc, 1, homes.1, seats.1) {
        Ok(lender) => lender,
        Err(error) => {
            drop(node);
            return Err(error);
        }
    };
    let is_right = play_right(&mut node, &mut lender);
    drop(lender);
    let is_finished = node.finish(ran);
    Ok(is_right && is_finished)
}

/// Whether the second node did the put, once, and nothing else.
fn did_once(ran: &Ran) -> bool {
    match ran.journals() {
        [_, journal] => journal.entries() == [Entry::Done(1)].as_slice(),
        _ => false,
    }
}

/// Opens both shards, and plays these steps.
fn open_and_play<'f>(
    alloc: Global,
    trace: &'f Trace,
    homes: (&'f Foreign, &'f Foreign),
    seats: (OwnerSeat, OwnerSeat),
    ran: &mut Ran,
    steps: &[Step<'_>],
) -> Result<bool, Fail>
    requires two { trace.now.shards ≡ 2 }
    requires owners { (homes.0.now.owner ≡ 0) × (homes.1.now.owner ≡ 1) }
    requires lender { IsAtRest homes.0.now seats.0 }
    requires node { IsAtRest homes.1.now seats.1 }
    requires ran { IsOfRun (trace_in trace.now) 2 1536 ran.old }
{
    let mut lender = Lender::open(alloc, 0, homes.0, seats.0)?;
    let mut node = match Trial::open(alloc, 1, trace, homes.1, seats.1) {
        Ok(node) => node,
        Err(error) => {
            drop(lender);
            return Err(error);
        }
    };
    let is_right = play(&mut node, &mut lender, steps);
    drop(lender);
    let is_finished = node.finish(ran);
    Ok(is_right && is_finished)
}

/// Whether a new node does these steps, is done then, and did the put once and nothing else.
fn plays_anew(
    rt: &impl Abort,
    alloc: Global,
    trace: &Trace,
    steps: &[Step<'_>],
) -> Result<bool, Fail>
    requires two { trace.now.shards ≡ 2 }
{
    let (lending, lent) = Foreign::new(alloc, 0)?;
    let (home, seat) = Foreign::new(alloc, 1)?;
    let mut ran = ran_first(rt, alloc, trace)?;
    let (homes, seats) = ((&lending, &home), (lent, seat));
    let is_right = open_and_play(alloc, trace, homes, seats, &mut ran, steps)?;
    Ok(is_right && did_once(&ran))
}

#[test]
fn requests_that_were_not_expected_are_set_aside(rt: HostRuntime) -> Result<(), Fail> {
    let trace = parsed(&rt, rt.alloc(), b"put b 1\n", 2)?;
    for steps in [ONE_BY_ONE, BYE, FIVE_BYTES, OTHER_VALUE, TWICE] {
        assert!(rt; plays_anew(&rt, rt.alloc(), &trace, steps)?);
    }
    Ok(())
}
