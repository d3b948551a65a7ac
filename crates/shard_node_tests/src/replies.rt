//! Replies that are not the ones that were expected: shard 0 of two on `put b 1`, which it asks of shard 1.
ghost use Rattle.std.specs.Prelude.{◌≡◌};
ghost use Rattle.foreign_list.specs.OwnerSeats.{IsAtRest};

use super::trial::{Lender, Trial, parsed};
use cache_model::ReplyKind;
use foreign_list::{Foreign, OwnerSeat};
use shard_node::{Ran, Turn};
use shard_rings::{Lane, Packet};
use std::alloc::Global;
use std::test::Fail;
use trace_text::Trace;

// Replies of the kinds Stored and Missing to command 1, of a kind that there is not, and Stored to command 3.
const STORED: [u8; 16] = [17, 0, 0, 0, 1, 0, 0, 0, 0, 0, 0, 0, 0, 0, 0, 0];

const MISSING: [u8; 16] = [20, 0, 0, 0, 1, 0, 0, 0, 0, 0, 0, 0, 0, 0, 0, 0];

const NO_KIND: [u8; 16] = [99, 0, 0, 0, 1, 0, 0, 0, 0, 0, 0, 0, 0, 0, 0, 0];

const OTHER: [u8; 16] = [17, 0, 0, 0, 3, 0, 0, 0, 0, 0, 0, 0, 0, 0, 0, 0];

/// Sends a block of these bytes to the node, which makes a turn with this answer. Whether that is so, and the block came home.
fn turns<'f>(node: &mut Trial<'f>, lender: &mut Lender<'f>, bytes: &[u8], answer: Turn) -> bool
    ensures { node.new ≡ node.old }
{
    let Some(block) = lender.block(bytes) else {
        return false;
    };
    node.offer(Lane::Replies, Packet::Block(block)) && node.turn() == answer && lender.takes_one()
}

/// What a turn answers that set aside the packet of this number, while the reply to command 1 was expected.
fn stray(found: u32) -> Turn {
    Turn::Stray {
        peer: 1,
        expected: 1,
        found,
    }
}

/// Whether the next packet on the lane of requests is the block of a request. It goes home.
fn asks<'f>(node: &mut Trial<'f>) -> bool
    ensures { node.new ≡ node.old }
{
    match node.taken(Lane::Requests) {
        Some(Packet::Block(block)) => block.bytes().get(4) == Some(&1) && block.release().is_ok(),
        _ => false,
    }
}

/// Whether a reply that nobody asked for waits, and is set aside once a reply is owed.
fn comes_too_early<'f>(node: &mut Trial<'f>, lender: &mut Lender<'f>) -> bool
    ensures { node.new ≡ node.old }
{
    let Some(block) = lender.block(&OTHER) else {
        return false;
    };
    node.offer(Lane::Replies, Packet::Block(block))
        && node.turn() == Turn::Moved
        && !lender.takes_one()
        && node.turn() == stray(3)
        && lender.takes_one()
        && asks(node)
}

/// Turns the node on packets that it does not expect, before the right reply. True where it answers each as it should.
fn play<'f>(node: &mut Trial<'f>, lender: &mut Lender<'f>) -> bool
    ensures { node.new ≡ node.old }
{
    comes_too_early(node, lender)
        && turns(node, lender, &OTHER, stray(3))
        && turns(node, lender, &NO_KIND, stray(1))
        && turns(node, lender, &MISSING, stray(1))
        && node.offer(Lane::Replies, Packet::Bye)
        && node.turn() == stray(0)
        && turns(node, lender, &STORED, Turn::Moved)
        && ends(node)
}

/// Turns the node on the right reply alone, once it asked. True where it is done then.
pub(super) fn play_right<'f>(node: &mut Trial<'f>, lender: &mut Lender<'f>) -> bool
    ensures { node.new ≡ node.old }
{
    node.turn() == Turn::Moved
        && asks(node)
        && turns(node, lender, &STORED, Turn::Moved)
        && ends(node)
}

/// Whether the node says Bye, and is done once Bye came.
fn ends<'f>(node: &mut Trial<'f>) -> bool
    ensures { node.new ≡ node.old }
{
    matches!(node.taken(Lane::Requests), Some(Packet::Bye))
        && node.offer(Lane::Requests, Packet::Bye)
        && node.turn() == Turn::Done
}

/// Whether the node did nothing here, and has the right reply to its only part.
fn is_stored(ran: &Ran) -> bool {
    let ([journal], [log]) = (ran.journals(), ran.logs()) else {
        return false;
    };
    journal.entries().is_empty()
        && log.reply(0) == Some((ReplyKind::Stored, b"".as_slice()))
        && log.reply(1).is_none()
}

/// Opens both shards, and plays.
fn open_and_play<'f>(
    alloc: Global,
    trace: &'f Trace,
    homes: (&'f Foreign, &'f Foreign),
    seats: (OwnerSeat, OwnerSeat),
) -> Result<bool, Fail>
    requires two { trace.now.shards ≡ 2 }
    requires owners { (homes.0.now.owner ≡ 0) × (homes.1.now.owner ≡ 1) }
    requires node { IsAtRest homes.0.now seats.0 }
    requires lender { IsAtRest homes.1.now seats.1 }
{
    let mut ran = Ran::new(alloc, trace, 2, 1536)?;
    let mut node = Trial::open(alloc, 0, trace, homes.0, seats.0)?;
    let mut lender = match Lender::open(alloc, 1, homes.1, seats.1) {
        Ok(lender) => lender,
        Err(error) => {
            drop(node);
            return Err(error);
        }
    };
    let is_right = play(&mut node, &mut lender);
    drop(lender);
    let is_finished = node.finish(&mut ran);
    Ok(is_right && is_finished && is_stored(&ran))
}

#[test]
fn replies_that_were_not_expected_are_set_aside(rt: HostRuntime) -> Result<(), Fail> {
    let trace = parsed(&rt, rt.alloc(), b"put b 1\n", 2)?;
    let (home, seat) = Foreign::new(rt.alloc(), 0)?;
    let (lending, lent) = Foreign::new(rt.alloc(), 1)?;
    assert!(rt; open_and_play(rt.alloc(), &trace, (&home, &lending), (seat, lent))?);
    Ok(())
}
