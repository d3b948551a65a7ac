//! A node without peers, from its opening to its end.
ghost use Rattle.std.specs.Prelude.{◌≡◌, [], IfSome};
ghost use Rattle.trace_text.specs.Parsed.{trace_in};
ghost use Rattle.foreign_list.specs.OwnerSeats.{IsAtRest};

use super::trial::parsed;
use cache_model::{Entry, ReplyKind};
use foreign_list::{Foreign, OwnerSeat};
use shard_node::{Node, NodeRefusal, OpenGate, Ran, Turn};
use shard_rings::{Link, MemoryLink};
use std::alloc::Global;
use std::process::Abort;
use std::test::Fail;
use trace_text::Trace;

/// Opens the node of the only shard, turns it until it is done, at most a hundred times, and finishes it. False where it does not
/// get done.
fn play<'f, L: Link<'f> + Drop>(
    alloc: Global,
    trace: &'f Trace,
    home: &'f Foreign,
    seat: OwnerSeat,
    links: Vec<L>,
    ran: &mut Ran,
) -> bool
    requires owner { home.now.owner ≡ 0 }
    requires seat { IsAtRest home.now seat }
    requires one { trace.now.shards ≡ 1 }
    requires links { links.items ≡ [] }
    requires ran { ran.old ≡ record { trace = trace_in trace.now; shards = 1; pages = 1536; journals = []; logs = []; lines = [] } }
{
    let Ok(mut node) = Node::open(alloc, 0, 1, 1536, trace, home, seat, links, OpenGate) else {
        return false;
    };
    for _ in 0..100 {
        if let Turn::Done = node.turn() {
            let _seat = node.finish(ran).store.finish();
            return true;
        }
    }
    false
}

/// Opens the node of the only shard and abandons it. None where it is not opened.
fn abandon<'f, L: Link<'f> + Drop>(
    alloc: Global,
    trace: &'f Trace,
    home: &'f Foreign,
    seat: OwnerSeat,
    links: Vec<L>,
) -> Option<NodeRefusal<L>>
    requires owner { home.now.owner ≡ 0 }
    requires seat { IsAtRest home.now seat }
    requires one { trace.now.shards ≡ 1 }
    requires links { links.items ≡ [] }
    ensures seat { IfSome result (λ handed. IsAtRest home.now handed.seat) }
    ensures links { IfSome result (λ handed. handed.links.items ≡ []) }
{
    match Node::open(alloc, 0, 1, 1536, trace, home, seat, links, OpenGate) {
        Ok(node) => Some(node.abandon()),
        Err(_) => None,
    }
}

/// Plays the node of the only shard; where that is asked for, the one that is opened with what an abandoned one handed back.
fn open_and_play(
    alloc: Global,
    trace: &Trace,
    home: &Foreign,
    seat: OwnerSeat,
    again: bool,
    ran: &mut Ran,
) -> bool
    requires owner { home.now.owner ≡ 0 }
    requires seat { IsAtRest home.now seat }
    requires one { trace.now.shards ≡ 1 }
    requires ran { ran.old ≡ record { trace = trace_in trace.now; shards = 1; pages = 1536; journals = []; logs = []; lines = [] } }
{
    let links: Vec<MemoryLink<'_>> = Vec::new(alloc);
    if !again {
        return play(alloc, trace, home, seat, links, ran);
    }
    match abandon(alloc, trace, home, seat, links) {
        Some(handed) => play(alloc, trace, home, handed.seat, handed.links, ran),
        None => false,
    }
}

/// What the node of the only shard left of these lines. None where it did not get done.
fn left_of(rt: &impl Abort, alloc: Global, lines: &[u8], again: bool) -> Result<Option<Ran>, Fail> {
    let trace = parsed(rt, alloc, lines, 1)?;
    let mut ran = Ran::new(alloc, &trace, 1, 1536)?;
    let (home, seat) = Foreign::new(alloc, 0)?;
    if !open_and_play(alloc, &trace, &home, seat, again, &mut ran) {
        return Ok(None);
    }
    Ok(Some(ran))
}

#[test]
fn a_node_that_is_abandoned_hands_its_seat_back(rt: HostRuntime) -> Result<(), Fail> {
    let ran = left_of(&rt, rt.alloc(), b"put a 1\n", true)?;
    assert!(rt; ran.is_some());
    Ok(())
}

/// Whether a put of 1 and a get were done in this order, and no more was replied.
fn are_of_two(ran: &Ran) -> bool {
    let ([journal], [log]) = (ran.journals(), ran.logs()) else {
        return false;
    };
    journal.entries() == [Entry::Done(1), Entry::Done(2)].as_slice()
        && log.reply(0) == Some((ReplyKind::Stored, b"".as_slice()))
        && log.reply(1) == Some((ReplyKind::Value, b"1".as_slice()))
        && log.reply(2).is_none()
}

#[test]
fn a_node_alone_does_its_commands_in_order(rt: HostRuntime) -> Result<(), Fail> {
    let ran = left_of(&rt, rt.alloc(), b"put a 1\nget a\n", false)?;
    assert!(rt; ran.as_ref().is_some_and(|ran| are_of_two(ran)));
    Ok(())
}
