//! Two shards whose turns a schedule orders.
ghost use Rattle.std.specs.Prelude.{◌≡◌, ◌≤◌, length, true, All};
ghost use Rattle.layout.specs.Sizes.{most_trace_bytes};
ghost use Rattle.trace_text.specs.Parsed.{trace_in};
ghost use Rattle.shard_rings.specs.Links.{end_of, traffic_of};
ghost use Rattle.shard_node.specs.Standing.{InStanding};
ghost use Rattle.shard_node.specs.Turns.{IsDone, IsSameNode};
ghost use Rattle.shard_drive.specs.Drives.{AtEach};
ghost use Rattle.shard_run.specs.Opening.{AreAtRest};
ghost use Rattle.shard_run.specs.Remaining.{IsRoomFor};

use foreign_list::{Foreign, OwnerSeat};
use plain_cache::{Entry, ReplyKind};
use run_log::ShardLine;
use shard_drive::drive_schedule;
use shard_node::{Gate, Node, OpenGates, Ran};
use shard_rings::RingLink;
use shard_run::{Remains, finish_run, open_lists, open_nodes};
use std::alloc::{AllocError, Global};
use std::test::Fail;
use trace_text::{Trace, parse};

/// As many pages as a trace of each version runs on.
const PAGES: u32 = 1536;

/// Forty turns, which two shards make in turn.
const SCHEDULE: [u32; 40] = [
    0, 1, 0, 1, 0, 1, 0, 1, 0, 1, 0, 1, 0, 1, 0, 1, 0, 1, 0, 1, 0, 1, 0, 1, 0, 1, 0, 1, 0, 1, 0, 1,
    0, 1, 0, 1, 0, 1, 0, 1,
];

fn are_done<'f, G: Gate + Drop>(nodes: &[Node<'f, RingLink<'f>, G>]) -> bool
    requires { All (InStanding traffic_of) nodes.now }
    ensures { result ≡ true → All (IsDone traffic_of G.holds) nodes.now }
{
    for node in nodes {
        if !node.is_done() {
            return false;
        }
    }
    true
}

/// Drives two nodes by the schedule, and answers whether they are done then.
fn follow<'f, G: Gate + Drop>(nodes: &mut [Node<'f, RingLink<'f>, G>]) -> bool
    requires two { length nodes.old ≡ 2 }
    requires standing { All (InStanding traffic_of) nodes.old }
    ensures standing { All (InStanding traffic_of) nodes.new }
    ensures done { result ≡ true → All (IsDone traffic_of G.holds) nodes.new }
    ensures same { AtEach (λ _. IsSameNode end_of) nodes.old nodes.new }
{
    drive_schedule(nodes, &SCHEDULE);
    are_done(nodes)
}

/// What two shards leave that are driven so. None where they are not done, or not opened.
fn run_into<'f>(
    alloc: Global,
    trace: &'f Trace,
    homes: &'f [Foreign],
    seats: Vec<OwnerSeat>,
    remains: Remains<'f>,
) -> Option<Ran>
    requires two { trace.now.shards ≡ 2 }
    requires seats { AreAtRest 2 homes.now seats.items }
    requires room { IsRoomFor (trace_in trace.now) trace.now.shards 1536 remains }
{
    let Ok(mut nodes) = open_nodes(alloc, trace, PAGES, homes, seats, &OpenGates) else {
        return None;
    };
    if !follow(nodes.as_mut_slice()) {
        drop(nodes);
        return None;
    }
    Some(finish_run(trace, nodes, remains).ran)
}

/// The same, with room for what they leave.
fn run_by_schedule<'f>(
    alloc: Global,
    trace: &'f Trace,
    homes: &'f [Foreign],
    seats: Vec<OwnerSeat>,
) -> Option<Ran>
    requires two { trace.now.shards ≡ 2 }
    requires seats { AreAtRest 2 homes.now seats.items }
{
    match Remains::new(alloc, trace, PAGES) {
        Ok(remains) => run_into(alloc, trace, homes, seats, remains),
        Err(_) => None,
    }
}

/// What two shards leave of a trace that are driven so.
fn record_by_schedule(alloc: Global, lines: &[u8]) -> Result<Option<Ran>, Fail>
    requires short { length lines.now ≤ most_trace_bytes }
{
    let bytes = Vec::from_slice(alloc, lines)?;
    let trace = parse(alloc, bytes, 2).ok().ok_or("refused")?;
    let (homes, seats) = open_lists(alloc, 2)?;
    Ok(run_by_schedule(alloc, &trace, homes.as_slice(), seats))
}

/// Whether shard 1 stored the row that shard 0 was asked to put, and lent and got back a block as shard 0 did.
fn is_put_by_the_second(ran: &Ran) -> bool {
    let ([first, second], [log, _]) = (ran.journals(), ran.logs()) else {
        return false;
    };
    let lines = [
        ShardLine {
            rows: 0,
            live: 0,
            lent: 1,
            back: 1,
        },
        ShardLine {
            rows: 1,
            live: 48,
            lent: 1,
            back: 1,
        },
    ];
    first.entries().is_empty()
        && second.entries() == [Entry::Done(1)].as_slice()
        && log.reply(0) == Some((ReplyKind::Stored, b"".as_slice()))
        && ran.lines() == lines.as_slice()
}

#[test]
fn a_schedule_takes_two_shards_to_their_record(rt: HostRuntime) -> Result<(), Fail> {
    let ran = record_by_schedule(rt.alloc(), b"put b 1\n")?;
    assert!(rt; ran.is_some_and(|ran| is_put_by_the_second(&ran)));
    Ok(())
}
