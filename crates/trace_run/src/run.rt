//! A run of a trace on all shards.
ghost use Rattle.std.specs.Prelude.{◌<◌, ◌≤◌, length, All, IfOk, IfErr};
ghost use Rattle.layout.specs.Sizes.{ArePages};
ghost use Rattle.trace_text.specs.Parsed.{IsWellFormed, trace_in};
ghost use Rattle.run_log.specs.Runs.{IsFinished};
ghost use Rattle.shard_rings.specs.Links.{end_of, traffic_of};
ghost use Rattle.shard_node.specs.Nodes.{HasTablePages};
ghost use Rattle.shard_node.specs.Standing.{InStanding};
ghost use Rattle.shard_node.specs.Turns.{IsDone, IsSameNode};
ghost use Rattle.shard_drive.specs.Drives.{AtEach};
ghost use Rattle.shard_run.specs.Opening.{AreAtRest};

use foreign_list::{Foreign, OwnerSeat};
use shard_drive::{drive_numbered, drive_threads};
use shard_node::{Gate, Gates, Node, Ran};
use shard_rings::RingLink;
use shard_run::{Ended, Remains, close_lists, finish_run, open_lists, open_nodes};
use std::alloc::{AllocError, Global};
use std::sync::Wait;
use std::thread::Threads;
use trace_text::Trace;

/// In which order the shards make their turns.
#[derive(Clone, Copy, Debug, PartialEq, Eq)]
pub enum Order {
    /// Each on a thread of its own.
    Threads,
    /// One turn after the other on one thread, the next shard drawn from this number.
    Numbered(u32),
}

/// Drives the nodes of all shards until they are done.
fn drive<'f, R, G>(rt: &R, nodes: &mut [Node<'f, RingLink<'f>, G>], order: Order)
where
    R: Threads + Wait + Sync,
    G: Gate + Send + Drop,
    requires some { 0 < length nodes.old }
    requires standing { All (InStanding traffic_of) nodes.old }
    ensures standing { All (InStanding traffic_of) nodes.new }
    ensures done { All (IsDone traffic_of G.holds) nodes.new }
    ensures same { AtEach (λ _. IsSameNode end_of) nodes.old nodes.new }
{
    match order {
        Order::Threads => drive_threads(rt, nodes),
        Order::Numbered(number) => drive_numbered(rt, nodes, number),
    }
}

/// Runs a trace over these lists, whose seats are handed back.
///
/// # Errors
/// Want of memory; the seats are handed back.
fn run_over<'f, R, G>(
    rt: &R,
    alloc: Global,
    trace: &'f Trace,
    pages: u32,
    order: Order,
    gates: &G,
    homes: &'f [Foreign],
    seats: Vec<OwnerSeat>,
) -> Result<Ended, Vec<OwnerSeat>>
where
    R: Threads + Wait + Sync,
    G: Gates,
    requires pages { ArePages pages }
    requires tables { HasTablePages (trace_in trace.now) pages }
    requires some { 1 ≤ trace.now.shards }
    requires seats { AreAtRest trace.now.shards homes.now seats.items }
    ensures run { IfOk result (λ ended. IsFinished (trace_in trace.now) trace.now.shards pages ended.ran) }
    ensures seats { IfOk result (λ ended. AreAtRest trace.now.shards homes.now ended.seats.items) }
    ensures refused { IfErr result (λ back. AreAtRest trace.now.shards homes.now back.items) }
{
    let Ok(remains) = Remains::new(alloc, trace, pages) else {
        return Err(seats);
    };
    let mut nodes = open_nodes(alloc, trace, pages, homes, seats, gates)?;
    drive(rt, nodes.as_mut_slice(), order);
    Ok(finish_run(trace, nodes, remains))
}

/// Runs a trace on the shards that it was parsed for, each of so many pages, at least 1,536 where the trace is of version 2.
///
/// # Errors
/// Want of memory, which is all taken before the first turn; then nothing was done.
pub fn run_trace<R, G>(
    rt: &R,
    alloc: Global,
    trace: &Trace,
    pages: u32,
    order: Order,
    gates: &G,
) -> Result<Ran, AllocError>
where
    R: Threads + Wait + Sync,
    G: Gates,
    requires pages { ArePages pages }
    requires tables { HasTablePages (trace_in trace.now) pages }
    ensures run { IfOk result (λ ran. IsFinished (trace_in trace.now) trace.now.shards pages ran) }

    // What holds of each trace.
    ensures well_formed { All IsWellFormed (trace_in trace.now).operations }
{
    let shards = trace.shards();
    let (homes, seats) = open_lists(alloc, shards)?;
    match run_over(
        rt,
        alloc,
        trace,
        pages,
        order,
        gates,
        homes.as_slice(),
        seats,
    ) {
        Ok(Ended { ran, seats }) => {
            close_lists(homes, seats);
            Ok(ran)
        }
        Err(seats) => {
            close_lists(homes, seats);
            Err(AllocError)
        }
    }
}
