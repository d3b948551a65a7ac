//! The opening of the nodes of all shards.
ghost use Rattle.std.specs.Prelude.{◌≡◌, ◌+◌, ◌<◌, ◌≤◌, [], ◌∷◌, ◌++◌, length, vec_capacity, IfOk, IfErr, OnOk, OnErr};
ghost use Rattle.layout.specs.Sizes.{ArePages};
ghost use Rattle.trace_text.specs.Parsed.{trace_in};
ghost use Rattle.shard_rings.specs.Mesh.{IsMesh};
ghost use Rattle.shard_node.specs.Nodes.{HasTablePages};
ghost use Rattle.shard_run.specs.Opening.{AreAtRest, AreLists, AreOpened, AreSeatsOf};
ghost use Rattle.shard_run.specs.inside.Opening.{AreLeft, AreUnturned, AreUnused, GivesBack, OpensLast};

use foreign_list::{Foreign, OwnerSeat};
use shard_node::{Gate, Gates, Node, NodeRefusal};
use shard_rings::{RingLink, ring_links};
use std::alloc::{AllocError, Global};
use trace_text::Trace;

/// The nodes of all shards of a trace, in their order, with so many pages each, at least 1,536 where the trace is of version 2. The
/// blocks of shard s come home over list s. All of the memory that they use is taken here.
///
/// # Errors
/// Want of memory: then each node that was opened is abandoned, and the seats are handed back in their order.
pub fn open_nodes<'f, G: Gates>(
    alloc: Global,
    trace: &'f Trace,
    pages: u32,
    homes: &'f [Foreign],
    mut seats: Vec<OwnerSeat>,
    gates: &G,
) -> Result<Vec<Node<'f, RingLink<'f>, G::Made>>, Vec<OwnerSeat>>
    requires pages { ArePages pages }
    requires tables { HasTablePages (trace_in trace.now) pages }
    requires seats { AreAtRest trace.now.shards homes.now seats.items }
    ensures opened { IfOk result (λ nodes. AreOpened (trace_in trace.now) trace.now.shards pages homes.now nodes.items) }
    ensures refused { IfErr result (λ back. AreAtRest trace.now.shards homes.now back.items) }
{
    let Ok(links) = ring_links(alloc, trace.shards()) else {
        return Err(seats);
    };
    let Ok(mut nodes) = Vec::with_capacity(alloc, homes.len()) else {
        return Err(seats);
    };
    match open_all(
        alloc, trace, pages, homes, links, gates, &mut seats, &mut nodes,
    ) {
        Ok(()) => Ok(nodes),
        Err(_) => {
            abandon_nodes(nodes, &mut seats);
            Err(seats)
        }
    }
}

/// Opens the node of each shard, from the last one on. So the seats that are left are always those of the first shards, and those
/// of nodes that are abandoned stand behind them.
fn open_all<'f, G: Gates>(
    alloc: Global,
    trace: &'f Trace,
    pages: u32,
    homes: &'f [Foreign],
    mut links: Vec<Vec<RingLink<'f>>>,
    gates: &G,
    seats: &mut Vec<OwnerSeat>,
    nodes: &mut Vec<Node<'f, RingLink<'f>, G::Made>>,
) -> Result<(), AllocError>
    // What all shards share.
    requires pages { ArePages pages }
    requires tables { HasTablePages (trace_in trace.now) pages }

    // What each shard starts with.
    requires lists { AreLists trace.now.shards homes.now }
    requires one_each { length seats.old.items ≡ trace.now.shards }
    requires seats { AreSeatsOf homes.now seats.old.items }
    requires links { length links.items ≡ trace.now.shards }
    requires mesh { IsMesh links.items }

    // No node yet, and room for all.
    requires none { nodes.old.items ≡ [] }
    requires room { trace.now.shards ≤ vec_capacity nodes.old }

    // All nodes, or as far as it came.
    ensures opened { OnOk result (AreOpened (trace_in trace.now) trace.now.shards pages homes.now nodes.new.items) }
    ensures refused { OnErr result (AreLeft trace.now.shards homes.now seats.new.items nodes.new.items) }
    ensures room { trace.now.shards ≤ vec_capacity seats.new }
{
    while let Some(own) = links.pop() {
        open_last(alloc, trace, pages, homes, own, gates, seats, nodes)?;
    }
    Ok(())
}

/// Opens the node of the last shard whose seat is left, and puts it before the others.
fn open_last<'f, G: Gates>(
    alloc: Global,
    trace: &'f Trace,
    pages: u32,
    homes: &'f [Foreign],
    links: Vec<RingLink<'f>>,
    gates: &G,
    seats: &mut Vec<OwnerSeat>,
    nodes: &mut Vec<Node<'f, RingLink<'f>, G::Made>>,
) -> Result<(), AllocError>
    // What all shards share.
    requires pages { ArePages pages }
    requires tables { HasTablePages (trace_in trace.now) pages }
    requires lists { AreLists trace.now.shards homes.now }

    // What the last of them starts with.
    requires some { 0 < length seats.old.items }
    requires within { length seats.old.items + length nodes.old.items ≡ trace.now.shards }
    requires seats { AreSeatsOf homes.now seats.old.items }
    requires links { length links.items + 1 ≡ trace.now.shards }
    requires unused { AreUnused links.items }
    requires room { trace.now.shards ≤ vec_capacity nodes.old }

    // One node more, or nothing changed.
    ensures opened { OnOk result
        (OpensLast (trace_in trace.now) trace.now.shards pages homes.now links.entry.items
        seats.old.items seats.new.items nodes.old.items nodes.new.items) }
    ensures refused { OnErr result ((seats.new.items ≡ seats.old.items) × (nodes.new.items ≡ nodes.old.items)) }

    // The memory of both is kept.
    ensures seats_room { vec_capacity seats.old ≤ vec_capacity seats.new }
    ensures nodes_room { vec_capacity nodes.old ≤ vec_capacity nodes.new }
{
    let shards = trace.shards();
    let seat = seats.pop().unwrap();
    let shard = seats.len();
    let (number, home) = (shard as u32, &homes[shard]);
    let gate = gates.gate(number);
    match Node::open(alloc, number, shards, pages, trace, home, seat, links, gate) {
        Ok(node) => {
            nodes.insert(0, node).unwrap();
            Ok(())
        }
        Err(refusal) => {
            hand_back(refusal, seats);
            Err(AllocError)
        }
    }
}

/// Abandons nodes that made no turn: their seats stand behind those that are there, for which there is room.
fn abandon_nodes<'f, G: Gate + Drop>(
    nodes: Vec<Node<'f, RingLink<'f>, G>>,
    seats: &mut Vec<OwnerSeat>,
)
    requires unturned { AreUnturned nodes.items }
    requires room { length seats.old.items + length nodes.items ≤ vec_capacity seats.old }
    ensures { GivesBack nodes.entry.items seats.old.items seats.new.items }
{
    for node in nodes {
        hand_back(node.abandon(), seats);
    }
}

/// Puts the seat of a node that there is not behind the others, for which there is room.
fn hand_back<'f>(refusal: NodeRefusal<RingLink<'f>>, seats: &mut Vec<OwnerSeat>)
    requires { length seats.old.items < vec_capacity seats.old }
    ensures seat { seats.new.items ≡ seats.old.items ++ refusal.entry.seat ∷ [] }
    ensures room { vec_capacity seats.old ≤ vec_capacity seats.new }
{
    seats.push_reserved(refusal.seat);
}
