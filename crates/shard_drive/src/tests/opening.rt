//! Nodes over rings, as the tests drive them.
ghost use Rattle.std.specs.Prelude.{◌≡◌, ◌+◌, ◌<◌, ◌≤◌, [], length, All, IfOk, OnOk};
ghost use Rattle.foreign_list.specs.OwnerSeats.{IsAtRest};
ghost use Rattle.trace_text.specs.Parts.{most_shards};
ghost use Rattle.layout.specs.Sizes.{most_trace_bytes};
ghost use Rattle.shard_rings.specs.Links.{traffic_of};
ghost use Rattle.shard_node.specs.Links.{IsUnused};
ghost use Rattle.shard_node.specs.Standing.{InStanding};
ghost use Rattle.shard_drive.specs.Trials.{AreReady, AreUnused};

use foreign_list::{Foreign, OwnerSeat};
use layout::FEWEST_TABLE_PAGES;
use shard_node::{Gate, Gates, Node};
use shard_rings::{RingLink, ring_links};
use std::alloc::{AllocError, Global};
use std::test::Fail;
use trace_text::{Trace, parse};

/// The trace of a text, for so many shards.
pub fn trace_for(alloc: Global, text: &[u8], shards: u32) -> Result<Trace, Fail>
    requires short { length text.now ≤ most_trace_bytes }
    requires some { 1 ≤ shards }
    requires most { shards ≤ most_shards }
    ensures { IfOk result (λ trace. trace.shards ≡ shards) }
{
    let mut bytes = Vec::new(alloc);
    bytes.extend_from_slice(text)?;
    match parse(alloc, bytes, shards) {
        Ok(trace) => Ok(trace),
        Err(_) => Err(Fail::from("refused")),
    }
}

/// The lists of so many shards, and their owners' seats.
pub fn lists(alloc: Global, shards: u32) -> Result<(Vec<Foreign>, Vec<OwnerSeat>), AllocError>
    ensures homes { IfOk result (λ r. length r.0.items ≡ shards) }
    ensures seats { IfOk result (λ r. length r.1.items ≡ shards) }
    ensures ready { IfOk result (λ r. AreReady r.0.items r.1.items) }
{
    let mut homes = Vec::new(alloc);
    let mut seats = Vec::new(alloc);
    for shard in 0..shards {
        let (home, seat) = Foreign::new(alloc, shard)?;
        homes.push(home)?;
        seats.push(seat)?;
    }
    Ok((homes, seats))
}

/// The links of so many shards.
fn links_of<'f>(alloc: Global, shards: u32) -> Result<Vec<Vec<RingLink<'f>>>, AllocError>
    ensures each { IfOk result (λ links. length links.items ≡ shards) }
    ensures unused { IfOk result (λ links. All (AreUnused shards) links.items) }
{
    ring_links(alloc, shards)
}

/// The node of one shard, over as few pages as a trace of each version runs on.
fn open_node<'f, G: Gate + Drop>(
    alloc: Global,
    shard: u32,
    shards: u32,
    trace: &'f Trace,
    home: &'f Foreign,
    seat: OwnerSeat,
    links: Vec<RingLink<'f>>,
    gate: G,
) -> Result<Node<'f, RingLink<'f>, G>, AllocError>
    requires owner { home.now.owner ≡ shard }
    requires seat { IsAtRest home.now seat }
    requires parsed_for { shards ≡ trace.now.shards }
    requires within { shard < shards }
    requires links { length links.items + 1 ≡ shards }
    requires unused { All (IsUnused traffic_of) links.items }
    ensures { IfOk result (InStanding traffic_of) }
{
    match Node::open(
        alloc,
        shard,
        shards,
        FEWEST_TABLE_PAGES,
        trace,
        home,
        seat,
        links,
        gate,
    ) {
        Ok(node) => Ok(node),
        Err(_) => Err(AllocError),
    }
}

/// The nodes of all shards, in their order.
pub fn open_nodes<'f, S: Gates>(
    alloc: Global,
    shards: u32,
    trace: &'f Trace,
    homes: &'f [Foreign],
    mut seats: Vec<OwnerSeat>,
    gates: &S,
) -> Result<Vec<Node<'f, RingLink<'f>, S::Made>>, AllocError>
    requires parsed_for { shards ≡ trace.now.shards }
    requires homes { length homes.now ≡ shards }
    requires seats { length seats.items ≡ shards }
    requires ready { AreReady homes.now seats.items }
    ensures count { IfOk result (λ nodes. length nodes.items ≡ shards) }
    ensures standing { IfOk result (λ nodes. All (InStanding traffic_of) nodes.items) }
{
    let mut links = links_of(alloc, shards)?;
    let mut nodes = Vec::new(alloc);
    let opened = open_all(
        alloc, shards, trace, homes, gates, &mut seats, &mut links, &mut nodes,
    );
    drop(links);
    drop(seats);
    match opened {
        Ok(()) => Ok(nodes),
        Err(AllocError) => {
            drop(nodes);
            Err(AllocError)
        }
    }
}

/// Opens the node of each shard. What it opens and uses up stands with the caller, so that no early return ends it.
fn open_all<'f, S: Gates>(
    alloc: Global,
    shards: u32,
    trace: &'f Trace,
    homes: &'f [Foreign],
    gates: &S,
    seats: &mut Vec<OwnerSeat>,
    links: &mut Vec<Vec<RingLink<'f>>>,
    nodes: &mut Vec<Node<'f, RingLink<'f>, S::Made>>,
) -> Result<(), AllocError>
    // What each shard starts with.
    requires parsed_for { shards ≡ trace.now.shards }
    requires homes { length homes.now ≡ shards }
    requires seats { length seats.old.items ≡ shards }
    requires ready { AreReady homes.now seats.old.items }
    requires links { length links.old.items ≡ shards }
    requires unused { All (AreUnused shards) links.old.items }
    requires none { nodes.old.items ≡ [] }

    // One node for each of them.
    ensures count { OnOk result (length nodes.new.items ≡ shards) }
    ensures standing { OnOk result (All (InStanding traffic_of) nodes.new.items) }
{
    while let Some(seat) = seats.pop() {
        let shard = seats.len();
        let own = links.pop().unwrap();
        let gate = gates.gate(shard as u32);
        let node = open_node(
            alloc,
            shard as u32,
            shards,
            trace,
            &homes[shard],
            seat,
            own,
            gate,
        )?;
        nodes.insert(0, node)?;
    }
    Ok(())
}
