//! Turns of nodes over links with both ends at hand.
ghost use Rattle.std.specs.Prelude.{◌≡◌, ◌+◌, length, All, IfSome};
ghost use Rattle.foreign_list.specs.OwnerSeats.{IsAtRest};
ghost use Rattle.shard_node.specs.Links.{IsUnused};
ghost use Rattle.shard_rings.specs.Links.{memory_traffic};

use foreign_list::{Foreign, OwnerSeat};
use layout::FEWEST_PAGES;
use shard_node::{Node, OpenGate, Turn};
use shard_rings::MemoryLink;
use std::alloc::Global;
use trace_text::Trace;

/// Makes at most so many turns of the one node of a trace, until it is done, and answers how many it made.
pub fn turn_alone(alloc: Global, trace: &Trace, most: u32) -> Option<u64>
    requires { trace.now.shards ≡ 1 }
{
    let (home, seat) = Foreign::new(alloc, 0).ok()?;
    let mut node = open_node(alloc, trace, &home, seat, Vec::new(alloc))?;
    for _ in 0..most {
        if node.turn() == Turn::Done {
            break;
        }
    }
    let turns = node.turns();
    drop(node);
    Some(turns)
}

/// Makes so many turns of the first of two nodes, while the other makes none, and answers how many of them were idle.
pub fn turn_idly(alloc: Global, trace: &Trace, turns: u32) -> Option<u64>
    requires { trace.now.shards ≡ 2 }
{
    let (home, seat) = Foreign::new(alloc, 0).ok()?;
    let links = one_link(alloc)?;
    let mut node = open_node(alloc, trace, &home, seat, links)?;
    let mut idle = 0u64;
    for _ in 0..turns {
        if node.turn() == Turn::Idle {
            idle = idle.saturating_add(1);
        }
    }
    drop(node);
    Some(idle)
}

/// The node of shard 0, over few pages, whose commands wait for no gate. None where the trace has tables, for which the pages are
/// too few.
fn open_node<'f>(
    alloc: Global,
    trace: &'f Trace,
    home: &'f Foreign,
    seat: OwnerSeat,
    links: Vec<MemoryLink<'f>>,
) -> Option<Node<'f, MemoryLink<'f>, OpenGate>>
    requires owner { home.now.owner ≡ 0 }
    requires seat { IsAtRest home.now seat }
    requires links { length links.items + 1 ≡ trace.now.shards }
    requires unused { All (IsUnused memory_traffic) links.items }
{
    if trace.regions() > 1 {
        return None;
    }
    Node::open(
        alloc,
        0,
        trace.shards(),
        FEWEST_PAGES,
        trace,
        home,
        seat,
        links,
        OpenGate,
    )
    .ok()
}

/// One link, on which nothing was sent.
fn one_link<'f>(alloc: Global) -> Option<Vec<MemoryLink<'f>>>
    ensures count { IfSome result (λ links. length links.items ≡ 1) }
    ensures unused { IfSome result (λ links. All (IsUnused memory_traffic) links.items) }
{
    let link = MemoryLink::new(alloc).ok()?;
    let mut links = Vec::new(alloc);
    links.push(link).ok()?;
    Some(links)
}
