//! The end of a run.
ghost use Rattle.std.specs.Prelude.{List};
ghost use Rattle.trace_text.specs.Parsed.{trace_in};
ghost use Rattle.run_log.specs.Runs.{IsFinished};
ghost use Rattle.foreign_list.specs.Lists.{OwnedList};
ghost use Rattle.shard_run.specs.Opening.{AreAtRest};
ghost use Rattle.shard_run.specs.Remaining.{IsRoomFor};
ghost use Rattle.shard_run.specs.Running.{WereDriven};

use crate::closing::close_links;
use crate::finishing::finish_nodes;
use crate::remains::Remains;
use foreign_list::OwnerSeat;
use shard_node::{Gate, Node, Ran, done_nodes_agree};
use shard_rings::RingLink;
use trace_text::Trace;

/// What a run came to, in the order of its shards.
#[derive(Drop)]
pub struct Ended {
    pub ran: Ran,
    pub seats: Vec<OwnerSeat>,
}

/// Ends a run of a trace, whose nodes were driven until all were done: they are finished, and the pairs of all shards are ended. The
/// seats at the lists of the run are handed back, at rest.
pub fn finish_run<'f, G: Gate + Drop>(
    trace: &Trace,
    nodes: Vec<Node<'f, RingLink<'f>, G>>,
    into: Remains<'f>,
) -> Ended
    requires driven { (homes : List OwnedList)
        × WereDriven G.holds (trace_in trace.now) trace.now.shards into.ran.pages homes nodes.items }
    requires room { IsRoomFor (trace_in trace.now) trace.now.shards into.ran.pages into }
    ensures run { IsFinished (trace_in trace.now) trace.now.shards into.entry.ran.pages result.ran }
    ensures seats { (homes : List OwnedList)
        → WereDriven G.holds (trace_in trace.now) trace.now.shards into.entry.ran.pages homes nodes.entry.items
        → AreAtRest trace.now.shards homes result.seats.items }
{
    // What the nodes did is a finished run of this trace: by what holds of each trace, and by what nodes say that are done.
    trace.shards();
    done_nodes_agree::<RingLink<'f>, G>();
    let Remains { ran, links, seats } = finish_nodes(nodes, into);
    close_links(links);
    Ended { ran, seats }
}
