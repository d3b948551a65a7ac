//! How a shard is opened.
ghost use Rattle.std.specs.Prelude.{◌≡◌, ◌+◌, ◌<◌, length, map, All, IfOk, IfErr};
ghost use Rattle.layout.specs.Sizes.{ArePages};
ghost use Rattle.trace_text.specs.Parsed.{trace_in};
ghost use Rattle.foreign_list.specs.OwnerSeats.{IsAtRest};
ghost use Rattle.shard_memory.specs.Tickets.{tickets_out};
ghost use Rattle.shard_node.specs.Nodes.{others, HasTablePages};
ghost use Rattle.shard_node.specs.Standing.{InStanding};
ghost use Rattle.shard_node.specs.Links.{IsUnused};
ghost use Rattle.shard_node.specs.inside.Shards.{node_state, IsConsistent};

use super::Shard;
use crate::gate::Gate;
use crate::refusal::NodeRefusal;
use foreign_list::{Foreign, OwnerSeat, Tally};
use shard_parts::{Own, Rest, Room, peers_over};
use shard_rings::Link;
use shard_store::ShardStore;
use std::alloc::Global;
use trace_text::Trace;

impl<'f, L: Link<'f> + Drop, G: Gate + Drop> Shard<'f, L, G> {
    /// A shard of a trace, with so many pages, and with a link to each other shard. All memory that its part of the trace needs is
    /// taken here.
    ///
    /// # Errors
    /// Want of memory; then the seat and the links are handed back.
    pub(crate) fn open(
        alloc: Global,
        shard: u32,
        pages: u32,
        trace: &'f Trace,
        home: &'f Foreign,
        seat: OwnerSeat,
        links: Vec<L>,
        gate: G,
    ) -> Result<Shard<'f, L, G>, NodeRefusal<L>>
        // What it is opened with.
        requires pages { ArePages pages }
        requires tables { HasTablePages (trace_in trace.now) pages }
        requires owner { home.now.owner ≡ shard }
        requires seat { IsAtRest home.now seat }
        requires within { shard < trace.now.shards }
        requires links { length links.items + 1 ≡ trace.now.shards }
        requires unused { All (IsUnused L.traffic) links.items }

        // Without memory, seat and links come back.
        ensures refused { IfErr result (λ refusal. (refusal.seat ≡ seat) × (refusal.links ≡ links)) }

        // Which shard it is.
        ensures consistent { IfOk result IsConsistent }
        ensures standing { IfOk result (λ s. InStanding L.traffic (node_state s)) }
        ensures numbers { IfOk result (λ s. (s.shard ≡ shard) × (s.shards ≡ trace.now.shards) × (s.pages ≡ pages)) }
        ensures trace { IfOk result (λ s. s.trace.now ≡ trace.now) }

        // No block is out.
        ensures list { IfOk result (λ s. s.store.list ≡ home.now) }
        ensures lent { IfOk result (λ s. tickets_out s.store.lent ≡ 0) }

        // How it stands before the first turn.
        ensures links { IfOk result (λ s. map (λ peer. peer.link) s.peers.items ≡ links.items) }
        ensures peers { IfOk result (λ s. map (λ peer. peer.shard) s.peers.items ≡ others trace.now.shards shard) }
        ensures gate { IfOk result (λ s. s.gate ≡ gate) }
        ensures turns { IfOk result (λ s. s.turns ≡ 0) }
    {
        let shards = trace.shards();
        let Ok(room) = Room::new(alloc, shard, trace) else {
            return Err(NodeRefusal { seat, links });
        };
        let Room {
            journal,
            log,
            keys,
            peers,
            rows,
        } = room;
        let regions = trace.regions();
        let store = match ShardStore::open(alloc, shard, pages, rows, regions, home, seat) {
            Ok(store) => store,
            Err(seat) => return Err(NodeRefusal { seat, links }),
        };
        Ok(Shard {
            shard,
            shards,
            pages,
            trace,
            longest: trace.longest_value(),
            store,
            journal,
            log,
            keys,
            peers: peers_over(trace, shard, links, peers),
            own: Own::of(trace, shard),
            here: Rest::of(trace, shard, shard),
            request: None,
            gate,
            tally: Tally::new(),
            turns: 0,
        })
    }
}
