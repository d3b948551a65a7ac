//! When a shard is done.
ghost use Rattle.std.specs.Prelude.{◌↔◌, IsTrue};
ghost use Rattle.shard_node.specs.Standing.{InStanding};
ghost use Rattle.shard_node.specs.Turns.{IsDone};
ghost use Rattle.shard_node.specs.inside.Endings.{IsAtEnd};
ghost use Rattle.shard_node.specs.inside.Shards.{node_state, IsConsistent};

use super::Shard;
use crate::gate::Gate;
use shard_parts::all_ended;
use shard_rings::Link;

impl<'f, L: Link<'f> + Drop, G: Gate + Drop> Shard<'f, L, G> {
    /// Whether all own parts are answered, each peer's Bye came and the own ones went, nothing waits, and all blocks are back.
    pub(crate) fn is_done(&self) -> bool
        requires consistent { IsConsistent self.now }
        ensures { InStanding L.traffic (node_state self.now)
            → (IsTrue result ↔ IsDone L.traffic G.holds (node_state self.now)) }
    {
        self.is_at_end()
    }
}

impl<'f, L: Drop, G: Drop> Shard<'f, L, G> {
    /// Whether no request waits, no own part is left to begin, all blocks are back, and each peer has ended.
    fn is_at_end(&self) -> bool
        ensures { IsTrue result ↔ IsAtEnd self.now }
    {
        self.request.is_none()
            && self.own.are_all_begun()
            && self.store.tickets_out() == 0
            && all_ended(self.peers.as_slice())
    }
}
