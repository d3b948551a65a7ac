//! The requests that a peer sends.
ghost use Rattle.std.specs.Prelude.{◌≡◌, ◌↔◌, IsTrue};
ghost use Rattle.part_lemmas.specs.Due.{number_said};
ghost use Rattle.shard_parts.specs.declared.stray_packet.Tried.{Tried as Tries};
ghost use Rattle.shard_parts.specs.Receives.{MayAsk, due_next};

use crate::peer::Peer;
use crate::stray_packet::{StrayPacket, Tried};
use shard_rings::Link;

impl<'f, L: Link<'f> + Drop> Peer<'f, L> {
    /// Whether more requests may come, no block of theirs waits to be released, and no reply waits to be sent.
    pub fn may_ask(&self) -> bool
        ensures { IsTrue result ↔ MayAsk self.now }
    {
        !self.has_heard_bye && self.held_request.is_none() && self.reply.is_none()
    }
}

impl<'f, L: Drop> Peer<'f, L> {
    /// A packet of this number in place of what is expected.
    pub fn unexpected_request(&self, found: u32) -> Tried
        ensures { result ≡ Tries.Other (record { peer = self.now.shard; expected = number_said (due_next self.now); found = found }) }
    {
        Tried::Other(StrayPacket {
            peer: self.shard,
            expected: self.asks.number(),
            found,
        })
    }
}
