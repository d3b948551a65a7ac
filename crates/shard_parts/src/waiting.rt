//! Whether anything waits between a shard and its peers.
ghost use Rattle.std.specs.Prelude.{◌↔◌, All, IsTrue};
ghost use Rattle.shard_parts.specs.Peers.{HasNoneWaiting};

use crate::peer::Peer;

/// Whether no block of a peer waits to be released, and no reply to be sent.
pub fn none_waits<'f, L: Drop>(peers: &[Peer<'f, L>]) -> bool
    ensures { IsTrue result ↔ All HasNoneWaiting peers.now }
{
    for peer in peers {
        if !peer.waits_for_none() {
            return false;
        }
    }
    true
}

impl<'f, L: Drop> Peer<'f, L> {
    /// Whether no block of it waits to be released, and no reply to be sent to it.
    fn waits_for_none(&self) -> bool
        ensures { IsTrue result ↔ HasNoneWaiting self.now }
    {
        self.held_request.is_none() && self.held_reply.is_none() && self.reply.is_none()
    }
}
