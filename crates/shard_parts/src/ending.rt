//! When a shard is done with its peers.
ghost use Rattle.std.specs.Prelude.{◌↔◌, All, IsTrue};
ghost use Rattle.shard_parts.specs.Receives.{HasEnded};

use crate::peer::Peer;

/// Whether each of the peers has ended.
pub fn all_ended<'f, L: Drop>(peers: &[Peer<'f, L>]) -> bool
    ensures { IsTrue result ↔ All HasEnded peers.now }
{
    for peer in peers {
        if !peer.has_ended() {
            return false;
        }
    }
    true
}

impl<'f, L: Drop> Peer<'f, L> {
    /// Whether no more comes of the peer, it has answered all, and nothing is left to send to it.
    fn has_ended(&self) -> bool
        ensures { IsTrue result ↔ HasEnded self.now }
    {
        self.has_heard_bye
            && self.has_sent_bye
            && self.held_request.is_none()
            && self.held_reply.is_none()
            && self.reply.is_none()
            && self.answers.first().is_none()
    }
}
