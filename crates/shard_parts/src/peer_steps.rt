//! The steps of a turn that deal with one peer and nothing else.
ghost use Rattle.std.specs.Prelude.{◌<◌, ◌↔◌, IsTrue};
ghost use Rattle.part_lemmas.specs.Exchange.{packets};
ghost use Rattle.shard_parts.specs.Peers.{packets_by_all};
ghost use Rattle.shard_parts.specs.Peers.{held, held_by_all, Each, HoldsOther, SaysBye, SendsReply, TriesHeld};
ghost use Rattle.part_lemmas.specs.Releases.{held_count, Releases, TriesBoth};

use crate::peer::Peer;
use crate::releasing::release_held;
use crate::sending::{send_bye, send_held};
use foreign_list::Tally;
use shard_rings::{Lane, Link};

/// Tries each block that waits to be released once. True where one was.
pub fn release_all<'f, L: Drop>(peers: &mut [Peer<'f, L>], tally: &mut Tally) -> bool
    ensures releases { Releases (held_by_all peers.old) (held_by_all peers.new) tally.old tally.new }
    ensures each { Each TriesHeld peers.old peers.new }
    ensures released { IsTrue result ↔ (held_by_all peers.new < held_by_all peers.old) }
{
    let mut moved = false;
    for peer in peers.iter_mut() {
        moved |= peer.release_held(tally);
    }
    moved
}

impl<'f, L: Drop> Peer<'f, L> {
    /// Tries each block that waits to be released once. True where one was.
    pub(crate) fn release_held(&mut self, tally: &mut Tally) -> bool
        ensures tries { TriesBoth (held self.old) (held self.new) tally.old tally.new }
        ensures same { HoldsOther self.old self.new }
        ensures released { IsTrue result ↔ (held_count (held self.new) < held_count (held self.old)) }
    {
        let request = release_held(&mut self.held_request, tally);
        let reply = release_held(&mut self.held_reply, tally);
        request || reply
    }
}

impl<'f, L: Link<'f> + Drop> Peer<'f, L> {
    /// Sends the reply that waits. True where it was sent.
    pub fn send_reply(&mut self) -> bool
        ensures sends { SendsReply L.traffic L.end self.old self.new }
        ensures sent { IsTrue result ↔ (packets (L.traffic self.old.link) < packets (L.traffic self.new.link)) }
    {
        send_held(&mut self.link, Lane::Replies, &mut self.reply)
    }

    /// Says Bye, where it was not said. True where it was sent.
    pub(crate) fn say_bye(&mut self) -> bool
        ensures says { SaysBye L.traffic L.end self.old self.new }
        ensures sent { IsTrue result ↔ (packets (L.traffic self.old.link) < packets (L.traffic self.new.link)) }
    {
        if self.has_sent_bye {
            return false;
        }
        self.has_sent_bye = send_bye(&mut self.link);
        self.has_sent_bye
    }
}

/// Says Bye to each peer that was not told, on the lane of requests: no more of these come. True where it was sent to one.
pub fn say_byes<'f, L: Link<'f> + Drop>(peers: &mut [Peer<'f, L>]) -> bool
    ensures each { Each (SaysBye L.traffic L.end) peers.old peers.new }
    ensures sent { IsTrue result ↔ (packets_by_all L.traffic peers.old < packets_by_all L.traffic peers.new) }
{
    let mut moved = false;
    for peer in peers.iter_mut() {
        moved |= peer.say_bye();
    }
    moved
}

/// Sends each reply that waits. True where one was sent.
pub fn send_replies<'f, L: Link<'f> + Drop>(peers: &mut [Peer<'f, L>]) -> bool
    ensures each { Each (SendsReply L.traffic L.end) peers.old peers.new }
    ensures sent { IsTrue result ↔ (packets_by_all L.traffic peers.old < packets_by_all L.traffic peers.new) }
{
    let mut moved = false;
    for peer in peers.iter_mut() {
        moved |= peer.send_reply();
    }
    moved
}
