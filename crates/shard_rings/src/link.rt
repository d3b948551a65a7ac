//! A node's end toward one peer.
ghost use Rattle.std.specs.Prelude.{◌≡◌, ℕ, List, OnOk, IfErr, OnErr, IfSome, IfNone};
ghost use Rattle.shard_rings.specs.declared.link.Packet.{Packet};
ghost use Rattle.layout.specs.Counts.{Rose};
ghost use Rattle.shard_rings.specs.Lanes.{LinkEnd, NoneFell, Traffic, on, adds};

use foreign_list::ForeignBlock;

/// Which way a packet goes: requests to who does their part, replies to who asked.
#[derive(Clone, Copy, PartialEq, Eq, Debug)]
pub enum Lane {
    Requests,
    Replies,
}

/// What goes over a lane: a message in a block, or the word that no more come.
#[derive(Drop)]
pub enum Packet<'f> {
    Block(ForeignBlock<'f>),
    Bye,
}

/// One node's end toward one peer. It has two lanes each way.
pub trait Link<'f> {
    // Which end of which pair it is.
    ghost end: { Self → LinkEnd };

    // What went over it, each list with the oldest packet first, and how often a send was refused and nothing was there.
    ghost traffic: { Self → Traffic };

    /// Sends a packet. It waits for nobody.
    ///
    /// # Errors
    /// The packet, where the lane is full: that lane's count `full` rises.
    fn send(&mut self, lane: Lane, packet: Packet<'f>) -> Result<(), Packet<'f>>
        ensures same_end { end self.new ≡ end self.old }
        ensures sent { OnOk result ((traffic self.new).sent ≡ adds lane packet.entry (traffic self.old).sent) }
        ensures back { IfErr result (λ back. back ≡ packet.entry) }
        ensures not_sent { OnErr result ((traffic self.new).sent ≡ (traffic self.old).sent) }
        ensures received { (traffic self.new).received ≡ (traffic self.old).received }
        ensures full { OnErr result (Rose (on lane (traffic self.old).full) (on lane (traffic self.new).full)) }
        ensures never_falls { NoneFell (traffic self.old).full (traffic self.new).full
            × NoneFell (traffic self.old).empty (traffic self.new).empty };

    /// The next packet that the peer sent. None where none is there: that lane's count `empty` rises. It waits for nobody.
    fn receive(&mut self, lane: Lane) -> Option<Packet<'f>>
        ensures same_end { end self.new ≡ end self.old }
        ensures received { IfSome result (λ packet. (traffic self.new).received ≡ adds lane packet (traffic self.old).received) }
        ensures not_received { IfNone result ((traffic self.new).received ≡ (traffic self.old).received) }
        ensures sent { (traffic self.new).sent ≡ (traffic self.old).sent }
        ensures empty { IfNone result (Rose (on lane (traffic self.old).empty) (on lane (traffic self.new).empty)) }
        ensures never_falls { NoneFell (traffic self.old).full (traffic self.new).full
            × NoneFell (traffic self.old).empty (traffic self.new).empty };
}
