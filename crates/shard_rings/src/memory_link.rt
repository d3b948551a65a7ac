//! A link with the other end of its pair, for one thread.
ghost use Rattle.std.specs.Prelude.{◌≡◌, ◌↔◌, OnOk, IfErr, OnErr, IfSome, OnSome, IfNone, IsNone, IfOk};
ghost use mathlib.Core.List.{IsPrefix};
ghost use Rattle.layout.specs.Counts.{Rose};
ghost use Rattle.shard_rings.specs.Lanes.{NoneFell, adds, on, counts};
ghost use Rattle.shard_rings.specs.Links.{IsUnused, end_of, none_sent, none_received, Receives, Sends};

use crate::lane_ends::{ReceivingEnds, SendingEnds, lanes};
use crate::link::{Lane, Link, Packet};
use std::alloc::{AllocError, Global};
use std::marker::Model;

/// A node's end with the peer's end beside it. What the node sends is taken from it, and what it will receive is offered.
///
/// Each lane is a ring of the size that it has between two threads, [`layout::REQUEST_SLOTS`] or [`layout::REPLY_SLOTS`].
#[derive(Drop)]
pub struct MemoryLink<'f> {
    out: SendingEnds<'f>,
    into: ReceivingEnds<'f>,
    // The peer's end.
    offered: SendingEnds<'f>,
    taken: ReceivingEnds<'f>,
}

impl<'f> Model for MemoryLink<'f> {
    ghost use Rattle.std.specs.Prelude.{◌≡◌};
    ghost use Rattle.shard_rings.specs.Links.{MemoryLinkState};

    ghost Value = { MemoryLinkState };

    ghost view = { λ l. record { link = record { out = l.out; into = l.into }; offered = l.offered; taken = l.taken } };

    ghost invariant = { λ l. (l.out.rings ≡ l.taken.rings) × (l.offered.rings ≡ l.into.rings) };
}

impl<'f> MemoryLink<'f> {
    /// A link on which nothing was sent or offered.
    ///
    /// # Errors
    /// There is no memory.
    pub fn new(alloc: Global) -> Result<MemoryLink<'f>, AllocError>
        ensures link { IfOk result (λ l. IsUnused l.link) }
        ensures peer { IfOk result (λ l. (l.offered ≡ none_sent l.link.into.rings) × (l.taken ≡ none_received l.link.out.rings)) }
    {
        let (out, taken) = lanes(alloc)?;
        let (offered, into) = lanes(alloc)?;
        Ok(MemoryLink {
            out,
            into,
            offered,
            taken,
        })
    }

    /// How often the lane was full as the node sent on it.
    pub fn full_count(&self, lane: Lane) -> u64
        ensures { result ≡ on lane self.now.link.out.full }
    {
        self.out.full(lane)
    }

    /// How often the lane was empty as the node looked for a packet.
    pub fn empty_count(&self, lane: Lane) -> u64
        ensures { result ≡ on lane self.now.link.into.empty }
    {
        self.into.empty(lane)
    }

    /// Sends a packet to the node.
    ///
    /// # Errors
    /// The packet, where the lane is full.
    pub fn offer(&mut self, lane: Lane, packet: Packet<'f>) -> Result<(), Packet<'f>>
        ensures sends { Sends lane packet.entry result self.old.offered self.new.offered }
        ensures link { (self.new.link ≡ self.old.link) × (self.new.taken ≡ self.old.taken) }
    {
        self.offered.push(lane, packet)
    }

    /// The next packet that the node sent. None exactly where all that it sent on the lane was taken.
    pub fn taken(&mut self, lane: Lane) -> Option<Packet<'f>>
        ensures receives { Receives lane result self.old.taken self.new.taken }
        ensures holds_none { IsNone result ↔ (on lane self.old.taken.received ≡ on lane self.old.link.out.sent) }
        ensures prefix { IsPrefix (on lane self.new.taken.received) (on lane self.old.link.out.sent) }
        ensures link { (self.new.link ≡ self.old.link) × (self.new.offered ≡ self.old.offered) }
    {
        self.taken.pop_beside(lane, &mut self.out)
    }
}

impl<'f> Link<'f> for MemoryLink<'f> {
    ghost use Rattle.shard_rings.specs.Links.{end_of, memory_traffic};

    ghost end = { λ l. end_of l.link };

    ghost traffic = { λ l. memory_traffic l };

    fn send(&mut self, lane: Lane, packet: Packet<'f>) -> Result<(), Packet<'f>>
        // The packet went over its lane.
        ensures same_end { end_of self.new.link ≡ end_of self.old.link }
        ensures sent { OnOk result (self.new.link.out.sent ≡ adds lane packet.entry self.old.link.out.sent) }

        // Or there was no slot for it.
        ensures back { IfErr result (λ back. back ≡ packet.entry) }
        ensures not_sent { OnErr result (self.new.link.out.sent ≡ self.old.link.out.sent) }
        ensures full { OnErr result (Rose (on lane self.old.link.out.full) (on lane self.new.link.out.full)) }

        // How often there was none.
        ensures never_falls { NoneFell self.old.link.out.full self.new.link.out.full
            × NoneFell self.old.link.into.empty self.new.link.into.empty }
        ensures counted { OnErr result (self.new.link.out.full ≡ counts lane self.old.link.out.full) }
        ensures not_counted { OnOk result (self.new.link.out.full ≡ self.old.link.out.full) }

        // The other way nothing happened.
        ensures received { self.new.link.into.received ≡ self.old.link.into.received }
        ensures into { self.new.link.into ≡ self.old.link.into }
        ensures peer { (self.new.offered ≡ self.old.offered) × (self.new.taken ≡ self.old.taken) }
    {
        self.out.push(lane, packet)
    }

    fn receive(&mut self, lane: Lane) -> Option<Packet<'f>>
        // A packet came over the lane.
        ensures same_end { end_of self.new.link ≡ end_of self.old.link }
        ensures received { IfSome result (λ packet. self.new.link.into.received ≡ adds lane packet self.old.link.into.received) }

        // Or there was none.
        ensures not_received { IfNone result (self.new.link.into.received ≡ self.old.link.into.received) }
        ensures empty { IfNone result (Rose (on lane self.old.link.into.empty) (on lane self.new.link.into.empty)) }

        // How often nothing was there.
        ensures never_falls { NoneFell self.old.link.out.full self.new.link.out.full
            × NoneFell self.old.link.into.empty self.new.link.into.empty }
        ensures counted { IfNone result (self.new.link.into.empty ≡ counts lane self.old.link.into.empty) }
        ensures not_counted { OnSome result (self.new.link.into.empty ≡ self.old.link.into.empty) }

        // What came is what the peer sent.
        ensures holds_none { IsNone result ↔ (on lane self.old.link.into.received ≡ on lane self.old.offered.sent) }
        ensures prefix { IsPrefix (on lane self.new.link.into.received) (on lane self.old.offered.sent) }

        // The other way nothing happened.
        ensures sent { self.new.link.out.sent ≡ self.old.link.out.sent }
        ensures out { self.new.link.out ≡ self.old.link.out }
        ensures peer { (self.new.offered ≡ self.old.offered) × (self.new.taken ≡ self.old.taken) }
    {
        self.into.pop_beside(lane, &mut self.offered)
    }
}
