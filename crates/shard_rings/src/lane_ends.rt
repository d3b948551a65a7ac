//! The ends of two rings, one for each lane.
ghost use Rattle.std.specs.Prelude.{◌≡◌, ◌↔◌, length, min, IsNone, IfOk};
ghost use mathlib.Core.List.{IsPrefix};
ghost use Rattle.layout.specs.Counts.{greatest_count};
ghost use Rattle.shard_rings.specs.Lanes.{on, ArePrefixes};
ghost use Rattle.shard_rings.specs.Links.{none_sent, none_received, Receives, Sends};

use crate::link::{Lane, Packet};
use crate::ring_end::{ReceivingEnd, SendingEnd, ring};
use layout::{REPLY_SLOTS, REQUEST_SLOTS};
use std::alloc::{AllocError, Global};
use std::marker::Model;

/// The ends that send.
#[derive(Drop)]
pub struct SendingEnds<'f> {
    requests: SendingEnd<'f>,
    replies: SendingEnd<'f>,
}

impl<'f> Model for SendingEnds<'f> {
    ghost use Rattle.shard_rings.specs.Links.{Outgoing};
    ghost use Rattle.shard_rings.specs.inside.Rings.{outgoing};

    ghost Value = { Outgoing };

    ghost view = { λ s. outgoing s.requests s.replies };
}

/// The ends that receive.
#[derive(Drop)]
pub struct ReceivingEnds<'f> {
    requests: ReceivingEnd<'f>,
    replies: ReceivingEnd<'f>,
}

impl<'f> Model for ReceivingEnds<'f> {
    ghost use Rattle.shard_rings.specs.Links.{Incoming};
    ghost use Rattle.shard_rings.specs.inside.Rings.{incoming};

    ghost Value = { Incoming };

    ghost view = { λ r. incoming r.requests r.replies };
}

/// A ring for each lane, of its size.
pub(crate) fn lanes<'f>(alloc: Global) -> Result<(SendingEnds<'f>, ReceivingEnds<'f>), AllocError>
    ensures pair { IfOk result (λ r. r.0.rings ≡ r.1.rings) }
    ensures sending { IfOk result (λ r. r.0 ≡ none_sent r.0.rings) }
    ensures receiving { IfOk result (λ r. r.1 ≡ none_received r.1.rings) }
{
    let (requests, to_requests) = ring(alloc, REQUEST_SLOTS)?;
    let (replies, to_replies) = ring(alloc, REPLY_SLOTS)?;
    Ok((
        SendingEnds { requests, replies },
        ReceivingEnds {
            requests: to_requests,
            replies: to_replies,
        },
    ))
}

impl<'f> SendingEnds<'f> {
    /// Sends a packet, or hands it back.
    pub(crate) fn push(&mut self, lane: Lane, packet: Packet<'f>) -> Result<(), Packet<'f>>
        ensures { Sends lane packet.entry result self.old self.new }
    {
        match lane {
            Lane::Requests => self.requests.push(packet),
            Lane::Replies => self.replies.push(packet),
        }
    }

    /// How many sends on the lane were refused.
    pub(crate) fn full(&self, lane: Lane) -> u64
        ensures { result ≡ on lane self.now.full }
    {
        match lane {
            Lane::Requests => self.requests.full(),
            Lane::Replies => self.replies.full(),
        }
    }

    /// How many packets were sent on the lane.
    pub(crate) fn count(&self, lane: Lane) -> u64
        ensures { result ≡ min (length (on lane self.now.sent)) greatest_count }
    {
        match lane {
            Lane::Requests => self.requests.count(),
            Lane::Replies => self.replies.count(),
        }
    }
}

impl<'f> ReceivingEnds<'f> {
    /// The next packet of the lane, where this end finds one.
    pub(crate) fn pop(&mut self, lane: Lane) -> Option<Packet<'f>>
        ensures { Receives lane result self.old self.new }
    {
        match lane {
            Lane::Requests => self.requests.pop(),
            Lane::Replies => self.replies.pop(),
        }
    }

    /// The next packet of the lane: with the other ends beside these, none exactly where none is there.
    pub(crate) fn pop_beside(
        &mut self,
        lane: Lane,
        sending: &mut SendingEnds<'f>,
    ) -> Option<Packet<'f>>
        requires { sending.old.rings ≡ self.old.rings }
        ensures receives { Receives lane result self.old self.new }
        ensures sending { sending.new ≡ sending.old }
        ensures holds_none { IsNone result ↔ (on lane self.old.received ≡ on lane sending.old.sent) }
        ensures prefix { IsPrefix (on lane self.new.received) (on lane sending.old.sent) }
    {
        match lane {
            Lane::Requests => self.requests.pop_beside(&mut sending.requests),
            Lane::Replies => self.replies.pop_beside(&mut sending.replies),
        }
    }

    /// With the other ends beside these: what was received on a lane is the first part of what was sent.
    pub(crate) fn look_beside(&mut self, sending: &mut SendingEnds<'f>)
        requires { sending.old.rings ≡ self.old.rings }
        ensures same { (self.new ≡ self.old) × (sending.new ≡ sending.old) }
        ensures prefixes { ArePrefixes self.old.received sending.old.sent }
    {
        self.requests.look_beside(&mut sending.requests);
        self.replies.look_beside(&mut sending.replies);
    }

    /// How often nothing was there to receive on the lane.
    pub(crate) fn empty(&self, lane: Lane) -> u64
        ensures { result ≡ on lane self.now.empty }
    {
        match lane {
            Lane::Requests => self.requests.empty(),
            Lane::Replies => self.replies.empty(),
        }
    }

    /// How many packets were received on the lane.
    pub(crate) fn count(&self, lane: Lane) -> u64
        ensures { result ≡ min (length (on lane self.now.received)) greatest_count }
    {
        match lane {
            Lane::Requests => self.requests.count(),
            Lane::Replies => self.replies.count(),
        }
    }
}
