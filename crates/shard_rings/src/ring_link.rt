//! A link over rings between two threads.
ghost use Rattle.std.specs.Prelude.{◌≡◌, ℕ, ◌+◌, ◌<◌, length, min, OnOk, IfErr, OnErr, IfSome, IfNone, IfOk};
ghost use Rattle.layout.specs.Counts.{greatest_count};
ghost use Rattle.shard_rings.specs.Lanes.{adds, on, counts, ArePair, ArePrefixes};
ghost use Rattle.shard_rings.specs.Links.{IsUnused, end_of};

use crate::lane_ends::{ReceivingEnds, SendingEnds, lanes};
use crate::link::{Lane, Link, Packet};
use std::alloc::{AllocError, Global};
use std::marker::Model;

/// A node's end toward a peer that may run on another thread.
///
/// Each lane is a ring, which one thread sends on and one receives on.
#[derive(Drop)]
pub struct RingLink<'f> {
    out: SendingEnds<'f>,
    into: ReceivingEnds<'f>,
}

impl<'f> Model for RingLink<'f> {
    ghost use Rattle.shard_rings.specs.Links.{LinkState};

    ghost Value = { LinkState };

    ghost view = { λ l. record { out = l.out; into = l.into } };
}

impl<'f> RingLink<'f> {
    /// How many packets were sent on the lane, up to the greatest u64.
    pub fn sent_count(&self, lane: Lane) -> u64
        ensures { result ≡ min (length (on lane self.now.out.sent)) greatest_count }
    {
        self.out.count(lane)
    }

    /// How many packets were received on the lane, up to the greatest u64.
    pub fn received_count(&self, lane: Lane) -> u64
        ensures { result ≡ min (length (on lane self.now.into.received)) greatest_count }
    {
        self.into.count(lane)
    }
}

impl<'f> Link<'f> for RingLink<'f> {
    ghost use Rattle.shard_rings.specs.Links.{end_of, traffic_of};

    ghost end = { λ l. end_of l };

    ghost traffic = { λ l. traffic_of l };

    fn send(&mut self, lane: Lane, packet: Packet<'f>) -> Result<(), Packet<'f>> {
        self.out.push(lane, packet)
    }

    fn receive(&mut self, lane: Lane) -> Option<Packet<'f>> {
        self.into.pop(lane)
    }
}

/// The two ends of a pair, on which nothing was sent.
///
/// # Errors
/// There is no memory.
pub(crate) fn link_pair<'f>(alloc: Global) -> Result<(RingLink<'f>, RingLink<'f>), AllocError>
    ensures pair { IfOk result (λ r. ArePair (end_of r.0) (end_of r.1)) }
    ensures unused { IfOk result (λ r. IsUnused r.0 × IsUnused r.1) }
{
    let (out, there) = lanes(alloc)?;
    let (back, into) = lanes(alloc)?;
    Ok((
        RingLink { out, into },
        RingLink {
            out: back,
            into: there,
        },
    ))
}

/// Ends a pair. What one end received on a lane is a prefix of what the other sent on it: so it is the same list where as many
/// packets were received as were sent.
pub fn close_pair<'f>(a: RingLink<'f>, b: RingLink<'f>)
    requires { ArePair (end_of a) (end_of b) }
    ensures b_received { ArePrefixes b.entry.into.received a.entry.out.sent }
    ensures a_received { ArePrefixes a.entry.into.received b.entry.out.sent }
{
    let RingLink { mut out, mut into } = a;
    let RingLink {
        out: mut back,
        into: mut there,
    } = b;
    there.look_beside(&mut out);
    into.look_beside(&mut back);
}
