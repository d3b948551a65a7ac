//! The two ends of one ring, each with its counts.
ghost use Rattle.std.specs.Prelude.{◌≡◌, ◌≤◌, ◌↔◌, [], ◌∷◌, ◌++◌, length, min, OnOk, IfErr, OnErr, IfSome, IfNone, IsNone, IfOk};
ghost use mathlib.Core.List.{IsPrefix};
ghost use Rattle.layout.specs.Counts.{Rose, counted, greatest_count};

use crate::link::Packet;
use rtrb::{Consumer, Producer, RingBuffer};
use std::alloc::{AllocError, Global};
use std::marker::Model;

/// The end of a ring that sends.
#[derive(Drop)]
pub struct SendingEnd<'f> {
    ring: Producer<Packet<'f>>,
    // How many packets were sent.
    count: u64,
    // How many sends were refused.
    full: u64,
}

impl<'f> Model for SendingEnd<'f> {
    ghost use Rattle.rtrb.specs.Ring.{sent};
    ghost use Rattle.shard_rings.specs.inside.Rings.{Sending, Counts, sent_on};

    ghost Value = { Sending };

    ghost view = { λ s. record { ring = sent_on s.ring; sent = sent s.ring; full = s.full } };

    ghost invariant = { λ s. Counts s.count (sent s.ring) };
}

/// The end of a ring that receives.
#[derive(Drop)]
pub struct ReceivingEnd<'f> {
    ring: Consumer<Packet<'f>>,
    // How many packets were received.
    count: u64,
    // How often nothing was there.
    empty: u64,
}

impl<'f> Model for ReceivingEnd<'f> {
    ghost use Rattle.rtrb.specs.Ring.{received};
    ghost use Rattle.shard_rings.specs.inside.Rings.{Receiving, Counts, received_on};

    ghost Value = { Receiving };

    ghost view = { λ r. record { ring = received_on r.ring; received = received r.ring; empty = r.empty } };

    ghost invariant = { λ r. Counts r.count (received r.ring) };
}

/// A ring of so many packets.
pub(crate) fn ring<'f>(
    alloc: Global,
    packets: usize,
) -> Result<(SendingEnd<'f>, ReceivingEnd<'f>), AllocError>
    ensures pair { IfOk result (λ r. r.0.ring ≡ r.1.ring) }
    ensures sending { IfOk result (λ r. r.0 ≡ record { ring = r.0.ring; sent = []; full = 0 }) }
    ensures receiving { IfOk result (λ r. r.1 ≡ record { ring = r.1.ring; received = []; empty = 0 }) }
{
    let (producer, consumer) = RingBuffer::new(alloc, packets)?;
    Ok((
        SendingEnd {
            ring: producer,
            count: 0,
            full: 0,
        },
        ReceivingEnd {
            ring: consumer,
            count: 0,
            empty: 0,
        },
    ))
}

impl<'f> SendingEnd<'f> {
    /// Sends a packet, or hands it back.
    pub(crate) fn push(&mut self, packet: Packet<'f>) -> Result<(), Packet<'f>>
        ensures sent { OnOk result (self.new ≡ record self.old { sent = self.old.sent ++ packet.entry ∷ [] }) }
        ensures back { IfErr result (λ back. back ≡ packet.entry) }
        ensures refused { OnErr result (self.new ≡ record self.old { full = counted self.old.full }) }
        ensures full { OnErr result (Rose self.old.full self.new.full) }
        ensures never_falls { self.old.full ≤ self.new.full }
    {
        if self.ring.is_full() {
            self.full = self.full.saturating_add(1);
            return Err(packet);
        }
        self.ring.push_reserved(packet);
        self.count = self.count.saturating_add(1);
        Ok(())
    }

    /// How many sends were refused.
    pub(crate) fn full(&self) -> u64
        ensures { result ≡ self.now.full }
    {
        self.full
    }

    /// How many packets were sent.
    pub(crate) fn count(&self) -> u64
        ensures { result ≡ min (length self.now.sent) greatest_count }
    {
        self.count
    }
}

impl<'f> ReceivingEnd<'f> {
    /// The next packet, where this end finds one.
    pub(crate) fn pop(&mut self) -> Option<Packet<'f>>
        ensures some { IfSome result (λ packet. self.new ≡ record self.old { received = self.old.received ++ packet ∷ [] }) }
        ensures none { IfNone result (self.new ≡ record self.old { empty = counted self.old.empty }) }
        ensures rose { IfNone result (Rose self.old.empty self.new.empty) }
        ensures never_falls { self.old.empty ≤ self.new.empty }
    {
        if self.ring.is_empty() {
            self.empty = self.empty.saturating_add(1);
            return None;
        }
        let packet = self.ring.pop_known();
        self.count = self.count.saturating_add(1);
        Some(packet)
    }

    /// The next packet: with the other end of the ring beside it, none exactly where none is there.
    pub(crate) fn pop_beside(&mut self, sending: &mut SendingEnd<'f>) -> Option<Packet<'f>>
        requires { sending.old.ring ≡ self.old.ring }

        // A packet came, or the call is counted.
        ensures some { IfSome result (λ packet. self.new ≡ record self.old { received = self.old.received ++ packet ∷ [] }) }
        ensures none { IfNone result (self.new ≡ record self.old { empty = counted self.old.empty }) }
        ensures rose { IfNone result (Rose self.old.empty self.new.empty) }
        ensures never_falls { self.old.empty ≤ self.new.empty }

        // What came was sent at the other end.
        ensures sending { sending.new ≡ sending.old }
        ensures holds_none { IsNone result ↔ (self.old.received ≡ sending.old.sent) }
        ensures prefix { IsPrefix self.new.received sending.old.sent }
    {
        if self.ring.slots_beside(&mut sending.ring) == 0 {
            self.empty = self.empty.saturating_add(1);
            return None;
        }
        self.count = self.count.saturating_add(1);
        Some(self.ring.pop_known())
    }

    /// With the other end of the ring beside it: what was received is the first part of what was sent.
    pub(crate) fn look_beside(&mut self, sending: &mut SendingEnd<'f>)
        requires { sending.old.ring ≡ self.old.ring }
        ensures same { (self.new ≡ self.old) × (sending.new ≡ sending.old) }
        ensures prefix { IsPrefix self.old.received sending.old.sent }
    {
        self.ring.slots_beside(&mut sending.ring);
    }

    /// How often nothing was there.
    pub(crate) fn empty(&self) -> u64
        ensures { result ≡ self.now.empty }
    {
        self.empty
    }

    /// How many packets were received.
    pub(crate) fn count(&self) -> u64
        ensures { result ≡ min (length self.now.received) greatest_count }
    {
        self.count
    }
}
