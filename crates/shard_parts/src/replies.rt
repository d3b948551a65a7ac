//! The replies that a peer sends.
ghost use Rattle.std.specs.Prelude.{◌≡◌, ◌↔◌, ◌<◌, ◌≤◌, None, Some, IsTrue};
ghost use Rattle.std.specs.List.{slice_get};
ghost use Rattle.rows.specs.Operation.{Operation};
ghost use Rattle.trace_text.specs.Parsed.{trace_in};
ghost use Rattle.trace_text.specs.Parts.{longest_value};
ghost use Rattle.rows.specs.Bodies.{most_of_body};
ghost use Rattle.shard_rings.specs.declared.link.Packet.TheVariants.{Block as InBlock};
ghost use Rattle.part_lemmas.specs.Due.{expected_number};
ghost use Rattle.shard_parts.specs.declared.stray_packet.Tried.{Tried as Tries};
ghost use Rattle.shard_parts.specs.Receives.{EndsReply, OwesReply, TriesReply, next_answer};

use crate::expected::expected_reply;
use crate::peer::Peer;
use crate::releasing::release;
use crate::stray_packet::{StrayPacket, Tried};
use foreign_list::{ForeignBlock, Tally};
use run_log::ReplyLog;
use shard_rings::{Lane, Link, Packet, message_number, operation_of};
use trace_text::Trace;

impl<'f, L: Link<'f> + Drop> Peer<'f, L> {
    /// Whether the peer owes a reply, and no block of its replies waits to be released.
    pub fn owes_reply(&self) -> bool
        ensures { IsTrue result ↔ OwesReply self.now }
    {
        self.owed > 0 && self.held_reply.is_none()
    }

    /// Receives a packet on the lane of replies. An expected reply goes into the log; another packet is set aside, and answered.
    pub fn take_reply(
        &mut self,
        trace: &Trace,
        longest: u32,
        log: &mut ReplyLog,
        tally: &mut Tally,
    ) -> Tried
        requires owes { OwesReply self.old }
        requires trace { self.old.answers.trace ≡ trace.now }
        requires longest { longest ≡ longest_value (trace_in trace.now) }
        requires open { (d : Operation) → next_answer self.old ≡ Some d
            → slice_get log.old.replies self.old.answers.part ≡ Some None }
        requires room { (d : Operation) → next_answer self.old ≡ Some d → most_of_body longest d ≤ log.old.room }
        ensures { TriesReply L.traffic L.end self.old self.new log.old log.new tally.old tally.new result }
    {
        match self.link.receive(Lane::Replies) {
            None => Tried::Nothing,
            Some(Packet::Bye) => self.unexpected_reply(0),
            Some(Packet::Block(block)) => {
                let tried = self.record(trace, longest, &block, log);
                self.held_reply = release(block, tally);
                tried
            }
        }
    }
}

impl<'f, L: Drop> Peer<'f, L> {
    /// Records the reply that the block begins with, where it is the expected one.
    fn record(
        &mut self,
        trace: &Trace,
        longest: u32,
        block: &ForeignBlock<'f>,
        log: &mut ReplyLog,
    ) -> Tried
        requires owes { 0 < self.old.owed }
        requires trace { self.old.answers.trace ≡ trace.now }
        requires longest { longest ≡ longest_value (trace_in trace.now) }
        requires open { (d : Operation) → next_answer self.old ≡ Some d
            → slice_get log.old.replies self.old.answers.part ≡ Some None }
        requires room { (d : Operation) → next_answer self.old ≡ Some d → most_of_body longest d ≤ log.old.room }
        ensures ends { EndsReply (InBlock block.now) self.old self.new log.old log.new result }
        ensures same { self.new ≡ record self.old { answers = self.new.answers; owed = self.new.owed } }
    {
        let bytes = block.bytes();
        let Some(command) = self.answers.first() else {
            return self.unexpected_reply(message_number(bytes));
        };
        let operation = operation_of(trace, command);
        let Some(reply) = expected_reply(bytes, command.number, &operation, longest) else {
            return self.unexpected_reply(message_number(bytes));
        };
        log.record(self.answers.part(), reply.kind(), reply.body());
        self.answers.pass();
        self.owed -= 1;
        Tried::Expected
    }

    /// A packet of this number in place of the reply that is expected.
    fn unexpected_reply(&self, found: u32) -> Tried
        ensures { result ≡ Tries.Other (record {
          peer = self.now.shard;
          expected = expected_number (next_answer self.now);
          found = found;
        }) }
    {
        Tried::Other(StrayPacket {
            peer: self.shard,
            expected: self.answers.number(),
            found,
        })
    }
}
