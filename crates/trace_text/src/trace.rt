//! A trace that was read.
ghost use Rattle.std.specs.Prelude.{◌≡◌, ◌⊎◌, ◌<◌, ◌≤◌, length, map, slice_index_or, All, Ok, Contains};
ghost use Rattle.layout.specs.Sizes.{greatest_key, greatest_value, tables};
ghost use Rattle.rows.specs.Operation.{Operation, is_scan};
ghost use Rattle.trace_text.specs.declared.command.Command.{Command};
ghost use Rattle.trace_text.specs.Operation.{part};
ghost use Rattle.trace_text.specs.Parsed.{trace_in, AreNumbered, IsConsistent, IsWellFormed, LiesWithin};
ghost use Rattle.trace_text.specs.Parts.{has_part, most_shards, owner, replies_room};
ghost use Rattle.trace_text.specs.Reading.{line_numbers, most_commands, most_replies, trace_of};
ghost use Rattle.trace_text.specs.Trace.{regions};
ghost use Rattle.trace_text.specs.inside.Routes.{route};

use crate::command::Command;
use crate::command_list::CommandList;
use crate::route::Route;
use crate::shard_counts::ShardCounts;
use crate::trace_bytes::TraceBytes;
use crate::version::{regions_in, version_of};
use std::marker::Model;

/// The commands of a trace, with its bytes. Contracts see the bytes, the commands, and the number of
/// shards that the trace was parsed for.
#[derive(Drop)]
pub struct Trace {
    pub(crate) bytes: TraceBytes,
    pub(crate) commands: CommandList,
    pub(crate) shards: u32,
    // One for each command.
    pub(crate) routes: Vec<Route>,
    // The commands by the shard that owns the key.
    pub(crate) owned: ShardCounts,
    // The commands by the shard that issues them.
    pub(crate) issued: ShardCounts,
}

impl Model for Trace {
    ghost use Rattle.trace_text.specs.Parsed.{Parsed};
    ghost use Rattle.trace_text.specs.inside.Routes.{IsRouted};

    ghost Value = { Parsed };

    ghost view = { λ t. record { bytes = t.bytes; commands = t.commands; shards = t.shards } };

    ghost invariant = { λ t. IsRouted (record { bytes = t.bytes; commands = t.commands; shards = t.shards })
        t.routes.items t.owned.counts t.issued.counts };
}

impl Trace {
    /// The number of shards that it was parsed for, 1 to 16.
    pub fn shards(&self) -> u32
        ensures value { result ≡ self.now.shards }
        ensures some { 1 ≤ result }
        ensures few { result ≤ most_shards }

        // What holds of each trace.
        ensures consistent { IsConsistent self.now }
        ensures well_formed { All IsWellFormed (trace_in self.now).operations }
        ensures few_commands { length self.now.commands ≤ most_commands }
    {
        self.shards
    }

    /// The bytes, of which whoever refers to some of them may have a share.
    pub fn bytes(&self) -> &TraceBytes
        ensures { result.now ≡ self.now.bytes }
    {
        &self.bytes
    }

    /// The version of the trace: 2 where its first line is `version 2`, so that each command names a table; else 1.
    pub fn version(&self) -> u32
        ensures value { result ≡ (trace_in self.now).version }
        ensures one_or_two { (result ≡ 1) ⊎ (result ≡ 2) }
    {
        version_of(self.bytes.as_slice())
    }

    /// The regions of each shard that runs the trace: one for each table, which are 8, in version 2; else 1.
    pub fn regions(&self) -> u32
        ensures value { result ≡ regions (trace_in self.now) }
        ensures one_or_tables { (result ≡ 1) ⊎ (result ≡ tables) }
    {
        regions_in(self.version())
    }

    /// The commands, in order.
    pub fn commands(&self) -> &[Command]
        // The commands, as they are read off the bytes.
        ensures value { result.now ≡ self.now.commands }
        ensures read { trace_of self.now.bytes self.now.shards ≡ Ok (trace_in self.now) }

        // What the reading checked.
        ensures numbered { AreNumbered result.now }
        ensures lines { map (λ command. command.line) result.now ≡ line_numbers self.now.bytes }
        ensures well_formed { All IsWellFormed (trace_in self.now).operations }
        ensures lie { All (LiesWithin self.now.bytes) result.now }
        ensures consistent { IsConsistent self.now }
        ensures few { length result.now ≤ most_commands }

        // The limits of a trace.
        ensures room { replies_room (trace_in self.now) self.now.shards ≤ most_replies }
        ensures some_shards { 1 ≤ self.now.shards }
        ensures most_shards { self.now.shards ≤ most_shards }
    {
        self.commands.as_slice()
    }

    /// The bytes of a command's key, 1 to 256 of them. The command, which says the key's table, is of this trace.
    pub fn key(&self, command: &Command) -> &[u8]
        requires { Contains self.now.commands command.now }
        ensures value { result.now ≡ part self.now.bytes command.now.key }
        ensures some { 1 ≤ length result.now }
        ensures most { length result.now ≤ greatest_key }
        ensures lies { LiesWithin self.now.bytes command.now }
    {
        self.bytes.part(command.key)
    }

    /// The bytes of a command's value: of a put at most 12,000; else none. The command is of this trace.
    pub fn value(&self, command: &Command) -> &[u8]
        requires { Contains self.now.commands command.now }
        ensures value { result.now ≡ part self.now.bytes command.now.value }
        ensures most { length result.now ≤ greatest_value }
    {
        self.bytes.part(command.value)
    }

    /// Where the value of the command of this number begins in the bytes. The number is one of a command; of another one nothing
    /// is said.
    pub fn value_start(&self, number: u32) -> u32
        ensures { (command : Command) → Contains self.now.commands command → command.number ≡ number
            → result ≡ command.value.start }
    {
        // Commands are numbered from 1, in order.
        let at = number.saturating_sub(1) as usize;
        value_start_at(self.commands.as_slice(), at)
    }

    /// Where the command at this place goes.
    fn route(&self, at: usize) -> Route
        requires { at < length self.now.commands }
        ensures value { (d : Operation) → result ≡ route self.now.shards (slice_index_or (trace_in self.now).operations at d) }
        ensures below { result.owner < self.now.shards }
    {
        self.routes[at]
    }

    /// The owner of the key of the command at this place, counted from 0. No key is looked at.
    pub fn owner(&self, at: usize) -> u32
        requires { at < length self.now.commands }
        ensures value { (d : Operation)
            → result ≡ owner (slice_index_or (trace_in self.now).operations at d).key.bytes self.now.shards }
        ensures below { result < self.now.shards }
    {
        u32::from(self.route(at).owner)
    }

    /// Whether the command at this place is a scan, of which each shard does a part.
    pub fn is_scan(&self, at: usize) -> bool
        requires { at < length self.now.commands }
        ensures { (d : Operation) → result ≡ is_scan (slice_index_or (trace_in self.now).operations at d).kind }
    {
        self.route(at).kind.is_scan()
    }

    /// Whether the shard does a part of the command at this place. No key is looked at.
    pub fn has_part(&self, at: usize, shard: u32) -> bool
        requires { at < length self.now.commands }
        ensures { (d : Operation) → result ≡ has_part self.now.shards shard (slice_index_or (trace_in self.now).operations at d) }
    {
        self.route(at).has_part(shard)
    }
}

/// Where the value of the command at this place begins; 0 behind the last command.
fn value_start_at(commands: &[Command], at: usize) -> u32
    ensures { (d : Command) → at < length commands.now → result ≡ (slice_index_or commands.now at d).value.start }
{
    if at < commands.len() {
        commands[at].value.start
    } else {
        0
    }
}
