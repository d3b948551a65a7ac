//! The commands of a trace.
ghost use Rattle.std.specs.Prelude.{◌≡◌, ◌≤◌, [], ◌∷◌, ◌++◌, length, count_by, fold, max, OnOk};
ghost use Rattle.rows.specs.Operation.{is_get, is_scan};

use crate::command::Command;
use std::alloc::{AllocFailed, Global};
use std::marker::Model;

/// Commands in order, counted as they are added.
#[derive(Drop)]
pub(crate) struct CommandList {
    commands: Vec<Command>,
    gets: usize,
    scans: usize,
    longest: u32,
}

impl Model for CommandList {
    ghost use Rattle.std.specs.Prelude.{List};
    ghost use Rattle.trace_text.specs.declared.command.Command.{Command};
    ghost use Rattle.trace_text.specs.inside.Counted.{AreCounted};

    ghost Value = { List Command };

    ghost view = { λ l. l.commands.items };

    ghost invariant = { λ l. AreCounted l.commands.items l.gets l.scans l.longest };
}

impl CommandList {
    pub(crate) fn new(alloc: Global) -> CommandList
        ensures { result ≡ [] }
    {
        CommandList {
            commands: Vec::new(alloc),
            gets: 0,
            scans: 0,
            longest: 0,
        }
    }

    pub(crate) fn push(&mut self, command: Command) -> Result<(), AllocFailed<Command>>
        ensures { OnOk result (self.new ≡ self.old ++ command ∷ []) }
    {
        self.commands.push(command)?;
        self.gets += usize::from(command.kind.is_get());
        self.scans += usize::from(command.kind.is_scan());
        self.longest = self.longest.max(command.value.len);
        Ok(())
    }

    pub(crate) fn as_slice(&self) -> &[Command]
        ensures { result.now ≡ self.now }
    {
        self.commands.as_slice()
    }

    pub(crate) fn len(&self) -> usize
        ensures { result ≡ length self.now }
    {
        self.commands.len()
    }

    pub(crate) fn gets(&self) -> usize
        ensures value { result ≡ count_by (λ command. is_get command.kind) self.now }
        ensures most { result ≤ length self.now }
    {
        self.gets
    }

    pub(crate) fn scans(&self) -> usize
        ensures value { result ≡ count_by (λ command. is_scan command.kind) self.now }
        ensures most { result ≤ length self.now }
    {
        self.scans
    }

    /// The greatest length of a value.
    pub(crate) fn longest_value(&self) -> u32
        ensures { result ≡ fold (λ most command. max most command.value.len) 0 self.now }
    {
        self.longest
    }
}
