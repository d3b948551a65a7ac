//! A script that was read.
ghost use Rattle.std.specs.Prelude.{◌≡◌, ◌+◌, ◌≤◌, length, All, Ok};
ghost use Rattle.trace_text.specs.Operation.{part};
ghost use Rattle.trace_text.specs.Reading.{most_commands};
ghost use Rattle.value_script.specs.Commands.{IsWellFormed};
ghost use Rattle.value_script.specs.Reading.{script_of};
ghost use Rattle.value_script.specs.Script.{script_in, IsSound};

use crate::command::Command;
use std::marker::Model;
use trace_text::Span;

/// The commands of a script, with its bytes.
#[derive(Drop)]
pub struct Script {
    pub(crate) bytes: Vec<u8>,
    pub(crate) commands: Vec<Command>,
}

impl Model for Script {
    ghost use Rattle.value_script.specs.Script.{Parsed, IsConsistent};

    ghost Value = { Parsed };

    ghost view = { λ s. record { bytes = s.bytes.items; commands = s.commands.items } };

    ghost invariant = { λ s. IsConsistent (record { bytes = s.bytes.items; commands = s.commands.items }) };
}

impl Script {
    /// The commands, in order.
    pub fn commands(&self) -> &[Command]
        // The commands, as they are read off the bytes.
        ensures value { result.now ≡ self.now.commands }
        ensures read { script_of self.now.bytes ≡ Ok (script_in self.now) }

        // What the reading checked.
        ensures sound { All (IsSound self.now.bytes) result.now }
        ensures well_formed { All IsWellFormed (script_in self.now) }
        ensures few { length result.now ≤ most_commands }
    {
        self.commands.as_slice()
    }

    /// The bytes of a value.
    pub fn value(&self, value: Span) -> &[u8]
        requires { value.start + value.len ≤ length self.now.bytes }
        ensures { result.now ≡ part self.now.bytes value }
    {
        let start = value.start as usize;
        &self.bytes[start..start + value.len as usize]
    }
}
