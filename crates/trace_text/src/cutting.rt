//! Lines of a trace on their way to commands, where one thread cuts them and others read them.
ghost use Rattle.std.specs.Prelude.{◌≡◌};
ghost use Rattle.trace_text.specs.declared.cutting.Unread.TheVariants.{Memory};
ghost use Rattle.trace_text.specs.inside.Lines.{command_in};

use crate::command::{Command, Span};
use std::alloc::{AllocError, AllocFailed};
use thiserror::Error;

/// Where a line stands in a trace.
#[derive(Clone, Copy, Debug)]
pub struct Place {
    /// The number of the command that it may be.
    pub number: u32,
    /// All lines are counted, from 1.
    pub line: u32,
    pub text: Span,
    /// Whether its bytes are known to be those of a value.
    pub sound: bool,
}

/// A line: cut, and then read or refused.
#[derive(Clone, Copy, Debug)]
pub enum Line {
    /// It stands there, and is not read.
    Cut(Place),
    /// It is this command.
    Read(Command),
    /// It is no command.
    Refused,
}

impl Line {
    /// The command that it is read to be.
    pub fn command(&self) -> Option<Command>
        ensures { result ≡ command_in self.now }
    {
        match *self {
            Line::Read(command) => Some(command),
            Line::Cut(_) | Line::Refused => None,
        }
    }
}

/// Why lines are not all read.
#[derive(Debug, Drop, Error)]
pub enum Unread {
    /// A line is no command, or a command too many.
    #[error("a line is refused")]
    Refused,
    /// Memory ran out.
    #[error("no memory is left")]
    Memory,
}

impl From<AllocError> for Unread {
    ghost from_gives = { λ _ e. e ≡ Memory };

    fn from(_e: AllocError) -> Unread {
        Unread::Memory
    }
}

impl<T: Drop> From<AllocFailed<T>> for Unread {
    ghost from_gives = { λ _ e. e ≡ Memory };

    fn from(_e: AllocFailed<T>) -> Unread {
        Unread::Memory
    }
}
