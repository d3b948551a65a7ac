//! Why a trace is refused.
ghost use Rattle.std.specs.Prelude.{◌≡◌};
ghost use Rattle.trace_text.specs.Causes.{cause_name};
ghost use Rattle.trace_text.specs.declared.refusal.ParseRefusal.TheVariants.{Memory};

use std::alloc::{AllocError, AllocFailed};
use thiserror::Error;

/// Why a trace is refused, at the first line that is no command. The causes and their order are this project's own.
#[derive(Clone, Copy, Debug, PartialEq, Eq, Drop, Error)]
#[error("{}", self.name())]
pub enum Cause {
    /// The word is none of `put`, `get`, `erase` and `scan`.
    UnknownWord,
    /// No space follows where a field has to follow.
    MissingField,
    /// The key has no byte, or more than 256.
    KeyLength,
    /// The key has a byte below 33, or 127.
    KeyByte,
    /// The value has more than 12,000 bytes.
    ValueLength,
    /// The value has a byte below 32, or 127.
    ValueByte,
    /// The count of a scan is no spelling of 1 to 32.
    Count,
    /// A space follows the last field.
    ExtraField,
    /// 1,048,576 commands stand before this one.
    TooManyCommands,
    /// In version 2 the field behind the word is not one digit 0 to 7.
    Table,
    /// The replies may have more than 536,870,912 bytes: the longest value for each get, and 8,272 bytes for
    /// each shard's part of a scan. It has line 0.
    RepliesTooLarge,
}

impl Cause {
    /// The name of a cause, as it is printed.
    pub fn name(self) -> &'static str
        ensures { result.now ≡ cause_name self }
    {
        match self {
            Cause::UnknownWord => "UnknownWord",
            Cause::MissingField => "MissingField",
            Cause::KeyLength => "KeyLength",
            Cause::KeyByte => "KeyByte",
            Cause::ValueLength => "ValueLength",
            Cause::ValueByte => "ValueByte",
            Cause::Count => "Count",
            Cause::ExtraField => "ExtraField",
            Cause::TooManyCommands => "TooManyCommands",
            Cause::Table => "Table",
            Cause::RepliesTooLarge => "RepliesTooLarge",
        }
    }
}

/// Why a trace is not parsed.
#[derive(Debug, Drop, Error)]
pub enum ParseRefusal {
    /// The first line with a cause, counted from 1, and its cause.
    #[error("refused line {line} {cause}")]
    Trace { line: u32, cause: Cause },
    /// Memory ran out.
    #[error("no memory is left")]
    Memory,
}

impl From<AllocError> for ParseRefusal {
    ghost from_gives = { λ _ e. e ≡ Memory };

    fn from(_e: AllocError) -> ParseRefusal {
        ParseRefusal::Memory
    }
}

impl<T: Drop> From<AllocFailed<T>> for ParseRefusal {
    ghost from_gives = { λ _ e. e ≡ Memory };

    fn from(_e: AllocFailed<T>) -> ParseRefusal {
        ParseRefusal::Memory
    }
}
