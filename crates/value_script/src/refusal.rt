//! Why a script is refused.
ghost use Rattle.std.specs.Prelude.{◌≡◌};
ghost use Rattle.value_script.specs.Causes.{cause_name};
ghost use Rattle.value_script.specs.declared.refusal.ScriptRefusal.TheVariants.{Memory};

use std::alloc::{AllocError, AllocFailed};
use thiserror::Error;

/// Why a script is refused, at the first line that is no command.
#[derive(Clone, Copy, Debug, PartialEq, Eq, Drop, Error)]
#[error("{}", self.name())]
pub enum Cause {
    /// 1,048,576 commands stand before this one.
    TooManyCommands,
    /// The word is none of `set`, `read` and `drop`.
    UnknownWord,
    /// No space follows where a field has to follow.
    MissingField,
    /// A field is no number, begins with a zero, or is too great.
    Number,
    /// A space follows the last field.
    ExtraField,
    /// The value has more than 1,048,576 bytes.
    ValueLength,
    /// The value has a byte below 32, or 127.
    ValueByte,
}

impl Cause {
    /// The name of a cause, as it is printed.
    pub fn name(self) -> &'static str
        ensures { result.now ≡ cause_name self }
    {
        match self {
            Cause::TooManyCommands => "TooManyCommands",
            Cause::UnknownWord => "UnknownWord",
            Cause::MissingField => "MissingField",
            Cause::Number => "Number",
            Cause::ExtraField => "ExtraField",
            Cause::ValueLength => "ValueLength",
            Cause::ValueByte => "ValueByte",
        }
    }
}

/// Why a script is not parsed.
#[derive(Debug, Drop, Error)]
pub enum ScriptRefusal {
    /// The first line with a cause, counted from 1, and its cause.
    #[error("refused line {line} {cause}")]
    Script { line: u32, cause: Cause },
    /// Memory ran out.
    #[error("no memory is left")]
    Memory,
}

impl From<AllocError> for ScriptRefusal {
    ghost from_gives = { λ _ e. e ≡ Memory };

    fn from(_e: AllocError) -> ScriptRefusal {
        ScriptRefusal::Memory
    }
}

impl<T: Drop> From<AllocFailed<T>> for ScriptRefusal {
    ghost from_gives = { λ _ e. e ≡ Memory };

    fn from(_e: AllocFailed<T>) -> ScriptRefusal {
        ScriptRefusal::Memory
    }
}
