//! What a turn comes to, step by step.
ghost use Rattle.std.specs.Prelude.{◌≡◌, ◌||◌, false, None};
ghost use Rattle.shard_node.specs.inside.Seen.{answer_of, first_stray, has_come};

use crate::turn::Turn;
use shard_parts::{StrayPacket, Tried};

/// Whether something moved in a turn so far, and the first packet that was not expected.
#[derive(Clone, Copy, Debug, PartialEq, Eq)]
pub struct Seen {
    pub(crate) moved: bool,
    pub(crate) stray: Option<StrayPacket>,
}

impl Seen {
    pub(crate) fn nothing() -> Seen
        ensures moved { result.moved ≡ false }
        ensures stray { result.stray ≡ None }
    {
        Seen {
            moved: false,
            stray: None,
        }
    }

    /// Something moved, or nothing did.
    pub(crate) fn note(&mut self, moved: bool)
        ensures moved { self.new.moved ≡ (self.old.moved || moved) }
        ensures stray { self.new.stray ≡ self.old.stray }
    {
        self.moved = self.moved || moved;
    }

    /// A lane was tried.
    pub(crate) fn note_try(&mut self, tried: Tried)
        ensures moved { self.new.moved ≡ (self.old.moved || has_come tried) }
        ensures stray { self.new.stray ≡ first_stray self.old.stray tried }
    {
        match tried {
            Tried::Nothing => {}
            Tried::Expected => self.moved = true,
            Tried::Other(stray) => {
                self.moved = true;
                self.stray = self.stray.or(Some(stray));
            }
        }
    }

    /// The answer of a turn after which the node is not done.
    pub(crate) fn turn(self) -> Turn
        ensures { result ≡ answer_of self.stray self.moved }
    {
        match self.stray {
            Some(stray) => Turn::Stray {
                peer: stray.peer,
                expected: stray.expected,
                found: stray.found,
            },
            None if self.moved => Turn::Moved,
            None => Turn::Idle,
        }
    }
}
