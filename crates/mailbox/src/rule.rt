//! What every step of a queue keeps.
use crossbeam_queue::protocol::{Lesson, Outcome, Protocol, Split};
use std::collections::LinkedList;

/// What was pushed to a queue and popped from it with one mailbox. No value of it is made.
pub struct Hand {
    pub pushed: LinkedList<u64>,
    pub popped: LinkedList<u64>,
}

/// Each message that was pushed was popped or is left, as often as it was pushed.
pub struct Conserved;

impl Protocol<u64, Hand> for Conserved {
    ghost use Rattle.std.specs.Prelude.{[]};
    ghost use Rattle.mailbox.specs.Hands.{hand, IsConserved};

    ghost holds = { IsConserved };

    ghost first = { hand [] [] };
}

/// A mailbox more, with which nothing was done.
pub(crate) struct Shares;

impl Split<Hand> for Shares {
    ghost use Rattle.std.specs.Prelude.{[]};
    ghost use Rattle.mailbox.specs.Hands.{hand};

    ghost left = { λ v. v };

    ghost right = { λ v. hand [] [] };
}

pub(crate) struct Pushes;

impl Outcome<u64, Hand> for Pushes {
    ghost use Rattle.std.specs.Prelude.{◌≡◌, [], ◌∷◌, ◌++◌};
    ghost use Rattle.mailbox.specs.Hands.{hand};

    ghost then = { λ v x w. w ≡ hand (v.pushed ++ x ∷ []) v.popped };
}

pub(crate) struct Pops;

impl Outcome<u64, Hand> for Pops {
    ghost use Rattle.std.specs.Prelude.{◌≡◌, [], ◌∷◌, ◌++◌};
    ghost use Rattle.mailbox.specs.Hands.{hand};

    ghost then = { λ v x w. w ≡ hand v.pushed (v.popped ++ x ∷ []) };
}

/// What a look tells: nothing that could be said of a queue which others use too.
pub(crate) struct Looks;

impl Lesson<u64, Hand> for Looks {
    ghost use Rattle.std.specs.Prelude.{⊤};

    ghost fact = { λ v items. ⊤ };
}
