//! Who is told of the rows that go.
ghost use Rattle.std.specs.Prelude.{ℕ, ◌+◌, ◌≤◌};

/// Whoever is told of the rows that go, each by the tag that it carries, the one used longest ago first.
pub trait Evictions {
    // At least so many more may be told.
    ghost room: { Self → ℕ };

    // What it does to be told of one: what it was, the tag, and what it is.
    ghost tells: { Self → ℕ → Self → Type 0 };

    /// A row with this tag went.
    fn evicted(&mut self, tag: u32)
        requires { 1 ≤ room self.old }
        ensures { tells self.old tag self.new };

    // Each takes the room of one at most.
    ghost takes_one: { (old new : Self) (tag : ℕ) → tells old tag new → room old ≤ room new + 1 };
}
