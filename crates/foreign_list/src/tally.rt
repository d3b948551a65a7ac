//! A count of blocks that were released.
ghost use Rattle.std.specs.Prelude.{◌≡◌, ◌+◌, ◌^◌, ◌-◌, min};

use crate::released::Released;
use std::marker::Model;

/// How many blocks came on their lists. It stands at the greatest u64.
///
/// # Examples
/// ```
/// let mut tally = Tally::new();
/// tally.add(released);
/// let count = tally.count(); // 1
/// ```
#[derive(Drop)]
pub struct Tally {
    count: u64,
}

impl Model for Tally {
    ghost use Rattle.std.specs.Prelude.{ℕ};

    ghost Value = { ℕ };

    ghost view = { λ t. t.count };
}

impl Tally {
    /// None yet.
    pub fn new() -> Tally
        ensures { result ≡ 0 }
    {
        Tally { count: 0 }
    }

    /// Counts one more, and takes its pass.
    pub fn add(&mut self, released: Released<'_>)
        ensures { self.new ≡ min (self.old + 1) (2 ^ 64 - 1) }
    {
        drop(released);
        self.count = self.count.saturating_add(1);
    }

    /// How many were added.
    pub fn count(&self) -> u64
        ensures { result ≡ self.now }
    {
        self.count
    }
}
