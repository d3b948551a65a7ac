//! What takes bytes.
ghost use Rattle.std.specs.Prelude.{◌≡◌, ℕ, ◌<◌, ◌≤◌, List, Option, length, take, IfOk, OnErr};
ghost use Rattle.std.specs.Io.KnownBytes.{Appends, Keeps};
ghost use Rattle.layout.specs.Counts.{Rose};

use crate::Failed;

/// A device that takes bytes.
pub trait Sink {
    // The bytes that were written, where the sink tells them.
    ghost written: { Self → Option (List ℕ) };

    // How many writes have failed.
    ghost faults: { Self → ℕ };

    /// Takes a front of `from`, and answers how many bytes. `Ok(0)` for a piece that is not empty
    /// is a fault too.
    fn write(&mut self, from: &[u8]) -> Result<usize, Failed>
        ensures fits { IfOk result (λ count. count ≤ length from.now) }
        ensures taken { IfOk result (λ count. Appends (written self.old) (written self.new) (take count from.now)) }
        ensures none_taken { OnErr result (Keeps (written self.old) (written self.new)) }
        ensures failed { OnErr result (Rose (faults self.old) (faults self.new)) }
        ensures stuck { IfOk result (λ count. count ≡ 0 → 0 < length from.now → Rose (faults self.old) (faults self.new)) }
        ensures never_falls { faults self.old ≤ faults self.new };
}
