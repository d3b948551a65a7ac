//! What a node asks before it begins a command of its own.
ghost use Rattle.std.specs.Prelude.{◌≡◌, ⊤, ℕ, ◌<◌, ◌≤◌, true, false};

/// A gate that commands of a node's own go through, each once, before its first part. A program has gates that never hold;
/// tests have others.
pub trait Gate {
    // How often it held a command back.
    ghost holds: { Self → ℕ };

    // How it stands once it let the command of this number through at this shard, from how it stood before.
    ghost lets: { Self → ℕ → ℕ → Self → Type 0 };

    /// Whether the command of this number may be begun at this shard now. False only where the count of holds rose: the node
    /// asks again in its next turn.
    fn open(&mut self, shard: u32, number: u32) -> bool
        ensures let_through { result ≡ true → lets self.old shard number self.new }
        ensures held { result ≡ false → holds self.old < holds self.new }
        ensures never_falls { holds self.old ≤ holds self.new };
}

/// Makes the gate of each shard.
pub trait Gates {
    type Made: Gate + Send + Drop;

    fn gate(&self, shard: u32) -> Self::Made;
}

/// A gate that never holds.
#[derive(Drop)]
pub struct OpenGate;

impl Gate for OpenGate {
    ghost holds = { λ _. 0 };

    ghost lets = { λ _ _ _ _. ⊤ };

    fn open(&mut self, _shard: u32, _number: u32) -> bool
        ensures { result ≡ true }
    {
        true
    }
}

/// Gates that never hold.
#[derive(Drop)]
pub struct OpenGates;

impl Gates for OpenGates {
    type Made = OpenGate;

    fn gate(&self, _shard: u32) -> OpenGate {
        OpenGate
    }
}
