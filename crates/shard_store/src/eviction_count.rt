//! Evictions, counted.
ghost use Rattle.std.specs.Prelude.{◌≡◌, ◌^◌};
ghost use Rattle.layout.specs.Counts.{counted};

use rows::Evictions;

/// How many rows went. It stands at the greatest u64.
///
/// # Examples
/// ```
/// let mut gone = EvictionCount::default();
/// let did = store.put(0, b"apple", b"red", 1, &mut gone);
/// let count = gone.count; // how many rows went for it
/// ```
#[derive(Clone, Copy, Debug, Default, PartialEq, Eq)]
pub struct EvictionCount {
    pub count: u64,
}

impl Evictions for EvictionCount {
    ghost use Rattle.std.proofs.Common.{rules};

    ghost room = { λ _. 2 ^ 32 };

    ghost tells = { λ old tag new. new.count ≡ counted old.count };

    fn evicted(&mut self, _tag: u32) {
        self.count = self.count.saturating_add(1);
    }

    ghost takes_one = { Prim.search rules };
}
