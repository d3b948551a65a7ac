//! Keys in the order of their bytes.
ghost use Rattle.std.specs.Prelude.{◌≡◌, map};
ghost use Rattle.rows.specs.Apply.{in_order, is_at_most};

/// Whether one key is at most another, by their bytes.
#[tactic(auto, using(crate::proofs::KeyOrder::at_most_compares))]
pub fn is_at_most(key: &[u8], other: &[u8]) -> bool
    ensures { result ≡ is_at_most key.now other.now }
{
    key <= other
}

/// Puts keys in the order of their bytes.
#[tactic(auto, using(crate::proofs::KeyOrder::sorted_is))]
pub fn sort_keys(keys: &mut [&[u8]])
    ensures { map (λ key. key.now) keys.new ≡ in_order (map (λ key. key.now) keys.old) }
{
    keys.sort_unstable();
}
