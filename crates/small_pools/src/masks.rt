//! The free slots of a span, as the bits of a number: bit n of it is 1 where slot n is free.
ghost use Rattle.std.specs.Prelude.{◌≡◌, ◌≢◌, ℕ, ◌<◌, ◌≤◌};
ghost use Rattle.std.specs.Int.{bit_at};

/// The least free slot.
pub fn least_free(mask: u128) -> u8
    requires { mask ≢ 0 }
    ensures free { bit_at mask result ≡ 1 }
    ensures within { result < 128 }
{
    mask.trailing_zeros() as u8
}

/// The mask after a slot is taken.
#[tactic(auto, using(crate::proofs::Slots::clear_same, crate::proofs::Slots::clear_other))]
pub fn occupied(mask: u128, slot: u8) -> u128
    requires { slot < 128 }
    ensures taken { bit_at result slot ≡ 0 }
    ensures others { (other : ℕ) → other ≢ slot → bit_at result other ≡ bit_at mask other }
{
    mask & !(1 << slot)
}

/// The mask after a slot is free again.
#[tactic(auto, using(crate::proofs::Slots::set_same, crate::proofs::Slots::set_other))]
pub fn released(mask: u128, slot: u8) -> u128
    requires { slot < 128 }
    ensures free { bit_at result slot ≡ 1 }
    ensures others { (other : ℕ) → other ≢ slot → bit_at result other ≡ bit_at mask other }
{
    mask | (1 << slot)
}

/// The mask of so many slots, all of them free.
pub fn all_free(count: u8) -> u128
    requires some { 1 ≤ count }
    requires most { count ≤ 128 }
    ensures free { (slot : ℕ) → slot < count → bit_at result slot ≡ 1 }
    ensures none { (slot : ℕ) → count ≤ slot → bit_at result slot ≡ 0 }
{
    u128::MAX >> (128 - count)
}
