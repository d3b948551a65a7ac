//! What numbers are spelled by.
ghost use Rattle.std.specs.Prelude.{◌≡◌, ◌^◌, ◌<◌, ◌≤◌, ℕ, List, decimal, Some};
ghost use Rattle.numerals.specs.Numeral.{number_of};

/// A number up to the greatest one is spelled by its decimal digits, and by no other bytes.
pub fn numbers_are_spelled_once()
    ensures spelled { (greatest number : ℕ) → greatest < 2 ^ 32 → number ≤ greatest
        → number_of greatest (decimal number) ≡ Some number }
    ensures once { (greatest number : ℕ) (field : List ℕ) → number_of greatest field ≡ Some number
        → (field ≡ decimal number) × (number ≤ greatest) }
{}
