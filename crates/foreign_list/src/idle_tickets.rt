//! The idle tickets as a word: the bit of a ticket's number is set where it is idle.
ghost use Rattle.std.specs.Prelude.{◌≡◌, ◌≢◌, ℕ, ◌<◌, ◌≤◌, ◌==◌, IfSome, IfNone};
ghost use Rattle.std.specs.Int.{bit_at};

pub(crate) const ALL_IDLE: u64 = u64::MAX;

pub(crate) fn is_marked(idle: u64, ticket: u32) -> bool
    requires { ticket < 64 }
    ensures { result ≡ (bit_at idle ticket == 1) }
{
    (idle >> ticket) & 1 == 1
}

pub(crate) fn marked_idle(idle: u64, ticket: u32) -> u64
    requires { ticket < 64 }
    ensures here { bit_at result ticket ≡ 1 }
    ensures others { (t : ℕ) → t < 64 → t ≢ ticket → bit_at result t ≡ bit_at idle t }
{
    idle | (1 << ticket)
}

pub(crate) fn marked_lent(idle: u64, ticket: u32) -> u64
    requires { ticket < 64 }
    ensures here { bit_at result ticket ≡ 0 }
    ensures others { (t : ℕ) → t < 64 → t ≢ ticket → bit_at result t ≡ bit_at idle t }
{
    idle & !(1 << ticket)
}

// The least marked ticket from the first on.
pub(crate) fn least_marked(idle: u64, first: u32) -> Option<u32>
    requires { first < 64 }
    ensures none { IfNone result ((t : ℕ) → first ≤ t → bit_at idle t ≡ 0) }
    ensures here { IfSome result (λ ticket. (first ≤ ticket) × (ticket < 64) × (bit_at idle ticket ≡ 1)) }
    ensures below { IfSome result (λ ticket. (t : ℕ) → first ≤ t → t < ticket → bit_at idle t ≡ 0) }
{
    let rest = idle >> first;
    if rest == 0 {
        return None;
    }
    Some(first + rest.trailing_zeros())
}
