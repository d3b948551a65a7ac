//! In which order rows were used. It takes no memory: only contracts read it.
ghost use Rattle.std.specs.Prelude.{◌≡◌, ℕ, List, [], ◌∷◌};
ghost use Rattle.std.specs.Borrow.{ftrue};
ghost use Rattle.common_lemmas.specs.Lists.{delete};

use std::marker::Model;

/// A clause reads the numbers of the rows as `rows`, the one used last in front.
#[derive(Drop)]
pub(crate) struct Order {
    ghost rows: { List ℕ },
}

impl Model for Order {
    ghost also_owns = { λ _. ftrue };
}

// It owns nothing.
unsafe impl Send for Order {}

impl Order {
    pub(crate) fn empty() -> Order
        ensures { result.rows ≡ [] }
    {
        Order {}
    }

    pub(crate) fn with_front(&self, number: &u32) -> Order
        ensures { result.rows ≡ number.now ∷ self.now.rows }
    {
        Order {}
    }

    pub(crate) fn without(&self, number: &u32) -> Order
        ensures { result.rows ≡ delete number.now self.now.rows }
    {
        Order {}
    }
}
