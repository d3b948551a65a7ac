//! Bitmaps: sets of numbers below a bound, one bit each, whose least and greatest number is found by a look at whole
//! words. A region finds its free segments and its unused numbers by such sets.
//!
//! # Promises
//! - The least and the greatest number in the set, and the least that is not, are told exactly; `insert` and `remove` change
//!   the one number that they name (the clauses of `NumberSet`).
#![tactic(auto)]

mod bits;
mod number_set;

pub use number_set::NumberSet;
