//! A set of numbers, one bit each.
ghost use Rattle.std.specs.Prelude.{◌≡◌, ◌↔◌, ◌<◌, false, true, length, replicate, slice_set, IfOk, IfSome, IsNone};
ghost use Rattle.number_set.specs.Numbers.{size, IsLeast, IsGreatest, IsLeastAbsent};

use crate::bits::{BITS, bit, clear, first, first_gap, last, set};
use std::alloc::{AllocError, Global};
use std::marker::Model;

/// A set of numbers below a bound.
#[derive(Drop)]
pub struct NumberSet {
    words: Vec<u64>,
    bound: u32,
    count: u32,
}

impl Model for NumberSet {
    ghost use Rattle.std.specs.Prelude.{List, Bool};
    ghost use Rattle.number_set.specs.inside.Words.{bits_below, IsConsistent};

    ghost Value = { List Bool };

    ghost view = { λ s. bits_below s.bound s.words.items };

    ghost invariant = { λ s. IsConsistent s.bound s.count s.words.items };
}

impl NumberSet {
    /// No number is in the set, and each one below `bound` can be.
    ///
    /// # Errors
    /// `AllocError` where memory is not found.
    pub fn new(alloc: Global, bound: u32) -> Result<NumberSet, AllocError>
        ensures { IfOk result (λ s. s ≡ replicate bound false) }
    {
        Ok(NumberSet {
            words: Vec::from_elem(alloc, 0, (bound as usize + BITS - 1) / BITS)?,
            bound,
            count: 0,
        })
    }

    /// How many numbers are in the set.
    pub fn len(&self) -> u32
        ensures { result ≡ size self.now }
    {
        self.count
    }

    /// The number is in the set from now on.
    pub fn insert(&mut self, number: u32)
        requires { number < length self.old }
        ensures { self.new ≡ slice_set self.old number true }
    {
        if !bit(&self.words, number as usize) {
            set(&mut self.words, number as usize);
            self.count += 1;
        }
    }

    /// The number is not in the set from now on.
    pub fn remove(&mut self, number: u32)
        requires { number < length self.old }
        ensures { self.new ≡ slice_set self.old number false }
    {
        if bit(&self.words, number as usize) {
            clear(&mut self.words, number as usize);
            self.count -= 1;
        }
    }

    /// The least number in the set. None where it is empty.
    pub fn least(&self) -> Option<u32>
        ensures none { IsNone result ↔ size self.now ≡ 0 }
        ensures least { IfSome result (IsLeast self.now) }
    {
        // The count tells that a set is empty, so no word is looked at.
        if self.count == 0 {
            return None;
        }
        let number = first(&self.words)?;
        Some(number as u32)
    }

    /// The greatest number in the set. None where it is empty.
    pub fn greatest(&self) -> Option<u32>
        ensures none { IsNone result ↔ size self.now ≡ 0 }
        ensures greatest { IfSome result (IsGreatest self.now) }
    {
        let number = last(&self.words)?;
        Some(number as u32)
    }

    /// The least number below the bound that is not in the set. None where each one is.
    pub fn least_absent(&self) -> Option<u32>
        ensures none { IsNone result ↔ size self.now ≡ length self.now }
        ensures least { IfSome result (IsLeastAbsent self.now) }
    {
        let number = first_gap(&self.words)?;
        if number < self.bound as usize {
            Some(number as u32)
        } else {
            None
        }
    }

    /// The set has from now on what the other one has.
    pub fn copy_from(&mut self, other: &NumberSet)
        requires { length self.old ≡ length other.now }
        ensures { self.new ≡ other.now }
    {
        self.words.copy_from_slice(&other.words);
        self.count = other.count;
    }
}
