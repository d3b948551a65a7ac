//! Numbers that wait.
ghost use Rattle.std.specs.Prelude.{◌≡◌, ℕ, ◌+◌, ◌<◌, ◌≤◌, ◌∷◌, ◌++◌, [], true, false, length, slice_index, slice_set, IfOk, MatchOption, vec_capacity};
ghost use Rattle.common_lemmas.specs.Lists.{times};
ghost use Rattle.key_table.specs.Table.{AreSame};
ghost use Rattle.key_table.specs.Late.{Numbers};

use crate::waiting::{Waiting, place_all, sort_all};
use key_index::Keys;
use std::alloc::{AllocError, Global};
use std::marker::Model;

/// Numbers below a bound, each once. A number is added or taken out in a constant number of steps.
#[derive(Drop)]
pub struct Late {
    bound: u32,
    numbers: Vec<u32>,
    // where a number stands among the others, if it is one of them; else anything
    places: Vec<u32>,
    // memory for sorting
    waiting: Vec<Waiting>,
}

impl Model for Late {
    ghost use Rattle.key_table.specs.Late.{Numbers};
    ghost use Rattle.key_table.specs.inside.Places.{ArePlaced};
    ghost use Rattle.std.specs.Prelude.{◌≤◌, vec_capacity};

    ghost Value = { Numbers };

    ghost view = { λ a. record { bound = a.bound; numbers = a.numbers.items } };

    ghost invariant = { λ a. ArePlaced a.bound a.numbers.items a.places.items (vec_capacity a.numbers) (vec_capacity a.places)
        × (a.bound ≤ vec_capacity a.waiting) };
}

impl Late {
    /// No numbers below a bound. No other call takes memory.
    ///
    /// # Errors
    /// Want of memory.
    pub fn new(alloc: Global, bound: u32) -> Result<Late, AllocError>
        ensures { IfOk result (λ made. made ≡ record { bound = bound; numbers = [] }) }
    {
        let numbers = Vec::with_capacity(alloc, bound as usize)?;
        let places = Vec::with_capacity(alloc, bound as usize)?;
        let waiting = Vec::with_capacity(alloc, bound as usize)?;
        Ok(Late {
            bound,
            numbers,
            places,
            waiting,
        })
    }

    /// How many numbers there are.
    pub fn len(&self) -> usize
        ensures { result ≡ length self.now.numbers }
    {
        self.numbers.len()
    }

    /// Whether a number is one of them.
    pub fn has(&self, number: u32) -> bool
        ensures one { result ≡ true → 1 ≤ times number self.now.numbers }
        ensures other { result ≡ false → times number self.now.numbers ≡ 0 }
    {
        if number as usize >= self.places.len() {
            return false;
        }
        let place = number_at(&self.places, number);
        if place as usize >= self.numbers.len() {
            return false;
        }
        number_at(&self.numbers, place) == number
    }

    /// Adds a number.
    pub fn add(&mut self, number: u32)
        requires below { number < self.old.bound }
        requires absent { times number self.old.numbers ≡ 0 }
        ensures bound { self.new.bound ≡ self.old.bound }
        ensures numbers { self.new.numbers ≡ self.old.numbers ++ number ∷ [] }
    {
        reach(&mut self.places, number);
        self.places[number as usize] = self.numbers.len() as u32;
        self.numbers.push(number).unwrap();
    }

    /// Takes a number out.
    pub fn remove(&mut self, number: u32)
        requires { 1 ≤ times number self.old.numbers }
        ensures bound { self.new.bound ≡ self.old.bound }
        ensures numbers { AreSame self.old.numbers (number ∷ self.new.numbers) }
    {
        let place = number_at(&self.places, number);
        let last = self.numbers.pop().unwrap();
        fill(&mut self.numbers, &mut self.places, place, last);
    }

    /// Takes all numbers out.
    pub fn clear(&mut self)
        ensures { self.new ≡ record { bound = self.old.bound; numbers = [] } }
    {
        self.numbers.clear();
    }

    /// Sorts the numbers by the leads of their keys, the least last.
    pub(crate) fn sort<K: Keys>(&mut self, keys: &K)
        requires { (n : ℕ) → 1 ≤ times n self.old.numbers → K.has_row keys.now n }
        ensures bound { self.new.bound ≡ self.old.bound }
        ensures numbers { AreSame self.old.numbers self.new.numbers }
    {
        sort_all(keys, &mut self.numbers, &mut self.waiting);
        place_all(&self.numbers, &mut self.places);
    }

    /// Takes the last number out.
    pub fn pop(&mut self) -> Option<u32>
        ensures bound { self.new.bound ≡ self.old.bound }
        ensures numbers { MatchOption result ((self.old.numbers ≡ []) × (self.new.numbers ≡ []))
            (λ number. self.old.numbers ≡ self.new.numbers ++ number ∷ []) }
    {
        self.numbers.pop()
    }
}

/// The number at a place.
pub(crate) fn number_at(numbers: &Vec<u32>, at: u32) -> u32
    requires { at < length numbers.now.items }
    ensures { result ≡ slice_index numbers.now.items at }
{
    numbers[at as usize]
}

/// Makes places up to a number.
fn reach(places: &mut Vec<u32>, number: u32)
    requires { number < vec_capacity places.old }
    ensures reached { number < length places.new.items }
    ensures long { length places.old.items ≤ length places.new.items }
    ensures few { (n : ℕ) → length places.old.items ≤ n → number < n → length places.new.items ≤ n }
    ensures same { (k : ℕ) → k < length places.old.items → slice_index places.new.items k ≡ slice_index places.old.items k }
    ensures capacity { vec_capacity places.old ≤ vec_capacity places.new }
{
    while places.len() <= number as usize {
        places.push(0).unwrap();
    }
}

/// Puts the number that was the last one into the place of one that went, if it is another.
fn fill(numbers: &mut Vec<u32>, places: &mut Vec<u32>, place: u32, last: u32)
    requires { last < length places.old.items }
    ensures places { places.new.items ≡ slice_set places.old.items last place }
    ensures numbers { numbers.new.items ≡ slice_set numbers.old.items place last }
    ensures capacity { (vec_capacity numbers.old ≤ vec_capacity numbers.new) × (vec_capacity places.old ≤ vec_capacity places.new) }
{
    places[last as usize] = place;
    if (place as usize) < numbers.len() {
        numbers[place as usize] = last;
    }
}
