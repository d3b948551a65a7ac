//! Numbers that wait are put near their order at once.
ghost use Rattle.std.specs.Prelude.{◌≡◌, ℕ, ◌<◌, ◌≤◌, length, slice_index, vec_capacity};
ghost use Rattle.key_table.specs.inside.Waiting.{numbers_of};
ghost use Rattle.common_lemmas.specs.Lists.{times};
ghost use Rattle.key_table.specs.Table.{AreSame};

use crate::late::number_at;
use key_index::{Keys, lead_behind};

/// A number that waits, and the lead of its key.
#[derive(Clone, Copy)]
pub(crate) struct Waiting {
    pub(crate) lead: u64,
    pub(crate) number: u32,
}

/// Notes the leads of the keys of numbers.
fn note_all<K: Keys>(keys: &K, numbers: &Vec<u32>, waiting: &mut Vec<Waiting>)
    requires readable { (n : ℕ) → 1 ≤ times n numbers.now.items → K.has_row keys.now n }
    requires small { length numbers.now.items < 4294967296 }
    requires room { length numbers.now.items ≤ vec_capacity waiting.old }
    ensures numbers { numbers_of waiting.new.items ≡ numbers.now.items }
    ensures capacity { vec_capacity waiting.old ≤ vec_capacity waiting.new }
{
    waiting.clear();
    for at in 0..numbers.len() {
        let number = number_at(numbers, at as u32);
        let key = keys.key(number);
        let lead = lead_behind(&key, 0);
        waiting.push(Waiting { lead, number }).unwrap();
    }
}

/// Puts noted numbers where there may be others.
fn take_all(waiting: &Vec<Waiting>, numbers: &mut Vec<u32>)
    requires { length waiting.now.items ≤ vec_capacity numbers.old }
    ensures numbers { numbers.new.items ≡ numbers_of waiting.now.items }
    ensures capacity { vec_capacity numbers.old ≤ vec_capacity numbers.new }
{
    numbers.clear();
    for at in 0..waiting.len() {
        let entry = waiting[at];
        numbers.push(entry.number).unwrap();
    }
}

/// Sorts numbers by the leads of their keys, the least last.
pub(crate) fn sort_all<K: Keys>(keys: &K, numbers: &mut Vec<u32>, waiting: &mut Vec<Waiting>)
    requires readable { (n : ℕ) → 1 ≤ times n numbers.old.items → K.has_row keys.now n }
    requires small { length numbers.old.items < 4294967296 }
    requires room { length numbers.old.items ≤ vec_capacity waiting.old }
    ensures numbers { AreSame numbers.old.items numbers.new.items }
    ensures numbers_fit { vec_capacity numbers.old ≤ vec_capacity numbers.new }
    ensures waiting_fit { vec_capacity waiting.old ≤ vec_capacity waiting.new }
{
    note_all(keys, numbers, waiting);
    waiting.sort_unstable_by_key(|entry| (!entry.lead, !entry.number));
    take_all(waiting, numbers);
}

/// Notes where each number stands.
pub(crate) fn place_all(numbers: &Vec<u32>, places: &mut Vec<u32>)
    requires small { length numbers.now.items < 4294967296 }
    requires inside { (k : ℕ) → k < length numbers.now.items → slice_index numbers.now.items k < length places.old.items }
    requires once { (n : ℕ) → times n numbers.now.items ≤ 1 }
    ensures placed { (k : ℕ) → k < length numbers.now.items → slice_index places.new.items (slice_index numbers.now.items k) ≡ k }
    ensures long { length places.new.items ≡ length places.old.items }
    ensures capacity { vec_capacity places.old ≤ vec_capacity places.new }
{
    for at in 0..numbers.len() {
        let number = number_at(numbers, at as u32);
        places[number as usize] = at as u32;
    }
}
