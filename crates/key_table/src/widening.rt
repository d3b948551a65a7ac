//! Slots for more rows.
ghost use Rattle.std.specs.Prelude.{◌≡◌, ℕ, ◌+◌, ◌*◌, ◌<◌, ◌≤◌, [], length, vec_capacity};
ghost use Rattle.key_table.specs.Table.{mask_of, rows_of, reach, AreSame};
ghost use Rattle.key_table.specs.inside.Slots.{held, AreProbed, Within};

use crate::entries::RowAt;
use crate::slots::put_all;
use std::mem;

/// One less than the least number of slots.
pub(crate) const LEAST: u32 = 1023;

/// Whether half of the slots are in use.
fn is_full(mask: u32, count: u32) -> bool {
    u64::from(count) * 2 > u64::from(mask)
}

/// One less than the greatest number of slots that a table of so many rows needs.
pub(crate) fn most_of(room: u32) -> u32
    ensures { 1023 ≤ result }
{
    let mut most = LEAST;
    while most < 2147483647 && is_full(most, room) {
        most = most * 2 + 1;
    }
    most
}

/// The greatest of these numbers that is no more than the most: from one on, that doubled, and so on.
pub(crate) fn widest(mask: u32, most: u32) -> u32
    requires { mask ≤ most }
    ensures doubled { (times : ℕ) → mask ≡ mask_of times → (n : ℕ) × (result ≡ mask_of n) }
    ensures upto { result ≤ most }
    ensures last { most < result * 2 + 1 }
{
    let mut wider = mask;
    'widening: while u64::from(wider) * 2 + 1 <= u64::from(most) {
        wider = wider * 2 + 1;
    }
    wider
}

/// Doubles the slots where too many are in use, and answers one less than their number. Where a row would not be put in
/// among so many, the slots stay as they are, and there never are more.
pub(crate) fn widen(
    slots: &mut Vec<RowAt>,
    spare: &mut Vec<RowAt>,
    mask: u32,
    most: &mut u32,
    count: u32,
) -> u32
    // Slots to double, and memory for them.
    requires probed { AreProbed mask slots.old.items }
    requires spare { spare.old.items ≡ [] }
    requires upto { mask ≤ most.old }
    requires room { most.old + 1 + reach ≤ vec_capacity spare.old }

    // How many slots there are then.
    ensures probed { AreProbed result slots.new.items }
    ensures upto { result ≤ most.new }
    ensures most { most.new ≤ most.old }
    ensures doubled { (times : ℕ) → mask ≡ mask_of times → (n : ℕ) × (result ≡ mask_of n) }

    // They hold the same, tag by tag.
    ensures rows { AreSame (rows_of (held slots.old.items)) (rows_of (held slots.new.items)) }
    ensures within { Within slots.old.items slots.new.items }

    // Memory for the next doubling.
    ensures spare { spare.new.items ≡ [] }
    ensures capacity { (n : ℕ) → n ≤ vec_capacity slots.old → n ≤ vec_capacity spare.old
        → (n ≤ vec_capacity slots.new) × (n ≤ vec_capacity spare.new) }
{
    if !is_full(mask, count) || u64::from(mask) * 2 + 1 > u64::from(*most) {
        return mask;
    }
    let wider = mask * 2 + 1;
    if !put_all(slots, spare, wider) {
        spare.clear();
        *most = mask;
        return mask;
    }
    mem::swap(slots, spare);
    spare.clear();
    wider
}
