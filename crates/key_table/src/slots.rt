//! The slots of a table.
ghost use Rattle.std.specs.Prelude.{◌≡◌, ◌≢◌, ℕ, ◌+◌, ◌<◌, ◌≤◌, ◌∷◌, [], true, false, length, replicate, MatchOption, vec_capacity};
ghost use Rattle.key_table.specs.Table.{rows_of, reach, vacant_row, AreSame};
ghost use Rattle.key_table.specs.inside.Slots.{nothing, home_of, held, slot_at, IsHeld, AreProbed, Within, IsFirstVacant, IsRunStart, IsGapIn, IsLoose, IsTight, CanMove, NoneMoves, HasTag, IsRowAt, HasNot};

use crate::entries::RowAt;

/// So many slots in a row never hold rows.
pub(crate) const REACH: usize = 64;

/// The row of a slot that holds none.
pub(crate) const VACANT: u32 = 4_294_967_295;

/// A slot that holds no row.
const NOTHING: RowAt = RowAt {
    row: VACANT,
    tag: 0,
};

/// The slot of a tag.
#[inline(always)]
pub(crate) fn home_of(mask: u32, tag: u32) -> usize
    ensures home { result ≡ home_of mask tag }
    ensures low { result ≤ mask }
{
    (tag & mask) as usize
}

/// What a slot holds.
#[inline(always)]
pub(crate) fn slot_at(slots: &Vec<RowAt>, at: usize) -> RowAt
    requires { at < length slots.now.items }
    ensures { result ≡ slot_at slots.now.items at }
{
    slots[at]
}

/// The first slot without a row from one on.
#[inline(always)]
fn vacant_from(slots: &Vec<RowAt>, mask: u32, home: usize) -> usize
    requires probed { AreProbed mask slots.now.items }
    requires low { home ≤ mask }
    ensures { IsFirstVacant slots.now.items home result }
{
    for at in home..home + REACH {
        if slot_at(slots, at).row == VACANT {
            return at;
        }
    }
    unreachable!()
}

/// The first of the slots before one that hold rows, with no empty slot between.
#[inline(always)]
fn run_start(slots: &Vec<RowAt>, home: usize) -> usize
    requires { home ≤ length slots.now.items }
    ensures { IsRunStart slots.now.items home result }
{
    let mut low = home;
    while low > 0 && slot_at(slots, low - 1).row != VACANT {
        low -= 1;
    }
    low
}

/// Whether one of some slots is empty.
#[inline(always)]
fn has_gap(slots: &Vec<RowAt>, from: usize, to: usize) -> bool
    requires { to ≤ length slots.now.items }
    ensures gap { result ≡ true → IsGapIn slots.now.items from to }
    ensures none { result ≡ false → (k : ℕ) → from ≤ k → k < to → IsHeld slots.now.items k }
{
    for at in from..to {
        if slot_at(slots, at).row == VACANT {
            return true;
        }
    }
    false
}

/// Whether fewer than 64 slots in a row would hold rows if the first empty one from a slot on held one, too.
#[inline(always)]
fn is_loose(slots: &Vec<RowAt>, home: usize, at: usize) -> bool
    requires room { home + reach ≤ length slots.now.items }
    requires first { IsFirstVacant slots.now.items home at }
    requires probed { (mask : ℕ) × AreProbed mask slots.now.items }
    ensures loose { result ≡ true → IsLoose slots.now.items at }
    ensures tight { result ≡ false → (mask : ℕ) → AreProbed mask slots.now.items → IsTight mask slots.now.items home }
{
    let low = run_start(slots, home);
    has_gap(slots, at + 1, low + REACH)
}

/// Puts a row into the first slot that holds none from the slot of its tag on. False where 64 slots in a row would hold
/// rows then, and the row is not put in.
pub(crate) fn put(slots: &mut Vec<RowAt>, mask: u32, entry: RowAt) -> bool
    // Slots that a search can rely on.
    requires probed { AreProbed mask slots.old.items }
    requires row { entry.row < vacant_row }

    // What the slots hold then.
    ensures probed { AreProbed mask slots.new.items }
    ensures rows { result ≡ true → AreSame (entry.row ∷ rows_of (held slots.old.items)) (rows_of (held slots.new.items)) }

    // When it is not put in.
    ensures unchanged { result ≡ false → slots.new.items ≡ slots.old.items }
    ensures tight { result ≡ false → IsTight mask slots.old.items (home_of mask entry.tag) }

    // No other row came in.
    ensures within { Within (entry ∷ slots.old.items) slots.new.items }
    ensures capacity { vec_capacity slots.old ≤ vec_capacity slots.new }
{
    let home = home_of(mask, entry.tag);
    let at = vacant_from(slots, mask, home);
    if !is_loose(slots, home, at) {
        return false;
    }
    slots[at] = entry;
    true
}

/// The next slot behind one whose row may stand there, too.
#[inline(always)]
fn mover(slots: &Vec<RowAt>, mask: u32, hole: usize) -> Option<usize>
    requires probed { AreProbed mask slots.now.items }
    requires held { IsHeld slots.now.items hole }
    ensures { MatchOption result (NoneMoves mask slots.now.items hole) (CanMove mask slots.now.items hole) }
{
    let mut at = hole + 1;
    loop {
        let slot = slot_at(slots, at);
        if slot.row == VACANT {
            return None;
        }
        if home_of(mask, slot.tag) <= hole {
            return Some(at);
        }
        at += 1;
    }
}

/// Takes the row of a slot out, and closes the gap.
pub(crate) fn take_out(slots: &mut Vec<RowAt>, mask: u32, at: usize)
    requires probed { AreProbed mask slots.old.items }
    requires held { IsHeld slots.old.items at }
    ensures probed { AreProbed mask slots.new.items }
    ensures rows { AreSame (rows_of (held slots.old.items)) ((slot_at slots.old.items at).row ∷ rows_of (held slots.new.items)) }
    ensures within { Within slots.old.items slots.new.items }
    ensures capacity { vec_capacity slots.old ≤ vec_capacity slots.new }
{
    let mut hole = at;
    while let Some(next) = mover(slots, mask, hole) {
        slots[hole] = slot_at(slots, next);
        hole = next;
    }
    slots[hole] = NOTHING;
}

/// Where a row stands, at the slot of its tag or behind it, if it is there.
pub(crate) fn locate(slots: &Vec<RowAt>, mask: u32, found: RowAt) -> Option<usize>
    requires probed { AreProbed mask slots.now.items }
    requires tag { HasTag slots.now.items found }
    ensures { MatchOption result (HasNot slots.now.items found.row) (IsRowAt slots.now.items found.row) }
{
    let home = home_of(mask, found.tag);
    for at in home..home + REACH {
        let slot = slot_at(slots, at);
        if slot.row == VACANT {
            return None;
        }
        if slot.row == found.row {
            return Some(at);
        }
    }
    unreachable!()
}

/// Makes so many empty slots where there are none.
pub(crate) fn clear(slots: &mut Vec<RowAt>, count: usize)
    requires none { slots.old.items ≡ [] }
    requires room { count ≤ vec_capacity slots.old }
    ensures slots { slots.new.items ≡ replicate count nothing }
    ensures capacity { vec_capacity slots.old ≤ vec_capacity slots.new }
{
    for _made in 0..count {
        slots.push(NOTHING).unwrap();
    }
}

/// Puts the rows of some slots into others, of which there are none yet. False where one was not put in.
pub(crate) fn put_all(from: &Vec<RowAt>, slots: &mut Vec<RowAt>, mask: u32) -> bool
    requires none { slots.old.items ≡ [] }
    requires room { mask + 1 + reach ≤ vec_capacity slots.old }
    ensures probed { AreProbed mask slots.new.items }
    ensures rows { result ≡ true → AreSame (rows_of (held from.now.items)) (rows_of (held slots.new.items)) }
    ensures within { Within from.now.items slots.new.items }
    ensures capacity { vec_capacity slots.old ≤ vec_capacity slots.new }
{
    clear(slots, mask as usize + 1 + REACH);
    for at in 0..from.len() {
        let slot = slot_at(from, at);
        if slot.row == VACANT {
            continue;
        }
        if !put(slots, mask, slot) {
            return false;
        }
    }
    true
}
