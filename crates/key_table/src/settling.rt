//! Rows that wait get their places in the order of keys.
ghost use Rattle.std.specs.Prelude.{◌≡◌, ℕ, ◌+◌, ◌≤◌, [], ◌∷◌, List, true, false, length, MatchOption};
ghost use Rattle.common_lemmas.specs.Lists.{times};
ghost use Rattle.rows.specs.Key.{Key};
ghost use Rattle.key_index.specs.Index.{IsOrdered, IsRowAt};
ghost use Rattle.key_table.specs.inside.Mixed.{both, CanSettle};

use crate::late::Late;
use crate::standing::Standing;
use key_index::{KeyIndex, Keys};

/// Puts one of the rows that wait into the order. False where none waits.
pub(crate) fn settle_one<K: Keys>(late: &mut Late, order: &mut KeyIndex, keys: &K) -> bool
    requires { CanSettle (K.has_row keys.now) (K.key_of keys.now) order.old late.old }

    // The same rows; the order loses none.
    ensures settled { CanSettle (K.has_row keys.now) (K.key_of keys.now) order.new late.new }
    ensures all { (n : ℕ) → both order.new late.new n ≡ both order.old late.old n }
    ensures more { (n : ℕ) → times n order.old.rows ≤ times n order.new.rows }

    // Both can take as many.
    ensures order_room { order.new.room ≡ order.old.room }
    ensures late_room { late.new.bound ≡ late.old.bound }

    // How many wait then.
    ensures none { result ≡ false → late.new.numbers ≡ [] }
    ensures fewer { result ≡ true → length late.new.numbers + 1 ≡ length late.old.numbers }
{
    let Some(row) = late.pop() else {
        return false;
    };
    order.insert(keys, row);
    true
}

/// Puts the rows that wait into the order, the last one first.
fn drain<K: Keys>(late: &mut Late, order: &mut KeyIndex, keys: &K)
    requires { CanSettle (K.has_row keys.now) (K.key_of keys.now) order.old late.old }
    ensures settled { CanSettle (K.has_row keys.now) (K.key_of keys.now) order.new late.new }
    ensures all { (n : ℕ) → both order.new late.new n ≡ both order.old late.old n }
    ensures more { (n : ℕ) → times n order.old.rows ≤ times n order.new.rows }
    ensures order_room { order.new.room ≡ order.old.room }
    ensures late_room { late.new.bound ≡ late.old.bound }
    ensures none { late.new.numbers ≡ [] }
{
    while settle_one(late, order, keys) {}
}

/// Puts the rows that wait into the order.
pub(crate) fn settle_all<K: Keys>(late: &mut Late, order: &mut KeyIndex, keys: &K)
    requires { CanSettle (K.has_row keys.now) (K.key_of keys.now) order.old late.old }
    ensures settled { CanSettle (K.has_row keys.now) (K.key_of keys.now) order.new late.new }
    ensures all { (n : ℕ) → both order.new late.new n ≡ both order.old late.old n }
    ensures more { (n : ℕ) → times n order.old.rows ≤ times n order.new.rows }
    ensures order_room { order.new.room ≡ order.old.room }
    ensures late_room { late.new.bound ≡ late.old.bound }
    ensures none { late.new.numbers ≡ [] }
{
    late.sort(keys);
    drain(late, order, keys);
}

/// Takes a row out of the order, or from those that wait.
pub(crate) fn leave(late: &mut Late, order: &mut KeyIndex, standing: Standing)
    requires { MatchOption standing.place (1 ≤ times standing.found.row late.old.numbers)
        (λ place. IsRowAt order.old place standing.found.row) }
    ensures all { (n : ℕ) → both order.old late.old n ≡ times n (standing.found.row ∷ []) + both order.new late.new n }
    ensures fewer { (n : ℕ) → times n order.old.rows ≤ times n (standing.found.row ∷ []) + times n order.new.rows }
    ensures ordered { (key_of : ℕ → Key) → IsOrdered key_of order.old → IsOrdered key_of order.new }
    ensures order_room { order.new.room ≡ order.old.room }
    ensures late_room { late.new.bound ≡ late.old.bound }
{
    let row = standing.found.row;
    let Some(place) = standing.place else {
        late.remove(row);
        return;
    };
    order.remove_at(key_index::RowAt { row, place });
}
