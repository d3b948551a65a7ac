//! The row of a key among slots.
ghost use Rattle.std.specs.Prelude.{◌≡◌, ◌≢◌, ℕ, ◌<◌, ◌≤◌, true, false, MatchOption};
ghost use Rattle.rows.specs.Key.{key_shown};
ghost use Rattle.key_table.specs.Hash.{tag_of};
ghost use Rattle.key_table.specs.inside.Slots.{slot_at, home_of, IsHeld, AreProbed, AreReadable, AreTagged, IsFound, HaveNot};

use crate::entries::RowAt;
use crate::slots::{REACH, VACANT, home_of, slot_at};
use key_index::Keys;
use rows::Key;

/// Whether a slot's row has a key. The tag is the key's.
#[inline(always)]
fn is_row_of<K: Keys>(keys: &K, slot: RowAt, key: &Key<'_>, tag: u32) -> bool
    requires { K.has_row keys.now slot.row }
    ensures same { result ≡ true → K.key_of keys.now slot.row ≡ key_shown key.now }
    ensures other { result ≡ false → slot.tag ≡ tag → K.key_of keys.now slot.row ≢ key_shown key.now }
{
    if slot.tag != tag {
        return false;
    }
    keys.key(slot.row).is_same_as(key)
}

/// The row of a key, if one has it. The tag is the key's.
pub(crate) fn seek<K: Keys>(
    keys: &K,
    slots: &Vec<RowAt>,
    mask: u32,
    key: &Key<'_>,
    tag: u32,
) -> Option<RowAt>
    requires probed { AreProbed mask slots.now.items }
    requires readable { AreReadable (K.has_row keys.now) slots.now.items }
    requires tagged { AreTagged (K.key_of keys.now) slots.now.items }
    requires tag { tag ≡ tag_of (key_shown key.now) }
    ensures { MatchOption result (HaveNot (K.key_of keys.now) (key_shown key.now) slots.now.items)
        (IsFound (K.key_of keys.now) (key_shown key.now) slots.now.items) }
{
    let home = home_of(mask, tag);
    for at in home..home + REACH {
        let slot = slot_at(slots, at);
        if slot.row == VACANT {
            return None;
        }
        if is_row_of(keys, slot, key, tag) {
            return Some(slot);
        }
    }
    unreachable!()
}
