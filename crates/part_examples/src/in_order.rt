//! A caller of `key_index`: a row is put in at the place of its key, and found as the first one from a key on.
ghost use Rattle.std.specs.Prelude.{◌≡◌, ℕ, ◌<◌, ◌∷◌, [], List, true, false, MatchOption};
ghost use Rattle.key_index.specs.Index.{IsIndexOf};
ghost use Rattle.key_index.specs.Key.{key_shown};
ghost use Rattle.key_index.specs.Order.{PutsIn, rows_from};
ghost use Rattle.key_index.specs.Sizes.{tables};

use key_index::{Key, KeyIndex, Keys};

/// Puts a row in at the place of its key. False where a row has the key or there is no room; then nothing changed.
pub fn put_in_order<K: Keys>(index: &mut KeyIndex, keys: &K, row: u32) -> bool
    requires index { IsIndexOf (K.has_row keys.now) (K.key_of keys.now) index.old }
    requires readable { K.has_row keys.now row }
    ensures index { IsIndexOf (K.has_row keys.now) (K.key_of keys.now) index.new }
    ensures put { result ≡ true → PutsIn (K.key_of keys.now) row index.old.rows index.new.rows }
    ensures unchanged { result ≡ false → index.new ≡ index.old }
{
    if index.len() >= index.room() {
        return false;
    }
    let key = keys.key(row);
    let Err(place) = index.search(keys, &key) else {
        return false;
    };
    index.insert_at(keys, place, row);
    true
}

/// The row with the least key at or above a key, if there is one.
pub fn first_from<K: Keys>(index: &KeyIndex, keys: &K, key: &Key<'_>) -> Option<u32>
    requires index { IsIndexOf (K.has_row keys.now) (K.key_of keys.now) index.now }
    requires table { key.now.table < tables }
    ensures { MatchOption result
        (rows_from (K.key_of keys.now) (key_shown key.now) index.now.rows ≡ [])
        (λ row. (behind : List ℕ) × (rows_from (K.key_of keys.now) (key_shown key.now) index.now.rows ≡ row ∷ behind)) }
{
    let mut rows = index.rows_from(keys, key);
    rows.next()
}
