//! A caller of `key_table`: a row enters an index that is asked for order later, and is found by its key.
ghost use Rattle.std.specs.Prelude.{◌≡◌, ◌≢◌, ℕ, ◌<◌, ◌∷◌, true, false, MatchOption};
ghost use Rattle.key_table.specs.Key.{key_shown};
ghost use Rattle.key_table.specs.Lazy.{rows_in, Has, IsLazyOf};
ghost use Rattle.key_table.specs.Sizes.{tables};
ghost use Rattle.key_table.specs.Table.{AreSame};

use key_table::{Key, Keys, LazyIndex};

/// Puts a row in whose key no row has. False where one has it or there is no room; then nothing changed.
pub fn enter<K: Keys>(index: &mut LazyIndex, keys: &K, row: u32) -> bool
    requires lazy { IsLazyOf (K.has_row keys.now) (K.key_of keys.now) index.old }
    requires readable { K.has_row keys.now row }
    ensures lazy { IsLazyOf (K.has_row keys.now) (K.key_of keys.now) index.new }
    ensures entered { result ≡ true → AreSame (row ∷ rows_in index.old) (rows_in index.new) }
    ensures unchanged { result ≡ false → index.new ≡ index.old }
{
    if index.len() >= index.room() || row >= index.room() {
        return false;
    }
    let key = keys.key(row);
    let Err(spot) = index.find(keys, &key) else {
        return false;
    };
    index.insert(keys, spot, row);
    true
}

/// The row that has a key, if one has it.
pub fn row_of<K: Keys>(index: &LazyIndex, keys: &K, key: &Key<'_>) -> Option<u32>
    requires lazy { IsLazyOf (K.has_row keys.now) (K.key_of keys.now) index.now }
    requires table { key.now.table < tables }
    ensures { MatchOption result
        ((n : ℕ) → Has index.now n → K.key_of keys.now n ≢ key_shown key.now)
        (λ row. Has index.now row × (K.key_of keys.now row ≡ key_shown key.now)) }
{
    match index.find(keys, key) {
        Ok(found) => Some(found.row),
        Err(_) => None,
    }
}
