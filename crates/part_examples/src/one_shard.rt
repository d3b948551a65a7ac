//! A caller of `shard_store`: a row is stored and used, in a store that is opened and given back.
ghost use Rattle.std.specs.Prelude.{◌≡◌, ◌≤◌, List, length, IfSome};
ghost use Rattle.shard_store.specs.Apply as apply;
ghost use Rattle.shard_store.specs.Key.{in_table};
ghost use Rattle.shard_store.specs.Row.{Row};
ghost use Rattle.shard_store.specs.Sizes as sizes;
ghost use Rattle.shard_store.specs.Spelled.{IsKey};
ghost use Rattle.shard_store.specs.Stores.{IsUnguarded};

use shard_store::{EvictionCount, Foreign, Put, ShardStore};
use std::alloc::{AllocError, Global};

/// How many rows the store has room for.
const ROWS: u32 = 1000;

/// Stores a row of table 0 in front of the others. The rows that go for it, those used longest ago, are counted. None where there are as
/// many rows as there is room for.
pub fn store_row(
    store: &mut ShardStore<'_>,
    key: &[u8],
    value: &[u8],
    tag: u32,
    gone: &mut EvictionCount,
) -> Option<Put>
    requires room { store.old.room ≡ 1000 }
    requires key { IsKey key.now }
    requires value { length value.now ≤ sizes.greatest_value }
    requires unguarded { IsUnguarded store.old }
    ensures stored { IfSome result (λ _. (rest : List Row) × (store.new.rows ≡ (apply.put (in_table 0 key.now) value.now tag rest).0)) }
    ensures unguarded { IsUnguarded store.new }
    ensures list { store.new.list ≡ store.old.list }
{
    if store.rows() >= ROWS {
        return None;
    }
    Some(store.put(0, key, value, tag, gone))
}

/// Whether table 0 has a row of a key, which is the one used last from now on.
pub fn use_row(store: &mut ShardStore<'_>, key: &[u8]) -> bool
    requires { IsUnguarded store.old }
    ensures unguarded { IsUnguarded store.new }
    ensures list { store.new.list ≡ store.old.list }
{
    store.get(0, key).is_some()
}

/// Opens a store of so many pages, stores a row, uses it, and gives the memory back. The answer is whether the row was there.
///
/// # Errors
/// Want of memory.
pub fn store_in_new(alloc: Global, pages: u32, key: &[u8], value: &[u8]) -> Result<bool, AllocError>
    requires pages { sizes.ArePages pages }
    requires key { IsKey key.now }
    requires value { length value.now ≤ sizes.greatest_value }
{
    let (home, seat) = Foreign::new(alloc, 0)?;
    let mut store = match ShardStore::open(alloc, 0, pages, ROWS, 1, &home, seat) {
        Ok(store) => store,
        Err(seat) => {
            home.close(seat);
            return Err(AllocError);
        }
    };
    let mut gone = EvictionCount::default();
    let stored = store_row(&mut store, key, value, 1, &mut gone).is_some();
    let found = use_row(&mut store, key);
    if store.tickets_out() != 0 {
        return Ok(false);
    }
    let seat = store.finish();
    home.close(seat);
    Ok(stored && found)
}
