//! How a row is stored, behind the rows that go for it.
ghost use Rattle.std.specs.Prelude.{◌≡◌, ◌⊎◌, ◌+◌, ◌^◌, ◌<◌, ◌≤◌, ◌++◌, length, true, false, min, vec_capacity, vec_len};
ghost use Rattle.layout.specs.Sizes.{greatest_value, tables};
ghost use Rattle.rows.specs.Key.{in_table};
ghost use Rattle.rows.specs.Row.{live, size};
ghost use Rattle.rows.specs.Apply as apply;
ghost use Rattle.rows.specs.Spelled.{IsKey};
ghost use Rattle.row_cache.specs.Rows.{reply_of};
ghost use Rattle.shard_store.specs.Stores.{IsSameStore, IsUnguarded, KeepsTickets};
ghost use Rattle.shard_store.specs.Lending.{TakesBack};
ghost use Rattle.shard_store.specs.Works.{pressure};
ghost use Rattle.embedded_cache.specs.inside.Told.{HasPut, HasShed, HasSpared, WritesPut};

use crate::put_answer::PutAnswer;
use rows::Evictions;
use shard_store::{EvictedTags, Put, ShardStore};

// For how many rows there is room, above how many live bytes rows go, and above how many that wait for their places in the order of
// keys one is brought in.
#[derive(Clone, Copy)]
pub(crate) struct Limits {
    pub(crate) room: u32,
    pub(crate) bound: u64,
    pub(crate) waiting: u32,
}

// Stores a row, behind the rows that go for it. Their tags are written into the caller's memory, in order, as far as it has places.
// Where more rows than the limit wait for their places in the order of keys, one is brought in first.
pub(crate) fn put_settled(
    store: &mut ShardStore<'_>,
    limits: Limits,
    table: u8,
    key: &[u8],
    value: &[u8],
    tag: u32,
    evicted: &mut [u32],
) -> PutAnswer
    // A row of any size, with no guard standing.
    requires table { table < tables }
    requires key { IsKey key.now }
    requires value { length value.now ≤ greatest_value }
    requires unguarded { IsUnguarded store.old }
    requires limits { (limits.room ≡ store.old.room) × (1 ≤ limits.room) × (limits.room < 2 ^ 32) }

    // What it does, answers and tells.
    ensures put { WritesPut limits.room (min limits.bound (pressure store.old.pages store.old.lent store.old.regions))
        (in_table table key.now) (apply.put (in_table table key.now) value.now tag) (reply_of result.put) result.evicted
        store.old.rows store.new.rows evicted.old evicted.new }
    ensures low { live store.new.rows ≤ limits.bound + size key.now value.now }

    // Nothing is lent.
    ensures same { IsSameStore store.old store.new }
    ensures taken { TakesBack store.old store.new }
{
    store.settle_above(limits.waiting);
    put_written(store, limits, table, key, value, tag, evicted)
}

// The same, where none is brought in.
fn put_written(
    store: &mut ShardStore<'_>,
    limits: Limits,
    table: u8,
    key: &[u8],
    value: &[u8],
    tag: u32,
    evicted: &mut [u32],
) -> PutAnswer
    // A row of any size, with no guard standing.
    requires table { table < tables }
    requires key { IsKey key.now }
    requires value { length value.now ≤ greatest_value }
    requires unguarded { IsUnguarded store.old }
    requires limits { (limits.room ≡ store.old.room) × (1 ≤ limits.room) × (limits.room < 2 ^ 32) }

    // What it does, answers and tells.
    ensures put { WritesPut limits.room (min limits.bound (pressure store.old.pages store.old.lent store.old.regions))
        (in_table table key.now) (apply.put (in_table table key.now) value.now tag) (reply_of result.put) result.evicted
        store.old.rows store.new.rows evicted.old evicted.new }
    ensures low { live store.new.rows ≤ limits.bound + size key.now value.now }

    // Nothing is lent.
    ensures same { IsSameStore store.old store.new }
    ensures taken { TakesBack store.old store.new }
{
    store.facts();
    let mut evictions = EvictedTags::new(evicted);
    let put = put_told(store, limits, table, key, value, tag, &mut evictions);
    let count = (evictions.told as u64).saturating_add(evictions.missed);
    PutAnswer {
        put,
        evicted: count,
    }
}

// The same, where whoever calls is told of each row.
fn put_told<E: Evictions>(
    store: &mut ShardStore<'_>,
    limits: Limits,
    table: u8,
    key: &[u8],
    value: &[u8],
    tag: u32,
    evictions: &mut E,
) -> Put
    // A row of any size, with no guard standing.
    requires table { table < tables }
    requires key { IsKey key.now }
    requires value { length value.now ≤ greatest_value }
    requires unguarded { IsUnguarded store.old }

    // Each row may be told.
    requires limits { (limits.room ≡ store.old.room) × (1 ≤ limits.room) }
    requires told { length store.old.rows ≤ E.room evictions.old }

    // What it does, answers and tells.
    ensures put { HasPut E.tells limits.room (min limits.bound (pressure store.old.pages store.old.lent store.old.regions))
        (in_table table key.now) (apply.put (in_table table key.now) value.now tag) (reply_of result)
        store.old.rows store.new.rows evictions.old evictions.new }
    ensures low { live store.new.rows ≤ limits.bound + size key.now value.now }

    // Nothing is lent.
    ensures same { IsSameStore store.old store.new }
    ensures taken { TakesBack store.old store.new }
{
    spare_place(store, limits.room, table, key, evictions);
    shed(store, limits.bound, evictions);
    store.put(table, key, value, tag, evictions)
}

// Where the tables are full and no row has the key, the row that was used longest ago goes, and is told.
fn spare_place<E: Evictions>(
    store: &mut ShardStore<'_>,
    room: u32,
    table: u8,
    key: &[u8],
    evictions: &mut E,
)
    requires table { table < tables }
    requires unguarded { IsUnguarded store.old }
    requires room { (room ≡ store.old.room) × (1 ≤ room) }
    requires told { length store.old.rows ≤ E.room evictions.old }

    // What went, and that there is a place.
    ensures spared { HasSpared E.tells room (in_table table key.now) store.old.rows store.new.rows evictions.old evictions.new }
    ensures place { (apply.has (in_table table key.now) store.new.rows ≡ true) ⊎ (length store.new.rows < room) }
    ensures few { length store.new.rows ≤ room }
    ensures told { length store.new.rows ≤ E.room evictions.new }

    // Nothing else has changed.
    ensures same { IsSameStore store.old store.new }
    ensures tickets { KeepsTickets store.old store.new }
{
    store.facts();
    if has_place(store, room, table, key) {
        return;
    }
    store.evict_last(evictions);
}

// Whether a row has the key, or there is room for one more.
fn has_place(store: &ShardStore<'_>, room: u32, table: u8, key: &[u8]) -> bool
    requires { table < tables }
    ensures place { result ≡ true → (apply.has (in_table table key.now) store.now.rows ≡ true) ⊎ (length store.now.rows < room) }
    ensures full { result ≡ false → (apply.has (in_table table key.now) store.now.rows ≡ false) × (room ≤ length store.now.rows) }
{
    if !is_full(store, room) {
        return true;
    }
    store.place_of(table, key).is_some()
}

// Whether there is no room for one row more.
fn is_full(store: &ShardStore<'_>, room: u32) -> bool
    ensures full { result ≡ true → room ≤ length store.now.rows }
    ensures free { result ≡ false → length store.now.rows < room }
{
    store.rows() >= room
}

// The rows that were used longest ago go, one by one, while more bytes are live than the bound. Each is told.
fn shed<E: Evictions>(store: &mut ShardStore<'_>, bound: u64, evictions: &mut E)
    requires unguarded { IsUnguarded store.old }
    requires told { length store.old.rows ≤ E.room evictions.old }

    // What went, and that no more bytes are live than the bound.
    ensures shed { HasShed E.tells bound store.old.rows store.new.rows evictions.old evictions.new }
    ensures low { live store.new.rows ≤ bound }
    ensures told { length store.new.rows ≤ E.room evictions.new }

    // Nothing else has changed.
    ensures same { IsSameStore store.old store.new }
    ensures tickets { KeepsTickets store.old store.new }
{
    'shedding: while is_above(store, bound) {
        store.evict_last(evictions);
    }
}

// Whether more bytes are live than the bound.
fn is_above(store: &ShardStore<'_>, bound: u64) -> bool
    ensures above { result ≡ true → bound < live store.now.rows }
    ensures low { result ≡ false → live store.now.rows ≤ bound }
{
    store.live() > bound
}

// The two pieces one behind the other, in memory that is reserved for them.
pub(crate) fn join(into: &mut Vec<u8>, first: &[u8], second: &[u8])
    requires { length first.now + length second.now ≤ vec_capacity into.old }
    ensures joined { into.new.items ≡ first.now ++ second.now }
    ensures capacity { vec_capacity into.old ≤ vec_capacity into.new }
{
    into.clear();
    append(into, first);
    append(into, second);
}

fn append(into: &mut Vec<u8>, bytes: &[u8])
    requires { vec_len into.old + length bytes.now ≤ vec_capacity into.old }
    ensures items { into.new.items ≡ into.old.items ++ bytes.now }
    ensures len { vec_len into.new ≡ vec_len into.old + length bytes.now }
    ensures capacity { vec_capacity into.old ≤ vec_capacity into.new }
{
    into.extend_from_slice(bytes).unwrap();
}
