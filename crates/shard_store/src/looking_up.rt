//! Look-ups whose answer goes behind the head of a block.
ghost use Rattle.std.specs.Prelude.{◌≡◌, ℕ, ◌+◌, ◌*◌, ◌<◌, ◌≤◌, length, take, drop, Some, IfSome};
ghost use Rattle.layout.specs.Sizes as sizes;
ghost use Rattle.rows.specs.Apply as apply;
ghost use Rattle.rows.specs.Key.{in_table};
ghost use Rattle.rows.specs.KeyBody.{AreKeys};
ghost use Rattle.regions.specs.Shapes.{shape, IsUnguarded};
ghost use Rattle.row_cache.specs.Rows.{rows_of};
ghost use Rattle.shard_memory.specs.Shards.{MemoryState};
ghost use Rattle.shard_store.specs.Lending.{found_in, value_length};
ghost use Rattle.shard_store.specs.inside.Consistent.{IsConsistent};

use row_cache::{RowCache, Scanned};

// The length of the value of the row of a table's key, 0 where no row has the key there.
pub(crate) fn length_found(cache: &RowCache, table: u8, key: &[u8]) -> u32
    requires table { table < sizes.tables }
    ensures value { result ≡ value_length (apply.row_of (in_table table key.now) (rows_of cache.now)) }
    ensures short { result ≤ sizes.greatest_value }
{
    match cache.find_len(table, key) {
        Some(len) => len,
        None => 0,
    }
}

// Looks a row up, under a guard of its table's group, and writes its value behind the head; it is the one used last from now on.
// None where no row of the table has the key.
pub(crate) fn write_found(
    cache: &mut RowCache,
    table: u8,
    key: &[u8],
    head: u32,
    into: &mut [u8],
) -> Option<u32>
    requires table { table < sizes.tables }
    requires unguarded { IsUnguarded cache.old.region }
    requires room { head + value_length (apply.row_of (in_table table key.now) (rows_of cache.old)) ≤ length into.old }
    requires short { value_length (apply.row_of (in_table table key.now) (rows_of cache.old)) ≤ sizes.greatest_value }

    // What it finds and does.
    ensures found { found_in result (drop head into.new) ≡ (apply.get (in_table table key.now) (rows_of cache.old)).1 }
    ensures within { IfSome result (λ len. head + len ≤ length into.old) }
    ensures short { IfSome result (λ len. len ≤ sizes.greatest_value) }
    ensures rows { rows_of cache.new ≡ (apply.get (in_table table key.now) (rows_of cache.old)).0 }

    // Nothing in the segments changed but links.
    ensures consistent { (shard pages regions : ℕ) (memory : MemoryState) → IsConsistent shard pages regions memory cache.old.region
        → IsConsistent shard pages regions memory cache.new.region }
    ensures unguarded { IsUnguarded cache.new.region }
    ensures tables { cache.new.room ≡ cache.old.room }
{
    let group = cache.group_of(table);
    cache.guard(group);
    let found = copy_value(cache, table, key, &mut into[head as usize..]);
    cache.unguard(group);
    found
}

// Copies the value that is found, which is the one used last from now on.
fn copy_value(cache: &mut RowCache, table: u8, key: &[u8], into: &mut [u8]) -> Option<u32>
    requires table { table < sizes.tables }
    requires room { value_length (apply.row_of (in_table table key.now) (rows_of cache.old)) ≤ length into.old }
    requires short { value_length (apply.row_of (in_table table key.now) (rows_of cache.old)) ≤ sizes.greatest_value }
    ensures found { found_in result into.new ≡ (apply.get (in_table table key.now) (rows_of cache.old)).1 }
    ensures within { IfSome result (λ len. len ≤ length into.old) }
    ensures short { IfSome result (λ len. len ≤ sizes.greatest_value) }
    ensures rows { rows_of cache.new ≡ (apply.get (in_table table key.now) (rows_of cache.old)).0 }
    ensures shape { shape cache.new.region ≡ shape cache.old.region }
    ensures tables { cache.new.room ≡ cache.old.room }
{
    match cache.get(table, key) {
        Some(value) => Some(write_front(into, value)),
        None => None,
    }
}

// Writes a value over the first bytes, and answers how many these are.
fn write_front(into: &mut [u8], value: &[u8]) -> u32
    requires short { length value.now ≤ sizes.greatest_value }
    requires room { length value.now ≤ length into.old }
    ensures len { result ≡ length value.now }
    ensures written { take result into.new ≡ value.now }
{
    into[..value.len()].copy_from_slice(value);
    value.len() as u32
}

// Looks keys of a table up, and writes them behind the head.
pub(crate) fn write_keys(
    cache: &mut RowCache,
    table: u8,
    from: &[u8],
    count: u32,
    head: u32,
    into: &mut [u8],
) -> Scanned
    requires table { table < sizes.tables }
    requires some { 1 ≤ count }
    requires most { count ≤ sizes.most_keys }
    requires room { head + sizes.key_room * count ≤ length into.old }
    ensures count { result.keys ≡ length (apply.scanned (in_table table from.now) count (rows_of cache.old)) }
    ensures keys { AreKeys (take result.bytes (drop head into.new)) (apply.scanned (in_table table from.now) count (rows_of cache.old)) }
    ensures within { head + result.bytes ≤ length into.old }
    ensures unchanged { cache.new ≡ cache.old }
{
    cache.scan(table, from, count, &mut into[head as usize..])
}
