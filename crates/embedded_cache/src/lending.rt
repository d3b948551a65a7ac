//! How a value is lent, behind the rows that go for its block.
ghost use Rattle.std.specs.Prelude.{◌+◌, ◌^◌, ◌<◌, ◌≤◌};
ghost use Rattle.layout.specs.Sizes as sizes;
ghost use Rattle.rows.specs.Key.{in_table};
ghost use Rattle.shard_memory.specs.Tickets.{HasIdle};
ghost use Rattle.shard_store.specs.Stores.{IsUnguarded};
ghost use Rattle.embedded_cache.specs.Lendings.{LendsFound};

use crate::lent::Lent;
use shard_store::{EvictedTags, ShardStore, Share};

// Lends a block with a value behind its head. The tags of the rows that go for it are written into the caller's memory, in order,
// as far as it has places.
pub(crate) fn lend_written<'f>(
    store: &mut ShardStore<'f>,
    table: u8,
    key: &[u8],
    head: u32,
    share: Share,
    evicted: &mut [u32],
) -> Lent<'f>
    // A block that may be lent, with no guard standing.
    requires table { table < sizes.tables }
    requires head { 1 ≤ head }
    requires most { head + sizes.greatest_value ≤ sizes.greatest_block }
    requires idle { HasIdle store.old.lent share }
    requires unguarded { IsUnguarded store.old }
    requires room { store.old.room < 2 ^ 32 }

    // What is lent, and what was told.
    ensures { LendsFound (in_table table key.now) head share result.block result.len result.evicted evicted.old evicted.new
        store.old store.new }
{
    store.facts();
    let mut evictions = EvictedTags::new(evicted);
    let (block, len) = store.lend_value(table, key, head, share, &mut evictions);
    let count = (evictions.told as u64).saturating_add(evictions.missed);
    Lent {
        block,
        len,
        evicted: count,
    }
}
