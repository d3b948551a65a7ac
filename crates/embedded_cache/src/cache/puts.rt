//! Rows that are stored, in one piece or in two.
ghost use Rattle.std.specs.Prelude.{◌+◌, ◌<◌, ◌≤◌, ◌++◌, length};
ghost use Rattle.layout.specs.Sizes.{greatest_value, tables};
ghost use Rattle.rows.specs.Key.{in_table};
ghost use Rattle.rows.specs.Row.{live, size};
ghost use Rattle.rows.specs.Spelled.{IsKey};
ghost use Rattle.shard_store.specs.Lending.{TakesBack};
ghost use Rattle.embedded_cache.specs.Puts.{Puts};
ghost use Rattle.embedded_cache.specs.States.{IsUnguarded};

use super::Cache;
use crate::put_answer::PutAnswer;
use crate::storing::{join, put_settled};

impl<'f> Cache<'f> {
    /// Stores a row of a table, 0 to 7, in front of the others; no other row has its key in the table afterwards. It always stores.
    /// The rows that were used longest ago go, of whatever table: one where there is no place in the tables, and then each while
    /// more bytes are live than the bound. Their tags are written to the front of `evicted`, in order, as far as it has places; the
    /// answer says how many went in all.
    pub fn put(
        &mut self,
        table: u8,
        key: &[u8],
        value: &[u8],
        tag: u32,
        evicted: &mut [u32],
    ) -> PutAnswer
        // A row of any size, with no guard standing.
        requires table { table < tables }
        requires key { IsKey key.now }
        requires value { length value.now ≤ greatest_value }
        requires unguarded { IsUnguarded self.old }

        // What it does, answers and tells.
        ensures put { Puts (in_table table key.now) value.now tag result evicted.old evicted.new self.old self.new }
        ensures low { live self.new.store.rows ≤ self.old.bound + size key.now value.now }

        // Blocks may have come home.
        ensures taken { TakesBack self.old.store self.new.store }
    {
        let answer = put_settled(
            &mut self.store,
            self.limits,
            table,
            key,
            value,
            tag,
            evicted,
        );
        self.evictions = self.evictions.saturating_add(answer.evicted);
        answer
    }

    /// The same, where the value comes in two pieces, the second one behind the first.
    pub fn put_pieces(
        &mut self,
        table: u8,
        key: &[u8],
        first: &[u8],
        second: &[u8],
        tag: u32,
        evicted: &mut [u32],
    ) -> PutAnswer
        // A row of any size, with no guard standing.
        requires table { table < tables }
        requires key { IsKey key.now }
        requires value { length first.now + length second.now ≤ greatest_value }
        requires unguarded { IsUnguarded self.old }

        // What it does, answers and tells.
        ensures put { Puts (in_table table key.now) (first.now ++ second.now) tag result evicted.old evicted.new self.old self.new }
        ensures low { live self.new.store.rows ≤ self.old.bound + size key.now (first.now ++ second.now) }

        // Blocks may have come home.
        ensures taken { TakesBack self.old.store self.new.store }
    {
        join(&mut self.joined, first, second);
        let answer = put_settled(
            &mut self.store,
            self.limits,
            table,
            key,
            self.joined.as_slice(),
            tag,
            evicted,
        );
        self.evictions = self.evictions.saturating_add(answer.evicted);
        answer
    }
}
