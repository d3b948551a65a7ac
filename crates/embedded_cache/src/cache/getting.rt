//! Look-ups: one that makes the row the one used last, and one that leaves it where it is.
ghost use Rattle.std.specs.Prelude.{◌≡◌, ◌<◌, Some, None, MatchOption};
ghost use Rattle.layout.specs.Counts.{counted};
ghost use Rattle.layout.specs.Sizes.{tables};
ghost use Rattle.rows.specs.Key.{in_table};
ghost use Rattle.rows.specs.Row.{Row};
ghost use Rattle.rows.specs.Apply as apply;
ghost use Rattle.shard_store.specs.Stores.{KeepsTickets};
ghost use Rattle.embedded_cache.specs.Puts.{hits_after};
ghost use Rattle.embedded_cache.specs.States.{IsSameCache, IsUnguarded};

use super::Cache;

impl<'f> Cache<'f> {
    ghost use Rattle.std.specs.Borrow.{sem};
    ghost use Rattle.embedded_cache.specs.Lends.{EndsAs};

    /// The value of the row of a table's key, and the tag that its put gave it. The row is the one used last from now on. None where
    /// no row has the key there.
    pub fn get(&mut self, table: u8, key: &[u8]) -> Option<(&[u8], u32)>
        requires table { table < tables }
        requires unguarded { IsUnguarded self.old }
        ensures value { MatchOption result (apply.row_of (in_table table key.now) self.old.store.rows ≡ None)
            (λ found. (row : Row) × (apply.row_of (in_table table key.now) self.old.store.rows ≡ Some row)
            × (found.0.now ≡ row.value) × (found.1 ≡ row.number)) }
        ensures* after { sem 𝓛 (EndsAs self.entry (λ c.
            (c.store.rows ≡ (apply.get (in_table table key.now) self.old.store.rows).0) × IsSameCache self.old c
            × KeepsTickets self.old.store c.store × (c.evictions ≡ self.old.evictions) × (c.gets ≡ counted self.old.gets)
            × (c.hits ≡ hits_after (apply.row_of (in_table table key.now) self.old.store.rows) self.old.hits))) }
    {
        self.gets = self.gets.saturating_add(1);
        let place = self.store.touch(table, key)?;
        self.hits = self.hits.saturating_add(1);
        Some(self.store.row_at(place))
    }

    /// The same, where the row is used no more than before and nothing is counted. It may be called under a guard, and what it
    /// answers stays where it is as long as one of the table stands.
    pub fn peek(&self, table: u8, key: &[u8]) -> Option<(&[u8], u32)>
        requires { table < tables }
        ensures { MatchOption result (apply.row_of (in_table table key.now) self.now.store.rows ≡ None)
            (λ found. (row : Row) × (apply.row_of (in_table table key.now) self.now.store.rows ≡ Some row)
            × (found.0.now ≡ row.value) × (found.1 ≡ row.number)) }
    {
        let place = self.store.place_of(table, key)?;
        Some(self.store.row_at(place))
    }
}
