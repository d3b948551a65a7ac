//! A look-up that makes the row the one used last.
ghost use Rattle.std.specs.Prelude.{◌≡◌, ◌<◌, Some, None, MatchOption};
ghost use Rattle.layout.specs.Sizes.{tables};
ghost use Rattle.rows.specs.Key.{in_table};
ghost use Rattle.rows.specs.Row.{Row};
ghost use Rattle.rows.specs.Apply as apply;
ghost use Rattle.row_cache.specs.Rows.{AreRelinked};
ghost use Rattle.shard_store.specs.Stores.{with_rows, IsUnguarded};

use super::ShardStore;

impl<'f> ShardStore<'f> {
    ghost use Rattle.std.specs.Borrow.{sem};
    ghost use Rattle.shard_store.specs.Lends.{EndsAs};

    /// The row of a table's key, which is the row used last from now on: the number of the put that stored it, and its value. None
    /// where no row has the key there.
    pub fn get(&mut self, table: u8, key: &[u8]) -> Option<(&[u8], u32)>
        requires table { table < tables }
        requires unguarded { IsUnguarded self.old }
        ensures row { MatchOption result (apply.row_of (in_table table key.now) self.old.rows ≡ None)
            (λ found. (row : Row) × (apply.row_of (in_table table key.now) self.old.rows ≡ Some row)
            × (found.0.now ≡ row.value) × (found.1 ≡ row.number)) }
        ensures* after { sem 𝓛 (EndsAs self.entry (λ s.
            (s ≡ record (with_rows self.old (apply.get (in_table table key.now) self.old.rows).0) {
              region = s.region;
            }) × AreRelinked self.old.region s.region)) }
    {
        self.cache.get_numbered(table, key)
    }
}
