//! Rows that are used, patched, and go when the owner says so; and compaction.
ghost use Rattle.std.specs.Prelude.{◌≡◌, ◌↔◌, ℕ, ◌+◌, ◌-◌, ◌<◌, ◌≤◌, length, take, true, Some, None, IsSome, MatchOption};
ghost use Rattle.std.specs.List.{last_or};
ghost use Rattle.layout.specs.Sizes.{tables};
ghost use Rattle.rows.specs.Key.{in_table};
ghost use Rattle.rows.specs.Row.{Row, is_of_put};
ghost use Rattle.rows.specs.Apply as apply;
ghost use Rattle.row_bytes.specs.Patches.{patch};
ghost use Rattle.regions.specs.Contents.{live_at};
ghost use Rattle.row_cache.specs.Rows.{AreRelinked, StandsAt};
ghost use Rattle.shard_store.specs.Stores.{IsSameStore, IsUnguarded, KeepsTickets};

use super::ShardStore;
use crate::evicting::evict;
use regions::Place;
use row_cache::Compacted;
use rows::Evictions;

impl<'f> ShardStore<'f> {
    /// Makes the row of a table's key the one used last, and tells where it stands. None where no row has the key there.
    pub fn touch(&mut self, table: u8, key: &[u8]) -> Option<Place>
        requires table { table < tables }
        requires unguarded { IsUnguarded self.old }

        // Where it stands now.
        ensures found { MatchOption result (apply.row_of (in_table table key.now) self.old.rows ≡ None)
            (λ place. (row : Row) × (apply.row_of (in_table table key.now) self.old.rows ≡ Some row)
            × StandsAt self.new.region place row × IsSome (live_at self.new.region place)) }
        ensures rows { self.new.rows ≡ (apply.get (in_table table key.now) self.old.rows).0 }

        // Nothing else has changed but links of rows.
        ensures relinked { AreRelinked self.old.region self.new.region }
        ensures same { IsSameStore self.old self.new }
        ensures tickets { KeepsTickets self.old self.new }
    {
        self.cache.touch(table, key)
    }

    /// Writes bytes over those of the value of a table's key from `at` on, which has so many, where the row stands: no row goes for
    /// it. The row keeps its tag, and is the one used last from now on.
    pub fn patch(&mut self, table: u8, key: &[u8], at: usize, bytes: &[u8])
        requires table { table < tables }
        requires unguarded { IsUnguarded self.old }
        requires fits { (row : Row) × (apply.row_of (in_table table key.now) self.old.rows ≡ Some row)
            × (at + length bytes.now ≤ length row.value) }

        // The row has the bytes, and nothing else has changed.
        ensures rows { self.new.rows ≡ patch (in_table table key.now) at bytes.now self.old.rows }
        ensures same { IsSameStore self.old self.new }
        ensures tickets { KeepsTickets self.old self.new }
    {
        self.cache.patch(table, key, at, bytes);
    }

    /// The row that was used longest ago, of whatever table, goes, and is told.
    pub fn evict_last<E: Evictions>(&mut self, evictions: &mut E)
        requires some { 1 ≤ length self.old.rows }
        requires unguarded { IsUnguarded self.old }
        requires told { 1 ≤ E.room evictions.old }

        // Which row went, and was told.
        ensures evicted { (tag : ℕ) × (is_of_put tag (last_or None self.old.rows) ≡ true)
            × E.tells evictions.old tag evictions.new }
        ensures spare { E.room evictions.old ≤ E.room evictions.new + 1 }

        // The others stay, and nothing else has changed.
        ensures rows { self.new.rows ≡ take (length self.old.rows - 1) self.old.rows }
        ensures one_less { length self.new.rows + 1 ≡ length self.old.rows }
        ensures same { IsSameStore self.old self.new }
        ensures tickets { KeepsTickets self.old self.new }
    {
        evict(&mut self.cache, evictions);
    }

    /// Empties segments one after the other until two are free, or nothing is left to compact, as a put does before it evicts. No
    /// row goes. `Guarded` where a guard stands; then nothing changed.
    pub fn compact(&mut self) -> Compacted
        ensures guarded { result ≡ Compacted.Guarded ↔ ¬ IsUnguarded self.old }
        ensures unchanged { result ≡ Compacted.Guarded → self.new ≡ self.old }
        ensures rows { self.new.rows ≡ self.old.rows }
        ensures same { IsSameStore self.old self.new }
        ensures tickets { KeepsTickets self.old self.new }
    {
        self.cache.compact()
    }
}
