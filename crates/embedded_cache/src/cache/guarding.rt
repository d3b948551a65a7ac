//! Guards, under which rows stay where they are, and compaction, which moves them.
ghost use Rattle.std.specs.Prelude.{◌≡◌, ◌↔◌, ◌+◌, ◌-◌, ◌<◌, ◌≤◌, false};
ghost use Rattle.layout.specs.Sizes.{tables};
ghost use Rattle.regions.specs.Shapes.{guards_of, most_guards};
ghost use Rattle.shard_store.specs.Stores.{KeepsTickets, group_for, with_guards};
ghost use Rattle.embedded_cache.specs.States.{CountsNone, IsSameCache, IsUnguarded};

use super::Cache;
use shard_store::Compacted;

impl<'f> Cache<'f> {
    /// One guard more on the segments in which the rows of a table, 0 to 7, stand. While one stands, no row of them is moved, and no
    /// byte of one that went is used again. Guards nest.
    pub fn guard(&mut self, table: u8)
        requires table { table < tables }
        requires few { guards_of self.old.store.region (group_for self.old.store table) < most_guards }
        ensures guards { self.new.store ≡ with_guards self.old.store (group_for self.old.store table)
            (guards_of self.old.store.region (group_for self.old.store table) + 1) }
        ensures bound { self.new.bound ≡ self.old.bound }
        ensures counts { CountsNone self.old self.new }
    {
        self.store.guard(table);
    }

    /// One guard less on the segments in which the rows of a table stand.
    pub fn unguard(&mut self, table: u8)
        requires table { table < tables }
        requires some { 1 ≤ guards_of self.old.store.region (group_for self.old.store table) }
        ensures guards { self.new.store ≡ with_guards self.old.store (group_for self.old.store table)
            (guards_of self.old.store.region (group_for self.old.store table) - 1) }
        ensures bound { self.new.bound ≡ self.old.bound }
        ensures counts { CountsNone self.old self.new }
    {
        self.store.unguard(table);
    }

    /// How many guards stand on the segments in which the rows of a table stand.
    pub fn guards(&self, table: u8) -> u32
        ensures { result ≡ guards_of self.now.store.region (group_for self.now.store table) }
    {
        self.store.guards(table)
    }

    /// Whether a guard of any table stands.
    pub fn is_guarded(&self) -> bool
        ensures { result ≡ false ↔ IsUnguarded self.now }
    {
        self.store.is_guarded()
    }

    /// Empties segments until two are free, or nothing is left to compact. No row goes. `Guarded` where a guard stands; then nothing
    /// changed.
    pub fn compact(&mut self) -> Compacted
        ensures guarded { result ≡ Compacted.Guarded ↔ ¬ IsUnguarded self.old }
        ensures unchanged { result ≡ Compacted.Guarded → self.new ≡ self.old }
        ensures rows { self.new.store.rows ≡ self.old.store.rows }
        ensures same { IsSameCache self.old self.new }
        ensures tickets { KeepsTickets self.old.store self.new.store }
        ensures counts { CountsNone self.old self.new }
    {
        self.store.compact()
    }
}
