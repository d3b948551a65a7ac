//! The blocks that a store lends, and the guards under which places stay.
ghost use Rattle.std.specs.Prelude.{◌≡◌, ◌≢◌, ◌⊎◌, ◌↔◌, ℕ, false, ◌+◌, ◌-◌, ◌^◌, ◌<◌, ◌≤◌, length, replicate, Some, None, IfOk, IfErr, IfSome, IfNone, IsSome, IsNone, IsTrue, MatchOption};
ghost use Rattle.layout.specs.Sizes.{greatest_block, tables, tickets};
ghost use Rattle.rows.specs.Key.{in_table};
ghost use Rattle.rows.specs.Row.{Row};
ghost use Rattle.rows.specs.Apply as apply;
ghost use Rattle.regions.specs.Contents.{live_at};
ghost use Rattle.regions.specs.Shapes.{group_count, group_of, guards_at, guards_of, most_guards};
ghost use Rattle.row_cache.specs.Rows.{StandsAt};
ghost use Rattle.layout.specs.Counts.{raised};
ghost use Rattle.shard_memory.specs.Tickets.{HasIdle, tickets_out};
ghost use Rattle.shard_store.specs.Stores.{IsSameStore, IsUnguarded, RowsStay, group_for, with_guards};
ghost use Rattle.shard_store.specs.Works.{EvictsForBlock, floor_of, pressure};
ghost use Rattle.shard_store.specs.Lending.{TakesBack, LooksOnce, LendsBlock, RefusesNow, GivesNow};

use super::ShardStore;
use crate::giving::{find_block, give_now};
use foreign_list::ForeignBlock;
use regions::Place;
use rows::Evictions;
use shard_memory::{GiveRefusal, Share};

impl<'f> ShardStore<'f> {
    /// What holds of a store at each time.
    pub fn facts(&self)
        ensures owner { self.now.shard ≡ self.now.list.owner }
        ensures rows { length self.now.rows ≤ self.now.room }
        ensures tickets { length self.now.lent ≡ tickets }
        ensures lends { self.now.lends ≡ raised self.now.backs (tickets_out self.now.lent) }
        ensures backs { self.now.backs < 2 ^ 64 }
        ensures regions { group_count self.now.region ≡ self.now.regions }
    {
        self.cache.rows();
    }

    /// Lends a block of so many bytes with an idle ticket of the share; what stands in it is not said. Where there is no room for it
    /// otherwise, the rows that were used longest ago go, one by one, and each is told.
    pub fn lend<E: Evictions>(
        &mut self,
        size: u32,
        share: Share,
        evictions: &mut E,
    ) -> ForeignBlock<'f>
        // A block that may be lent.
        requires some { 1 ≤ size }
        requires most { size ≤ greatest_block }
        requires idle { HasIdle self.old.lent share }

        // Unguarded, and each row may be told.
        requires unguarded { IsUnguarded self.old }
        requires told { length self.old.rows ≤ E.room evictions.old }

        // What is lent.
        ensures size { length result.piece.bytes ≡ size }
        ensures lends { LendsBlock share self.old self.new result }

        // Rows that went were told.
        ensures evicted { EvictsForBlock E.tells self.old self.new evictions.old evictions.new }

        // A put behind it evicts above the floor that there was before it.
        ensures floor { floor_of self.old.pages self.old.lent self.old.regions ≤ pressure self.new.pages self.new.lent self.new.regions }
    {
        let (memory, cache) = (&mut self.memory, &mut self.cache);
        find_block(memory, cache, size, share, evictions)
    }

    /// The same, where a ticket of the share may be idle or not.
    ///
    /// # Errors
    /// None exactly where no ticket of the share is idle. Nothing changed.
    pub fn try_lend<E: Evictions>(
        &mut self,
        size: u32,
        share: Share,
        evictions: &mut E,
    ) -> Option<ForeignBlock<'f>>
        // A block that may be lent.
        requires some { 1 ≤ size }
        requires most { size ≤ greatest_block }

        // Unguarded, and each row may be told.
        requires unguarded { IsUnguarded self.old }
        requires told { length self.old.rows ≤ E.room evictions.old }

        // Without an idle ticket nothing happens.
        ensures none { IsNone result ↔ ¬ HasIdle self.old.lent share }
        ensures unchanged { IfNone result ((self.new ≡ self.old) × (evictions.new ≡ evictions.old)) }

        // What is lent.
        ensures size { IfSome result (λ block. length block.piece.bytes ≡ size) }
        ensures lends { IfSome result (LendsBlock share self.old self.new) }

        // Rows that went were told.
        ensures evicted { IfSome result (λ _. EvictsForBlock E.tells self.old self.new evictions.old evictions.new) }
    {
        if !self.is_idle(share) {
            return None;
        }
        Some(self.lend(size, share, evictions))
    }

    /// Lends a block of so many bytes, all of them 0, with an idle ticket of the share. Where there is no room for it, lent blocks
    /// that were released come home first. Where there is none still, segments and blocks that are out are together as many as the
    /// pages make segments, and a segment goes back to them that is free besides the last one. Nothing is moved and no row goes, so
    /// it may be called under a guard.
    ///
    /// # Errors
    /// In this order: `TooLarge` exactly above 16,384 bytes, and `NoTicket` exactly where no ticket of the share is idle as the call
    /// begins; then nothing changed. `NoSpan` where there is no room after that, with the pools trimmed and one segment free at most.
    pub fn give_now(&mut self, size: u32, share: Share) -> Result<ForeignBlock<'f>, GiveRefusal>
        requires { 1 ≤ size }

        // No row moves or goes.
        ensures same { IsSameStore self.old self.new }
        ensures rows { self.new.rows ≡ self.old.rows }
        ensures stay { RowsStay self.old self.new }

        // Why none is given.
        ensures refused { IfErr result (RefusesNow self.old self.new size share) }
        ensures unchanged { IfErr result (λ refusal. refusal ≢ GiveRefusal.NoSpan → self.new ≡ self.old) }

        // What is lent, and how room was made.
        ensures in_turn { IfOk result (λ _. GivesNow size share self.old self.new) }
        ensures lends { IfOk result (LendsBlock share self.old self.new) }
        ensures zeros { IfOk result (λ block. block.piece.bytes ≡ replicate size 0) }
    {
        let (memory, cache) = (&mut self.memory, &mut self.cache);
        give_now(memory, cache, size, share)
    }

    /// Takes back each lent block that was released, by one look at the list, which is left alone where none is out. Answers how
    /// many came home.
    pub fn take_back(&mut self) -> u32
        ensures taken { TakesBack self.old self.new }
        ensures count { tickets_out self.new.lent + result ≡ tickets_out self.old.lent }
        ensures looked { LooksOnce self.old self.new }
        ensures same { self.new ≡ record self.old {
          lent = self.new.lent;
          backs = self.new.backs;
          looks = self.new.looks;
          free = self.new.free;
        } }
    {
        self.memory.take_back()
    }

    /// Whether a ticket of the share is idle, and how many tickets there are.
    pub fn is_idle(&self, share: Share) -> bool
        ensures idle { IsTrue result ↔ HasIdle self.now.lent share }
        ensures tickets { length self.now.lent ≡ tickets }
    {
        self.memory.is_idle(share)
    }

    /// How many tickets are not idle.
    pub fn tickets_out(&self) -> u32
        ensures { result ≡ tickets_out self.now.lent }
    {
        self.memory.tickets_out()
    }

    /// How many blocks were lent. It stands at the greatest u64.
    pub fn lent(&self) -> u64
        ensures { result ≡ self.now.lends }
    {
        self.memory.lent()
    }

    /// How many blocks came home. It stands at the greatest u64.
    pub fn back(&self) -> u64
        ensures { result ≡ self.now.backs }
    {
        self.memory.back()
    }

    /// One guard more on the group of a table, 0 to 7. While one stands, what stands at a place of the group's segments stays there.
    /// Guards nest.
    pub fn guard(&mut self, table: u8)
        requires table { table < tables }
        requires few { guards_of self.old.region (group_for self.old table) < most_guards }
        ensures guards { self.new ≡ with_guards self.old (group_for self.old table)
            (guards_of self.old.region (group_for self.old table) + 1) }
        ensures count { guards_of self.new.region (group_for self.old table)
            ≡ guards_of self.old.region (group_for self.old table) + 1 }
        ensures others { (g : ℕ) → g ≢ group_for self.old table → guards_of self.new.region g ≡ guards_of self.old.region g }
    {
        let group = self.cache.group_of(table);
        self.cache.guard(group);
    }

    /// One guard less on the group of a table.
    pub fn unguard(&mut self, table: u8)
        requires table { table < tables }
        requires some { 1 ≤ guards_of self.old.region (group_for self.old table) }
        ensures guards { self.new ≡ with_guards self.old (group_for self.old table)
            (guards_of self.old.region (group_for self.old table) - 1) }
        ensures count { guards_of self.new.region (group_for self.old table) + 1
            ≡ guards_of self.old.region (group_for self.old table) }
        ensures others { (g : ℕ) → g ≢ group_for self.old table → guards_of self.new.region g ≡ guards_of self.old.region g }
    {
        let group = self.cache.group_of(table);
        self.cache.unguard(group);
    }

    /// How many guards stand on the group of a table, 0 to 7.
    pub fn guards(&self, table: u8) -> u32
        ensures { result ≡ guards_of self.now.region (group_for self.now table) }
    {
        let group = self.cache.group_of(table);
        self.cache.guards(group)
    }

    /// Whether a guard stands on any group.
    pub fn is_guarded(&self) -> bool
        ensures { result ≡ false ↔ IsUnguarded self.now }
    {
        self.cache.is_guarded()
    }

    /// Where the row of a table's key stands: in a segment of the table's group. None where no row has the key there.
    pub fn place_of(&self, table: u8, key: &[u8]) -> Option<Place>
        requires table { table < tables }
        ensures found { MatchOption result (apply.row_of (in_table table key.now) self.now.rows ≡ None)
            (λ place. (row : Row) × (apply.row_of (in_table table key.now) self.now.rows ≡ Some row)
            × StandsAt self.now.region place row × IsSome (live_at self.now.region place)) }
        ensures group { IfSome result (λ place. group_of self.now.region place.segment ≡ Some (group_for self.now table)) }
    {
        self.cache.place_of(table, key)
    }

    /// The value of the row at a place, live, or dead under a guard of its segment's group.
    pub fn value_at(&self, place: Place) -> &[u8]
        requires row { (row : Row) × StandsAt self.now.region place row }
        requires live { IsSome (live_at self.now.region place) ⊎ (1 ≤ guards_at self.now.region place.segment) }
        ensures { (row : Row) × StandsAt self.now.region place row × (result.now ≡ row.value) }
    {
        self.cache.value_at(place)
    }

    /// The same, and the tag that the put of the row gave it.
    pub fn row_at(&self, place: Place) -> (&[u8], u32)
        requires row { (row : Row) × StandsAt self.now.region place row }
        requires live { IsSome (live_at self.now.region place) ⊎ (1 ≤ guards_at self.now.region place.segment) }
        ensures { (row : Row) × StandsAt self.now.region place row × (result.0.now ≡ row.value) × (result.1 ≡ row.number) }
    {
        self.cache.row_at(place)
    }
}
