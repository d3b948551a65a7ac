//! Values that are lent, and blocks that come home.
ghost use Rattle.std.specs.Prelude.{◌≡◌, ◌↔◌, ◌+◌, ◌<◌, ◌≤◌, IfNone, IfSome, IsNone};
ghost use Rattle.layout.specs.Sizes as sizes;
ghost use Rattle.rows.specs.Key.{in_table};
ghost use Rattle.shard_memory.specs.Tickets.{HasIdle, tickets_out};
ghost use Rattle.shard_store.specs.Lending.{LooksOnce, TakesBack};
ghost use Rattle.embedded_cache.specs.Lendings.{LendsValue};
ghost use Rattle.embedded_cache.specs.States.{IsUnguarded};

use super::Cache;
use crate::lending::lend_written;
use crate::lent::Lent;
use shard_store::Share;

impl<'f> Cache<'f> {
    /// Lends a block with room for a head of so many bytes in front and, behind it, the value that the row of a table's key has once
    /// the block is made. The row is the one used last from now on. Where there is no room for the block otherwise, the rows that
    /// were used longest ago go, of whatever table; their tags are written as a put writes them. What stands in the head is not said.
    /// None where no ticket of the share is idle; then nothing changed.
    pub fn lend(
        &mut self,
        table: u8,
        key: &[u8],
        head: u32,
        share: Share,
        evicted: &mut [u32],
    ) -> Option<Lent<'f>>
        // A block that may be lent, with no guard standing.
        requires table { table < sizes.tables }
        requires head { 1 ≤ head }
        requires most { head + sizes.greatest_value ≤ sizes.greatest_block }
        requires unguarded { IsUnguarded self.old }

        // Without an idle ticket nothing happens.
        ensures none { IsNone result ↔ ¬ HasIdle self.old.store.lent share }
        ensures unchanged { IfNone result ((self.new ≡ self.old) × (evicted.new ≡ evicted.old)) }

        // What is lent, and what was told.
        ensures lends { IfSome result (λ lent. LendsValue (in_table table key.now) head share lent evicted.old evicted.new
            self.old self.new) }
    {
        if !self.store.is_idle(share) {
            return None;
        }
        let lent = lend_written(&mut self.store, table, key, head, share, evicted);
        self.evictions = self.evictions.saturating_add(lent.evicted);
        Some(lent)
    }

    /// Takes back each lent block that was released, by one look at the list, which is left alone where none is out. Answers how
    /// many came home.
    pub fn take_back(&mut self) -> u32
        ensures taken { TakesBack self.old.store self.new.store }
        ensures count { tickets_out self.new.store.lent + result ≡ tickets_out self.old.store.lent }
        ensures looked { LooksOnce self.old.store self.new.store }
        ensures same { self.new ≡ record self.old {
          store = record self.old.store {
            lent = self.new.store.lent;
            backs = self.new.store.backs;
            looks = self.new.store.looks;
            free = self.new.store.free;
          };
        } }
    {
        self.store.take_back()
    }

    /// How many blocks are lent and have not come home.
    pub fn blocks_out(&self) -> u32
        ensures { result ≡ tickets_out self.now.store.lent }
    {
        self.store.tickets_out()
    }
}
