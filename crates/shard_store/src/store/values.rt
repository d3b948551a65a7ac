//! Blocks that are lent with what was looked up.
ghost use Rattle.std.specs.Prelude.{◌≡◌, ◌+◌, ◌*◌, ◌<◌, ◌≤◌, length, take, drop, IfSome};
ghost use Rattle.layout.specs.Sizes as sizes;
ghost use Rattle.rows.specs.Apply as apply;
ghost use Rattle.rows.specs.Key.{in_table};
ghost use Rattle.rows.specs.KeyBody.{AreKeys};
ghost use Rattle.shard_memory.specs.Tickets.{HasIdle};
ghost use Rattle.shard_store.specs.Stores.{IsUnguarded};
ghost use Rattle.shard_store.specs.Works.{DoesAbove, EvictsForBlock, floor_of};
ghost use Rattle.shard_store.specs.Lending.{LendsBlock, found_in, value_length};

use super::ShardStore;
use crate::giving::find_block;
use crate::looking_up::{length_found, write_found, write_keys};
use foreign_list::ForeignBlock;
use layout::KEY_ROOM;
use row_cache::Scanned;
use rows::Evictions;
use shard_memory::Share;

impl<'f> ShardStore<'f> {
    /// Lends a block with room for a head of so many bytes in front and, behind it, the value that the row of a table's key has once
    /// the block is made; and answers its length, or None where no row has the key there then. The row is the one used last from now
    /// on. The block is made first: that may move the row, or make it go. Where there is no room for it otherwise, the rows that were
    /// used longest ago go, one by one, of whatever table, and each is told.
    ///
    /// Behind the head the block has as many bytes as the value that is found first. What stands in the head is not said.
    pub fn lend_value<E: Evictions>(
        &mut self,
        table: u8,
        key: &[u8],
        head: u32,
        share: Share,
        evictions: &mut E,
    ) -> (ForeignBlock<'f>, Option<u32>)
        // A block that may be lent.
        requires table { table < sizes.tables }
        requires head { 1 ≤ head }
        requires most { head + sizes.greatest_value ≤ sizes.greatest_block }
        requires idle { HasIdle self.old.lent share }

        // Unguarded, and each row may be told.
        requires unguarded { IsUnguarded self.old }
        requires told { length self.old.rows ≤ E.room evictions.old }

        // What is lent.
        ensures size { length result.0.piece.bytes ≡ head + value_length (apply.row_of (in_table table key.now) self.old.rows) }
        ensures lends { LendsBlock share self.old self.new result.0 }

        // Rows that went were told, and what stands behind the head was looked up among the others.
        ensures found { DoesAbove E.tells (floor_of self.old.pages self.old.lent self.old.regions) (apply.get (in_table table key.now))
            (found_in result.1 (drop head result.0.piece.bytes)) self.old self.new evictions.old evictions.new }
        ensures within { IfSome result.1 (λ len. head + len ≤ length result.0.piece.bytes) }
        ensures short { IfSome result.1 (λ len. len ≤ sizes.greatest_value) }
    {
        let (memory, cache) = (&mut self.memory, &mut self.cache);
        let size = head + length_found(cache, table, key);
        let mut block = find_block(memory, cache, size, share, evictions);
        let found = write_found(cache, table, key, head, block.bytes_mut());
        (block, found)
    }

    /// Lends a block with room for a head of so many bytes in front and, behind it, the first `count` keys of a table at or above
    /// `from` that there are once the block is made: as `scan` writes them. Where there is no room for it otherwise, the rows that
    /// were used longest ago go, one by one, of whatever table, and each is told.
    ///
    /// Behind the head the block has room for so many keys of the greatest length. What stands in the head is not said.
    pub fn lend_keys<E: Evictions>(
        &mut self,
        table: u8,
        from: &[u8],
        count: u32,
        head: u32,
        share: Share,
        evictions: &mut E,
    ) -> (ForeignBlock<'f>, Scanned)
        // Some keys, and a block that may be lent.
        requires table { table < sizes.tables }
        requires some { 1 ≤ count }
        requires few { count ≤ sizes.most_keys }
        requires most { head + sizes.key_room * count ≤ sizes.greatest_block }
        requires idle { HasIdle self.old.lent share }

        // Unguarded, and each row may be told.
        requires unguarded { IsUnguarded self.old }
        requires told { length self.old.rows ≤ E.room evictions.old }

        // What is lent.
        ensures size { length result.0.piece.bytes ≡ head + sizes.key_room * count }
        ensures lends { LendsBlock share self.old self.new result.0 }

        // Rows that went were told.
        ensures evicted { EvictsForBlock E.tells self.old self.new evictions.old evictions.new }

        // What stands behind the head was looked up among the others.
        ensures count { result.1.keys ≡ length (apply.scanned (in_table table from.now) count self.new.rows) }
        ensures keys { AreKeys (take result.1.bytes (drop head result.0.piece.bytes))
            (apply.scanned (in_table table from.now) count self.new.rows) }
        ensures within { head + result.1.bytes ≤ length result.0.piece.bytes }
    {
        let (memory, cache) = (&mut self.memory, &mut self.cache);
        let size = head + KEY_ROOM * count;
        let mut block = find_block(memory, cache, size, share, evictions);
        let scanned = write_keys(cache, table, from, count, head, block.bytes_mut());
        (block, scanned)
    }
}
