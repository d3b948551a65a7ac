//! The memory and the cache of one shard, as one.
ghost use Rattle.std.specs.Prelude.{◌≡◌, ◌⊎◌, ◌*◌, ◌-◌, ◌^◌, ◌<◌, ◌≤◌, [], length, take, drop, true, IfOk, IfErr};
ghost use Rattle.layout.specs.Sizes as sizes;
ghost use Rattle.rows.specs.Row.{live};
ghost use Rattle.rows.specs.Apply as apply;
ghost use Rattle.rows.specs.Key.{in_table};
ghost use Rattle.rows.specs.KeyBody.{AreKeys};
ghost use Rattle.rows.specs.Spelled.{IsKey};
ghost use Rattle.foreign_list.specs.OwnerSeats.{IsAtRest};
ghost use Rattle.row_cache.specs.Rows.{reply_of};
ghost use Rattle.shard_memory.specs.Tickets.{tickets_out};
ghost use Rattle.shard_store.specs.Stores.{StoreState, HoldsTwo, IsSameStore, IsUnguarded};
ghost use Rattle.shard_store.specs.Lending.{TakesBack};
ghost use Rattle.shard_store.specs.Works.{DoesAbove, pressure};

mod getting;
mod lending;
mod using;
mod values;

use crate::segments::{begin, give_back};
use crate::storing::put_evicting;
use foreign_list::{Foreign, OwnerSeat};
use layout::SEGMENT_PAGES;
use row_cache::{Put, RowCache, Scanned};
use rows::Evictions;
use shard_memory::ShardMemory;
use std::alloc::Global;
use std::marker::Model;

/// The memory and the cache of one shard. One that is dropped leaks its pages: only [`ShardStore::finish`] gives them back, once every
/// lent block is home.
///
/// # Examples
/// ```
/// let (home, seat) = Foreign::new(alloc, 0)?;
/// let mut store = match ShardStore::open(alloc, 0, 1280, 1000, 1, &home, seat) {
///     Ok(store) => store,
///     Err(seat) => { home.close(seat); return Err(AllocError); }
/// };
/// let mut gone = EvictionCount::default();
/// let did = store.put(0, b"apple", b"red", 1, &mut gone); // Put::Stored
/// let found = store.get(0, b"apple"); // Some((b"red", 1))
/// let seat = store.finish(); // once `tickets_out` answers 0
/// home.close(seat);
/// ```
#[derive(Drop)]
pub struct ShardStore<'f> {
    memory: ShardMemory<'f>,
    cache: RowCache,
}

impl<'f> Model for ShardStore<'f> {
    ghost use Rattle.std.specs.Coded.{codes};
    ghost use Rattle.regions.specs.Shapes.{group_count};
    ghost use Rattle.shard_memory.specs.Room.{room_code};
    ghost use Rattle.shard_store.specs.Stores.{StoreState};
    ghost use Rattle.shard_store.specs.inside.Consistent.{IsConsistent, store_of};

    ghost Value = { StoreState };

    ghost coded = { Prim.hlevel (codes, room_code) };

    ghost view = { λ s. store_of s.memory s.cache };

    ghost invariant = { λ s. IsConsistent s.memory.owner s.memory.pages (group_count s.cache.region) s.memory s.cache.region };
}

impl<'f> ShardStore<'f> {
    /// The store of a shard of so many pages, with room for so many rows, fewer than 4,294,967,295, and none in it, whose lent
    /// blocks come home over this list. Its segments have 1 or 8 groups, `regions`: with 8 the rows of each table stand in segments
    /// of their own, and the pages are at least 1,536. Two segments go to the cache, one of them active, in group 0.
    ///
    /// # Errors
    /// Want of memory, and no other. The seat is handed back as it was, so that the list may be closed, and nothing is left that is
    /// not freed. No other call takes memory.
    pub fn open(
        alloc: Global,
        shard: u32,
        pages: u32,
        rows: u32,
        regions: u32,
        home: &'f Foreign,
        seat: OwnerSeat,
    ) -> Result<ShardStore<'f>, OwnerSeat>
        // What it is opened with.
        requires pages { sizes.ArePages pages }
        requires rows { rows < 2 ^ 32 - 1 }
        requires regions { (regions ≡ 1) ⊎ ((regions ≡ sizes.tables) × (sizes.fewest_table_pages ≤ pages)) }
        requires owner { home.now.owner ≡ shard }
        requires seat { IsAtRest home.now seat }

        // Without memory the seat comes back.
        ensures refused { IfErr result (λ back. back ≡ seat) }

        // It is this shard's, and empty.
        ensures numbers { IfOk result (λ store. (store.shard ≡ shard) × (store.pages ≡ pages) × (store.room ≡ rows)) }
        ensures regions { IfOk result (λ store. store.regions ≡ regions) }
        ensures rows { IfOk result (λ store. store.rows ≡ []) }
        ensures segments { IfOk result (λ store. HoldsTwo store.region) }

        // Nothing is lent, and no guard stands.
        ensures list { IfOk result (λ store. store.list ≡ home.now) }
        ensures lent { IfOk result (λ store. (store.lent ≡ seat.lent) × (store.lends ≡ 0) × (store.backs ≡ 0)) }
        ensures idle { IfOk result (λ store. tickets_out store.lent ≡ 0) }
        ensures unguarded { IfOk result IsUnguarded }
    {
        let Ok(mut cache) = RowCache::new(alloc, rows, pages / SEGMENT_PAGES, regions) else {
            return Err(seat);
        };
        let mut memory = ShardMemory::open(alloc, shard, pages, home, seat)?;
        begin(&mut memory, &mut cache);
        Ok(ShardStore { memory, cache })
    }

    /// Writes all slots at once that the table of keys will want for so many rows as there is room for, so that no put doubles
    /// it: 16 to 32 bytes for each. With rows it stays as it is.
    pub fn widen(&mut self)
        ensures unchanged { self.new ≡ self.old }
    {
        self.cache.widen();
    }

    /// Stores a row of a table, 0 to 7, in front of the others; no other row has its key in the table afterwards. It always stores:
    /// where no room can be made otherwise, the rows that were used longest ago go, one by one, of whatever table, and each is told.
    pub fn put<E: Evictions>(
        &mut self,
        table: u8,
        key: &[u8],
        value: &[u8],
        tag: u32,
        evictions: &mut E,
    ) -> Put
        // A row of any size, with no guard standing.
        requires table { table < sizes.tables }
        requires key { IsKey key.now }
        requires value { length value.now ≤ sizes.greatest_value }
        requires unguarded { IsUnguarded self.old }

        // There is room for it, and each other row may be told.
        requires room { (apply.has (in_table table key.now) self.old.rows ≡ true) ⊎ (length self.old.rows < self.old.room) }
        requires told { length self.old.rows ≤ E.room evictions.old }

        // What it does, answers and tells.
        ensures stored { DoesAbove E.tells (pressure self.old.pages self.old.lent self.old.regions)
            (apply.put (in_table table key.now) value.now tag) (reply_of result) self.old self.new evictions.old evictions.new }

        // Nothing is lent.
        ensures taken { TakesBack self.old self.new }
    {
        put_evicting(
            &mut self.memory,
            &mut self.cache,
            table,
            key,
            value,
            tag,
            evictions,
        )
    }

    /// Removes the row of a table's key. False where no row has the key there.
    pub fn erase(&mut self, table: u8, key: &[u8]) -> bool
        requires table { table < sizes.tables }
        requires unguarded { IsUnguarded self.old }

        // No row has the key then.
        ensures found { result ≡ apply.has (in_table table key.now) self.old.rows }
        ensures rows { self.new.rows ≡ apply.without (in_table table key.now) self.old.rows }

        // Nothing else has changed.
        ensures same { IsSameStore self.old self.new }
        ensures tickets { (self.new.lent ≡ self.old.lent) × (self.new.lends ≡ self.old.lends) × (self.new.backs ≡ self.old.backs)
            × (self.new.looks ≡ self.old.looks) }
    {
        self.cache.erase(table, key)
    }

    /// Writes the first `count` keys of a table at or above `from`, in the order of their bytes, to the front of `into`: each behind
    /// its length in two bytes, low byte first. The bytes behind them stay. `into` has room for so many keys of the greatest length.
    pub fn scan(&mut self, table: u8, from: &[u8], count: u32, into: &mut [u8]) -> Scanned
        // Some keys, with no guard standing.
        requires table { table < sizes.tables }
        requires some { 1 ≤ count }
        requires most { count ≤ sizes.most_keys }
        requires unguarded { IsUnguarded self.old }
        requires room { sizes.key_room * count ≤ length into.old }

        // What it writes, and where.
        ensures count { result.keys ≡ length (apply.scanned (in_table table from.now) count self.old.rows) }
        ensures keys { AreKeys (take result.bytes into.new) (apply.scanned (in_table table from.now) count self.old.rows) }
        ensures within { result.bytes ≤ length into.old }
        ensures behind { drop result.bytes into.new ≡ drop result.bytes into.old }

        // Else nothing changes.
        ensures unchanged { self.new ≡ self.old }
    {
        self.cache.scan(table, from, count, into)
    }

    /// Where more rows than `most` wait for their places in the order of keys, one of them gets its place, so that no scan has to
    /// put many of them in order at once.
    pub fn settle_above(&mut self, most: u32)
        ensures unchanged { self.new ≡ self.old }
    {
        self.cache.settle_above(most);
    }

    /// How many rows there are.
    pub fn rows(&self) -> u32
        ensures { result ≡ length self.now.rows }
    {
        self.cache.rows()
    }

    /// The live bytes: the sizes of all rows together.
    pub fn live(&self) -> u64
        ensures { result ≡ live self.now.rows }
    {
        self.cache.live()
    }

    /// Gives the memory back, once every lent block is home, and hands back the owner's seat, with which the list may be closed.
    pub fn finish(self) -> OwnerSeat
        requires idle { tickets_out self.lent ≡ 0 }
        requires unguarded { IsUnguarded self }
        ensures seat { IsAtRest self.entry.list result }
    {
        let (mut memory, mut cache) = (self.memory, self.cache);
        give_back(&mut memory, &mut cache);
        memory.finish()
    }
}
