//! A cache and its memory.
ghost use Rattle.std.specs.Prelude.{◌≡◌, ◌≢◌, ◌*◌, ◌+◌, ◌<◌, ◌≤◌, true, false, [], length, take, drop, IfOk, IfErr};
ghost use Rattle.layout.specs.Sizes as sizes;
ghost use Rattle.rows.specs.Key.{in_table};
ghost use Rattle.rows.specs.KeyBody.{AreKeys};
ghost use Rattle.rows.specs.Row.{live};
ghost use Rattle.rows.specs.Apply as apply;
ghost use Rattle.foreign_list.specs.OwnerSeats.{IsAtRest};
ghost use Rattle.shard_memory.specs.Tickets.{tickets_out};
ghost use Rattle.embedded_cache.specs.Puts.{Patches};
ghost use Rattle.embedded_cache.specs.States.{CanOpen, CountsNone, IsSameCache, IsUnguarded, least_bound};

mod getting;
mod guarding;
mod lending;
mod puts;
mod scanning;

use crate::key_body::KeyBody;
use crate::opening::{OpenRefusal, Opening, open_store, widen_if};
use crate::patch::Patch;
use crate::stats::Stats;
use crate::storing::Limits;
use foreign_list::{Foreign, OwnerSeat};
use layout::GREATEST_VALUE;
use shard_store::{Scanned, ShardStore};
use std::alloc::Global;
use std::marker::Model;

/// A cache that owns its memory. One that is dropped is not freed: only [`Cache::close`] gives the memory back.
#[derive(Drop)]
pub struct Cache<'f> {
    store: ShardStore<'f>,
    limits: Limits,
    // Where the two pieces of a value are put together.
    joined: Vec<u8>,
    // Where a scan with values has its keys.
    body: KeyBody,
    evictions: u64,
    gets: u64,
    hits: u64,
}

impl<'f> Model for Cache<'f> {
    ghost use Rattle.std.specs.Coded.{codes};
    ghost use Rattle.std.specs.Prelude.{vec_capacity};
    ghost use Rattle.shard_memory.specs.Room.{room_code};
    ghost use Rattle.embedded_cache.specs.States.{EmbeddedState};
    ghost use Rattle.embedded_cache.specs.inside.Limits.{AreLimits};

    ghost Value = { EmbeddedState };

    ghost coded = { Prim.hlevel (codes, room_code) };

    ghost view = { λ c. record {
      store = c.store;
      bound = c.limits.bound;
      evictions = c.evictions;
      gets = c.gets;
      hits = c.hits;
    } };

    ghost invariant = { λ c. AreLimits c.limits.room c.limits.bound (vec_capacity c.joined) c.store };
}

impl<'f> Cache<'f> {
    /// A cache without rows, whose lent blocks come home over this list, of which the seat is the owner's.
    ///
    /// # Errors
    /// Want of memory: the refusal carries what was handed in. No other call takes memory.
    pub fn open(
        alloc: Global,
        opening: Opening,
        home: &'f Foreign,
        seat: OwnerSeat,
    ) -> Result<Cache<'f>, OpenRefusal>
        // What it is opened with.
        requires opening { CanOpen opening }
        requires owner { home.now.owner ≡ opening.shard }
        requires seat { IsAtRest home.now seat }

        // Without memory all of it comes back.
        ensures refused { IfErr result (λ refusal. (refusal.opening ≡ opening) × (refusal.seat ≡ seat)) }

        // It is this shard's, and empty.
        ensures numbers { IfOk result (λ c. (c.store.shard ≡ opening.shard) × (c.store.pages ≡ opening.pages)
            × (c.store.regions ≡ opening.regions) × (c.store.room ≡ opening.rows) × (c.bound ≡ opening.bound)) }
        ensures rows { IfOk result (λ c. c.store.rows ≡ []) }
        ensures counts { IfOk result (λ c. (c.evictions ≡ 0) × (c.gets ≡ 0) × (c.hits ≡ 0)) }

        // Nothing is lent, and no guard stands.
        ensures list { IfOk result (λ c. c.store.list ≡ home.now) }
        ensures idle { IfOk result (λ c. tickets_out c.store.lent ≡ 0) }
        ensures unguarded { IfOk result IsUnguarded }
    {
        let Ok(joined) = Vec::with_capacity(alloc, GREATEST_VALUE) else {
            return Err(OpenRefusal { opening, seat });
        };
        let Ok(body) = KeyBody::new(alloc) else {
            return Err(OpenRefusal { opening, seat });
        };
        let mut store = open_store(alloc, opening, home, seat)?;
        widen_if(&mut store, opening.wide);
        Ok(Cache {
            store,
            limits: Limits {
                room: opening.rows,
                bound: opening.bound,
                waiting: opening.waiting,
            },
            joined,
            body,
            evictions: 0,
            gets: 0,
            hits: 0,
        })
    }

    /// What holds of a cache at each time: there are no more rows than there is room for, and where no block is out a row goes
    /// for a put only while more bytes are live than the bound that was asked for.
    pub fn facts(&self)
        ensures rows { length self.now.store.rows ≤ self.now.store.room }
        ensures bound { tickets_out self.now.store.lent ≡ 0 → least_bound self.now ≡ self.now.bound }
    {
        self.store.facts();
    }

    /// Removes the row of a table's key. False where no row has the key there.
    pub fn erase(&mut self, table: u8, key: &[u8]) -> bool
        requires table { table < sizes.tables }
        requires unguarded { IsUnguarded self.old }

        // No row has the key then.
        ensures found { result ≡ apply.has (in_table table key.now) self.old.store.rows }
        ensures rows { self.new.store.rows ≡ apply.without (in_table table key.now) self.old.store.rows }

        // Nothing else has changed.
        ensures same { IsSameCache self.old self.new }
        ensures counts { CountsNone self.old self.new }
    {
        self.store.erase(table, key)
    }

    /// Writes the first `count` keys of a table at or above `from`, 1 to 32, in the order of their bytes, to the front of `into`:
    /// each behind its length in two bytes, low byte first. The bytes behind them stay. `into` has room for so many keys of the
    /// greatest length, 258 bytes each.
    pub fn scan(&mut self, table: u8, from: &[u8], count: u32, into: &mut [u8]) -> Scanned
        // Some keys, with no guard standing.
        requires table { table < sizes.tables }
        requires some { 1 ≤ count }
        requires most { count ≤ sizes.most_keys }
        requires unguarded { IsUnguarded self.old }
        requires room { sizes.key_room * count ≤ length into.old }

        // What it writes, and where.
        ensures count { result.keys ≡ length (apply.scanned (in_table table from.now) count self.old.store.rows) }
        ensures keys { AreKeys (take result.bytes into.new) (apply.scanned (in_table table from.now) count self.old.store.rows) }
        ensures within { result.bytes ≤ length into.old }
        ensures behind { drop result.bytes into.new ≡ drop result.bytes into.old }

        // Else nothing changes.
        ensures unchanged { self.new ≡ self.old }
    {
        self.store.scan(table, from, count, into)
    }

    /// Writes bytes over those of the value of a table's key from `at` on, where the row stands: no row goes for it. The row keeps
    /// its tag, and is the one used last from now on.
    pub fn patch(&mut self, table: u8, key: &[u8], at: usize, bytes: &[u8]) -> Patch
        requires table { table < sizes.tables }
        requires unguarded { IsUnguarded self.old }

        // Which of three it did.
        ensures patched { Patches result (in_table table key.now) at bytes.now self.old.store.rows self.new.store.rows }
        ensures unchanged { result ≢ Patch.Patched → self.new ≡ self.old }

        // Nothing else has changed.
        ensures same { IsSameCache self.old self.new }
        ensures counts { CountsNone self.old self.new }
    {
        let Some(place) = self.store.place_of(table, key) else {
            return Patch::Missing;
        };
        let len = self.store.value_at(place).len();
        let count = bytes.len();
        if !has_bytes(len, at, count) {
            return Patch::Short;
        }
        self.store.patch(table, key, at, bytes);
        Patch::Patched
    }

    /// What the cache tells of itself.
    pub fn stats(&self) -> Stats
        ensures rows { (result.rows ≡ length self.now.store.rows) × (result.room ≡ self.now.store.room) }
        ensures live { (result.live ≡ live self.now.store.rows) × (result.bound ≡ self.now.bound) }
        ensures counts { (result.evictions ≡ self.now.evictions) × (result.gets ≡ self.now.gets) × (result.hits ≡ self.now.hits) }
        ensures blocks { result.blocks_out ≡ tickets_out self.now.store.lent }
    {
        Stats {
            rows: self.store.rows(),
            room: self.limits.room,
            live: self.store.live(),
            bound: self.limits.bound,
            evictions: self.evictions,
            gets: self.gets,
            hits: self.hits,
            blocks_out: self.store.tickets_out(),
        }
    }

    /// Gives the memory back, once every lent block is home, and hands back the owner's seat, with which the list may be closed or
    /// a cache be opened again.
    pub fn close(self) -> OwnerSeat
        requires idle { tickets_out self.store.lent ≡ 0 }
        requires unguarded { IsUnguarded self }
        ensures seat { IsAtRest self.entry.store.list result }
    {
        let (store, joined, body) = (self.store, self.joined, self.body);
        drop(joined);
        drop(body);
        store.finish()
    }
}

// Whether so many bytes, of which the first stands at `at`, lie within the length.
fn has_bytes(len: usize, at: usize, count: usize) -> bool
    ensures fits { result ≡ true → at + count ≤ len }
    ensures short { result ≡ false → len < at + count }
{
    at <= len && count <= len - at
}
