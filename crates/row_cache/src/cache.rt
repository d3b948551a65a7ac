//! The rows of one shard's cache.
ghost use Rattle.std.specs.Bool.{OnFalse};
ghost use Rattle.std.specs.Prelude.{◌^◌, ◌≡◌, ◌-◌, ◌↔◌, ◌⊎◌, ◌+◌, ◌<◌, ◌≤◌, ℕ, [], true, length, take, replicate, None, IfOk, IfErr, IfSome, IsErr, IsNone, IsSome};
ghost use Rattle.layout.specs.Sizes as sizes;
ghost use Rattle.std.specs.List.{last_or};
ghost use Rattle.rows.specs.Key.{in_table};
ghost use Rattle.rows.specs.Row.{size, is_of_put};
ghost use Rattle.rows.specs.Apply as apply;
ghost use Rattle.regions.specs.Segments.{idle};
ghost use Rattle.regions.specs.Shapes.{shape};
ghost use Rattle.regions.specs.Counts.{left};
ghost use Rattle.row_cache.specs.Rows.{group_for, rows_of, reply_of, Keeps};

mod getting;
mod patching;
mod reading;
mod scanning;
mod segments;
mod storing;

use crate::put::Put;
use crate::tables::Tables;
use regions::{NeedSegment, Region};
use row_bytes::NewRow;
use rows::Key;
use std::alloc::{AllocError, Global};
use std::marker::Model;
use storing::{drop_row, group_for, put_row};

/// The rows of one shard's cache, and the segments in which they stand. The pieces of one that is dropped stay allocated for good:
/// [`RowCache::give_up`] hands them out.
///
/// # Examples
/// ```
/// let mut cache = RowCache::new(alloc, 1000, 40, 1)?;
/// cache.add_segment(piece); // of 131,072 bytes
/// cache.next_active(0);
/// let did = cache.put(0, b"apple", b"red", 1); // Ok(Put::Stored)
/// let value = cache.get(0, b"apple"); // Some(b"red")
/// let number = cache.evict_last(); // Some(1), the number of the put
/// while let Some(piece) = cache.give_up() {
///     pieces.push(piece)?;
/// }
/// ```
#[derive(Drop)]
pub struct RowCache {
    region: Region,
    tables: Tables,
}

impl Model for RowCache {
    ghost use Rattle.row_cache.specs.Rows.{CacheState};
    ghost use Rattle.row_cache.specs.inside.Consistent.{IsConsistent};

    ghost Value = { CacheState };

    ghost view = { λ c. record {
      room = c.tables.room;
      front = c.tables.ends.front;
      last = c.tables.ends.last;
      places = c.tables.places;
      region = c.region;
    } };

    ghost invariant = { λ c. IsConsistent c.tables c.region };
}

impl RowCache {
    /// A cache without rows and segments, with room for so many rows, fewer than 4,294,967,295, and numbers of segments below
    /// `segments`. There are 1 to 8 groups of segments, `regions`: the rows of a table stand in the group whose number is the
    /// table's modulo that.
    ///
    /// # Errors
    /// `AllocError` where memory is not found. No other call takes memory.
    pub fn new(
        alloc: Global,
        rows: u32,
        segments: u32,
        regions: u32,
    ) -> Result<RowCache, AllocError>
        requires rows { rows < 2 ^ 32 - 1 }
        requires segments { segments ≤ sizes.most_segments }
        requires regions { (1 ≤ regions) × (regions ≤ 8) }
        ensures room { IfOk result (λ c. c.room ≡ rows) }
        ensures empty { IfOk result (λ c. rows_of c ≡ []) }
        ensures region { IfOk result (λ c. c.region ≡ record {
          most = segments;
          groups = replicate regions idle;
          segments = replicate segments None;
        }) }
    {
        Ok(RowCache {
            region: Region::new(alloc, segments, regions)?,
            tables: Tables::new(alloc, rows)?,
        })
    }

    /// Writes all slots at once that the table of keys will want for so many rows as there is room for, so that no put doubles
    /// it. With rows it stays as it is.
    pub fn widen(&mut self)
        ensures unchanged { self.new ≡ self.old }
    {
        self.tables.widen();
    }

    /// Stores a row of a table in front of the others, with the number of its put. No other row has its key in the table
    /// afterwards. The new object is placed before an old one is killed.
    ///
    /// # Errors
    /// `NeedSegment` where the table's group has no active segment, or that has less than the row's size left. Nothing changed.
    pub fn put(
        &mut self,
        table: u8,
        key: &[u8],
        value: &[u8],
        number: u32,
    ) -> Result<Put, NeedSegment>
        requires table { table < sizes.tables }
        requires some_key { 1 ≤ length key.now }
        requires short_key { length key.now ≤ sizes.greatest_key }
        requires short_value { length value.now ≤ sizes.greatest_value }
        requires room { (apply.has (in_table table key.now) (rows_of self.old) ≡ true) ⊎ (length (rows_of self.old) < self.old.room) }
        ensures full { IsErr result ↔ left self.old.region (group_for self.old.region table) < size key.now value.now }
        ensures unchanged { IfErr result (λ _. self.new ≡ self.old) }
        ensures rows { IfOk result (λ _. rows_of self.new
            ≡ (apply.put (in_table table key.now) value.now number (rows_of self.old)).0) }
        ensures reply { IfOk result (λ did. reply_of did
            ≡ (apply.put (in_table table key.now) value.now number (rows_of self.old)).1) }
        ensures keeps { Keeps self.old self.new }
        ensures shape { shape self.new.region ≡ shape self.old.region }
        ensures left { IfOk result (λ _. left self.new.region (group_for self.old.region table) + size key.now value.now
            ≡ left self.old.region (group_for self.old.region table)) }
    {
        let group = group_for(&self.region, table);
        let row = NewRow {
            table,
            key,
            value,
            number,
        };
        put_row(&mut self.region, &mut self.tables, group, row)
    }

    /// Removes the row of a key of a table. False where no row has the key there.
    pub fn erase(&mut self, table: u8, key: &[u8]) -> bool
        requires table { table < sizes.tables }
        ensures found { result ≡ apply.has (in_table table key.now) (rows_of self.old) }
        ensures unchanged { OnFalse result (self.new ≡ self.old) }
        ensures rows { rows_of self.new ≡ apply.without (in_table table key.now) (rows_of self.old) }
        ensures keeps { Keeps self.old self.new }
        ensures shape { shape self.new.region ≡ shape self.old.region }
        ensures left { (g : ℕ) → left self.new.region g ≡ left self.old.region g }
    {
        let sought = Key { table, bytes: key };
        let Ok(found) = self.tables.search(&self.region, &sought) else {
            return false;
        };
        drop_row(&mut self.region, &mut self.tables, found);
        true
    }

    /// Removes the row that was used longest ago, of whatever table, and answers the number of its put. None where there is no row.
    pub fn evict_last(&mut self) -> Option<u32>
        ensures none { IsNone result ↔ (rows_of self.old ≡ []) }
        ensures unchanged { IsNone result → self.new ≡ self.old }
        ensures last { IfSome result (λ put. is_of_put put (last_or None (rows_of self.old)) ≡ true) }
        ensures rows { IsSome result → rows_of self.new ≡ take (length (rows_of self.old) - 1) (rows_of self.old) }
        ensures few { IsSome result → length (rows_of self.new) < self.new.room }
        ensures keeps { Keeps self.old self.new }
        ensures shape { shape self.new.region ≡ shape self.old.region }
        ensures left { (g : ℕ) → left self.new.region g ≡ left self.old.region g }
    {
        let row = self.tables.last(&self.region)?;
        let put = self.tables.put_of(&self.region, row);
        let found = self.tables.row_at(&self.region, row);
        drop_row(&mut self.region, &mut self.tables, found);
        Some(put)
    }
}
