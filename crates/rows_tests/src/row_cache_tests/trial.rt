//! A cache whose calls are made in any order: one that does not fit what stands changes nothing.
ghost use Rattle.std.specs.Prelude.{◌≡◌, ◌+◌, ◌*◌, ◌<◌, ◌≤◌, ◌⊎◌, length, true, false, IfOk};
ghost use Rattle.rows.specs.Key.{in_table};
ghost use Rattle.rows.specs.Apply.{has};
ghost use Rattle.layout.specs.Sizes as sizes;
ghost use Rattle.regions.specs.Shapes.{guards_of, IsUnguarded};
ghost use Rattle.row_cache.specs.Rows.{rows_of};

use crate::pieces::piece;
use layout::{GREATEST_KEY, GREATEST_OBJECT, GREATEST_VALUE};
use raw_range::Piece;
use row_cache::{Compacted, Put, RowCache, Scanned};
use std::alloc::{AllocError, Global};

/// A cache, for how many rows it has room, and the table of which the next calls are.
#[derive(Drop)]
pub(crate) struct Trial {
    cache: RowCache,
    rows: u32,
    table: u8,
    ghost room: { cache.room ≡ rows },
    ghost below: { table < sizes.tables },
}

fn is_row(key: &[u8], value: &[u8]) -> bool
    ensures { result ≡ true
        → (1 ≤ length key.now) × (length key.now ≤ sizes.greatest_key) × (length value.now ≤ sizes.greatest_value) }
{
    !key.is_empty() && key.len() <= GREATEST_KEY && value.len() <= GREATEST_VALUE
}

fn has_room(cache: &RowCache, rows: u32, table: u8, key: &[u8]) -> bool
    requires { table < sizes.tables }
    ensures { result ≡ true → (has (in_table table key.now) (rows_of cache.now) ≡ true) ⊎ (length (rows_of cache.now) < rows) }
{
    match cache.find_len(table, key) {
        Some(_) => true,
        None => cache.rows() < rows,
    }
}

/// Whether a guard stands on some group.
fn is_guarded(cache: &RowCache) -> bool
    ensures { result ≡ false → IsUnguarded cache.now.region }
{
    cache.rows();
    for table in 0..8u8 {
        if cache.guards(cache.group_of(table)) > 0 {
            return true;
        }
    }
    false
}

/// Another segment becomes the active one of a table's group. False where fewer than two are free, or the active one is not full.
fn begin(cache: &mut RowCache, table: u8) -> bool
    ensures { cache.new.room ≡ cache.old.room }
{
    let group = cache.group_of(table);
    if cache.free_segments() < 2 || cache.left(group) >= GREATEST_OBJECT {
        return false;
    }
    cache.next_active(group);
    true
}

/// A cache of so many rows, with eight groups and twelve free segments.
fn cache_of_tables(alloc: Global, rows: u32) -> Result<RowCache, AllocError>
    requires { rows < 1000 }
    ensures { IfOk result (λ cache. cache.room ≡ rows) }
{
    let mut cache = RowCache::new(alloc, rows, 12, 8)?;
    for owner in 0..12 {
        let segment = piece(alloc, owner)?;
        cache.add_segment(segment);
    }
    Ok(cache)
}

impl Trial {
    /// A cache of two rows, and two segments, of which one is active.
    pub(crate) fn small(alloc: Global) -> Result<Trial, AllocError> {
        let first = piece(alloc, 0)?;
        let second = piece(alloc, 1)?;
        let mut cache = RowCache::new(alloc, 2, 2, 1)?;
        cache.add_segment(first);
        cache.add_segment(second);
        begin(&mut cache, 0);
        Ok(Trial {
            cache,
            rows: 2,
            table: 0,
        })
    }

    /// A cache with room for so many rows, and four segments, of which one is active.
    pub(crate) fn new(alloc: Global, rows: u32) -> Result<Trial, AllocError>
        requires { rows < 1000 }
    {
        let first = piece(alloc, 0)?;
        let second = piece(alloc, 1)?;
        let third = piece(alloc, 2)?;
        let fourth = piece(alloc, 3)?;
        let mut cache = RowCache::new(alloc, rows, 4, 1)?;
        cache.add_segment(first);
        cache.add_segment(second);
        cache.add_segment(third);
        cache.add_segment(fourth);
        begin(&mut cache, 0);
        Ok(Trial {
            cache,
            rows,
            table: 0,
        })
    }

    /// A cache with room for so many rows, with eight groups, and with twelve segments, of which none is active.
    pub(crate) fn of_tables(alloc: Global, rows: u32) -> Result<Trial, AllocError>
        requires { rows < 1000 }
    {
        let cache = cache_of_tables(alloc, rows)?;
        Ok(Trial {
            cache,
            rows,
            table: 0,
        })
    }

    /// The next calls are of this table. False where there is none.
    pub(crate) fn turn_to(&mut self, table: u8) -> bool {
        if table >= 8 {
            return false;
        }
        self.table = table;
        true
    }

    /// How many rows there are, and the live bytes.
    pub(crate) fn size(&self) -> (u32, u64) {
        (self.cache.rows(), self.cache.live())
    }

    /// How many segments are free, and the bytes that the active one of the table's group has left.
    pub(crate) fn free(&self) -> (u32, u32) {
        let group = self.cache.group_of(self.table);
        (self.cache.free_segments(), self.cache.left(group))
    }

    pub(crate) fn find_len(&self, key: &[u8]) -> Option<u32> {
        self.cache.find_len(self.table, key)
    }

    /// None where the row is none, or has no room in the table's group or among the rows.
    pub(crate) fn put(&mut self, key: &[u8], value: &[u8], number: u32) -> Option<Put> {
        let can = is_row(key, value) && has_room(&self.cache, self.rows, self.table, key);
        if !can {
            return None;
        }
        self.cache.put(self.table, key, value, number).ok()
    }

    /// Whether a look-up finds this value, or no row where it is none.
    pub(crate) fn gets(&mut self, key: &[u8], value: Option<&[u8]>) -> bool {
        self.cache.get(self.table, key) == value
    }

    pub(crate) fn erase(&mut self, key: &[u8]) -> bool {
        self.cache.erase(self.table, key)
    }

    pub(crate) fn evict_last(&mut self) -> Option<u32> {
        self.cache.evict_last()
    }

    /// Whether the active segment of the table's group was full or none, two were free, and another one is active now.
    pub(crate) fn go_on(&mut self) -> bool {
        begin(&mut self.cache, self.table)
    }

    /// None where no segment is free.
    pub(crate) fn compact(&mut self) -> Option<Compacted> {
        if self.cache.free_segments() == 0 {
            return None;
        }
        Some(self.cache.compact())
    }

    /// The piece of the segment that has the greatest number. None where a guard stands, and where no segment is held.
    pub(crate) fn give_up(&mut self) -> Option<Piece> {
        if is_guarded(&self.cache) {
            return None;
        }
        self.cache.give_up()
    }

    /// One guard more on the table's group. False where three stand.
    pub(crate) fn guard(&mut self) -> bool {
        let group = self.cache.group_of(self.table);
        if self.cache.guards(group) >= 3 {
            return false;
        }
        self.cache.guard(group);
        true
    }

    /// False where no guard stands on the table's group.
    pub(crate) fn unguard(&mut self) -> bool {
        let group = self.cache.group_of(self.table);
        if self.cache.guards(group) == 0 {
            return false;
        }
        self.cache.unguard(group);
        true
    }

    /// The value of a key's row, where it stands.
    pub(crate) fn value_of(&self, key: &[u8]) -> Option<&[u8]> {
        let place = self.cache.place_of(self.table, key)?;
        Some(self.cache.value_at(place))
    }

    /// Whether the value stays where it stood, under a guard that stays, after the row of the key was replaced by
    /// another. None where the row can't be put.
    pub(crate) fn keeps(&mut self, key: &[u8], value: &[u8], other: &[u8]) -> Option<bool> {
        let group = self.cache.group_of(self.table);
        if !is_row(key, other) || self.cache.guards(group) > 0 {
            return None;
        }
        let place = self.cache.place_of(self.table, key)?;
        self.cache.guard(group);
        if !has_room(&self.cache, self.rows, self.table, key) {
            return None;
        }
        self.cache.put(self.table, key, other, 7).ok()?;
        Some(self.cache.value_at(place) == value)
    }

    /// Whether the value stays where it stood, under a guard of its table that stays, after a row was put in another table
    /// and was erased. None where there is no such table, or the row can't be put.
    pub(crate) fn keeps_beside(
        &mut self,
        key: &[u8],
        value: &[u8],
        table: u8,
        other: &[u8],
    ) -> Option<bool> {
        let group = self.cache.group_of(self.table);
        if table >= 8 || !is_row(other, value) || self.cache.guards(group) > 0 {
            return None;
        }
        let place = self.cache.place_of(self.table, key)?;
        self.cache.guard(group);
        if !has_room(&self.cache, self.rows, table, other) {
            return None;
        }
        self.cache.put(table, other, value, 8).ok()?;
        self.cache.erase(table, other);
        Some(self.cache.value_at(place) == value)
    }

    /// None where so many keys are not scanned, or not into so little.
    pub(crate) fn scan(&mut self, lo: &[u8], count: u32, into: &mut [u8]) -> Option<Scanned> {
        if count == 0 || count > 32 || into.len() < count as usize * 258 {
            return None;
        }
        Some(self.cache.scan(self.table, lo, count, into))
    }
}
