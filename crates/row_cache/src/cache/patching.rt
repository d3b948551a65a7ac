//! Bytes written over a part of a row's value, where the row stands.
ghost use Rattle.std.specs.Prelude.{◌≡◌, ◌+◌, ◌<◌, ◌≤◌, ℕ, length, Some};
ghost use Rattle.layout.specs.Sizes as sizes;
ghost use Rattle.rows.specs.Key.{in_table};
ghost use Rattle.rows.specs.Row.{Row};
ghost use Rattle.rows.specs.Apply as apply;
ghost use Rattle.row_bytes.specs.Patches.{patch};
ghost use Rattle.regions.specs.Shapes.{shape};
ghost use Rattle.regions.specs.Counts.{left};
ghost use Rattle.regions.specs.Contents.{live_at};
ghost use Rattle.row_cache.specs.Rows.{rows_of, row_there};
ghost use Rattle.row_cache.specs.inside.Patches.{PatchesRow};
ghost use Rattle.row_cache.specs.inside.Tables.{HoldsARow};

use super::RowCache;
use regions::{Place, Region};
use row_bytes::set_value;
use rows::Key;

impl RowCache {
    /// Writes bytes over those of the value of a table's key from `at` on, which has so many, where the row stands. The row keeps
    /// the number of its put, and is the one used last from now on. No object is placed, and none is killed.
    pub fn patch(&mut self, table: u8, key: &[u8], at: usize, bytes: &[u8])
        requires table { table < sizes.tables }
        requires fits { (row : Row) × (apply.row_of (in_table table key.now) (rows_of self.old) ≡ Some row)
            × (at + length bytes.now ≤ length row.value) }
        ensures rows { rows_of self.new ≡ patch (in_table table key.now) at bytes.now (rows_of self.old) }
        ensures room { self.new.room ≡ self.old.room }
        ensures shape { shape self.new.region ≡ shape self.old.region }
        ensures left { (g : ℕ) → left self.new.region g ≡ left self.old.region g }
    {
        let sought = Key { table, bytes: key };
        let Ok(found) = self.tables.search(&self.region, &sought) else {
            unreachable!()
        };
        self.tables.touch(&mut self.region, found.row);
        let place = self.tables.place(found.row);
        write_value(&mut self.region, place, at, bytes);
    }
}

// Writes bytes over those of the value of the row at a place from `from` on, which has so many.
fn write_value(region: &mut Region, at: Place, from: usize, bytes: &[u8])
    requires row { HoldsARow (live_at region.old at) }
    requires within { from + length bytes.now ≤ length (row_there (live_at region.old) at).value }
    ensures { PatchesRow at from bytes.now region.old region.new }
{
    set_value(region.bytes_mut(at), from, bytes);
}
