//! Scans with values.
ghost use Rattle.std.specs.Prelude.{◌≡◌, ◌≢◌, ◌<◌, ◌≤◌, List, length, take, drop, flat_map};
ghost use Rattle.layout.specs.Sizes.{most_keys, tables};
ghost use Rattle.rows.specs.Key.{in_table};
ghost use Rattle.rows.specs.Row.{Row};
ghost use Rattle.rows.specs.Apply as apply;
ghost use Rattle.embedded_cache.specs.Scans.{AreRowsOf, LacksRoom, row_field};
ghost use Rattle.embedded_cache.specs.States.{IsUnguarded};

use super::Cache;
use crate::scanned_rows::ScannedRows;
use crate::scanning::write_rows;

impl<'f> Cache<'f> {
    /// Writes the first rows of a table at or above `from`, in the order of the bytes of their keys, to the front of `into`: at most
    /// `count`, 1 to 32, and no more than fit whole. Each is its key behind its length in two bytes, its tag in four, the length of its
    /// value in two, and its value, low bytes first. The bytes behind them stay, and no row counts as used.
    ///
    /// A scan goes on from the last key with a zero byte behind it, which is the least key above it, whatever was stored and erased
    /// meanwhile. So `from` may have 257 bytes.
    pub fn scan_rows(&mut self, table: u8, from: &[u8], count: u32, into: &mut [u8]) -> ScannedRows
        // Some rows, with no guard standing.
        requires table { table < tables }
        requires some { 1 ≤ count }
        requires most { count ≤ most_keys }
        requires unguarded { IsUnguarded self.old }

        // What it writes, and where.
        ensures rows { (found : List Row)
            × AreRowsOf table (take result.rows (apply.scanned (in_table table from.now) count self.old.store.rows))
            self.old.store.rows found
            × (take result.bytes into.new ≡ flat_map row_field found) }
        ensures within { result.bytes ≤ length into.old }
        ensures behind { drop result.bytes into.new ≡ drop result.bytes into.old }

        // Those are all, or there is no room for the next.
        ensures all { result.wanted ≡ 0 → result.rows ≡ length (apply.scanned (in_table table from.now) count self.old.store.rows) }
        ensures short { result.wanted ≢ 0 → LacksRoom table (apply.scanned (in_table table from.now) count self.old.store.rows)
            self.old.store.rows result.rows result.bytes result.wanted (length into.old) }

        // Else nothing changes.
        ensures unchanged { self.new ≡ self.old }
    {
        let len = self.body.fill(&mut self.store, table, from, count);
        write_rows(&self.store, table, self.body.front(len), into)
    }
}
