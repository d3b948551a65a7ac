//! The keys of a table's rows, in the order of their bytes.
ghost use Rattle.std.specs.Prelude.{◌≡◌, ◌*◌, ◌<◌, ◌≤◌, length, take, drop, All};
ghost use Rattle.layout.specs.Sizes as sizes;
ghost use Rattle.rows.specs.Apply as apply;
ghost use Rattle.rows.specs.Key.{in_table};
ghost use Rattle.rows.specs.KeyBody.{AreKeys};
ghost use Rattle.regions.specs.Contents.{live_at};
ghost use Rattle.row_cache.specs.Rows.{key_at, rows_of};
ghost use Rattle.row_cache.specs.inside.Scanned.{keys_in_front};
ghost use Rattle.row_cache.specs.inside.Tables.{HasRow};

use super::RowCache;
use crate::tables::Tables;
use key_table::Rows;
use regions::Region;
use row_bytes::{Scanned, write_key};
use rows::Key;

impl RowCache {
    /// Where more rows than `most` wait for their places in the order of keys, one of them gets its place. Whoever calls it
    /// before each put spares the next scan all but so many.
    pub fn settle_above(&mut self, most: u32)
        ensures unchanged { self.new ≡ self.old }
    {
        if self.tables.waiting() > most {
            self.tables.settle_one(&self.region);
        }
    }

    /// Writes the first `count` keys of the table at or above `lo`, in the order of their bytes, to the front of `into`: each
    /// behind its length in two bytes, low byte first, as the reply to a scan has them. The bytes behind them stay. `count` is
    /// 1 to 32, and `into` has room for so many keys of the greatest length.
    pub fn scan(&mut self, table: u8, lo: &[u8], count: u32, into: &mut [u8]) -> Scanned
        requires table { table < sizes.tables }
        requires some { 1 ≤ count }
        requires most { count ≤ sizes.most_keys }
        requires room { sizes.key_room * count ≤ length into.old }
        ensures count { result.keys ≡ length (apply.scanned (in_table table lo.now) count (rows_of self.old)) }
        ensures keys { AreKeys (take result.bytes into.new) (apply.scanned (in_table table lo.now) count (rows_of self.old)) }
        ensures within { result.bytes ≤ length into.old }
        ensures behind { drop result.bytes into.new ≡ drop result.bytes into.old }
        ensures unchanged { self.new ≡ self.old }
    {
        self.tables.settle(&self.region);
        let from = Key { table, bytes: lo };
        let rows = self.tables.rows_from(&self.region, &from);
        write_keys(&self.tables, &self.region, rows, table, count, into)
    }
}

// Writes the keys of the first rows, at most `count` of them and none behind a row of another table, to the front of `into`.
fn write_keys(
    tables: &Tables,
    region: &Region,
    mut rows: Rows<'_>,
    table: u8,
    count: u32,
    into: &mut [u8],
) -> Scanned
    requires rows { All (HasRow (live_at region.now) tables.now.places) rows }
    requires most { count ≤ sizes.most_keys }
    requires room { sizes.key_room * count ≤ length into.old }
    ensures count { result.keys
        ≡ length (take count (keys_in_front (key_at (live_at region.now) tables.now.places) table rows.entry)) }
    ensures keys { AreKeys (take result.bytes into.new)
        (take count (keys_in_front (key_at (live_at region.now) tables.now.places) table rows.entry)) }
    ensures within { result.bytes ≤ length into.old }
    ensures behind { drop result.bytes into.new ≡ drop result.bytes into.old }
{
    let mut scanned = Scanned { keys: 0, bytes: 0 };
    while scanned.keys < count {
        let Some(row) = rows.next() else {
            return scanned;
        };
        let found = tables.key(region, row);
        if found.table != table {
            return scanned;
        }
        scanned.bytes += write_key(&mut into[scanned.bytes as usize..], found.bytes);
        scanned.keys += 1;
    }
    scanned
}
