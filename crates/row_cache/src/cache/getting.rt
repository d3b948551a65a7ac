//! A look-up that makes the row the one used last.
ghost use Rattle.std.specs.Prelude.{◌≡◌, ◌<◌, Some, None, IsSome, MatchOption};
ghost use Rattle.layout.specs.Sizes as sizes;
ghost use Rattle.rows.specs.Key.{in_table, key_shown};
ghost use Rattle.rows.specs.Row.{Row};
ghost use Rattle.rows.specs.Apply as apply;
ghost use Rattle.regions.specs.Contents.{live_at};
ghost use Rattle.row_cache.specs.Rows.{rows_of, AreRelinked, StandsAt};

use super::RowCache;
use regions::Place;
use rows::Key;

impl RowCache {
    ghost use Rattle.std.specs.Borrow.{sem};
    ghost use Rattle.row_cache.specs.Lends.{EndsAs};

    /// The value of the row of a table's key, which is the row used last from now on. None where no row has the key there. Of
    /// the segments' bytes only links of rows change.
    pub fn get(&mut self, table: u8, key: &[u8]) -> Option<&[u8]>
        requires table { table < sizes.tables }
        ensures value { MatchOption result (apply.row_of (in_table table key.now) (rows_of self.old) ≡ None)
            (λ value. (row : Row) × (apply.row_of (in_table table key.now) (rows_of self.old) ≡ Some row)
            × (value.now ≡ row.value)) }
        ensures* after { sem 𝓛 (EndsAs self.entry (λ c.
            (rows_of c ≡ (apply.get (in_table table key.now) (rows_of self.old)).0) ×
            (c.room ≡ self.old.room) × AreRelinked self.old.region c.region)) }
    {
        let sought = Key { table, bytes: key };
        let place = self.use_row(&sought)?;
        Some(self.value_at(place))
    }

    /// The same, with the number of the put that stored the row.
    pub fn get_numbered(&mut self, table: u8, key: &[u8]) -> Option<(&[u8], u32)>
        requires table { table < sizes.tables }
        ensures row { MatchOption result (apply.row_of (in_table table key.now) (rows_of self.old) ≡ None)
            (λ found. (row : Row) × (apply.row_of (in_table table key.now) (rows_of self.old) ≡ Some row)
            × (found.0.now ≡ row.value) × (found.1 ≡ row.number)) }
        ensures* after { sem 𝓛 (EndsAs self.entry (λ c.
            (rows_of c ≡ (apply.get (in_table table key.now) (rows_of self.old)).0) ×
            (c.room ≡ self.old.room) × AreRelinked self.old.region c.region)) }
    {
        let place = self.use_row(&Key { table, bytes: key })?;
        Some(self.row_at(place))
    }

    /// Makes the row of a table's key the one used last, and tells where it stands. None where no row has the key there. Of the
    /// segments' bytes only links of rows change.
    pub fn touch(&mut self, table: u8, key: &[u8]) -> Option<Place>
        requires table { table < sizes.tables }
        ensures found { MatchOption result (apply.row_of (in_table table key.now) (rows_of self.old) ≡ None)
            (λ place. (row : Row) × (apply.row_of (in_table table key.now) (rows_of self.old) ≡ Some row)
            × StandsAt self.new.region place row × IsSome (live_at self.new.region place)) }
        ensures rows { rows_of self.new ≡ (apply.get (in_table table key.now) (rows_of self.old)).0 }
        ensures room { self.new.room ≡ self.old.room }
        ensures region { AreRelinked self.old.region self.new.region }
    {
        let sought = Key { table, bytes: key };
        self.use_row(&sought)
    }

    // Makes the row of a key the one used last, and tells where it stands.
    fn use_row(&mut self, key: &Key<'_>) -> Option<Place>
        requires table { key.now.table < sizes.tables }
        ensures found { MatchOption result (apply.row_of (key_shown key.now) (rows_of self.old) ≡ None)
            (λ place. (row : Row) × (apply.row_of (key_shown key.now) (rows_of self.old) ≡ Some row)
            × StandsAt self.new.region place row × IsSome (live_at self.new.region place)) }
        ensures rows { rows_of self.new ≡ (apply.get (key_shown key.now) (rows_of self.old)).0 }
        ensures room { self.new.room ≡ self.old.room }
        ensures region { AreRelinked self.old.region self.new.region }
    {
        let Ok(found) = self.tables.search(&self.region, key) else {
            return None;
        };
        self.tables.touch(&mut self.region, found.row);
        Some(self.tables.place(found.row))
    }
}
