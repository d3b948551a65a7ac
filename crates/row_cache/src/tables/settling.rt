//! Rows that wait get their places in the order of their keys.
ghost use Rattle.std.specs.Prelude.{◌≡◌, [], length};
ghost use Rattle.regions.specs.Contents.{live_at};
ghost use Rattle.row_cache.specs.inside.Tables as tables;

use super::Tables;
use crate::row_keys::RowKeys;
use regions::Region;

impl Tables {
    // How many rows wait for their places in the order of their keys.
    pub(crate) fn waiting(&self) -> u32
        ensures { result ≡ length self.now.index.late }
    {
        self.index.waiting()
    }

    // One of the rows that wait gets its place in the order of their keys.
    pub(crate) fn settle_one(&mut self, region: &Region)
        requires { tables.AreTablesOf self.old (live_at region.now) }
        ensures tables { tables.AreTablesOf self.new (live_at region.now) }
        ensures recency { self.new.recency ≡ self.old.recency }
        ensures ends { self.new.ends ≡ self.old.ends }
        ensures places { self.new.places ≡ self.old.places }
        ensures room { self.new.room ≡ self.old.room }
    {
        let keys = RowKeys {
            region,
            places: self.places.as_slice(),
        };
        self.index.settle_one(&keys);
    }

    // All rows get their places in the order of their keys.
    pub(crate) fn settle(&mut self, region: &Region)
        requires { tables.AreTablesOf self.old (live_at region.now) }
        ensures tables { tables.AreTablesOf self.new (live_at region.now) }
        ensures recency { self.new.recency ≡ self.old.recency }
        ensures ends { self.new.ends ≡ self.old.ends }
        ensures places { self.new.places ≡ self.old.places }
        ensures room { self.new.room ≡ self.old.room }
        ensures settled { self.new.index.late ≡ [] }
    {
        let keys = RowKeys {
            region,
            places: self.places.as_slice(),
        };
        self.index.settle(&keys);
    }
}
