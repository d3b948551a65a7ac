//! What a cache tells of itself.
ghost use Rattle.std.specs.Prelude.{◌≡◌, ◌⊎◌, ◌↔◌, ◌<◌, ◌≤◌, false, length, Some, None, IsSome, IfSome, MatchOption};
ghost use Rattle.layout.specs.Sizes.{greatest_value, tables};
ghost use Rattle.rows.specs.Key.{in_table};
ghost use Rattle.rows.specs.Row.{Row, live};
ghost use Rattle.rows.specs.Apply as apply;
ghost use Rattle.regions.specs.Shapes.{group_count, group_of, guards_at, guards_of, free_count, HasGroup, IsUnguarded};
ghost use Rattle.regions.specs.Counts.{left, live_total};
ghost use Rattle.regions.specs.Contents.{live_at};
ghost use Rattle.row_cache.specs.Rows.{group_for, rows_of, StandsAt, IsLinkedThrough, AreGrouped, AreMetOnce};

use super::RowCache;
use super::storing::group_for;
use compaction::is_guarded;
use regions::Place;
use row_bytes::{put_in, value_in};
use rows::Key;

impl RowCache {
    /// How many rows there are. Each is met once along the links, which lead through all of them both ways, and each stands in a
    /// segment of its table's group.
    pub fn rows(&self) -> u32
        ensures count { result ≡ length (rows_of self.now) }
        ensures room { length (rows_of self.now) ≤ self.now.room }
        ensures linked { IsLinkedThrough self.now }
        ensures met { AreMetOnce self.now }
        ensures groups { (1 ≤ group_count self.now.region) × (group_count self.now.region ≤ 8) }
        ensures grouped { AreGrouped self.now.region }
    {
        self.region.facts();
        self.tables.len()
    }

    /// The live bytes: the sizes of all rows together, which are those of the segments' live objects.
    pub fn live(&self) -> u64
        ensures rows { result ≡ live (rows_of self.now) }
        ensures segments { result ≡ live_total self.now.region }
    {
        self.region.live()
    }

    /// The length of the value of the row of a table's key, in bytes, at most 12,000. None where no row has the key there.
    pub fn find_len(&self, table: u8, key: &[u8]) -> Option<u32>
        requires table { table < tables }
        ensures found { MatchOption result (apply.row_of (in_table table key.now) (rows_of self.now) ≡ None)
            (λ len. (row : Row) × (apply.row_of (in_table table key.now) (rows_of self.now) ≡ Some row)
            × (len ≡ length row.value)) }
        ensures short { IfSome result (λ len. len ≤ greatest_value) }
    {
        let place = self.place_of(table, key)?;
        Some(self.value_at(place).len() as u32)
    }

    /// Where the row of a table's key stands: in a segment of the table's group. None where no row has the key there.
    pub fn place_of(&self, table: u8, key: &[u8]) -> Option<Place>
        requires table { table < tables }
        ensures found { MatchOption result (apply.row_of (in_table table key.now) (rows_of self.now) ≡ None)
            (λ place. (row : Row) × (apply.row_of (in_table table key.now) (rows_of self.now) ≡ Some row)
            × StandsAt self.now.region place row × IsSome (live_at self.now.region place)) }
        ensures group { IfSome result (λ place. group_of self.now.region place.segment ≡ Some (group_for self.now.region table)) }
    {
        self.region.facts();
        let sought = Key { table, bytes: key };
        let Ok(found) = self.tables.search(&self.region, &sought) else {
            return None;
        };
        Some(self.tables.place(found.row))
    }

    /// The value of the row at a place, live, or dead under a guard of its segment's group.
    pub fn value_at(&self, place: Place) -> &[u8]
        requires row { (row : Row) × StandsAt self.now.region place row }
        requires live { IsSome (live_at self.now.region place) ⊎ (1 ≤ guards_at self.now.region place.segment) }
        ensures { (row : Row) × StandsAt self.now.region place row × (result.now ≡ row.value) }
    {
        value_in(self.region.bytes(place))
    }

    /// The value of the row at a place, live, or dead under a guard of its segment's group, and the number of its put.
    pub fn row_at(&self, place: Place) -> (&[u8], u32)
        requires row { (row : Row) × StandsAt self.now.region place row }
        requires live { IsSome (live_at self.now.region place) ⊎ (1 ≤ guards_at self.now.region place.segment) }
        ensures { (row : Row) × StandsAt self.now.region place row × (result.0.now ≡ row.value) × (result.1 ≡ row.number) }
    {
        let content = self.region.bytes(place);
        (value_in(content), put_in(content))
    }

    /// How many segments are free.
    pub fn free_segments(&self) -> u32
        ensures { result ≡ free_count self.now.region }
    {
        self.region.free_segments()
    }

    /// The group in which the rows of a table stand.
    pub fn group_of(&self, table: u8) -> u32
        ensures group { result ≡ group_for self.now.region table }
        ensures has { HasGroup self.now.region result }
    {
        group_for(&self.region, table)
    }

    /// The bytes that the active segment of the group has left, or 0 where there is none.
    pub fn left(&self, group: u32) -> u32
        requires { HasGroup self.now.region group }
        ensures { result ≡ left self.now.region group }
    {
        self.region.left(group)
    }

    /// How many guards stand on the group.
    pub fn guards(&self, group: u32) -> u32
        requires { HasGroup self.now.region group }
        ensures { result ≡ guards_of self.now.region group }
    {
        self.region.guards(group)
    }

    /// Whether a guard stands on any group.
    pub fn is_guarded(&self) -> bool
        ensures { result ≡ false ↔ IsUnguarded self.now.region }
    {
        is_guarded(&self.region)
    }
}
