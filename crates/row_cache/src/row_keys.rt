//! The keys of rows, read where they stand.
ghost use Rattle.std.specs.Prelude.{◌≡◌};
ghost use Rattle.row_bytes.specs.Rows.{IsRow, row_in};
ghost use Rattle.regions.specs.Contents.{live_at};
ghost use Rattle.row_cache.specs.Rows.{row_at};
ghost use Rattle.row_cache.specs.inside.Tables.{HasRow};

use key_table::Keys;
use regions::{Place, Region};
use row_bytes::key_of_row;
use rows::Key;

// Reads the keys of rows where they stand.
#[derive(Clone, Copy)]
pub(crate) struct RowKeys<'a> {
    pub(crate) region: &'a Region,
    pub(crate) places: &'a [Place],
}

// The content of the row of a number.
pub(crate) fn content_of<'a>(region: &'a Region, places: &[Place], number: u32) -> &'a [u8]
    requires { HasRow (live_at region.now) places.now number }
    ensures row { IsRow result.now }
    ensures read { row_in result.now ≡ row_at (live_at region.now) places.now number }
{
    region.bytes(places[number as usize])
}

impl<'a> Keys for RowKeys<'a> {
    ghost use Rattle.regions.specs.Contents.{live_at};
    ghost use Rattle.row_cache.specs.Rows.{key_at};
    ghost use Rattle.row_cache.specs.inside.Tables.{HasRow};

    ghost has_row = { λ k. HasRow (live_at k.region.now) k.places.now };

    ghost key_of = { λ k. key_at (live_at k.region.now) k.places.now };

    fn key(&self, row: u32) -> Key<'_> {
        key_of_row(content_of(self.region, self.places, row))
    }
}
