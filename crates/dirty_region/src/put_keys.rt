//! The keys of puts, read where they stand.
ghost use Rattle.std.specs.Prelude.{◌≡◌};
ghost use Rattle.row_bytes.specs.Rows.{IsRow, row_in};
ghost use Rattle.regions.specs.Contents.{live_at};
ghost use Rattle.dirty_region.specs.inside.Rings.{HasSomePut, put_at};

use key_index::Keys;
use regions::{Place, Region};
use row_bytes::key_of_row;
use rows::Key;

// Reads the keys of puts where they stand.
#[derive(Clone, Copy)]
pub(crate) struct PutKeys<'a> {
    pub(crate) region: &'a Region,
    pub(crate) places: &'a [Place],
}

// The content of the put of a slot.
pub(crate) fn content_of<'a>(region: &'a Region, places: &[Place], slot: u32) -> &'a [u8]
    requires { HasSomePut (live_at region.now) places.now slot }
    ensures row { IsRow result.now }
    ensures read { row_in result.now ≡ put_at (live_at region.now) places.now slot }
{
    region.bytes(places[slot as usize])
}

impl<'a> Keys for PutKeys<'a> {
    ghost use Rattle.regions.specs.Contents.{live_at};
    ghost use Rattle.dirty_region.specs.inside.Rings.{HasSomePut, key_at};

    ghost has_row = { λ k. HasSomePut (live_at k.region.now) k.places.now };

    ghost key_of = { λ k. key_at (live_at k.region.now) k.places.now };

    fn key(&self, row: u32) -> Key<'_> {
        key_of_row(content_of(self.region, self.places, row))
    }
}
