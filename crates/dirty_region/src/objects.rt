//! The objects that hold puts.
ghost use Rattle.std.specs.Prelude.{◌≡◌, ◌+◌, ◌-◌, ◌≤◌, None, Some, IfSome};
ghost use Rattle.layout.specs.Sizes.{descriptor};
ghost use Rattle.rows.specs.Row.{size};
ghost use Rattle.object_log.specs.Objects.{IsSize};
ghost use Rattle.object_log.specs.Contents.{bytes_of, length_of, padded};
ghost use Rattle.row_bytes.specs.NewRows.{row_of, CanStand};
ghost use Rattle.regions.specs.Shapes.{shape, HasGroup};
ghost use Rattle.regions.specs.Counts.{left, live_total};
ghost use Rattle.regions.specs.Contents.{live_at, size_of, standing_at, holding, ChangesAt};
ghost use Rattle.dirty_region.specs.Puts.{dirty_kind};
ghost use Rattle.dirty_region.specs.inside.Rings.{HoldsAPut, AddsPut, Drops};

use layout::ObjectKind;
use object_log::NewContent;
use regions::{Place, Region};
use row_bytes::{Links, NewRow, row_header, row_size};

// The links of a put, which nobody reads: it has no neighbours. They are 0, and not the link that a row of a cache has
// where it has none.
const UNLINKED: Links = Links { newer: 0, older: 0 };

// A new object that holds a put, for which there is room.
fn new_object(region: &mut Region, size: u32, content: NewContent<'_>) -> Place
    requires group { HasGroup region.old 0 }
    requires size { IsSize size }
    requires content { descriptor + length_of content ≤ size }
    requires left { size ≤ left region.old 0 }
    ensures unused { standing_at region.old result ≡ None }
    ensures added { ChangesAt result (Some (holding (Some 0) dirty_kind (padded (size - descriptor) (bytes_of content.entry))))
        region.old region.new }
    ensures live { live_total region.new ≡ live_total region.old + size }
    ensures shape { shape region.new ≡ shape region.old }
{
    let Ok(place) = region.place_with(0, ObjectKind::Dirty as u8, size, content) else {
        unreachable!()
    };
    place
}

// Places a put as a new object with its position, for which there is room.
pub(crate) fn place_put(region: &mut Region, position: u32, put: NewRow<'_>) -> Place
    requires group { HasGroup region.old 0 }
    requires put { CanStand put }
    requires left { size put.key.now put.value.now ≤ left region.old 0 }
    ensures added { AddsPut result position (row_of put.entry) (live_at region.old) (live_at region.new) }
    ensures live { live_total region.new ≡ live_total region.old + size put.entry.key.now put.entry.value.now }
    ensures shape { shape region.new ≡ shape region.old }
{
    let header = row_header(
        position, put.number, UNLINKED, put.table, put.key, put.value,
    );
    let content = NewContent {
        header: header.as_slice(),
        first: put.key,
        second: put.value,
    };
    new_object(region, row_size(put.key, put.value), content)
}

// The live object at a place is dead from now on.
pub(crate) fn kill_put(region: &mut Region, place: Place)
    requires { HoldsAPut (live_at region.old place) }
    ensures dropped { Drops place (live_at region.old) (live_at region.new) }
    ensures live { IfSome (live_at region.old place) (λ item. live_total region.new + size_of item ≡ live_total region.old) }
    ensures shape { shape region.new ≡ shape region.old }
{
    region.kill(place);
}
