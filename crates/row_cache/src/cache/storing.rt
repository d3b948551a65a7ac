//! How a row comes into the segments of a cache, and how it goes.
ghost use Rattle.std.specs.Prelude.{◌≡◌, ◌≢◌, ℕ, ◌+◌, ◌<◌, ◌≤◌, ◌↔◌, ◌⊎◌, ◌∷◌, true, length, slice_get, Some, None, IfOk, IfErr, IfSome, IsErr};
ghost use Rattle.layout.specs.Sizes as sizes;
ghost use Rattle.rows.specs.Key.{in_table};
ghost use Rattle.rows.specs.Row.{Row, size};
ghost use Rattle.rows.specs.Apply as apply;
ghost use Rattle.row_bytes.specs.NewRows.{row_of, CanStand};
ghost use Rattle.common_lemmas.specs.Lists.{delete};
ghost use Rattle.key_table.specs.Table.{IsSpotFor};
ghost use Rattle.key_table.specs.Lazy.{IsThere};
ghost use Rattle.regions.specs.Shapes.{shape, HasGroup};
ghost use Rattle.regions.specs.Counts.{left, live_total};
ghost use Rattle.regions.specs.Contents.{Item, live_at, size_of};
ghost use Rattle.regions.specs.Places.{HasRoom};
ghost use Rattle.row_cache.specs.Rows.{group_for, key_at, reply_of, AreGrouped, Stay};
ghost use Rattle.row_cache.specs.inside.Tables.{Drops, HoldsARow, IsListed, PlacesRow, SwapsRow};
ghost use Rattle.row_cache.specs.inside.Consistent.{HasGroups, IsConsistent, KeepsParts, rows_in, rows_with};

use crate::put::Put;
use crate::tables::Tables;
use key_table::{RowAt, Spot};
use layout::ObjectKind;
use object_log::NewContent;
use regions::{NeedSegment, Place, Region};
use row_bytes::{Links, NO_LINK, NewRow, row_header, row_size};
use rows::Key;

// The links of a row that is not in the chain yet: both lead to no row.
const UNLINKED: Links = Links {
    newer: NO_LINK,
    older: NO_LINK,
};

// The group in which the rows of a table stand.
pub(super) fn group_for(region: &Region, table: u8) -> u32
    requires { HasGroups region.now }
    ensures group { result ≡ group_for region.now table }
    ensures has { HasGroup region.now result }
{
    let number = u32::from(table);
    let groups = region.groups();
    if number < groups {
        number
    } else {
        number % groups
    }
}

// Stores a row in front of the others, and instead of the one that has its key. The group is that of its table, here and below.
pub(super) fn put_row(
    region: &mut Region,
    tables: &mut Tables,
    group: u32,
    row: NewRow<'_>,
) -> Result<Put, NeedSegment>
    requires consistent { IsConsistent tables.old region.old }
    requires group { group ≡ group_for region.old row.table }
    requires row { CanStand row }
    requires room { (apply.has (in_table row.table row.key.now) (rows_in tables.old region.old) ≡ true)
        ⊎ (length (rows_in tables.old region.old) < tables.old.room) }
    ensures full { IsErr result ↔ left region.old group < size row.entry.key.now row.entry.value.now }
    ensures unchanged { IfErr result (λ _. (region.new ≡ region.old) × (tables.new ≡ tables.old)) }
    ensures consistent { IsConsistent tables.new region.new }
    ensures rows { IfOk result (λ _. rows_in tables.new region.new ≡
        (apply.put (in_table row.entry.table row.entry.key.now) row.entry.value.now row.entry.number
        (rows_in tables.old region.old)).0) }
    ensures reply { IfOk result (λ did. reply_of did ≡ (apply.put (in_table row.entry.table row.entry.key.now)
        row.entry.value.now row.entry.number (rows_in tables.old region.old)).1) }
    ensures keeps { KeepsParts tables.old tables.new region.old region.new }
    ensures left { IfOk result (λ _. left region.new group + size row.entry.key.now row.entry.value.now ≡ left region.old group) }
{
    let sought = Key {
        table: row.table,
        bytes: row.key,
    };
    match tables.search(region, &sought) {
        Ok(found) => {
            replace_row(region, tables, group, found.row, row)?;
            Ok(Put::Replaced)
        }
        Err(at) => {
            store_row(region, tables, group, at, row)?;
            Ok(Put::Stored)
        }
    }
}

// Stores a row whose key no other row has, in front of the others.
fn store_row(
    region: &mut Region,
    tables: &mut Tables,
    group: u32,
    at: Spot,
    row: NewRow<'_>,
) -> Result<(), NeedSegment>
    requires consistent { IsConsistent tables.old region.old }
    requires group { group ≡ group_for region.old row.table }
    requires row { CanStand row }
    requires at { IsSpotFor (in_table row.table row.key.now) at }
    requires absent { (n : ℕ) → IsListed tables.old n → key_at (live_at region.old) tables.old.places n
        ≢ in_table row.table row.key.now }
    requires room { length tables.old.recency < tables.old.room }
    ensures full { IsErr result ↔ left region.old group < size row.entry.key.now row.entry.value.now }
    ensures unchanged { IfErr result (λ _. (region.new ≡ region.old) × (tables.new ≡ tables.old)) }
    ensures consistent { IsConsistent tables.new region.new }
    ensures rows { IfOk result (λ _. rows_in tables.new region.new ≡ row_of row.entry ∷ rows_in tables.old region.old) }
    ensures keeps { KeepsParts tables.old tables.new region.old region.new }
    ensures left { IfOk result (λ _. left region.new group + size row.entry.key.now row.entry.value.now ≡ left region.old group) }
{
    let place = place_row(region, group, tables.next_number(), row)?;
    tables.insert(region, at, place);
    Ok(())
}

// Stores a row in front of the others, instead of the one with its number, which has its key.
fn replace_row(
    region: &mut Region,
    tables: &mut Tables,
    group: u32,
    number: u32,
    row: NewRow<'_>,
) -> Result<(), NeedSegment>
    requires consistent { IsConsistent tables.old region.old }
    requires group { group ≡ group_for region.old row.table }
    requires row { CanStand row }
    requires listed { IsListed tables.old number }
    requires key { key_at (live_at region.old) tables.old.places number ≡ in_table row.table row.key.now }
    ensures full { IsErr result ↔ left region.old group < size row.entry.key.now row.entry.value.now }
    ensures unchanged { IfErr result (λ _. (region.new ≡ region.old) × (tables.new ≡ tables.old)) }
    ensures consistent { IsConsistent tables.new region.new }
    ensures rows { IfOk result (λ _. rows_in tables.new region.new ≡ row_of row.entry ∷ rows_with tables.old region.old
        (delete number tables.old.recency)) }
    ensures keeps { KeepsParts tables.old tables.new region.old region.new }
    ensures left { IfOk result (λ _. left region.new group + size row.entry.key.now row.entry.value.now ≡ left region.old group) }
{
    let size = row_size(row.key, row.value);
    if region.left(group) < size {
        return Err(NeedSegment);
    }
    tables.unlink(region, number);
    let Ok(place) = swap_row(region, group, number, row, tables.place(number)) else {
        unreachable!()
    };
    tables.replace(region, number, place);
    Ok(())
}

// Takes the row out.
pub(super) fn drop_row(region: &mut Region, tables: &mut Tables, found: RowAt)
    requires consistent { IsConsistent tables.old region.old }
    requires at { IsThere tables.old.index found }
    requires listed { IsListed tables.old found.row }
    ensures consistent { IsConsistent tables.new region.new }
    ensures rows { rows_in tables.new region.new ≡ rows_with tables.old region.old (delete found.row tables.old.recency) }
    ensures keeps { KeepsParts tables.old tables.new region.old region.new }
    ensures left { (g : ℕ) → left region.new g ≡ left region.old g }
{
    let standing = tables.standing(region, found);
    tables.unlink(region, found.row);
    kill_row(region, tables.place(found.row));
    tables.remove(standing);
}

// Places a row as a new object, and only then kills the live one at a place. Answers the new place.
#[tactic(auto, using(crate::proofs::Caches::row_swapped))]
fn swap_row(
    region: &mut Region,
    group: u32,
    number: u32,
    row: NewRow<'_>,
    old: Place,
) -> Result<Place, NeedSegment>
    requires row { CanStand row }
    requires some { HasGroups region.old }
    requires group { group ≡ group_for region.old row.table }
    requires old { HoldsARow (live_at region.old old) }
    ensures full { IsErr result ↔ left region.old group < size row.entry.key.now row.entry.value.now }
    ensures unchanged { IfErr result (λ _. region.new ≡ region.old) }
    ensures room { IfOk result HasRoom }
    ensures swapped { IfOk result (λ place. SwapsRow old place number (row_of row.entry) (live_at region.old) (live_at region.new)) }
    ensures live { IfOk result (λ _. IfSome (live_at region.old old) (λ item. live_total region.new + size_of item
        ≡ live_total region.old + size row.entry.key.now row.entry.value.now)) }
    ensures shape { shape region.new ≡ shape region.old }
    ensures left { IfOk result (λ _. left region.new group + size row.entry.key.now row.entry.value.now ≡ left region.old group) }
    ensures grouped { IfOk result (λ _. AreGrouped region.old → AreGrouped region.new) }
    ensures stay { Stay region.old region.new }
{
    let place = place_row(region, group, number, row)?;
    kill_row(region, old);
    Ok(place)
}

// Places a row as a new object.
fn place_row(
    region: &mut Region,
    group: u32,
    number: u32,
    row: NewRow<'_>,
) -> Result<Place, NeedSegment>
    requires row { CanStand row }
    requires some { HasGroups region.old }
    requires group { group ≡ group_for region.old row.table }
    ensures full { IsErr result ↔ left region.old group < size row.entry.key.now row.entry.value.now }
    ensures unchanged { IfErr result (λ _. region.new ≡ region.old) }
    ensures room { IfOk result HasRoom }
    ensures added { IfOk result (λ place. PlacesRow place number (row_of row.entry) (live_at region.old) (live_at region.new)) }
    ensures rows { IfOk result (λ _. (q : Place) → HoldsARow (live_at region.old q) → live_at region.new q ≡ live_at region.old q) }
    ensures shape { shape region.new ≡ shape region.old }
    ensures left { IfOk result (λ _. left region.new group + size row.entry.key.now row.entry.value.now ≡ left region.old group) }
    ensures live { IfOk result (λ _. live_total region.new ≡ live_total region.old + size row.entry.key.now row.entry.value.now) }
    ensures grouped { IfOk result (λ _. AreGrouped region.old → AreGrouped region.new) }
    ensures stay { Stay region.old region.new }
{
    let header = row_header(number, row.number, UNLINKED, row.table, row.key, row.value);
    let content = NewContent {
        header: header.as_slice(),
        first: row.key,
        second: row.value,
    };
    let place = region.place_with(
        group,
        ObjectKind::Row as u8,
        row_size(row.key, row.value),
        content,
    )?;
    Ok(place)
}

// The live object at a place is dead from now on.
fn kill_row(region: &mut Region, place: Place)
    requires { HoldsARow (live_at region.old place) }
    ensures dropped { Drops place (live_at region.old) (live_at region.new) }
    ensures live { IfSome (live_at region.old place) (λ item. live_total region.new + size_of item ≡ live_total region.old) }
    ensures shape { shape region.new ≡ shape region.old }
    ensures left { (g : ℕ) → left region.new g ≡ left region.old g }
    ensures grouped { AreGrouped region.old → AreGrouped region.new }
    ensures stay { Stay region.old region.new }
{
    region.kill(place);
}
