//! How a value comes into the segments, and how it goes.
ghost use Rattle.std.specs.Prelude.{◌≡◌, ◌≢◌, ◌+◌, ◌-◌, ◌*◌, ◌<◌, ◌≤◌, ℕ, [], ◌∷◌, length, take, drop};
ghost use Rattle.regions.specs.Shapes.{shape, group_count, guards_of, held_count, free_count};
ghost use Rattle.regions.specs.Counts.{live_total};
ghost use Rattle.regions.specs.Contents.{live_at};
ghost use Rattle.segmented_store.specs.Room.{room};
ghost use Rattle.fragments.specs.Sizes.{fragment_bytes, greatest_value, most_fragments, object_size, size};
ghost use Rattle.fragments.specs.Chains as chains;
ghost use Rattle.segmented_store.specs.Segments.{HoldsSegments};
ghost use Rattle.fragments.specs.Store.{Stay};
ghost use Rattle.fragments.specs.inside.Consistent.{AreEntries, size_of_parts};
ghost use Rattle.fragments.specs.inside.Setting.{Writes, Replaces, Sets};

use crate::bytes::{FRAGMENT_BYTES, fragment_count, object_size};
use crate::tables::Tables;
use regions::Region;
use segmented_store::make_room;

// Places one more fragment in front of those of the value that is being written.
fn add_part(region: &mut Region, tables: &mut Tables, part: &[u8])
    requires chains { chains.AreChains tables.old (live_at region.old) }
    requires one { group_count region.old ≡ 1 }
    requires guards { guards_of region.old 0 ≡ 0 }
    requires held { 3 ≤ held_count region.old }
    requires free { 1 ≤ free_count region.old }
    requires short { length part.now ≤ fragment_bytes }
    requires within { live_total region.old + object_size (length part.now) ≤ room (held_count region.old) }
    requires few { length (chains.chain_at tables.old.chains tables.old.names) < most_fragments }
    requires name { tables.old.grows < tables.old.names }

    // The chains, and what they hold.
    ensures chains { chains.AreChains tables.new (live_at region.new) }
    ensures parts { (all more : chains.Parts) → chains.HoldParts tables.old (live_at region.old) all
        → more tables.old.names ≡ part.now ∷ all tables.old.names → ((e : ℕ) → e ≢ tables.old.names → more e ≡ all e)
        → chains.HoldParts tables.new (live_at region.new) more }
    ensures names { tables.new.names ≡ tables.old.names }
    ensures grows { tables.new.grows ≡ tables.old.grows }
    ensures longer { length (chains.chain_at tables.new.chains tables.old.names)
        ≡ length (chains.chain_at tables.old.chains tables.old.names) + 1 }

    // Counted: its bytes are live. The segments are those that were there.
    ensures live_total { live_total region.new ≡ live_total region.old + object_size (length part.now) }
    ensures free { 1 ≤ free_count region.new }
    ensures segments { HoldsSegments region.old region.new }
{
    make_room(region, tables, object_size(part.len()));
    tables.grow(region, part);
}

// Sets the value of a name. The old one is dropped when the new one stands.
#[tactic(auto, using(crate::proofs::Setting::written_then_replaced))]
pub(super) fn set_value(region: &mut Region, tables: &mut Tables, name: u32, bytes: &[u8])
    requires chains { chains.AreChains tables.old (live_at region.old) }
    requires none { chains.chain_at tables.old.chains tables.old.names ≡ [] }
    requires one { group_count region.old ≡ 1 }
    requires guards { guards_of region.old 0 ≡ 0 }
    requires held { 3 ≤ held_count region.old }
    requires free { 1 ≤ free_count region.old }
    requires name { name < tables.old.names }
    requires short { length bytes.now ≤ greatest_value }
    requires within { live_total region.old + size (length bytes.now) ≤ room (held_count region.old) }
    ensures { Sets tables.old tables.new region.old region.new name bytes.now }
{
    write_value(region, tables, name, bytes);
    replace_value(region, tables, name);
}

// Writes a value beside those that are there, the last fragment first.
fn write_value(region: &mut Region, tables: &mut Tables, name: u32, bytes: &[u8])
    requires chains { chains.AreChains tables.old (live_at region.old) }
    requires none { chains.chain_at tables.old.chains tables.old.names ≡ [] }
    requires one { group_count region.old ≡ 1 }
    requires guards { guards_of region.old 0 ≡ 0 }
    requires held { 3 ≤ held_count region.old }
    requires free { 1 ≤ free_count region.old }
    requires name { name < tables.old.names }
    requires short { length bytes.now ≤ greatest_value }
    requires within { live_total region.old + size (length bytes.now) ≤ room (held_count region.old) }

    ensures { Writes tables.old tables.new region.old region.new name bytes.now }
{
    tables.begin(name);
    let mut left = fragment_count(bytes.len()) - 1;
    add_part(region, tables, &bytes[left * FRAGMENT_BYTES..]);
    while left > 0 {
        left -= 1;
        add_part(region, tables, part_of(bytes, left));
    }
    // What always holds of the segments: a caller learns it of them as they are now, before the old value is dropped.
    region.facts();
}

// The part of a value with a number, which is not the last.
fn part_of(bytes: &[u8], number: usize) -> &[u8]
    requires { number * fragment_bytes + fragment_bytes ≤ length bytes.now }
    ensures bytes { result.now ≡ take fragment_bytes (drop (number * fragment_bytes) bytes.now) }
    ensures length { length result.now ≡ fragment_bytes }
{
    let start = number * FRAGMENT_BYTES;
    &bytes[start..start + FRAGMENT_BYTES]
}

// Drops the value of a name, instead of which the one that was written is its value from now on.
fn replace_value(region: &mut Region, tables: &mut Tables, name: u32)
    requires chains { chains.AreChains tables.old (live_at region.old) }
    requires name { name < tables.old.names }
    requires grows { tables.old.grows ≡ name }
    ensures { Replaces tables.old tables.new region.old region.new name }
{
    drop_value(region, tables, name);
    tables.settle(name);
}

// Drops the value of a name: no fragment of it lives.
pub(super) fn drop_value(region: &mut Region, tables: &mut Tables, name: u32)
    requires chains { chains.AreChains tables.old (live_at region.old) }
    requires name { name < tables.old.names }

    // The chains, and what they hold.
    ensures chains { chains.AreChains tables.new (live_at region.new) }
    ensures parts { (all fewer : chains.Parts) → chains.HoldParts tables.old (live_at region.old) all → fewer name ≡ []
        → ((e : ℕ) → e ≢ name → fewer e ≡ all e) → chains.HoldParts tables.new (live_at region.new) fewer }
    ensures entries { AreEntries tables.new }
    ensures names { tables.new.names ≡ tables.old.names }
    ensures grows { tables.new.grows ≡ tables.old.grows }
    ensures none { chains.chain_at tables.new.chains name ≡ [] }
    ensures others { (e : ℕ) → e ≢ name → chains.chain_at tables.new.chains e ≡ chains.chain_at tables.old.chains e }

    // Counted: its bytes are live no more. The segments are as they were, and no fragment moved.
    ensures live_total { (all : chains.Parts) → chains.HoldParts tables.old (live_at region.old) all
        → live_total region.new + size_of_parts (all name) ≡ live_total region.old }
    ensures shape { shape region.new ≡ shape region.old }
    ensures stay { Stay region.old region.new }
{
    while let Some(place) = tables.first(name) {
        tables.drop_front(region, name, place);
    }
}
