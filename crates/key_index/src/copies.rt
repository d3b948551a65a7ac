//! Entries that are put in, taken out and written over others in the room of one block.
ghost use Rattle.std.specs.Prelude.{◌≡◌, ◌+◌, ◌-◌, ◌<◌, ◌≤◌, ◌++◌, length, take, drop};
ghost use Rattle.std.specs.List.{insert, remove};
ghost use Rattle.key_index.specs.inside.Sizes.{half_block};

use crate::blocks::HALF;
use crate::entries::{Entry, NONE};

/// Puts an entry in at a place among the first so many. Those from there on move up.
pub(crate) fn put_in(entries: &mut [Entry], len: usize, at: usize, entry: Entry)
    requires at { at ≤ len }
    requires room { len < length entries.old }
    ensures first { take (len + 1) entries.new ≡ insert (take len entries.old) at entry }
    ensures len { length entries.new ≡ length entries.old }
{
    entries.copy_within(at..len, at + 1);
    entries[at] = entry;
}

/// Takes the entry at a place out of the first so many. Those behind it move down.
pub(crate) fn close_up(entries: &mut [Entry], len: usize, at: usize)
    requires at { at < len }
    requires within { len ≤ length entries.old }
    ensures first { take (len - 1) entries.new ≡ remove (take len entries.old) at }
    ensures len { length entries.new ≡ length entries.old }
{
    entries.copy_within(at + 1..len, at);
}

/// Some entries, from a place on, and behind them entries of no row.
pub(crate) fn copied(entries: &[Entry], from: usize, count: usize) -> [Entry; HALF]
    requires from { from + count ≤ length entries.now }
    requires few { count ≤ half_block }
    ensures { take count result ≡ take count (drop from entries.now) }
{
    let mut part = [NONE; HALF];
    part[..count].copy_from_slice(&entries[from..from + count]);
    part
}

/// Writes entries over those behind the first so many.
pub(crate) fn write_behind(entries: &mut [Entry], len: usize, part: &[Entry])
    requires { len + length part.now ≤ length entries.old }
    ensures first { take (len + length part.now) entries.new ≡ take len entries.old ++ part.now }
    ensures len { length entries.new ≡ length entries.old }
{
    entries[len..len + part.len()].copy_from_slice(part);
}
