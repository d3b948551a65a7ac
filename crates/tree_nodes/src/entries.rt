//! The entries of a node.
ghost use Rattle.std.specs.Prelude.{◌≡◌, ℕ, ◌+◌, ◌<◌, ◌≤◌, ◌^◌, ◌++◌, length, take, drop, insert, remove, slice_set};
ghost use Rattle.layout.specs.Sizes.{greatest_key};
ghost use Rattle.tree_nodes.specs.Nodes.{IsNode, node_in, entry_at, entry_bytes, entry_size, header, most_entries};
ghost use Rattle.byteorder.specs.Endian.{little_bytes};
ghost use Rattle.tree_nodes.specs.inside.Splices.{over};

use crate::bytes::{close_up, put_at, take_at, write_number, write_over, write_short};
use crate::reading::{ENTRY, ENTRY_HEADER, count, entry_start};

/// Writes the number of an entry.
pub fn set_number(node: &mut [u8], i: u16, number: u32)
    requires node { IsNode node.old }
    requires i { i < length (node_in node.old).entries }
    ensures node { node_in node.new ≡ record (node_in node.old)
        { entries = slice_set (node_in node.old).entries i (record (entry_at (node_in node.old) i) { number = number }) } }
    ensures holds { IsNode node.new }
{
    write_number(node, entry_start(i) + 4, number);
}

/// Makes a key with its number this entry. The later ones move up.
pub fn add(node: &mut [u8], i: u16, key: &[u8], number: u32)
    requires node { IsNode node.old }
    requires room { length (node_in node.old).entries < most_entries }
    requires i { i ≤ length (node_in node.old).entries }
    requires some_key { 1 ≤ length key.now }
    requires short_key { length key.now ≤ greatest_key }
    ensures node { node_in node.new ≡ record (node_in node.old)
        { entries = insert (node_in node.old).entries i (record { key = key.now; number = number }) } }
    ensures holds { IsNode node.new }
{
    let held = count(node);
    let moved = (held - i) as usize * ENTRY;
    let entry = entry_of(key, number);
    put_at(node, entry_start(i), moved, entry.as_slice());
    set_count(node, held + 1);
}

/// Takes an entry away. The later ones move down, and the entry behind the last one is zero.
pub fn cut(node: &mut [u8], i: u16)
    requires node { IsNode node.old }
    requires i { i < length (node_in node.old).entries }
    ensures node { node_in node.new ≡ record (node_in node.old) { entries = remove (node_in node.old).entries i } }
    ensures holds { IsNode node.new }
{
    let held = count(node);
    let moved = (held - 1 - i) as usize * ENTRY;
    take_at(node, entry_start(i), moved, [0u8; ENTRY].as_slice());
    set_count(node, held - 1);
}

/// Takes `n` entries away, from one on. The later ones move down, and the entries behind the last one are zero.
pub fn cut_run(node: &mut [u8], i: u16, n: u16)
    requires node { IsNode node.old }
    requires run { i + n ≤ length (node_in node.old).entries }
    ensures node { node_in node.new ≡ record (node_in node.old)
        { entries = take i (node_in node.old).entries ++ drop (i + n) (node_in node.old).entries } }
    ensures holds { IsNode node.new }
{
    let held = count(node);
    let moved = (held - n - i) as usize * ENTRY;
    close_up(node, entry_start(i), moved, n as usize * ENTRY, 0);
    set_count(node, held - n);
}

/// The bytes of an entry.
fn entry_of(key: &[u8], number: u32) -> [u8; ENTRY]
    requires { length key.now ≤ greatest_key }
    ensures { result ≡ entry_bytes (record { key = key.now; number = number }) }
{
    let mut entry = [0u8; ENTRY];
    write_short(&mut entry, 0, key.len() as u16);
    write_number(&mut entry, 4, number);
    write_over(&mut entry, ENTRY_HEADER, key);
    entry
}

/// Writes how many entries there are.
fn set_count(node: &mut [u8], count: u16)
    requires { header ≤ length node.old }
    ensures { node.new ≡ over 10 (little_bytes 2 count) node.old }
{
    write_short(node, 10, count);
}
