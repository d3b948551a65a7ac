//! The leads of keys: the first eight bytes as a number, with zeros behind a shorter key.
ghost use Rattle.std.specs.Prelude.{◌≡◌, ◌+◌, ◌<◌, ◌≤◌, length, drop};
ghost use Rattle.byteorder.specs.Endian.{big_number};
ghost use Rattle.tree_nodes.specs.Nodes.{IsNode, node_in, entry_at};
ghost use Rattle.tree_nodes.specs.inside.Leads.{lead_of};

use crate::bytes::write_over;
use crate::reading::{ENTRY_HEADER, entry_start};
use byteorder::{BigEndian, ByteOrder};

/// How many bytes of a key its lead has.
const LEAD: usize = 8;

/// The lead of a key.
#[inline(always)]
pub(crate) fn lead_of(key: &[u8]) -> u64
    ensures { result ≡ lead_of key.now }
{
    if key.len() >= LEAD {
        BigEndian::read_u64(key)
    } else {
        short_lead(key)
    }
}

/// The lead of a short key.
fn short_lead(key: &[u8]) -> u64
    requires { length key.now < 8 }
    ensures { result ≡ lead_of key.now }
{
    let mut bytes = [0u8; LEAD];
    write_over(&mut bytes, 0, key);
    BigEndian::read_u64(bytes.as_slice())
}

/// The lead of an entry's key, which has zeros behind it.
#[inline(always)]
pub(crate) fn lead_at(node: &[u8], i: u16) -> u64
    requires node { IsNode node.now }
    requires i { i < length (node_in node.now).entries }
    ensures { result ≡ lead_of (entry_at (node_in node.now) i).key }
{
    big_number_at(node, entry_start(i) + ENTRY_HEADER)
}

/// The number in the eight bytes from `at` on, the highest first.
#[inline(always)]
fn big_number_at(content: &[u8], at: usize) -> u64
    requires { at + 8 ≤ length content.now }
    ensures { result ≡ big_number 8 (drop at content.now) }
{
    BigEndian::read_u64(&content[at..])
}
