//! Where a key stands among those of a node.
ghost use Rattle.std.specs.Prelude.{◌≡◌, ◌<◌, ◌≤◌, length};
ghost use Rattle.std.specs.Ordering.{is_lt};
ghost use Rattle.tree_nodes.specs.Nodes.{IsNode, node_in, entry_at};
ghost use Rattle.tree_nodes.specs.Order.{AreRising, count_below, key_cmp};
ghost use Rattle.tree_nodes.specs.inside.Leads.{lead_of, leads_below, leads_upto};

use crate::leads::{lead_at, lead_of};
use crate::reading::{count, key};
use std::cmp::Ordering;

/// How many of the node's keys are below a key: the first eight bytes of each are read, and at most five keys whole.
pub fn find(node: &[u8], key: &[u8]) -> u16
    requires node { IsNode node.now }
    requires rising { AreRising (node_in node.now).entries }
    ensures { result ≡ count_below (node_in node.now).entries key.now }
{
    let (low, high) = count_leads(node, lead_of(key));
    find_among(node, key, low, high)
}

/// How many of the node's keys have leads below a lead, and how many below it or the same.
#[inline(always)]
fn count_leads(node: &[u8], sought: u64) -> (u16, u16)
    requires { IsNode node.now }
    ensures below { result.0 ≡ leads_below (node_in node.now).entries sought }
    ensures upto { result.1 ≡ leads_upto (node_in node.now).entries sought }
{
    let mut low = 0;
    let mut high = 0;
    for i in 0..count(node) {
        let lead = lead_at(node, i);
        low += u16::from(lead < sought);
        high += u16::from(lead <= sought);
    }
    (low, high)
}

/// How many of the node's keys are below a key, which are at least `least` and at most `most`.
fn find_among(node: &[u8], key: &[u8], least: u16, most: u16) -> u16
    requires node { IsNode node.now }
    requires rising { AreRising (node_in node.now).entries }
    requires least { least ≤ count_below (node_in node.now).entries key.now }
    requires most { count_below (node_in node.now).entries key.now ≤ most }
    requires within { most ≤ length (node_in node.now).entries }
    ensures { result ≡ count_below (node_in node.now).entries key.now }
{
    let mut low = least;
    let mut high = most;
    while low < high {
        let middle = low + (high - low) / 2;
        if is_below(node, middle, key) {
            low = middle + 1;
        } else {
            high = middle;
        }
    }
    low
}

/// How the key of an entry compares with a key.
fn order(node: &[u8], i: u16, sought: &[u8]) -> Ordering
    requires node { IsNode node.now }
    requires i { i < length (node_in node.now).entries }
    ensures { result ≡ key_cmp (entry_at (node_in node.now) i).key sought.now }
{
    key(node, i).cmp(sought)
}

/// Whether the key of an entry is below a key.
fn is_below(node: &[u8], i: u16, sought: &[u8]) -> bool
    requires node { IsNode node.now }
    requires i { i < length (node_in node.now).entries }
    ensures { result ≡ is_lt (key_cmp (entry_at (node_in node.now) i).key sought.now) }
{
    order(node, i, sought).is_lt()
}
