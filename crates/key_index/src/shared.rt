//! Keys that are compared behind the first bytes that they share. The table counts as the first byte of a key.
ghost use Rattle.std.specs.Prelude.{◌≡◌, ℕ, ◌+◌, ◌*◌, ◌/◌, ◌^◌, ◌<◌, ◌≤◌, List, length, take, drop};
ghost use Rattle.std.specs.Ordering.{nat_cmp};
ghost use Rattle.std.specs.Cmp.Lexicographic.{slice_cmp};
ghost use Rattle.layout.specs.Sizes.{tables};
ghost use Rattle.rows.specs.Key.{key_shown};
ghost use Rattle.key_index.specs.Order.{key_cmp};
ghost use Rattle.key_index.specs.Lead.{first_bytes, lead_behind, AreBytes};
ghost use Rattle.key_index.specs.inside.Shared.{HaveSame, Share};

use rows::Key;
use std::cmp::Ordering;

/// How many bytes are compared at once, first and then.
const LONG: usize = 64;

const SHORT: usize = 8;

/// What a table counts in the lead of a key behind nothing.
const TABLE: u64 = 0x2000_0000_0000_0000;

/// How a key compares with another, and how many first bytes they are seen to share.
#[derive(Clone, Copy)]
pub(crate) struct Compared {
    pub(crate) order: Ordering,
    pub(crate) shared: usize,
}

/// How many first bytes two lists share, in strides from so many on.
fn shared_strides(a: &[u8], b: &[u8], from: usize, stride: usize) -> usize
    requires shared { HaveSame from a.now b.now }
    requires some { 0 < stride }
    ensures { HaveSame result a.now b.now }
{
    let mut count = from;
    while a.len() - count >= stride
        && b.len() - count >= stride
        && a[count..count + stride] == b[count..count + stride]
    {
        count += stride;
    }
    count
}

/// How many first bytes two lists share that are known to share so many.
fn bytes_shared(a: &[u8], b: &[u8], from: usize) -> usize
    requires { HaveSame from a.now b.now }
    ensures { HaveSame result a.now b.now }
{
    let far = shared_strides(a, b, from, LONG);
    let mut count = shared_strides(a, b, far, SHORT);
    while count < a.len() && count < b.len() && a[count] == b[count] {
        count += 1;
    }
    count
}

/// How many first bytes two keys share that are known to share so many.
pub(crate) fn shared_from(a: &Key<'_>, b: &Key<'_>, from: usize) -> usize
    requires { Share from (key_shown a.now) (key_shown b.now) }
    ensures { Share result (key_shown a.now) (key_shown b.now) }
{
    if a.table != b.table {
        return 0;
    }
    let shared = bytes_shared(a.bytes, b.bytes, from.saturating_sub(1));
    shared.saturating_add(1)
}

/// Compares two lists that are known to share so many first bytes.
#[inline(never)]
fn compare_bytes(a: &[u8], b: &[u8], from: usize) -> Compared
    requires { HaveSame from a.now b.now }
    ensures order { result.order ≡ slice_cmp nat_cmp a.now b.now }
    ensures shared { HaveSame result.shared a.now b.now }
{
    let shared = bytes_shared(a, b, from);
    let order = a[shared..].cmp(&b[shared..]);
    Compared { order, shared }
}

/// Compares two keys that are known to share so many first bytes.
#[inline(always)]
pub(crate) fn compare_from(a: &Key<'_>, b: &Key<'_>, from: usize) -> Compared
    requires { Share from (key_shown a.now) (key_shown b.now) }
    ensures order { result.order ≡ key_cmp (key_shown a.now) (key_shown b.now) }
    ensures shared { Share result.shared (key_shown a.now) (key_shown b.now) }
{
    if a.table != b.table {
        let order = a.table.cmp(&b.table);
        return Compared { order, shared: 0 };
    }
    let compared = compare_bytes(a.bytes, b.bytes, from.saturating_sub(1));
    let shared = compared.shared.saturating_add(1);
    Compared {
        order: compared.order,
        shared,
    }
}

/// The first eight bytes of a key as a number, the first byte highest. Where the key is shorter, zeros stand for the
/// bytes that it lacks.
///
/// # Examples
/// ```
/// let lead = lead_of(b"ab"); // 0x6162_0000_0000_0000
/// ```
pub fn lead_of(key: &[u8]) -> u64
    ensures lead { result ≡ first_bytes 8 key.now }
    ensures bytes { AreBytes key.now }
{
    match key {
        [a, b, c, d, e, f, g, h, ..] => u64::from_be_bytes([*a, *b, *c, *d, *e, *f, *g, *h]),
        [a, b, c, d, e, f, g] => u64::from_be_bytes([*a, *b, *c, *d, *e, *f, *g, 0]),
        [a, b, c, d, e, f] => u64::from_be_bytes([*a, *b, *c, *d, *e, *f, 0, 0]),
        [a, b, c, d, e] => u64::from_be_bytes([*a, *b, *c, *d, *e, 0, 0, 0]),
        [a, b, c, d] => u64::from_be_bytes([*a, *b, *c, *d, 0, 0, 0, 0]),
        [a, b, c] => u64::from_be_bytes([*a, *b, *c, 0, 0, 0, 0, 0]),
        [a, b] => u64::from_be_bytes([*a, *b, 0, 0, 0, 0, 0, 0]),
        [a] => u64::from_be_bytes([*a, 0, 0, 0, 0, 0, 0, 0]),
        [] => 0,
    }
}

/// The eight bytes of a list behind so many.
fn lead_from(key: &[u8], skip: usize) -> u64
    requires { skip ≤ length key.now }
    ensures lead { result ≡ first_bytes 8 (drop skip key.now) }
    ensures bytes { AreBytes key.now }
{
    lead_of(&key[skip..])
}

/// A table and behind it the first eight bytes of a key, but for their three lowest bits.
#[inline(always)]
fn lead_in(table: u8, first: u64) -> u64
    requires { table < tables }
    ensures { result ≡ table * 2 ^ 61 + first / 8 }
{
    table as u64 * TABLE + first / 8
}

/// The lead of a key behind what is skipped: behind nothing its table and its first bytes, and behind the table and so many
/// bytes the next eight. Leads behind as much are in the order of the keys that share what is skipped.
///
/// # Examples
/// ```
/// let key = Key { table: 1, bytes: b"ab" };
/// let lead = lead_behind(&key, 0); // 0x2C2C_4000_0000_0000: the table in three bits, and then the bytes
/// let rest = lead_behind(&key, 2); // 0x6200_0000_0000_0000: behind the table and one byte
/// ```
#[inline(always)]
pub fn lead_behind(key: &Key<'_>, skip: usize) -> u64
    requires table { key.now.table < tables }
    requires within { skip ≤ length (key_shown key.now).bytes }
    ensures lead { result ≡ lead_behind skip (key_shown key.now) }
    ensures bytes { AreBytes (key_shown key.now).bytes }
{
    if skip == 0 {
        return lead_in(key.table, lead_of(key.bytes));
    }
    lead_from(key.bytes, skip - 1)
}
