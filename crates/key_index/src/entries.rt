//! The entries of an index. Where bytes of a key are skipped or shared, its table counts as the first of them.
ghost use Rattle.std.specs.Prelude.{◌≡◌, ◌≢◌, ℕ, ◌<◌, ◌≤◌, List, length, take, drop, map, true, false, All};
ghost use Rattle.layout.specs.Sizes.{tables};
ghost use Rattle.rows.specs.Key.{key_shown};
ghost use Rattle.key_index.specs.Order.{key_cmp};
ghost use Rattle.key_index.specs.Lead.{rows_of, AreBytes, IsLed};
ghost use Rattle.key_index.specs.inside.Sought.{IsSought};
ghost use Rattle.key_index.specs.inside.Shared.{Share};

use crate::keys::Keys;
use crate::shared::{Compared, compare_from, lead_behind, shared_from};
use rows::Key;
use std::cmp::Ordering;

/// How many bytes an entry skips fewer than its key shares with its neighbours: so the next bytes are behind those that
/// a search has seen to be shared some steps before.
const SLACK: usize = 4;

/// How many bytes more than an entry skips the keys of its block share, where its lead is read anew.
const GAIN: u32 = 5;

/// A row, and the lead of its key, behind so many bytes.
#[derive(Clone, Copy)]
pub(crate) struct Entry {
    pub(crate) lead: u64,
    pub(crate) row: u32,
    pub(crate) skip: u32,
}

/// The entry of no row, which stands where no entry has been put yet.
pub(crate) const NONE: Entry = Entry {
    lead: 0,
    row: 0,
    skip: 0,
};

/// How many bytes an entry skips best whose key shares so many with its neighbours.
pub(crate) fn best_skip(shared: usize) -> u32 {
    u32::try_from(shared.saturating_sub(SLACK)).unwrap_or(0)
}

/// So many bytes to skip, or none where a key has fewer.
#[inline(always)]
fn fitting_skip(key: &Key<'_>, skip: u32) -> u32
    ensures { result ≤ length (key_shown key.now).bytes }
{
    if skip as usize <= key.bytes.len() {
        skip
    } else {
        0
    }
}

/// The entry of a row that skips so many bytes, or none where its key has fewer.
#[inline(always)]
pub(crate) fn entry_of<K: Keys>(keys: &K, row: u32, skip: u32) -> Entry
    requires { K.has_row keys.now row }
    ensures row { result.row ≡ row }
    ensures led { IsLed (K.key_of keys.now) result }
    ensures bytes { AreBytes (K.key_of keys.now row).bytes }
{
    let key = keys.key(row);
    let skip = fitting_skip(&key, skip);
    let lead = lead_behind(&key, skip as usize);
    Entry { lead, row, skip }
}

/// The lead of a key that is sought, behind so many bytes: it is read once for all entries that skip as many.
#[derive(Clone, Copy)]
pub(crate) struct Sought {
    pub(crate) lead: u64,
    pub(crate) skip: u32,
}

/// The lead of a key behind so many bytes, or behind none where it has fewer.
#[inline(always)]
pub(crate) fn sought_behind(key: &Key<'_>, skip: u32) -> Sought
    requires { key.now.table < tables }
    ensures { IsSought (key_shown key.now) result }
{
    let skip = fitting_skip(key, skip);
    let lead = lead_behind(key, skip as usize);
    Sought { lead, skip }
}

/// The lead of a key behind so many bytes, which is not read again where it was sought before.
#[inline(always)]
pub(crate) fn sought_as(key: &Key<'_>, before: Sought, skip: u32) -> Sought
    requires table { key.now.table < tables }
    requires before { IsSought (key_shown key.now) before }
    ensures { IsSought (key_shown key.now) result }
{
    if before.skip == skip {
        return before;
    }
    sought_behind(key, skip)
}

/// How the key of an entry compares with a key with which it shares so many bytes. The key in memory is read only where
/// the entry skips more or other bytes than are sought, or where the leads agree.
#[inline(always)]
pub(crate) fn compare<K: Keys>(
    keys: &K,
    entry: Entry,
    key: &Key<'_>,
    shared: usize,
    sought: Sought,
) -> Compared
    requires readable { K.has_row keys.now entry.row }
    requires bytes { AreBytes (K.key_of keys.now entry.row).bytes }
    requires led { IsLed (K.key_of keys.now) entry }
    requires shared { Share shared (K.key_of keys.now entry.row) (key_shown key.now) }
    requires sought { IsSought (key_shown key.now) sought }
    ensures order { result.order ≡ key_cmp (K.key_of keys.now entry.row) (key_shown key.now) }
    ensures shared { Share result.shared (K.key_of keys.now entry.row) (key_shown key.now) }
{
    if entry.skip == sought.skip && sought.skip as usize <= shared {
        if entry.lead < sought.lead {
            return Compared {
                order: Ordering::Less,
                shared,
            };
        }
        if entry.lead > sought.lead {
            return Compared {
                order: Ordering::Greater,
                shared,
            };
        }
    }
    let other = keys.key(entry.row);
    compare_from(&other, key, shared)
}

/// How the key of an entry compares with a key, and how many first bytes they share.
pub(crate) fn compare_keys<K: Keys>(keys: &K, entry: Entry, key: &Key<'_>) -> Compared
    requires readable { K.has_row keys.now entry.row }
    ensures order { result.order ≡ key_cmp (K.key_of keys.now entry.row) (key_shown key.now) }
    ensures shared { Share result.shared (K.key_of keys.now entry.row) (key_shown key.now) }
{
    let other = keys.key(entry.row);
    compare_from(&other, key, 0)
}

/// Whether the key of an entry is a key.
pub(crate) fn has_key<K: Keys>(keys: &K, entry: Entry, key: &Key<'_>) -> bool
    requires readable { K.has_row keys.now entry.row }
    requires table { key.now.table < tables }
    requires led { IsLed (K.key_of keys.now) entry }
    ensures same { result ≡ true → K.key_of keys.now entry.row ≡ key_shown key.now }
    ensures other { result ≡ false → K.key_of keys.now entry.row ≢ key_shown key.now }
{
    let skip = entry.skip as usize;
    if skip <= key.bytes.len() {
        let lead = lead_behind(key, skip);
        if entry.lead != lead {
            return false;
        }
    }
    keys.key(entry.row).is_same_as(key)
}

/// Reads the leads of entries anew, behind so many bytes.
fn relead<K: Keys>(entries: &mut [Entry], keys: &K, skip: u32)
    requires { All (λ entry. K.has_row keys.now entry.row) entries.old }
    ensures rows { rows_of entries.new ≡ rows_of entries.old }
    ensures leads { All (IsLed (K.key_of keys.now)) entries.new }
{
    for at in 0..entries.len() {
        let row = entries[at].row;
        entries[at] = entry_of(keys, row, skip);
    }
}

/// How many first bytes the keys of two entries share.
pub(crate) fn shared_by<K: Keys>(keys: &K, first: Entry, last: Entry) -> usize
    requires first { K.has_row keys.now first.row }
    requires last { K.has_row keys.now last.row }
{
    let low = keys.key(first.row);
    let high = keys.key(last.row);
    shared_from(&low, &high, 0)
}

/// Reads the leads of entries anew, where their keys share many more bytes than the entries skip.
pub(crate) fn refresh<K: Keys>(entries: &mut [Entry], keys: &K)
    requires readable { All (λ entry. K.has_row keys.now entry.row) entries.old }
    requires leads { All (IsLed (K.key_of keys.now)) entries.old }
    ensures rows { rows_of entries.new ≡ rows_of entries.old }
    ensures leads { All (IsLed (K.key_of keys.now)) entries.new }
{
    if entries.is_empty() {
        return;
    }
    let first = entries[0];
    let last = entries[entries.len() - 1];
    let shared = shared_by(keys, first, last);
    let skip = best_skip(shared);
    if shared < first.skip as usize + GAIN as usize {
        return;
    }
    relead(entries, keys, skip);
}
