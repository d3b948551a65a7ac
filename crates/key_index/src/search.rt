//! Where a key stands or would stand.
ghost use Rattle.std.specs.Prelude.{◌≡◌, ℕ, ◌+◌, ◌-◌, ◌<◌, ◌≤◌, List, length, take, drop, All, IfSome};
ghost use Rattle.layout.specs.Sizes.{tables};
ghost use Rattle.rows.specs.Key.{key_shown};
ghost use Rattle.key_index.specs.Order.{key_cmp, AreAbove, AreBelow};
ghost use Rattle.key_index.specs.Lead.{rows_of};
ghost use Rattle.key_index.specs.inside.Blocks.{entries_of, entries_at, AreAtLeast, AreEntriesOf, IsPlaceOf};
ghost use Rattle.key_index.specs.inside.Shared.{Share};

use crate::blocks::Blocks;
use crate::entries::{Entry, best_skip, compare, compare_keys, sought_as, sought_behind};
use crate::hints::{first_of, guess_in, probe};
use crate::keys::Keys;
use crate::place::Place;
use rows::Key;

/// How many of some entries or blocks are passed, and how many bytes a key shares with those at the end.
#[derive(Clone, Copy)]
struct Passed {
    count: usize,
    shared: usize,
}

/// The lesser of two counts.
fn fewer(a: usize, b: usize) -> usize
    ensures first { result ≤ a }
    ensures second { result ≤ b }
{
    if a < b { a } else { b }
}

/// How many entries have keys below a key that shares so many bytes with them.
fn count_below<K: Keys>(keys: &K, entries: &[Entry], key: &Key<'_>, shared: usize) -> usize
    requires table { key.now.table < tables }
    requires entries { AreEntriesOf (K.has_row keys.now) (K.key_of keys.now) entries.now }
    requires some { 0 < length entries.now }
    requires shared { All (λ entry. Share shared (K.key_of keys.now entry.row) (key_shown key.now)) entries.now }
    ensures within { result ≤ length entries.now }
    ensures below { AreBelow (K.key_of keys.now) (key_shown key.now) (take result (rows_of entries.now)) }
    ensures at_least { AreAtLeast (K.key_of keys.now) (key_shown key.now) (drop result (rows_of entries.now)) }
{
    let sought = sought_behind(key, entries[0].skip);
    let guess = guess_in(entries, sought.lead);
    let mut low = 0;
    let mut high = entries.len();
    while low < high {
        let middle = probe(low, high, guess);
        let compared = compare(keys, entries[middle], key, shared, sought);
        if compared.order.is_lt() {
            low = middle + 1;
        } else {
            high = middle;
        }
    }
    low
}

/// How many entries have keys below a key, by the first and the last of them.
fn count_between<K: Keys>(keys: &K, entries: &[Entry], key: &Key<'_>) -> Passed
    requires table { key.now.table < tables }
    requires entries { AreEntriesOf (K.has_row keys.now) (K.key_of keys.now) entries.now }
    requires some { 0 < length entries.now }
    ensures within { result.count ≤ length entries.now }
    ensures below { AreBelow (K.key_of keys.now) (key_shown key.now) (take result.count (rows_of entries.now)) }
    ensures at_least { AreAtLeast (K.key_of keys.now) (key_shown key.now) (drop result.count (rows_of entries.now)) }
{
    let first = compare_keys(keys, entries[0], key);
    let last = compare_keys(keys, entries[entries.len() - 1], key);
    let shared = fewer(first.shared, last.shared);
    if last.order.is_lt() {
        return Passed {
            count: entries.len(),
            shared,
        };
    }
    if first.order.is_gt() {
        return Passed { count: 0, shared };
    }
    let count = count_below(keys, entries, key, shared);
    Passed { count, shared }
}

/// How many entries have keys below a key that is known to share so many bytes with them.
fn count_in<K: Keys>(keys: &K, entries: &[Entry], key: &Key<'_>, shared: usize) -> Passed
    requires table { key.now.table < tables }
    requires entries { AreEntriesOf (K.has_row keys.now) (K.key_of keys.now) entries.now }
    requires some { 0 < length entries.now }
    requires shared { All (λ entry. Share shared (K.key_of keys.now entry.row) (key_shown key.now)) entries.now }
    ensures within { result.count ≤ length entries.now }
    ensures below { AreBelow (K.key_of keys.now) (key_shown key.now) (take result.count (rows_of entries.now)) }
    ensures at_least { AreAtLeast (K.key_of keys.now) (key_shown key.now) (drop result.count (rows_of entries.now)) }
{
    if entries[0].skip as usize > shared {
        return count_between(keys, entries, key);
    }
    Passed {
        count: count_below(keys, entries, key, shared),
        shared,
    }
}

/// How many blocks begin with an entry whose key is not above a key, and how many bytes the key shares with those of
/// the last of these blocks.
fn count_upto<K: Keys>(keys: &K, blocks: &Blocks, key: &Key<'_>, guess: usize) -> Passed
    requires table { key.now.table < tables }
    requires entries { AreEntriesOf (K.has_row keys.now) (K.key_of keys.now) (entries_of blocks.now.contents) }
    requires full { All (λ block. 0 < length block) blocks.now.contents }
    ensures within { result.count ≤ length blocks.now.contents }
    ensures below { AreBelow (K.key_of keys.now) (key_shown key.now) (rows_of (entries_of (take (result.count - 1) blocks.now.contents))) }
    ensures above { AreAbove (K.key_of keys.now) (key_shown key.now) (rows_of (entries_of (drop result.count blocks.now.contents))) }
    ensures shared { 0 < result.count
        → All (λ entry. Share result.shared (K.key_of keys.now entry.row) (key_shown key.now))
        (entries_at blocks.now.contents (result.count - 1)) }
{
    let mut low = 0;
    let mut high = blocks.len();
    let mut low_shared = 0;
    let mut high_shared = 0;
    let mut sought = sought_behind(key, 0);
    while low < high {
        let middle = probe(low, high, guess);
        let first = blocks.first(middle);
        let shared = fewer(low_shared, high_shared);
        sought = sought_as(key, sought, first.skip);
        let compared = compare(keys, first, key, shared, sought);
        if compared.order.is_gt() {
            high = middle;
            high_shared = compared.shared;
        } else {
            low = middle + 1;
            low_shared = compared.shared;
        }
    }
    let shared = fewer(low_shared, high_shared);
    Passed { count: low, shared }
}

/// How many bytes an entry skips best that is put among some with a key that shares so many bytes with theirs.
fn skip_among(entries: &[Entry], shared: usize) -> u32
    requires { 0 < length entries.now }
{
    let skip = entries[0].skip;
    if skip as usize <= shared {
        return skip;
    }
    best_skip(shared)
}

/// Where a key stands or would stand, by halving.
fn seek_all<K: Keys>(keys: &K, blocks: &Blocks, key: &Key<'_>, guess: usize) -> Place
    requires table { key.now.table < tables }
    requires entries { AreEntriesOf (K.has_row keys.now) (K.key_of keys.now) (entries_of blocks.now.contents) }
    requires full { All (λ block. 0 < length block) blocks.now.contents }
    ensures block { 0 < length blocks.now.contents → result.block < length blocks.now.contents }
    ensures within { result.block ≤ length blocks.now.contents }
    ensures at { result.at ≤ length (entries_at blocks.now.contents result.block) }
    ensures place { IsPlaceOf (K.key_of keys.now) (key_shown key.now) blocks.now.contents result.block result.at }
{
    let upto = count_upto(keys, blocks, key, guess);
    if upto.count == 0 {
        return Place {
            block: 0,
            at: 0,
            skip: 0,
        };
    }
    let block = upto.count - 1;
    let entries = blocks.entries(block);
    let inside = count_in(keys, entries, key, upto.shared);
    let skip = skip_among(entries, inside.shared);
    Place {
        block,
        at: inside.count,
        skip,
    }
}

/// Where a key stands or would stand, if that is between two entries of a block that is not the last one.
fn seek_in<K: Keys>(keys: &K, blocks: &Blocks, key: &Key<'_>, block: usize) -> Option<Place>
    requires table { key.now.table < tables }
    requires entries { AreEntriesOf (K.has_row keys.now) (K.key_of keys.now) (entries_of blocks.now.contents) }
    requires full { All (λ block. 0 < length block) blocks.now.contents }
    requires block { block + 1 < length blocks.now.contents }
    ensures block { IfSome result (λ place. place.block ≡ block) }
    ensures at { IfSome result (λ place. place.at ≤ length (entries_at blocks.now.contents block)) }
    ensures place { IfSome result (λ place. IsPlaceOf (K.key_of keys.now) (key_shown key.now) blocks.now.contents block place.at) }
{
    let first = compare_keys(keys, first_of(keys, blocks, 0), key);
    if first.order.is_gt() {
        return None;
    }
    let last = compare_keys(keys, first_of(keys, blocks, blocks.len() - 1), key);
    let before_last = last.order.is_gt();
    if !before_last {
        return None;
    }
    let shared = fewer(first.shared, last.shared);
    let entries = blocks.entries(block);
    let inside = count_in(keys, entries, key, shared);
    if inside.count == 0 || inside.count >= entries.len() {
        return None;
    }
    let skip = skip_among(entries, inside.shared);
    Some(Place {
        block,
        at: inside.count,
        skip,
    })
}

/// Where a key stands or would stand. A guess, which may be any number, says behind how many blocks to look first.
pub(crate) fn seek<K: Keys>(keys: &K, blocks: &Blocks, key: &Key<'_>, guess: usize) -> Place
    requires table { key.now.table < tables }
    requires entries { AreEntriesOf (K.has_row keys.now) (K.key_of keys.now) (entries_of blocks.now.contents) }
    requires full { All (λ block. 0 < length block) blocks.now.contents }
    ensures block { 0 < length blocks.now.contents → result.block < length blocks.now.contents }
    ensures within { result.block ≤ length blocks.now.contents }
    ensures at { result.at ≤ length (entries_at blocks.now.contents result.block) }
    ensures place { IsPlaceOf (K.key_of keys.now) (key_shown key.now) blocks.now.contents result.block result.at }
{
    if guess > 0 && guess < blocks.len() {
        if let Some(place) = seek_in(keys, blocks, key, guess - 1) {
            return place;
        }
    }
    seek_all(keys, blocks, key, guess)
}
