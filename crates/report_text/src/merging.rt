//! Two lists of keys made one, as far as it is asked for.
ghost use Rattle.std.specs.Prelude.{◌≡◌, ◌+◌, ◌<◌, ◌≤◌, if◌then◌else◌, [], ◌∷◌, ◌++◌, length, map, take};
ghost use Rattle.arrayvec.specs.ArrayVec.{array_vec_len};
ghost use Rattle.layout.specs.Sizes.{most_keys};
ghost use Rattle.rows.specs.Apply.{is_at_most};
ghost use Rattle.report_text.specs.inside.Merged.{merged};

use arrayvec::ArrayVec;
use cache_model::is_at_most;
use layout::MOST_KEYS;

const MOST_FOUND: usize = MOST_KEYS as usize;

/// The keys of a scan, where they stand in the log.
pub(crate) type Found<'l> = ArrayVec<&'l [u8], MOST_FOUND>;

/// The first so many keys, or all of them.
fn first_keys<'s, 'l>(keys: &'s [&'l [u8]], count: usize) -> &'s [&'l [u8]]
    ensures { result.now ≡ take count keys.now }
{
    &keys[..keys.len().min(count)]
}

/// Adds the first of some keys, until there are `count`.
#[tactic(auto, using(crate::proofs::Taken::take_over))]
fn fill_up<'l>(found: &mut Found<'l>, keys: &[&'l [u8]], count: u32)
    requires few { count ≤ most_keys }
    requires within { array_vec_len found.old ≤ count }
    ensures { found.new.items ≡ take count (found.old.items ++ keys.now) }
{
    let free = count as usize - found.len();
    found.try_extend_from_slice(first_keys(keys, free)).unwrap();
}

/// Adds the lesser of two keys, and says whether it is the first of them.
fn add_lesser<'l>(found: &mut Found<'l>, key: &'l [u8], other: &'l [u8]) -> bool
    requires { array_vec_len found.old < most_keys }
    ensures first { result ≡ is_at_most key.now other.now }
    ensures len { array_vec_len found.new ≡ array_vec_len found.old + 1 }
    ensures added { map (λ key. key.now) found.new.items
        ≡ map (λ key. key.now) found.old.items ++ (if result then key.now else other.now) ∷ [] }
{
    if is_at_most(key, other) {
        found.push(key);
        true
    } else {
        found.push(other);
        false
    }
}

/// The first `count` keys of two lists made one: the lesser of the next keys of both comes first.
pub(crate) fn first_of_both<'l>(keys: &[&'l [u8]], others: &[&'l [u8]], count: u32) -> Found<'l>
    requires { count ≤ most_keys }
    ensures { map (λ key. key.now) result.items
        ≡ take count (merged (map (λ key. key.now) keys.now) (map (λ key. key.now) others.now)) }
{
    let mut both = Found::new();
    let mut at = 0;
    let mut other_at = 0;
    while at < keys.len() && other_at < others.len() && both.len() < count as usize {
        if add_lesser(&mut both, keys[at], others[other_at]) {
            at += 1;
        } else {
            other_at += 1;
        }
    }
    fill_up(&mut both, &keys[at..], count);
    fill_up(&mut both, &others[other_at..], count);
    both
}
