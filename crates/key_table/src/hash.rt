//! Hashes of keys.
ghost use Rattle.std.specs.Prelude.{◌≡◌, ℕ, ◌+◌, ◌≤◌, length, drop};
ghost use Rattle.byteorder.specs.Endian.{little_number};
ghost use Rattle.rows.specs.Key.{key_shown};
ghost use Rattle.key_table.specs.Hash.{mixed, hash_of, hash_upto, short_word, last_word, tag_of};

use byteorder::{ByteOrder, LittleEndian};
use rows::Key;

/// How many bytes are read at once.
const WORD: usize = 8;

/// A hash that is mixed with a word.
#[tactic(auto, unfolding(crate::specs::Hash::mixed))]
#[inline(always)]
fn mix(hash: u64, word: u64) -> u64
    ensures { result ≡ mixed hash word }
{
    let product = (hash ^ word).wrapping_mul(0x9E37_79B9_7F4A_7C15);
    product ^ (product >> 32)
}

/// The eight bytes of a key from a place on.
#[inline(always)]
fn word_at(key: &[u8], at: usize) -> u64
    requires { at + 8 ≤ length key.now }
    ensures { result ≡ little_number 8 (drop at key.now) }
{
    LittleEndian::read_u64(&key[at..])
}

/// The bytes of a short key as a number.
#[tactic(auto, unfolding(crate::specs::Hash::short_word))]
fn short_word(key: &[u8]) -> u64
    ensures { result ≡ short_word key.now }
{
    key.iter().fold(0, |word: u64, byte| {
        word.wrapping_mul(256).wrapping_add(*byte as u64)
    })
}

/// The last eight bytes of a key, or all, where it has fewer.
#[tactic(auto, unfolding(crate::specs::Hash::last_word))]
#[inline(always)]
fn last_word(key: &[u8]) -> u64
    ensures { result ≡ last_word key.now }
{
    if key.len() >= WORD {
        word_at(key, key.len() - WORD)
    } else {
        short_word(key)
    }
}

/// The hash of the bytes of a key.
#[tactic(auto, unfolding(crate::specs::Hash::hash_upto, crate::specs::Hash::hash_of))]
#[inline(always)]
fn hash_of(key: &[u8]) -> u64
    ensures { result ≡ hash_of key.now }
{
    let mut hash = key.len() as u64;
    for count in 0..key.len().saturating_sub(1) / WORD {
        hash = mix(hash, word_at(key, WORD * count));
    }
    mix(hash, last_word(key))
}

/// The tag of a key: 32 bits of its hash. The table is mixed in last, by the one step that is done for table 0 too.
#[tactic(auto, unfolding(crate::specs::Hash::tag_of))]
pub(crate) fn tag_of(key: &Key<'_>) -> u32
    ensures { result ≡ tag_of (key_shown key.now) }
{
    (mix(hash_of(key.bytes), key.table as u64) >> 32) as u32
}
