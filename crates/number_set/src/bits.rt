// Words of 64 bits. Bit n of a word is worth 2 to the n, and bit n of many words is bit n % 64 of word n / 64.
ghost use Rattle.std.specs.Prelude.{◌≡◌, ◌≢◌, ℕ, ◌+◌, ◌*◌, ◌/◌, ◌%◌, ◌<◌, ◌≤◌, ◌==◌, true, false, length, IfSome, IsNone};
ghost use Rattle.std.specs.Int.{bit_at};
ghost use Rattle.number_set.specs.inside.Words.{bit_of};

pub(crate) const BITS: usize = 64;

fn has(word: u64, bit: u32) -> bool
    requires { bit < 64 }
    ensures { result ≡ (bit_at word bit == 1) }
{
    (word >> bit) & 1 == 1
}

fn with(word: u64, bit: u32) -> u64
    requires { bit < 64 }
    ensures here { bit_at result bit ≡ 1 }
    ensures others { (k : ℕ) → k < 64 → k ≢ bit → bit_at result k ≡ bit_at word k }
{
    word | (1 << bit)
}

fn without(word: u64, bit: u32) -> u64
    requires { bit < 64 }
    ensures here { bit_at result bit ≡ 0 }
    ensures others { (k : ℕ) → k < 64 → k ≢ bit → bit_at result k ≡ bit_at word k }
{
    word & !(1 << bit)
}

fn lowest(word: u64) -> u32
    requires { word ≢ 0 }
    ensures within { result < 64 }
    ensures here { bit_at word result ≡ 1 }
    ensures below { (k : ℕ) → k < result → bit_at word k ≡ 0 }
{
    word.trailing_zeros()
}

fn highest(word: u64) -> u32
    requires { word ≢ 0 }
    ensures within { result < 64 }
    ensures here { bit_at word result ≡ 1 }
    ensures above { (k : ℕ) → result < k → bit_at word k ≡ 0 }
{
    word.ilog2()
}

// The lowest bit that is not set.
fn lowest_gap(word: u64) -> u32
    requires { word ≢ 18446744073709551615 }
    ensures within { result < 64 }
    ensures here { bit_at word result ≡ 0 }
    ensures below { (k : ℕ) → k < result → bit_at word k ≡ 1 }
{
    word.trailing_ones()
}

pub(crate) fn bit(words: &[u64], number: usize) -> bool
    requires { number < 64 * length words.now }
    ensures { result ≡ bit_of words.now number }
{
    has(words[number / BITS], (number % BITS) as u32)
}

pub(crate) fn set(words: &mut Vec<u64>, number: usize)
    requires { number < 64 * length words.old.items }
    ensures long { length words.new.items ≡ length words.old.items }
    ensures here { bit_of words.new.items number ≡ true }
    ensures others { (n : ℕ) → n ≢ number → bit_of words.new.items n ≡ bit_of words.old.items n }
{
    words[number / BITS] = with(words[number / BITS], (number % BITS) as u32);
}

pub(crate) fn clear(words: &mut Vec<u64>, number: usize)
    requires { number < 64 * length words.old.items }
    ensures long { length words.new.items ≡ length words.old.items }
    ensures here { bit_of words.new.items number ≡ false }
    ensures others { (n : ℕ) → n ≢ number → bit_of words.new.items n ≡ bit_of words.old.items n }
{
    words[number / BITS] = without(words[number / BITS], (number % BITS) as u32);
}

pub(crate) fn first(words: &[u64]) -> Option<usize>
    requires { 64 * length words.now ≤ 4294967296 }
    ensures none { IsNone result → (n : ℕ) → bit_of words.now n ≡ false }
    ensures here { IfSome result (λ n. bit_of words.now n ≡ true) }
    ensures below { IfSome result (λ n. (m : ℕ) → m < n → bit_of words.now m ≡ false) }
{
    let mut index = 0;
    while index < words.len() {
        let word = words[index];
        if word != 0 {
            return Some(index * BITS + lowest(word) as usize);
        }
        index += 1;
    }
    None
}

pub(crate) fn last(words: &[u64]) -> Option<usize>
    requires { 64 * length words.now ≤ 4294967296 }
    ensures none { IsNone result → (n : ℕ) → bit_of words.now n ≡ false }
    ensures here { IfSome result (λ n. bit_of words.now n ≡ true) }
    ensures above { IfSome result (λ n. (m : ℕ) → n < m → bit_of words.now m ≡ false) }
{
    let mut above = words.len();
    while above > 0 {
        let index = above - 1;
        let word = words[index];
        if word != 0 {
            return Some(index * BITS + highest(word) as usize);
        }
        above = index;
    }
    None
}

// The first bit that is not set.
pub(crate) fn first_gap(words: &[u64]) -> Option<usize>
    requires { 64 * length words.now ≤ 4294967296 }
    ensures none { IsNone result → (n : ℕ) → n < 64 * length words.now → bit_of words.now n ≡ true }
    ensures here { IfSome result (λ n. bit_of words.now n ≡ false) }
    ensures below { IfSome result (λ n. (m : ℕ) → m < n → bit_of words.now m ≡ true) }
{
    let mut index = 0;
    while index < words.len() {
        let word = words[index];
        if word != u64::MAX {
            return Some(index * BITS + lowest_gap(word) as usize);
        }
        index += 1;
    }
    None
}
