//! One line of a made trace.
ghost use Rattle.std.specs.Prelude.{◌≡◌, ◌++◌, ◌+◌, ◌*◌, ◌≤◌, ◌<◌, ◌^◌, codes, decimal, map, OnOk};
ghost use Rattle.std.specs.List.{range_with_len};
ghost use Rattle.made_trace.specs.Made.{made_line, behind_line, kind_of, key_of, value_of, count_of, command_text, behind_command, word, behind, letter};

use itoa::Buffer;
use layout::MOST_KEYS;
use rand_core::utils::NextWord;
use rand_pcg::Lcg64Xsh32;
use std::alloc::{AllocError, AllocFailed};
use trace_text::Kind;

/// Draws command i and adds its line.
pub(crate) fn push_line(
    text: &mut Vec<u8>,
    words: &mut Lcg64Xsh32,
    i: u32,
) -> Result<(), AllocError>
    requires { i ≤ 100000 }
    ensures text { OnOk result (text.new.items ≡ text.old.items ++ made_line i words.old) }
    ensures words { OnOk result (words.new ≡ behind_line words.old) }
{
    let kind = kind_drawn(words.next_word());
    let key = words.next_word() % 20_000;
    push_command(text, words, kind, i, key)?;
    text.push(b'\n')?;
    Ok(())
}

/// The kind that a word draws.
fn kind_drawn(w: u32) -> Kind
    ensures { result ≡ kind_of w }
{
    let part = w % 100;
    if part < 40 {
        Kind::Put
    } else if part < 95 {
        Kind::Get
    } else if part < 99 {
        Kind::Erase
    } else {
        Kind::Scan
    }
}

/// Adds a command with its key, without the line's end.
fn push_command(
    text: &mut Vec<u8>,
    words: &mut Lcg64Xsh32,
    kind: Kind,
    i: u32,
    key: u32,
) -> Result<(), AllocError>
    requires { i ≤ 100000 }
    ensures text { OnOk result (text.new.items ≡ text.old.items ++ command_text kind i (codes "k" ++ decimal key) (word words.old)) }
    ensures words { OnOk result (words.new ≡ behind_command kind words.old) }
{
    match kind {
        Kind::Put => {
            push_word(text, b"put ", key)?;
            push_value(text, i, words.next_word() % 1901 + 100)
        }
        Kind::Get => push_word(text, b"get ", key),
        Kind::Erase => push_word(text, b"erase ", key),
        Kind::Scan => {
            push_word(text, b"scan ", key)?;
            push_count(text, words.next_word() % MOST_KEYS + 1)
        }
    }
}

/// Adds a word and a key.
fn push_word(text: &mut Vec<u8>, name: &[u8], key: u32) -> Result<(), AllocError>
    ensures { OnOk result (text.new.items ≡ text.old.items ++ (name.now ++ (codes "k" ++ decimal key))) }
{
    text.extend_from_slice(name)?;
    text.push(b'k')?;
    text.extend_from_slice(Buffer::new().format(key).as_bytes())
}

/// Adds a space and the value of put i.
fn push_value(text: &mut Vec<u8>, i: u32, len: u32) -> Result<(), AllocError>
    requires number { i ≤ 100000 }
    requires len { len ≤ 2000 }
    ensures { OnOk result (text.new.items ≡ text.old.items ++ (codes " " ++ map (letter i) (range_with_len 0 len))) }
{
    text.push(b' ')?;
    for j in 0..len {
        text.push(letter_at(i, j))?;
    }
    Ok(())
}

/// Letter j of the value of put i.
fn letter_at(i: u32, j: u32) -> u8
    requires number { i ≤ 100000 }
    requires index { j < 2000 }
    ensures { result ≡ letter i j }
{
    b'a' + ((i + j) % 26) as u8
}

/// Adds a space and a count.
fn push_count(text: &mut Vec<u8>, count: u32) -> Result<(), AllocError>
    ensures { OnOk result (text.new.items ≡ text.old.items ++ (codes " " ++ decimal count)) }
{
    text.push(b' ')?;
    text.extend_from_slice(Buffer::new().format(count).as_bytes())
}
