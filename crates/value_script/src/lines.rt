//! The lines of a text.
ghost use Rattle.std.specs.Prelude.{◌≡◌, ◌==◌, ◌+◌, ◌<◌, ◌≤◌, ◌∷◌, ℕ, length, position, IfSome};
ghost use Rattle.std.specs.Option.{option_map};
ghost use Rattle.trace_text.specs.Line.{is_passed, cut_at, cut_where};
ghost use Rattle.trace_text.specs.Reading.{lines_from, is_cr, lines, strip_cr};
ghost use Rattle.value_script.specs.inside.Found.{IsRestOf, LiesAt};

use memchr::memchr;

/// Whether a line is passed over: an empty one, and one that begins with `#`.
pub(crate) fn is_passed(line: &[u8]) -> bool
    ensures { result ≡ is_passed line.now }
{
    match line {
        [] => true,
        [first, ..] => *first == b'#',
    }
}

// The first fields of a line are short, and its end may be far.
fn position_of(text: &[u8], byte: u8) -> Option<usize>
    ensures { result ≡ position (λ b. b == byte) text.now }
{
    text.iter().position(|b| *b == byte)
}

fn position_of_lf(text: &[u8]) -> Option<usize>
    ensures { result ≡ position (λ b. b == 10) text.now }
{
    memchr(b'\n', text)
}

fn cut_where(text: &[u8], at: Option<usize>) -> (&[u8], Option<&[u8]>)
    requires { IfSome at (λ i. i < length text.now) }
    ensures parts { (result.0.now, option_map (λ behind. behind.now) result.1) ≡ cut_where at text.now }
    ensures rest { IfSome result.1 (λ behind. IsRestOf text.now behind.now) }
{
    match at {
        None => (text, None),
        Some(at) => (&text[..at], Some(&text[at + 1..])),
    }
}

/// A text cut at the first space: what stands before it, and what stands behind it.
pub(crate) fn cut_at_space(text: &[u8]) -> (&[u8], Option<&[u8]>)
    ensures parts { (result.0.now, option_map (λ behind. behind.now) result.1) ≡ cut_at 32 text.now }
    ensures rest { IfSome result.1 (λ behind. IsRestOf text.now behind.now) }
{
    cut_where(text, position_of(text, b' '))
}

/// A text cut at the first LF.
fn cut_at_lf(text: &[u8]) -> (&[u8], Option<&[u8]>)
    ensures parts { (result.0.now, option_map (λ behind. behind.now) result.1) ≡ cut_at 10 text.now }
    ensures rest { IfSome result.1 (λ behind. IsRestOf text.now behind.now) }
{
    cut_where(text, position_of_lf(text))
}

fn is_cr(byte: Option<u8>) -> bool
    ensures { result ≡ is_cr byte }
{
    match byte {
        Some(byte) => byte == b'\r',
        None => false,
    }
}

/// A line without one CR at its end.
fn strip_cr(text: &[u8]) -> &[u8]
    ensures line { result.now ≡ strip_cr text.now }
    ensures front { LiesAt text.now 0 result.now }
{
    if is_cr(text.last().copied()) {
        &text[..text.len() - 1]
    } else {
        text
    }
}

/// The first line of a text, and what follows its LF.
pub(crate) fn cut_line(text: &[u8]) -> (&[u8], &[u8])
    ensures front { LiesAt text.now 0 result.0.now }
    ensures rest { IsRestOf text.now result.1.now }
    ensures progress { 0 < length text.now → length result.1.now < length text.now }
    ensures lines { (line : ℕ) → lines_from line (lines text.now) ≡ lines_from line (result.0.now ∷ lines result.1.now) }
{
    match cut_at_lf(text) {
        (line, None) => (strip_cr(line), &[]),
        (line, Some(after)) => (strip_cr(line), after),
    }
}
