//! Lines, cut off in front.
ghost use Rattle.std.specs.Prelude.{◌≡◌, ◌==◌, ◌<◌, ◌≤◌, length, drop, position, IfSome};
ghost use Rattle.std.specs.List.{slice_get};
ghost use Rattle.std.specs.Option.{option_map};
ghost use Rattle.report_check.specs.Lines.{lines_of};

use memchr::memchr;

/// A line without its LF; none is what stands behind the last LF, if anything does.
pub(crate) type Line<'a> = Option<&'a [u8]>;

pub(crate) fn position_of_lf(bytes: &[u8]) -> Option<usize>
    ensures { result ≡ position (λ b. b == 10) bytes.now }
{
    memchr(b'\n', bytes)
}

/// The first line, if there is one, and what stands behind it.
pub(crate) fn cut_line(bytes: &[u8]) -> (Option<Line<'_>>, &[u8])
    ensures first { option_map (option_map (λ text. text.now)) result.0 ≡ slice_get (lines_of bytes.now) 0 }
    ensures behind { lines_of result.1.now ≡ drop 1 (lines_of bytes.now) }
    ensures within { IfSome result.0 (λ line. IfSome line (λ text. length text.now ≤ length bytes.now)) }
    ensures shorter { 0 < length bytes.now → length result.1.now < length bytes.now }
    ensures no_longer { length result.1.now ≤ length bytes.now }
{
    if bytes.is_empty() {
        return (None, bytes);
    }
    match position_of_lf(bytes) {
        Some(at) => (Some(Some(&bytes[..at])), &bytes[at + 1..]),
        None => (Some(None), &[]),
    }
}

/// What stands behind so many lines.
pub(crate) fn skip_lines(bytes: &[u8], count: usize) -> &[u8]
    ensures behind { lines_of result.now ≡ drop count (lines_of bytes.now) }
    ensures shorter { length result.now ≤ length bytes.now }
{
    let mut rest = bytes;
    for _ in 0..count {
        let (_, behind) = cut_line(rest);
        rest = behind;
    }
    rest
}
