//! A trace and a report in one input.
ghost use Rattle.std.specs.Prelude.{◌≡◌, ◌<◌, ◌≤◌, length, IfSome};
ghost use Rattle.std.specs.Option.{option_map};
ghost use Rattle.trace_text.specs.Line.{cut_at, cut_where};
ghost use Rattle.report_check.specs.Frame.{cut_behind, framed};

use crate::line::position_of_lf;
use numerals::number_of;

/// The greatest length of a trace that is read.
const GREATEST_LENGTH: u32 = 99_999_999;

fn cut_where(text: &[u8], at: Option<usize>) -> (&[u8], Option<&[u8]>)
    requires { IfSome at (λ i. i < length text.now) }
    ensures { (result.0.now, option_map (λ behind. behind.now) result.1) ≡ cut_where at text.now }
{
    match at {
        None => (text, None),
        Some(at) => (&text[..at], Some(&text[at + 1..])),
    }
}

/// What stands before the first LF, and what stands behind it.
fn cut_at_lf(text: &[u8]) -> (&[u8], Option<&[u8]>)
    ensures { (result.0.now, option_map (λ behind. behind.now) result.1) ≡ cut_at 10 text.now }
{
    cut_where(text, position_of_lf(text))
}

/// So many bytes, and those behind them, where there are so many.
fn cut_behind(bytes: &[u8], len: u32) -> Option<(&[u8], &[u8])>
    ensures { option_map (λ cut. (cut.0.now, cut.1.now)) result ≡ cut_behind bytes.now len }
{
    let len = len as usize;
    if len <= bytes.len() {
        Some((&bytes[..len], &bytes[len..]))
    } else {
        None
    }
}

/// The trace and the report in an input: the length of the trace in decimal, of 1 to 8 digits without a leading zero, LF, the trace,
/// and the report behind it. None where no such number and LF stand in front, or fewer bytes follow.
pub fn frame(bytes: &[u8]) -> Option<(&[u8], &[u8])>
    ensures framed { option_map (λ cut. (cut.0.now, cut.1.now)) result ≡ framed bytes.now }
    ensures within { IfSome result (λ cut. (length cut.0.now ≤ length bytes.now) × (length cut.1.now ≤ length bytes.now)) }
{
    let (field, behind) = cut_at_lf(bytes);
    let behind = behind?;
    cut_behind(behind, number_of(field, GREATEST_LENGTH)?)
}
