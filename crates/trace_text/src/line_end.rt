//! The end of a line.
ghost use Rattle.std.specs.Prelude.{◌≡◌};
ghost use Rattle.trace_text.specs.Reading.{is_cr, strip_cr};
ghost use Rattle.trace_text.specs.inside.Found.{LiesAt};

fn is_cr(byte: Option<u8>) -> bool
    ensures { result ≡ is_cr byte }
{
    match byte {
        Some(byte) => byte == b'\r',
        None => false,
    }
}

/// A line without one CR at its end.
pub(crate) fn strip_cr(text: &[u8]) -> &[u8]
    ensures line { result.now ≡ strip_cr text.now }
    ensures front { LiesAt text.now 0 result.now }
{
    if is_cr(text.last().copied()) {
        &text[..text.len() - 1]
    } else {
        text
    }
}
