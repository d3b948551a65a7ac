//! The version of a trace.
ghost use Rattle.std.specs.Prelude.{◌≡◌, ◌⊎◌, codes};
ghost use Rattle.std.specs.Str.{bytes_eq};
ghost use Rattle.layout.specs.Sizes.{tables};
ghost use Rattle.trace_text.specs.Reading.{strip_cr, version_in};
ghost use Rattle.trace_text.specs.Trace.{regions_in};
ghost use Rattle.trace_text.specs.inside.Version.{Begins};

use crate::line::cut_at_lf;
use crate::line_end::strip_cr;
use layout::TABLES;

/// Whether a line, which may have a CR at its end, says that its trace is of version 2.
fn says_two(line: &[u8]) -> bool
    ensures { result ≡ bytes_eq (strip_cr line.now) (codes "version 2") }
{
    strip_cr(line) == b"version 2".as_slice()
}

/// The version of a trace: 2 where its first line says so, else 1.
pub(crate) fn version_of(bytes: &[u8]) -> u32
    ensures value { result ≡ version_in bytes.now }
    ensures one_or_two { (result ≡ 1) ⊎ (result ≡ 2) }
{
    let (line, _) = cut_at_lf(bytes);
    if says_two(line) { 2 } else { 1 }
}

/// What stands behind the line that says the version. A trace of version 1 has no such line.
pub(crate) fn behind_version(version: u32, bytes: &[u8]) -> &[u8]
    requires { version ≡ version_in bytes.now }
    ensures { Begins bytes.now version result.now }
{
    if version == 1 {
        return bytes;
    }
    let (_, behind) = cut_at_lf(bytes);
    match behind {
        None => &[],
        Some(behind) => behind,
    }
}

/// The regions of each shard that runs a trace of this version.
pub(crate) fn regions_in(version: u32) -> u32
    ensures value { result ≡ regions_in version }
    ensures one_or_tables { (result ≡ 1) ⊎ (result ≡ tables) }
{
    if version == 2 { TABLES } else { 1 }
}
