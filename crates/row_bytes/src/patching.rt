//! Bytes written over a part of a row's value.
ghost use Rattle.std.specs.Prelude.{◌≡◌, ◌+◌, ◌≤◌, ℕ, ◌++◌, length, take, drop};
ghost use Rattle.layout.specs.Sizes.{descriptor};
ghost use Rattle.rows.specs.Row.{Row, size};
ghost use Rattle.row_bytes.specs.Rows as rows;
ghost use Rattle.row_bytes.specs.Patches.{with_patch};

use crate::reading::HEADER;
use byteorder::{ByteOrder, LittleEndian};

/// Writes bytes over those of the row's value from `at` on, which has so many. The value is as long as it was, and the rest of
/// the row is as it was.
pub fn set_value(content: &mut [u8], at: usize, bytes: &[u8])
    requires row { rows.IsRow content.old }
    requires within { at + length bytes.now ≤ length (rows.row_in content.old).value }

    // The row has the value with these bytes.
    ensures holds { (number : ℕ) (row : Row) → rows.HoldsRow content.old number row
        → rows.HoldsRow content.new number (with_patch row at bytes.now) }
    ensures row { rows.row_in content.new ≡ with_patch (rows.row_in content.old) at bytes.now }

    // Nothing else is another, nor longer.
    ensures links { rows.links_in content.new ≡ rows.links_in content.old }
    ensures number { rows.number_in content.new ≡ rows.number_in content.old }
    ensures value { length (rows.row_in content.new).value ≡ length (rows.row_in content.old).value }
    ensures size { (number : ℕ) (row : Row) → rows.HoldsRow content.old number row
        → length content.new + descriptor ≡ size row.key.bytes (with_patch row at bytes.now).value }
    ensures length { length content.new ≡ length content.old }
{
    let key_len = key_length(content);
    put_bytes(content, HEADER + key_len + at, bytes);
}

// The length of the row's key.
#[tactic(auto, using(crate::proofs::Fields::fields_in))]
fn key_length(content: &[u8]) -> usize
    requires { rows.IsRow content.now }
    ensures { result ≡ rows.key_length_in content.now }
{
    LittleEndian::read_u16(&content[8..]) as usize
}

// Writes bytes over those from `at` on.
fn put_bytes(content: &mut [u8], at: usize, bytes: &[u8])
    requires { at + length bytes.now ≤ length content.old }
    ensures { content.new ≡ take at content.old ++ (bytes.now ++ drop (at + length bytes.now) content.old) }
{
    content[at..at + bytes.len()].copy_from_slice(bytes);
}
