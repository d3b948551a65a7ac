//! A row read from the content of its object.
ghost use Rattle.std.specs.Prelude.{◌≡◌, ◌+◌, ◌<◌, ◌≤◌, length};
ghost use Rattle.layout.specs.Sizes.{tables};
ghost use Rattle.rows.specs.Key.{key_shown};
ghost use Rattle.row_bytes.specs.Rows as rows;

use byteorder::{ByteOrder, LittleEndian};
use rows::Key;

/// The bytes of a row's header.
pub const HEADER: usize = 32;

// Where the table stands in the content.
pub(crate) const TABLE: usize = 12;

/// The row number in the content of a row's object.
#[tactic(auto, using(crate::proofs::Fields::fields_in))]
pub fn number_in(content: &[u8]) -> u32
    requires { rows.IsRow content.now }
    ensures { result ≡ rows.number_in content.now }
{
    LittleEndian::read_u32(content)
}

/// The number of the put that stored the row.
#[tactic(auto, using(crate::proofs::Fields::fields_in))]
pub fn put_in(content: &[u8]) -> u32
    requires { rows.IsRow content.now }
    ensures { result ≡ rows.put_in content.now }
{
    LittleEndian::read_u32(&content[4..])
}

/// The table of the row, 0 to 7.
#[tactic(auto, using(crate::proofs::Fields::fields_in))]
pub fn table_in(content: &[u8]) -> u8
    requires { rows.IsRow content.now }
    ensures is { result ≡ rows.table_in content.now }
    ensures table { result < tables }
{
    content[TABLE]
}

/// The key of the row, in its table.
pub fn key_of_row(content: &[u8]) -> Key<'_>
    requires { rows.IsRow content.now }
    ensures key { key_shown result ≡ rows.key_of_row content.now }
    ensures table { result.table < tables }
{
    Key {
        table: table_in(content),
        bytes: key_in(content),
    }
}

/// The bytes of the row's key, 1 to 256.
#[tactic(auto, using(crate::proofs::Fields::fields_in))]
pub fn key_in(content: &[u8]) -> &[u8]
    requires { rows.IsRow content.now }
    ensures { result.now ≡ rows.key_in content.now }
{
    let len = LittleEndian::read_u16(&content[8..]) as usize;
    &content[HEADER..HEADER + len]
}

/// The value of the row, at most 12,000 bytes.
#[tactic(auto, using(crate::proofs::Fields::fields_in))]
pub fn value_in(content: &[u8]) -> &[u8]
    requires { rows.IsRow content.now }
    ensures { result.now ≡ rows.value_in content.now }
{
    let key_len = LittleEndian::read_u16(&content[8..]) as usize;
    let len = LittleEndian::read_u16(&content[10..]) as usize;
    &content[HEADER + key_len..HEADER + key_len + len]
}
