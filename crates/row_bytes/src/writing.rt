//! A row written into the content of its object.
ghost use Rattle.std.specs.Prelude.{◌≡◌, ◌+◌, ◌<◌, ◌≤◌, length};
ghost use Rattle.layout.specs.Sizes.{descriptor, greatest_key, greatest_value, tables};
ghost use Rattle.rows.specs.Key.{in_table};
ghost use Rattle.rows.specs.Row.{size};
ghost use Rattle.row_bytes.specs.Rows as rows;

use crate::links::Links;
use crate::reading::{HEADER, TABLE};
use byteorder::{ByteOrder, LittleEndian};
use layout::DESCRIPTOR;

/// The bytes of a row's object, its descriptor included: 40 and both lengths, in whole multiples of 8.
pub fn row_size(key: &[u8], value: &[u8]) -> u32
    requires key { length key.now ≤ greatest_key }
    requires value { length value.now ≤ greatest_value }
    ensures { result ≡ size key.now value.now }
{
    (DESCRIPTOR + HEADER as u32 + key.len() as u32 + value.len() as u32).div_ceil(8) * 8
}

/// The header of a row with its links. With the key and the value behind it, and zero bytes behind those up to the row's size, the
/// content of a new object is the row's.
pub fn row_header(
    number: u32,
    put: u32,
    links: Links,
    table: u8,
    key: &[u8],
    value: &[u8],
) -> [u8; HEADER]
    requires table { table < tables }
    requires some_key { 1 ≤ length key.now }
    requires short_key { length key.now ≤ greatest_key }
    requires short_value { length value.now ≤ greatest_value }
    ensures bytes { rows.content_of result key.now value.now
        ≡ rows.row_bytes number links (record { key = in_table table key.now; value = value.now; number = put }) }
    ensures holds { rows.HoldsRow (rows.content_of result key.now value.now) number
        (record { key = in_table table key.now; value = value.now; number = put }) }
    ensures read { rows.row_in (rows.content_of result key.now value.now)
        ≡ record { key = in_table table key.now; value = value.now; number = put } }
    ensures number { rows.number_in (rows.content_of result key.now value.now) ≡ number }
    ensures links { rows.links_in (rows.content_of result key.now value.now) ≡ links }
    ensures size { length (rows.content_of result key.now value.now) + descriptor ≡ size key.now value.now }
    ensures long { length result ≡ rows.header }
{
    header_of(
        number,
        put,
        key.len() as u16,
        value.len() as u16,
        table,
        links,
    )
}

/// The bytes of a header.
fn header_of(
    number: u32,
    put: u32,
    key_len: u16,
    value_len: u16,
    table: u8,
    links: Links,
) -> [u8; HEADER]
    ensures bytes { result ≡ rows.header_bytes number put key_len value_len table links }
    ensures long { length result ≡ rows.header }
    ensures fit { rows.AreLinks links }
{
    let mut header = [0; HEADER];
    LittleEndian::write_u32(&mut header, number);
    LittleEndian::write_u32(&mut header[4..], put);
    LittleEndian::write_u16(&mut header[8..], key_len);
    LittleEndian::write_u16(&mut header[10..], value_len);
    header[TABLE] = table;
    LittleEndian::write_u64(&mut header[16..], links.newer);
    LittleEndian::write_u64(&mut header[24..], links.older);
    header
}
