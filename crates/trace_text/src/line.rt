//! One line of a trace.
ghost use Rattle.std.specs.Prelude.{◌≡◌, ◌⊎◌, [], Ok, Err, ◌==◌, ◌<◌, ◌&&◌, nat_le, nat_lt, length, decimal, position, true, None, Some, IfSome, IfOk, IfErr, IsTrue};
ghost use Rattle.std.specs.List.{list_all};
ghost use Rattle.std.specs.Option.{option_map};
ghost use Rattle.std.specs.Str.{bytes_eq};
ghost use Rattle.layout.specs.Sizes.{most_keys, tables};
ghost use Rattle.rows.specs.Key.{Key};
ghost use Rattle.trace_text.specs.Line.{is_passed, cut_at, cut_where, is_key_byte, is_value_byte, key_fault, value_fault};
ghost use Rattle.trace_text.specs.Line.{kind_of, count_of, from_count, from_key, table_of, from_table, from_fields, fields_of};
ghost use Rattle.rows.specs.Operation.{HasItsFields};
ghost use Rattle.trace_text.specs.inside.Found.{digits_in, reading_of, IsRestOf, LieIn};
ghost use Rattle.trace_text.specs.inside.Plain.{IsPlain};
ghost use Rattle.trace_text.specs.inside.Version.{table_in, table_spelled};

use crate::refusal::Cause;
use itoa::Buffer;
use layout::{GREATEST_KEY, GREATEST_VALUE, MOST_KEYS};
use memchr::memchr;
use rows::Kind;

/// What a line asks, and where its key and its value stand in it.
#[derive(Clone, Copy, Debug)]
pub struct Found<'a> {
    pub kind: Kind,
    pub table: u8,
    pub key: &'a [u8],
    pub key_at: usize,
    pub value: &'a [u8],
    pub value_at: usize,
    pub count: u32,
}

/// Whether a line is passed over: an empty one, and one that begins with `#`.
pub fn is_passed(line: &[u8]) -> bool
    ensures { result ≡ is_passed line.now }
{
    match line {
        [] => true,
        [first, ..] => *first == b'#',
    }
}

// The words and keys of a line are short, and its end may be far.
fn position_of(text: &[u8], byte: u8) -> Option<usize>
    ensures { result ≡ position (λ b. b == byte) text.now }
{
    text.iter().position(|b| *b == byte)
}

fn position_of_lf(text: &[u8]) -> Option<usize>
    ensures { result ≡ position (λ b. b == 10) text.now }
{
    memchr(b'\n', text)
}

fn cut_where(text: &[u8], at: Option<usize>) -> (&[u8], Option<&[u8]>)
    requires { IfSome at (λ i. i < length text.now) }
    ensures parts { (result.0.now, option_map (λ behind. behind.now) result.1) ≡ cut_where at text.now }
    ensures rest { IfSome result.1 (λ behind. IsRestOf text.now behind.now) }
{
    match at {
        None => (text, None),
        Some(at) => (&text[..at], Some(&text[at + 1..])),
    }
}

/// A text cut at the first such byte: what stands before it, and what stands behind it.
fn cut(text: &[u8], byte: u8) -> (&[u8], Option<&[u8]>)
    ensures parts { (result.0.now, option_map (λ behind. behind.now) result.1) ≡ cut_at byte text.now }
    ensures rest { IfSome result.1 (λ behind. IsRestOf text.now behind.now) }
{
    cut_where(text, position_of(text, byte))
}

/// A text cut at the first LF.
pub fn cut_at_lf(text: &[u8]) -> (&[u8], Option<&[u8]>)
    ensures parts { (result.0.now, option_map (λ behind. behind.now) result.1) ≡ cut_at 10 text.now }
    ensures rest { IfSome result.1 (λ behind. IsRestOf text.now behind.now) }
{
    cut_where(text, position_of_lf(text))
}

// No early exit in this loop and the next, so that each tests many bytes at a time.
fn are_key_bytes(key: &[u8]) -> bool
    ensures { result ≡ list_all is_key_byte key.now }
{
    let mut are = true;
    for b in key {
        are &= (*b > 32) & (*b != 127);
    }
    are
}

fn are_value_bytes(value: &[u8]) -> bool
    ensures { result ≡ list_all is_value_byte value.now }
{
    let mut are = true;
    for b in value {
        are &= (*b > 31) & (*b != 127);
    }
    are
}

/// What is wrong with a key. `sound` says that its bytes are known to be those of a key.
#[inline(always)]
fn key_fault(key: &[u8], sound: bool) -> Option<Cause>
    requires { IsTrue sound → list_all is_key_byte key.now ≡ true }
    ensures { result ≡ key_fault key.now }
{
    if key.is_empty() || key.len() > GREATEST_KEY {
        Some(Cause::KeyLength)
    } else if sound || are_key_bytes(key) {
        None
    } else {
        Some(Cause::KeyByte)
    }
}

/// What is wrong with a value. `sound` says that its bytes are known to be those of a value.
#[inline(always)]
fn value_fault(value: &[u8], sound: bool) -> Option<Cause>
    requires { IsTrue sound → IsPlain value.now }
    ensures { result ≡ value_fault value.now }
{
    if value.len() > GREATEST_VALUE {
        Some(Cause::ValueLength)
    } else if sound || are_value_bytes(value) {
        None
    } else {
        Some(Cause::ValueByte)
    }
}

fn digits_in(field: &[u8]) -> u32
    ensures { result ≡ digits_in field.now }
{
    match field {
        [ones] => u32::from(ones.saturating_sub(b'0')),
        [tens, ones] => {
            u32::from(tens.saturating_sub(b'0')) * 10 + u32::from(ones.saturating_sub(b'0'))
        }
        _ => 0,
    }
}

fn spells(field: &[u8], number: u32) -> bool
    ensures { result ≡ bytes_eq (decimal number) field.now }
{
    let mut buffer = Buffer::new();
    buffer.format(number).as_bytes() == field
}

fn is_count(field: &[u8], number: u32) -> bool
    ensures { result ≡ (nat_le 1 number && nat_le number most_keys && bytes_eq (decimal number) field.now) }
{
    number >= 1 && number <= MOST_KEYS && spells(field, number)
}

/// The number from 1 to 32 that a field spells, without a leading zero.
fn count_of(field: &[u8]) -> Option<u32>
    ensures { result ≡ count_of field.now }
{
    let count = digits_in(field);
    if is_count(field, count) {
        Some(count)
    } else {
        None
    }
}

/// The key with which the fields begin, and what stands behind the space after it.
#[inline(always)]
fn key_in(fields: &[u8], sound: bool) -> Result<(&[u8], Option<&[u8]>), Cause>
    requires { IsTrue sound → IsPlain fields.now }
    ensures parts { IfOk result (λ parts. (parts.0.now, option_map (λ behind. behind.now) parts.1) ≡ cut_at 32 fields.now) }
    ensures sound { IfOk result (λ parts. key_fault parts.0.now ≡ None) }
    ensures rest { IfOk result (λ parts. IfSome parts.1 (λ behind. IsRestOf fields.now behind.now)) }
    ensures fault { IfErr result (λ cause. key_fault (cut_at 32 fields.now).0 ≡ Some cause) }
{
    let (key, behind) = cut(fields, b' ');
    match key_fault(key, sound) {
        Some(cause) => Err(cause),
        None => Ok((key, behind)),
    }
}

/// The key, a space, and the value, which is all that follows.
#[tactic(auto, using(crate::proofs::PlainText::plain_rest))]
#[inline(always)]
fn put_in(table: u8, fields: &[u8], sound: bool) -> Result<Found<'_>, Cause>
    requires table { table < tables }
    requires sound { IsTrue sound → IsPlain fields.now }
    ensures fields { reading_of result ≡ from_key Kind.Put table (cut_at 32 fields.now) }
    ensures offsets { IfOk result (LieIn fields.now) }
{
    let (key, behind) = key_in(fields, sound)?;
    let value = behind.ok_or(Cause::MissingField)?;
    match value_fault(value, sound) {
        Some(cause) => Err(cause),
        None => Ok(Found {
            kind: Kind::Put,
            table,
            key,
            key_at: 0,
            value,
            value_at: fields.len() - value.len(),
            count: 0,
        }),
    }
}

/// A key, and nothing behind it.
#[inline(always)]
fn bare_in(kind: Kind, table: u8, fields: &[u8], sound: bool) -> Result<Found<'_>, Cause>
    requires table { table < tables }
    requires sound { IsTrue sound → IsPlain fields.now }
    requires kind { (kind ≡ Kind.Get) ⊎ (kind ≡ Kind.Erase) }
    ensures fields { reading_of result ≡ from_key kind table (cut_at 32 fields.now) }
    ensures offsets { IfOk result (LieIn fields.now) }
{
    let (key, behind) = key_in(fields, sound)?;
    if behind.is_some() {
        return Err(Cause::ExtraField);
    }
    Ok(Found {
        kind,
        table,
        key,
        key_at: 0,
        value: &[],
        value_at: 0,
        count: 0,
    })
}

/// The count of a scan, and nothing behind it.
fn count_in(fields: &[u8]) -> Result<u32, Cause>
    ensures count { IfOk result (λ count. (key : Key) → from_count key (cut_at 32 fields.now) ≡ Ok
        (record { kind = Kind.Scan; key = key; value = []; count = count })) }
    ensures fields { IfOk result (λ count. HasItsFields Kind.Scan [] count) }
    ensures fault { IfErr result (λ cause. (key : Key) → from_count key (cut_at 32 fields.now) ≡ Err cause) }
{
    let (field, extra) = cut(fields, b' ');
    let count = count_of(field).ok_or(Cause::Count)?;
    if extra.is_some() {
        return Err(Cause::ExtraField);
    }
    Ok(count)
}

/// A key, a space, and a count.
#[inline(always)]
fn scan_in(table: u8, fields: &[u8], sound: bool) -> Result<Found<'_>, Cause>
    requires table { table < tables }
    requires sound { IsTrue sound → IsPlain fields.now }
    ensures fields { reading_of result ≡ from_key Kind.Scan table (cut_at 32 fields.now) }
    ensures offsets { IfOk result (LieIn fields.now) }
{
    let (key, behind) = key_in(fields, sound)?;
    let behind = behind.ok_or(Cause::MissingField)?;
    let count = count_in(behind)?;
    Ok(Found {
        kind: Kind::Scan,
        table,
        key,
        key_at: 0,
        value: &[],
        value_at: 0,
        count,
    })
}

/// The kind that a word names.
fn kind_of(word: &[u8]) -> Option<Kind>
    ensures { result ≡ kind_of word.now }
{
    match word {
        b"put" => Some(Kind::Put),
        b"get" => Some(Kind::Get),
        b"erase" => Some(Kind::Erase),
        b"scan" => Some(Kind::Scan),
        _ => None,
    }
}

/// The fields of a command on this table.
#[inline(always)]
fn fields_on(kind: Kind, table: u8, fields: &[u8], sound: bool) -> Result<Found<'_>, Cause>
    requires table { table < tables }
    requires sound { IsTrue sound → IsPlain fields.now }
    ensures fields { reading_of result ≡ from_key kind table (cut_at 32 fields.now) }
    ensures offsets { IfOk result (LieIn fields.now) }
{
    match kind {
        Kind::Put => put_in(table, fields, sound),
        Kind::Get | Kind::Erase => bare_in(kind, table, fields, sound),
        Kind::Scan => scan_in(table, fields, sound),
    }
}

/// The table that a byte spells.
fn table_in(byte: u8) -> Option<u8>
    ensures value { result ≡ table_in byte }
    ensures below { IfSome result (λ table. table < tables) }
{
    match byte {
        b'0'..=b'7' => Some(byte - b'0'),
        _ => None,
    }
}

fn table_spelled(field: &[u8]) -> Option<u8>
    ensures value { result ≡ table_spelled field.now }
    ensures below { IfSome result (λ table. table < tables) }
{
    match field {
        [byte] => table_in(*byte),
        _ => None,
    }
}

/// The table that a field spells: one digit, 0 to 7.
fn table_of(field: &[u8]) -> Option<u8>
    ensures value { result ≡ table_of field.now }
    ensures below { IfSome result (λ table. table < tables) }
{
    table_spelled(field)
}

/// The fields of a command that names its table: the table, a space, and the others.
#[inline(always)]
fn fields_named(kind: Kind, fields: &[u8], sound: bool) -> Result<Found<'_>, Cause>
    requires { IsTrue sound → IsPlain fields.now }
    ensures fields { reading_of result ≡ from_table kind (cut_at 32 fields.now) }
    ensures offsets { IfOk result (LieIn fields.now) }
{
    let (field, behind) = cut(fields, b' ');
    let table = table_of(field).ok_or(Cause::Table)?;
    let behind = behind.ok_or(Cause::MissingField)?;
    let found = fields_on(kind, table, behind, sound)?;
    let before = fields.len() - behind.len();
    Ok(Found {
        key_at: before + found.key_at,
        value_at: before + found.value_at,
        ..found
    })
}

/// The fields of a command: in a trace of version 1 it is on table 0.
#[inline(always)]
fn fields_behind(version: u32, kind: Kind, fields: &[u8], sound: bool) -> Result<Found<'_>, Cause>
    requires { IsTrue sound → IsPlain fields.now }
    ensures fields { reading_of result ≡ from_fields version kind fields.now }
    ensures offsets { IfOk result (LieIn fields.now) }
{
    if version == 2 {
        fields_named(kind, fields, sound)
    } else {
        fields_on(kind, 0, fields, sound)
    }
}

/// What a line of a trace of this version asks, or the first thing that is wrong with it. `sound` says that its bytes
/// are known to be those of a value.
pub fn fields_of(version: u32, line: &[u8], sound: bool) -> Result<Found<'_>, Cause>
    requires { IsTrue sound → IsPlain line.now }
    ensures fields { reading_of result ≡ fields_of version line.now }
    ensures offsets { IfOk result (LieIn line.now) }
{
    let (word, fields) = cut(line, b' ');
    let kind = kind_of(word).ok_or(Cause::UnknownWord)?;
    let fields = fields.ok_or(Cause::MissingField)?;
    let found = fields_behind(version, kind, fields, sound)?;
    let before = line.len() - fields.len();
    Ok(Found {
        key_at: before + found.key_at,
        value_at: before + found.value_at,
        ..found
    })
}
