//! Requests, written and read.
ghost use Rattle.std.specs.Prelude.{◌≡◌, ◌≢◌, ◌+◌, ◌≤◌, ◌++◌, ℕ, length, drop, is_some, IfSome, IfNone};
ghost use Rattle.std.specs.Str.{bytes_eq};
ghost use Rattle.layout.specs.Sizes.{greatest_request, greatest_value, message_header};
ghost use Rattle.rows.specs.Key.{key_shown};
ghost use Rattle.rows.specs.Operation.{Operation as Asked};
ghost use Rattle.rows.specs.Spelled.{IsKey};
ghost use Rattle.rows.specs.Askable.{IsAskable};
ghost use Rattle.rows.specs.Operations.{key_of, numbered, of_fields, value_of};
ghost use Rattle.shard_rings.specs.Request.{kind_byte, request, IsRequest};
ghost use Rattle.shard_rings.specs.inside.Requests.{HasFields};

use crate::head::HEADER;
use crate::request_head::{RequestHead, request_head_in, write_request_head};
use crate::writing::write_at;
use layout::{GREATEST_KEY, GREATEST_VALUE, MESSAGE_HEADER, MOST_KEYS, TABLES};
use rows::{Key, Operation};
use trace_text::Kind;

/// How many bytes the request of an operation has.
pub fn request_size(operation: &Operation<'_>) -> u32
    requires key { IsKey (key_of operation.now).bytes }
    requires value { length (value_of operation.now) ≤ greatest_value }
    ensures size { (number : ℕ) → result ≡ length (request (numbered number operation.now)) }
    ensures fields { result ≡ message_header + length (key_of operation.now).bytes + length (value_of operation.now) }
    ensures most { result ≤ greatest_request }
{
    size_of(operation.key().bytes, operation.value())
}

/// How many bytes the request with this key and this value has.
fn size_of(key: &[u8], value: &[u8]) -> u32
    requires key { IsKey key.now }
    requires value { length value.now ≤ greatest_value }
    ensures { result ≡ message_header + length key.now + length value.now }
{
    MESSAGE_HEADER + key.len() as u32 + value.len() as u32
}

/// Writes the request of an operation, of the command of this number, over `into`, which has exactly its size.
pub fn write_request(number: u32, operation: &Operation<'_>, into: &mut [u8])
    requires askable { IsAskable (numbered number operation.now) }
    requires room { length into.old ≡ length (request (numbered number operation.now)) }
    ensures { into.new ≡ request (numbered number operation.now) }
{
    write_fields(
        number,
        operation.kind(),
        operation.key(),
        operation.value(),
        operation.count(),
        into,
    );
}

/// Writes the request of a kind with these fields.
fn write_fields(number: u32, kind: Kind, key: Key<'_>, value: &[u8], count: u32, into: &mut [u8])
    requires askable { IsAskable (of_fields number kind (key_shown key) value.now count) }
    requires room { length into.old ≡ length (request (of_fields number kind (key_shown key) value.now count)) }
    ensures { into.new ≡ request (of_fields number kind (key_shown key.entry) value.now count) }
{
    let head = RequestHead {
        kind: byte_of(kind),
        table: key.table,
        key_len: key.bytes.len() as u16,
        number,
        value_len: value.len() as u16,
        count: count as u16,
    };
    let value_at = HEADER + key.bytes.len();
    write_request_head(&head, into);
    write_at(into, HEADER, key.bytes);
    write_at(into, value_at, value);
}

/// The number and the operation whose request the bytes are, neither more nor fewer. None where they are the request of none.
pub fn read_request(bytes: &[u8]) -> Option<(u32, Operation<'_>)>
    ensures read { IfSome result (λ read. IsRequest bytes.now (numbered read.0 read.1)) }
    ensures none { IfNone result ((operation : Asked) → IsRequest bytes.now operation → ⊥) }
{
    let head = request_head_in(bytes)?;
    let (key, value) = fields_in(bytes, head.key_len, head.value_len)?;
    let operation = operation_in(
        head.kind,
        Key {
            table: head.table,
            bytes: key,
        },
        value,
        head.count,
    )?;
    Some((head.number, operation))
}

/// What the bytes ask, where they are the request of this operation, of the command of this number.
pub fn read_expected<'a>(
    bytes: &'a [u8],
    number: u32,
    operation: &Operation<'_>,
) -> Option<Operation<'a>>
    requires { IsAskable (numbered number operation.now) }
    ensures same { IfSome result (λ read. numbered number read ≡ numbered number operation.now) }
    ensures exactly { is_some result ≡ bytes_eq bytes.now (request (numbered number operation.now)) }
{
    let Some((found, read)) = read_request(bytes) else {
        return None;
    };
    if found != number {
        return None;
    }
    if !read.is_same_as(operation) {
        return None;
    }
    Some(read)
}

/// Whether the bytes are the request of an operation, of the command of this number, neither more nor fewer.
pub fn is_request(number: u32, operation: &Operation<'_>, bytes: &[u8]) -> bool
    requires { IsAskable (numbered number operation.now) }
    ensures { result ≡ bytes_eq bytes.now (request (numbered number operation.now)) }
{
    read_expected(bytes, number, operation).is_some()
}

/// The key and the value behind the header, where they fill the bytes.
fn fields_in(bytes: &[u8], key_len: u16, value_len: u16) -> Option<(&[u8], &[u8])>
    ensures fill { IfSome result (λ fields. drop message_header bytes.now ≡ fields.0.now ++ fields.1.now) }
    ensures key { IfSome result (λ fields. length fields.0.now ≡ key_len) }
    ensures value { IfSome result (λ fields. length fields.1.now ≡ value_len) }
    ensures none { IfNone result (length bytes.now ≢ message_header + key_len + value_len) }
{
    let behind = bytes.get(HEADER..)?;
    if behind.len() != key_len as usize + value_len as usize {
        return None;
    }
    Some(behind.split_at(key_len as usize))
}

/// The operation of a kind with these fields. None where it lacks a field or has one too many, or one is too long or too great.
fn operation_in<'a>(kind: u8, key: Key<'a>, value: &'a [u8], count: u16) -> Option<Operation<'a>>
    ensures some { IfSome result (λ operation. (number : ℕ)
        → HasFields kind key.entry.table key.entry.bytes.now value.now count (numbered number operation)) }
    ensures none { IfNone result ((operation : Asked)
        → HasFields kind key.entry.table key.entry.bytes.now value.now count operation → ⊥) }
{
    let count = count as u32;
    if TABLES <= key.table as u32 {
        return None;
    }
    if key.bytes.is_empty() || GREATEST_KEY < key.bytes.len() || GREATEST_VALUE < value.len() {
        return None;
    }
    match kind {
        1 if count == 0 => Some(Operation::Put { key, value }),
        2 if value.is_empty() && count == 0 => Some(Operation::Get { key }),
        3 if value.is_empty() && count == 0 => Some(Operation::Erase { key }),
        4 if value.is_empty() && 1 <= count && count <= MOST_KEYS => {
            Some(Operation::Scan { from: key, count })
        }
        _ => None,
    }
}

fn byte_of(kind: Kind) -> u8
    ensures { result ≡ kind_byte kind }
{
    match kind {
        Kind::Put => 1,
        Kind::Get => 2,
        Kind::Erase => 3,
        Kind::Scan => 4,
    }
}
