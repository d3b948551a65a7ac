//! Requests: the layout byte for byte, both ways, what is none, and the greatest ones.
ghost use Rattle.std.specs.Prelude.{◌≡◌, ◌+◌, ◌<◌, ◌≤◌, length, IfOk};
ghost use Rattle.rows.specs.Askable.{IsAskable};
ghost use Rattle.rows.specs.Operations.{numbered};
ghost use Rattle.shard_rings.specs.Request.{request};

use shard_rings::{Key, Operation, is_request, read_request, request_size, write_request};
use std::alloc::{AllocError, Global};
use std::test::Fail;

// The requests of `put b 1` as command 1, of `get b` as command 513, of `erase b1` and of `scan b 32` as command 7, all of table 0.
const PUT: [u8; 18] = [1, 0, 1, 0, 1, 0, 0, 0, 1, 0, 0, 0, 0, 0, 0, 0, 0x62, 0x31];

const GET: [u8; 17] = [2, 0, 1, 0, 1, 2, 0, 0, 0, 0, 0, 0, 0, 0, 0, 0, 0x62];

const ERASE: [u8; 18] = [3, 0, 2, 0, 7, 0, 0, 0, 0, 0, 0, 0, 0, 0, 0, 0, 0x62, 0x31];

const SCAN: [u8; 17] = [4, 0, 1, 0, 7, 0, 0, 0, 0, 0, 32, 0, 0, 0, 0, 0, 0x62];

// The request of `get 7 b` as command 513.
const GET_IN_7: [u8; 17] = [2, 7, 1, 0, 1, 2, 0, 0, 0, 0, 0, 0, 0, 0, 0, 0, 0x62];

/// The request of an operation, of the command of this number, in a block of its size.
fn request_of(alloc: Global, number: u32, operation: &Operation<'_>) -> Result<Vec<u8>, AllocError>
    requires { IsAskable (numbered number operation.now) }
    ensures { IfOk result (λ bytes. bytes.items ≡ request (numbered number operation.now)) }
{
    let mut bytes = Vec::from_elem(alloc, 255u8, request_size(operation) as usize)?;
    write_request(number, operation, bytes.as_mut_slice());
    Ok(bytes)
}

/// Whether the request of an operation is of these bytes, and is taken for it.
fn is_laid(
    alloc: Global,
    number: u32,
    operation: &Operation<'_>,
    laid: &[u8],
) -> Result<bool, AllocError>
    requires { IsAskable (numbered number operation.now) }
{
    let request = request_of(alloc, number, operation)?;
    Ok(request.as_slice() == laid && is_request(number, operation, request.as_slice()))
}

#[test]
fn a_request_is_laid_byte_for_byte(rt: HostRuntime) -> Result<(), Fail> {
    let put = Operation::Put {
        key: Key {
            table: 0,
            bytes: b"b",
        },
        value: b"1",
    };
    assert!(rt; is_laid(rt.alloc(), 1, &put, &PUT)?);
    let get = Operation::Get {
        key: Key {
            table: 0,
            bytes: b"b",
        },
    };
    assert!(rt; is_laid(rt.alloc(), 513, &get, &GET)?);
    let get = Operation::Get {
        key: Key {
            table: 7,
            bytes: b"b",
        },
    };
    assert!(rt; is_laid(rt.alloc(), 513, &get, &GET_IN_7)?);
    let erase = Operation::Erase {
        key: Key {
            table: 0,
            bytes: b"b1",
        },
    };
    assert!(rt; is_laid(rt.alloc(), 7, &erase, &ERASE)?);
    let scan = Operation::Scan {
        from: Key {
            table: 0,
            bytes: b"b",
        },
        count: 32,
    };
    assert!(rt; is_laid(rt.alloc(), 7, &scan, &SCAN)?);
    Ok(())
}

#[test]
fn a_request_is_read_as_it_is_laid(rt: HostRuntime) {
    let b = Key {
        table: 0,
        bytes: b"b",
    };
    let b1 = Key {
        table: 0,
        bytes: b"b1",
    };
    let in_7 = Key {
        table: 7,
        bytes: b"b",
    };
    let laid: [(&[u8], u32, Operation<'_>); 5] = [
        (
            &PUT,
            1,
            Operation::Put {
                key: b,
                value: b"1",
            },
        ),
        (&GET, 513, Operation::Get { key: b }),
        (&GET_IN_7, 513, Operation::Get { key: in_7 }),
        (&ERASE, 7, Operation::Erase { key: b1 }),
        (&SCAN, 7, Operation::Scan { from: b, count: 32 }),
    ];
    for (bytes, number, operation) in laid {
        assert!(rt; read_request(bytes) == Some((number, operation)));
    }
}

/// The number that the header of a request spells.
fn number_in(bytes: &[u8]) -> u32
    requires { 8 ≤ length bytes.now }
{
    u32::from_le_bytes([bytes[4], bytes[5], bytes[6], bytes[7]])
}

/// What the format says of `get b` where the byte at a place is another one.
fn changed_get(at: usize, byte: u8, bytes: &[u8]) -> Option<(u32, Operation<'_>)>
    requires { length bytes.now ≡ 17 }
{
    let number = number_in(bytes);
    let key = Key {
        table: 0,
        bytes: &bytes[16..],
    };
    match at {
        // The kind: of a put of an empty value, of a get, of an erase. A scan would lack a count.
        0 => match byte {
            1 => Some((number, Operation::Put { key, value: b"" })),
            2 => Some((number, Operation::Get { key })),
            3 => Some((number, Operation::Erase { key })),
            _ => None,
        },
        // The table, 0 to 7.
        1 if byte < 8 => Some((
            number,
            Operation::Get {
                key: Key {
                    table: byte,
                    bytes: &bytes[16..],
                },
            },
        )),
        1 => None,
        // The low byte of the key's length, the number, and the key.
        2 if byte == 1 => Some((number, Operation::Get { key })),
        2 => None,
        4 | 5 | 6 | 7 | 16 => Some((number, Operation::Get { key })),
        // All others are 0: lengths and counts that a get has not, and the zeros at the end.
        _ if byte == 0 => Some((number, Operation::Get { key })),
        _ => None,
    }
}

/// The same of `put b 1`: only its table, its number, its key and its value can be others, of the lengths that they had.
fn changed_put(at: usize, byte: u8, bytes: &[u8]) -> Option<(u32, Operation<'_>)>
    requires { (length bytes.now ≡ 18) × (at < 18) }
{
    let is_table = at == 1 && byte < 8;
    if !matches!(at, 4 | 5 | 6 | 7 | 16 | 17) && !is_table && byte != PUT[at] {
        return None;
    }
    let key = Key {
        table: bytes[1],
        bytes: &bytes[16..17],
    };
    let value = &bytes[17..];
    Some((number_in(bytes), Operation::Put { key, value }))
}

/// The same of `scan b 32`: its table, its number, its key, and its count, which is 1 to 32.
fn changed_scan(at: usize, byte: u8, bytes: &[u8]) -> Option<(u32, Operation<'_>)>
    requires { (length bytes.now ≡ 17) × (at < 17) }
{
    let counts = at == 10 && 1 <= byte && byte <= 32;
    let is_table = at == 1 && byte < 8;
    if !matches!(at, 4 | 5 | 6 | 7 | 16) && !counts && !is_table && byte != SCAN[at] {
        return None;
    }
    let from = Key {
        table: bytes[1],
        bytes: &bytes[16..],
    };
    let count = bytes[10] as u32;
    Some((number_in(bytes), Operation::Scan { from, count }))
}

/// Whether each of these requests is read as the format says where the byte at a place is another one.
fn is_get_read(at: usize, byte: u8) -> bool
    requires { at < 17 }
{
    let mut bytes = GET;
    bytes[at] = byte;
    read_request(&bytes) == changed_get(at, byte, &bytes)
}

fn is_put_read(at: usize, byte: u8) -> bool
    requires { at < 18 }
{
    let mut bytes = PUT;
    bytes[at] = byte;
    read_request(&bytes) == changed_put(at, byte, &bytes)
}

fn is_scan_read(at: usize, byte: u8) -> bool
    requires { at < 17 }
{
    let mut bytes = SCAN;
    bytes[at] = byte;
    read_request(&bytes) == changed_scan(at, byte, &bytes)
}

/// The first byte that is read otherwise in a place.
fn first_misread_at(at: usize) -> Option<u8>
    requires { at < 18 }
{
    for byte in 0..=255u8 {
        if !is_put_read(at, byte) {
            return Some(byte);
        }
        if at < 17 && (!is_get_read(at, byte) || !is_scan_read(at, byte)) {
            return Some(byte);
        }
    }
    None
}

#[test]
fn each_byte_of_a_request_counts(rt: HostRuntime) {
    for at in 0..18 {
        assert!(rt; first_misread_at(at).is_none(), "{at}");
    }
}

/// Writes a text over the bytes from a place on.
fn lay(into: &mut [u8], at: usize, text: &[u8])
    requires { at + length text.now ≤ length into.old }
{
    into[at..at + text.len()].copy_from_slice(text);
}

/// Whether the bytes without the one at a place are no request.
fn is_none_without(bytes: &[u8], at: usize) -> bool
    requires few { length bytes.now ≤ 32 }
    requires within { at < length bytes.now }
{
    let mut cut = [0u8; 32];
    lay(&mut cut, 0, &bytes[..at]);
    lay(&mut cut, at, &bytes[at + 1..]);
    read_request(&cut[..bytes.len() - 1]).is_none()
}

/// Whether the bytes with the one at a place twice are no request.
fn is_none_with(bytes: &[u8], at: usize) -> bool
    requires few { length bytes.now < 32 }
    requires within { at < length bytes.now }
{
    let mut doubled = [0u8; 32];
    lay(&mut doubled, 0, &bytes[..at + 1]);
    lay(&mut doubled, at + 1, &bytes[at..]);
    read_request(&doubled[..bytes.len() + 1]).is_none()
}

/// Whether the bytes are a request, and none where one of them is out or there twice, or where they end before it.
fn is_whole(bytes: &[u8]) -> bool
    requires { length bytes.now < 32 }
{
    for at in 0..bytes.len() {
        if read_request(&bytes[..at]).is_some()
            || !is_none_without(bytes, at)
            || !is_none_with(bytes, at)
        {
            return false;
        }
    }
    read_request(bytes).is_some()
}

#[test]
fn a_request_with_a_byte_more_or_fewer_is_none(rt: HostRuntime) {
    assert!(rt; is_whole(&PUT));
    assert!(rt; is_whole(&GET));
    assert!(rt; is_whole(&ERASE));
    assert!(rt; is_whole(&SCAN));
}

#[test]
fn what_is_no_request_is_refused(rt: HostRuntime) {
    let refused: [(&str, &[u8]); 12] = [
        ("no bytes", &[]),
        ("15 bytes", &[2, 0, 1, 0, 1, 0, 0, 0, 0, 0, 0, 0, 0, 0, 0]),
        (
            "kind 0",
            &[0, 0, 1, 0, 1, 0, 0, 0, 0, 0, 0, 0, 0, 0, 0, 0, 97],
        ),
        (
            "kind 5",
            &[5, 0, 1, 0, 1, 0, 0, 0, 0, 0, 0, 0, 0, 0, 0, 0, 97],
        ),
        (
            "table 8",
            &[2, 8, 1, 0, 1, 0, 0, 0, 0, 0, 0, 0, 0, 0, 0, 0, 97],
        ),
        (
            "byte 12",
            &[2, 0, 1, 0, 1, 0, 0, 0, 0, 0, 0, 0, 1, 0, 0, 0, 97],
        ),
        (
            "byte 15",
            &[2, 0, 1, 0, 1, 0, 0, 0, 0, 0, 0, 0, 0, 0, 0, 1, 97],
        ),
        ("no key", &[2, 0, 0, 0, 1, 0, 0, 0, 0, 0, 0, 0, 0, 0, 0, 0]),
        (
            "a get with a value",
            &[2, 0, 1, 0, 1, 0, 0, 0, 1, 0, 0, 0, 0, 0, 0, 0, 97, 98],
        ),
        (
            "a put with a byte behind it",
            &[1, 0, 1, 0, 1, 0, 0, 0, 1, 0, 0, 0, 0, 0, 0, 0, 97, 98, 99],
        ),
        (
            "a put that ends early",
            &[1, 0, 1, 0, 1, 0, 0, 0, 1, 0, 0, 0, 0, 0, 0, 0, 97],
        ),
        (
            "a scan of 33 keys",
            &[4, 0, 1, 0, 1, 0, 0, 0, 0, 0, 33, 0, 0, 0, 0, 0, 97],
        ),
    ];
    for (name, bytes) in refused {
        assert!(rt; read_request(bytes).is_none(), "{name}");
    }
}

/// Whether the request of the operation, of the greatest number, has so many bytes and begins so.
fn longest_is(
    alloc: Global,
    operation: &Operation<'_>,
    len: usize,
    front: &[u8],
) -> Result<bool, AllocError>
    requires { IsAskable (numbered 4294967295 operation.now) }
{
    let request = request_of(alloc, u32::MAX, operation)?;
    let back = read_request(request.as_slice());
    Ok(
        request.len() == len
            && request.as_slice().starts_with(front)
            && back == Some((u32::MAX, *operation)),
    )
}

#[test]
fn the_greatest_requests(rt: HostRuntime) -> Result<(), Fail> {
    let bytes = [b'k'; 256];
    let value = [b'v'; 12_000];
    let key = Key {
        table: 0,
        bytes: &bytes,
    };
    let put = Operation::Put { key, value: &value };
    let front = [1, 0, 0, 1, 255, 255, 255, 255, 0xe0, 0x2e, 0, 0, 0, 0, 0, 0];
    assert!(rt; longest_is(rt.alloc(), &put, 12_272, &front)?);
    let get = Operation::Get { key };
    assert!(rt; longest_is(rt.alloc(), &get, 272, &[])?);
    let erase = Operation::Erase { key };
    assert!(rt; longest_is(rt.alloc(), &erase, 272, &[])?);
    let scan = Operation::Scan {
        from: key,
        count: 32,
    };
    let front = [
        4, 0, 0, 1, 255, 255, 255, 255, 0, 0, 32, 0, 0, 0, 0, 0, b'k',
    ];
    assert!(rt; longest_is(rt.alloc(), &scan, 272, &front)?);
    Ok(())
}
