//! Replies: the layout byte for byte, both ways, what is none, and the greatest ones.
ghost use Rattle.std.specs.Prelude.{◌+◌, ◌<◌, ◌≤◌, ◌^◌, length};
ghost use Rattle.rows.specs.Apply.{Reply as Replied};
ghost use Rattle.rows.specs.Shown.{IsViewOf};
ghost use Rattle.shard_rings.specs.Reply.{HoldsReply};

use cache_model::ReplyKind;
use rand_core::utils::NextWord;
use rand_pcg::Lcg64Xsh32;
use shard_rings::{Reply, read_reply, write_reply, write_reply_header};
use std::alloc::{AllocError, Global};
use std::test::Fail;

#[test]
fn a_reply_is_laid_byte_for_byte(rt: HostRuntime) -> Result<(), Fail> {
    let mut reply = [255; 16];
    write_reply_header(ReplyKind::Stored, 1, 0, 0, &mut reply);
    assert!(rt; reply == [0x11, 0, 0, 0, 1, 0, 0, 0, 0, 0, 0, 0, 0, 0, 0, 0]);
    assert!(rt; read_reply(&reply[..15]).is_none());
    let read = read_reply(&reply);
    assert!(rt; matches!(read, Some((1, Reply::Stored))));
    Ok(())
}

#[test]
fn a_reply_is_read_as_it_is_laid(rt: HostRuntime) -> Result<(), Fail> {
    let laid: [(&[u8], u32, Reply<'_>); 6] = [
        (
            &[0x11, 0, 0, 0, 1, 0, 0, 0, 0, 0, 0, 0, 0, 0, 0, 0],
            1,
            Reply::Stored,
        ),
        (
            &[0x12, 0, 0, 0, 2, 0, 0, 0, 0, 0, 0, 0, 0, 0, 0, 0],
            2,
            Reply::Replaced,
        ),
        (
            &[0x13, 0, 0, 0, 1, 2, 0, 0, 1, 0, 0, 0, 0, 0, 0, 0, 0x31],
            513,
            Reply::Value(b"1"),
        ),
        (
            &[0x14, 0, 0, 0, 3, 0, 0, 0, 0, 0, 0, 0, 0, 0, 0, 0],
            3,
            Reply::Missing,
        ),
        (
            &[0x15, 0, 0, 0, 4, 0, 0, 0, 0, 0, 0, 0, 0, 0, 0, 0],
            4,
            Reply::Erased,
        ),
        (
            &[
                0x16, 0, 2, 0, 7, 0, 0, 0, 7, 0, 0, 0, 0, 0, 0, 0, 1, 0, 0x61, 2, 0, 0x62, 0x31,
            ],
            7,
            Reply::Keys {
                count: 2,
                bytes: &[1, 0, 0x61, 2, 0, 0x62, 0x31],
            },
        ),
    ];
    for (bytes, number, reply) in laid {
        assert!(rt; read_reply(bytes) == Some((number, reply)));
        assert!(rt; read_back(rt.alloc(), bytes)? == Some(true));
    }
    Ok(())
}

#[test]
fn what_is_no_reply_is_refused(rt: HostRuntime) {
    let refused: [(&str, &[u8]); 13] = [
        ("no bytes", &[]),
        ("15 bytes", &[17, 0, 0, 0, 1, 0, 0, 0, 0, 0, 0, 0, 0, 0, 0]),
        (
            "kind 16",
            &[16, 0, 0, 0, 1, 0, 0, 0, 0, 0, 0, 0, 0, 0, 0, 0],
        ),
        (
            "kind 23",
            &[23, 0, 0, 0, 1, 0, 0, 0, 0, 0, 0, 0, 0, 0, 0, 0],
        ),
        ("byte 1", &[17, 1, 0, 0, 1, 0, 0, 0, 0, 0, 0, 0, 0, 0, 0, 0]),
        (
            "a key of a value",
            &[19, 0, 1, 0, 1, 0, 0, 0, 0, 0, 0, 0, 0, 0, 0, 0],
        ),
        (
            "byte 12",
            &[17, 0, 0, 0, 1, 0, 0, 0, 0, 0, 0, 0, 1, 0, 0, 0],
        ),
        (
            "byte 15",
            &[17, 0, 0, 0, 1, 0, 0, 0, 0, 0, 0, 0, 0, 0, 0, 1],
        ),
        (
            "a body of stored",
            &[17, 0, 0, 0, 1, 0, 0, 0, 1, 0, 0, 0, 0, 0, 0, 0, 97],
        ),
        (
            "a body beyond",
            &[19, 0, 0, 0, 1, 0, 0, 0, 2, 0, 0, 0, 0, 0, 0, 0, 97],
        ),
        (
            "an empty key",
            &[22, 0, 1, 0, 1, 0, 0, 0, 2, 0, 0, 0, 0, 0, 0, 0, 0, 0],
        ),
        (
            "a rest",
            &[
                22, 0, 1, 0, 1, 0, 0, 0, 4, 0, 0, 0, 0, 0, 0, 0, 1, 0, 97, 97,
            ],
        ),
        (
            "half a key",
            &[22, 0, 1, 0, 1, 0, 0, 0, 3, 0, 0, 0, 0, 0, 0, 0, 2, 0, 97],
        ),
    ];
    for (name, bytes) in refused {
        assert!(rt; read_reply(bytes).is_none(), "{name}");
    }
}

/// A byte that is mostly zero, else small or the byte of a kind.
fn draw(words: &mut Lcg64Xsh32) -> u8 {
    let word = words.next_word();
    match word % 8 {
        0 => (word / 8 % 4) as u8,
        1 => 16 + (word / 8 % 8) as u8,
        _ => 0,
    }
}

/// Whether what is read, written over fives, gives the bytes up to the end of its body, and fives behind them.
fn comes_back(
    alloc: Global,
    bytes: &[u8],
    number: u32,
    reply: &Reply<'_>,
) -> Result<bool, AllocError>
    requires { (meaning : Replied) × IsViewOf reply.now meaning × HoldsReply bytes.now number meaning }
{
    let end = 16 + reply.body().len();
    if bytes.len() < end {
        return Ok(false);
    }
    let mut written = Vec::from_elem(alloc, 5u8, bytes.len())?;
    write_reply(number, reply, written.as_mut_slice());
    Ok(written.as_slice()[..end] == bytes[..end] && written[end..].iter().all(|b| *b == 5))
}

/// A kind of a reply, mostly, and up to 39 bytes behind it.
fn random_bytes(alloc: Global, words: &mut Lcg64Xsh32) -> Result<Vec<u8>, AllocError> {
    let mut bytes = Vec::new(alloc);
    bytes.push(16 + (words.next_word() % 8) as u8)?;
    for _ in 0..words.next_word() % 40 {
        bytes.push(draw(words))?;
    }
    Ok(bytes)
}

/// Whether the bytes come back where they are a reply. None where they are none.
fn read_back(alloc: Global, bytes: &[u8]) -> Result<Option<bool>, AllocError> {
    let Some((number, reply)) = read_reply(bytes) else {
        return Ok(None);
    };
    Ok(Some(comes_back(alloc, bytes, number, &reply)?))
}

fn random_read_back(alloc: Global, words: &mut Lcg64Xsh32) -> Result<Option<bool>, AllocError> {
    let bytes = random_bytes(alloc, words)?;
    read_back(alloc, bytes.as_slice())
}

#[test]
fn random_bytes_are_no_reply_or_come_back(rt: HostRuntime) -> Result<(), Fail> {
    let mut words = Lcg64Xsh32::new(1, 1);
    let mut read = 0u64;
    for _ in 0..10_000 {
        let back = random_read_back(rt.alloc(), &mut words)?;
        assert!(rt; back != Some(false));
        if back.is_some() {
            read = read.wrapping_add(1);
        }
    }
    // Both happen.
    assert!(rt; 100 < read && read < 9_900);
    Ok(())
}

/// Bytes of so many letters, the first of them the header of such a reply, number 7. How many keys and bytes of body
/// are read, where they hold a reply.
fn read_letters(block: &mut [u8], kind: ReplyKind, keys: u32, len: u32) -> Option<(u32, usize)>
    requires { (16 + len ≤ length block.old) × (keys < 2 ^ 16) }
{
    write_reply_header(kind, 7, keys, len, block);
    let (_, reply) = read_reply(block)?;
    match reply {
        Reply::Keys { count, bytes } => Some((count, bytes.len())),
        Reply::Value(value) => Some((0, value.len())),
        Reply::Stored | Reply::Replaced | Reply::Missing | Reply::Erased => Some((0, 0)),
    }
}

/// Lays the length of a key in front of each of 32 keys of 256 bytes.
fn write_lengths(block: &mut [u8])
    requires { 8272 ≤ length block.old }
{
    for i in 0..32 {
        block[16 + 258 * i] = 0;
        block[16 + 258 * i + 1] = 1;
    }
}

/// Which length of a body is the first that is read otherwise. There are 12,020 bytes.
fn first_misread(block: &mut [u8]) -> Option<u32>
    requires { 12020 ≤ length block.old }
{
    for (kind, len, found) in [
        (ReplyKind::Value, 12_000, Some((0, 12_000))),
        (ReplyKind::Value, 12_001, None),
        (ReplyKind::Stored, 0, Some((0, 0))),
        (ReplyKind::Replaced, 0, Some((0, 0))),
        (ReplyKind::Missing, 0, Some((0, 0))),
        (ReplyKind::Erased, 0, Some((0, 0))),
        (ReplyKind::Keys, 0, Some((0, 0))),
    ] {
        if len > 12_001 || read_letters(block, kind, 0, len) != found {
            return Some(len);
        }
    }
    None
}

/// What is read of 32 keys of 256 bytes, and of one that is longer.
fn read_keys(block: &mut [u8]) -> (Option<(u32, usize)>, Option<(u32, usize)>)
    requires { 12020 ≤ length block.old }
{
    write_lengths(block);
    let greatest = read_letters(block, ReplyKind::Keys, 32, 8_256);
    block[17] = 2;
    (greatest, read_letters(block, ReplyKind::Keys, 1, 514))
}

#[test]
fn the_greatest_replies(rt: HostRuntime) -> Result<(), Fail> {
    let mut block = Vec::from_elem(rt.alloc(), 0u8, 12_020)?;
    let misread = first_misread(block.as_mut_slice());
    let keys = read_keys(block.as_mut_slice());
    assert_eq!(rt; (misread, keys), (None, (Some((32, 8_256)), None)));
    Ok(())
}
