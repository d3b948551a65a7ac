//! What no contract says: that memory is there for a log and a journal, and what keys' bodies look like in bytes.
ghost use Rattle.std.specs.Prelude.{◌≡◌, ℕ, ◌^◌, ◌<◌, List, ◌∷◌, length, replicate};
ghost use Rattle.rows.specs.KeyBody.{AreKeysAt};

use cache_model::{Entry, ReplyKind};
use run_log::{Journal, ReplyLog, next_key};
use std::alloc::{AllocError, Global};
use std::test::Fail;
use trace_text::{Span, TraceBytes};

#[test]
fn a_log_and_a_journal_keep_what_they_are_given(rt: HostRuntime) -> Result<(), Fail> {
    let mut log = ReplyLog::new(rt.alloc(), 2, 3)?;
    log.record(1, ReplyKind::Value, b"abc");
    assert!(rt; log.reply(0).is_none());
    let Some((kind, body)) = log.reply(1) else {
        return Err(Fail::from("no reply"));
    };
    assert!(rt; kind == ReplyKind::Value && body == b"abc".as_slice());
    let mut journal = Journal::new(rt.alloc(), 1)?;
    journal.add(Entry::Done(7));
    assert!(rt; journal.entries() == [Entry::Done(7)].as_slice() && journal.spare() == 0);
    journal.clear();
    assert!(rt; journal.entries().is_empty() && journal.spare() == 1);
    Ok(())
}

/// Whether a value of at most 1,000 bytes is read as it was recorded in a log over a trace of these bytes, at this place of which
/// it may stand.
fn is_read(alloc: Global, trace: &[u8], value: &[u8], at: u32) -> Result<bool, AllocError> {
    if value.len() > 1000 {
        return Ok(false);
    }
    let bytes = TraceBytes::new(Vec::from_slice(alloc, trace)?)?;
    let mut log = ReplyLog::over(alloc, bytes.share()?, 1, 1000)?;
    drop(bytes);
    log.record_value(0, value, at);
    match log.reply(0) {
        Some((kind, body)) => Ok(kind == ReplyKind::Value && body == value),
        None => Ok(false),
    }
}

#[test]
fn a_value_is_read_where_it_stands_or_from_a_copy(rt: HostRuntime) -> Result<(), Fail> {
    let trace = [b'v'; 300];
    // It stands there; the trace ends before it does; another stands there; it is short.
    assert!(rt; is_read(rt.alloc(), &trace, &[b'v'; 200], 100)?);
    assert!(rt; is_read(rt.alloc(), &trace, &[b'v'; 200], 101)?);
    assert!(rt; is_read(rt.alloc(), &trace, &[b'w'; 200], 100)?);
    assert!(rt; is_read(rt.alloc(), &trace, b"vvv", 0)?);
    Ok(())
}

/// Where each key of a body stands.
fn spans_of(alloc: Global, body: &[u8]) -> Result<Vec<Span>, AllocError>
    requires keys { (keys : List (List ℕ)) × AreKeysAt body.now 0 keys }
    requires short { length body.now < 2 ^ 32 }
{
    let mut spans = Vec::new(alloc);
    let mut at = 0;
    while let Some(span) = next_key(body, at) {
        spans.push(span)?;
        at = span.start + span.len;
    }
    Ok(spans)
}

/// The body of one key of 256 letters k.
fn long_key() -> [u8; 258]
    ensures { result ≡ 0 ∷ 1 ∷ replicate 256 107 }
{
    let mut body = [b'k'; 258];
    body[0] = 0;
    body[1] = 1;
    body
}

#[test]
fn keys_stand_behind_their_lengths(rt: HostRuntime) -> Result<(), Fail> {
    let spans = spans_of(rt.alloc(), b"\x02\0ab\x01\0c")?;
    assert!(rt;
        spans.as_slice() == [Span { start: 2, len: 2 }, Span { start: 6, len: 1 }].as_slice()
    );
    Ok(())
}

#[test]
fn an_empty_body_has_no_key(rt: HostRuntime) -> Result<(), Fail> {
    assert!(rt; spans_of(rt.alloc(), b"")?.is_empty());
    Ok(())
}

#[test]
fn a_length_has_a_high_byte(rt: HostRuntime) -> Result<(), Fail> {
    let spans = spans_of(rt.alloc(), &long_key())?;
    assert!(rt; spans.as_slice() == [Span { start: 2, len: 256 }].as_slice());
    Ok(())
}
