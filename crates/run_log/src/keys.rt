//! The keys of a body of keys.
ghost use Rattle.std.specs.Int.{w16, to_le_bytes};
ghost use Rattle.std.specs.Prelude.{◌≡◌, ℕ, ◌+◌, ◌^◌, ◌<◌, ◌≤◌, ◌↔◌, List, [], ◌∷◌, ◌++◌, length, map, take, flat_map, vec_len, All, IsNone, IfNone, IfSome, OnOk, OnErr};
ghost use Rattle.layout.specs.Sizes.{greatest_key};
ghost use Rattle.trace_text.specs.Operation.{part};
ghost use Rattle.rows.specs.KeyBody.{AreKeysAt};
ghost use Rattle.rows.specs.Spelled.{key_field};

use byteorder::{ByteOrder, LittleEndian};
use row_bytes::first_key;
use std::alloc::AllocError;
use trace_text::Span;

/// The two bytes of a length, low byte first.
fn length_bytes(len: u16) -> [u8; 2]
    ensures { result ≡ to_le_bytes w16 len }
{
    let mut bytes = [0; 2];
    LittleEndian::write_u16(&mut bytes, len);
    bytes
}

/// Where the key stands whose length stands at `at` of a body of keys; None at the body's end. Its
/// length is two bytes, low byte first, and the key stands behind them. The body from `at` on is
/// keys, each behind its length.
pub fn next_key(body: &[u8], at: u32) -> Option<Span>
    requires keys { (keys : List (List ℕ)) × AreKeysAt body.now at keys }
    requires short { length body.now < 2 ^ 32 }
    ensures end { IsNone result ↔ (at ≡ length body.now) }
    ensures none { IfNone result ((keys : List (List ℕ)) → AreKeysAt body.now at keys → keys ≡ []) }
    ensures start { IfSome result (λ span. span.start ≡ at + 2) }
    ensures within { IfSome result (λ span. span.start + span.len ≤ length body.now) }
    ensures first { IfSome result (λ span. (keys : List (List ℕ)) → AreKeysAt body.now at keys → (rest : List (List ℕ)) ×
        (keys ≡ part body.now span ∷ rest) × AreKeysAt body.now (span.start + span.len) rest) }
{
    let (key, _) = first_key(&body[at as usize..])?;
    Some(span_behind(at, key))
}

/// Where a key stands whose length stands at `at`.
fn span_behind(at: u32, key: &[u8]) -> Span
    requires { at + 2 + length key.now < 2 ^ 32 }
    ensures { result ≡ record { start = at + 2; len = length key.now } }
{
    Span {
        start: at + 2,
        len: key.len() as u32,
    }
}

/// Appends a key: its length in two bytes, low byte first, and its bytes.
fn append_key(body: &mut Vec<u8>, key: &[u8]) -> Result<(), AllocError>
    requires { length key.now ≤ greatest_key }
    ensures appended { OnOk result (body.new.items ≡ body.old.items ++ key_field key.now) }
    ensures kept { OnErr result (body.new.items ≡ body.old.items) }
{
    body.reserve(2 + key.len())?;
    body.extend_from_slice(&length_bytes(key.len() as u16))
        .unwrap();
    body.extend_from_slice(key).unwrap();
    Ok(())
}

/// Appends these keys. Without the memory for one of them, the ones before it stand.
pub fn append_keys(body: &mut Vec<u8>, keys: &[&[u8]]) -> Result<(), AllocError>
    requires { All (λ key. length key.now ≤ greatest_key) keys.now }
    ensures appended { OnOk result (body.new.items ≡ body.old.items ++ flat_map key_field (map (λ key. key.now) keys.now)) }
    ensures front { OnErr result (take (vec_len body.old) body.new.items ≡ body.old.items) }
{
    for key in keys {
        append_key(body, key)?;
    }
    Ok(())
}
