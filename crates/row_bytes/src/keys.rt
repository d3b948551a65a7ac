//! Keys one behind another, as the reply to a scan has them.
ghost use Rattle.std.specs.Int.{w16, from_le_bytes};
ghost use Rattle.std.specs.Prelude.{◌≡◌, ℕ, ◌+◌, ◌≤◌, ◌↔◌, List, [], ◌∷◌, ◌++◌, length, drop, IsNone, IfNone, IfSome};
ghost use Rattle.layout.specs.Sizes.{greatest_key};
ghost use Rattle.rows.specs.KeyBody.{AreKeys};
ghost use Rattle.rows.specs.Spelled.{IsKey, key_field};

use byteorder::{ByteOrder, LittleEndian};

/// What a scan wrote.
#[derive(Clone, Copy, Debug, PartialEq, Eq)]
pub struct Scanned {
    /// How many keys.
    pub keys: u32,
    /// How many bytes, the lengths in front of the keys among them.
    pub bytes: u32,
}

/// Writes a key behind its length in two bytes, low byte first, to the front of `into`, and answers how many bytes these are.
/// The bytes behind them stay.
pub fn write_key(into: &mut [u8], key: &[u8]) -> u32
    requires key { length key.now ≤ greatest_key }
    requires room { 2 + length key.now ≤ length into.old }
    ensures bytes { result ≡ 2 + length key.now }
    ensures written { into.new ≡ key_field key.now ++ drop result into.old }
{
    let (len, behind) = into.split_at_mut(2);
    LittleEndian::write_u16(len, key.len() as u16);
    behind[..key.len()].copy_from_slice(key);
    2 + key.len() as u32
}

/// The first key of a body of keys, each behind its length in two bytes, low byte first, and the body of the other keys. None where
/// there is no key.
pub fn first_key(body: &[u8]) -> Option<(&[u8], &[u8])>
    requires { (keys : List (List ℕ)) × AreKeys body.now keys }
    ensures end { IsNone result ↔ (body.now ≡ []) }
    ensures none { IfNone result ((keys : List (List ℕ)) → AreKeys body.now keys → keys ≡ []) }
    ensures first { IfSome result (λ cut. (keys : List (List ℕ)) → AreKeys body.now keys → (rest : List (List ℕ))
        × (keys ≡ cut.0.now ∷ rest) × IsKey cut.0.now × AreKeys cut.1.now rest) }
    ensures shorter { IfSome result (λ cut. 2 + length cut.0.now + length cut.1.now ≡ length body.now) }
{
    let [low, high, behind @ ..] = body else {
        return None;
    };
    let len = key_length(*low, *high);
    Some(behind.split_at(len as usize))
}

/// The length that two bytes spell, low byte first.
fn key_length(low: u8, high: u8) -> u16
    ensures { result ≡ from_le_bytes w16 (low ∷ high ∷ []) }
{
    LittleEndian::read_u16(&[low, high])
}
