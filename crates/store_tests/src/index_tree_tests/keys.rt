//! Keys by number.
ghost use Rattle.std.specs.Prelude.{◌≤◌, length};

use arrayvec::ArrayVec;

/// A kind of keys. Those of `Long` have 256 bytes, the first 249 of which are the same.
#[derive(Clone, Copy)]
pub(super) enum Keys {
    Ascending,
    Descending,
    Scattered,
    Long,
}

impl Keys {
    /// The number in a key: that of the order in which keys come, or another one.
    pub(super) fn number(self, order: u32) -> u32 {
        match self {
            Keys::Ascending | Keys::Long => order,
            Keys::Descending => 9_999_999u32.saturating_sub(order),
            Keys::Scattered => order.wrapping_mul(7919) % 1_000_003,
        }
    }

    /// The key with a number in seven digits: keys are in the order of their numbers.
    pub(super) fn key(self, number: u32) -> ArrayVec<u8, 256> {
        let mut key = ArrayVec::new();
        if matches!(self, Keys::Long) {
            for _ in 0..249 {
                let _ = key.try_push(b'p');
            }
        }
        for power in [1_000_000, 100_000, 10_000, 1000, 100, 10, 1] {
            let _ = key.try_push((number / power % 10) as u8 + b'0');
        }
        key
    }
}
