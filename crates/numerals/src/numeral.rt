//! The number that a field spells.
ghost use Rattle.std.specs.Prelude.{◌≡◌, ◌&&◌, ◌<◌, ◌≤◌, nat_le, decimal, MatchOption};
ghost use Rattle.std.specs.Str.{bytes_eq};
ghost use Rattle.numerals.specs.Numeral.{digits_in, greatest_read, number_of};

use itoa::Buffer;

/// The greatest number that is read.
const GREATEST_READ: u32 = 99_999_999;

/// What the digits of a field say, where that is at most so much that a number is read.
fn digits_in(field: &[u8]) -> Option<u32>
    ensures { MatchOption result (greatest_read < digits_in field.now) (λ number. number ≡ digits_in field.now) }
{
    let mut number = 0;
    for digit in field {
        if number > GREATEST_READ {
            return None;
        }
        number = number * 10 + u32::from(digit.saturating_sub(b'0'));
    }
    Some(number)
}

fn spells(field: &[u8], number: u32) -> bool
    ensures { result ≡ bytes_eq (decimal number) field.now }
{
    let mut buffer = Buffer::new();
    buffer.format(number).as_bytes() == field
}

fn is_number(field: &[u8], number: u32, greatest: u32) -> bool
    ensures { result ≡ (nat_le number greatest && bytes_eq (decimal number) field.now) }
{
    number <= greatest && spells(field, number)
}

/// The number up to the greatest one, which is at most 99,999,999, that a field spells, without a leading zero.
pub fn number_of(field: &[u8], greatest: u32) -> Option<u32>
    requires { greatest ≤ greatest_read }
    ensures { result ≡ number_of greatest field.now }
{
    let number = digits_in(field)?;
    if is_number(field, number, greatest) {
        Some(number)
    } else {
        None
    }
}
