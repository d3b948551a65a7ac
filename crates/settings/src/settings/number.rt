//! The numbers among the words.
ghost use Rattle.std.specs.Prelude.{◌≡◌, ◌≤◌, IfSome, option_map};
ghost use Rattle.std.specs.Char.{is_ascii_digit};
ghost use Rattle.std.specs.List.{list_all};
ghost use Rattle.settings.specs.Settings.{is_number, number_of, number_within};

fn are_digits(bytes: &[u8]) -> bool
    ensures { result ≡ list_all is_ascii_digit bytes.now }
{
    bytes.iter().all(|b| b.is_ascii_digit())
}

/// Whether a text is a number: 1 to 10 decimal digits and nothing else.
fn is_number(text: &str) -> bool
    ensures { result ≡ is_number text.now }
{
    let bytes = text.as_bytes();
    !bytes.is_empty() && bytes.len() <= 10 && are_digits(bytes)
}

/// The number that a text spells, or none where it is no number.
fn number_of(text: &str) -> Option<u64>
    ensures { result ≡ number_of text.now }
{
    if is_number(text) {
        text.parse().ok()
    } else {
        None
    }
}

/// The number of an option, or none where it isn't one from `least` to `most`. An option that is absent has its
/// default.
pub fn number_within(text: Option<&str>, least: u32, most: u32, default: u32) -> Option<u32>
    requires default_low { least ≤ default }
    requires default_high { default ≤ most }
    ensures value { result ≡ number_within least most default (option_map (λ t. t.now) text.entry) }
    ensures low { IfSome result (λ number. least ≤ number) }
    ensures high { IfSome result (λ number. number ≤ most) }
{
    let Some(text) = text else {
        return Some(default);
    };
    let number = number_of(text)?;
    if u64::from(least) <= number && number <= u64::from(most) {
        Some(number as u32)
    } else {
        None
    }
}
