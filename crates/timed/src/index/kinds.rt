//! Kinds of keys and of their order.
ghost use Rattle.std.specs.Prelude.{◌≤◌};

/// A kind of keys, and the order in which they are put in.
#[derive(Clone, Copy)]
pub enum Kind {
    Random,
    Ascending,
    Descending,
    Prefix12,
    Prefix200,
    Mixed,
}

impl Kind {
    /// The kind that a word names; random, where it names none.
    pub fn of(word: &str) -> Kind {
        match word {
            "ascending" => Kind::Ascending,
            "descending" => Kind::Descending,
            "prefix12" => Kind::Prefix12,
            "prefix200" => Kind::Prefix200,
            "mixed" => Kind::Mixed,
            _ => Kind::Random,
        }
    }

    /// The bytes before the number of a row's key.
    pub fn prefix(self, number: u32) -> &'static [u8] {
        match self {
            Kind::Random | Kind::Ascending | Kind::Descending => b"key",
            Kind::Prefix12 => b"prefix_of_12",
            Kind::Prefix200 => {
                b"0123456789abcdefghijklmnopqrstuvwxyzABCDEFGHIJKLMN0123456789abcdefghijklmnopqrstuvwxyzABCDEFGHIJKLMN\
                  0123456789abcdefghijklmnopqrstuvwxyzABCDEFGHIJKLMN0123456789abcdefghijklmnopqrstuvwxyzABCDEFGHIJKLMN"
            }
            Kind::Mixed => {
                if number % 2 == 0 {
                    b"firstprefix:"
                } else {
                    b"secondprefix"
                }
            }
        }
    }

    /// How many bytes stand before the number of a key.
    pub fn prefix_len(self) -> u32
        ensures { result ≤ 200 }
    {
        match self {
            Kind::Random | Kind::Ascending | Kind::Descending => 3,
            Kind::Prefix12 | Kind::Mixed => 12,
            Kind::Prefix200 => 200,
        }
    }

    /// The number in the key of a row, of so many.
    pub fn number(self, row: u32, rows: u32) -> u32 {
        match self {
            Kind::Ascending => row,
            Kind::Descending => rows.saturating_sub(row),
            Kind::Random | Kind::Prefix12 | Kind::Prefix200 | Kind::Mixed => scattered(row),
        }
    }
}

/// A number that is scattered among those below 2 ^ 19, or higher as it is.
fn scattered(row: u32) -> u32 {
    if row >= 524_288 {
        return row;
    }
    let mut x = (u64::from(row) * 314_159 + 271_829) % 524_288;
    x ^= x >> 9;
    x = (x * 141_421 + 173_205) % 524_288;
    x ^= x >> 11;
    (x % 524_288) as u32
}
