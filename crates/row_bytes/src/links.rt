//! The two links of a row: to the row that was used next after it, and to the one that was used next before it.
ghost use Rattle.std.specs.Prelude.{◌≡◌, ◌+◌, ◌≤◌, ℕ, ◌++◌, List, length, take, drop};
ghost use Rattle.byteorder.specs.Endian.{little_bytes};
ghost use Rattle.rows.specs.Row.{Row};
ghost use Rattle.row_bytes.specs.Rows as rows;

use byteorder::{ByteOrder, LittleEndian};

/// The link of a row that has none.
pub const NO_LINK: u64 = 18_446_744_073_709_551_615;

// Where the links stand in the content.
const NEWER: usize = 16;

const OLDER: usize = 24;

/// The two links of a row.
#[derive(Clone, Copy, Debug, PartialEq, Eq)]
pub struct Links {
    /// To the next more recently used row.
    pub newer: u64,
    /// To the next less recently used row.
    pub older: u64,
}

/// The link to the next more recently used row.
#[tactic(auto, using(crate::proofs::Fields::fields_in))]
pub fn newer_in(content: &[u8]) -> u64
    requires { rows.IsRow content.now }
    ensures { result ≡ rows.newer_in content.now }
{
    LittleEndian::read_u64(&content[NEWER..])
}

/// The link to the next less recently used row.
#[tactic(auto, using(crate::proofs::Fields::fields_in))]
pub fn older_in(content: &[u8]) -> u64
    requires { rows.IsRow content.now }
    ensures { result ≡ rows.older_in content.now }
{
    LittleEndian::read_u64(&content[OLDER..])
}

/// Writes the link to the next more recently used row. The row and its other link are as they were.
#[tactic(auto, using(crate::proofs::Fields::fields_in))]
pub fn set_newer(content: &mut [u8], link: u64)
    requires { rows.IsRow content.old }
    ensures holds { (number : ℕ) (row : Row) → rows.HoldsRow content.old number row → rows.HoldsRow content.new number row }
    ensures links { rows.links_in content.new ≡ record (rows.links_in content.old) { newer = link } }
    ensures number { rows.number_in content.new ≡ rows.number_in content.old }
    ensures row { rows.row_in content.new ≡ rows.row_in content.old }
    ensures others { rows.without_links content.new ≡ rows.without_links content.old }
    ensures length { length content.new ≡ length content.old }
{
    put_link(content, NEWER, link);
}

/// Writes the link to the next less recently used row. The row and its other link are as they were.
#[tactic(auto, using(crate::proofs::Fields::fields_in))]
pub fn set_older(content: &mut [u8], link: u64)
    requires { rows.IsRow content.old }
    ensures holds { (number : ℕ) (row : Row) → rows.HoldsRow content.old number row → rows.HoldsRow content.new number row }
    ensures links { rows.links_in content.new ≡ record (rows.links_in content.old) { older = link } }
    ensures number { rows.number_in content.new ≡ rows.number_in content.old }
    ensures row { rows.row_in content.new ≡ rows.row_in content.old }
    ensures others { rows.without_links content.new ≡ rows.without_links content.old }
    ensures length { length content.new ≡ length content.old }
{
    put_link(content, OLDER, link);
}

// Writes a link over the eight bytes from `at` on.
fn put_link(content: &mut [u8], at: usize, link: u64)
    requires { at + 8 ≤ length content.old }
    ensures { content.new ≡ take at content.old ++ (little_bytes 8 link ++ drop 8 (drop at content.old)) }
{
    LittleEndian::write_u64(&mut content[at..], link);
}
