//! A fragment in the content of an object.
ghost use Rattle.std.specs.Prelude.{◌≡◌, ◌↔◌, IsTrue, ℕ, ◌+◌, ◌-◌, ◌*◌, ◌<◌, ◌≤◌, ◌^◌, List, ◌++◌, length, take, drop};
ghost use Rattle.byteorder.specs.Endian.{little_bytes};
ghost use Rattle.layout.specs.Sizes.{descriptor, greatest_object};
ghost use Rattle.fragments.specs.Sizes as sizes;
ghost use Rattle.regions.specs.Places as place_links;
ghost use Rattle.fragments.specs.Fragment as fragments;

use byteorder::{ByteOrder, LittleEndian};
use layout::{DESCRIPTOR, GREATEST_OBJECT};

/// The most bytes of a value.
///
/// # Examples
/// ```
/// if bytes.len() > GREATEST_VALUE {
///     return Err(SetRefusal::TooLong); // as `Fragments::put` does
/// }
/// ```
pub const GREATEST_VALUE: usize = 1_048_576;

/// The most bytes of a value in one fragment. Each fragment but the last holds so many.
///
/// # Examples
/// ```
/// let full = bytes.len() / FRAGMENT_BYTES; // how many fragments of the value hold as many bytes as can be
/// ```
pub const FRAGMENT_BYTES: usize = 12_264;

/// The most fragments of a value.
///
/// # Examples
/// ```
/// let mut lengths = [0usize; MOST_FRAGMENTS]; // a place for each piece of any value
/// ```
pub const MOST_FRAGMENTS: usize = 86;

/// The link to no fragment.
pub(crate) const NO_LINK: u64 = 18_446_744_073_709_551_615;

// The bytes in front of those of the value: two links, the name and the length.
const HEADER: usize = 24;

const NEXT: usize = 8;

const NAME: usize = 16;

const LENGTH: usize = 20;

// Whether a value of so many bytes is too long.
pub(crate) fn is_too_long(len: usize) -> bool
    ensures { IsTrue result ↔ (sizes.greatest_value < len) }
{
    len > GREATEST_VALUE
}

// How many fragments a value of so many bytes has.
pub(crate) fn fragment_count(len: usize) -> usize
    requires { len ≤ sizes.greatest_value }
    ensures count { result ≡ sizes.count_of len }
    ensures some { 1 ≤ result }
    ensures most { result ≤ sizes.most_fragments }
    ensures within { (result - 1) * sizes.fragment_bytes ≤ len }
    ensures rest { len ≤ result * sizes.fragment_bytes }
{
    len.saturating_sub(1) / FRAGMENT_BYTES + 1
}

// The bytes of a fragment's object, its descriptor included: a whole multiple of 8.
pub(crate) fn object_size(len: usize) -> u32
    requires { len ≤ sizes.fragment_bytes }
    ensures { result ≡ sizes.object_size len }
{
    (DESCRIPTOR + HEADER as u32 + len as u32).div_ceil(8) * 8
}

/// The bytes of all objects of a value of so many bytes, their descriptors included.
///
/// # Examples
/// ```
/// let one = value_size(100); // 136, in one fragment
/// let two = value_size(12_265); // 12_336, in two
/// ```
pub fn value_size(len: usize) -> u64
    requires { len ≤ sizes.greatest_value }
    ensures { result ≡ sizes.size len }
{
    let full = fragment_count(len) - 1;
    full as u64 * u64::from(GREATEST_OBJECT) + u64::from(object_size(len - full * FRAGMENT_BYTES))
}

// The link to the previous fragment.
pub(crate) fn back_in(content: &[u8]) -> u64
    requires { fragments.HasLinks content.now }
    ensures { result ≡ fragments.back_in content.now }
{
    LittleEndian::read_u64(content)
}

// The link to the next fragment.
pub(crate) fn next_in(content: &[u8]) -> u64
    requires { fragments.HasLinks content.now }
    ensures { result ≡ fragments.next_in content.now }
{
    LittleEndian::read_u64(&content[NEXT..])
}

// The name whose value the fragment is a part of.
pub(crate) fn name_in(content: &[u8]) -> u32
    requires { fragments.IsFragment content.now }
    ensures { result ≡ fragments.name_in content.now }
{
    LittleEndian::read_u32(&content[NAME..])
}

// The bytes of the value in the fragment.
pub(crate) fn bytes_in(content: &[u8]) -> &[u8]
    requires { fragments.IsFragment content.now }
    ensures { result.now ≡ fragments.bytes_in content.now }
{
    let len = LittleEndian::read_u32(&content[LENGTH..]) as usize;
    &content[HEADER..HEADER + len]
}

// Writes the link to the previous fragment.
pub(crate) fn set_back(content: &mut [u8], link: u64)
    requires { fragments.HasLinks content.old }
    ensures back { fragments.back_in content.new ≡ link }
    ensures next { fragments.next_in content.new ≡ fragments.next_in content.old }
    ensures body { fragments.body_in content.new ≡ fragments.body_in content.old }
    ensures length { length content.new ≡ length content.old }
{
    LittleEndian::write_u64(content, link);
}

// Writes the link to the next fragment.
pub(crate) fn set_next(content: &mut [u8], link: u64)
    requires { fragments.HasLinks content.old }
    ensures next { fragments.next_in content.new ≡ link }
    ensures back { fragments.back_in content.new ≡ fragments.back_in content.old }
    ensures body { fragments.body_in content.new ≡ fragments.body_in content.old }
    ensures length { length content.new ≡ length content.old }
{
    LittleEndian::write_u64(&mut content[NEXT..], link);
}

// The header of a fragment that is the first of its chain. With the bytes behind it, and zero bytes behind those up to the
// fragment's size, the content of a new object is the fragment's.
pub(crate) fn fragment_header(next: u64, name: u32, bytes: &[u8]) -> [u8; HEADER]
    requires short { length bytes.now ≤ sizes.fragment_bytes }
    ensures bytes { fragments.filled result bytes.now ≡ fragments.fragment place_links.no_link next name bytes.now }
    ensures holds { fragments.HoldsFragment (fragments.filled result bytes.now) name bytes.now }
    ensures back { fragments.back_in (fragments.filled result bytes.now) ≡ place_links.no_link }
    ensures next { fragments.next_in (fragments.filled result bytes.now) ≡ next }
    ensures long { length result ≡ sizes.header }
{
    header_of(next, name, bytes.len() as u32)
}

// The bytes in front of those of the value, in a fragment that is the first of its chain.
fn header_of(next: u64, name: u32, len: u32) -> [u8; HEADER]
    ensures bytes { result ≡ little_bytes 8 place_links.no_link ++ little_bytes 8 next ++ little_bytes 4 name ++ little_bytes 4 len }
    ensures long { length result ≡ sizes.header }
    ensures next { next < 2 ^ 64 }
    ensures name { name < 2 ^ 32 }
{
    let mut header = [0; HEADER];
    LittleEndian::write_u64(&mut header, NO_LINK);
    LittleEndian::write_u64(&mut header[NEXT..], next);
    LittleEndian::write_u32(&mut header[NAME..], name);
    LittleEndian::write_u32(&mut header[LENGTH..], len);
    header
}
