//! Numbers read from bytes; bytes written over others, put in, and taken out.
ghost use Rattle.std.specs.Prelude.{◌≡◌, ℕ, ◌+◌, ◌≤◌, drop, length, replicate, take};
ghost use Rattle.byteorder.specs.Endian.{little_bytes, little_number};
ghost use Rattle.tree_nodes.specs.inside.Splices.{over, put_in, taken_out};

use byteorder::{ByteOrder, LittleEndian};

/// Writes bytes over those from `at` on.
pub(crate) fn write_over(content: &mut [u8], at: usize, bytes: &[u8])
    requires { at + length bytes.now ≤ length content.old }
    ensures { content.new ≡ over at bytes.now content.old }
{
    content[at..at + bytes.len()].copy_from_slice(bytes);
}

/// Writes the `moved` bytes from `from` on over as many from `to` on.
#[tactic(auto, using(crate::proofs::Splices::moved_over))]
fn move_bytes(content: &mut [u8], from: usize, to: usize, moved: usize)
    requires from { from + moved ≤ length content.old }
    requires to { to + moved ≤ length content.old }
    ensures bytes { content.new ≡ over to (take moved (drop from content.old)) content.old }
    ensures len { length content.new ≡ length content.old }
{
    content.copy_within(from..from + moved, to);
}

/// Puts bytes in at `at`. The `moved` bytes from there on move up, over as many as are put in.
pub(crate) fn put_at(content: &mut [u8], at: usize, moved: usize, bytes: &[u8])
    requires { at + moved + length bytes.now ≤ length content.old }
    ensures { content.new ≡ put_in at moved bytes.now content.old }
{
    move_bytes(content, at, at + bytes.len(), moved);
    write_over(content, at, bytes);
}

/// Takes as many bytes out at `at` as it is given. The `moved` bytes behind them move down, and these bytes stand behind those.
pub(crate) fn take_at(content: &mut [u8], at: usize, moved: usize, bytes: &[u8])
    requires { at + moved + length bytes.now ≤ length content.old }
    ensures { content.new ≡ taken_out at moved bytes.now content.old }
{
    move_bytes(content, at + bytes.len(), at, moved);
    write_over(content, at + moved, bytes);
}

/// Takes `len` bytes out at `at`. The `moved` bytes behind them move down, and behind those stands as often the byte.
pub(crate) fn close_up(content: &mut [u8], at: usize, moved: usize, len: usize, byte: u8)
    requires { at + moved + len ≤ length content.old }
    ensures { content.new ≡ taken_out at moved (replicate len byte) content.old }
{
    move_bytes(content, at + len, at, moved);
    fill_at(content, at + moved, len, byte);
}

/// Writes a byte over `len` bytes from `at` on.
fn fill_at(content: &mut [u8], at: usize, len: usize, byte: u8)
    requires { at + len ≤ length content.old }
    ensures { content.new ≡ over at (replicate len byte) content.old }
{
    fill_with(&mut content[at..at + len], byte);
}

/// Writes a byte over all.
pub(crate) fn fill_with(part: &mut [u8], byte: u8)
    ensures { part.new ≡ replicate (length part.old) byte }
{
    part.fill(byte);
}

/// Writes a number over two bytes from `at` on.
pub(crate) fn write_short(content: &mut [u8], at: usize, number: u16)
    requires { at + 2 ≤ length content.old }
    ensures { content.new ≡ over at (little_bytes 2 number) content.old }
{
    LittleEndian::write_u16(&mut content[at..], number);
}

/// Writes a number over four bytes from `at` on.
pub(crate) fn write_number(content: &mut [u8], at: usize, number: u32)
    requires { at + 4 ≤ length content.old }
    ensures { content.new ≡ over at (little_bytes 4 number) content.old }
{
    LittleEndian::write_u32(&mut content[at..], number);
}

/// Writes a place over eight bytes from `at` on.
pub(crate) fn write_place(content: &mut [u8], at: usize, place: u64)
    requires { at + 8 ≤ length content.old }
    ensures { content.new ≡ over at (little_bytes 8 place) content.old }
{
    LittleEndian::write_u64(&mut content[at..], place);
}

/// The eight bytes of a place.
pub(crate) fn place_bytes(place: u64) -> [u8; 8]
    ensures { result ≡ little_bytes 8 place }
{
    let mut bytes = [0; 8];
    LittleEndian::write_u64(&mut bytes, place);
    bytes
}

/// The place in the eight bytes from `at` on.
pub(crate) fn place_at(content: &[u8], at: usize) -> u64
    requires { at + 8 ≤ length content.now }
    ensures { result ≡ little_number 8 (drop at content.now) }
{
    LittleEndian::read_u64(&content[at..])
}

/// The number in the four bytes from `at` on.
pub(crate) fn number_at(content: &[u8], at: usize) -> u32
    requires { at + 4 ≤ length content.now }
    ensures { result ≡ little_number 4 (drop at content.now) }
{
    LittleEndian::read_u32(&content[at..])
}

/// The count in the two bytes from `at` on.
pub(crate) fn count_at(content: &[u8], at: usize) -> u16
    requires { at + 2 ≤ length content.now }
    ensures { result ≡ little_number 2 (drop at content.now) }
{
    LittleEndian::read_u16(&content[at..])
}
