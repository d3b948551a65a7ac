//! Copies between buffers, by memcpy.
ghost use Rattle.std.specs.Prelude.{◌≡◌, ◌*◌, ◌<◌, length};

use super::names::Draws;

/// The buffer with a number, among those that stand side by side.
fn part_of(area: &[u8], number: u32, len: usize) -> &[u8] {
    let start = (number as usize).wrapping_mul(len);
    match area.get(start..start.wrapping_add(len)) {
        Some(part) => part,
        None => &[],
    }
}

/// Copies a buffer over the one with a number, and answers how many bytes.
fn write_one(area: &mut [u8], number: u32, buffer: &[u8]) -> usize {
    let start = (number as usize).wrapping_mul(buffer.len());
    if area.len() < buffer.len() || area.len() - buffer.len() < start {
        return 0;
    }
    area[start..start + buffer.len()].copy_from_slice(buffer);
    buffer.len()
}

/// Copies the buffer with a number over another, and answers how many bytes.
fn read_one(area: &[u8], number: u32, buffer: &mut [u8]) -> usize {
    let part = part_of(area, number, buffer.len());
    if part.len() != buffer.len() {
        return 0;
    }
    buffer.copy_from_slice(part);
    part.len()
}

/// Copies a buffer so many times over one of the others. How many bytes were copied.
pub fn write_all(area: &mut [u8], buffer: &[u8], names: u32, times: u32) -> u64
    requires { 0 < names }
{
    let mut draws = Draws::new();
    let mut moved: u64 = 0;
    for _ in 0..times {
        let copied = write_one(area, draws.below(names), buffer);
        moved = moved.wrapping_add(copied as u64);
    }
    moved
}

/// Copies so many times one of the others over a buffer. How many bytes were copied.
pub fn read_all(area: &[u8], buffer: &mut [u8], names: u32, times: u32) -> u64
    requires { 0 < names }
{
    let mut draws = Draws::new();
    let mut moved: u64 = 0;
    for _ in 0..times {
        let copied = read_one(area, draws.below(names), buffer);
        moved = moved.wrapping_add(copied as u64);
    }
    moved
}
