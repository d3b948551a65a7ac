//! An entry on its way from one node to another.
ghost use Rattle.std.specs.Prelude.{◌≤◌};

/// An entry of a node, copied: its key, of 1 to 256 bytes, and its number.
#[derive(Drop)]
pub struct MovedEntry {
    pub number: u32,
    pub len: u16,
    pub key: [u8; 256],
    ghost some: { 1 ≤ len },
    ghost short: { len ≤ 256 },
}
