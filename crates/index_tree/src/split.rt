//! What the split of a node says.
ghost use Rattle.std.specs.Prelude.{◌≤◌};

use regions::Place;

/// A new node behind the one that was split, and the key that separates them, of 1 to 256 bytes.
#[derive(Drop)]
pub struct Split {
    pub place: Place,
    pub len: u16,
    pub key: [u8; 256],
    ghost some: { 1 ≤ len },
    ghost short: { len ≤ 256 },
}

/// What an insertion below a node left: how many spare nodes, the first ones, and the new node, if there is one.
#[derive(Drop)]
pub struct Inserted {
    pub left: usize,
    pub split: Option<Split>,
}

/// What an insertion into a tree left: how many spare nodes, the first ones, and the root with its level.
#[derive(Drop)]
pub struct Planted {
    pub left: usize,
    pub root: Place,
    pub level: u16,
}
