//! How many live bytes each closed segment of a group has.
ghost use Rattle.std.specs.Prelude.{◌≡◌, ◌<◌, ◌≤◌, length, replicate, slice_set, IfOk};
ghost use Rattle.std.specs.List.{count_by};
ghost use Rattle.layout.specs.Sizes as sizes;
ghost use Rattle.regions.specs.inside.Consistent.{not_closed, is_sparse};

use layout::DENSE;
use std::alloc::{AllocError, Global};
use std::marker::Model;

// What the table has for a segment that is not closed in the group.
pub(crate) const NOT_CLOSED: u32 = 4_294_967_295;

// The live bytes of the closed segments, by number, and how many of those are sparse.
#[derive(Drop)]
pub(crate) struct LiveTable {
    bytes: Vec<u32>,
    sparse: u32,
}

impl Model for LiveTable {
    ghost use Rattle.std.specs.Prelude.{◌≡◌, ◌≤◌, ℕ, List, length};
    ghost use Rattle.std.specs.List.{count_by};
    ghost use Rattle.layout.specs.Sizes as sizes;
    ghost use Rattle.regions.specs.inside.Consistent.{is_sparse};

    ghost Value = { List ℕ };

    ghost view = { λ t. t.bytes.items };

    ghost invariant = { λ t. (length t.bytes.items ≤ sizes.most_segments) × (t.sparse ≡ count_by is_sparse t.bytes.items) };
}

impl LiveTable {
    // No segment is closed.
    pub(crate) fn new(alloc: Global, most: u32) -> Result<LiveTable, AllocError>
        requires { most ≤ sizes.most_segments }
        ensures { IfOk result (λ t. t ≡ replicate most not_closed) }
    {
        let mut bytes = Vec::with_capacity(alloc, most as usize)?;
        for _number in 0..most {
            bytes.push(NOT_CLOSED)?;
        }
        Ok(LiveTable { bytes, sparse: 0 })
    }

    pub(crate) fn bytes(&self) -> &[u32]
        ensures { result.now ≡ self.now }
    {
        self.bytes.as_slice()
    }

    // How many are sparse.
    pub(crate) fn sparse(&self) -> u32
        ensures { result ≡ count_by is_sparse self.now }
    {
        self.sparse
    }

    pub(crate) fn set(&mut self, number: u32, live: u32)
        requires { number < length self.old }
        ensures { self.new ≡ slice_set self.old number live }
    {
        let number = number as usize;
        if self.bytes[number] <= DENSE {
            self.sparse -= 1;
        }
        if live <= DENSE {
            self.sparse += 1;
        }
        self.bytes[number] = live;
    }

    // No segment is closed any more.
    pub(crate) fn clear(&mut self)
        ensures { self.new ≡ replicate (length self.old) not_closed }
    {
        self.bytes.fill(NOT_CLOSED);
        self.sparse = 0;
    }
}
