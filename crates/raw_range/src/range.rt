//! The memory of one shard, and the pieces that it gives.
ghost use Rattle.std.specs.Prelude.{◌≡◌, ◌+◌, ◌*◌, ◌<◌, ◌≤◌, [], ◌∷◌, length, take, drop, replicate, All, Contains, IfOk};
ghost use Rattle.layout.specs.Extents.{extent, Disjoint, AreDisjoint};
ghost use Rattle.layout.specs.Sizes.{page, most_pages, most_pieces};
ghost use Rattle.raw_range.specs.Memory.{extent_of, with_allocated, remove_extent, written};

use crate::free_bytes::FreeBytes;
use crate::memory::{Base, Sole};
use crate::parts::{attach, detach, dislodge_run, lodge_run};
use crate::piece::Piece;
use layout::PAGE;
use std::alloc::{AllocError, Global};
use std::marker::Model;
use std::mem;
use std::mem::ManuallyDrop;

/// The memory of one shard: `pages` of 4,096 bytes, side by side. Its pieces are disjoint. Its zeros are written when a
/// piece first reaches them, together with those in front. A range that is dropped is not freed: only [`Range::finish`]
/// gives its memory back.
#[derive(Drop)]
pub struct Range {
    free: FreeBytes,
    sole: ManuallyDrop<Sole<Global>>,
    base: Base,
    owner: u32,
    pages: u32,
}

impl Model for Range {
    ghost use Rattle.std.specs.Prelude.{◌≡◌, ◌*◌};
    ghost use Rattle.std.specs.Mem.{manually_drop_value};
    ghost use Rattle.layout.specs.Sizes.{page};
    ghost use Rattle.raw_range.specs.inside.Filled.{IsFilled, bytes_of};
    ghost use Rattle.raw_range.specs.inside.Ownership.{IsBlock};
    ghost use Rattle.raw_range.specs.Memory.{Memory, memory_code};

    ghost Value = { Memory };

    ghost coded = { memory_code };

    ghost view = { λ r. record {
      home = r.base.ptr;
      owner = r.owner;
      pages = r.pages;
      allocated = r.free.unallocated.allocated;
      bytes = bytes_of r.free;
    } };

    ghost invariant = { λ r. IsFilled r.free × (r.free.unallocated.ptr ≡ r.base.ptr) × (r.free.size ≡ page * r.pages)
        × IsBlock (manually_drop_value r.sole) r.base.ptr (page * r.pages) };
}

impl Range {
    /// A range of `pages` of 4,096 bytes, all of them 0, of the shard with the number `owner`.
    ///
    /// # Errors
    /// `AllocError` where the memory is not found.
    pub fn new(alloc: Global, owner: u32, pages: u32) -> Result<Range, AllocError>
        requires { (0 < pages) × (pages ≤ most_pages) }
        ensures numbers { IfOk result (λ r. (r.owner ≡ owner) × (r.pages ≡ pages)) }
        ensures none_allocated { IfOk result (λ r. r.allocated ≡ []) }
        ensures zeros { IfOk result (λ r. r.bytes ≡ replicate (page * pages) 0) }
    {
        let size = pages as usize * PAGE as usize;
        let mut vec = Vec::with_capacity(alloc, size)?;
        let base = Base {
            ptr: vec.as_mut_ptr(),
        };
        let (unfilled, sole) = detach(vec);
        Ok(Range {
            free: FreeBytes::from_unfilled(unfilled, size),
            sole: unsafe { ManuallyDrop::new_unchecked(sole) },
            base,
            owner,
            pages,
        })
    }

    /// A piece of `len` bytes, of which the first is the byte `at` of the range. It is apart from every other piece.
    pub fn take(&mut self, at: u32, len: u32) -> Piece
        // Bytes of the range that no piece has.
        requires some { 0 < len }
        requires inside { at + len ≤ page * self.old.pages }
        requires disjoint { All (Disjoint (extent at len)) self.old.allocated }
        requires few { length self.old.allocated < most_pieces }

        // Which bytes it gives.
        ensures piece { result ≡ record {
          home = self.old.home;
          owner = self.old.owner;
          at = at;
          bytes = take len
              (drop at self.old.bytes);
        } }
        ensures extent { extent_of result ≡ extent at len }

        // All pieces lie apart still.
        ensures allocated { self.new ≡ with_allocated self.old (extent at len ∷ self.old.allocated) self.old.bytes }
        ensures blocks { AreDisjoint (page * self.new.pages) self.new.allocated }
    {
        let free = mem::replace(&mut self.free, FreeBytes::empty());
        let free = free.fill_up_to(self.base.ptr, at as usize + len as usize);
        let (free, run) = free.allocate(at as usize, len as usize);
        self.free = free;
        let start = unsafe { self.base.ptr.byte_add(at as usize) };
        Piece {
            memory: lodge_run(start, len as usize, run),
            base: self.base,
            at,
            owner: self.owner,
        }
    }

    /// Takes a piece of this range back, with its bytes.
    pub fn put(&mut self, piece: Piece)
        requires home { piece.home ≡ self.old.home }
        requires piece { Contains self.old.allocated (extent_of piece) }
        ensures back { self.new ≡ with_allocated self.old (remove_extent (extent_of piece) self.old.allocated)
            (written self.old.bytes piece.at piece.bytes) }
        ensures blocks { AreDisjoint (page * self.new.pages) self.new.allocated }
    {
        let Piece {
            memory,
            base: _,
            at,
            owner: _,
        } = piece;
        let run = dislodge_run(memory);
        let free = mem::replace(&mut self.free, FreeBytes::empty());
        self.free = free.deallocate(at as usize, run);
    }

    /// Gives the memory back, once every piece is.
    pub fn finish(self)
        requires { self.allocated ≡ [] }
    {
        drop(self.into_vec());
    }

    // The vector that the range was made of, whose drop frees it: places for all pages, and no element.
    fn into_vec(self) -> Vec<u8, Global>
        requires { self.allocated ≡ [] }
        ensures { (result.len ≡ 0) × (result.cap ≡ page * self.pages) }
    {
        let Range {
            free,
            sole,
            base: _,
            owner: _,
            pages: _,
        } = self;
        attach(free.into_unfilled(), ManuallyDrop::into_inner(sole))
    }
}
