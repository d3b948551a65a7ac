// The bytes of a range, apart from the right to free them. What takes no memory here is ghost state.
ghost use Rattle.std.specs.Prelude.{◌≡◌, ℕ, ◌+◌, ◌≤◌, List, [], ◌∷◌, ◌++◌, length, take, drop, All, Contains, Option, Some, None};
ghost use Rattle.std.specs.Coded.{coded_option};
ghost use base.Fml.{ftrue, fex, fwand, fsep, feq};
ghost use denote.RawPtr.{Ptr, ◌+ₚ◌};
ghost use Rattle.layout.specs.Extents.{Extent, extent, Disjoint, AreDisjoint};
ghost use Rattle.raw_range.specs.Memory.{Lent, lent_code, remove_extent, written};
ghost use Rattle.raw_range.specs.inside.Ownership.{Buffer, buffer_code, IsPlaced, run_owns, room_owns, unallocated_owns, held_owns};

use std::alloc::Allocator;
use std::marker::{Model, Move, Owns};

// Where a range begins. It owns nothing.
#[derive(Clone, Copy)]
pub(crate) struct Base {
    pub(crate) ptr: *mut u8,
}

unsafe impl Send for Base {}

unsafe impl Sync for Base {}

// The bytes at `ptr`, which nothing else can reach.
#[derive(Drop)]
pub(crate) struct Run {
    ghost ptr: { Ptr },
    ghost items: { List ℕ },
}

impl Model for Run {
    ghost also_owns = { λ r. run_owns r.ptr r.items };
}

// A `Vec` without elements, whose places are in the hands of an `Unfilled`.
pub(crate) struct Sole<A: Allocator> {
    pub(crate) vec: Vec<u8, A>,
}

impl<A: Allocator> Owns for Sole<A> {
    ghost Value = { Buffer };

    ghost coded = { buffer_code };

    ghost shr_at = { λ _ _ _. ftrue };
}

impl<A: Allocator> Move for Sole<A> {
    ghost own_val = { λ e vs. fex Inside
        (λ v. fsep (feq ℕ v.vec.len 0) (fsep (feq ℕ v.vec.cap e.len)
        (fwand (room_owns e.ptr e.len) (Fields.own_val (record { vec = v.vec }) vs)))) };
}

// `len` bytes at `ptr` that may be written but not read, since nothing was written there. Nothing else can reach them.
#[derive(Drop)]
pub(crate) struct Unfilled {
    ghost ptr: { Ptr },
    ghost len: { ℕ },
}

impl Model for Unfilled {
    ghost also_owns = { λ u. room_owns u.ptr u.len };
}

// The written bytes of a range that are not allocated: those of `bytes` at `ptr` that lie in no extent of `allocated`.
#[derive(Drop)]
pub(crate) struct Unallocated {
    ghost ptr: { Ptr },
    ghost allocated: { List Extent },
    ghost bytes: { List ℕ },
}

impl Model for Unallocated {
    ghost also_owns = { λ h. unallocated_owns h.ptr h.allocated h.bytes };
}

// The bytes of a piece, if there is one, which nothing else can reach.
#[derive(Drop)]
pub(crate) struct Held {
    ghost piece: { Option Lent } by { coded_option lent_code },
}

impl Model for Held {
    ghost also_owns = { λ h. held_owns h.piece };
}

unsafe impl Send for Run {}

// A `&` to it shows nothing.
unsafe impl<A: Allocator + Send> Send for Sole<A> {}

unsafe impl Send for Unfilled {}

unsafe impl Send for Unallocated {}

unsafe impl Send for Held {}

impl Held {
    // Those of no piece.
    pub(crate) fn none() -> Held
        ensures { result.piece ≡ None }
    {
        Held {}
    }

    // Those of a piece, by where it lies.
    pub(crate) fn keep(home: *mut u8, owner: u32, at: u32, run: Run) -> Held
        requires { run.ptr ≡ home +ₚ at }
        ensures { result.piece ≡ Some (record { home = home; owner = owner; at = at; bytes = run.items }) }
    {
        let Run {} = run;
        Held {}
    }

    // The bytes, which a piece has.
    pub(crate) fn take(self) -> Run
        requires { (piece : Lent) × (self.piece ≡ Some piece) }
        ensures { (piece : Lent) → self.piece ≡ Some piece
            → (result.ptr ≡ piece.home +ₚ piece.at) × (result.items ≡ piece.bytes) }
    {
        let Held {} = self;
        Run {}
    }
}

impl Unfilled {
    // No byte at all.
    pub(crate) fn empty() -> Unfilled
        ensures { result.len ≡ 0 }
    {
        Unfilled {}
    }

    // Makes way for bytes in front, of which none is there yet.
    pub(crate) fn begin(self) -> (Unallocated, Unfilled)
        ensures { (result.0.ptr ≡ self.ptr) × IsPlaced result.0.ptr × (result.0.allocated ≡ []) × (result.0.bytes ≡ [])
            × (result.1.ptr ≡ self.ptr) × (result.1.len ≡ self.len) }
    {
        let Unfilled {} = self;
        (Unallocated {}, Unfilled {})
    }

    // Parts behind the first `len` bytes.
    pub(crate) fn split(self, len: usize) -> (Unfilled, Unfilled)
        requires { len ≤ self.len }
        ensures { (result.0.ptr ≡ self.ptr) × (result.0.len ≡ len)
            × (result.1.ptr ≡ self.ptr +ₚ len) × (len + result.1.len ≡ self.len) }
    {
        let Unfilled {} = self;
        (Unfilled {}, Unfilled {})
    }

    // Takes the bytes in front in, and forgets what they hold.
    pub(crate) fn prepend(self, run: Run) -> Unfilled
        requires { self.ptr ≡ run.ptr +ₚ length run.items }
        ensures { (result.ptr ≡ run.ptr) × (result.len ≡ length run.items + self.len) }
    {
        let Unfilled {} = self;
        let Run {} = run;
        Unfilled {}
    }
}

impl Unallocated {
    // No byte at all.
    pub(crate) fn empty() -> Unallocated
        ensures { (result.allocated ≡ []) × (result.bytes ≡ []) }
    {
        Unallocated {}
    }

    // Takes the bytes behind the last one in.
    pub(crate) fn append(self, run: Run) -> Unallocated
        requires { IsPlaced self.ptr × (run.ptr ≡ self.ptr +ₚ length self.bytes) × AreDisjoint (length self.bytes) self.allocated }
        ensures { (result.ptr ≡ self.ptr) × (result.allocated ≡ self.allocated) × (result.bytes ≡ self.bytes ++ run.items) }
    {
        let Unallocated {} = self;
        let Run {} = run;
        Unallocated {}
    }

    // Every byte, once no extent is allocated.
    pub(crate) fn into_run(self) -> Run
        requires { IsPlaced self.ptr × (self.allocated ≡ []) }
        ensures { (result.ptr ≡ self.ptr) × (result.items ≡ self.bytes) }
    {
        let Unallocated {} = self;
        Run {}
    }

    // Parts with the bytes of an extent, which is allocated from then on.
    pub(crate) fn allocate(self, at: usize, len: usize) -> (Unallocated, Run)
        requires { IsPlaced self.ptr × (at + len ≤ length self.bytes) × All (Disjoint (extent at len)) self.allocated }
        ensures { (result.0.ptr ≡ self.ptr) × (result.0.allocated ≡ extent at len ∷ self.allocated)
            × (result.0.bytes ≡ self.bytes)
            × (result.1.ptr ≡ self.ptr +ₚ at) × (result.1.items ≡ take len (drop at self.bytes)) }
    {
        let Unallocated {} = self;
        (Unallocated {}, Run {})
    }

    // Takes the bytes of an allocated extent back.
    pub(crate) fn deallocate(self, at: usize, run: Run) -> Unallocated
        requires { IsPlaced self.ptr × (run.ptr ≡ self.ptr +ₚ at) × AreDisjoint (length self.bytes) self.allocated
            × Contains self.allocated (extent at (length run.items)) }
        ensures { (result.ptr ≡ self.ptr) × (result.allocated ≡ remove_extent (extent at (length run.items)) self.allocated)
            × (result.bytes ≡ written self.bytes at run.items) }
    {
        let Unallocated {} = self;
        let Run {} = run;
        Unallocated {}
    }
}
