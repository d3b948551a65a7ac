// The bytes of a range that no piece has.
ghost use Rattle.std.specs.Prelude.{◌≡◌, ◌+◌, ◌%◌, ◌^◌, ◌<◌, ◌≤◌, [], ◌∷◌, length, take, drop, replicate, All, Contains};
ghost use denote.RawPtr.{◌+ₚ◌};
ghost use Rattle.layout.specs.Extents.{extent, Disjoint};
ghost use Rattle.layout.specs.Sizes.{segment};
ghost use Rattle.raw_range.specs.Memory.{remove_extent, written};
ghost use Rattle.raw_range.specs.inside.Filled.{IsFilled, bytes_of};

use crate::memory::{Run, Unallocated, Unfilled};
use crate::parts::zeros;
use layout::SEGMENT;

// The bytes of a range of `size` bytes, but for those of its pieces. Zeros were written to all below the byte `filled`, and
// nothing to those from there on.
#[derive(Drop)]
pub(crate) struct FreeBytes {
    pub(crate) unallocated: Unallocated,
    pub(crate) unfilled: Unfilled,
    pub(crate) filled: usize,
    pub(crate) size: usize,
}

impl FreeBytes {
    // No byte at all.
    pub(crate) fn empty() -> FreeBytes {
        FreeBytes {
            unallocated: Unallocated::empty(),
            unfilled: Unfilled::empty(),
            filled: 0,
            size: 0,
        }
    }

    // None of the bytes is written.
    pub(crate) fn from_unfilled(unfilled: Unfilled, size: usize) -> FreeBytes
        requires { (unfilled.len ≡ size) × (size < 2 ^ 63) }
        ensures filled { IsFilled result }
        ensures place { (result.unallocated.ptr ≡ unfilled.ptr) × (result.size ≡ size) }
        ensures none_allocated { result.unallocated.allocated ≡ [] }
        ensures bytes { bytes_of result ≡ replicate size 0 }
    {
        let (unallocated, unfilled) = unfilled.begin();
        FreeBytes {
            unallocated,
            unfilled,
            filled: 0,
            size,
        }
    }

    // All bytes, once no extent is allocated, whatever they hold.
    pub(crate) fn into_unfilled(self) -> Unfilled
        requires { IsFilled self × (self.unallocated.allocated ≡ []) }
        ensures { (result.ptr ≡ self.unallocated.ptr) × (result.len ≡ self.size) }
    {
        let FreeBytes {
            unallocated,
            unfilled,
            filled: _,
            size: _,
        } = self;
        unfilled.prepend(unallocated.into_run())
    }

    // Writes zeros to the next `len` bytes.
    fn fill(self, ptr: *mut u8, len: usize) -> FreeBytes
        requires { IsFilled self × (self.unallocated.ptr ≡ ptr) × (0 < len) × (self.filled + len ≤ self.size) }
        ensures filled { IsFilled result × (result.filled ≡ self.filled + len) }
        ensures place { (result.unallocated.ptr ≡ ptr) × (result.size ≡ self.size) }
        ensures allocated { result.unallocated.allocated ≡ self.unallocated.allocated }
        ensures bytes { bytes_of result ≡ bytes_of self }
    {
        let FreeBytes {
            unallocated,
            unfilled,
            filled,
            size,
        } = self;
        let (front, unfilled) = unfilled.split(len);
        let start = unsafe { ptr.byte_add(filled) };
        FreeBytes {
            unallocated: unallocated.append(zeros(start, len, front)),
            unfilled,
            filled: filled + len,
            size,
        }
    }

    // The bytes below `end` are written from then on, and those up to the end of their segment.
    pub(crate) fn fill_up_to(self, ptr: *mut u8, end: usize) -> FreeBytes
        requires { IsFilled self × (self.unallocated.ptr ≡ ptr) × (end ≤ self.size) }
        ensures filled { IsFilled result × (end ≤ result.filled) }
        ensures place { (result.unallocated.ptr ≡ ptr) × (result.size ≡ self.size) }
        ensures allocated { result.unallocated.allocated ≡ self.unallocated.allocated }
        ensures bytes { bytes_of result ≡ bytes_of self }
    {
        if end <= self.filled {
            return self;
        }
        let to = segment_end(end).min(self.size);
        let len = to - self.filled;
        self.fill(ptr, len)
    }

    // Parts with the bytes of an extent, which is allocated from then on.
    pub(crate) fn allocate(self, at: usize, len: usize) -> (FreeBytes, Run)
        requires { IsFilled self × (0 < len) × (at + len ≤ self.filled) × All (Disjoint (extent at len)) self.unallocated.allocated }
        ensures filled { IsFilled result.0 }
        ensures place { (result.0.unallocated.ptr ≡ self.unallocated.ptr) × (result.0.size ≡ self.size) }
        ensures allocated { result.0.unallocated.allocated ≡ extent at len ∷ self.unallocated.allocated }
        ensures bytes { bytes_of result.0 ≡ bytes_of self }
        ensures run { (result.1.ptr ≡ self.unallocated.ptr +ₚ at) × (result.1.items ≡ take len (drop at (bytes_of self))) }
    {
        let FreeBytes {
            unallocated,
            unfilled,
            filled,
            size,
        } = self;
        let (unallocated, run) = unallocated.allocate(at, len);
        (
            FreeBytes {
                unallocated,
                unfilled,
                filled,
                size,
            },
            run,
        )
    }

    // Takes the bytes of an allocated extent back.
    pub(crate) fn deallocate(self, at: usize, run: Run) -> FreeBytes
        requires { IsFilled self × (run.ptr ≡ self.unallocated.ptr +ₚ at)
            × Contains self.unallocated.allocated (extent at (length run.items)) }
        ensures filled { IsFilled result }
        ensures place { (result.unallocated.ptr ≡ self.unallocated.ptr) × (result.size ≡ self.size) }
        ensures allocated { result.unallocated.allocated ≡ remove_extent (extent at (length run.items)) self.unallocated.allocated }
        ensures bytes { bytes_of result ≡ written (bytes_of self) at run.items }
    {
        let FreeBytes {
            unallocated,
            unfilled,
            filled,
            size,
        } = self;
        FreeBytes {
            unallocated: unallocated.deallocate(at, run),
            unfilled,
            filled,
            size,
        }
    }
}

// The end of the segment in which the byte before `end` lies.
fn segment_end(end: usize) -> usize
    requires { end < 2 ^ 63 }
    ensures { (result % segment ≡ 0) × (end ≤ result) × (result < end + segment) }
{
    end.div_ceil(SEGMENT as usize) * SEGMENT as usize
}
