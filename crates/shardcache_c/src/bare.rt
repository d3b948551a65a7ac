//! A box taken apart: a pointer, and the allocator that frees what it points to.
ghost use Rattle.std.specs.Prelude.{◌≡◌};
ghost use Rattle.std_alloc.specs.Box.Ownership.{box_owns};

use std::alloc::Allocator;
use std::marker::Model;

pub(crate) struct Bare<T, A: Allocator> {
    pub(crate) at: *mut T,
    pub(crate) alloc: A,
    pub(crate) ghost value: { T },
}

impl<T, A: Allocator> Model for Bare<T, A> {
    ghost also_owns = { λ b. box_owns (A.dealloc_token b.alloc) T.row b.at b.value };
}

impl<T, A: Allocator> Bare<T, A> {
    pub(crate) fn of(value: Box<T, A>) -> Bare<T, A>
    where
        T: Drop,
        ensures { result.value ≡ value.value }
    {
        let (at, alloc) = Box::into_raw_with_allocator(value);
        Bare { at, alloc }
    }

    pub(crate) fn into_box(self) -> Box<T, A>
        ensures { result.value ≡ self.value }
    {
        let Bare { at, alloc } = self;
        unsafe { Box::from_raw(alloc, at) }
    }
}
