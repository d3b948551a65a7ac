// A `Vec`, apart from its places, and a `Vec` over places that another one owns.
ghost use Rattle.std.specs.Prelude.{◌≡◌, ◌^◌, ◌<◌, ◌≤◌, [], length, replicate};

use crate::memory::{Run, Sole, Unfilled};
use std::alloc::Allocator;
use std_alloc::vec::{Lodged, lodge};

pub(crate) fn detach<A: Allocator>(vec: Vec<u8, A>) -> (Unfilled, Sole<A>)
    requires { (vec.len ≡ 0) × (0 < vec.cap) }
    ensures { (result.0.ptr ≡ vec.ptr) × (result.0.len ≡ vec.cap) × (result.1.ptr ≡ vec.ptr)
        × (result.1.len ≡ vec.cap) }
{
    (Unfilled {}, Sole { vec })
}

pub(crate) fn attach<A: Allocator>(unfilled: Unfilled, sole: Sole<A>) -> Vec<u8, A>
    requires { (unfilled.ptr ≡ sole.ptr) × (unfilled.len ≡ sole.len) }
    ensures { (result.len ≡ 0) × (result.cap ≡ sole.len) }
{
    let Unfilled {} = unfilled;
    let Sole { vec } = sole;
    vec
}

// A `Vec` over the run, which neither grows nor frees it.
pub(crate) fn lodge_run(ptr: *mut u8, len: usize, run: Run) -> Vec<u8, Lodged>
    requires { (run.ptr ≡ ptr) × (length run.items ≡ len) × (0 < len) × (len < 2 ^ 63) }
    ensures { (result.items ≡ run.items) × (result.len ≡ len) × (result.cap ≡ len)
        × (result.ptr ≡ ptr) }
{
    let Run {} = run;
    unsafe { lodge(ptr, len, len) }
}

// A `Vec` with `cap` places and nothing in them, which neither grows nor frees them.
fn lodge_unfilled(ptr: *mut u8, cap: usize, unfilled: Unfilled) -> Vec<u8, Lodged>
    requires { (unfilled.ptr ≡ ptr) × (unfilled.len ≡ cap) × (0 < cap) × (cap < 2 ^ 63) }
    ensures { (result.items ≡ []) × (result.len ≡ 0) × (result.cap ≡ cap) × (result.ptr ≡ ptr) }
{
    let Unfilled {} = unfilled;
    unsafe { lodge(ptr, 0, cap) }
}

pub(crate) fn dislodge_run(vec: Vec<u8, Lodged>) -> Run
    requires { 0 < vec.len }
    ensures { (result.ptr ≡ vec.ptr) × (result.items ≡ vec.items) }
{
    let _len = vec.dislodge(); // the bytes stay where they are
    Run {}
}

// The same `Vec`, with the byte in its first `len` places.
fn filled_with(byte: u8, vec: Vec<u8, Lodged>, len: usize) -> Vec<u8, Lodged>
    requires { (vec.items ≡ []) × (vec.len ≡ 0) × (len ≤ vec.cap) }
    ensures { (result.items ≡ replicate len byte) × (result.len ≡ len) × (result.ptr ≡ vec.ptr) }
{
    let mut vec = vec;
    while vec.len() < len {
        vec.push_reserved(byte);
    }
    vec
}

// Writes zeros to the `len` bytes at `ptr`.
pub(crate) fn zeros(ptr: *mut u8, len: usize, unfilled: Unfilled) -> Run
    requires { (unfilled.ptr ≡ ptr) × (unfilled.len ≡ len) × (0 < len) × (len < 2 ^ 63) }
    ensures { (result.ptr ≡ ptr) × (result.items ≡ replicate len 0) }
{
    let vec = lodge_unfilled(ptr, len, unfilled);
    dislodge_run(filled_with(0, vec, len))
}
