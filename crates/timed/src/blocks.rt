//! Passes blocks to other threads and takes them back, to be timed beside an allocator of the system.
//!
//! The owner lends each block with a ticket and sends it over a ring, and another thread releases it; the owner takes back
//! what came home where no ticket is left. The owner writes a block's first and last byte, and both look at them; or it
//! writes each byte, and the other then writes each again.

mod passing;

use foreign_list::Foreign;
use passing::{Marks, OWNER, pass, pass_to_three, pieces};
use std::alloc::{AllocError, Global};
use std::sync::Wait;
use std::thread::Threads;

/// Passes so many blocks to another thread, whose first and last bytes are written. How often these were right, twice for
/// each block. With `each` all bytes are, and with `three` also, by three other threads in turn, to each so many blocks.
pub fn run<R: Threads + Wait + Sync>(
    rt: &R,
    alloc: Global,
    blocks: u32,
    kind: &str,
) -> Result<String, AllocError> {
    let home = pieces(alloc)?;
    let (list, mut seat) = Foreign::new(alloc, OWNER)?;
    let right = match kind {
        "three" => pass_to_three(rt, alloc, &list, &mut seat, home, blocks)?,
        "each" => pass(rt, alloc, &list, &mut seat, home, blocks, Marks::Each)?,
        _ => pass(rt, alloc, &list, &mut seat, home, blocks, Marks::Ends)?,
    };
    format!(in alloc; "blocks {blocks} right {right}")
}
