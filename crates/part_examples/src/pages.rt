//! A caller of `shard_memory`: a block is lent and comes home, in memory that is opened and given back.
ghost use Rattle.std.specs.Prelude.{◌≡◌, ◌≤◌};
ghost use Rattle.shard_memory.specs.Sizes.{ArePages};

use shard_memory::{Foreign, ShardMemory, Share};
use std::alloc::{AllocError, Global};

/// Lends a block of so many bytes, releases it as its reader would, and takes it back. False where none was lent, or it did not come.
pub fn lend_once(memory: &mut ShardMemory<'_>, size: u32) -> bool
    requires { 1 ≤ size }
    ensures { (memory.new.blocks ≡ memory.old.blocks)
        × (memory.new.segments ≡ memory.old.segments)
        × (memory.new.list ≡ memory.old.list) }
{
    let Ok(block) = memory.give(size, Share::Request) else {
        return false;
    };
    let released = block.release().is_ok();
    memory.take_back();
    released
}

/// Opens the memory of a shard, lends a block once, and gives the memory back. The answer is whether the block came home.
///
/// # Errors
/// Want of memory.
pub fn lend_from_new(alloc: Global, shard: u32, pages: u32, size: u32) -> Result<bool, AllocError>
    requires pages { ArePages pages }
    requires size { 1 ≤ size }
{
    let (home, seat) = Foreign::new(alloc, shard)?;
    let mut memory = match ShardMemory::open(alloc, shard, pages, &home, seat) {
        Ok(memory) => memory,
        Err(seat) => {
            home.close(seat);
            return Err(AllocError);
        }
    };
    let came_home = lend_once(&mut memory, size);
    if memory.tickets_out() != 0 {
        return Ok(false);
    }
    let seat = memory.finish();
    home.close(seat);
    Ok(came_home)
}
