//! The lists of all shards, over which blocks come home.
ghost use Rattle.std.specs.Prelude.{◌≡◌, length, IfOk};
ghost use Rattle.shard_run.specs.Opening.{AreAtRest};

use foreign_list::{Foreign, OwnerSeat};
use std::alloc::{AllocError, Global};

/// A list for each of so many shards, and the seat of its owner.
///
/// # Errors
/// Want of memory; then those that were made are closed.
pub fn open_lists(alloc: Global, shards: u32) -> Result<(Vec<Foreign>, Vec<OwnerSeat>), AllocError>
    ensures { IfOk result (λ made. AreAtRest shards made.0.items made.1.items) }
{
    let mut homes = Vec::with_capacity(alloc, shards as usize)?;
    let mut seats = Vec::with_capacity(alloc, shards as usize)?;
    while homes.len() < shards as usize {
        let Ok((home, seat)) = Foreign::new(alloc, homes.len() as u32) else {
            close_lists(homes, seats);
            return Err(AllocError);
        };
        homes.push_reserved(home);
        seats.push_reserved(seat);
    }
    Ok((homes, seats))
}

/// Closes each list with the seat of its owner.
pub fn close_lists(mut homes: Vec<Foreign>, mut seats: Vec<OwnerSeat>)
    requires { AreAtRest (length homes.items) homes.items seats.items }
{
    while let Some(home) = homes.pop() {
        home.close(seats.pop().unwrap());
    }
}
