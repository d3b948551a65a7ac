//! Takes and puts small objects of mixed classes, to be timed beside an allocator of the system.
//!
//! A round takes 32 objects, one within the life of the other, and puts them back in the other order: 32 pairs of a take
//! and a put. Then objects of at most 1,024 bytes are taken, and as often as is asked a new one is taken and one of them,
//! drawn at random, is put back. Classes and objects are drawn from a linear congruential sequence, the same in each run.

mod live;
mod rounds;

use live::fill_and_replace;
use rounds::{Drawn, play};
use small_pools::Pools;
use span_lists::Spans;
use std::alloc::{AllocError, Global};

const PAGES: u32 = 65_536;

/// Plays so many rounds, takes so many objects and replaces some so many times. The pairs and the sum of the classes.
pub fn run(
    alloc: Global,
    rounds: u32,
    objects: u32,
    replacements: u32,
) -> Result<String, AllocError> {
    let mut spans = Spans::new(alloc, PAGES)?;
    let mut pools = Pools::new(alloc, PAGES)?;
    let drawn = play(&mut pools, &mut spans, rounds, Drawn::new());
    let drawn = fill_and_replace(alloc, &mut pools, &mut spans, objects, replacements, drawn);
    drop(pools);
    drop(spans);
    let (pairs, sum) = (u64::from(rounds) * 32, drawn?.sum());
    format!(in alloc; "pairs {pairs} replacements {replacements} classes {sum}")
}
