//! The ends of all shards toward each other.
ghost use Rattle.std.specs.Prelude.{◌≡◌, ◌+◌, [], ◌∷◌, ◌++◌, length, OnOk, IfOk};
ghost use Rattle.shard_rings.specs.Links.{LinkState};
ghost use Rattle.shard_rings.specs.Mesh.{IsMesh};
ghost use Rattle.shard_rings.specs.inside.Meeting.{Meets, AllMeet};

use crate::ring_link::{RingLink, link_pair};
use std::alloc::{AllocError, Global};

/// For each shard its ends toward the others, in rising order. The two ends between two shards are a pair, as [`close_pair`]
/// asks, and nothing was sent or received.
///
/// [`close_pair`]: crate::close_pair
///
/// # Errors
/// There is no memory.
pub fn ring_links<'f>(alloc: Global, shards: u32) -> Result<Vec<Vec<RingLink<'f>>>, AllocError>
    ensures shards { IfOk result (λ links. length links.items ≡ shards) }
    ensures mesh { IfOk result (λ links. IsMesh links.items) }
{
    let mut links = Vec::with_capacity(alloc, shards as usize)?;
    for _ in 0..shards {
        add_shard(alloc, &mut links, shards as usize)?;
    }
    Ok(links)
}

/// One shard more, with room for its ends toward so many.
fn add_shard<'f>(
    alloc: Global,
    links: &mut Vec<Vec<RingLink<'f>>>,
    shards: usize,
) -> Result<(), AllocError>
    requires { IsMesh links.old.items }
    ensures length { OnOk result (length links.new.items ≡ length links.old.items + 1) }
    ensures mesh { OnOk result (IsMesh links.new.items) }
{
    let own = meet(alloc, links.as_mut_slice(), shards)?;
    links.push(own)?;
    Ok(())
}

/// Joins each shard by a pair of ends, and answers those that lead to it.
fn meet<'f>(
    alloc: Global,
    links: &mut [Vec<RingLink<'f>>],
    shards: usize,
) -> Result<Vec<RingLink<'f>>, AllocError>
    ensures { IfOk result (λ own. AllMeet links.old links.new own.items) }
{
    let mut own = Vec::with_capacity(alloc, shards)?;
    for shard in links.iter_mut() {
        meet_one(alloc, shard, &mut own)?;
    }
    Ok(own)
}

/// Joins a shard by a pair of ends.
fn meet_one<'f>(
    alloc: Global,
    shard: &mut Vec<RingLink<'f>>,
    own: &mut Vec<RingLink<'f>>,
) -> Result<(), AllocError>
    ensures { OnOk result ((other : LinkState) × (own.new.items ≡ own.old.items ++ other ∷ []) × Meets shard.old shard.new other) }
{
    let (there, here) = link_pair(alloc)?;
    shard.push(there)?;
    own.push(here)?;
    Ok(())
}
