//! What the nodes of a run leave.
ghost use Rattle.std.specs.Prelude.{IfOk};
ghost use Rattle.trace_text.specs.Parsed.{trace_in};

use foreign_list::OwnerSeat;
use shard_node::Ran;
use shard_rings::RingLink;
use std::alloc::{AllocError, Global};
use trace_text::Trace;

/// What nodes leave that have finished, in the order of their shards. It is made before they are driven: so nothing from there on
/// takes memory.
#[derive(Drop)]
pub struct Remains<'f> {
    pub ran: Ran,
    /// For each shard its ends toward the others.
    pub links: Vec<Vec<RingLink<'f>>>,
    pub seats: Vec<OwnerSeat>,
}

impl<'f> Remains<'f> {
    ghost use Rattle.shard_run.specs.Remaining.{IsRoomFor};

    /// Room for what the nodes will leave that run this trace, with so many pages each.
    ///
    /// # Errors
    /// There is no memory.
    pub fn new(alloc: Global, trace: &Trace, pages: u32) -> Result<Remains<'f>, AllocError>
        ensures { IfOk result (λ remains. IsRoomFor (trace_in trace.now) trace.now.shards pages remains) }
    {
        let shards = trace.shards();
        Ok(Remains {
            ran: Ran::new(alloc, trace, shards, pages)?,
            links: Vec::with_capacity(alloc, shards as usize)?,
            seats: Vec::with_capacity(alloc, shards as usize)?,
        })
    }
}
