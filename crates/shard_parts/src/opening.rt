//! What a shard is opened with, but for its store.
ghost use Rattle.std.specs.Prelude.{◌≡◌, ◌+◌, ◌*◌, ◌<◌, ◌≤◌, [], length, map, vec_capacity, vec_len, All, IfOk, None, replicate, Some};
ghost use Rattle.std.specs.List.{slice_get};
ghost use Rattle.layout.specs.Sizes.{key_room, most_keys};
ghost use Rattle.trace_text.specs.Parsed.{trace_in};
ghost use Rattle.trace_text.specs.Parts.{own_parts};
ghost use Rattle.trace_text.specs.PartCounts.{here_parts, here_puts, reply_bytes};
ghost use Rattle.part_lemmas.specs.Exchange.{others};
ghost use Rattle.shard_parts.specs.Opening.{IsNewPeer};

use crate::peer::Peer;
use layout::{KEY_ROOM, MOST_KEYS};
use run_log::{Journal, ReplyLog};
use std::alloc::{AllocError, Global};
use trace_text::Trace;

/// The memory of a shard that is to be opened, but for its store.
#[derive(Drop)]
pub struct Room<'f, L: Drop> {
    pub journal: Journal,
    pub log: ReplyLog,
    pub keys: Vec<u8>,
    pub peers: Vec<Peer<'f, L>>,
    /// How many rows the store is to have room for.
    pub rows: u32,
}

impl<'f, L: Drop> Room<'f, L> {
    /// What a shard takes for its part of the trace.
    ///
    /// # Errors
    /// There is no memory.
    pub fn new(alloc: Global, shard: u32, trace: &Trace) -> Result<Room<'f, L>, AllocError>
        requires within { shard < trace.now.shards }
        ensures journal { IfOk result (λ room. room.journal ≡ record {
          entries = [];
          spare = here_parts (trace_in trace.now) trace.now.shards shard
              + here_puts (trace_in trace.now) trace.now.shards shard;
        }) }
        ensures log { IfOk result (λ room. room.log ≡ record {
          replies = replicate (own_parts (trace_in trace.now) trace.now.shards shard) None;
          room = reply_bytes (trace_in trace.now) trace.now.shards shard;
        }) }
        ensures keys { IfOk result (λ room. vec_len room.keys ≡ key_room * most_keys) }
        ensures rows { IfOk result (λ room. room.rows ≡ here_puts (trace_in trace.now) trace.now.shards shard) }
        ensures peers { IfOk result (λ room. (room.peers.items ≡ []) × (trace.now.shards ≤ vec_capacity room.peers + 1)) }
    {
        let shards = trace.shards();
        let needs = trace.needs(shard, shards);
        Ok(Room {
            journal: Journal::new(alloc, needs.here_parts + needs.here_puts)?,
            log: ReplyLog::over(
                alloc,
                trace.bytes().share()?,
                needs.own_parts,
                needs.reply_bytes,
            )?,
            keys: vec![in alloc; 0; (KEY_ROOM * MOST_KEYS) as usize]?,
            peers: Vec::with_capacity(alloc, shards as usize - 1)?,
            rows: needs.here_puts,
        })
    }
}

/// The number of the shard at this place among those other than `shard`.
fn number_at(shards: u32, shard: u32, at: usize) -> u32
    requires within { shard < shards }
    requires at { at + 1 < shards }
    ensures below { result < shards }
    ensures place { slice_get (others shards shard) at ≡ Some result }
{
    if at < shard as usize {
        at as u32
    } else {
        at as u32 + 1
    }
}

/// The other shards, in rising order: one for each link. There is room for them.
pub fn peers_over<'f, L: Drop>(
    trace: &'f Trace,
    shard: u32,
    links: Vec<L>,
    mut peers: Vec<Peer<'f, L>>,
) -> Vec<Peer<'f, L>>
    // One link for each other shard.
    requires within { shard < trace.now.shards }
    requires links { length links.items + 1 ≡ trace.now.shards }
    requires none { peers.items ≡ [] }
    requires room { trace.now.shards ≤ vec_capacity peers + 1 }

    // A peer over each, in rising order.
    ensures links { map (λ peer. peer.link) result.items ≡ links.items }
    ensures numbers { map (λ peer. peer.shard) result.items ≡ others trace.now.shards shard }
    ensures new { All (IsNewPeer trace.now trace.now.shards shard) result.items }
{
    let shards = trace.shards();
    for link in links {
        let number = number_at(shards, shard, peers.len());
        peers.push_reserved(Peer::new(trace, shard, number, link));
    }
    peers
}
