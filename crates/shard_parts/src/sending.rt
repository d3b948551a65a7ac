//! How blocks go to other shards.
ghost use Rattle.std.specs.Prelude.{◌≡◌, ◌↔◌, Some, false, IsTrue, IsSome, IsNone};
ghost use Rattle.part_lemmas.specs.Sends.{SendsHeld, TriesBye};

use foreign_list::ForeignBlock;
use shard_rings::{Lane, Link, Packet};

/// Sends a block. One that is refused comes back, to wait.
pub fn send<'f, L: Link<'f>>(
    link: &mut L,
    lane: Lane,
    block: ForeignBlock<'f>,
) -> Option<ForeignBlock<'f>>
    ensures sends { SendsHeld lane (Some block.entry) result (L.traffic link.old) (L.traffic link.new) }
    ensures same_end { L.end link.new ≡ L.end link.old }
{
    match link.send(lane, Packet::Block(block)) {
        Ok(()) => None,
        Err(Packet::Block(back)) => Some(back),
        Err(Packet::Bye) => unreachable!(),
    }
}

/// Sends what waits. True where it was sent.
pub(crate) fn send_held<'f, L: Link<'f>>(
    link: &mut L,
    lane: Lane,
    held: &mut Option<ForeignBlock<'f>>,
) -> bool
    ensures sends { SendsHeld lane held.old held.new (L.traffic link.old) (L.traffic link.new) }
    ensures sent { IsTrue result ↔ IsSome held.old × IsNone held.new }
    ensures same_end { L.end link.new ≡ L.end link.old }
{
    if held.is_none() {
        return false;
    }
    let Some(block) = held.take() else {
        return false;
    };
    *held = send(link, lane, block);
    held.is_none()
}

/// Sends Bye on the lane of requests. False where it is refused.
pub(crate) fn send_bye<'f, L: Link<'f>>(link: &mut L) -> bool
    ensures sends { TriesBye false result (L.traffic link.old) (L.traffic link.new) }
    ensures same_end { L.end link.new ≡ L.end link.old }
{
    link.send(Lane::Requests, Packet::Bye).is_ok()
}
