//! Packets that differ go over links of both kinds: they come in the order in which they were sent, and one that is refused
//! comes back.

use foreign_list::{Foreign, ForeignBlock};
use rand_core::utils::NextWord;
use rand_pcg::Lcg64Xsh32;
use shard_memory::{ShardMemory, Share};
use shard_rings::{Lane, Link, MemoryLink, Packet, RingLink, ring_links};
use std::alloc::{AllocError, Global};
use std::test::Fail;

// The tickets for replies, each of which a packet has: the first one, and how many.
const FIRST: usize = 8;

const PACKETS: u32 = 24;

// How many words are drawn, and how many of them one after the other mostly give packets, or mostly take them.
const WORDS: u32 = 400;

const PHASE: u32 = 20;

// Packets on their way over a lane.
#[derive(Drop)]
struct Flow<'f> {
    // Those that were not sent. The last one is the next, and has the greatest ticket.
    blocks: Vec<ForeignBlock<'f>>,
    // How many have not come.
    to_come: usize,
    // How many the lane holds.
    room: usize,
    // How often one came back, and how often none was there.
    refused: u32,
    none: u32,
}

impl<'f> Flow<'f> {
    fn in_flight(&self) -> usize {
        self.to_come.wrapping_sub(self.blocks.len())
    }

    // Whether a send of this ticket was answered right, with so many in flight before it: it went where the lane had room,
    // and came back where it had none.
    fn gave(&mut self, ticket: u32, before: usize, answer: Result<(), Packet<'f>>) -> bool {
        match answer {
            Ok(()) => before < self.room,
            Err(Packet::Block(block)) => {
                let same = block.ticket() == ticket;
                self.refused = self.refused.wrapping_add(1);
                self.blocks.push(block).is_ok() && same && before == self.room
            }
            Err(Packet::Bye) => false,
        }
    }

    // Whether what came is the oldest in flight, or none where none is. It goes home.
    fn came(&mut self, packet: Option<Packet<'f>>) -> bool {
        let before = self.in_flight();
        match packet {
            Some(Packet::Block(block)) => {
                let oldest = block.ticket() as usize + 1 == self.to_come.wrapping_add(FIRST);
                self.to_come = self.to_come.wrapping_sub(1);
                block.release().is_ok() && oldest && before > 0
            }
            Some(Packet::Bye) => false,
            None => {
                self.none = self.none.wrapping_add(1);
                before == 0
            }
        }
    }

    // Whether each packet came, and the lane was full and empty on the way.
    fn has_ended(&self) -> bool {
        self.to_come == 0 && self.refused > 0 && self.none > 0
    }
}

// Whether a word gives a packet. For some words most of them do, and for as many most take one.
fn gives(word: u32, drawn: u32) -> bool {
    let most = if drawn / PHASE % 2 == 0 { 7 } else { 1 };
    word % 8 < most
}

fn send<'f, L: Link<'f>>(link: &mut L, lane: Lane, flow: &mut Flow<'f>) -> bool {
    let before = flow.in_flight();
    let Some(block) = flow.blocks.pop() else {
        return true;
    };
    let ticket = block.ticket();
    let answer = link.send(lane, Packet::Block(block));
    flow.gave(ticket, before, answer)
}

fn receive<'f, L: Link<'f>>(link: &mut L, lane: Lane, flow: &mut Flow<'f>) -> bool {
    let packet = link.receive(lane);
    flow.came(packet)
}

fn offer<'f>(link: &mut MemoryLink<'f>, lane: Lane, flow: &mut Flow<'f>) -> bool {
    let before = flow.in_flight();
    let Some(block) = flow.blocks.pop() else {
        return true;
    };
    let ticket = block.ticket();
    let answer = link.offer(lane, Packet::Block(block));
    flow.gave(ticket, before, answer)
}

fn take<'f>(link: &mut MemoryLink<'f>, lane: Lane, flow: &mut Flow<'f>) -> bool {
    let packet = link.taken(lane);
    flow.came(packet)
}

// Which ends packets go from and to: those of a pair, or a memory link's from its node or to it.
#[derive(Clone, Copy, Debug)]
enum Way {
    Pair,
    Sent,
    Offered,
}

// The last end of the last shard that is left.
fn last_end<'f>(shards: &mut Vec<Vec<RingLink<'f>>>) -> Option<RingLink<'f>> {
    let Some(mut ends) = shards.pop() else {
        return None;
    };
    let end = ends.pop();
    drop(ends);
    end
}

// Whether all packets come in order over a pair.
fn go_over_pair<'f>(
    mut from: RingLink<'f>,
    mut to: RingLink<'f>,
    lane: Lane,
    flow: &mut Flow<'f>,
) -> bool {
    let mut words = Lcg64Xsh32::new(1, 5);
    for drawn in 0..WORDS {
        let right = if gives(words.next_word(), drawn) {
            send(&mut from, lane, flow)
        } else {
            receive(&mut to, lane, flow)
        };
        if !right {
            return false;
        }
    }
    flow.has_ended()
}

// Whether all packets that the node of a memory link sends are taken in order.
fn go_out<'f>(mut link: MemoryLink<'f>, lane: Lane, flow: &mut Flow<'f>) -> bool {
    let mut words = Lcg64Xsh32::new(1, 5);
    for drawn in 0..WORDS {
        let right = if gives(words.next_word(), drawn) {
            send(&mut link, lane, flow)
        } else {
            take(&mut link, lane, flow)
        };
        if !right {
            return false;
        }
    }
    flow.has_ended()
}

// Whether all packets that it is offered are received in order.
fn go_in<'f>(mut link: MemoryLink<'f>, lane: Lane, flow: &mut Flow<'f>) -> bool {
    let mut words = Lcg64Xsh32::new(1, 5);
    for drawn in 0..WORDS {
        let right = if gives(words.next_word(), drawn) {
            offer(&mut link, lane, flow)
        } else {
            receive(&mut link, lane, flow)
        };
        if !right {
            return false;
        }
    }
    flow.has_ended()
}

fn go<'f>(alloc: Global, way: Way, lane: Lane, flow: &mut Flow<'f>) -> Result<bool, AllocError> {
    match way {
        Way::Pair => {
            let mut shards = ring_links(alloc, 2)?;
            match (last_end(&mut shards), last_end(&mut shards)) {
                (Some(from), Some(to)) => Ok(go_over_pair(from, to, lane, flow)),
                _ => Ok(false),
            }
        }
        Way::Sent => Ok(go_out(MemoryLink::new(alloc)?, lane, flow)),
        Way::Offered => Ok(go_in(MemoryLink::new(alloc)?, lane, flow)),
    }
}

// Lends a block with each ticket for replies.
fn lend<'f>(
    memory: &mut ShardMemory<'f>,
    blocks: &mut Vec<ForeignBlock<'f>>,
) -> Result<(), AllocError> {
    for _ in 0..PACKETS {
        if let Ok(block) = memory.give(16, Share::Reply) {
            blocks.push(block)?;
        }
    }
    Ok(())
}

// Whether the packets go so, and each block is home then.
fn comes_home(alloc: Global, way: Way, lane: Lane, room: usize) -> Result<bool, Fail> {
    let (home, seat) = Foreign::new(alloc, 0)?;
    let Ok(mut memory) = ShardMemory::open(alloc, 0, 1280, &home, seat) else {
        return Err(AllocError.into());
    };
    let mut blocks = Vec::new(alloc);
    lend(&mut memory, &mut blocks)?;
    let mut flow = Flow {
        blocks,
        to_come: PACKETS as usize,
        room,
        refused: 0,
        none: 0,
    };
    let went = go(alloc, way, lane, &mut flow)?;
    drop(flow);
    Ok(went && memory.take_back() == PACKETS && memory.tickets_out() == 0)
}

#[test]
fn packets_come_in_the_order_in_which_they_were_sent(rt: HostRuntime) -> Result<(), Fail> {
    for (way, lane, room) in [
        (Way::Pair, Lane::Requests, 4),
        (Way::Pair, Lane::Replies, 8),
        (Way::Sent, Lane::Requests, 4),
        (Way::Sent, Lane::Replies, 8),
        (Way::Offered, Lane::Requests, 4),
        (Way::Offered, Lane::Replies, 8),
    ] {
        let came = comes_home(rt.alloc(), way, lane, room)?;
        assert!(rt; came, "{way:?} {lane:?}");
    }
    Ok(())
}
