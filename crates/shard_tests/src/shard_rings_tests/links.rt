//! What no clause of the links says: that memory is found, and that a ring holds as many packets as its size.
ghost use Rattle.std.specs.Prelude.{◌≡◌, length};
ghost use Rattle.shard_rings.specs.Mesh.{IsMesh};

use shard_rings::{Lane, Link, MemoryLink, Packet, RingLink, close_pair, ring_links};
use std::alloc::{AllocError, Global};
use std::test::Fail;

// Whether the node can send a packet.
fn sends<'f>(link: &mut MemoryLink<'f>, lane: Lane) -> bool {
    link.send(lane, Packet::Bye).is_ok()
}

// How many of so many packets the node can send.
fn sent<'f>(link: &mut MemoryLink<'f>, lane: Lane, most: u32) -> u32 {
    for count in 0..most {
        if !sends(link, lane) {
            return count;
        }
    }
    most
}

// Whether the node can be offered a packet.
fn offers<'f>(link: &mut MemoryLink<'f>, lane: Lane) -> bool {
    link.offer(lane, Packet::Bye).is_ok()
}

// How many of so many packets the node can be offered.
fn offered<'f>(link: &mut MemoryLink<'f>, lane: Lane, most: u32) -> u32 {
    for count in 0..most {
        if !offers(link, lane) {
            return count;
        }
    }
    most
}

// How many of five requests are sent, and how often the lane was full.
fn send_requests(alloc: Global) -> Result<(u32, u64), AllocError> {
    let mut link = MemoryLink::new(alloc)?;
    let count = sent(&mut link, Lane::Requests, 5);
    Ok((count, link.full_count(Lane::Requests)))
}

#[test]
fn a_lane_of_requests_takes_four(rt: HostRuntime) -> Result<(), Fail> {
    assert_eq!(rt; send_requests(rt.alloc())?, (4, 1));
    Ok(())
}

// Whether a request is there before and after five are offered, how often the lane was empty before, and how many of
// the five are taken.
fn offer_requests(alloc: Global) -> Result<(bool, u64, u32, bool), AllocError> {
    let mut link = MemoryLink::new(alloc)?;
    let before = link.receive(Lane::Requests).is_some();
    let empty = link.empty_count(Lane::Requests);
    let count = offered(&mut link, Lane::Requests, 5);
    Ok((before, empty, count, link.receive(Lane::Requests).is_some()))
}

#[test]
fn a_lane_of_requests_is_offered_four(rt: HostRuntime) -> Result<(), Fail> {
    assert_eq!(rt; offer_requests(rt.alloc())?, (false, 1, 4, true));
    Ok(())
}

// How many of nine replies are sent, and whether one can be taken then.
fn send_replies(alloc: Global) -> Result<(u32, bool), AllocError> {
    let mut link = MemoryLink::new(alloc)?;
    let count = sent(&mut link, Lane::Replies, 9);
    Ok((count, link.taken(Lane::Replies).is_some()))
}

#[test]
fn a_lane_of_replies_takes_eight(rt: HostRuntime) -> Result<(), Fail> {
    assert_eq!(rt; send_replies(rt.alloc())?, (8, true));
    Ok(())
}

// How many shards a mesh of three has, and whether each has ends toward two others.
fn mesh_of_three(alloc: Global) -> Result<(usize, bool), AllocError> {
    let ends = ring_links(alloc, 3)?;
    let mut two = true;
    for toward in &ends {
        two = two && toward.len() == 2;
    }
    Ok((ends.len(), two))
}

#[test]
fn each_shard_has_an_end_toward_each_other(rt: HostRuntime) -> Result<(), Fail> {
    assert_eq!(rt; mesh_of_three(rt.alloc())?, (3, true));
    Ok(())
}

// Ends the pair between two shards.
fn close_two<'f>(mut shards: Vec<Vec<RingLink<'f>>>)
    requires mesh { IsMesh shards.items }
    requires two { length shards.items ≡ 2 }
{
    let mut second = shards.pop().unwrap();
    let mut first = shards.pop().unwrap();
    close_pair(first.pop().unwrap(), second.pop().unwrap());
}

#[test]
fn a_pair_is_closed(rt: HostRuntime) -> Result<(), Fail> {
    close_two(ring_links(rt.alloc(), 2)?);
    Ok(())
}
