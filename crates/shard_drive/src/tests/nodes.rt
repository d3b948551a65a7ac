//! Nodes are driven to their ends.
ghost use Rattle.std.specs.Prelude.{◌≤◌, ⊤, length, All};
ghost use Rattle.trace_text.specs.Parts.{most_shards};
ghost use Rattle.layout.specs.Sizes.{most_trace_bytes};
ghost use Rattle.shard_rings.specs.Links.{traffic_of};
ghost use Rattle.shard_node.specs.Standing.{InStanding};

use super::opening::{lists, open_nodes, trace_for};
use crate::threads::finish_all;
use crate::{drive_numbered, drive_schedule, drive_threads};
use shard_node::{Gate, Gates, Node, OpenGates, Turn};
use shard_rings::RingLink;
use std::alloc::Global;
use std::sync::Wait;
use std::sync::atomic::{AtomicU64, Ordering};
use std::test::Fail;
use std::thread::{self, Threads};

/// Commands of each of two or three origins, on keys of each of two or three owners.
const WORK: &[u8] =
    b"put a 1\nput b 2\nget b\nget a\nscan a 3\nerase b\nput c 4\nget b\nscan b 9\n";

/// Whether one turn more of each says that it is done.
fn are_done<'f, G: Gate + Drop>(nodes: &mut [Node<'f, RingLink<'f>, G>]) -> bool {
    let mut done = true;
    for node in nodes.iter_mut() {
        done &= matches!(node.turn(), Turn::Done);
    }
    done
}

/// How nodes are driven.
#[derive(Clone, Copy)]
enum Way {
    /// Twenty turns of each of the first two, one after the other.
    Schedule,
    Number(u32),
    Threads,
    /// On at most so many threads, or one.
    Few(usize),
}

fn drive<'f, R: Threads + Wait + Sync, G: Gate + Send + Drop>(
    rt: &R,
    nodes: &mut [Node<'f, RingLink<'f>, G>],
    way: Way,
)
    requires several { 2 ≤ length nodes.old }
    requires standing { All (InStanding traffic_of) nodes.old }
{
    match way {
        Way::Schedule => {
            for _ in 0..10 {
                drive_schedule(nodes, &[0, 1, 0, 1]);
            }
        }
        Way::Number(number) => drive_numbered(rt, nodes, number),
        Way::Threads => drive_threads(rt, nodes),
        Way::Few(threads) => finish_all(rt, nodes, threads.max(1)),
    }
}

/// The turns of the first two.
fn turns_of<'f, G: Gate + Drop>(nodes: &[Node<'f, RingLink<'f>, G>]) -> (u64, u64) {
    match nodes {
        [first, second, ..] => (first.turns(), second.turns()),
        _ => (0, 0),
    }
}

/// The turns that the first two nodes make where all are driven so on these lines, and whether all are done then.
fn driven<R: Threads + Wait + Sync, S: Gates>(
    rt: &R,
    alloc: Global,
    lines: &[u8],
    shards: u32,
    way: Way,
    gates: &S,
) -> Result<((u64, u64), bool), Fail>
    requires short { length lines.now ≤ most_trace_bytes }
    requires several { 2 ≤ shards }
    requires most { shards ≤ most_shards }
{
    let trace = trace_for(alloc, lines, shards)?;
    let (homes, seats) = lists(alloc, shards)?;
    let mut nodes = open_nodes(alloc, shards, &trace, homes.as_slice(), seats, gates)?;
    drive(rt, nodes.as_mut_slice(), way);
    let turns = turns_of(nodes.as_slice());
    Ok((turns, are_done(nodes.as_mut_slice())))
}

#[test]
fn a_schedule_takes_two_nodes_to_their_ends(rt: HostRuntime) -> Result<(), Fail> {
    let found = driven(&rt, rt.alloc(), b"put b 1\n", 2, Way::Schedule, &OpenGates)?;
    assert_eq!(rt; found, ((20, 20), true));
    Ok(())
}

#[test]
fn a_number_makes_the_same_turns_again(rt: HostRuntime) -> Result<(), Fail> {
    for number in [0, 7, 4_000_000_000] {
        let way = Way::Number(number);
        let (turns, done) = driven(&rt, rt.alloc(), WORK, 2, way, &OpenGates)?;
        let again = driven(&rt, rt.alloc(), WORK, 2, way, &OpenGates)?;
        assert!(rt; done && again == (turns, true), "at {number}");
    }
    Ok(())
}

#[test]
fn threads_take_three_nodes_to_their_ends(rt: HostRuntime) -> Result<(), Fail> {
    let (_, done) = driven(&rt, rt.alloc(), WORK, 3, Way::Threads, &OpenGates)?;
    assert!(rt; done);
    Ok(())
}

#[test]
fn fewer_threads_than_nodes_take_them_to_their_ends(rt: HostRuntime) -> Result<(), Fail> {
    for (shards, threads) in [(2, 1), (3, 1), (3, 2)] {
        let way = Way::Few(threads);
        let (_, done) = driven(&rt, rt.alloc(), WORK, shards, way, &OpenGates)?;
        assert!(rt; done, "{shards} on {threads}");
    }
    Ok(())
}

/// How often a gate looks whether the other shard came to its own.
const LOOKS: u64 = 200_000_000;

/// Which of two shards came to its gate, and how many gates waited in vain.
#[derive(Drop)]
struct Meeting {
    first: AtomicU64,
    second: AtomicU64,
    vain: AtomicU64,
}

/// Makes gates that wait for one another.
#[derive(Drop)]
struct Doors<'a> {
    meeting: &'a Meeting,
}

/// A gate that opens once the other shard came to its own, or was long waited for.
#[derive(Drop)]
struct Door<'a> {
    own: &'a AtomicU64,
    other: &'a AtomicU64,
    vain: &'a AtomicU64,
}

impl<'a> Gates for Doors<'a> {
    type Made = Door<'a>;

    fn gate(&self, shard: u32) -> Door<'a> {
        let meeting = self.meeting;
        if shard == 0 {
            Door {
                own: &meeting.first,
                other: &meeting.second,
                vain: &meeting.vain,
            }
        } else {
            Door {
                own: &meeting.second,
                other: &meeting.first,
                vain: &meeting.vain,
            }
        }
    }
}

impl<'a> Gate for Door<'a> {
    ghost holds = { λ _. 0 };

    ghost lets = { λ _ _ _ _. ⊤ };

    fn open(&mut self, _shard: u32, _number: u32) -> bool {
        self.own.store(1, Ordering::SeqCst);
        for look in 0..LOOKS {
            if self.other.load(Ordering::SeqCst) == 1 {
                return true;
            }
            if look % 1000 == 0 {
                thread::yield_now();
            }
        }
        self.vain.fetch_add(1, Ordering::SeqCst);
        true
    }
}

#[test]
fn two_threads_meet_at_their_gates(rt: HostRuntime) -> Result<(), Fail> {
    let meeting = Meeting {
        first: AtomicU64::new(0),
        second: AtomicU64::new(0),
        vain: AtomicU64::new(0),
    };
    let doors = Doors { meeting: &meeting };
    let lines = b"put a 1\nput b 2\n";
    let (_, done) = driven(&rt, rt.alloc(), lines, 2, Way::Threads, &doors)?;
    assert!(rt; done && meeting.vain.load(Ordering::SeqCst) == 0);
    Ok(())
}
