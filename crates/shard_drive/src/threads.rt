//! Driving on threads.
ghost use Rattle.std.specs.Prelude.{◌≡◌, ◌<◌, All};
ghost use Rattle.shard_rings.specs.Links.{end_of, traffic_of};
ghost use Rattle.shard_node.specs.Standing.{InStanding};
ghost use Rattle.shard_node.specs.Turns.{IsDone, IsSameNode};
ghost use Rattle.shard_drive.specs.Drives.{AtEach};

use crate::driven::{Driven, have_finished};
use crate::round::{Round, SLEEPS, spins_of};
use crossbeam_utils::Backoff;
use shard_node::{Gate, Node, Turn};
use shard_rings::RingLink;
use std::sync::Wait;
use std::thread;
use std::thread::Threads;

/// Drives each node on a thread of its own, turn by turn, until all are done. It returns only then, and whether it returns is not
/// promised. Where the system makes no thread, or fewer than nodes, they are driven one after another, round by round.
pub fn drive_threads<'f, R, G>(rt: &R, nodes: &mut [Node<'f, RingLink<'f>, G>])
where
    R: Threads + Wait + Sync,
    G: Gate + Send + Drop,
    requires { All (InStanding traffic_of) nodes.old }
    ensures standing { All (InStanding traffic_of) nodes.new }
    ensures done { All (IsDone traffic_of G.holds) nodes.new }
    ensures same { AtEach (λ _. IsSameNode end_of) nodes.old nodes.new }
{
    let threads = nodes.len().max(1);
    finish_all(rt, nodes, threads);
}

/// Drives all until they are done, in rounds, on at most so many threads. Before each round it looks whether all are done.
pub(crate) fn finish_all<R: Threads + Wait + Sync, N: Driven + Send>(
    rt: &R,
    nodes: &mut [N],
    threads: usize,
)
    requires threads { 0 < threads }
    requires stands { All N.stands nodes.old }
    ensures stands { All N.stands nodes.new }
    ensures done { All N.is_done nodes.new }
    ensures lasting { AtEach (λ _ a b. N.lasting b ≡ N.lasting a) nodes.old nodes.new }
{
    let spins = spins_of(rt, threads);
    let mut sleeps = SLEEPS;
    'rounds: for _ in rt.forever() {
        if have_finished(nodes) {
            return;
        }
        sleeps = drive_round(rt, nodes, threads, spins, sleeps);
    }
    unreachable!()
}

/// Drives each of them once, on at most so many threads, and one after another where no threads can be made. Answers in how many
/// idle turns a thread of the next round sleeps.
fn drive_round<R: Threads + Wait + Sync, N: Driven + Send>(
    rt: &R,
    nodes: &mut [N],
    threads: usize,
    spins: u32,
    sleeps: u32,
) -> u32
    requires threads { 0 < threads }
    requires stands { All N.stands nodes.old }
    ensures stands { All N.stands nodes.new }
    ensures lasting { AtEach (λ _ a b. N.lasting b ≡ N.lasting a) nodes.old nodes.new }
{
    let round = Round::new(nodes.len(), spins, sleeps);
    thread::for_each_mut(rt, nodes, threads, &|_, node| drive_one(rt, node, &round));
    round.next_sleeps()
}

/// Drives one until it is done, or leaves it where nothing moved for long and it may wait for one that is not driven. After a turn
/// in which nothing moved it pauses.
pub(crate) fn drive_one<R: Wait, N: Driven>(rt: &R, node: &mut N, round: &Round)
    requires { N.stands node.old }
    ensures stands { N.stands node.new }
    ensures lasting { N.lasting node.new ≡ N.lasting node.old }
{
    round.begin();
    let backoff = Backoff::new();
    let mut idle = 0;
    'turns: for _ in rt.forever() {
        match node.step() {
            Turn::Done => {
                round.end();
                return;
            }
            Turn::Idle => {
                if round.may_leave(idle) {
                    round.leave();
                    return;
                }
                round.pause(rt, &backoff, idle);
                idle = idle.saturating_add(1);
            }
            Turn::Moved | Turn::Stray { .. } => {
                idle = 0;
                backoff.reset();
            }
        }
    }
    unreachable!()
}
