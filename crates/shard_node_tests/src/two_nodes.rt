//! Two nodes that ask each other, in random orders of their turns and of what goes between them.
ghost use Rattle.std.specs.Prelude.{◌≡◌};
ghost use Rattle.foreign_list.specs.OwnerSeats.{IsAtRest};
ghost use Rattle.run_log.specs.Runs.{IsOfRun};

use super::judged::{Left, are_right};
use super::trial::{Trial, parsed};
use cache_model::Entry;
use foreign_list::{Foreign, OwnerSeat};
use rand_core::utils::NextWord;
use rand_pcg::Lcg64Xsh32;
use shard_node::{Ran, Turn};
use shard_rings::Lane;
use std::alloc::{AllocError, Global};
use std::test::Fail;
use trace_text::Trace;

// a and c belong to shard 0, b and d to shard 1. Shard 0 issues the odd commands, and shard 1 the even ones. Each asks the other
// three, so with Bye no more than a lane holds: what is carried fits.
const LINES: &[u8] =
    b"put a 1\nput b 2\nput b 3\nput c 4\nget b\nget a\nscan a 4\nscan b 9\nerase a\nget b\nput c 5\nput d 6\n";

// The same, in two tables.
const IN_TABLES: &[u8] = b"version 2\nput 3 a 1\nput 4 b 2\nput 3 b 3\nput 4 c 4\nget 4 b\n\
      get 3 a\nscan 3 a 4\nscan 4 b 9\nerase 4 a\nget 3 b\nput 3 c 5\nput 4 d 6\n";

/// Carries the next packet on the lane from one node to the other. False where it does not fit.
fn carry<'f>(from: &mut Trial<'f>, to: &mut Trial<'f>, word: u32) -> bool
    ensures from { from.new ≡ from.old }
    ensures to { to.new ≡ to.old }
{
    let lane = if word % 2 == 0 {
        Lane::Requests
    } else {
        Lane::Replies
    };
    match from.taken(lane) {
        Some(packet) => to.offer(lane, packet),
        None => true,
    }
}

/// Turns a node, and tells whether it is done. False where it sets a packet stray.
fn turn<'f>(node: &mut Trial<'f>, done: &mut bool) -> bool
    ensures { node.new ≡ node.old }
{
    let turn = node.turn();
    *done = turn == Turn::Done;
    !matches!(turn, Turn::Stray { .. })
}

/// Turns a node or carries a packet, as the word says. False where a packet is set aside or does not fit.
fn step<'f>(
    word: u32,
    first: &mut Trial<'f>,
    second: &mut Trial<'f>,
    done: &mut (bool, bool),
) -> bool
    ensures first { first.new ≡ first.old }
    ensures second { second.new ≡ second.old }
{
    match word % 4 {
        0 => turn(first, &mut done.0),
        1 => turn(second, &mut done.1),
        2 => carry(first, second, word / 4),
        _ => carry(second, first, word / 4),
    }
}

/// Turns two nodes and carries what they send, in an order that is drawn, until both are done. False where a packet does not fit, a
/// packet is set aside, or they do not get done.
fn play<'f>(words: &mut Lcg64Xsh32, first: &mut Trial<'f>, second: &mut Trial<'f>) -> bool
    ensures first { first.new ≡ first.old }
    ensures second { second.new ≡ second.old }
{
    let mut done = (false, false);
    for _ in 0..10_000 {
        if !step(words.next_word(), first, second, &mut done) {
            return false;
        }
        if done == (true, true) {
            return true;
        }
    }
    false
}

/// What a shard left.
fn left_of(ran: &Ran, shard: usize) -> Option<Left<'_>> {
    Some(Left {
        journal: ran.journals().get(shard)?.entries(),
        log: ran.logs().get(shard)?,
    })
}

/// None where two nodes did not leave what is right; else whether the second did its own first.
fn judge(alloc: Global, trace: &Trace, ran: &Ran) -> Result<Option<bool>, AllocError> {
    let (Some(first), Some(second)) = (left_of(ran, 0), left_of(ran, 1)) else {
        return Ok(None);
    };
    if !are_right(alloc, trace, first, second)? {
        return Ok(None);
    }
    Ok(Some(second.journal.first() == Some(&Entry::Done(2))))
}

/// Plays two nodes in an order that is drawn, and finishes them. False where they do not get done, or a block is not at home.
fn play_two<'f>(
    words: &mut Lcg64Xsh32,
    mut first: Trial<'f>,
    mut second: Trial<'f>,
    ran: &mut Ran,
) -> bool
    requires first { IsOfRun first 2 1536 ran.old }
    requires second { IsOfRun second 2 1536 ran.old }
{
    let are_done = play(words, &mut first, &mut second);
    let is_first_finished = first.finish(ran);
    let is_second_finished = second.finish(ran);
    are_done && is_first_finished && is_second_finished
}

/// Opens both nodes, and plays. None where something is wrong; else whether the second did its own first.
fn play_once<'f>(
    words: &mut Lcg64Xsh32,
    alloc: Global,
    trace: &'f Trace,
    homes: (&'f Foreign, &'f Foreign),
    seats: (OwnerSeat, OwnerSeat),
) -> Result<Option<bool>, Fail>
    requires two { trace.now.shards ≡ 2 }
    requires owners { (homes.0.now.owner ≡ 0) × (homes.1.now.owner ≡ 1) }
    requires first { IsAtRest homes.0.now seats.0 }
    requires second { IsAtRest homes.1.now seats.1 }
{
    let mut ran = Ran::new(alloc, trace, 2, 1536)?;
    let first = Trial::open(alloc, 0, trace, homes.0, seats.0)?;
    let second = match Trial::open(alloc, 1, trace, homes.1, seats.1) {
        Ok(second) => second,
        Err(error) => {
            drop(first);
            return Err(error);
        }
    };
    if !play_two(words, first, second, &mut ran) {
        return Ok(None);
    }
    Ok(judge(alloc, trace, &ran)?)
}

/// Makes the lists of both, and plays.
fn play_anew(words: &mut Lcg64Xsh32, alloc: Global, trace: &Trace) -> Result<Option<bool>, Fail>
    requires two { trace.now.shards ≡ 2 }
{
    let (first_home, first_seat) = Foreign::new(alloc, 0)?;
    let (second_home, second_seat) = Foreign::new(alloc, 1)?;
    let (homes, seats) = ((&first_home, &second_home), (first_seat, second_seat));
    play_once(words, alloc, trace, homes, seats)
}

/// In how many of a thousand orders the second did its own first. None where one of them gives what is not right.
fn count_own_first(alloc: Global, trace: &Trace) -> Result<Option<u32>, Fail>
    requires two { trace.now.shards ≡ 2 }
{
    let mut words = Lcg64Xsh32::new(1, 3);
    let mut own_first = 0u32;
    for _ in 0..1000 {
        let Some(own) = play_anew(&mut words, alloc, trace)? else {
            return Ok(None);
        };
        own_first = own_first.saturating_add(own as u32);
    }
    Ok(Some(own_first))
}

#[test]
fn two_nodes_do_what_is_right_in_any_order(rt: HostRuntime) -> Result<(), Fail> {
    for lines in [LINES, IN_TABLES] {
        let trace = parsed(&rt, rt.alloc(), lines, 2)?;
        let own_first = count_own_first(rt.alloc(), &trace)?;
        // Both happen.
        assert!(rt; own_first.is_some_and(|own_first| 0 < own_first && own_first < 1000));
    }
    Ok(())
}
