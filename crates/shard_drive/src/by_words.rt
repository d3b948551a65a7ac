//! Driving in an order that is drawn from a number.
ghost use Rattle.std.specs.Prelude.{◌≡◌, ◌<◌, ◌%◌, length, All};
ghost use Rattle.shard_node.specs.Standing.{InStanding};
ghost use Rattle.shard_node.specs.Turns.{IsDone, IsSameNode};
ghost use Rattle.shard_drive.specs.Drives.{AtEach};
ghost use Rattle.shard_drive.specs.Words.{FollowsWords, behind, first_state, word};

use crate::driven::{Driven, have_finished, turn_of, turns_are_counts};
use rand_core::utils::NextWord;
use rand_pcg::Lcg64Xsh32;
use shard_node::{Gate, Node};
use shard_rings::Link;
use std::sync::Wait;

/// The stream of words that name the nodes.
const STREAM: u64 = 1;

/// Drives the nodes on one thread until all are done: each turn goes to the node that the next word of the number names. Before
/// each it looks whether all are done. It returns only then, and that it returns is not promised.
pub fn drive_numbered<'f, R: Wait, L: Link<'f> + Drop, G: Gate + Drop>(
    rt: &R,
    nodes: &mut [Node<'f, L, G>],
    number: u32,
)
    requires some { 0 < length nodes.old }
    requires standing { All (InStanding L.traffic) nodes.old }
    ensures standing { All (InStanding L.traffic) nodes.new }
    ensures done { All (IsDone L.traffic G.holds) nodes.new }
    ensures same { AtEach (λ _. IsSameNode L.end) nodes.old nodes.new }
    ensures turns { FollowsWords (λ node. node.turns) number nodes.old nodes.new }
{
    finish_numbered(rt, nodes, number);
}

/// Drives all until they are done: each turn goes to the one that the next word names.
pub(crate) fn finish_numbered<R: Wait, N: Driven>(rt: &R, nodes: &mut [N], number: u32)
    requires some { 0 < length nodes.old }
    requires stands { All N.stands nodes.old }
    ensures stands { All N.stands nodes.new }
    ensures done { All N.is_done nodes.new }
    ensures lasting { AtEach (λ _ a b. N.lasting b ≡ N.lasting a) nodes.old nodes.new }
    ensures turns { FollowsWords N.turns number nodes.old nodes.new }
{
    // So before the first turn no count stands above what it can count to.
    turns_are_counts(nodes);
    let mut words = words_of(number);
    'turns: for _ in rt.forever() {
        if have_finished(nodes) {
            return;
        }
        let k = next_of(&mut words, nodes.len());
        turn_of(nodes, k);
    }
    unreachable!()
}

/// The words of a number, before the first of them.
fn words_of(number: u32) -> Lcg64Xsh32
    ensures { result ≡ first_state number }
{
    Lcg64Xsh32::new(u64::from(number), STREAM)
}

/// Which of so many nodes the next word names.
fn next_of(words: &mut Lcg64Xsh32, nodes: usize) -> usize
    requires { 0 < nodes }
    ensures node { result ≡ word words.old % nodes }
    ensures words { words.new ≡ behind words.old }
{
    words.next_word() as usize % nodes
}
