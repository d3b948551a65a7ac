// Blocks that go to another owner over a link, who reads and releases them.
ghost use Rattle.std.specs.Prelude.{◌≡◌};
ghost use Rattle.foreign_list.specs.OwnerSeats.{IsAtRest};

use super::{Trial, value_in};
use foreign_list::{Foreign, OwnerSeat};
use shard_rings::{Lane, Link, Packet, RingLink, ring_links};
use shard_store::Put;
use std::alloc::Global;
use std::test::Fail;

// The last end of the last shard that is left.
fn last_end<'f>(shards: &mut Vec<Vec<RingLink<'f>>>) -> Option<RingLink<'f>> {
    let Some(mut ends) = shards.pop() else {
        return None;
    };
    let end = ends.pop();
    drop(ends);
    end
}

// The two ends of a link.
fn both_ends<'f>(alloc: Global) -> Result<(RingLink<'f>, RingLink<'f>), Fail> {
    let mut shards = ring_links(alloc, 2)?;
    match (last_end(&mut shards), last_end(&mut shards)) {
        (Some(end), Some(other)) => Ok((end, other)),
        _ => Err(Fail::new("a link has no end")),
    }
}

// Whether the other owner gets a block with this value, and releases it.
fn reads<'f>(link: &mut RingLink<'f>, found: Option<u32>, value: Option<&[u8]>) -> bool {
    match link.receive(Lane::Replies) {
        Some(Packet::Block(block)) => {
            value_in(block.bytes(), found) == value && block.release().is_ok()
        }
        _ => false,
    }
}

impl<'f> Trial<'f> {
    // Whether a block with the value of a key goes over a link, and comes home.
    fn passes(
        &mut self,
        near: &mut RingLink<'f>,
        far: &mut RingLink<'f>,
        key: &[u8],
        value: Option<&[u8]>,
    ) -> bool {
        let Some((block, found)) = self.lend_value(key) else {
            return false;
        };
        let sent = near.send(Lane::Replies, Packet::Block(block)).is_ok();
        sent && reads(far, found, value) && self.store.take_back() == 1
    }
}

// Whether two blocks go so, and how many packets were sent and received on each lane.
fn passes_two<'f>(
    trial: &mut Trial<'f>,
    near: &mut RingLink<'f>,
    far: &mut RingLink<'f>,
) -> ([bool; 3], [u64; 4]) {
    let right = [
        trial.put(b"a", b"abc", 1) == Some(Put::Stored),
        trial.passes(near, far, b"a", Some(b"abc")),
        trial.passes(near, far, b"b", None),
    ];
    let counts = [
        near.sent_count(Lane::Replies),
        near.sent_count(Lane::Requests),
        far.received_count(Lane::Replies),
        far.received_count(Lane::Requests),
    ];
    (right, counts)
}

// The same of a new store, and whether no block is out then.
fn pass_in_new<'f>(
    alloc: Global,
    home: &'f Foreign,
    seat: OwnerSeat,
) -> Result<([bool; 3], [u64; 4], bool), Fail>
    requires owner { home.now.owner ≡ 0 }
    requires seat { IsAtRest home.now seat }
{
    let (mut near, mut far): (RingLink<'f>, RingLink<'f>) = both_ends(alloc)?;
    let mut trial = Trial::new(alloc, home, seat)?;
    let (right, counts) = passes_two(&mut trial, &mut near, &mut far);
    drop(near);
    drop(far);
    Ok((right, counts, trial.finish()))
}

#[test]
fn blocks_go_to_another_owner_and_come_home(rt: HostRuntime) -> Result<(), Fail> {
    let (home, seat) = Foreign::new(rt.alloc(), 0)?;
    let passed = pass_in_new(rt.alloc(), &home, seat)?;
    assert_eq!(rt; passed, ([true; 3], [2, 0, 2, 0], true));
    Ok(())
}
