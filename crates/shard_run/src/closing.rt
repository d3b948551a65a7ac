//! The end of the pairs of all shards.
ghost use Rattle.std.specs.Prelude.{◌≡◌, length};
ghost use Rattle.shard_run.specs.Closing.{ArePaired, WereExchanged};
ghost use Rattle.shard_run.specs.inside.Parting.{AllPaired, AllPart, EndsWithPairOf, Parts};

use shard_rings::{RingLink, close_pair};

/// Ends the pairs of all shards. For each two shards, what one received on a lane is a prefix of what the other sent on it: so it
/// is the same list where as many packets were received as were sent.
pub fn close_links<'f>(mut links: Vec<Vec<RingLink<'f>>>)
    requires { ArePaired links.items }
    ensures { WereExchanged links.entry.items }
{
    while let Some(own) = links.pop() {
        close_with(links.as_mut_slice(), own);
    }
}

/// Ends the pairs of one shard: each other one gives up its last end, which leads to it.
fn close_with<'f>(links: &mut [Vec<RingLink<'f>>], mut own: Vec<RingLink<'f>>)
    requires one_each { length own.items ≡ length links.old }
    requires pairs { AllPaired links.old own.items }
    ensures { AllPart links.old links.new own.entry.items }
{
    while let Some(end) = own.pop() {
        close_last(&mut links[own.len()], end);
    }
}

/// Ends the pair of a shard's last end.
fn close_last<'f>(shard: &mut Vec<RingLink<'f>>, other: RingLink<'f>)
    requires { EndsWithPairOf shard.old.items other }
    ensures { Parts shard.old.items shard.new.items other.entry }
{
    close_pair(shard.pop().unwrap(), other);
}
