//! Counts of commands by shard and kind.
ghost use Rattle.std.specs.Prelude.{◌≡◌, ◌==◌, ℕ, ◌+◌, ◌<◌, ◌≤◌, slice_index_or, if◌then◌else◌};
ghost use Rattle.trace_text.specs.Parts.{most_shards};
ghost use Rattle.trace_text.specs.Reading.{most_commands};
ghost use Rattle.trace_text.specs.inside.ShardCounts.{AreFew, code, slot};

use rows::Kind;

/// Kinds of commands.
const KINDS: usize = 4;

/// How many commands of each kind a shard has, for each of at most 16 shards.
#[derive(Clone, Copy)]
pub(crate) struct ShardCounts {
    pub counts: [u32; 64],
}

impl ShardCounts {
    pub(crate) fn new() -> ShardCounts
        ensures { (at : ℕ) → slice_index_or result.counts at 0 ≡ 0 }
    {
        ShardCounts { counts: [0; 64] }
    }

    /// One command of this kind more for the shard.
    pub(crate) fn add(&mut self, shard: u32, kind: Kind)
        requires shard { shard < most_shards }
        requires few { AreFew self.old.counts }
        ensures { (at : ℕ) → slice_index_or self.new.counts at 0
            ≡ slice_index_or self.old.counts at 0 + (if slot shard kind == at then 1 else 0) }
    {
        self.counts[slot(shard, kind)] += 1;
    }

    /// The shard's commands of this kind.
    pub(crate) fn of(&self, shard: u32, kind: Kind) -> u32
        requires shard { shard < most_shards }
        ensures { result ≡ slice_index_or self.now.counts (slot shard kind) 0 }
    {
        self.counts[slot(shard, kind)]
    }

    /// The shard's commands that are no scans.
    pub(crate) fn other_than_scans(&self, shard: u32) -> u32
        requires shard { shard < most_shards }
        requires few { AreFew self.now.counts }
        ensures { result ≡ slice_index_or self.now.counts (slot shard Kind.Put) 0
            + slice_index_or self.now.counts (slot shard Kind.Get) 0
            + slice_index_or self.now.counts (slot shard Kind.Erase) 0 }
    {
        self.of(shard, Kind::Put) + self.of(shard, Kind::Get) + self.of(shard, Kind::Erase)
    }
}

/// Where the count of a shard's commands of a kind stands.
fn slot(shard: u32, kind: Kind) -> usize
    requires { shard < most_shards }
    ensures { result ≡ slot shard kind }
{
    shard as usize * KINDS + code(kind)
}

fn code(kind: Kind) -> usize
    ensures value { result ≡ code kind }
    ensures below { result < 4 }
{
    match kind {
        Kind::Put => 0,
        Kind::Get => 1,
        Kind::Erase => 2,
        Kind::Scan => 3,
    }
}
