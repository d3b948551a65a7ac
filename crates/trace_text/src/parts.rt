//! Where the parts of a command are issued and done.
ghost use Rattle.std.specs.Prelude.{◌≡◌, ℕ, ◌+◌, ◌%◌, ◌<◌, ◌≤◌, List, length, count_by, fold, max, if◌then◌else◌, All};
ghost use Rattle.trace_text.specs.Parsed.{LiesWithin, trace_in};
ghost use Rattle.trace_text.specs.Operation.{operations};
ghost use Rattle.rows.specs.Operation.{is_get, is_scan};
ghost use Rattle.trace_text.specs.Parts.{most_shards, hash, owner, origin, own_parts, longest_value, replies_room};
ghost use Rattle.trace_text.specs.PartCounts.{issued, done_at, here_parts, here_puts, reply_bytes};
ghost use Rattle.trace_text.specs.Reading.{most_commands, version_in};
ghost use Rattle.trace_text.specs.Trace.{trace_with};

use crate::command_list::CommandList;
use crate::trace::Trace;
use layout::SCAN_ROOM;
use rows::Kind;

/// The most shards of a run.
pub const MOST_SHARDS: u32 = 16;

const OFFSET: u64 = 14_695_981_039_346_656_037;

const PRIME: u64 = 1_099_511_628_211;

fn hash(key: &[u8]) -> u64
    ensures { result ≡ hash key.now }
{
    key.iter().fold(OFFSET, |hash, b| (hash ^ u64::from(*b)).wrapping_mul(PRIME))
}

/// The shard that owns a key, of `shards` shards, 1 to 16: the FNV-1a hash of 64 bits of the key's bytes, modulo their
/// number. A key's table plays no part. The rule is this project's own.
pub fn owner_of(key: &[u8], shards: u32) -> u32
    requires some { 1 ≤ shards }
    requires most { shards ≤ most_shards }
    ensures { result ≡ owner key.now shards }
{
    // Most runs have one shard.
    if shards == 1 {
        return 0;
    }
    (hash(key) % u64::from(shards)) as u32
}

/// The shard at which a command is issued, of `shards` shards, 1 to 16: they take turns, in the order of the
/// commands' numbers, which begin with 1. The rule is this project's own.
pub fn origin_of(number: u32, shards: u32) -> u32
    requires number { 1 ≤ number }
    requires some { 1 ≤ shards }
    requires most { shards ≤ most_shards }
    ensures { result ≡ origin number shards }
{
    (number - 1) % shards
}

/// What a shard will need for a trace.
#[derive(Clone, Copy, Debug, PartialEq, Eq)]
pub struct Needs {
    /// The parts that the shard issues.
    pub own_parts: u32,
    /// The parts that are done at the shard.
    pub here_parts: u32,
    /// The puts whose key the shard owns.
    pub here_puts: u32,
    /// Room for the replies to what the shard issues, in bytes: the trace's longest value for each get, and
    /// [`SCAN_ROOM`] bytes for each part of a scan.
    pub reply_bytes: u32,
}

impl Trace {
    /// What a shard will need for this trace: counts of parts, of puts, and bytes. `shards` is the number that the
    /// trace was parsed for, and shards are numbered from 0.
    pub fn needs(&self, shard: u32, shards: u32) -> Needs
        requires below { shard < shards }
        requires parsed_for { shards ≡ self.now.shards }

        // The counts are those of the commands of the trace.
        ensures issued { result.own_parts ≡ issued (trace_in self.now) shards shard }
        ensures done_here { result.here_parts ≡ done_at (trace_in self.now) shards shard }

        // Each as its definition says.
        ensures own_parts { result.own_parts ≡ own_parts (trace_in self.now) shards shard }
        ensures here_parts { result.here_parts ≡ here_parts (trace_in self.now) shards shard }
        ensures here_puts { result.here_puts ≡ here_puts (trace_in self.now) shards shard }
        ensures reply_bytes { result.reply_bytes ≡ reply_bytes (trace_in self.now) shards shard }
    {
        self.commands();
        let scans = self.commands.scans() as u32;
        let own_gets = self.issued.of(shard, Kind::Get);
        let own_scans = self.issued.of(shard, Kind::Scan);
        Needs {
            own_parts: self.issued.other_than_scans(shard) + own_scans * shards,
            here_parts: self.owned.other_than_scans(shard) + scans,
            here_puts: self.owned.of(shard, Kind::Put),
            reply_bytes: own_gets * self.longest_value() + own_scans * (shards * SCAN_ROOM),
        }
    }

    /// The length of the longest value that a command of this trace has, in bytes: 0 to 12,000. No value that a shard
    /// replies is longer.
    pub fn longest_value(&self) -> u32
        ensures { result ≡ longest_value (trace_in self.now) }
    {
        self.commands.longest_value()
    }
}

/// The room for all replies to these commands, with so many shards, in bytes: the longest value for each get, and
/// [`SCAN_ROOM`] bytes for each shard's part of a scan.
pub(crate) fn replies_room(commands: &CommandList, shards: u32) -> u64
    requires few { length commands.now ≤ most_commands }
    requires most { shards ≤ most_shards }
    ensures { (bytes : List ℕ) → All (LiesWithin bytes) commands.now
        → result ≡ replies_room (trace_with (version_in bytes) (operations bytes commands.now)) shards }
{
    let gets = commands.gets() as u64;
    let scans = commands.scans() as u64;
    gets * u64::from(commands.longest_value()) + scans * u64::from(shards * SCAN_ROOM)
}

/// The origin of the command behind one of this origin.
pub(crate) fn origin_after(origin: u32, shards: u32) -> u32
    requires below { origin < shards }
    requires most { shards ≤ most_shards }
    ensures { (at : ℕ) → origin ≡ at % shards → result ≡ (at + 1) % shards }
{
    if origin + 1 == shards { 0 } else { origin + 1 }
}
