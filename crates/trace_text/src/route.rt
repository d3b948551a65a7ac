//! Where a command goes.
ghost use Rattle.std.specs.Prelude.{◌≡◌, ◌==◌, ◌≤◌, true, if◌then◌else◌};
ghost use Rattle.rows.specs.Operation.{is_scan};
ghost use Rattle.trace_text.specs.Parts.{most_shards};
ghost use Rattle.trace_text.specs.inside.Routes.{route_of};

use crate::parts::owner_of;
use rows::Kind;

/// Where a command goes: to the owner of its key, or, where its kind is that of a scan, to each shard. It is written down
/// once, so that whoever looks for the commands of a shard reads neither the commands nor their keys.
#[derive(Clone, Copy, Debug)]
pub struct Route {
    pub kind: Kind,
    pub owner: u8,
}

impl Route {
    /// Where a command of this kind with this key goes, of `shards` shards, 1 to 16.
    pub fn new(kind: Kind, key: &[u8], shards: u32) -> Route
        requires some { 1 ≤ shards }
        requires most { shards ≤ most_shards }
        ensures { result ≡ route_of shards kind key.now }
    {
        Route {
            kind,
            owner: owner_of(key, shards) as u8,
        }
    }

    /// Whether the shard owns the key.
    pub fn is_owned_by(self, shard: u32) -> bool
        ensures { result ≡ (self.owner == shard) }
    {
        u32::from(self.owner) == shard
    }

    /// Whether the shard does a part.
    pub fn has_part(self, shard: u32) -> bool
        ensures { result ≡ (if is_scan self.kind then true else self.owner == shard) }
    {
        self.kind.is_scan() || self.is_owned_by(shard)
    }
}
