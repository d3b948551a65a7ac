//! What an operation does.
ghost use Rattle.std.specs.Prelude.{◌≡◌, if◌then◌else◌};
ghost use Rattle.rows.specs.Operation.{is_get, is_scan};

/// What an operation does.
#[derive(Clone, Copy, Debug, PartialEq, Eq)]
pub enum Kind {
    Put,
    Get,
    Erase,
    Scan,
}

impl Kind {
    /// Whether such an operation looks the value of one key up.
    pub fn is_get(self) -> bool
        ensures { result ≡ is_get self }
    {
        matches!(self, Kind::Get)
    }

    /// Whether each shard does a part of such an operation. Another one is done by the owner of its key alone.
    pub fn is_scan(self) -> bool
        ensures { result ≡ is_scan self }
    {
        matches!(self, Kind::Scan)
    }

    /// How many parts such an operation has, with so many shards.
    pub fn parts(self, shards: u32) -> u32
        ensures { result ≡ (if is_scan self then shards else 1) }
    {
        if self.is_scan() { shards } else { 1 }
    }
}
