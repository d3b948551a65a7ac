//! Evictions, written into the caller's memory.
ghost use Rattle.std.specs.Prelude.{◌≡◌, ◌^◌};

use rows::Evictions;

/// The tags of the rows that went, in order, in memory of the caller's. Those that did not fit are counted, and the count stands
/// at the greatest u64.
///
/// # Examples
/// ```
/// let mut tags = [0u32; 2];
/// let mut gone = EvictedTags::new(&mut tags);
/// let did = store.put(0, b"apple", b"red", 1, &mut gone);
/// let (told, missed) = (gone.told, gone.missed); // together, how many rows went for it
/// let tags = gone.into_tags(); // the first `told` are the tags of those that went first
/// ```
#[derive(Drop)]
pub struct EvictedTags<'a> {
    pub tags: &'a mut [u32],
    /// How many of `tags` were told.
    pub told: usize,
    /// How many did not fit.
    pub missed: u64,
}

impl<'a> EvictedTags<'a> {
    /// Nothing was told yet.
    pub fn new(tags: &'a mut [u32]) -> EvictedTags<'a>
        ensures same_reference { result.tags.ghost_name ≡ tags.entry.ghost_name }
        ensures tags { result.tags.now ≡ tags.entry.now }
        ensures told { result.told ≡ 0 }
        ensures missed { result.missed ≡ 0 }
    {
        EvictedTags {
            tags,
            told: 0,
            missed: 0,
        }
    }

    /// Gives the memory back. Whoever wants to know what stands in it afterwards ends with this.
    pub fn into_tags(self) -> &'a mut [u32]
        ensures same_reference { result.ghost_name ≡ self.entry.tags.ghost_name }
        ensures tags { result.now ≡ self.entry.tags.now }
    {
        let EvictedTags {
            tags,
            told: _,
            missed: _,
        } = self;
        tags
    }
}

impl<'a> Evictions for EvictedTags<'a> {
    ghost use Rattle.std.proofs.Common.{rules};
    ghost use Rattle.shard_store.specs.Tags.{IsWritten};

    ghost room = { λ _. 2 ^ 32 };

    ghost tells = { IsWritten };

    fn evicted(&mut self, tag: u32) {
        if self.told < self.tags.len() {
            self.tags[self.told] = tag;
            self.told += 1;
        } else {
            self.missed = self.missed.saturating_add(1);
        }
    }

    ghost takes_one = { Prim.search rules };
}
