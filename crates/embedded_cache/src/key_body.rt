//! Where a scan with values has its keys.
ghost use Rattle.std.specs.Prelude.{◌≡◌, ◌*◌, ◌<◌, ◌≤◌, length, take};
ghost use Rattle.layout.specs.Sizes.{key_room, most_keys, tables};
ghost use Rattle.rows.specs.Apply as apply;
ghost use Rattle.rows.specs.Key.{in_table};
ghost use Rattle.rows.specs.KeyBody.{AreKeys};
ghost use Rattle.shard_store.specs.Stores.{IsUnguarded};

use layout::{KEY_ROOM, MOST_KEYS};
use shard_store::ShardStore;
use std::alloc::{AllocError, Global};

// The keys of the last scan, in front of as many bytes as the keys of one scan can take.
#[derive(Drop)]
pub(crate) struct KeyBody {
    bytes: Vec<u8>,
    ghost room: { length bytes.items ≡ key_room * most_keys },
}

impl KeyBody {
    pub(crate) fn new(alloc: Global) -> Result<KeyBody, AllocError> {
        let bytes = vec![in alloc; 0; (KEY_ROOM * MOST_KEYS) as usize]?;
        Ok(KeyBody { bytes })
    }

    // Writes the first keys of a table at or above one to the front, and answers how many bytes they take.
    pub(crate) fn fill(
        &mut self,
        store: &mut ShardStore<'_>,
        table: u8,
        from: &[u8],
        count: u32,
    ) -> u32
        // Some keys, with no guard standing.
        requires table { table < tables }
        requires some { 1 ≤ count }
        requires most { count ≤ most_keys }
        requires unguarded { IsUnguarded store.old }

        // What is in front then.
        ensures keys { AreKeys (take result self.new.bytes.items) (apply.scanned (in_table table from.now) count store.old.rows) }
        ensures within { result ≤ length self.new.bytes.items }

        // Of the store nothing changes.
        ensures unchanged { store.new ≡ store.old }
    {
        store
            .scan(table, from, count, self.bytes.as_mut_slice())
            .bytes
    }

    // The first so many bytes.
    pub(crate) fn front(&self, len: u32) -> &[u8]
        requires { len ≤ length self.now.bytes.items }
        ensures { result.now ≡ take len self.now.bytes.items }
    {
        &self.bytes[..len as usize]
    }
}
