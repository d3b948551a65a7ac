//! What a shard does on its store, with its journal.
ghost use Rattle.std.specs.Prelude.{◌≡◌, ◌⊎◌, ◌+◌, ◌<◌, ◌≤◌, [], ◌∷◌, length, true};
ghost use Rattle.cache_model.specs.declared.entry.Entry.{Entry as Entries};
ghost use Rattle.rows.specs.Apply.{has};
ghost use Rattle.rows.specs.Key.{key_shown};
ghost use Rattle.row_cache.specs.Rows.{reply_of};
ghost use Rattle.rows.specs.Askable.{IsAskable};
ghost use Rattle.rows.specs.Operations.{put_of};
ghost use Rattle.shard_store.specs.Lending.{TakesBack};
ghost use Rattle.run_log.specs.Recorded.{Records};
ghost use Rattle.shard_store.specs.Stores.{IsUnguarded};
ghost use Rattle.shard_store.specs.Works.{pressure};
ghost use Rattle.shard_node.specs.inside.Did.{DoesAbove};

use cache_model::Entry;
use rows::Key;
use run_log::Journal;
use shard_store::{Put, ShardStore};

/// Writes down that a command is done.
pub(crate) fn note_done(journal: &mut Journal, number: u32)
    requires { 1 ≤ journal.old.spare }
    ensures { Records journal.old journal.new (Entries.Done number ∷ []) }
{
    journal.add(Entry::Done(number));
}

/// Stores a row, and writes down that its put is done, behind the evictions that it took.
pub(crate) fn put_row(
    store: &mut ShardStore<'_>,
    number: u32,
    key: Key<'_>,
    value: &[u8],
    journal: &mut Journal,
) -> Put
    // What is asked, with no guard standing.
    requires askable { IsAskable (put_of number (key_shown key) value.now) }
    requires unguarded { IsUnguarded store.old }

    // Nothing it writes lacks room.
    requires tables { (has (key_shown key) store.old.rows ≡ true) ⊎ (length store.old.rows < store.old.room) }
    requires spare { length store.old.rows + 1 ≤ journal.old.spare }

    // What it does, answers and writes down.
    ensures does { DoesAbove (pressure store.old.pages store.old.lent store.old.regions) (put_of number (key_shown key.entry) value.now)
        (reply_of result) store.old store.new journal.old journal.new }
    ensures came { TakesBack store.old store.new }
{
    let did = store.put(key.table, key.bytes, value, number, journal);
    note_done(journal, number);
    did
}
