//! The keys that the shards found in a scan.
ghost use Rattle.std.specs.Prelude.{◌≡◌, ◌+◌, ◌^◌, ◌<◌, ◌≤◌, ℕ, List, length, map, Some};
ghost use Rattle.std.specs.List.{slice_get};
ghost use Rattle.layout.specs.Sizes.{most_keys};
ghost use Rattle.cache_model.specs.Answer.{join};
ghost use Rattle.rows.specs.Apply.{Keys};
ghost use Rattle.rows.specs.KeyBody.{AreKeys};
ghost use Rattle.rows.specs.Spelled.{spelled};
ghost use Rattle.report_text.specs.inside.Found.{AreFoundAt, HasFound};

use crate::merging::{Found, first_of_both};
use run_log::{ReplyLog, next_key};

/// The keys of a body.
fn keys_of(body: &[u8]) -> Found<'_>
    requires keys { (keys : List (List ℕ)) × AreKeys body.now keys × (length keys ≤ most_keys) }
    requires short { length body.now < 2 ^ 32 }
    ensures { (keys : List (List ℕ)) → AreKeys body.now keys → map (λ key. key.now) result.items ≡ keys }
{
    let mut keys = Found::new();
    let mut at = 0;
    while let Some(span) = next_key(body, at) {
        let end = span.start + span.len;
        keys.push(&body[span.start as usize..end as usize]);
        at = end;
    }
    keys
}

/// The body of a reply of keys.
fn keys_at(log: &ReplyLog, part: u32) -> &[u8]
    requires { (keys : List (List ℕ)) × (slice_get log.now.replies part ≡ Some (Some (spelled (Keys keys)))) }
    ensures keys { (keys : List (List ℕ)) → slice_get log.now.replies part ≡ Some (Some (spelled (Keys keys)))
        → result.now ≡ (spelled (Keys keys)).1 }
    ensures short { length result.now < 2 ^ 32 }
{
    let (_, body) = log.reply(part).unwrap();
    body
}

/// The keys that one shard found.
fn shard_keys(log: &ReplyLog, part: u32) -> Found<'_>
    requires { (keys : List (List ℕ)) × AreFoundAt log.now.replies part keys }
    ensures { (keys : List (List ℕ)) → AreFoundAt log.now.replies part keys → map (λ key. key.now) result.items ≡ keys }
{
    keys_of(keys_at(log, part))
}

/// The first `count` keys, in the order of their bytes, of those that `shards` shards found, whose replies stand in a log
/// from a part on.
pub(crate) fn joined_keys(log: &ReplyLog, first: u32, shards: u32, count: u32) -> Found<'_>
    requires few { count ≤ most_keys }
    requires small { first + shards < 2 ^ 32 }
    requires replied { (lists : List (List (List ℕ))) × HasFound log.now.replies first shards lists }
    ensures { (lists : List (List (List ℕ))) → HasFound log.now.replies first shards lists
        → map (λ key. key.now) result.items ≡ join count lists }
{
    let mut found = Found::new();
    for part in first..first + shards {
        let keys = shard_keys(log, part);
        found = first_of_both(keys.as_slice(), found.as_slice(), count);
    }
    found
}
