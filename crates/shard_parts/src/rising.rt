//! Whether the keys of a reply are those that a scan can find.
ghost use Rattle.std.specs.Prelude.{◌≡◌, ℕ, ◌+◌, ◌<◌, ◌≤◌, ◌^◌, ◌↔◌, List, length, IsTrue, All, true};
ghost use Rattle.std.specs.Ordering.{nat_cmp};
ghost use Rattle.std.specs.Cmp.Lexicographic.{slice_cmp};
ghost use Rattle.std.specs.List.Sorted.{IsStrictlySortedBy};
ghost use Rattle.rows.specs.Apply.{is_at_most};
ghost use Rattle.rows.specs.KeyBody.{AreKeys};
ghost use Rattle.shard_parts.specs.inside.Rising.{may_follow, rise};

use run_log::next_key;

/// Whether the keys of a body rise strictly, the first of them at `from` or above it.
pub(crate) fn rise(body: &[u8], from: &[u8]) -> bool
    requires keys { (keys : List (List ℕ)) × AreKeys body.now keys }
    requires short { length body.now < 2 ^ 32 }
    ensures { (keys : List (List ℕ)) → AreKeys body.now keys → result ≡ rise true from.now keys }
{
    let mut before = from;
    let mut is_first = true;
    let mut at = 0;
    while let Some(span) = next_key(body, at) {
        let start = span.start as usize;
        let key = &body[start..start + span.len as usize];
        if !may_follow(is_first, before, key) {
            return false;
        }
        before = key;
        is_first = false;
        at = span.start + span.len;
    }
    true
}

/// Whether the key may come behind the other: above it, or, where it is the first, at the other or above it.
fn may_follow(is_first: bool, before: &[u8], key: &[u8]) -> bool
    ensures { result ≡ may_follow is_first before.now key.now }
{
    let order = before.cmp(key);
    if is_first {
        order.is_le()
    } else {
        order.is_lt()
    }
}
