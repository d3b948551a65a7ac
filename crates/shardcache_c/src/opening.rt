//! What a cache can be opened with.
ghost use Rattle.std.specs.Prelude.{◌≡◌, ◌≢◌, ◌↔◌, ◌⊎◌, ◌-◌, ◌^◌, ◌<◌, ◌≤◌, true, IfOk, IfErr};
ghost use Rattle.layout.specs.Sizes as sizes;
ghost use Rattle.embedded_cache.specs.States.{most_waiting};
ghost use Rattle.shardcache_c.specs.Handles.{IsAsked};
ghost use Rattle.shardcache_c.specs.Refusals.{RefusesSizes};

use crate::codes::{BAD_BOUND, BAD_SIZE};
use embedded_cache::{MOST_WAITING, Opening, most_bound};
use layout::{FEWEST_PAGES, FEWEST_TABLE_PAGES, MOST_PAGES, SEGMENT_PAGES, TABLES};

/// What a cache of these numbers is opened with, where a bound of 0 stands for the greatest one, and 0 rows that may wait for the
/// usual number. Else the code of what is wrong.
pub(crate) fn opening_of(
    pages: u32,
    rows: u32,
    groups: u32,
    bound: u64,
    waiting: u32,
    wide: bool,
) -> Result<Opening, u32>
    ensures asked { IfOk result (IsAsked pages rows groups bound waiting wide) }
    ensures code { IfErr result (λ code. (code ≢ 0) × RefusesSizes code pages rows groups bound) }
{
    if !are_pages(pages) {
        return Err(BAD_SIZE);
    }
    if !are_rows(rows) {
        return Err(BAD_SIZE);
    }
    if !are_groups(pages, groups) {
        return Err(BAD_SIZE);
    }
    let most = most_bound(pages, groups);
    if bound > most {
        return Err(BAD_BOUND);
    }
    Ok(Opening {
        shard: 0,
        pages,
        rows,
        regions: groups,
        bound: bound_of(bound, most),
        waiting: waiting_of(waiting),
        wide,
    })
}

// The bound, or the greatest one in place of 0.
fn bound_of(bound: u64, most: u64) -> u64
    requires { bound ≤ most }
    ensures most { result ≤ most }
    ensures asked { bound ≢ 0 → result ≡ bound }
    ensures default { bound ≡ 0 → result ≡ most }
{
    if bound == 0 { most } else { bound }
}

// How many rows may wait, or the usual number in place of 0.
fn waiting_of(waiting: u32) -> u32
    ensures asked { waiting ≢ 0 → result ≡ waiting }
    ensures default { waiting ≡ 0 → result ≡ most_waiting }
{
    if waiting == 0 { MOST_WAITING } else { waiting }
}

fn are_pages(pages: u32) -> bool
    ensures { result ≡ true ↔ sizes.ArePages pages }
{
    pages >= FEWEST_PAGES && pages <= MOST_PAGES && pages % SEGMENT_PAGES == 0
}

fn are_rows(rows: u32) -> bool
    ensures { result ≡ true ↔ (1 ≤ rows) × (rows < 2 ^ 32 - 1) }
{
    rows != 0 && rows != u32::MAX
}

fn are_groups(pages: u32, groups: u32) -> bool
    ensures { result ≡ true ↔ (groups ≡ 1) ⊎ ((groups ≡ sizes.tables) × (sizes.fewest_table_pages ≤ pages)) }
{
    groups == 1 || groups == TABLES && pages >= FEWEST_TABLE_PAGES
}
