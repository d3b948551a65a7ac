//! Rows are put, and some of them erased.
ghost use Rattle.std.specs.Prelude.{◌≡◌, ◌≤◌, length};
ghost use Rattle.layout.specs.Sizes as sizes;

use layout::GREATEST_OBJECT;
use row_cache::RowCache;

/// The segments that stay free.
const FREE: u32 = 2;

/// The key of a row: its number.
pub fn key_of(row: u64) -> [u8; 8] {
    row.to_be_bytes()
}

/// Puts a row of table 0 into the active segment, and answers whether there is one and it had room.
fn put_row(cache: &mut RowCache, value: &[u8], row: u32, rows: u32) -> bool
    requires value { length value.now ≤ sizes.greatest_value }
    requires room { cache.old.room ≡ rows }
    ensures room { cache.new.room ≡ rows }
{
    if cache.rows() >= rows {
        return false;
    }
    cache
        .put(0, key_of(u64::from(row)).as_slice(), value, row)
        .is_ok()
}

/// Makes the next segment active where the active one is full or there is none, and answers whether it did.
fn go_on(cache: &mut RowCache) -> bool
    ensures room { cache.new.room ≡ cache.old.room }
{
    let group = cache.group_of(0);
    if cache.free_segments() <= FREE || cache.left(group) >= GREATEST_OBJECT {
        return false;
    }
    cache.next_active(group);
    true
}

/// Puts so many rows, for which there is room, while more than two segments are free.
pub fn fill(cache: &mut RowCache, value: &[u8], rows: u32)
    requires value { length value.now ≤ sizes.greatest_value }
    requires room { cache.old.room ≡ rows }
{
    for row in 0..rows {
        if !put_row(cache, value, row, rows) && go_on(cache) {
            put_row(cache, value, row, rows);
        }
    }
}

/// Erases rows of so many until `kept` of a hundred are there. Each is as likely to be erased as any other.
pub fn erase_some(cache: &mut RowCache, rows: u32, kept: u32) {
    let rows = u64::from(rows);
    let mut wanted = rows.saturating_sub(rows * u64::from(kept) / 100);
    let mut number: u64 = 1;
    for row in 0..rows {
        number = number
            .wrapping_mul(6_364_136_223_846_793_005)
            .wrapping_add(1_442_695_040_888_963_407);
        if (number >> 33) % (rows - row) < wanted {
            cache.erase(0, key_of(row).as_slice());
            wanted -= 1;
        }
    }
}
