//! Blocks that are cut in two where they are full, and joined where they have few entries.
ghost use Rattle.std.specs.Prelude.{◌≡◌, ◌+◌, ◌<◌, ◌≤◌, ◌++◌, ◌∷◌, [], length, take, drop, slice_get, slice_set, All, IfNone, IfSome};
ghost use Rattle.key_index.specs.inside.Sizes.{block_room, half_block};
ghost use Rattle.key_index.specs.inside.Dense.{AreDense, HasLost};
ghost use Rattle.key_index.specs.inside.Kept.{AreInUse};
ghost use Rattle.key_index.specs.inside.Blocks.{entries_of, entries_at, front, lens_of, IsBlock, IsFit};
ghost use Rattle.std.specs.List.{insert, remove};

use crate::blocks::{BLOCK, Blocks, HALF};
use crate::entries::Entry;
use crate::place::Place;

/// The entry at a place, if there is one in its block.
pub(crate) fn entry_at(blocks: &Blocks, place: Place) -> Option<Entry>
    ensures { result ≡ slice_get (entries_at blocks.now.contents place.block) place.at }
{
    if place.block >= blocks.len() {
        return None;
    }
    let entries = blocks.entries(place.block);
    if place.at >= entries.len() {
        return None;
    }
    Some(entries[place.at])
}

/// Puts an entry at a place of a block that has room.
pub(crate) fn put(blocks: &mut Blocks, place: Place, entry: Entry)
    // There is space for an entry more.
    requires block { place.block < length blocks.old.contents }
    requires at { place.at ≤ length (entries_at blocks.old.contents place.block) }
    requires room { length (entries_at blocks.old.contents place.block) < block_room }
    requires are_blocks { All IsBlock blocks.old.contents }
    // One entry more, at the place.
    ensures entries { entries_of blocks.new.contents ≡ entries_of (take place.block blocks.old.contents)
        ++ (insert (entries_at blocks.old.contents place.block) place.at entry
        ++ entries_of (drop (place.block + 1) blocks.old.contents)) }
    // The blocks stay as many, none too empty.
    ensures are_blocks { All IsBlock blocks.new.contents }
    ensures dense { AreDense (lens_of blocks.old.contents) → AreDense (lens_of blocks.new.contents) }
    ensures len { length blocks.new.contents ≡ length blocks.old.contents }
    ensures most { blocks.new.most ≡ blocks.old.most }
{
    blocks.put(place, entry);
}

/// Cuts a full block in two, and answers which block has its upper half.
fn cut(blocks: &mut Blocks, at: usize) -> usize
    // A block to cut, and room for another.
    requires block { at < length blocks.old.contents }
    requires full { length (entries_at blocks.old.contents at) ≡ block_room }
    requires room { length blocks.old.contents < blocks.old.most }
    requires are_blocks { All IsBlock blocks.old.contents }
    // Its halves stand side by side.
    ensures behind { result ≡ at + 1 }
    ensures before { entries_of (take at blocks.new.contents) ≡ entries_of (take at blocks.old.contents) }
    ensures upto { entries_of (take (at + 1) blocks.new.contents) ≡ entries_of (take at blocks.old.contents)
        ++ take half_block (entries_at blocks.old.contents at) }
    ensures low { entries_at blocks.new.contents at ≡ take half_block (entries_at blocks.old.contents at) }
    ensures high { entries_at blocks.new.contents (at + 1) ≡ drop half_block (entries_at blocks.old.contents at) }
    // Together the blocks hold the same.
    ensures entries { entries_of blocks.new.contents ≡ entries_of blocks.old.contents }
    ensures lens { lens_of blocks.new.contents ≡ take at (lens_of blocks.old.contents)
        ++ half_block ∷ half_block ∷ drop (at + 1) (lens_of blocks.old.contents) }
    // One more is in use.
    ensures are_blocks { All IsBlock blocks.new.contents }
    ensures more { length blocks.new.contents ≡ length blocks.old.contents + 1 }
    ensures most { blocks.new.most ≡ blocks.old.most }
{
    let behind = blocks.open_behind(at);
    blocks.append(behind, at, HALF);
    blocks.shorten(at, HALF);
    behind
}

/// Cuts a full block in two, and answers where a place in it is then.
fn split(blocks: &mut Blocks, place: Place) -> Place
    // A block to cut, and room for another.
    requires block { place.block < length blocks.old.contents }
    requires at { place.at ≤ block_room }
    requires full { length (entries_at blocks.old.contents place.block) ≡ block_room }
    requires room { length blocks.old.contents < blocks.old.most }
    requires are_blocks { All IsBlock blocks.old.contents }
    // Where the place is then.
    ensures block { result.block < length blocks.new.contents }
    ensures at { result.at ≤ half_block }
    ensures half { length (entries_at blocks.new.contents result.block) ≡ half_block }
    ensures front { front blocks.new.contents result.block result.at ≡ front blocks.old.contents place.block place.at }
    // Together the blocks hold the same.
    ensures entries { entries_of blocks.new.contents ≡ entries_of blocks.old.contents }
    ensures lens { lens_of blocks.new.contents ≡ take place.block (lens_of blocks.old.contents)
        ++ half_block ∷ half_block ∷ drop (place.block + 1) (lens_of blocks.old.contents) }
    // One more is in use.
    ensures are_blocks { All IsBlock blocks.new.contents }
    ensures most { blocks.new.most ≡ blocks.old.most }
{
    let behind = cut(blocks, place.block);
    if place.at <= HALF {
        return place;
    }
    Place {
        block: behind,
        at: place.at - HALF,
        skip: place.skip,
    }
}

/// Sees to it that the block of a place has room, and answers where the place is then.
pub(crate) fn make_room(blocks: &mut Blocks, place: Place) -> Place
    // A place, and room for another block.
    requires block { place.block < length blocks.old.contents }
    requires at { place.at ≤ length (entries_at blocks.old.contents place.block) }
    requires room { length blocks.old.contents < blocks.old.most }
    requires are_blocks { All IsBlock blocks.old.contents }
    requires dense { AreDense (lens_of blocks.old.contents) }
    // Where the place is then.
    ensures block { result.block < length blocks.new.contents }
    ensures at { result.at ≤ length (entries_at blocks.new.contents result.block) }
    ensures room { length (entries_at blocks.new.contents result.block) < block_room }
    ensures front { front blocks.new.contents result.block result.at ≡ front blocks.old.contents place.block place.at }
    // Together the blocks hold the same.
    ensures entries { entries_of blocks.new.contents ≡ entries_of blocks.old.contents }
    // No block is too empty.
    ensures are_blocks { All IsBlock blocks.new.contents }
    ensures dense { AreDense (lens_of blocks.new.contents) }
    ensures most { blocks.new.most ≡ blocks.old.most }
{
    let len = blocks.entries(place.block).len();
    if len < BLOCK {
        return place;
    }
    split(blocks, place)
}

/// Takes a block into use, for an entry.
pub(crate) fn begin(blocks: &mut Blocks, entry: Entry)
    // No block is in use yet.
    requires empty { length blocks.old.contents ≡ 0 }
    requires room { 0 < blocks.old.most }
    // A block holds the entry alone.
    ensures entries { entries_of blocks.new.contents ≡ entry ∷ [] }
    ensures len { length blocks.new.contents ≡ 1 }
    ensures are_blocks { All IsBlock blocks.new.contents }
    ensures most { blocks.new.most ≡ blocks.old.most }
{
    let first = Place {
        block: 0,
        at: 0,
        skip: 0,
    };
    blocks.open_first();
    blocks.put(first, entry);
}

/// Takes the entry at a place out of its block, and answers how many the block has then.
fn drop_entry(blocks: &mut Blocks, place: Place) -> usize
    // A place where an entry stands.
    requires block { place.block < length blocks.old.contents }
    requires at { place.at < length (entries_at blocks.old.contents place.block) }
    requires are_blocks { All IsBlock blocks.old.contents }
    // The entry is gone from its block.
    ensures left { result + 1 ≡ length (entries_at blocks.old.contents place.block) }
    ensures entries { entries_of blocks.new.contents ≡ entries_of (take place.block blocks.old.contents)
        ++ (remove (entries_at blocks.old.contents place.block) place.at
        ++ entries_of (drop (place.block + 1) blocks.old.contents)) }
    ensures lens { lens_of blocks.new.contents ≡ slice_set (lens_of blocks.old.contents) place.block result }
    // As many blocks, one of them perhaps empty.
    ensures fit { All IsFit blocks.new.contents }
    ensures len { length blocks.new.contents ≡ length blocks.old.contents }
    ensures most { blocks.new.most ≡ blocks.old.most }
{
    blocks.drop_entry(place);
    blocks.entries(place.block).len()
}

/// Joins a block and the block behind it.
fn merge(blocks: &mut Blocks, at: usize, behind: usize)
    // Two neighbours with few entries.
    requires next { behind ≡ at + 1 }
    requires block { at + 1 < length blocks.old.contents }
    requires few { length (entries_at blocks.old.contents at) + length (entries_at blocks.old.contents (at + 1)) ≤ half_block }
    requires fit { All IsFit blocks.old.contents }
    // Together the blocks hold the same.
    ensures entries { entries_of blocks.new.contents ≡ entries_of blocks.old.contents }
    ensures lens { lens_of blocks.new.contents ≡ take at (lens_of blocks.old.contents)
        ++ (length (entries_at blocks.old.contents at) + length (entries_at blocks.old.contents (at + 1))) ∷ drop (at + 2)
        (lens_of blocks.old.contents) }
    // One block went out of use.
    ensures fit { All IsFit blocks.new.contents }
    ensures most { blocks.new.most ≡ blocks.old.most }
{
    blocks.append(at, behind, 0);
    blocks.close(behind);
}

/// The block behind a block, if the two have few entries together.
fn to_join(blocks: &Blocks, at: usize) -> Option<usize>
    requires block { at < length blocks.now.contents }
    ensures joins { IfSome result (λ behind. (behind ≡ at + 1) × (at + 1 < length blocks.now.contents) ×
        (length (entries_at blocks.now.contents at) + length (entries_at blocks.now.contents (at + 1)) ≤ half_block)) }
    ensures not { IfNone result (at + 1 < length blocks.now.contents
        → half_block < length (entries_at blocks.now.contents at) + length (entries_at blocks.now.contents (at + 1))) }
{
    if blocks.len() - at < 2 {
        return None;
    }
    let behind = at + 1;
    if blocks.entries(at).len() + blocks.entries(behind).len() > HALF {
        return None;
    }
    Some(behind)
}

/// Takes a block that has no entry out of use.
fn drop_block(blocks: &mut Blocks, at: usize)
    // A block without an entry.
    requires block { at < length blocks.old.contents }
    requires empty { length (entries_at blocks.old.contents at) ≡ 0 }
    requires fit { All IsFit blocks.old.contents }
    // Together the others hold the same.
    ensures entries { entries_of blocks.new.contents ≡ entries_of blocks.old.contents }
    ensures lens { lens_of blocks.new.contents ≡ remove (lens_of blocks.old.contents) at }
    // One block went out of use.
    ensures fit { All IsFit blocks.new.contents }
    ensures most { blocks.new.most ≡ blocks.old.most }
{
    blocks.close(at);
}

/// Mends the blocks after one has lost an entry: an empty block goes, and neighbours with few entries are joined.
/// Answers the block that is no longer in use.
fn settle(blocks: &mut Blocks, at: usize) -> Option<usize>
    // A block with an entry fewer.
    requires block { at < length blocks.old.contents }
    requires fit { All IsFit blocks.old.contents }
    requires lost { HasLost (lens_of blocks.old.contents) at }
    // Together the blocks hold the same.
    ensures entries { entries_of blocks.new.contents ≡ entries_of blocks.old.contents }
    // No block is too empty.
    ensures in_use { AreInUse blocks.new.contents }
    ensures most { blocks.new.most ≡ blocks.old.most }
{
    let len = blocks.entries(at).len();
    if len == 0 {
        drop_block(blocks, at);
        return Some(at);
    }
    if let Some(behind) = to_join(blocks, at) {
        merge(blocks, at, behind);
        return Some(behind);
    }
    if at == 0 {
        return None;
    }
    let before = at - 1;
    if let Some(behind) = to_join(blocks, before) {
        merge(blocks, before, behind);
        return Some(behind);
    }
    None
}

/// Takes the entry at a place out, and answers the block that is no longer in use then.
pub(crate) fn take_out(blocks: &mut Blocks, place: Place) -> Option<usize>
    // A place where an entry stands.
    requires block { place.block < length blocks.old.contents }
    requires at { place.at < length (entries_at blocks.old.contents place.block) }
    requires are_blocks { All IsBlock blocks.old.contents }
    requires dense { AreDense (lens_of blocks.old.contents) }
    // The entry is gone from its block.
    ensures entries { entries_of blocks.new.contents ≡ entries_of (take place.block blocks.old.contents)
        ++ (remove (entries_at blocks.old.contents place.block) place.at
        ++ entries_of (drop (place.block + 1) blocks.old.contents)) }
    // No block is too empty.
    ensures are_blocks { All IsBlock blocks.new.contents }
    ensures dense { AreDense (lens_of blocks.new.contents) }
    ensures most { blocks.new.most ≡ blocks.old.most }
{
    drop_entry(blocks, place);
    settle(blocks, place.block)
}
