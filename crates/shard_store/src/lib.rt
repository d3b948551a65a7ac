//! One shard's memory and cache together: a [`ShardStore`].
//!
//! A put that finds no room in the active segment of its table's group makes some, in an order that is fixed: a free segment,
//! one more from the pages, compaction, and at last an eviction of the row that was used longest ago, the least recently used
//! (LRU), of whatever table.
//! It is proved that at each eviction more bytes are live than a bound; that nothing is evicted while a segment is free or
//! compaction makes room, no clause says: tests show it. The rules are those of Seastar's memory and of ScyllaDB's
//! `utils/logalloc`; that each row goes by itself, after a whole compaction, is ours.
//!
//! Whoever calls is told which rows went, as an eviction listener is: see [`Evictions`].
//!
//! # A get for another shard
//! The reply goes out in a block as long as the value. So [`ShardStore::lend_value`] looks the row up before the block is made,
//! to learn the length; and making the block may compact the segments, which moves the row, or evict rows, that one among them.
//! Behind the making it looks the key up again, under a guard, and copies what it finds then behind the head, which the node
//! writes. Its clause `found` says so: rows went in turn, each the one used longest ago, then the key was looked up on the rows
//! that are left, and behind the head stands the value that it has there. Where the row went, the reply is that it is missing,
//! in a block with room for a value; where it stayed it has the length that was read first, since evictions take rows from the
//! end alone. No clause names a place, so a body that kept the place or the answer of the first look-up has no proof.
//!
//! # Room for a lent block
//! Room for a block that is lent to another shard is sought in this order: what is free; what is free once released blocks are
//! home and the pools trimmed; then once a free segment is back in the pages, which compaction may free; and at last once rows
//! went.
//!
//! # Definitions
//! - A shard's store (`specs/Stores.antt`) has the shard's number, its pages, its regions, which are the groups of its
//!   segments, 1 or 8, for how many rows it has room, fewer than 4,294,967,295, its rows in the order of their use, the list
//!   over which its blocks come home, which piece is lent with each ticket, how many blocks were lent and came home, its
//!   segments, and what its pages can still give. The program gives the command's number as a row's tag.
//! - `DoesAbove` (`specs/Works.antt`) is what a call does that may evict: rows go in turn, each the last one while the live
//!   bytes exceed a bound, these are told (`AreTold`), and then a function on rows, as a put or a get, is done on the rest,
//!   with the answer that it has there. `EvictsForBlock` is the same with nothing done.
//! - For a block the bound is the tight floor of the regions with the tickets that are not idle as the call begins
//!   (`floor_of`); for a put it is a dense segment more (`pressure`).
//! - `found_in` (`specs/Lending.antt`) is what a block was lent with: a value, in so many of the bytes behind its head, or
//!   none. `LendsBlock` is a block that is lent: its ticket is of the share and was idle, once blocks may have come home
//!   (`ComeHome`).
//! - `RefusesNow` is why a call that asks for a block at once gives none, and `GivesNow` where it gives one: with a ticket that
//!   was idle as the call began, and with room that there was (`HasRoomAtOnce`) or that was made by a look at the list, a trim
//!   and at most one segment (`MakesRoom`), which goes only where segments and blocks out were as many as the pages make
//!   segments (`HandsOneBack`).
//! - A store opens with two segments that have no object (`HoldsTwo`). The calls that may move a row or make one go ask that no
//!   table has a guard (`IsUnguarded`). What stands at a place is spoken of only for the calls that may be made under a guard
//!   (`RowsStay`).
//! - How memory and segments go together is in `specs/inside/`: the region's segments are all those of the shard's memory
//!   (`HoldsAll`), no block stays with the shard, one segment is free, and the pages make more segments than one for each
//!   ticket, one for each group and a free one.
//! - A node says `DoesAbove` and `EvictsForBlock` once more, of its journal: the entries are those of the rows that went, and
//!   then the command's (`shard_node/specs/inside/Did.antt`).
//!
//! # Choices
//! - A call takes keys, values and counts, and tells what goes to whoever asks (`&mut E`, an `Evictions`), in place of an ask
//!   and a journal: rows can be stored without a trace, a log or a message. What is done is said as a function on rows, so the
//!   store speaks of no operation and no kind.
//! - The tag of `put` is the number that the row carries and that is told when it goes. `get`, `erase` and `scan` tell nobody,
//!   since nothing goes. That a command is done is the node's to write down, and so is a message's header.
//! - `EvictionCount` and `EvictedTags` can be told beside a journal: a count, and tags in a slice of the caller's. What does
//!   not fit there is counted and refuses nothing, so a call has no answer for it.
//! - `lend` asks for an idle ticket and gives the block, since its callers know of one and would throw a refusal away;
//!   `try_lend` is for who can't show it, and refuses by None.
//! - `lend_value` and `lend_keys` lend a block with what was looked up, behind a head that is the caller's to write. That of
//!   `lend_value` has a byte at least, since a block has one and a value may have none. Behind it are as many bytes as the
//!   value found first, also where the row goes for the block (`RowCache::find_len`).
//! - Callers see the segments only to speak of what stands at a place under a guard; that they are those of the shard's memory
//!   stays in `specs/inside/`.
//! - The cache's tables are made before the memory, so a want of memory leaves nothing that is not freed.
//! - A put is tried in the active segment by what that has left; the row is sought and stored once, when there is room. The row
//!   that is replaced may itself be the one used longest ago and go first; the reply is still `stored`.
//! - No block of the store's memory stays with the shard: segments and lent blocks alone crowd the pages. A segment goes back
//!   to them for a block only where they have no room for it, and one is enough: then every block has room.
//! - That the tickets which a call lent with stay lent until its end is not said: another thread may release none of them
//!   before it is handed on, but `take_back` says of no ticket that it stays.
//! - `touch` and `row_at` are a get in two steps: the first changes links and tells where the row stands, the second reads it
//!   there, its tag too. `patch` writes over bytes where the row stands, so no row goes for it and none moves but in the order
//!   of use.
//! - `evict_last` and `compact` are for an owner that keeps a bound of its own, or has nothing else to do; `guards` and
//!   `is_guarded` tell what stands, for one that can't show it.
//!
//! # Promises
//! - A put always stores. Where rows go for it, each is the one used longest ago, of whatever table, and more bytes are live
//!   than a dense segment above the tight floor of the regions. Each is told, once and in that order, and nothing else is; the
//!   put was done on the rest (`put`: `stored`). That none goes while a segment is free, the pages have room for one, or
//!   compaction makes room, is tested: in no clause.
//! - A look-up, a removal and a scan do to the rows what they do to those of the meaning, and evict nothing; a scan changes
//!   nothing (`get`, `touch`, `erase`, `scan`). A patched row has the bytes, comes to the front and keeps its tag, and nothing
//!   else changes (`patch`: `rows`).
//! - A row that goes when its owner says so is the one used longest ago, and is told (`evict_last`: `evicted`, `rows`).
//!   Compaction that is asked for makes none go (`compact`: `rows`, `guarded`).
//! - A lent block has as many bytes as were asked for. A row that goes for it is the one used longest ago, and goes while more
//!   bytes are live than the tight floor with the tickets that were not idle as the call began; these are told, and nothing
//!   else is done to the rows (`lend`: `size`, `lends`, `evicted`). `try_lend` does the same, and lends none, with nothing
//!   changed, exactly where no ticket of the share is idle.
//! - A block lent with a value has the one that the key has on the rows which the evictions left, and the key's row is the one
//!   used last; None comes exactly where the key has none there (`lend_value`: `found`). With keys it has those of a scan of
//!   these rows (`lend_keys`: `count`, `keys`).
//! - A block that is asked for at once moves no row and makes none go, so it may be asked for under a guard. It is refused
//!   exactly where it is too large or no ticket of its share is idle as the call begins, and then nothing changed; or where
//!   there is no room once the list was looked at, the pools are trimmed and at most one segment is free: then nothing changed
//!   but what came home and what the pages can give. Where there was room at once, the list is left alone and no segment goes
//!   back to the pages; else one goes only where the segments held and the blocks out are together as many as the pages make
//!   segments (`give_now`).
//! - A lent block has a ticket of its share that was idle or came home in the call; lends rise by one, and no other call
//!   changes them; blocks lent less blocks home are the tickets that are not idle, until a count stands at its type's end
//!   (`lends` of each lending call; `facts`).
//! - A count of evictions rises by one for each; tags are written one behind the other as far as they fit, and the others
//!   counted; a journal has an entry for each (`tells` of `EvictionCount`, `EvictedTags`, `Journal`; `told-recorded` of
//!   `part_lemmas`).
//! - What stands at a place that was found stays there under a guard of its table, whatever blocks are lent or come home; a
//!   guard of one table leaves the others' guards as they are, where each table has a group of its own (`guard`: `guards`,
//!   `others`; `give_now`, `take_back`: `stay`, `same`; `place_of`: `found`, `group`; `value_at`). Whether a guard stands is
//!   answered exactly (`is_guarded`).
//! - A store opens with two segments and no object in them, one active in group 0 and one free, and with the regions that were
//!   asked for (`open`: `segments`, `regions`). It is finished with every ticket idle and no guard, and hands back the seat
//!   with which its list may be closed; one that could not be opened hands it back as it was (`finish`, `open`).
#![tactic(auto)]

mod evicted_tags;
mod evicting;
mod eviction_count;
mod giving;
mod looking_up;
mod making_room;
mod segments;
mod store;
mod storing;

pub use evicted_tags::EvictedTags;
pub use eviction_count::EvictionCount;
pub use foreign_list::{Foreign, ForeignBlock, OwnerSeat};
pub use regions::Place;
pub use row_cache::{Compacted, Put, Scanned};
pub use rows::Evictions;
pub use shard_memory::{GiveRefusal, Share};
pub use store::ShardStore;
