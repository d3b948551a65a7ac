//! The memory of one shard, an allocator per core after Seastar's `core/memory.cc`: one range of pages, from which
//! blocks of up to [`layout::GREATEST_BLOCK`] bytes and segments are given and to which they are given back.
//!
//! A block comes from the pool of its size class, a segment is a span of [`layout::SEGMENT_PAGES`] pages. Pools take their memory
//! in spans of the same pages, and keep a span until `trim` finds no object of it allocated.
//!
//! Some blocks stay with the shard. The others are lent, each with a ticket of the shard's list: they may go to any
//! thread, are released there, and are free once the shard takes them back. Such a list is called a remote free list
//! elsewhere.
//!
//! # Definitions
//! - A shard's memory (`specs/Shards.antt`, `specs/Tickets.antt`) is its blocks, the pieces that stay with it, by place; which
//!   piece is lent with each of its 32 tickets; how many blocks were lent and came home; its segments; and what can still be
//!   given. No piece is two of block, lent block and segment.
//! - What can still be given is a `Room` (`specs/Room.antt`): which spans of the pages are free and which are allocated, which
//!   of these the pools hold, and which of their objects are allocated. `IsRoomOf` is what holds of spans and pools at each
//!   time, `IsAllFree` what an opening leaves. `TakesObject`, `PutsObject`, `TakesSegment` and `PutsSegment` are what a block
//!   or a segment changes of them as it is given and comes back.
//! - No segment can be given (`LacksSegment`) where no span of 32 pages or more is free; no block (`LacksBlock`) where the
//!   pools have no free object of its class and no span of the class's length or more is free. The pools are trimmed
//!   (`IsTrimmed`) where each span that they hold has an allocated object.
//! - A shard is crowded (`IsCrowded`) where its segments and blocks, the lent ones too, are together at least a 32nd of its
//!   pages.
//! - `ComeBack` is what a `take_back` does: some tickets are idle again, as many as it answers.
//!
//! # Choices
//! - `give` and `give_here` make a block's bytes 0. `give_uncleared` says nothing of them but how many they are: a store lends
//!   such blocks, and a node writes its message over them at once. The bytes of a reply's block behind its body have no
//!   meaning, and may be those of a message or a row before; they go no further than to a shard of the same process.
//! - The model is the blocks, the segments, and what can still be given: the spans of the pages and the objects of the pools.
//!   So a refusal is said over free spans and free objects, and each call says what it changes of both. Which piece stands in
//!   which span or object stays in `specs/inside/`.
//! - For callers who do not count spans its consequences are clauses too: what takes no room away, what a segment that is back
//!   leaves room for, and that a trimmed shard that refuses is crowded. `IsCrowded` is the one word for what want of room
//!   means, of a segment and of a block.
//! - Where the pools take a span or a `trim` gives some back, it is said which pages are allocated then. Which spans are free
//!   follows, since spans divide the pages and are coalesced; the order of their lists is said only of a segment that is given
//!   or comes back.
//! - What can't be given and `IsTrimmed` are `unfoldable`: the clauses of most callers hand them on without looking into them.
//! - A block stands in an object of the least class that holds its bytes, so whoever gives one back can have another of that
//!   size.
//! - The first 8 of the 32 tickets are for requests, the others for replies. Of the idle tickets of a share the least is taken:
//!   the owner's seat has them as bits of a word, whose least bit from the share's first on is found without a loop.
//! - A private part gives pieces without regard to who has them; the memory adds which ones are lent. Which blocks stay is not
//!   stored: they are those at which no lent piece begins.
//! - Three numbers are stored: the tickets that are not idle, the blocks that came home, and the blocks that stay and are out.
//!   The blocks lent are the sum of the first two. At the greatest u64 a count stands still; so `finish` asks `tickets_out` and
//!   `blocks_here`, and not the counts.
//! - Where no ticket is out `take_back` leaves the list alone, and its clause says so. Where one is out, it counts one look: a
//!   body that does nothing would meet the rest of it. Which tickets it finds depends on the other threads, so its clause says
//!   only how many they are and that no other ticket has changed.
//!
//! # Promises
//! - A shard opens with all of its pages free (`open`: `free`). With nothing else given it gives segments exactly until these
//!   are a 32nd of the pages: 40 of 1,280 (`segments_fill_the_pages`).
//! - A block has the bytes asked for, all 0, in an object of the least class that holds them, and is refused exactly where it
//!   is too large or nothing has room; a segment comes exactly where a span of 32 pages or more is free. Nothing changes at a
//!   refusal, and else exactly the named piece, by one (`give_here`, `back_here`, `give_segment`, `segment_back`).
//! - Nothing has room for a block exactly where the pools have no free object of its class and no span as long as the class's
//!   is free. Each call says what it changes of spans and pools (`give`, `give_here`: `refused`, `room`, `taken`; `back_here`,
//!   `segment_back`: `freed`; `give_segment`: `none`, `taken`; `trim`: `trims`; `take_back`).
//! - A lent block has the least idle ticket of its share and as many bytes as were asked for, all 0 by `give`. It is refused
//!   exactly where it is too large, no ticket of the share is idle, or nothing has room, in this order, and then nothing
//!   changes (`give`, `give_uncleared`).
//! - One look at the list takes back blocks that were released, as many as it answers: their tickets are idle, their objects
//!   free, and nothing else changes (`take_back`). That it takes each of them is read in the code.
//! - Blocks lent less blocks that came home are the tickets that are not idle, until a count stands at its type's end
//!   (`pages_out`: `lends`). How many blocks that stay are out, and how many tickets, is told at each time (`blocks_here`,
//!   `tickets_out`).
//! - Blocks, lent ones and segments lie inside the pages and are disjoint; each block has an object of the least class that
//!   holds it, and no other object is allocated; 32 pages for each segment are never more than the shard's (`pages_out`).
//! - A segment counts for 32 pages out, a block for none or for one span of its class. A trimmed shard has no more out than its
//!   segments' pages and 16 for each block, lent or not (`give_segment`, `segment_back`, `give_here`, `give`: `pages_out`;
//!   `pages_out`: `pages_out`, `trimmed`).
//! - After a segment is back a segment and a block of each size can be given, and after a block is back one of its size
//!   (`segment_back`, `back_here`: `room`). Neither it nor `trim` takes room away (`back_here`, `trim`: `kept`), and `trim`
//!   changes nothing where it was done (`unchanged`).
//! - Where the pools are trimmed and nothing has room, the shard is crowded (`give_segment`, `give_here`, `give`, `pages_out`:
//!   `crowded`).
//! - A memory is finished with every ticket idle, and hands back the seat with which its list may be closed; one that could not
//!   be opened hands it back as it was (`finish`, `open`).
#![tactic(auto)]

pub use foreign_list::{Foreign, ForeignBlock, OwnerSeat};
pub use give_refusal::GiveRefusal;
pub use law::segments_fill_the_pages;
pub use memory::ShardMemory;
pub use raw_range::Piece;
pub use share::Share;

mod give_refusal;
mod law;
mod memory;
mod piece_allocator;
mod share;
