//! Blocks and segments of one shard, and the blocks that it lends.
ghost use Rattle.std.specs.Prelude.{◌≡◌, ℕ, ◌+◌, ◌*◌, ◌/◌, ◌%◌, ◌^◌, ◌<◌, ◌≤◌, ◌↔◌, [], ◌∷◌, suc, cond, false, length, replicate, IfOk, IfErr, IfSome, IfNone, IsNone, IsTrue, All, Some, slice_set};
ghost use Rattle.std.specs.FinMap as map;
ghost use Rattle.layout.specs.Extents.{AreDisjoint, Blocks};
ghost use Rattle.layout.specs.Sizes.{page, segment, segment_pages, tickets, greatest_block, ArePages};
ghost use Rattle.raw_range.specs.Memory.{Lent, extent_of, remove_extent};
ghost use Rattle.foreign_list.specs.OwnerSeats.{IsSeatOf, IsAtRest};
ghost use Rattle.foreign_list.specs.Blocks.{piece_id_of, IsFresh};
ghost use Rattle.span_lists.specs.Layout.{allocated_pages};
ghost use Rattle.small_pools.specs.Objects.{Trims};
ghost use Rattle.shard_memory.specs.Room.{LacksBlock, LacksSegment, IsAllFree, IsRoomOf, IsTrimmed, KeepsRoom, HasAllRoom, PutsObject, TakesSegment, PutsSegment};
ghost use Rattle.layout.specs.Counts.{raised};
ghost use Rattle.shard_memory.specs.Tickets.{first_ticket, end_ticket, HasIdle, IsLeastIdle, tickets_out};
ghost use Rattle.shard_memory.specs.Shards.{MemoryState, most_blocks, longest_span, AreApart, AreOfRange, HaveObjects, IsBlockOf, IsSegmentOf, IsCrowded, SetsAside, TakesPages, ComeBack};
ghost use Rattle.shard_memory.specs.Refusals.{RefusesFor, RefusesHere};
ghost use Rattle.shard_memory.specs.inside.Lending.{AreLent, ArePutBack};

mod giving;

use crate::piece_allocator::PieceAllocator;
use crate::share::Share;
use foreign_list::{Foreign, OwnerSeat};
use giving::first_idle;
use raw_range::Piece;
use std::alloc::Global;
use std::marker::Model;

/// The memory of one shard, with the owner's seat at its list. One that is dropped leaks its pages: only [`ShardMemory::finish`] gives
/// them back, once no block and no segment is out.
///
/// # Examples
/// ```
/// let (home, seat) = Foreign::new(alloc, 0)?;
/// let mut memory = match ShardMemory::open(alloc, 0, 1280, &home, seat) {
///     Ok(memory) => memory,
///     Err(seat) => { home.close(seat); return Err(AllocError); }
/// };
/// let block = memory.give(100, Share::Request); // Ok(block), which any thread releases: `ForeignBlock::release`
/// let back = memory.take_back(); // 1, once it was released
/// let seat = memory.finish(); // once `tickets_out` answers 0
/// home.close(seat);
/// ```
#[derive(Drop)]
pub struct ShardMemory<'f> {
    home: &'f Foreign,
    seat: OwnerSeat,
    own: PieceAllocator,
    // How many tickets are not idle.
    out: u32,
    // How many blocks that stay are out.
    here: u32,
    // How many blocks came home, at most the greatest u64.
    back: u64,
}

impl<'f> Model for ShardMemory<'f> {
    ghost use Rattle.shard_memory.specs.Shards.{MemoryState, shard_code};
    ghost use Rattle.layout.specs.Counts.{raised};
    ghost use Rattle.shard_memory.specs.Tickets.{tickets_out};
    ghost use Rattle.shard_memory.specs.inside.Lending.{staying, IsLending};

    ghost Value = { MemoryState };

    ghost coded = { shard_code };

    ghost view = { λ m. record {
      home = m.own.home;
      owner = m.own.owner;
      pages = m.own.pages;
      blocks = staying m.seat.lent m.own.blocks;
      objects = m.own.objects;
      segments = m.own.segments;
      pages_out = m.own.pages_out;
      room = m.own.room;
      list = m.home.now;
      lent = m.seat.lent;
      lends = raised m.back (tickets_out m.seat.lent);
      backs = m.back;
      take_wholes = m.seat.take_wholes;
    } };

    ghost invariant = { λ m. IsLending m.home.now m.seat m.own m.out m.here m.back };
}

impl<'f> ShardMemory<'f> {
    /// The memory of a shard of so many pages, all of it free, whose lent blocks come home over this list.
    ///
    /// # Errors
    /// Want of memory, and no other. The seat is handed back as it was, so that the list may be closed, and nothing is left that is
    /// not freed.
    pub fn open(
        alloc: Global,
        shard: u32,
        pages: u32,
        home: &'f Foreign,
        seat: OwnerSeat,
    ) -> Result<ShardMemory<'f>, OwnerSeat>
        requires pages { ArePages pages }
        requires owner { home.now.owner ≡ shard }
        requires seat { IsAtRest home.now seat }
        ensures refused { IfErr result (λ back. back ≡ seat) }
        // Else all of it is free.
        ensures numbers { IfOk result (λ memory. (memory.owner ≡ shard) × (memory.pages ≡ pages)) }
        ensures list { IfOk result (λ memory. memory.list ≡ home.now) }
        ensures blocks { IfOk result (λ memory. (memory.blocks ≡ []) × (memory.objects ≡ map.empty)) }
        ensures segments { IfOk result (λ memory. memory.segments ≡ []) }
        ensures pages_out { IfOk result (λ memory. memory.pages_out ≡ 0) }
        ensures lent { IfOk result (λ memory. memory.lent ≡ seat.lent) }
        ensures tickets { IfOk result (λ memory. length memory.lent ≡ tickets) }
        ensures counts { IfOk result (λ memory. (memory.lends ≡ 0) × (memory.backs ≡ 0) ×
            (memory.take_wholes ≡ seat.take_wholes)) }
        ensures room { IfOk result (λ memory. HasAllRoom memory.room) }
        ensures trimmed { IfOk result (λ memory. IsTrimmed memory.room) }
        ensures free { IfOk result (λ memory. IsAllFree pages memory.room) }
    {
        seat.facts();
        match PieceAllocator::open(alloc, shard, pages) {
            Ok(own) => Ok(ShardMemory {
                home,
                seat,
                own,
                out: 0,
                here: 0,
                back: 0,
            }),
            Err(_) => Err(seat),
        }
    }

    /// Takes back each lent block that was released, by one look at the list, which is left alone where none is out. Their tickets
    /// are idle, and their bytes free. Answers how many came.
    pub fn take_back(&mut self) -> u32
        ensures come { ComeBack self.old self.new result }
        ensures tickets { length self.new.lent ≡ tickets }
    {
        if self.out == 0 {
            return 0;
        }
        let count = take_all(self.home, &mut self.seat, &mut self.own);
        self.out -= count;
        self.back = self.back.saturating_add(u64::from(count));
        count
    }

    /// Whether a ticket of the share is idle, and how many tickets there are.
    pub fn is_idle(&self, share: Share) -> bool
        ensures idle { IsTrue result ↔ HasIdle self.now.lent share }
        ensures tickets { length self.now.lent ≡ tickets }
    {
        first_idle(&self.seat, share).is_some()
    }

    /// How many tickets are not idle.
    pub fn tickets_out(&self) -> u32
        ensures { result ≡ tickets_out self.now.lent }
    {
        self.out
    }

    /// How many blocks of `give_here` are out. At most 1,024 may be, and `finish` wants none.
    pub fn blocks_here(&self) -> u32
        ensures { result ≡ length self.now.blocks }
    {
        self.here
    }

    /// How many blocks `give` has lent. It stands at the greatest u64.
    pub fn lent(&self) -> u64
        ensures { result ≡ self.now.lends }
    {
        self.back.saturating_add(u64::from(self.out))
    }

    /// How many blocks `take_back` has taken back. It stands at the greatest u64.
    pub fn back(&self) -> u64
        ensures { result ≡ self.now.backs }
    {
        self.back
    }

    /// Takes a block of `give_here` back.
    pub fn back_here(&mut self, piece: Piece)
        requires { IsBlockOf self.old piece }
        // All that changed, and what can be given.
        ensures blocks { self.new.blocks ≡ remove_extent (extent_of piece) self.old.blocks }
        ensures one_less { length self.new.blocks + 1 ≡ length self.old.blocks }
        ensures objects { self.new.objects ≡ map.remove self.old.objects piece.at }
        ensures freed { PutsObject self.old.room self.new.room piece.at }
        ensures kept { KeepsRoom self.old.room self.new.room }
        ensures room { ¬ LacksBlock self.new.room (length piece.bytes) }
        ensures same { self.new ≡ record self.old { blocks = self.new.blocks; objects = self.new.objects; room = self.new.room } }
    {
        self.own.put_block(piece);
        self.here -= 1;
    }

    /// Gives each span of the pools back to the pages that has no allocated object.
    pub fn trim(&mut self)
        ensures trimmed { IsTrimmed self.new.room }
        ensures unchanged { IsTrimmed self.old.room → self.new ≡ self.old }
        ensures pages_out { self.new.pages_out ≤ self.old.pages_out }
        ensures trims { Trims self.old.room.pools self.new.room.pools self.old.room.spans self.new.room.spans }
        ensures kept { KeepsRoom self.old.room self.new.room }
        ensures same { self.new ≡ record self.old { pages_out = self.new.pages_out; room = self.new.room } }
    {
        self.own.trim();
    }

    /// Gives a segment of 131,072 bytes, at a multiple of that.
    pub fn give_segment(&mut self) -> Option<Piece>
        ensures none { IsNone result ↔ LacksSegment self.old.room }
        ensures unchanged { IfNone result (self.new ≡ self.old) }
        ensures crowded { IfNone result (IsTrimmed self.old.room → IsCrowded self.old) }
        // What is given, and all that changed.
        ensures mine { IfSome result (λ piece. (piece.home ≡ self.old.home) × (piece.owner ≡ self.old.owner)) }
        ensures given { IfSome result (IsSegmentOf self.new) }
        ensures whole { IfSome result (λ piece. (length piece.bytes ≡ segment) × (piece.at % segment ≡ 0)) }
        ensures segments { IfSome result (λ piece. self.new.segments ≡ extent_of piece ∷ self.old.segments) }
        ensures one_more { IfSome result (λ _. length self.new.segments ≡ length self.old.segments + 1) }
        ensures disjoint { IfSome result (λ _. AreDisjoint (page * self.new.pages) self.new.segments) }
        ensures few { IfSome result (λ _. segment_pages * length self.new.segments ≤ self.new.pages) }
        ensures pages_out { IfSome result (λ _. self.new.pages_out ≡ self.old.pages_out + segment_pages) }
        ensures taken { IfSome result (λ piece. TakesSegment self.old.room self.new.room (piece.at / page)) }
        ensures same { self.new ≡ record self.old { segments = self.new.segments; pages_out = self.new.pages_out; room = self.new.room } }
    {
        self.own.give_segment()
    }

    /// Takes a segment of `give_segment` back.
    pub fn segment_back(&mut self, piece: Piece)
        requires { IsSegmentOf self.old piece }
        ensures segments { self.new.segments ≡ remove_extent (extent_of piece) self.old.segments }
        ensures one_less { length self.new.segments + 1 ≡ length self.old.segments }
        ensures pages_out { self.new.pages_out + segment_pages ≡ self.old.pages_out }
        ensures freed { PutsSegment self.old.room self.new.room (piece.at / page) }
        ensures room { HasAllRoom self.new.room }
        ensures same { self.new ≡ record self.old { segments = self.new.segments; pages_out = self.new.pages_out; room = self.new.room } }
    {
        self.own.put_segment(piece);
    }

    /// The number of pages that are in no free span. With it, what holds of the memory at each time.
    ///
    /// Where `trim` would give nothing back, each block, lent or not, keeps at most a pool's longest span out beside the segments'
    /// own pages, and want of room for a segment says that segments and blocks are together as many as the pages make segments.
    pub fn pages_out(&self) -> u32
        ensures value { result ≡ self.now.pages_out }
        ensures most { result ≤ self.now.pages }
        // No two pieces meet, all are this shard's.
        ensures owner { self.now.owner ≡ self.now.list.owner }
        ensures apart { AreApart self.now }
        ensures range { AreOfRange self.now }
        ensures kinds { (piece : Lent) → IsSegmentOf self.now piece → ¬ IsBlockOf self.now piece }
        ensures objects { Blocks (page * self.now.pages) (map.get self.now.objects) }
        ensures of_blocks { HaveObjects self.now }
        // How many there are, and how counted.
        ensures segments { segment_pages * length self.now.segments ≤ self.now.pages }
        ensures few { length self.now.blocks ≤ most_blocks }
        ensures tickets { length self.now.lent ≡ tickets }
        ensures lends { self.now.lends ≡ raised self.now.backs (tickets_out self.now.lent) }
        ensures backs { self.now.backs < 2 ^ 64 }
        ensures pages_out { (segment_pages * length self.now.segments ≤ self.now.pages_out) × (self.now.pages_out ≤ self.now.pages) }
        ensures trimmed { IsTrimmed self.now.room
            → self.now.pages_out ≤ segment_pages * length self.now.segments + longest_span *
            (length self.now.blocks + tickets_out self.now.lent) }
        ensures crowded { IsTrimmed self.now.room → LacksSegment self.now.room → IsCrowded self.now }
        // What can still be given, and what of it is counted.
        ensures room { IsRoomOf self.now.pages self.now.room }
        ensures shown { (self.now.objects ≡ self.now.room.pools.allocated) ×
            (self.now.pages_out ≡ allocated_pages self.now.room.spans) }
    {
        self.own.pages_out()
    }

    /// Gives the memory back, once no block and no segment is out, and hands back the owner's seat, with which the list may be
    /// closed.
    pub fn finish(self) -> OwnerSeat
        requires blocks { (self.blocks ≡ []) × (self.segments ≡ []) }
        requires idle { tickets_out self.lent ≡ 0 }
        ensures seat { IsAtRest self.entry.list result }
        ensures take_wholes { result.take_wholes ≡ self.entry.take_wholes }
    {
        self.own.finish();
        self.seat
    }
}

/// Takes the list, and puts each block of it back.
fn take_all(home: &Foreign, seat: &mut OwnerSeat, own: &mut PieceAllocator) -> u32
    requires seat { IsSeatOf home.now seat.old }
    requires walk { seat.old.walk ≡ [] }
    requires lent { AreLent seat.old.lent own.old.home own.old.owner own.old.blocks }
    // The same afterwards, with all blocks back.
    ensures seat { IsSeatOf home.now seat.new }
    ensures walk { seat.new.walk ≡ [] }
    ensures lent { AreLent seat.new.lent own.new.home own.new.owner own.new.blocks }
    ensures put_back { ArePutBack seat.old.lent seat.new.lent own.old own.new result }
    ensures take_wholes { seat.new.take_wholes ≡ suc seat.old.take_wholes }
{
    home.take_whole(seat);
    let mut count = 0;
    while put_next(home, seat, own) {
        count += 1;
    }
    count
}

/// Puts the next block of the walk back. False where the walk is empty.
fn put_next(home: &Foreign, seat: &mut OwnerSeat, own: &mut PieceAllocator) -> bool
    requires seat { IsSeatOf home.now seat.old }
    requires lent { AreLent seat.old.lent own.old.home own.old.owner own.old.blocks }
    // The same afterwards, the next block back.
    ensures seat { IsSeatOf home.now seat.new }
    ensures walk { length seat.new.walk + cond result 1 0 ≡ length seat.old.walk }
    ensures last { result ≡ false → seat.new.walk ≡ [] }
    ensures lent { AreLent seat.new.lent own.new.home own.new.owner own.new.blocks }
    ensures put_back { ArePutBack seat.old.lent seat.new.lent own.old own.new (cond result 1 0) }
    ensures take_wholes { seat.new.take_wholes ≡ seat.old.take_wholes }
{
    let Some(back) = home.next_back(seat) else {
        return false;
    };
    own.put_block(back.piece);
    true
}
