//! Pieces of the pages of one shard, without regard to who has them.
ghost use Rattle.std.specs.Prelude.{
  ◌≡◌,
  ℕ,
  ◌+◌,
  ◌*◌,
  ◌/◌,
  ◌%◌,
  ◌<◌,
  ◌≤◌,
  ◌↔◌,
  [],
  ◌∷◌,
  length,
  replicate,
  IfOk,
  IfErr,
  IfSome,
  IfNone,
  IsNone,
  IsSome,
  All,
  Contains,
  Some,
};
ghost use Rattle.std.specs.FinMap as map;
ghost use Rattle.layout.specs.Extents.{Extent, extent, Disjoint, AreDisjoint, Blocks};
ghost use Rattle.layout.specs.Sizes.{page, segment, segment_pages, segment_order, most_pages, most_pieces, greatest_block, ArePages};
ghost use Rattle.raw_range.specs.Memory.{Lent, extent_of, with_allocated, remove_extent};
ghost use Rattle.span_lists.specs.Layout.{allocated_pages, CoalescesInto, IsAllocated, Divides, IsCoalesced, HasNone};
ghost use Rattle.small_pools.specs.Classes.{IsClass, IsLeastClass, size_of};
ghost use Rattle.small_pools.specs.Objects.{AreObjects, Trims};
ghost use Rattle.shard_memory.specs.Room.{
  LacksBlock,
  LacksSegment,
  IsAllFree,
  IsRoomOf,
  IsTrimmed,
  KeepsRoom,
  HasAllRoom,
  TakesObject,
  PutsObject,
  TakesSegment,
  PutsSegment,
};
ghost use Rattle.shard_memory.specs.Shards.{IsOneOf, FillPages, SetsAside, TakesPages, longest_span};
ghost use Rattle.shard_memory.specs.Refusals.{RefusesHere};
ghost use Rattle.shard_memory.specs.inside.Pieces.{most_out};

use crate::give_refusal::GiveRefusal;
use layout::{PAGE, SEGMENT, SEGMENT_ORDER};
use raw_range::{Piece, Range};
use small_pools::{Pools, class_of};
use span_lists::Spans;
use std::alloc::{AllocError, Global};
use std::marker::Model;

/// The pages and the pools of one shard, whoever has what they gave. One that is dropped is not freed: only `finish` gives
/// the memory back.
#[derive(Drop)]
pub(crate) struct PieceAllocator {
    pages: u32,
    range: Range,
    spans: Spans,
    pools: Pools,
}

impl Model for PieceAllocator {
    ghost use Rattle.std.specs.Prelude.{◌≡◌};
    ghost use Rattle.span_lists.specs.Layout.{allocated_pages};
    ghost use Rattle.shard_memory.specs.inside.Pieces.{Pieces, pieces_code};
    ghost use Rattle.shard_memory.specs.inside.Parts.{blocks_of, segments_of, IsConsistent};

    ghost Value = { Pieces };

    ghost coded = { pieces_code };

    ghost view = { λ a. record {
      home = a.range.home;
      owner = a.range.owner;
      pages = a.range.pages;
      blocks = blocks_of a.range.allocated;
      objects = a.pools.allocated;
      segments = segments_of a.range.allocated;
      pages_out = allocated_pages a.spans;
      room = record { spans = a.spans; pools = a.pools };
    } };

    ghost invariant = { λ a. (a.pages ≡ a.range.pages) × IsConsistent a.range.pages a.range.allocated a.spans a.pools };
}

impl PieceAllocator {
    // Nothing is given yet. An error is want of memory.
    pub(crate) fn open(alloc: Global, shard: u32, pages: u32) -> Result<PieceAllocator, AllocError>
        requires { ArePages pages }
        ensures numbers { IfOk result (λ own. (own.owner ≡ shard) × (own.pages ≡ pages)) }
        ensures blocks { IfOk result (λ own. (own.blocks ≡ []) × (own.objects ≡ map.empty)) }
        ensures segments { IfOk result (λ own. own.segments ≡ []) }
        ensures pages_out { IfOk result (λ own. own.pages_out ≡ 0) }
        ensures room { IfOk result (λ own. HasAllRoom own.room) }
        ensures trimmed { IfOk result (λ own. IsTrimmed own.room) }
        ensures free { IfOk result (λ own. IsAllFree pages own.room) }
    {
        let spans = Spans::new(alloc, pages)?;
        let pools = Pools::new(alloc, pages)?;
        let range = Range::new(alloc, shard, pages)?;
        Ok(PieceAllocator {
            pages,
            range,
            spans,
            pools,
        })
    }

    // Gives a block of so many bytes, whatever they are.
    pub(crate) fn give_block(&mut self, size: u32) -> Result<Piece, GiveRefusal>
        // There may be one more.
        requires some { 1 ≤ size }
        requires few { length self.old.blocks < most_out }

        // When it is given, and when not.
        ensures refused { IfErr result (RefusesHere self.old.room size) }
        ensures room { IfOk result (λ _. (size ≤ greatest_block) × ¬ LacksBlock self.old.room size) }
        ensures crowded { IfErr result (λ refusal. refusal ≡ GiveRefusal.NoSpan → IsTrimmed self.old.room → FillPages self.old.pages
            (length self.old.segments) (length self.old.blocks)) }
        ensures unchanged { IfErr result (λ _. self.new ≡ self.old) }

        // The block, apart from the others.
        ensures mine { IfOk result (λ piece. (piece.home ≡ self.old.home) × (piece.owner ≡ self.old.owner)) }
        ensures given { IfOk result (IsOneOf self.new.home self.new.blocks) }
        ensures bytes { IfOk result (λ piece. length piece.bytes ≡ size) }
        ensures blocks { IfOk result (λ piece. self.new.blocks ≡ extent_of piece ∷ self.old.blocks) }
        ensures disjoint { IfOk result (λ _. AreDisjoint (page * self.new.pages) self.new.blocks) }

        // What pages and pools gave for it.
        ensures least { IfOk result (λ piece. SetsAside self.old.objects self.new.objects size piece.at) }
        ensures pages_out { IfOk result (λ _. TakesPages self.old.pages_out self.new.pages_out size) }
        ensures taken { IfOk result (λ piece. TakesObject self.old.room self.new.room size piece.at) }

        // What stands as before.
        ensures segments { self.new.segments ≡ self.old.segments }
        ensures trimmed { IsTrimmed self.old.room → IsTrimmed self.new.room }
        ensures same { (self.new.home ≡ self.old.home) × (self.new.owner ≡ self.old.owner) × (self.new.pages ≡ self.old.pages) }
    {
        let class = class_for(size)?;
        let Some(place) = self.pools.take(&mut self.spans, class) else {
            return Err(GiveRefusal::NoSpan);
        };
        Ok(self.range.take(place, size))
    }

    // Takes a block back.
    pub(crate) fn put_block(&mut self, piece: Piece)
        requires { IsOneOf self.old.home self.old.blocks piece }

        // The block and its object are gone.
        ensures blocks { self.new.blocks ≡ remove_extent (extent_of piece) self.old.blocks }
        ensures one_less { length self.new.blocks + 1 ≡ length self.old.blocks }
        ensures disjoint { AreDisjoint (page * self.old.pages) self.old.blocks }
        ensures objects { self.new.objects ≡ map.remove self.old.objects piece.at }

        // The pages are given as before.
        ensures segments { self.new.segments ≡ self.old.segments }
        ensures pages_out { self.new.pages_out ≡ self.old.pages_out }

        // What can be given again.
        ensures freed { PutsObject self.old.room self.new.room piece.at }
        ensures kept { KeepsRoom self.old.room self.new.room }
        ensures room { ¬ LacksBlock self.new.room (length piece.bytes) }

        // Nothing else has changed.
        ensures same { (self.new.home ≡ self.old.home) × (self.new.owner ≡ self.old.owner) × (self.new.pages ≡ self.old.pages) }
    {
        put_object(&mut self.pools, &piece);
        self.range.put(piece);
    }

    pub(crate) fn trim(&mut self)
        ensures trimmed { IsTrimmed self.new.room }
        ensures unchanged { IsTrimmed self.old.room → self.new ≡ self.old }
        ensures pages_out { self.new.pages_out ≤ self.old.pages_out }
        ensures trims { Trims self.old.room.pools self.new.room.pools self.old.room.spans self.new.room.spans }
        ensures kept { KeepsRoom self.old.room self.new.room }
        ensures same { self.new ≡ record self.old { pages_out = self.new.pages_out; room = self.new.room } }
    {
        self.pools.trim(&mut self.spans);
    }

    pub(crate) fn give_segment(&mut self) -> Option<Piece>
        // When it gives nothing.
        ensures none { IsNone result ↔ LacksSegment self.old.room }
        ensures unchanged { IfNone result (self.new ≡ self.old) }
        ensures crowded { IfNone result (IsTrimmed self.old.room → FillPages self.old.pages (length self.old.segments)
            (length self.old.blocks)) }

        // The segment, at a multiple of its bytes.
        ensures mine { IfSome result (λ piece. (piece.home ≡ self.old.home) × (piece.owner ≡ self.old.owner)) }
        ensures given { IfSome result (IsOneOf self.new.home self.new.segments) }
        ensures whole { IfSome result (λ piece. (length piece.bytes ≡ segment) × (piece.at % segment ≡ 0)) }

        // What is out then.
        ensures segments { IfSome result (λ piece. self.new.segments ≡ extent_of piece ∷ self.old.segments) }
        ensures one_more { IfSome result (λ _. length self.new.segments ≡ length self.old.segments + 1) }
        ensures disjoint { IfSome result (λ _. AreDisjoint (page * self.new.pages) self.new.segments) }
        ensures few { IfSome result (λ _. segment_pages * length self.new.segments ≤ self.new.pages) }
        ensures blocks { (self.new.blocks ≡ self.old.blocks) × (self.new.objects ≡ self.old.objects) }
        ensures pages_out { IfSome result (λ _. self.new.pages_out ≡ self.old.pages_out + segment_pages) }
        ensures taken { IfSome result (λ piece. TakesSegment self.old.room self.new.room (piece.at / page)) }

        // Nothing else has changed.
        ensures same { (self.new.home ≡ self.old.home) × (self.new.owner ≡ self.old.owner) × (self.new.pages ≡ self.old.pages) }
    {
        let Some(first) = self.spans.take(SEGMENT_ORDER) else {
            return None;
        };
        Some(segment_at(&mut self.range, first))
    }

    pub(crate) fn put_segment(&mut self, piece: Piece)
        requires { IsOneOf self.old.home self.old.segments piece }

        // What is out then.
        ensures segments { self.new.segments ≡ remove_extent (extent_of piece) self.old.segments }
        ensures one_less { length self.new.segments + 1 ≡ length self.old.segments }
        ensures blocks { (self.new.blocks ≡ self.old.blocks) × (self.new.objects ≡ self.old.objects) }
        ensures pages_out { self.new.pages_out + segment_pages ≡ self.old.pages_out }

        // What can be given again.
        ensures freed { PutsSegment self.old.room self.new.room (piece.at / page) }
        ensures room { HasAllRoom self.new.room }

        // Nothing else has changed.
        ensures same { (self.new.home ≡ self.old.home) × (self.new.owner ≡ self.old.owner) × (self.new.pages ≡ self.old.pages) }
    {
        put_span(&mut self.spans, &piece);
        self.range.put(piece);
    }

    // How many pages are in no free span. With it, what holds at each time.
    pub(crate) fn pages_out(&self) -> u32
        ensures value { result ≡ self.now.pages_out }
        ensures most { result ≤ self.now.pages }

        // No two pieces meet, all within the pages.
        ensures blocks { AreDisjoint (page * self.now.pages) self.now.blocks }
        ensures segments { AreDisjoint (page * self.now.pages) self.now.segments }
        ensures apart { (block segment : Extent) → Contains self.now.blocks block → Contains self.now.segments segment
            → Disjoint block segment }
        ensures kinds { (piece : Lent) → IsOneOf self.now.home self.now.segments piece
            → ¬ IsOneOf self.now.home self.now.blocks piece }

        // Each block has its object.
        ensures objects { Blocks (page * self.now.pages) (map.get self.now.objects) }
        ensures of_blocks { (block : Extent) → Contains self.now.blocks block
            → (class : ℕ) × IsLeastClass block.len class × (map.get self.now.objects block.start ≡ Some (size_of class)) }
        ensures of_objects { (at size : ℕ) → map.get self.now.objects at ≡ Some size
            → (len : ℕ) × Contains self.now.blocks (extent at len) }

        // How many pages they take.
        ensures least { segment_pages * length self.now.segments ≤ self.now.pages }
        ensures pages_out { (segment_pages * length self.now.segments ≤ self.now.pages_out) × (self.now.pages_out ≤ self.now.pages) }
        ensures trimmed { IsTrimmed self.now.room
            → self.now.pages_out ≤ segment_pages * length self.now.segments + longest_span * length self.now.blocks }
        ensures crowded { IsTrimmed self.now.room → LacksSegment self.now.room
            → FillPages self.now.pages (length self.now.segments) (length self.now.blocks) }

        // Spans and pools, and what is counted of them.
        ensures room { IsRoomOf self.now.pages self.now.room }
        ensures shown { (self.now.objects ≡ self.now.room.pools.allocated) ×
            (self.now.pages_out ≡ allocated_pages self.now.room.spans) }
    {
        self.pages - self.spans.free_pages()
    }

    // Gives the memory back, once nothing of it is out.
    pub(crate) fn finish(self)
        requires { (self.blocks ≡ []) × (self.segments ≡ []) }
    {
        self.range.finish();
    }
}

/// The class from which a block of so many bytes comes.
fn class_for(size: u32) -> Result<u8, GiveRefusal>
    requires { 1 ≤ size }
    ensures refused { IfErr result (λ refusal. (refusal ≡ GiveRefusal.TooLarge) × (greatest_block < size)) }
    ensures least { IfOk result (IsLeastClass size) }
    ensures bounds { IfOk result IsClass }
{
    class_of(size).ok_or(GiveRefusal::TooLarge)
}

/// Gives the object of a block back to its pool.
fn put_object(pools: &mut Pools, block: &Piece)
    requires { IsSome (map.get pools.old.allocated block.now.at) }
    ensures allocated { pools.new.allocated ≡ map.remove pools.old.allocated block.now.at }
    ensures held { pools.new.held ≡ pools.old.held }
    ensures pages { pools.new.pages ≡ pools.old.pages }
    ensures objects { AreObjects pools.new }
{
    pools.put(block.at());
}

/// The segment that begins at a page.
fn segment_at(range: &mut Range, first: u32) -> Piece
    // No piece has any of its bytes.
    requires inside { page * first + segment ≤ page * range.old.pages }
    requires pages { range.old.pages ≤ most_pages }
    requires disjoint { All (Disjoint (extent (page * first) segment)) range.old.allocated }
    requires few { length range.old.allocated < most_pieces }

    // Which piece it is.
    ensures home { result.home ≡ range.old.home }
    ensures owner { result.owner ≡ range.old.owner }
    ensures extent { extent_of result ≡ extent (page * first) segment }

    // All pieces lie apart still.
    ensures allocated { range.new ≡ with_allocated range.old (extent (page * first) segment ∷ range.old.allocated) range.old.bytes }
    ensures blocks { AreDisjoint (page * range.new.pages) range.new.allocated }
{
    range.take(PAGE * first, SEGMENT)
}

/// Gives the span of a segment back to the pages.
fn put_span(spans: &mut Spans, given: &Piece)
    requires { IsAllocated spans.old (given.now.at / page) segment_order }
    ensures allocated { spans.new.allocated ≡ map.remove spans.old.allocated (given.now.at / page) }
    ensures orders { (order : ℕ) → HasNone spans.new order → segment_order < order }
    ensures free { CoalescesInto spans.old spans.new (given.now.at / page) segment_order }
    ensures pages { spans.new.pages ≡ spans.old.pages }
    ensures divided { Divides spans.new }
    ensures coalesced { IsCoalesced spans.new }
{
    spans.put(given.at() / PAGE, SEGMENT_ORDER);
}
