//! The giving of blocks.
ghost use Rattle.std.specs.Prelude.{◌≡◌, ◌+◌, ◌*◌, ◌^◌, ◌<◌, ◌≤◌, ◌∷◌, length, replicate, IfOk, IfErr, IfSome, IfNone, Some, slice_set};
ghost use Rattle.layout.specs.Counts.{raised};
ghost use Rattle.layout.specs.Extents.{AreDisjoint};
ghost use Rattle.layout.specs.Sizes.{page, greatest_block, tickets};
ghost use Rattle.raw_range.specs.Memory.{extent_of};
ghost use Rattle.foreign_list.specs.Blocks.{piece_id_of, IsFresh};
ghost use Rattle.shard_memory.specs.Room.{LacksBlock, IsTrimmed, TakesObject};
ghost use Rattle.shard_memory.specs.Tickets.{first_ticket, end_ticket, HasIdle, IsLeastIdle, tickets_out};
ghost use Rattle.shard_memory.specs.Shards.{most_blocks, IsBlockOf, IsCrowded, SetsAside, TakesPages};
ghost use Rattle.shard_memory.specs.Refusals.{RefusesFor, RefusesHere};

use super::ShardMemory;
use crate::give_refusal::GiveRefusal;
use crate::share::Share;
use foreign_list::{ForeignBlock, OwnerSeat};
use layout::{GREATEST_BLOCK, REQUEST_TICKETS, TICKETS};
use raw_range::Piece;

impl<'f> ShardMemory<'f> {
    /// Lends a block of so many bytes, all of them 0, with the least idle ticket of the share.
    ///
    /// # Errors
    /// `TooLarge` above 16,384 bytes, `NoTicket` where no ticket of the share is idle, and `NoSpan` where neither the pool of the
    /// size's class nor the pages have room, in this order.
    pub fn give(&mut self, size: u32, share: Share) -> Result<ForeignBlock<'f>, GiveRefusal>
        requires { 1 ≤ size }
        // When it is given, and when not.
        ensures refused { IfErr result (RefusesFor self.old share size) }
        ensures room { IfOk result (λ _. (size ≤ greatest_block) × ¬ LacksBlock self.old.room size) }
        ensures crowded { IfErr result (λ refusal. refusal ≡ GiveRefusal.NoSpan → IsTrimmed self.old.room → IsCrowded self.old) }
        ensures unchanged { IfErr result (λ _. self.new ≡ self.old) }
        // What is given, and all that changed.
        ensures ticket { IfOk result (λ block. IsLeastIdle self.old.lent share block.ticket) }
        ensures fresh { IfOk result (λ block. IsFresh self.old.list.id block.ticket block.piece block) }
        ensures mine { IfOk result (λ block. (block.piece.home ≡ self.old.home) × (block.piece.owner ≡ self.old.owner)) }
        ensures zeros { IfOk result (λ block. block.piece.bytes ≡ replicate size 0) }
        ensures lent { IfOk result (λ block. self.new.lent ≡ slice_set self.old.lent block.ticket (Some (piece_id_of block.piece))) }
        ensures lends { IfOk result (λ _. self.new.lends ≡ raised self.old.lends 1) }
        ensures out { IfOk result (λ _. tickets_out self.new.lent ≡ tickets_out self.old.lent + 1) }
        ensures least { IfOk result (λ block. SetsAside self.old.objects self.new.objects size block.piece.at) }
        ensures pages_out { IfOk result (λ _. TakesPages self.old.pages_out self.new.pages_out size) }
        ensures taken { IfOk result (λ block. TakesObject self.old.room self.new.room size block.piece.at) }
        ensures trimmed { IsTrimmed self.old.room → IsTrimmed self.new.room }
        ensures same { self.new ≡ record self.old {
          lent = self.new.lent;
          lends = self.new.lends;
          objects = self.new.objects;
          pages_out = self.new.pages_out;
          room = self.new.room;
        } }
    {
        let mut block = self.give_uncleared(size, share)?;
        block.bytes_mut().fill(0);
        Ok(block)
    }

    /// The same as `give`, but nothing is said of the bytes, which may be those of a block before: for a caller that writes them all,
    /// or whose reader knows which have a meaning.
    ///
    /// # Errors
    /// As `give`.
    pub fn give_uncleared(
        &mut self,
        size: u32,
        share: Share,
    ) -> Result<ForeignBlock<'f>, GiveRefusal>
        requires { 1 ≤ size }
        // When it is given, and when not.
        ensures refused { IfErr result (RefusesFor self.old share size) }
        ensures room { IfOk result (λ _. (size ≤ greatest_block) × ¬ LacksBlock self.old.room size) }
        ensures crowded { IfErr result (λ refusal. refusal ≡ GiveRefusal.NoSpan → IsTrimmed self.old.room → IsCrowded self.old) }
        ensures unchanged { IfErr result (λ _. self.new ≡ self.old) }
        // What is given, and all that changed.
        ensures ticket { IfOk result (λ block. IsLeastIdle self.old.lent share block.ticket) }
        ensures fresh { IfOk result (λ block. IsFresh self.old.list.id block.ticket block.piece block) }
        ensures mine { IfOk result (λ block. (block.piece.home ≡ self.old.home) × (block.piece.owner ≡ self.old.owner)) }
        ensures bytes { IfOk result (λ block. length block.piece.bytes ≡ size) }
        ensures lent { IfOk result (λ block. self.new.lent ≡ slice_set self.old.lent block.ticket (Some (piece_id_of block.piece))) }
        ensures lends { IfOk result (λ _. self.new.lends ≡ raised self.old.lends 1) }
        ensures out { IfOk result (λ _. tickets_out self.new.lent ≡ tickets_out self.old.lent + 1) }
        ensures small { IfOk result (λ _. self.new.backs < 2 ^ 64) }
        ensures least { IfOk result (λ block. SetsAside self.old.objects self.new.objects size block.piece.at) }
        ensures pages_out { IfOk result (λ _. TakesPages self.old.pages_out self.new.pages_out size) }
        ensures taken { IfOk result (λ block. TakesObject self.old.room self.new.room size block.piece.at) }
        ensures trimmed { IsTrimmed self.old.room → IsTrimmed self.new.room }
        ensures same { self.new ≡ record self.old {
          lent = self.new.lent;
          lends = self.new.lends;
          objects = self.new.objects;
          pages_out = self.new.pages_out;
          room = self.new.room;
        } }
    {
        if size > GREATEST_BLOCK {
            return Err(GiveRefusal::TooLarge);
        }
        let Some(ticket) = first_idle(&self.seat, share) else {
            return Err(GiveRefusal::NoTicket);
        };
        let piece = self.own.give_block(size)?;
        self.out += 1;
        Ok(self.home.lend(&mut self.seat, ticket, piece))
    }

    /// Gives a block of so many bytes, all of them 0, that stays with this shard. How many are out, `blocks_here` tells.
    ///
    /// # Errors
    /// `TooLarge` above 16,384 bytes, and `NoSpan` where neither the pool of the size's class nor the pages have room.
    pub fn give_here(&mut self, size: u32) -> Result<Piece, GiveRefusal>
        requires some { 1 ≤ size }
        requires few { length self.old.blocks < most_blocks }
        ensures refused { IfErr result (RefusesHere self.old.room size) }
        ensures room { IfOk result (λ _. (size ≤ greatest_block) × ¬ LacksBlock self.old.room size) }
        ensures crowded { IfErr result (λ refusal. refusal ≡ GiveRefusal.NoSpan → IsTrimmed self.old.room → IsCrowded self.old) }
        ensures unchanged { IfErr result (λ _. self.new ≡ self.old) }
        // What is given, and all that changed.
        ensures mine { IfOk result (λ piece. (piece.home ≡ self.old.home) × (piece.owner ≡ self.old.owner)) }
        ensures given { IfOk result (IsBlockOf self.new) }
        ensures zeros { IfOk result (λ piece. piece.bytes ≡ replicate size 0) }
        ensures blocks { IfOk result (λ piece. self.new.blocks ≡ extent_of piece ∷ self.old.blocks) }
        ensures disjoint { IfOk result (λ _. AreDisjoint (page * self.new.pages) self.new.blocks) }
        ensures least { IfOk result (λ piece. SetsAside self.old.objects self.new.objects size piece.at) }
        ensures pages_out { IfOk result (λ _. TakesPages self.old.pages_out self.new.pages_out size) }
        ensures taken { IfOk result (λ piece. TakesObject self.old.room self.new.room size piece.at) }
        ensures trimmed { IsTrimmed self.old.room → IsTrimmed self.new.room }
        ensures same { self.new ≡ record self.old {
          blocks = self.new.blocks;
          objects = self.new.objects;
          pages_out = self.new.pages_out;
          room = self.new.room;
        } }
    {
        let piece = self.own.give_block(size)?;
        self.here += 1;
        Ok(cleared(piece))
    }
}

/// The first ticket of a share, and the first behind it.
fn tickets_of(share: Share) -> (u32, u32)
    ensures bounds { (result.0 ≡ first_ticket share) × (result.1 ≡ end_ticket share) }
    ensures within { (result.0 < tickets) × (result.1 ≤ tickets) }
{
    match share {
        Share::Request => (0, REQUEST_TICKETS),
        Share::Reply => (REQUEST_TICKETS, TICKETS),
    }
}

/// The least idle ticket of the share. None exactly where none is idle.
pub(super) fn first_idle(seat: &OwnerSeat, share: Share) -> Option<u32>
    ensures none { IfNone result (¬ HasIdle seat.now.lent share) }
    ensures some { IfSome result (IsLeastIdle seat.now.lent share) }
{
    let (first, end) = tickets_of(share);
    seat.least_idle(first, end)
}

/// The piece with all its bytes 0.
fn cleared(piece: Piece) -> Piece
    ensures { result ≡ record piece { bytes = replicate (length piece.bytes) 0 } }
{
    let mut piece = piece;
    piece.bytes_mut().fill(0);
    piece
}
