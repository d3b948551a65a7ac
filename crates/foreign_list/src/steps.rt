//! The ten kinds of step at the table.
ghost use Rattle.std.specs.Prelude.{◌≡◌, ◌≢◌, ℕ, suc, ◌+◌, ◌<◌, ◌≤◌, List, [], ◌∷◌, true, false, length, replicate, Option, IfOk, Some, None, slice_get};
ghost use Rattle.layout.specs.Sizes as sizes;
ghost use Rattle.raw_range.specs.Memory.{Lent};
ghost use Rattle.foreign_list.specs.Blocks.{piece_id_of};
ghost use Rattle.foreign_list.specs.declared.views.View.TheVariants.{Owner, Pass, Spent};
ghost use Rattle.foreign_list.specs.declared.views.Stage.TheVariants.{Carry, Looked, Linked};
ghost use Rattle.foreign_list.specs.inside.Words.{link_to};
ghost use Rattle.foreign_list.specs.inside.Views.{idle_ledger, holder_of, ledger_of, IsPass, IsOwner, at_stage, sent_back, carry, lent_out, put_home};
ghost use Rattle.foreign_list.specs.inside.Plays.{SawList, TookWhole, WalkedOn};
ghost use Rattle.foreign_list.specs.inside.Seats.{IsAt, SameSeat};

use crate::list_table::{ListTable, TableSeat};
use crate::plays::{FirstLook, Home, Lend, Lending, Link, LookAgain, See, Swing, TakeWhole, Walk};
use atomic_table::Table;
use layout::{LIST_WORDS, TICKETS};
use raw_range::{Deposit, Piece};
use std::alloc::{AllocError, Global};

impl ListTable {
    pub(crate) fn new(alloc: Global) -> Result<(ListTable, TableSeat), AllocError>
        ensures { IfOk result (λ r. IsAt r.0 r.1 × (r.1.me ≡ (Owner idle_ledger, []))) }
    {
        match Table::new(alloc, &[0; LIST_WORDS], empty_slots(alloc)?, &()) {
            Ok((table, seat)) => Ok((ListTable { table }, seat)),
            Err(_) => Err(AllocError),
        }
    }

    // 1: a pass is split off the owner's seat, with a ticket that is idle.
    pub(crate) fn split<L: Lending>(
        &self,
        seat: &mut TableSeat,
        ticket: u32,
        piece: &Piece,
    ) -> TableSeat
        requires what { (L.ticket ≡ ticket) × (L.piece_id ≡ piece_id_of piece.now) }
        requires seat { IsAt self.now seat.old × IsOwner seat.old.me.0 }
        requires idle { slice_get (ledger_of seat.old.me.0).lent ticket ≡ Some None }
        ensures seat { SameSeat seat.old seat.new }
        ensures lent { seat.new.me ≡ (Owner (lent_out ticket (piece_id_of piece.now) (ledger_of seat.old.me.0)), seat.old.me.1) }
        ensures pass { IsAt self.now result × (result.me ≡ (Pass (carry ticket (piece_id_of piece.now)), [])) }
    {
        self.table.shared.split_seat::<Lend<L>>(seat)
    }

    // 2: the first look, which takes the slot.
    pub(crate) fn look_first(&self, pass: &mut TableSeat) -> u64
        requires seat { IsAt self.now pass.old × IsPass pass.old.me.0 }
        requires stage { ((holder_of pass.old.me.0).stage ≡ Carry) × ((holder_of pass.old.me.0).has_slot ≡ false) }
        ensures seat { SameSeat pass.old pass.new }
        ensures low { result ≤ sizes.tickets }
        ensures looked { pass.new.me ≡ (
          Pass (at_stage (holder_of pass.old.me.0) (Looked result)),
          ((holder_of pass.old.me.0).ticket, None) ∷ pass.old.me.1,
        ) }
    {
        self.table.shared.load::<FirstLook>(pass, 0)
    }

    // 3: a look with the slot.
    pub(crate) fn look_again(&self, pass: &mut TableSeat) -> u64
        requires seat { IsAt self.now pass.old × IsPass pass.old.me.0 }
        requires stage { ((holder_of pass.old.me.0).stage ≡ Carry) × ((holder_of pass.old.me.0).has_slot ≡ true) }
        ensures seat { SameSeat pass.old pass.new }
        ensures low { result ≤ sizes.tickets }
        ensures looked { pass.new.me ≡ (Pass (at_stage (holder_of pass.old.me.0) (Looked result)), pass.old.me.1) }
    {
        self.table.shared.load::<LookAgain>(pass, 0)
    }

    // 4: the head that was seen becomes the ticket's next.
    pub(crate) fn link(&self, pass: &mut TableSeat, ticket: u32, head: u64)
        requires seat { IsAt self.now pass.old × IsPass pass.old.me.0 }
        requires ticket { (ticket ≡ (holder_of pass.old.me.0).ticket) × (ticket < sizes.tickets) }
        requires stage { (holder_of pass.old.me.0).stage ≡ Looked head }
        ensures seat { SameSeat pass.old pass.new }
        ensures linked { pass.new.me ≡ (Pass (at_stage (holder_of pass.old.me.0) (Linked head)), pass.old.me.1) }
    {
        self.table
            .shared
            .store::<Link>(pass, ticket as usize + 1, head);
    }

    // 5 and 6: a swing, won or lost.
    pub(crate) fn swing(&self, pass: &mut TableSeat, ticket: u32, head: u64) -> u64
        requires seat { IsAt self.now pass.old × IsPass pass.old.me.0 }
        requires ticket { (ticket ≡ (holder_of pass.old.me.0).ticket) × (ticket < sizes.tickets) }
        requires stage { (holder_of pass.old.me.0).stage ≡ Linked head }
        requires piece { (piece : Lent) × (pass.old.me.1 ≡ (ticket, Some piece) ∷ [])
            × (piece_id_of piece ≡ (holder_of pass.old.me.0).piece_id) }

        // The head that was found.
        ensures seat { SameSeat pass.old pass.new }
        ensures low { result ≤ sizes.tickets }

        // Won where it is the head that was expected; else the pass carries the block again.
        ensures won { result ≡ head → pass.new.me ≡ (Spent, []) }
        ensures lost { result ≢ head → pass.new.me ≡ (Pass (sent_back (holder_of pass.old.me.0) result), pass.old.me.1) }
    {
        self.table
            .shared
            .compare_exchange::<Swing>(pass, 0, head, ticket as u64 + 1)
    }

    // 7: the head is exchanged for none, and the list is the walk.
    pub(crate) fn take_head(&self, seat: &mut TableSeat) -> u64
        requires seat { IsAt self.now seat.old × IsOwner seat.old.me.0 }
        requires walk { ((ledger_of seat.old.me.0).walk ≡ []) × ((ledger_of seat.old.me.0).hand ≡ None) }
        ensures seat { SameSeat seat.old seat.new }
        ensures taken { TookWhole (ledger_of seat.old.me.0) seat.old.me result seat.new.me }
    {
        self.table.shared.swap::<TakeWhole>(seat, 0, 0)
    }

    // 8: the first of the walk comes in hand.
    pub(crate) fn walk_on(&self, seat: &mut TableSeat, ticket: u32) -> u64
        requires seat { IsAt self.now seat.old × IsOwner seat.old.me.0 }
        requires first { (left : List ℕ) × ((ledger_of seat.old.me.0).walk ≡ ticket ∷ left) }
        requires hand { ((ledger_of seat.old.me.0).hand ≡ None) × (ticket < sizes.tickets) }
        ensures seat { SameSeat seat.old seat.new }
        ensures walked { WalkedOn ticket (ledger_of seat.old.me.0) seat.old.me result seat.new.me }
    {
        self.table.shared.load::<Walk>(seat, ticket as usize + 1)
    }

    // 9: the ticket in hand is idle. Its own word is read once more: no other thread writes that one now, as they do the head.
    pub(crate) fn put_home(&self, seat: &mut TableSeat, ticket: u32)
        requires seat { IsAt self.now seat.old × IsOwner seat.old.me.0 }
        requires hand { ((ledger_of seat.old.me.0).hand ≡ Some ticket) × (ticket < sizes.tickets) }
        requires slot { seat.old.me.1 ≡ (ticket, None) ∷ [] }
        ensures seat { SameSeat seat.old seat.new }
        ensures idle { seat.new.me ≡ (Owner (put_home ticket (ledger_of seat.old.me.0)), []) }
    {
        self.table.shared.load::<Home>(seat, ticket as usize + 1);
    }

    // 10: the head is read. Where it is none, the list is the walk as it is.
    pub(crate) fn see_head(&self, seat: &mut TableSeat) -> u64
        requires seat { IsAt self.now seat.old × IsOwner seat.old.me.0 }
        requires walk { ((ledger_of seat.old.me.0).walk ≡ []) × ((ledger_of seat.old.me.0).hand ≡ None) }
        ensures seat { SameSeat seat.old seat.new }
        ensures seen { SawList (ledger_of seat.old.me.0) seat.old.me result seat.new.me }
    {
        self.table.shared.load::<See>(seat, 0)
    }
}

// A slot for each ticket, with nothing in it.
fn empty_slots(alloc: Global) -> Result<Vec<Deposit>, AllocError>
    ensures { IfOk result (λ slots. slots.items ≡ replicate sizes.tickets None) }
{
    let mut slots = Vec::with_capacity(alloc, TICKETS as usize)?;
    for _ in 0..TICKETS {
        slots.push(Deposit::empty())?;
    }
    Ok(slots)
}
