//! The slot that a seat has taken, read and written.
ghost use Rattle.std.specs.Prelude.{◌≡◌, ℕ, ◌≤◌, ◌<◌, List, [], ◌∷◌, Bool, true, false, Some, None};
ghost use Rattle.layout.specs.Sizes as sizes;
ghost use Rattle.raw_range.specs.Memory.{Lent};
ghost use Rattle.foreign_list.specs.declared.views.View.TheVariants.{Pass};
ghost use Rattle.foreign_list.specs.declared.views.Stage.TheVariants.{Carry, Looked};
ghost use Rattle.foreign_list.specs.inside.Views.{holder_of, ledger_of, IsPass, IsOwner, at_stage};
ghost use Rattle.foreign_list.specs.inside.Plays.{BroughtHome};
ghost use Rattle.foreign_list.specs.inside.Seats.{IsAt, SameSeat, slots_held};

use crate::list_table::{ListTable, TableSeat};
use raw_range::Deposit;

impl ListTable {
    // A look, which takes the slot where the pass has it not.
    pub(crate) fn look(&self, pass: &mut TableSeat, ticket: u32, has_slot: bool) -> u64
        requires seat { IsAt self.now pass.old × IsPass pass.old.me.0 }
        requires stage { ((holder_of pass.old.me.0).stage ≡ Carry) × ((holder_of pass.old.me.0).has_slot ≡ has_slot) }
        requires ticket { ticket ≡ (holder_of pass.old.me.0).ticket }
        requires slots { pass.old.me.1 ≡ slots_held has_slot ticket }
        ensures seat { SameSeat pass.old pass.new }
        ensures low { result ≤ sizes.tickets }
        ensures looked { pass.new.me ≡ (Pass (at_stage (holder_of pass.old.me.0) (Looked result)), (ticket, None) ∷ []) }
    {
        if has_slot {
            self.look_again(pass)
        } else {
            self.look_first(pass)
        }
    }

    // The right to a piece's bytes comes into the slot.
    pub(crate) fn put_in(&self, seat: &mut TableSeat, ticket: u32, deposit: Deposit)
        requires seat { IsAt self.now seat.old }
        requires slot { seat.old.me.1 ≡ (ticket, None) ∷ [] }
        ensures seat { SameSeat seat.old seat.new }
        ensures slot { seat.new.me ≡ (seat.old.me.0, (ticket, deposit) ∷ []) }
    {
        self.table.shared.exchange(seat, ticket as usize, deposit);
    }

    // The right comes out of the slot.
    pub(crate) fn take_out(&self, seat: &mut TableSeat, ticket: u32) -> Deposit
        requires seat { IsAt self.now seat.old }
        requires slot { (piece : Lent) × (seat.old.me.1 ≡ (ticket, Some piece) ∷ []) }
        ensures seat { SameSeat seat.old seat.new }
        ensures deposit { seat.old.me.1 ≡ (ticket, result) ∷ [] }
        ensures slot { seat.new.me ≡ (seat.old.me.0, (ticket, None) ∷ []) }
    {
        self.table
            .shared
            .exchange(seat, ticket as usize, Deposit::empty())
    }

    // The first of the walk comes home: the word that leads to the next, and the right to the piece's bytes.
    pub(crate) fn bring_home(&self, seat: &mut TableSeat, ticket: u32) -> (u64, Deposit)
        requires seat { IsAt self.now seat.old × IsOwner seat.old.me.0 × (seat.old.me.1 ≡ []) }
        requires first { (left : List ℕ) × ((ledger_of seat.old.me.0).walk ≡ ticket ∷ left) }
        requires hand { ((ledger_of seat.old.me.0).hand ≡ None) × (ticket < sizes.tickets) }
        ensures seat { SameSeat seat.old seat.new }
        ensures home { (piece : Lent) × (result.1 ≡ Some piece)
            × BroughtHome ticket (ledger_of seat.old.me.0) result.0 piece seat.new.me }
    {
        let next = self.walk_on(seat, ticket);
        let deposit = self.take_out(seat, ticket);
        self.put_home(seat, ticket);
        (next, deposit)
    }
}
