//! The taking of a whole list.
ghost use Rattle.std.specs.Prelude.{◌≡◌, [], None};
ghost use Rattle.foreign_list.specs.inside.Views.{ledger_of, IsOwner};
ghost use Rattle.foreign_list.specs.inside.Plays.{TookWhole};
ghost use Rattle.foreign_list.specs.inside.Seats.{IsAt, SameSeat};

use crate::list_table::{ListTable, TableSeat};

impl ListTable {
    // The list is the walk. It is looked at first: where it is empty, no word is written that other threads read.
    pub(crate) fn take_list(&self, seat: &mut TableSeat) -> u64
        requires seat { IsAt self.now seat.old × IsOwner seat.old.me.0 }
        requires walk { ((ledger_of seat.old.me.0).walk ≡ []) × ((ledger_of seat.old.me.0).hand ≡ None) }
        ensures seat { SameSeat seat.old seat.new }
        ensures taken { TookWhole (ledger_of seat.old.me.0) seat.old.me result seat.new.me }
    {
        let found = self.see_head(seat);
        if found == 0 {
            return found;
        }
        self.take_head(seat)
    }
}
