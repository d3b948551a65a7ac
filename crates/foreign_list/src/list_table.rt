//! The words and slots of a list, and the rule of their steps. A slot holds the right to a piece's bytes and takes no memory.
ghost use Rattle.std.specs.Prelude.{◌≡◌};
ghost use Rattle.layout.specs.Sizes as sizes;

use crate::views::View;
use atomic_table::{Seat, Table, TableRule};
use raw_range::Deposit;
use std::alloc::Global;

/// A seat at the table: what one thread knows of it. It has no bytes.
pub(crate) type TableSeat = Seat<Deposit, View>;

/// The rule of the table.
pub struct ListRule;

impl TableRule<Deposit, View, ()> for ListRule {
    ghost use Rattle.foreign_list.specs.inside.Rule.{IsConsistent};
    ghost use Rattle.foreign_list.specs.inside.Views.{idle_ledger};
    ghost use Rattle.foreign_list.specs.declared.views.View.TheVariants.{Owner};

    ghost holds = { λ _ s. IsConsistent s };

    ghost first = { λ _. Owner idle_ledger };
}

/// The words and slots of one list: the head, one next word and one slot for each ticket, and a cache line of words that stay 0.
///
/// These lie behind the others: so the words of two lists never share a line.
#[derive(Drop)]
pub struct ListTable {
    pub(crate) table: Table<Deposit, View, (), ListRule, Global>,
    ghost counts: { (table.shared.table_id.words ≡ sizes.list_words) × (table.shared.table_id.slots ≡ sizes.tickets) },
}
