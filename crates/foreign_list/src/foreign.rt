//! The list of one owner.
use crate::list_table::ListTable;
use std::marker::Model;

/// The list of one owner, which blocks come home over.
///
/// # Examples
/// ```
/// let (list, mut seat) = Foreign::new(alloc, 3)?;
/// let block = list.lend(&mut seat, 0, piece); // a piece of owner 3
/// let released = block.release().is_ok(); // on any thread
/// list.take_whole(&mut seat);
/// while let Some(back) = list.next_back(&mut seat) {
///     home.push(back)?; // its ticket is 0, and its piece the one that was lent
/// }
/// seat.facts();
/// list.close(seat); // once each ticket is idle
/// ```
#[derive(Drop)]
pub struct Foreign {
    pub(crate) table: ListTable,
    pub(crate) owner: u32,
}

impl Model for Foreign {
    ghost use Rattle.foreign_list.specs.Lists.{OwnedList};

    ghost Value = { OwnedList };

    ghost view = { λ f. record { id = f.table.table.shared.table_id; owner = f.owner } };
}
