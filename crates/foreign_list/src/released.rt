//! What is left of a block that came on its list.
use crate::block::ForeignBlock;
use crate::list_table::{ListTable, TableSeat};
use std::marker::Model;

/// The pass of a block that came on its owner's list. Only the step that puts the block there makes it, and a `Tally` counts it.
///
/// # Examples
/// ```
/// match block.release() {
///     Ok(released) => {
///         tally.add(released); // counts the block once; a pass may be dropped instead
///         None
///     }
///     Err(Raced { block, .. }) => Some(block),
/// }
/// ```
#[derive(Drop)]
pub struct Released<'f> {
    pub(crate) list: &'f ListTable,
    pub(crate) pass: TableSeat,
}

impl<'f> Model for Released<'f> {
    ghost use Rattle.std.specs.Prelude.{◌≡◌};
    ghost use Rattle.foreign_list.specs.Blocks.{SpentPass};
    ghost use Rattle.foreign_list.specs.declared.views.View.TheVariants.{Spent};
    ghost use Rattle.foreign_list.specs.inside.Seats.{id_of, IsAt};

    ghost Value = { SpentPass };

    ghost view = { λ r. record { list = id_of r.list.now; pass = r.pass.id } };

    ghost invariant = { λ r. IsAt r.list.now r.pass × (r.pass.me.0 ≡ Spent) };
}

/// Another's swing or a take-whole came between a block's look at the head and its swing. The block is the caller's still.
///
/// # Examples
/// ```
/// let mut block = block;
/// for _ in rt.forever() {
///     match block.release() {
///         Ok(released) => return released,
///         Err(raced) => block = raced.block, // the head was `raced.expected`, and is `raced.found`
///     }
/// }
/// unreachable!()
/// ```
#[derive(Drop)]
pub struct Raced<'f> {
    pub block: ForeignBlock<'f>,
    /// The head as the look saw it, and as the swing found it. None is the empty list.
    pub expected: Option<u32>,
    pub found: Option<u32>,
}
