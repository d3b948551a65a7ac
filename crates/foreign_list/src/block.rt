//! A lent block in the hands of whoever has it.
ghost use Rattle.std.specs.Prelude.{◌≡◌, ◌≢◌, IfOk, IfErr};
ghost use Rattle.foreign_list.specs.Blocks.{raced, spent};

use crate::linked_block::LinkedBlock;
use crate::list_table::{ListTable, TableSeat};
use crate::released::{Raced, Released};
use raw_range::Piece;
use std::marker::Model;

/// A block that was lent: the only holder of its ticket and of its bytes. It may go to any thread.
///
/// It comes home where it is released. One that is dropped never does: its ticket is not idle for good.
///
/// # Examples
/// ```
/// let mut block = list.lend(&mut seat, ticket, piece);
/// block.bytes_mut().fill(7);
/// let home = block.home(); // the owner's number; `block.ticket()` is the ticket
/// match block.release() {
///     Ok(released) => tally.add(released),
///     Err(raced) => waiting = Some(raced.block), // to be released again
/// }
/// ```
#[derive(Drop)]
pub struct ForeignBlock<'f> {
    pub(crate) list: &'f ListTable,
    pub(crate) pass: TableSeat,
    pub(crate) piece: Piece,
    pub(crate) ticket: u32,
    pub(crate) has_slot: bool,
}

impl<'f> Model for ForeignBlock<'f> {
    ghost use Rattle.foreign_list.specs.Blocks.{Block};
    ghost use Rattle.foreign_list.specs.declared.views.Stage.TheVariants.{Carry};
    ghost use Rattle.foreign_list.specs.inside.Seats.{id_of, block_of, IsConsistentPass};

    ghost Value = { Block };

    ghost view = { λ b. block_of (id_of b.list.now) b.pass b.piece b.ticket };

    ghost invariant = { λ b. IsConsistentPass (id_of b.list.now) b.pass b.piece b.ticket b.has_slot Carry };
}

impl<'f> ForeignBlock<'f> {
    ghost use Rattle.std.specs.Borrow.{sem};
    ghost use Rattle.foreign_list.specs.Writes.{LendsBytes};

    /// Its bytes.
    pub fn bytes(&self) -> &[u8]
        ensures { result.now ≡ self.now.piece.bytes }
    {
        self.piece.bytes()
    }

    /// Its bytes, to be written.
    pub fn bytes_mut(&mut self) -> &mut [u8]
        ensures* lends { sem 𝓛 (LendsBytes self.entry result) }
        ensures value { result.now ≡ self.old.piece.bytes }
    {
        self.piece.bytes_mut()
    }

    /// The number of the shard that owns it.
    pub fn home(&self) -> u32
        ensures { result ≡ self.now.piece.owner }
    {
        self.piece.owner()
    }

    /// The ticket that it was lent with, below [`layout::TICKETS`].
    pub fn ticket(&self) -> u32
        ensures { result ≡ self.now.ticket }
    {
        self.ticket
    }

    /// Looks at the list's head and links the block to it: the first half of a release. It can't be refused.
    pub fn begin(self) -> LinkedBlock<'f>
        ensures { result.block ≡ self.entry }
    {
        let ForeignBlock {
            list,
            mut pass,
            piece,
            ticket,
            has_slot,
        } = self;
        let head = list.look(&mut pass, ticket, has_slot);
        list.link(&mut pass, ticket, head);
        LinkedBlock {
            list,
            pass,
            piece,
            ticket,
            head,
        }
    }

    /// Gives the block back to its owner, who need not be ready for it: `begin`, and then `swing`. One try, which waits for nobody.
    ///
    /// # Errors
    /// `Raced`, as `swing`: only where the head was changed after this block looked at it.
    pub fn release(self) -> Result<Released<'f>, Raced<'f>>
        ensures released { IfOk result (λ pass. pass ≡ spent self.entry) }
        ensures raced { IfErr result (λ r. r.block ≡ raced self.entry r.found) }
        ensures found { IfErr result (λ r. r.found ≢ r.expected) }
    {
        self.begin().swing()
    }
}
