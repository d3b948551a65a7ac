//! A block on its way onto the list.
ghost use Rattle.std.specs.Prelude.{◌≡◌, ◌≢◌, ◌≤◌, IfOk, IfErr};
ghost use Rattle.layout.specs.Sizes as sizes;
ghost use Rattle.foreign_list.specs.Blocks.{raced, spent};
ghost use Rattle.foreign_list.specs.inside.Words.{ticket_of};

use crate::block::ForeignBlock;
use crate::list_table::{ListTable, TableSeat};
use crate::released::{Raced, Released};
use raw_range::Piece;
use std::marker::Model;

/// A block that saw a head and is linked to it. One that is dropped never comes home.
///
/// # Examples
/// ```
/// let linked = block.begin();
/// match linked.swing() {
///     Ok(released) => tally.add(released), // the block is on the list
///     Err(raced) => waiting = Some(raced.block), // to be begun again
/// }
/// ```
#[derive(Drop)]
pub struct LinkedBlock<'f> {
    pub(crate) list: &'f ListTable,
    pub(crate) pass: TableSeat,
    pub(crate) piece: Piece,
    pub(crate) ticket: u32,
    pub(crate) head: u64,
}

impl<'f> Model for LinkedBlock<'f> {
    ghost use Rattle.std.specs.Prelude.{◌≤◌, true};
    ghost use Rattle.layout.specs.Sizes as sizes;
    ghost use Rattle.foreign_list.specs.Blocks.{Linked};
    ghost use Rattle.foreign_list.specs.declared.views.Stage.TheVariants as stage;
    ghost use Rattle.foreign_list.specs.inside.Words.{ticket_of};
    ghost use Rattle.foreign_list.specs.inside.Seats.{id_of, block_of, IsConsistentPass};

    ghost Value = { Linked };

    ghost view = { λ b. record { block = block_of (id_of b.list.now) b.pass b.piece b.ticket; expected = ticket_of b.head } };

    ghost invariant = { λ b. (b.head ≤ sizes.tickets)
        × IsConsistentPass (id_of b.list.now) b.pass b.piece b.ticket true (stage.Linked b.head) };
}

// A word of the table as a ticket.
fn named(word: u64) -> Option<u32>
    requires { word ≤ sizes.tickets }
    ensures { result ≡ ticket_of word }
{
    if word == 0 {
        None
    } else {
        Some((word - 1) as u32)
    }
}

impl<'f> LinkedBlock<'f> {
    /// Exchanges the head for this block where it is still the head that `begin` saw: the block is on the list then.
    ///
    /// # Errors
    /// `Raced`: the head is another. So another's swing or a take-whole changed it after `begin`, which the count of changes
    /// that the block has seen shows. The block is the caller's still, and may be released again.
    pub fn swing(self) -> Result<Released<'f>, Raced<'f>>
        ensures released { IfOk result (λ pass. pass ≡ spent self.entry.block) }
        ensures raced { IfErr result (λ r. r.block ≡ raced self.entry.block r.found) }
        ensures expected { IfErr result (λ r. r.expected ≡ self.entry.expected) }
        ensures found { IfErr result (λ r. r.found ≢ r.expected) }
    {
        let LinkedBlock {
            list,
            mut pass,
            piece,
            ticket,
            head,
        } = self;
        let site = piece.site();
        list.put_in(&mut pass, ticket, piece.into_deposit());
        let found = list.swing(&mut pass, ticket, head);
        if found == head {
            return Ok(Released { list, pass });
        }
        let piece = site.join(list.take_out(&mut pass, ticket));
        Err(Raced {
            block: ForeignBlock {
                list,
                pass,
                piece,
                ticket,
                has_slot: true,
            },
            expected: named(head),
            found: named(found),
        })
    }
}
