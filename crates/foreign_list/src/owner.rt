//! What the owner does with a list: lending, taking whole, taking back, closing.
ghost use Rattle.std.specs.Prelude.{◌≡◌, ℕ, List, [], IfOk, IfSome, IfNone, IsNone, All, None, replicate};
ghost use Rattle.layout.specs.Sizes as sizes;
ghost use Rattle.foreign_list.specs.OwnerSeats.{IsSeatOf, IsAtRest, IsIdle, all_idle, after_lend, after_take_whole, ComesBack};
ghost use Rattle.foreign_list.specs.Blocks.{piece_id_of, IsFresh};

use crate::block::ForeignBlock;
use crate::foreign::Foreign;
use crate::idle_tickets::{ALL_IDLE, marked_idle, marked_lent};
use crate::list_table::ListTable;
use crate::owner_seat::OwnerSeat;
use layout::TICKETS;
use raw_range::{Piece, Site};
use std::alloc::{AllocError, Global};
use std::marker::Brand;

/// What came back of a lent block.
///
/// # Examples
/// ```
/// list.take_whole(&mut seat);
/// while let Some(back) = list.next_back(&mut seat) {
///     range.put(back.piece); // the ticket `back.ticket` is idle again
/// }
/// ```
#[derive(Drop)]
pub struct Returned {
    pub ticket: u32,
    pub piece: Piece,
}

impl Foreign {
    /// The list of this owner, with all tickets idle, and the owner's seat at it.
    ///
    /// # Errors
    /// There is no memory.
    pub fn new(alloc: Global, owner: u32) -> Result<(Foreign, OwnerSeat), AllocError>
        ensures owner { IfOk result (λ r. r.0.owner ≡ owner) }
        ensures idle { IfOk result (λ r. r.1 ≡ all_idle r.0.id) }
        ensures rest { IfOk result (λ r. IsAtRest r.0 r.1) }
    {
        let (table, seat) = ListTable::new(alloc)?;
        let sites = no_sites(alloc)?;
        Ok((
            Foreign { table, owner },
            OwnerSeat {
                seat,
                idle: ALL_IDLE,
                first: 0,
                sites,
            },
        ))
    }

    /// Lends a piece of the owner, with an idle ticket. Nothing else raises the count of lends.
    pub fn lend<'f>(&'f self, seat: &mut OwnerSeat, ticket: u32, piece: Piece) -> ForeignBlock<'f>
        requires seat { IsSeatOf self.now seat.old }
        requires idle { IsIdle seat.old ticket }
        requires piece { piece.owner ≡ self.now.owner }
        ensures lent { seat.new ≡ after_lend seat.old ticket (piece_id_of piece) }
        ensures block { IsFresh self.now.id ticket piece result }
    {
        let pass = self.table.split::<Brand>(&mut seat.seat, ticket, &piece);
        seat.idle = marked_lent(seat.idle, ticket);
        seat.sites[ticket as usize] = Some(piece.site());
        ForeignBlock {
            list: &self.table,
            pass,
            piece,
            ticket,
            has_slot: false,
        }
    }

    /// Takes the whole list, by one exchange, or by a look where it is empty: its tickets, the newest first, are the walk, and the
    /// list is empty. The count of take-wholes shows it.
    pub fn take_whole(&self, seat: &mut OwnerSeat)
        requires seat { IsSeatOf self.now seat.old }
        requires walk { seat.old.walk ≡ [] }
        ensures { (taken : List ℕ) × (seat.new ≡ after_take_whole seat.old taken) }
    {
        seat.first = self.table.take_list(&mut seat.seat);
    }

    /// Gives the first of the walk, with the piece that was lent with it. Its ticket is idle again. None exactly where the walk is
    /// empty.
    pub fn next_back(&self, seat: &mut OwnerSeat) -> Option<Returned>
        requires seat { IsSeatOf self.now seat.old }
        ensures none { IfNone result ((seat.old.walk ≡ []) × (seat.new ≡ seat.old)) }
        ensures some { IfSome result (λ r. ComesBack seat.old r.ticket r.piece seat.new) }
    {
        if seat.first == 0 {
            return None;
        }
        let ticket = (seat.first - 1) as u32;
        let (next, deposit) = self.table.bring_home(&mut seat.seat, ticket);
        seat.first = next;
        seat.idle = marked_idle(seat.idle, ticket);
        let Some(site) = seat.sites[ticket as usize] else {
            unreachable!()
        };
        Some(Returned {
            ticket,
            piece: site.join(deposit),
        })
    }

    /// Ends the list.
    pub fn close(self, seat: OwnerSeat)
        requires seat { IsSeatOf self seat }
        requires idle { All IsNone seat.lent }
    {
        drop(seat);
        drop(self);
    }
}

// No site for any ticket.
fn no_sites(alloc: Global) -> Result<Vec<Option<Site>>, AllocError>
    ensures { IfOk result (λ sites. sites.items ≡ replicate sizes.tickets None) }
{
    vec![in alloc; None; TICKETS as usize]
}
