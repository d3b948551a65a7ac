//! A caller of `foreign_list`: pieces are lent, come home over the list, and the list is closed.
ghost use Rattle.std.specs.Prelude.{◌≡◌, [], IfOk, IfErr};
ghost use Rattle.foreign_list.specs.OwnerSeats.{IsSeatOf};

use foreign_list::{Foreign, ForeignBlock, OwnerSeat, Piece, Returned};
use layout::TICKETS;
use std::alloc::AllocError;

/// Lends a piece of the owner with the least idle ticket.
///
/// # Errors
/// The piece, where no ticket is idle.
pub fn lend_piece<'f>(
    list: &'f Foreign,
    seat: &mut OwnerSeat,
    piece: Piece,
) -> Result<ForeignBlock<'f>, Piece>
    requires seat { IsSeatOf list.now seat.old × (seat.old.walk ≡ []) }
    requires owner { piece.owner ≡ list.now.owner }
    ensures seat { IsSeatOf list.now seat.new × (seat.new.walk ≡ []) }
    ensures lent { IfOk result (λ block. block.piece ≡ piece) }
    ensures kept { IfErr result (λ back. back ≡ piece) }
{
    let Some(ticket) = seat.least_idle(0, TICKETS) else {
        return Err(piece);
    };
    Ok(list.lend(seat, ticket, piece))
}

/// Takes back what was released since the last call, into `home`.
///
/// # Errors
/// Want of memory for `home`. The piece that came then is lost; those behind it come by `Foreign::next_back`.
pub fn take_back(
    list: &Foreign,
    seat: &mut OwnerSeat,
    home: &mut Vec<Returned>,
) -> Result<(), AllocError>
    requires { IsSeatOf list.now seat.old × (seat.old.walk ≡ []) }
    ensures seat { IsSeatOf list.now seat.new }
    ensures walk { IfOk result (λ _. seat.new.walk ≡ []) }
{
    list.take_whole(seat);
    while let Some(back) = list.next_back(seat) {
        home.push(back)?;
    }
    Ok(())
}

/// Ends a list of which all tickets are idle.
///
/// # Errors
/// The list and its seat as they were, where a ticket is not idle.
pub fn close_idle(list: Foreign, seat: OwnerSeat) -> Result<(), (Foreign, OwnerSeat)>
    requires { IsSeatOf list seat }
    ensures { IfErr result (λ left. (left.0 ≡ list) × (left.1 ≡ seat)) }
{
    for ticket in 0..TICKETS {
        if !seat.is_idle(ticket) {
            return Err((list, seat));
        }
    }
    seat.facts();
    list.close(seat);
    Ok(())
}
