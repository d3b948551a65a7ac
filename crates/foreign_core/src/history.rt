//! A history of events, replayed.
ghost use Rattle.std.specs.Prelude.{◌≡◌, ◌≤◌, IfOk, IfSome, length};
ghost use Rattle.foreign_core.specs.Tickets.{start};
ghost use Rattle.foreign_core.specs.Histories.{run, EachInOneState, EachReturnsOnce, NewestReturnsFirst, EachTakenReturns};

use crate::event::Event;
use crate::list_core::Core;
use std::alloc::{AllocError, Global};

/// The core of this many tickets after these events, begun with all tickets idle. None exactly where
/// some event is not possible when its turn comes.
pub fn replay(alloc: Global, tickets: u32, events: &[Event]) -> Result<Option<Core>, AllocError>
    ensures run { IfOk result (λ after. after ≡ run (start tickets) events.now) }
    ensures tickets { IfOk result (λ after. IfSome after (λ core. length core.states ≡ tickets)) }
{
    let mut core = Core::new(alloc, tickets)?;
    for event in events {
        if !core.step(event) {
            return Ok(None);
        }
    }
    Ok(Some(core))
}

/// The law of every history, over all lists of possible events.
///
/// After each, every ticket is in one state and stands where its state says. Between a lend of a ticket and
/// the next, one swing of it wins, then one take-whole comes, and then the ticket comes back, once. What
/// one take-whole took comes back newest first, and all of it before the next take-whole.
///
/// A swing wins where it finds the head that its ticket expects, and the ticket of a `Back` is the first
/// of the walk.
pub fn law_of_histories()
    ensures one_state { EachInOneState }
    ensures once { EachReturnsOnce }
    ensures newest_first { NewestReturnsFirst }
    ensures all_return { EachTakenReturns }
{}
