//! The owner's seat at a list.
ghost use Rattle.std.specs.Prelude.{◌≡◌, ℕ, ◌<◌, ◌≤◌, ◌↔◌, IsTrue, IfSome, IfNone, length};
ghost use Rattle.layout.specs.Sizes as sizes;
ghost use Rattle.foreign_list.specs.OwnerSeats.{IsIdle};

use crate::idle_tickets::{is_marked, least_marked};
use crate::list_table::TableSeat;
use layout::TICKETS;
use raw_range::Site;
use std::marker::Model;

/// The owner's side of a list. It says which tickets are idle, what was lent with each other one, and what was taken and
/// has not come back.
///
/// # Examples
/// ```
/// let (list, mut seat) = Foreign::new(alloc, 3)?;
/// let ticket = seat.least_idle(0, TICKETS); // Some(0)
/// let block = list.lend(&mut seat, 0, piece);
/// let idle = seat.is_idle(0); // false, until `next_back` gives what was lent
/// ```
#[derive(Drop)]
pub struct OwnerSeat {
    pub(crate) seat: TableSeat,
    pub(crate) idle: u64,
    // The word that leads to the first of the walk.
    pub(crate) first: u64,
    // Where the piece lies that was lent last with each ticket.
    pub(crate) sites: Vec<Option<Site>>,
}

impl Model for OwnerSeat {
    ghost use Rattle.foreign_list.specs.OwnerSeats.{OwnerState};
    ghost use Rattle.foreign_list.specs.inside.Seats.{state_of, IsConsistentSeat};

    ghost Value = { OwnerState };

    ghost view = { λ s. state_of s.seat };

    ghost invariant = { λ s. IsConsistentSeat s.seat s.idle s.first s.sites.items };
}

impl OwnerSeat {
    /// What holds of each seat: how many tickets there are.
    pub fn facts(&self)
        ensures tickets { length self.now.lent ≡ sizes.tickets }
    {
        let _ = &self.first;
    }

    /// Whether the ticket is idle: it may be lent. A ticket is idle until it is lent, and again once `next_back` gave it. From
    /// [`TICKETS`] on there is none.
    pub fn is_idle(&self, ticket: u32) -> bool
        ensures { IsTrue result ↔ IsIdle self.now ticket }
    {
        ticket < TICKETS && is_marked(self.idle, ticket)
    }

    /// The least idle ticket from the first on, below the end. None exactly where none of these is idle.
    pub fn least_idle(&self, first: u32, end: u32) -> Option<u32>
        requires { (first < sizes.tickets) × (end ≤ sizes.tickets) }
        ensures none { IfNone result ((t : ℕ) → first ≤ t → t < end → ¬ IsIdle self.now t) }
        ensures some { IfSome result (λ ticket. (first ≤ ticket) × (ticket < end) × IsIdle self.now ticket) }
        ensures least { IfSome result (λ ticket. (t : ℕ) → first ≤ t → t < ticket → ¬ IsIdle self.now t) }
    {
        match least_marked(self.idle, first) {
            Some(ticket) if ticket < end => Some(ticket),
            _ => None,
        }
    }
}
