/// Where a ticket stands between the owner and the holder of a lent block. An expected head is the
/// ticket that was at the head of the list when the holder looked, or none if the list was empty.
#[derive(Clone, Copy, Debug, PartialEq, Eq)]
pub enum TicketState {
    /// With the owner, and may be lent.
    Idle,
    /// With the holder of a block.
    Carried,
    /// With the holder, who expects this head.
    Looked(Option<u32>),
    /// With the holder, who expects this head and has stored it as the ticket's next.
    Linked(Option<u32>),
    /// On the list.
    Listed,
    /// Taken with the list, and not yet back.
    Walked,
}

impl TicketState {
    ghost use Rattle.std.specs.Prelude.{◌≡◌};
    ghost use Rattle.foreign_core.specs.Tickets.{taken};

    // What a take-whole makes of it.
    pub(crate) fn taken(self) -> Self
        ensures { result ≡ taken self }
    {
        match self {
            TicketState::Listed => TicketState::Walked,
            other => other,
        }
    }
}
