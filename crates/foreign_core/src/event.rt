/// One atomic step of one actor, with the number of its ticket.
///
/// Look, Link and Swing are one turn of the loop of Seastar's `free_cross_cpu`, and TakeWhole with a
/// Back for each item is `drain_cross_cpu_freelist`. Tickets, and so Lend, are this project's: Seastar
/// links the freed objects themselves.
#[derive(Clone, Copy, Debug, PartialEq, Eq)]
pub enum Event {
    /// The owner lends a block with an idle ticket.
    Lend(u32),
    /// The holder of a lent block reads the head of the list.
    Look(u32),
    /// The holder stores the head that it read as the ticket's next.
    Link(u32),
    /// The holder exchanges the head for its ticket, if the head is still the one that it read. Then the
    /// ticket is listed; else it is carried as before, and another try begins with a look.
    Swing(u32),
    /// The owner takes the whole list, and leaves it empty. The list before has come back.
    TakeWhole,
    /// The owner takes back the next ticket of what it took.
    Back,
}
