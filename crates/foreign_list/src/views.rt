//! What the seats at the table know. No value of these is made.
use crate::piece_id::PieceId;
use std::collections::LinkedList;

/// How far a pass has come. A word is named that it expects at the head.
pub enum Stage {
    Carry,
    Looked(u64),
    Linked(u64),
}

/// What the pass of a block knows, until it comes on the list.
pub struct Holder {
    pub stage: Stage,
    pub ticket: u64,
    pub piece_id: PieceId,
    // Whether the pass has its ticket's slot.
    pub has_slot: bool,
    // How many changes of the head it has seen, and the head that its last lost swing found.
    pub seen: u64,
    pub met: u64,
}

/// What the owner knows.
pub struct Ledger {
    // The piece lent with each ticket, the tickets of the walk, and the ticket in hand.
    pub lent: LinkedList<Option<PieceId>>,
    pub walk: LinkedList<u64>,
    pub hand: Option<u64>,
    pub lends: u64,
    pub take_wholes: u64,
    // How many of the take-wholes found a head other than none.
    pub changes: u64,
}

pub enum View {
    Owner(Ledger),
    Pass(Holder),
    Spent,
}
