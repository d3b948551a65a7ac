//! What is handed back where there is no memory for a node.
use foreign_list::OwnerSeat;

/// The seat and the links with which a node was to be opened, as they came.
#[derive(Drop)]
pub struct NodeRefusal<L: Drop> {
    pub seat: OwnerSeat,
    pub links: Vec<L>,
}
