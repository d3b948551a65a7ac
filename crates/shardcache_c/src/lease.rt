//! A lent block as its handle keeps it.
use foreign_list::{ForeignBlock, Released};

/// What the handle of a block keeps: a block that is lent and was not released, or what is left of one that was, or neither.
///
/// The room for it is taken once, where the handle is opened: so no lend takes memory, and no release gives any back.
#[derive(Drop)]
pub enum Lease {
    Idle,
    Out(ForeignBlock<'static>),
    /// The block came on its owner's list: only the step that put it there makes this.
    Home(Released<'static>),
}
