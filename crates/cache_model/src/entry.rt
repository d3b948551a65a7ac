/// What a shard did: one event of its journal.
#[derive(Clone, Copy, Debug, PartialEq, Eq)]
pub enum Entry {
    /// The part of the command with this number was done here.
    Done(u32),
    /// The row of the put with this number was evicted here.
    Evicted(u32),
}
