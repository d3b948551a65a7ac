/// What a patch did.
#[derive(Clone, Copy, Debug, PartialEq, Eq)]
pub enum Patch {
    /// The bytes stand in the value, and its row is the one used last.
    Patched,
    /// No row has the key. Nothing changed.
    Missing,
    /// The value ends before the last of the bytes would stand. Nothing changed.
    Short,
}
