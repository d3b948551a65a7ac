/// Which piece it is, whatever its bytes are: its range, its owner, and its place and length there. For contracts alone.
pub struct PieceId {
    pub range: *mut u8,
    pub owner: u64,
    pub at: u64,
    pub len: u64,
}
