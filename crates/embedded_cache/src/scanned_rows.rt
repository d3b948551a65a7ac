/// What a scan with values wrote.
#[derive(Clone, Copy, Debug, PartialEq, Eq)]
pub struct ScannedRows {
    /// How many rows.
    pub rows: u32,
    /// How many bytes these take.
    pub bytes: u32,
    /// How many the next row takes, where there was no room for it; else 0.
    pub wanted: u32,
}
