//! Numbers in decimal, without a leading zero, as fields of lines spell them.
//!
//! # Promises
//! - A number of a script or of a journal is spelled by its decimal digits and by no other bytes
//!   (`numbers_are_spelled_once`).
#![tactic(auto)]

mod law;
mod numeral;

pub use law::numbers_are_spelled_once;
pub use numeral::number_of;
