//! A row in the content of a segment's object: a header of 32 bytes, the key, the value, and zero bytes up to the size.
//! The header ends with two links to other rows, of a doubly linked list; which rows these are is not said here. Bytes of a
//! value may be written over where they stand. Beside it, how keys stand one behind another in the reply to a scan.
//!
//! The layout is this project's. What the bytes mean is `specs/Rows.antt`, in both directions: the bytes of a row, and
//! the row that bytes are read as.
//!
//! # Choices
//! - A link is a number here; that it is a place is known to `row_cache` alone. A written link leaves the row, its number and
//!   its other link, and a clause says of each that it is the same.
//! - `row_header` gives the header alone. The key and the value go into the object from where they stand, so that no byte is
//!   written twice; what the three are together, with the zeros behind them, its clauses say.
//! - A row as it comes (`NewRow`), and the keys of a body as they are written (`write_key`) and read (`first_key`), stand here,
//!   since two crates and more want each.
//! - `set_value` writes over bytes of a value and leaves its length, so the content is of the same row with another value, and
//!   the object keeps its size.
//!
//! # Promises
//! - A row is read as it is written (`a_row_is_read_as_it_is_written`).
//! - The first key of a body of keys is told with the body behind it, none exactly where there is no byte (`first_key`).
#![tactic(auto)]

mod keys;
mod law;
mod links;
mod new_row;
mod patching;
mod reading;
mod writing;

pub use keys::{Scanned, first_key, write_key};
pub use law::a_row_is_read_as_it_is_written;
pub use links::{Links, NO_LINK, newer_in, older_in, set_newer, set_older};
pub use new_row::NewRow;
pub use patching::set_value;
pub use reading::{HEADER, key_in, key_of_row, number_in, put_in, table_in, value_in};
pub use writing::{row_header, row_size};
