//! The mode `values`: a script of values that are set, read and dropped, done on a value store.
//!
//! What it writes is [`specs/Text.antt`], computed on the map of a value store. The store's segments are pieces of one range.
//!
//! The mode opens a value store on a range (`Ranged`), does the commands one after another, writes the answers with a writer of
//! `text_out`, and closes the store, whatever the sink answered.
//!
//! # Definitions
//! - `done` is what an order does to the map of a value store that has room for so many bytes, and its answer: a value is
//!   refused where the live bytes and its size are more than that.
//! - `values_text` is the text of all answers and of the last line, from a map without values on, with the room of so many
//!   pages' segments; `values_left` (`specs/Left.antt`) are the values that are left then. The definitions are checked by
//!   computing `specs/Examples.antt`.
//!
//! # Choices
//! - A command is done before its answer is written: where the sink fails, which values are held is not said.
//! - The range is made last: want of memory before leaves no range that nobody finishes.
//! - A store that was opened has no value, so what is written is a function of the script and of the pages alone.
//!
//! # Promises
//! - What is written is the text of the script, computed on the map, or where the sink failed a front of it. Behind the whole
//!   text the values that the script leaves stand in the store's segments (`write_values`: `sent`, `values`).
//! - The range is freed whatever the sink answered: `Range::finish` asks that every piece is back, and that `run_values`
//!   closes its store is read, not stated.
#![tactic(auto)]

mod answers;
mod law;
mod store;
mod writing;

pub use law::texts_are_as_worked;
pub use store::{ValueStore, open_values};
pub use writing::{run_values, write_values};
