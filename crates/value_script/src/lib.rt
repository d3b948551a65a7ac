//! The script of the mode `values`: its bytes, and the commands that they spell.
//!
//! A script is read once, by [`parse_script`]. Its lines are cut, passed over and numbered as those of a trace. A [`Script`]
//! keeps its bytes, and each [`Command`] says where its value stands in them; no text is copied.
//!
//! # Definitions
//! - What a command asks is an order (`specs/Order.antt`): a name is set to a value, some of its value is read, or it is
//!   dropped.
//! - `order_of` (`specs/Line.antt`) reads a line from left to right and ends at the first cause.
//! - `script_of` (`specs/Reading.antt`) is the list of the orders, or the first refusal with its line. The lines are those of a
//!   trace (`lines`, `command_lines`).
//!
//! # Choices
//! - The lines of a script are those of a trace, by the same definitions. The code that cuts them is written again: that of
//!   `trace_text` is private, and knows a second way for short values.
//! - A number is defined by what it spells: the field is that number in decimal (`number_of`). So no rule speaks of leading
//!   zeros, signs or empty fields.
//! - A line is cut at its LF and the value's bytes are looked at once more: two passes, both many bytes at a time.
//!
//! # Promises
//! - A script is read as it is defined: its commands, or the first refused line with its first cause from left to right
//!   (`parse_script`: `read`, `refused`).
#![tactic(auto)]

mod command;
mod line;
mod lines;
mod reading;
mod refusal;
mod script;

pub use command::Command;
pub use numerals::numbers_are_spelled_once;
pub use reading::parse_script;
pub use refusal::{Cause, ScriptRefusal};
pub use script::Script;
