//! The meaning run, a reference implementation: [`Plain`] is a cache that is a list of rows, and does each part of a
//! command as the definitions of [`cache_model`] say. The names of `cache_model` and `run_log` are passed on.
//!
//! Tests go along the journals of runs with it; runs do not stand on it.
//!
//! # Choices
//! - [`Plain`] is the definition run, and not fast: it keeps the row used last in front and moves rows in a vector, and
//!   compares keys one by one.
//! - It carries in its invariant that its keys are distinct, so that a get, a put and an erase look for one row and move or
//!   remove that one.
//! - A scan collects the keys at or above its own, lets the standard library sort them, and cuts them at the count.
//! - It evicts nothing by itself. What an eviction needs is computed from the rows at each call (`Plain::live`).
//!
//! # Promises
//! - While the live bytes of a cache stay within the floor, no row is evicted, and a get gives the value of the last put of
//!   its key, or Missing where the key was erased since or was never put (`a_get_finds_what_was_put_last`).
//! - However many tickets are out, the tight floor is at least the floor (`a_tight_floor_is_at_least_the_floor`).
//! - Each part is done as defined, or nothing changed (`Plain::apply`).
//! - An eviction is made exactly where it is legal (`Plain::evict`).
#![tactic(auto)]

mod law;
mod plain;

pub use cache_model::{Entry, ReplyKind, is_at_most};
pub use law::{a_get_finds_what_was_put_last, a_tight_floor_is_at_least_the_floor};
pub use plain::{Plain, floor_of};
pub use run_log::{Journal, ReplyLog, append_keys, next_key};
