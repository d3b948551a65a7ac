//! A small caller of each part that stands by itself: what it has to show, what an opening wants, and how the part ends.
//!
//! A module is for one part, and does the least that the part is for. `docs/PARTS.md` tells of the parts, and `tools/take` copies
//! one into another repository.
#![tactic(auto)]

mod bookmark;
mod by_hash;
mod due_puts;
mod in_order;
mod kept_rows;
mod lent;
mod named_values;
mod numbered_keys;
mod one_shard;
mod pages;
mod pool_objects;
mod shelf;
#[cfg(test)]
mod tests;

pub use bookmark::{Bookmark, place_only, tidy};
pub use by_hash::{enter, row_of};
pub use due_puts::{add_put, add_put_in, flush_oldest, write_in_new};
pub use in_order::{first_from, put_in_order};
pub use kept_rows::{give_all, keep_row, make_room};
pub use lent::{close_idle, lend_piece, take_back};
pub use named_values::{set_value, set_value_in, set_value_in_new};
pub use numbered_keys::{set_number, set_number_in, set_number_in_new};
pub use one_shard::{store_in_new, store_row, use_row};
pub use pages::{lend_from_new, lend_once};
pub use pool_objects::{borrow_once, has_object};
pub use shelf::Shelf;
