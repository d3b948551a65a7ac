//! An ordered index of rows: their numbers in the order of their keys, in blocks.
//!
//! The keys stand elsewhere, and a [`Keys`] reads them. They are bytes in tables: those of a table with a lower number come
//! first. The index keeps the numbers of the rows, in blocks, and beside each number eight bytes of the row's key, its lead.
//! A search that has seen that its key shares the bytes before those eight with all keys that are left compares numbers;
//! else it reads the row's key. The table counts as the byte before all others; a lead that begins with it has it in three bits.
//!
//! Which block a search looks into first is a guess: beside the blocks stand hints, the lead of the first key of each.
//! Hints only guess. The search compares the key with entries of that block, and where it is not among them it halves
//! over all blocks, so that no answer depends on a hint. Inserts and removals keep the hints up, and they are read anew
//! after as many blocks have come into use as there were (see `hints`).
//!
//! # Definitions
//! - An index of keys (`specs/Index.antt`, `specs/Order.antt`) is row numbers in the order of their keys. It stays one of its
//!   rows wherever these are moved, as long as they keep their keys. `PutsIn` and `TakesOut` say what an insertion and a
//!   removal do to the list.
//!
//! # Choices
//! - Blocks have at most 256 rows. Beside each row number stand how many bytes of its key an entry skips and the eight bytes
//!   behind these, its lead. So no prefix is stored that could become false. A lead that begins with the table has the key's
//!   first eight bytes without their last three bits behind it; leads behind the table are of bytes alone.
//! - A search reads the bytes of its key once for all entries that skip as many, and compares long keys in strides of 64 and 8
//!   bytes.
//! - A place is good until the index changes; a row is taken out at the place where it was found, for which no key is read.
//! - Entries are led anew where a full block is split and shares more than its entries skip.
//! - Two neighbouring blocks hold more than 128 entries together, so `new` reserves 2 * rows / 129 + 3 blocks, and no later
//!   call takes memory.
//! - The room of all blocks is one vector, reserved at once: a block's room is written when the block first comes into use, and
//!   no page of the others is touched. A list of places, each with how many entries stand there, is the order of the blocks; a
//!   block that goes out of use leaves its place to the next. What a cut or a join moves from one room to another goes over the
//!   stack, since both are elements of one vector.
//! - The hints say which block a search looks into first; inside a block the leads are searched without branches and then
//!   compared. No clause speaks of hints, so they may be stale: a wrong guess costs the halving that a search without hints
//!   does.
//!
//! # Promises
//! - A key's row is found exactly where the index has it; an insertion and a removal change that one row; a cursor gives the
//!   rows at or above its key; a row that moves changes nothing (the clauses of `KeyIndex`, the lemmas of `key_lemmas`).
#![tactic(auto)]

mod blocks;
mod copies;
mod entries;
mod hints;
mod index;
mod keys;
mod place;
mod search;
mod settling;
mod shared;
mod walk;

pub use index::KeyIndex;
pub use keys::Keys;
pub use place::{Place, RowAt};
pub use rows::Key;
pub use shared::{lead_behind, lead_of};
pub use walk::Rows;
