//! A hash table of rows by key, with open addressing and linear probing, for exact look-up.
//!
//! The keys stand elsewhere, and a [`Keys`] reads them. The table keeps the number of each row and a tag (a
//! fingerprint), 32 bits of the hash of its key, so that it reads a key only where the tags agree. Keys are bytes in tables:
//! the same bytes in two tables are two keys. A slot holds a row
//! or none; a row stands at the slot of its tag or behind it, and no empty slot between.
//!
//! Fewer than 64 slots in a row hold rows: a row that would make so many is not put in, and whoever has the table keeps it
//! elsewhere. So no search passes 64 slots, and no removal moves more rows than that, whatever the keys are.
//!
//! The table begins small, and has twice as many slots once half of them are in use; the memory for all of them is reserved
//! at once. Where a row would find no slot among twice as many, the table has no more slots from then on. A table that is
//! widened before its first row has all of its slots until it is cleared, and no insertion has to move the others.
//!
//! A [`LazyIndex`] is such a table for exact look-up and an ordered index for look-ups in order. The order of keys is kept in
//! blocks, which learn of a row only once order is asked for: until then it is late, and goes again without a word to the
//! blocks. A row that the table does not take goes to the blocks at once and is found there; as long as there are such rows,
//! a search that finds nothing in the table asks the blocks.
//!
//! # Definitions
//! - A table of keys (`specs/Table.antt`, `specs/Hash.antt`) is row numbers, each with the tag of its key, in an order that
//!   means nothing: two lists of rows are the same where each has every number as often (`AreSame`).
//! - The rows of a lazy index (`specs/Lazy.antt`) are those in order and those that wait (`rows_in`); `IsLazyOf` says that each
//!   has a key that can be read and that no other row has. `StaysKeyed` says that what is kept beside the rows stays that of
//!   their keys wherever these are moved.
//!
//! # Choices
//! - Slots have 8 bytes, a tag and a row number, with no wrap-around: behind the last home stand 64 slots more. A removal
//!   shifts rows back, so no mark is left where a row was.
//! - No 64 slots in a row hold rows. It would not be enough that each row stands within 64 slots of its home: keys can be
//!   chosen that make a run of any length in which each row stands 63 behind its home, and a removal would move all of it.
//! - The slots are doubled once half of them are in use: with random keys a run of 64 is so rare then that no row of a million
//!   was refused. At a greater share some would be, and a single one outside makes each search that finds nothing ask the
//!   blocks.
//! - An insertion that doubles the slots moves all rows, and takes as long as that takes. Whoever can't have that calls `widen`
//!   first, which writes every slot that there will ever be: 16 to 32 bytes for each row that there is room for.
//! - Doubling can bring two runs together, at the end of the old slots. Where a row would be refused there, the slots stay as
//!   they are for good; only keys that are chosen for it do that, and what they cost is one search of the blocks for each call.
//! - No clause speaks of steps, nor of how many slots there are, so none sees what `widen` does. That the walks end after 64
//!   slots is in the code (`REACH`) and in the invariant (`HaveGaps`); the refusal's clause says that 63 rows are held at least.
//! - A row that waits is always in the table, so a search that finds nothing in the table asks the blocks and never the list of
//!   late rows. Rows outside stay outside until they go. Rows that wait are sorted by the leads of their keys before the blocks
//!   get them.
//! - `LazyIndex` stands with the table, whose spots and rows it hands on; of the stores `row_cache` alone uses it.
//! - An insertion reads the row's key, for the blocks; so a row's object is placed before its number is put into the index.
//! - A tag takes the bytes of a key first and its table in the last step, which mixes in 0 for table 0: so the keys of one
//!   table cost what keys without tables do.
//!
//! # Promises
//! - A key's row is found exactly where the table has it. An insertion puts the one row in, or leaves the rows as they are
//!   where 64 slots in a row, that of the row's tag among them, would all hold rows of theirs. A removal takes the one row out,
//!   or says that it was not there (the clauses of `KeyTable`).
//! - Of rows in order and rows that wait, a key's row is found exactly where one has it, whether the table took it or not; an
//!   insertion and a removal change that one row, and no row waits after `settle` (the clauses of `LazyIndex`).
//! - Not promised: anything about a hash that an adversary chose keys against.
#![tactic(auto)]

mod entries;
mod hash;
mod index;
mod late;
mod seeking;
mod settling;
mod slots;
mod standing;
mod table;
mod waiting;
mod widening;

pub use entries::{Full, RowAt, Spot};
pub use index::LazyIndex;
pub use key_index::{Keys, Rows};
pub use rows::Key;
pub use standing::Standing;
pub use table::KeyTable;
