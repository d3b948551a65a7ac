//! One shard's cache as one value, for a program that has such a cache in it.
//!
//! A [`Cache`] is opened on a number of pages, for a number of rows, and takes no memory afterwards. Its rows are those of a
//! [`ShardStore`](shard_store::ShardStore), with what an owner needs around it: a bound on the live bytes, places in the tables
//! that a put finds even where they are full, the tags of the rows that went in memory of the caller's, counts, and a value in two
//! pieces. Each call's contract says what it answers and what stands afterwards, as a relation over the list of the rows.
//!
//! What is lent of a cache comes home over a list, [`Foreign`], that its owner makes before and ends after it. A cache that is
//! dropped is not freed: only [`Cache::close`] gives its memory back, and its list's seat.
//!
//! # Definitions
//! - A cache (`EmbeddedState`, `specs/States.antt`) is a store, a bound on live bytes, and what was counted since the opening:
//!   the rows that went, the gets, and those that found a row. `CanOpen` is what it can be opened with.
//! - `Goes` (`specs/Puts.antt`) says which rows go for a put: `Spares`, the last one exactly where the tables are full and no
//!   row has the key, and then rows in turn, each the last one while more bytes are live than `least_bound`. That is the bound
//!   asked for, or less while blocks are lent and the pages surely hold less beside them. The room is made in `storing.rt`.
//! - `told_in` is memory of the caller's with the tags in front, as far as it has places.
//! - `Puts` is a put: which rows went and were told, how many, and the row that stands in front of the others. `Patches` is
//!   what a patch did, one of three.
//! - `LendsFound` (`specs/Lendings.antt`, of a whole cache `LendsValue`) is a block with a value behind its head: rows went in
//!   turn while more bytes were live than the floor of a block, were told, and what stands in the block is the value that the
//!   key has on the rest.
//!
//! # Choices
//! - A row goes for a put while more bytes are live than a bound that is asked for at the opening, so the bound stands in the
//!   clause on evictions. It is looked at before the row is stored, as the store looks at its own floor. While blocks are lent
//!   a row may go below it, above what the pages surely hold beside them (`pressure`).
//! - The greatest bound, which is the default, are the live bytes with which all segments but one for each group are dense: 91
//!   % of the pages. Above it a call costs more, since compaction has to move more rows for each byte that it frees.
//! - Where the tables are full the row used longest ago goes for a place, unless a row has the key. Who wants rows to go by
//!   their bytes alone asks for room for more rows.
//! - Tags are told in memory that the caller lends to the call, and the answer says how many rows went in all: who has too few
//!   places learns that, and who wants none lends none. A callback would run in the midst of the call.
//! - A value in two pieces is put together in memory that was reserved at the opening, and then put as any other. An object of
//!   three runs (`object_log`) would save a copy of 12,000 bytes at most, and cost each other put a test.
//! - A patch looks whether the value is long enough before it writes, so it finds its row twice. It is no put: no row goes for
//!   it.
//! - What a cache is opened with has to fit (`CanOpen`): the call asks for it, as others of the kit do, so want of memory is
//!   the only error, and it carries what was handed in.
//! - A put that finds half of the slots of the table of keys in use doubles it, and takes as long as that takes. Who can't have
//!   such a put asks for the table whole at the opening (`Opening::wide`), which takes longer then, and more memory at once. No
//!   clause sees it, since it changes no answer.
//! - `peek` reads where a row stands, and may be called under a guard, when no other look-up may: a get writes links of rows.
//! - A cache is opened over a list that its owner made before. One with a list of its own would have to borrow from itself.
//!
//! # Promises
//! - A put always stores, in one piece or two. Where rows go for it, the first goes exactly where the tables are full and no
//!   row has the key, and each other one while more bytes are live than the bound, or, while blocks are lent, than the pages
//!   surely hold beside them; each is the one used longest ago, of whatever table (`put`, `put_pieces`: `put`; with no block
//!   out it is the bound alone: `facts`). Behind it at most the bound and the new row are live (`low`).
//! - The tags of the rows that went stand in the caller's memory, in order, as far as it has places; behind them it is as it
//!   was; and the answer is how many went (`Puts`: `told`, `count`).
//! - A get finds the value and the tag of the key's row, which is the one used last then, and counts (`get`: `value`, `after`);
//!   `peek` finds the same and changes nothing.
//! - A patch changes the bytes that it is given and no other, and keeps the tag; where the value ends before the last of them,
//!   or no row has the key, nothing changes (`patch`: `patched`, `unchanged`).
//! - A block is lent with the value that the key has on the rows which stand once it was made, behind a head; the rows that
//!   went for it are told as for a put. Without an idle ticket, and only then, there is none, and nothing changed (`lend`:
//!   `lends`, `none`, `unchanged`).
//! - Opening refuses for want of memory alone, and hands back what it was given (`open`: `refused`).
#![tactic(auto)]

mod cache;
mod key_body;
mod lending;
mod lent;
mod opening;
mod patch;
mod put_answer;
mod scanned_rows;
mod scanning;
mod stats;
mod storing;

pub use cache::Cache;
pub use foreign_list::{Foreign, ForeignBlock, OwnerSeat};
pub use lent::Lent;
pub use opening::{MOST_WAITING, OpenRefusal, Opening, most_bound};
pub use patch::Patch;
pub use put_answer::PutAnswer;
pub use scanned_rows::ScannedRows;
pub use shard_store::{Compacted, Put, Scanned, Share};
pub use stats::Stats;
