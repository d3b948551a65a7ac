//! The rows of one shard's cache, in segments that compaction moves, in the order of their use: an LRU cache.
//!
//! A row is an object of a [`regions::Region`]; its bytes are those of `row_bytes`. Rows have numbers. The tables of a
//! cache tell the place of each and the order of their keys, and are the mover of its region: what ScyllaDB's row cache has
//! in its migrators. The order of their use stands in the rows themselves: each has links to the one that was used next
//! after it and to the one that was used next before it, and the tables keep the two ends. What a cache means is a list of
//! rows ([`specs/Rows.antt`]), read off the bytes of its segments; no clause on a list of rows speaks of segments.
//!
//! The key of a row is of a table, and the rows of one table stand in segments of one group: the one whose number is the
//! table's modulo the number of groups. Rows are found by table and key, a scan never leaves its table, and the order of use
//! is one over the rows of all tables.
//!
//! # Definitions
//! - A row cache (`specs/Rows.antt`) has the places of the row used last and of the one used longest ago, the place of each
//!   row's number, and a region of 1 to 8 groups. It has room for fewer than 4,294,967,295 rows (2 to the power of 32, less 1).
//! - `rows_of` begins at the place of the row used last, and follows the links to the next less recently used row until one has
//!   none (`follow` of `specs/Links.antt`). At each place it reads the key, which is its table and its bytes, the value and the
//!   put number off the segment's bytes. That list is the cache, and each call is said on it by the words of `rows` (`put`,
//!   `get`, `without`, `scanned`, the last row).
//! - `IsLinkedThrough`: each row met has the row before it as its link to the next more recently used one; the first has none
//!   and is the one kept as used last; the last has no other one and is the one kept as used longest ago. `AreMetOnce`: no
//!   place comes twice, at each the table of places has a row, of the kind of rows, and each live object is at one of them.
//! - `group_for` is the group of a table, and `AreGrouped` says that the rows of the table stand in segments of that group: so
//!   with eight groups no segment has rows of two tables, and with one all rows share it.
//! - A look-up changes links of rows and no other byte (`AreRelinked`). A call that moves no row leaves the room of the tables
//!   as it was, and each object that stood stands (`Keeps`). `StandsAt`: a row stands at a place, live or dead; what stood
//!   stays while a guard of its group stands.
//!
//! # Choices
//! - A row's number is the one that was given back last, else the least that was never given; a put that replaces keeps it.
//! - The tables keep the places of both ends of the order. `Order`, a list of the rows' numbers in that order, takes no memory
//!   and is read by contracts alone: compaction promises that a mover keeps what it keeps beside places, and this is where the
//!   mover keeps the order. `rows_of` does not read it.
//! - A row goes out of the chain by one read of its two links and two writes, one in each neighbour. It comes in front by two
//!   writes: both of its own links at once, and one of the row that was in front. A row that moved has its links already, so
//!   its neighbours' alone are written. The link of none is never followed.
//! - Objects are the same 'but for links' where they are the same row with whatever links (`IsSameRow`). So a look-up, which
//!   changes no object otherwise, is said to leave the region so, and not as it was.
//! - A put that replaces a row looks first whether the segment has room, takes the old row out of the chain, places the new
//!   object, and kills the old one only then: so a refusal leaves the old row.
//! - A place that stands is in a segment of a group of the region (`Region::facts`): hence a guard of a table's group holds
//!   every row of the table, dead ones too.
//! - The index is told nothing where rows move: it is one of their keys wherever these are read (`StaysKeyed`). Each call that
//!   makes or changes the index says so, and the tables keep it as their invariant.
//! - What a cache tells is the numbers, the places and the region, and `rows_of` is a definition on these: so a place that was
//!   found can be spoken of under a guard.
//! - `give_up` empties the tables as wholes, and then the region gives up its segments. A call that finds them empty costs
//!   nothing for them. The table of keys has as few slots as at first then: only these are filled.
//! - `scan` takes `&mut self`: the rows that came since the last scan wait for their place in the order, and the scan that asks
//!   for order gives it to them. A clause says that the cache's state is the same before and after.
//! - A scan goes along the order of keys as far as its table goes, so it sorts nothing, and writes each key once, behind its
//!   length, where its caller wants the body of a reply. Its writer of a key fills a slice; the one of `run_log` appends to a
//!   vector.
//! - A patch writes the bytes first, where the row stands, and then makes it the one used last, as a look-up does; the two
//!   steps have clauses of their own.
//!
//! # Promises
//! - A cache is the list of rows that its segments' bytes spell, read along their links from the row used last: a put, a get
//!   and an erase do to it what they do to the cache of the meaning, where a key is of its table; an eviction removes the last
//!   row, whatever its table; a scan writes exactly the keys that it replies with there, and no byte behind them; the live
//!   bytes are the list's (the clauses of `RowCache`).
//! - A put is refused exactly where the group of its table has no active segment or too little left in it, and then nothing
//!   changed. A cache has room for fewer than 4,294,967,295 rows, as many as its maker asks for (the same). Each row stands in
//!   a segment of its table's group (`RowCache::rows`: `grouped`).
//! - Bytes of a value are written over where its row stands: the row has them, comes to the front and keeps its tag, and
//!   nothing else changes (`set_value` of row_bytes; `RowCache::patch`: `rows`).
//! - The links of each row lead to the row used next after it and to the one used next before it, and every row is met once
//!   (`RowCache::rows`: `linked`, `met`). Of the segments' bytes a look-up changes links alone, and so does a move beside the
//!   row that it moves (`get`: `after`; the law of `Movers`: `references`).
//! - A compaction is a pass, its three rules step by step, and leaves a cache with two free segments as it is
//!   (`RowCache::compact`: `steps`, `enough`). Each live object of its segments is a row and has the kind of rows
//!   (`RowCache::rows`: `met`).
//! - Compaction, guards and segments that come and go leave the rows as they are (`RowCache::compact`, `guard`, `add_segment`,
//!   `take_free`, `next_active`: `rows`). A value's place found under a guard of its table's group holds that value until the
//!   last guard of the group goes, whatever was put or erased (`keeps` on each call; `place_of`, `value_at`).
//! - Whether a guard stands on any group is answered exactly (`is_guarded`).
#![tactic(auto)]

mod cache;
mod ends;
mod links;
mod order;
mod put;
mod row_keys;
mod tables;

pub use cache::RowCache;
pub use compaction::Compacted;
pub use put::Put;
pub use raw_range::Piece;
pub use regions::{NeedSegment, Place};
pub use row_bytes::Scanned;
