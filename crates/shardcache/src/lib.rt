//! shardcache: a row cache that reads a trace of puts, gets, erases and scans and writes a report: every reply, the
//! journal of the commands, and what the cache holds at the end. One mode checks such a report against its trace. Three
//! modes keep a store of their own in its place, and write its answers: puts that stay until they are flushed, numbered
//! keys, and long values in fragments.
//!
//! The program is one call, [`shardcache`], whose contract says what is read and written. It is [`shardcache_gated`] with gates that
//! never hold; tests call that with gates of their own.
//!
//! # Choices
//! - The table of the top call, `specs/Table.antt`, speaks of the mode, and of the bytes taken apart from the bytes that are
//!   the trace, so that a mode that makes its trace fits in. Each mode has a row of its own: what it does with what is
//!   accepted (`Does`), what it writes of what is refused (`Refuses`), and what it accepts (`is_accepted`). `audit`, `dirty`,
//!   `index` and `values` leave no record of a run, and the last three want one shard.
//! - `Usage` is answered before anything is read, and so is want of memory for the words. `gen` reads nothing. A made trace
//!   that is longer than a trace may be is refused as `TooLong`, as one that is read.
//! - Where each shard has a thread of its own, the trace is read and the report written on as many threads
//!   (`Settings::threads`). `sim` and `gen` do all of it on one, as their shards do.
//! - Opening takes all memory of a run but for that of its report, which is reserved before. A turn takes none, so it has no
//!   answer for want of memory. The tables have room for a row of each put that the shard owns, its journal for an entry of
//!   each part and one of each put, since a row that goes was stored by a put of its own. The log's room is the trace's
//!   longest value for each get, and that of the greatest reply for each part of a scan.
//! - The room for the keys of a scan, 32 of the greatest length, is reserved whether or not the trace has scans: 8,256 bytes.
//! - A value is copied once, from its segment into the log, and once more when the report is written. A long one that a shard
//!   reads of its own rows is not copied into the log, which refers to the trace; nor is one that came in a message and
//!   stands in the log already.
//! - The shards give their memory back before the report is written; their lines are made before, as their nodes are
//!   finished.
//! - A node's store is opened last, behind its journal, its log and the room for keys: a store that is dropped is not freed,
//!   so nothing of its node may be refused once it is there, and the nodes of a run that is refused are abandoned.
//!   `bench/refused_memory.py` counts what is left where each allocation of a run is refused in turn.
//! - A read or a write that fails is answered at once: nothing is retried by the program itself.
//! - The headline says nothing of where rows stand, so a program over a list of rows would meet it too. That they stand in
//!   segments is shown by the code, and by tests: the 391st of the puts of rows of 12,048 bytes in 1,280 pages is the first
//!   that evicts, and 1,000 puts under one key evict nothing.
//! - What keeps a trace of version 2 from being run, a mode or too few pages, is told once it was parsed (`misfit.rt`); the
//!   trace goes on with the settings that it was parsed for (`asked.rt`).
//!
//! # Promises
//!
//! Those of the clauses of [`shardcache`]; docs/PROMISES.md has them in words.
#![tactic(auto)]

mod asked;
mod auditing;
mod call;
mod misfit;
mod modes;
mod outcome;
mod printing;
mod reading;
mod running;
mod status;

pub use call::shardcache;
pub use misfit::Misfit;
pub use modes::shardcache_gated;
pub use outcome::Outcome;
pub use status::Status;
