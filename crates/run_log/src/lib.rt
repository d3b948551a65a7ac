//! What a run writes down: the [`Journal`] of a shard, the [`ReplyLog`] of the parts that it issued, the [`ShardLine`] of what
//! it came to, and the bodies of keys that replies carry.
//!
//! The bodies of keys have their writer and their reader here (`keys.rt`).
//!
//! # Definitions
//! - `RanState` (`specs/Runs.antt`) is what nodes that are done left: journals, logs and lines, in the order of their shards,
//!   and of which trace, shards and pages they are. Only a node of that trace, so many shards and so many pages that is done
//!   adds to it.
//! - `IsFinished` is the one record of a run that is over, from the nodes' end to the top call: there is a journal, a log and a
//!   line of each shard; the journals are legal and complete; the logs have the answers; the lines are the occupancies that the
//!   report prints; and with one shard each eviction stands where the live bytes exceed the bound without a lent block, and a
//!   dense segment more.
//! - `Records` (`specs/Recorded.antt`) is what a journal wrote down: one that was told of rows has one entry more for each, in
//!   their order.
//!
//! # Choices
//! - A log's contract sees its replies as kinds and bodies, and how many bytes of bodies may still be recorded. What it keeps
//!   is less: a body of 128 bytes or more is sought where the last one of its slot stands, by its length and its first and
//!   last eight bytes, and is not copied where the same bytes stand there. The bytes are compared, so nothing is asked of who
//!   records. The table that remembers where stands only in a log with room for a long body.
//! - A log over the bytes of its trace is told with a value where its put may have it (`record_value`); of 128 bytes or more
//!   it keeps that place, once it has compared the bytes there, and else copies. What contracts see is what they see of
//!   `record`: the room falls by the value's length either way. Whose bytes a body is of stands in a byte beside the kind, so
//!   an entry is no longer for it.
//! - A journal's contract sees its entries, and how many may be added. One that is told of rows that go grows with each: who
//!   uses a store by itself clears it, and no node does, whose report is made of all entries.
//! - A key in a body has 1 to 256 bytes, as in a trace.
//!
//! # Promises
//! - A journal and a log keep what they are given, within the room made at first (`Journal::add`; `ReplyLog::record`,
//!   `record_value`, `reply`).
//! - A journal that is cleared has no entry, and room for as many more (`Journal::clear`).
//! - A journal that is told of rows that go has an entry for each (its `tells`; the lemma `told-recorded` in
//!   `part_lemmas/proofs/Recording.antt`).
//! - A body of keys is read key by key, to its end (`next_key`).
#![tactic(auto)]

mod bodies;
mod journal;
mod journal_told;
mod keys;
mod reply_log;
mod shard_line;

pub use bodies::LONG_BODY;
pub use journal::Journal;
pub use keys::{append_keys, next_key};
pub use reply_log::ReplyLog;
pub use shard_line::ShardLine;
