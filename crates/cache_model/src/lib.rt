//! What a shard's cache means along a trace: journals, which are histories, the replies in them, answers, reports and
//! summaries.
//!
//! The definitions in `specs/` say what a legal journal and a legal report are, over the rows and operations of the crate
//! `rows`. No type here runs anything: [`Entry`] is the enum that the definitions name, and
//! [`is_at_most`] and [`sort_keys`] are the order of keys. The laws of the definitions stand in `cache_lemmas`.
//!
//! # Definitions
//! - What the reply logs of n shards hold (`specs/Logged.antt`): to each part that a shard issues, in order, a reply that fits;
//!   and the answers that are read from them. The report and the summary are written from the logs.
//! - `IsRead` (`specs/ReadOff.antt`) is one answer, as it is read from one log: from a part on the log has the replies to a
//!   command's parts, and they are the answer, or for a scan the keys of all shards joined. `IsReadInLogs` says it of the log
//!   of the command's origin, behind the `parts_before` (`specs/OwnParts.antt`) that this shard issued for the commands before.
//! - `HoldTheReplies` (`specs/Replied.antt`) is what the law of logs asks: journals reply to each part, and the logs hold these
//!   replies.
//!
//! # Choices
//! - The meaning is crates without a running type, so that messages, nodes and a checker of reports can stand on it and on
//!   what a run writes down (`run_log`), and not on the slow cache (`plain_cache`).
//! - A report's answers are what logs hold, for any number of shards; what a log holds is said by the list of the parts that
//!   its shard issues.
//! - A legal report is stated by the journals that the lines behind the answers spell, and the report of these journals.
//! - `reply_at` takes the first entry Done(i); in a complete journal there is one.
//! - What whoever keeps a cache along a trace wants of `rows` is passed on ([`ReplyKind`]); `trace_text` passes on `Kind`,
//!   beside `Command`.
#![tactic(auto)]

mod entry;
mod key_order;

pub use entry::Entry;
pub use key_order::{is_at_most, sort_keys};
pub use rows::ReplyKind;
