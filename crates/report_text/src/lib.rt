//! The report of a run: the answer to each command, the journal of each shard, and what each shard
//! holds at the end. See [`write_report`], and [`write_report_on`], which makes pieces of it on threads, in memory that
//! [`Texts`] reserves before the run. Who compares a report with what it should be takes it in parts: [`AnswerLines`], and
//! [`write_shard_lines`]. The summary of a run has numbers in place of answers and journals; see
//! [`write_summary`].
//!
//! The answers are made by `side_by_side.rt` on threads, each into pieces of its own (`pieces.rt`, `held.rt`), which one thread
//! hands over in order; the lines of journals in `journal_texts.rt`; the memory of the pieces in `reserved.rt`. All take the
//! trace with the logs of its run (`answered_run.rt`), go over the commands and keep for each shard the number of its next part
//! (`place.rt`), and so read each answer from its log.
//!
//! # Choices
//! - What the logs hold is a relation to a list of answers: a kind and a body spell at most one reply.
//! - The keys that several shards found are merged where they stand in the log, one shard's after another's, each time cut at
//!   the count of the scan, so that no memory is taken. What the report asks of the logs has each shard's keys rise, so
//!   nothing is sorted. The one reply of one shard is put as it is.
//! - The summary counts a command by the kind of the reply to its first part.
//! - [`write_report_on`] takes the commands in rounds: for each thread as many pieces of 1,024 commands as have room in 8
//!   MiB, at least one and at most 64, where a line is counted with 32 bytes and the trace's longest value. What scans may
//!   find is counted as an even share of all lines: 32 keys of 256 bytes for each of their parts but the first, and no more
//!   than that for a line; so with four shards a scan is counted three times, since scans may stand together. With values of
//!   12,000 bytes that is some 50 MB of text at most on four threads. Before a round one thread goes over its commands'
//!   kinds, and so knows where in the logs each piece begins.
//! - That memory is reserved before the run, as all other memory of it is, so want of it is answered before anything was
//!   done. It is not touched before it is used, and a piece keeps it from round to round. A text does not grow: a piece whose
//!   lines do not fit, which can only be where scans stand together and find more than was counted, is written straight to
//!   the sink. So the call has no answer for want of memory, and no proof is owed that the room is enough. Where a thread
//!   cannot be started, which takes memory of the system's, the others do its work.
//! - With one thread, or no more than 8,192 commands, which would not be worth the threads, no texts are reserved, and the
//!   report is written as [`write_report`] does.
//!
//! # Promises
//! - Exactly the text of the logs, journals and lines that were given is appended, or that of their numbers, or the sink
//!   failed and a front of it was (`write_report`, `write_report_on`, `write_summary`).
#![tactic(auto)]

mod answer_lines;
mod answered_run;
mod answers;
mod found;
mod held;
mod journal_texts;
mod lines;
mod merging;
mod pieces;
mod place;
mod report;
mod reserved;
mod shard_lines;
mod side_by_side;
mod stretch;
mod summary;
mod tally;

pub use answer_lines::AnswerLines;
pub use report::write_report;
pub use reserved::Texts;
pub use run_log::ShardLine;
pub use shard_lines::write_shard_lines;
pub use side_by_side::write_report_on;
pub use summary::write_summary;
