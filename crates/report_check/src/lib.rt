//! A checker of reports: [`check`] answers whether bytes are a legal report of a trace, and else the first line that says
//! that they are not. The verdict is `specs/Verdict.antt`, over the definitions of `cache_model`.
//!
//! The journals that the report prints are read and walked, each over a cache of its own, and the replies are logged; then
//! the report's lines are compared, some at a time, with those that these replies make. No report is built. [`frame`] cuts an
//! input into a trace and a report.
//!
//! The journals are read in `journals.rt`, walked in `walking.rt` over an `indexed_cache`, and logged in `logs.rt` as a run
//! logs them: of each origin the commands that it issues to the shard come one after the other, by `shard_parts`. The lines are
//! compared in `comparing.rt` and `line.rt`.
//!
//! # Definitions
//! - `verdict` says of bytes whether they are a legal report of n shards with so many pages, or which line is the first that is
//!   wrong.
//! - `lines_of` (`specs/Lines.antt`) cuts the bytes at each LF; what stands behind the last one is like no line of a report.
//!   `first_difference` is the first line at which the bytes differ from the `report` of the journals.
//! - `journals_of` (`specs/Spelled.antt`) are the journals that the lines behind the answers spell, or the first line that
//!   spells none.
//! - `is_sound` is the test whether a journal is legal and complete, and `unsound_line` the line of the first that is not.
//!
//! # Choices
//! - The verdict is a function, in three steps that stand in its definition: lines that spell journals, journals, lines. So
//!   examples compute, and what the mode writes is that function's text.
//! - The journals are walked with `indexed_cache`, whose `apply` and `evict` are stated by the definitions themselves, so a
//!   step of a walk is one rewriting. The plain cache has the same clauses, and would take a time that grows with the square
//!   of the keys.
//! - Replies go into logs as those of a run do, and `report_text` makes the lines of the logs: the definition of an answer is
//!   proved once.
//! - A sink that compares what it is given with the report, and keeps nothing, would not do. What a writer promises where its
//!   sink fails is that a front of the text was written, not which byte was refused; and a sink that never fails has to tell
//!   all that it was given. So the lines are made in memory, at most 1,024 at a time, and compared there.
//! - Where a reply finds no room in its log the answer is want of memory. The room is that of `needs`, so this is never met.
//!
//! # Promises
//! - The verdict is the definition's (`check`): legal exactly where the bytes are a legal report of the trace, on so many
//!   shards and with so many pages (`a_verdict_is_legal_where_the_report_is`).
#![tactic(auto)]

mod checking;
mod comparing;
mod framing;
mod journals;
mod law;
mod line;
mod logs;
mod puts;
mod text;
mod verdict;
mod walking;

pub use checking::check;
pub use framing::frame;
pub use law::a_verdict_is_legal_where_the_report_is;
pub use verdict::{Verdict, write_verdict};
