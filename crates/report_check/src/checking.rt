//! The check of a report.
ghost use Rattle.std.specs.Prelude.{◌≡◌, ◌+◌, ◌^◌, ◌<◌, ◌≤◌, ◌/◌, All, length, drop, IfOk};
ghost use Rattle.layout.specs.Sizes.{segment_pages, tickets};
ghost use Rattle.trace_text.specs.Parsed.{IsConsistent, IsWellFormed, trace_in};
ghost use Rattle.trace_text.specs.Trace.{regions};
ghost use Rattle.report_check.specs.Lines.{lines_of};
ghost use Rattle.report_check.specs.Verdict.{verdict};
ghost use Rattle.report_check.specs.inside.Spells.{IsRead};

use crate::comparing::first_difference;
use crate::journals::{Read, read_journals};
use crate::line::skip_lines;
use crate::logs::empty_logs;
use crate::verdict::Verdict;
use crate::walking::walk_all;
use std::alloc::{AllocError, Global};
use trace_text::Trace;

/// The verdict on a report whose journals were read.
fn check_read(
    alloc: Global,
    trace: &Trace,
    pages: u32,
    report: &[u8],
    read: &Read<'_>,
) -> Result<Verdict, AllocError>
    requires pages { tickets + 1 + regions (trace_in trace.now) ≤ pages / segment_pages }
    requires short { length report.now < 2 ^ 30 }
    requires behind { length read.now.behind.now ≤ length report.now }
    requires consistent { IsConsistent trace.now }
    requires well_formed { All IsWellFormed (trace_in trace.now).operations }
    requires read { IsRead (length trace.now.commands) trace.now.shards (drop (length trace.now.commands) (lines_of report.now)) read.now }
    ensures { IfOk result (λ found. found ≡ verdict (trace_in trace.now) trace.now.shards pages report.now) }
{
    let mut logs = empty_logs(alloc, trace)?;
    let journals = read.journals.as_slice();
    let lines = match walk_all(alloc, trace, pages, journals, &mut logs)? {
        Ok(lines) => lines,
        Err(line) => return Ok(Verdict::Illegal { line }),
    };
    let found = first_difference(
        alloc,
        trace,
        logs.as_slice(),
        lines.as_slice(),
        report,
        read.behind,
    )?;
    match found {
        None => Ok(Verdict::Legal),
        Some(line) => Ok(Verdict::Illegal { line }),
    }
}

/// Checks that bytes are a legal report of `trace` on `shards` shards, 1 to 16, each with so many pages: the report of one journal per
/// shard, those that it prints, each of which is legal and complete for its shard. `shards` is the number that the trace was parsed for.
///
/// The lines of the journals are looked at first, then the journals, in the order of their shards, and then all lines. The line of the
/// verdict is the first that is wrong there, counted from 1. A line that does not end with LF is like no line of a report.
///
/// It takes the memory that the logs of a run of the trace take, that of the journals and of one cache, and that of some of the
/// report's lines at a time.
///
/// # Errors
///
/// [`AllocError`] where memory runs out.
pub fn check(
    alloc: Global,
    trace: &Trace,
    shards: u32,
    pages: u32,
    report: &[u8],
) -> Result<Verdict, AllocError>
    requires parsed_for { shards ≡ trace.now.shards }
    requires pages { tickets + 1 + regions (trace_in trace.now) ≤ pages / segment_pages }
    requires short { length report.now < 2 ^ 30 }
    ensures { IfOk result (λ found. found ≡ verdict (trace_in trace.now) shards pages report.now) }
{
    let commands = trace.commands().len();
    let behind = skip_lines(report, commands);
    match read_journals(alloc, behind, shards, commands as u32)? {
        Ok(read) => check_read(alloc, trace, pages, report, &read),
        Err(line) => Ok(Verdict::Illegal { line }),
    }
}
