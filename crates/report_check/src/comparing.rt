//! A report compared with what it should be.
ghost use Rattle.std.specs.Prelude.{◌≡◌, ℕ, ◌+◌, ◌^◌, ◌<◌, ◌≤◌, ◌++◌, List, length, map, All, IfOk, Some};
ghost use Rattle.std.specs.List.{enumerate_from};
ghost use Rattle.std.specs.Option.{option_map};
ghost use Rattle.rows.specs.Apply.{Reply};
ghost use Rattle.cache_model.specs.Logged.{AreLogged};
ghost use Rattle.cache_model.specs.Report.{answer_text, occupancy_text};
ghost use Rattle.cache_model.specs.Unbroken.{IsUnbroken};
ghost use Rattle.run_log.specs.Runs.{occupancies_in, replies_in};
ghost use Rattle.trace_text.specs.Parsed.{trace_in};
ghost use Rattle.report_check.specs.Lines.{first_difference, is_same_line, lines_of};
ghost use Rattle.report_check.specs.inside.Compared.{are_same, AreCompared, IsPrinted};

use crate::line::{Line, cut_line};
use crate::text::Text;
use report_text::{AnswerLines, write_shard_lines};
use run_log::{ReplyLog, ShardLine};
use std::alloc::{AllocError, Global};
use trace_text::Trace;

/// What is left of a report, and the number of the first line there.
#[derive(Clone, Copy)]
pub(crate) struct Left<'r> {
    pub(crate) bytes: &'r [u8],
    pub(crate) line: u32,
}

/// Whether two lines end, and are the same.
fn is_same(line: Line<'_>, other: Line<'_>) -> bool
    ensures { result ≡ is_same_line (option_map (λ text. text.now) line.entry) (option_map (λ text. text.now) other.entry) }
{
    let (Some(text), Some(other)) = (line, other) else {
        return false;
    };
    text == other
}

/// Whether both are there, and the same.
fn are_same(found: Option<Line<'_>>, expected: Option<Line<'_>>) -> bool
    ensures { result ≡ are_same (option_map (option_map (λ text. text.now)) found.entry)
        (option_map (option_map (λ text. text.now)) expected.entry) }
{
    let (Some(found), Some(expected)) = (found, expected) else {
        return false;
    };
    is_same(found, expected)
}

/// Compares a report from a line on with a text: what is left behind the lines of the text, or the first line that differs.
fn compare<'r>(from: Left<'r>, text: &[u8]) -> Result<Left<'r>, u32>
    requires short { from.line + length from.bytes.now < 2 ^ 32 }
    ensures { AreCompared from.entry.bytes.now from.entry.line (lines_of text.now) result }
{
    let mut left = from;
    let mut rest = text;
    while !rest.is_empty() {
        let (expected, behind) = cut_line(rest);
        let (found, after) = cut_line(left.bytes);
        if !are_same(found, expected) {
            return Err(left.line);
        }
        rest = behind;
        left = Left {
            bytes: after,
            line: left.line + 1,
        };
    }
    Ok(left)
}

/// Compares a report with the lines of the answers, which are made some at a time.
fn compare_answers<'r>(
    alloc: Global,
    trace: &Trace,
    logs: &[ReplyLog],
    report: &'r [u8],
) -> Result<Result<Left<'r>, u32>, AllocError>
    requires one_log_each { length logs.now ≡ trace.now.shards }
    requires short { length report.now < 2 ^ 30 }
    requires answered { (answers : List (ℕ × Reply)) × AreLogged (trace_in trace.now) trace.now.shards (replies_in logs.now) answers
        × All (λ answer. IsUnbroken answer.1) answers }
    ensures { IfOk result (λ compared. (answers : List (ℕ × Reply))
        → AreLogged (trace_in trace.now) trace.now.shards (replies_in logs.now) answers → All (λ answer. IsUnbroken answer.1) answers
        → AreCompared report.now 1 (map (λ answer. Some (answer_text answer)) answers) compared) }
{
    let commands = trace.commands().len();
    let mut lines = AnswerLines::of(trace, logs);
    let mut text = Text::new(alloc);
    let mut left = Left {
        bytes: report,
        line: 1,
    };
    while lines.given() < commands {
        text.clear();
        lines.write_next(&mut text).map_err(|_| AllocError)?;
        match compare(left, text.bytes()) {
            Ok(behind) => left = behind,
            Err(line) => return Ok(Err(line)),
        }
    }
    Ok(Ok(left))
}

/// The first line of a report's end, which begins with this line, at which it is not what the shards hold.
fn shards_differ(
    alloc: Global,
    left: Left<'_>,
    lines: &[ShardLine],
) -> Result<Option<u32>, AllocError>
    requires short { left.line + length left.bytes.now < 2 ^ 32 }
    ensures { IfOk result (λ found. found ≡ first_difference left.entry.line (lines_of left.entry.bytes.now)
        (map (λ occupancy. Some (occupancy_text occupancy)) (enumerate_from 0 (occupancies_in lines.now)))) }
{
    let mut text = Text::new(alloc);
    write_shard_lines(&mut text, lines).map_err(|_| AllocError)?;
    match compare(left, text.bytes()) {
        Ok(behind) if behind.bytes.is_empty() => Ok(None),
        Ok(behind) => Ok(Some(behind.line)),
        Err(line) => Ok(Some(line)),
    }
}

/// The first line at which a report is not the one of these journals, which stand in it: it differs from an answer, or, behind
/// the journals' lines, from what a shard holds.
pub(crate) fn first_difference(
    alloc: Global,
    trace: &Trace,
    logs: &[ReplyLog],
    lines: &[ShardLine],
    report: &[u8],
    behind: &[u8],
) -> Result<Option<u32>, AllocError>
    requires one_log_each { length logs.now ≡ trace.now.shards }
    requires short { length report.now < 2 ^ 30 }
    requires answered { (answers : List (ℕ × Reply)) × AreLogged (trace_in trace.now) trace.now.shards (replies_in logs.now) answers
        × All (λ answer. IsUnbroken answer.1) answers }
    requires printed { (printed : List (List ℕ)) × IsPrinted trace.now report.now behind.now printed }
    ensures { IfOk result (λ found. (answers : List (ℕ × Reply)) (printed : List (List ℕ))
        → AreLogged (trace_in trace.now) trace.now.shards (replies_in logs.now) answers → All (λ answer. IsUnbroken answer.1) answers
        → IsPrinted trace.now report.now behind.now printed
        → found ≡ first_difference 1 (lines_of report.now) (map (λ answer. Some (answer_text answer)) answers
        ++ map (λ text. Some text) printed
        ++ map (λ occupancy. Some (occupancy_text occupancy)) (enumerate_from 0 (occupancies_in lines.now)))) }
{
    match compare_answers(alloc, trace, logs, report)? {
        Ok(left) => {
            let left = Left {
                bytes: behind,
                line: left.line + trace.shards(),
            };
            shards_differ(alloc, left, lines)
        }
        Err(line) => Ok(Some(line)),
    }
}
