//! The summary.
ghost use Rattle.std.specs.Prelude.{◌≡◌, ◌^◌, ◌<◌, ℕ, [], List, ◌++◌, length, count_by, codes, decimal, OnOk};
ghost use Rattle.outside.specs.Moves.{Sends};
ghost use Rattle.trace_text.specs.Parsed.{trace_in};
ghost use Rattle.rows.specs.Apply.{Reply};
ghost use Rattle.cache_model.specs.Logged.{AreLogged};
ghost use Rattle.cache_model.specs.Report.{line};
ghost use Rattle.cache_model.specs.Summary.{evictions, is_evicted, summary_of, tally, tally_text};
ghost use Rattle.report_text.specs.Views.{journals_in, occupancies_in, replies_in};
ghost use Rattle.report_text.specs.inside.AnsweredRun.{Have};
ghost use Rattle.text_lemmas.specs.Writing.{Writes};
ghost use Rattle.report_text.specs.inside.Tallies.{tally_in};

use crate::ShardLine;
use crate::answered_run::Answered;
use crate::lines::{finish, put_field_line};
use crate::tally::{Tally, tally_of};
use cache_model::Entry;
use outside::{Failed, Sink};
use run_log::{Journal, ReplyLog};
use text_out::Writer;
use trace_text::Trace;

/// Writes the summary of a run of `trace` on `shards` shards, 1 to 16, each with its log, its journal and its line. Each
/// line of the summary ends with LF:
///
/// - `commands` and how many there are;
/// - `stored`, `replaced`, `values`, `missing`, `erased` and `scans`, each with the number of commands that were answered
///   so;
/// - `evictions` and how many rows were evicted;
/// - for each shard, its line of the report.
///
/// The logs are as [`write_report`](crate::write_report) wants them.
///
/// # Errors
///
/// [`Failed`] where the sink failed. A front of the summary was written then.
pub fn write_summary<K: Sink>(
    sink: &mut K,
    trace: &Trace,
    shards: u32,
    logs: &[ReplyLog],
    journals: &[Journal],
    lines: &[ShardLine],
) -> Result<(), Failed>
    requires parsed_for { shards ≡ trace.now.shards }
    requires one_log_each { length logs.now ≡ shards }
    requires one_journal_each { length journals.now ≡ shards }
    requires one_line_each { length lines.now ≡ shards }
    requires answered { (answers : List (ℕ × Reply)) × AreLogged (trace_in trace.now) shards (replies_in logs.now) answers }

    // The whole summary, or a front of it, and then the sink failed.
    ensures { (answers : List (ℕ × Reply)) → AreLogged (trace_in trace.now) shards (replies_in logs.now) answers
        → Sends K.written K.faults sink.old sink.new result
        (summary_of answers (journals_in journals.now) (occupancies_in lines.now)) }
{
    let run = Answered {
        trace,
        shards,
        logs,
    };
    let mut writer = Writer::new(sink);
    let written = put_summary(&mut writer, &run, journals, lines);
    writer.into_sink();
    written
}

/// The summary. The sink has the whole text then.
fn put_summary<K: Sink>(
    writer: &mut Writer<'_, K>,
    run: &Answered<'_>,
    journals: &[Journal],
    lines: &[ShardLine],
) -> Result<(), Failed>
    requires few { length journals.now < 2 ^ 32 }
    requires answered { (answers : List (ℕ × Reply)) × Have run.now.trace.now run.now.shards run.now.logs.now answers }
    ensures wrote { (answers : List (ℕ × Reply)) → Have run.now.trace.now run.now.shards run.now.logs.now answers →
        Writes result writer.old writer.new (summary_of answers (journals_in journals.now) (occupancies_in lines.now)) }
    ensures empty { OnOk result (writer.new.block ≡ []) }
{
    put_counts(writer, run)?;
    put_evictions(writer, journals)?;
    finish(writer, lines)
}

/// The lines of the commands and of their answers, counted.
fn put_counts<K: Sink>(writer: &mut Writer<'_, K>, run: &Answered<'_>) -> Result<(), Failed>
    requires answered { (answers : List (ℕ × Reply)) × Have run.now.trace.now run.now.shards run.now.logs.now answers }
    ensures { (answers : List (ℕ × Reply)) → Have run.now.trace.now run.now.shards run.now.logs.now answers →
        Writes result writer.old writer.new (line
        (codes "commands " ++ decimal (length answers)) ++ line (tally_text (tally answers))) }
{
    let commands = run.trace.commands().len() as u64;
    put_field_line(writer, &[(b"commands ", commands)])?;
    let tally = tally_of(run);
    put_tally(writer, &tally)
}

/// The line of the counted answers.
fn put_tally<K: Sink>(writer: &mut Writer<'_, K>, tally: &Tally) -> Result<(), Failed>
    ensures { Writes result writer.old writer.new
        (line (tally_text (tally_in tally.now))) }
{
    put_field_line(
        writer,
        &[
            (b"stored ", u64::from(tally.stored)),
            (b" replaced ", u64::from(tally.replaced)),
            (b" values ", u64::from(tally.values)),
            (b" missing ", u64::from(tally.missing)),
            (b" erased ", u64::from(tally.erased)),
            (b" scans ", u64::from(tally.scans)),
        ],
    )
}

/// How many rows were evicted, by one journal.
fn evictions_in(journal: &Journal) -> u64
    ensures count { result ≡ count_by is_evicted journal.now.entries }
    ensures few { result < 2 ^ 32 }
{
    journal
        .entries()
        .iter()
        .filter(|entry| matches!(entry, Entry::Evicted(_)))
        .count() as u64
}

/// How many rows were evicted, by all journals.
fn evictions_of(journals: &[Journal]) -> u64
    requires few { length journals.now < 2 ^ 32 }
    ensures { result ≡ evictions (journals_in journals.now) }
{
    let mut evictions = 0;
    for journal in journals {
        evictions += evictions_in(journal);
    }
    evictions
}

/// The line of the evictions.
fn put_evictions<K: Sink>(writer: &mut Writer<'_, K>, journals: &[Journal]) -> Result<(), Failed>
    requires few { length journals.now < 2 ^ 32 }
    ensures { Writes result writer.old writer.new
        (line (codes "evictions " ++ decimal (evictions (journals_in journals.now)))) }
{
    put_field_line(writer, &[(b"evictions ", evictions_of(journals))])
}
