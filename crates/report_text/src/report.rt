//! The report.
ghost use Rattle.std.specs.Prelude.{◌≡◌, ℕ, [], List, length, flat_map, OnOk};
ghost use Rattle.std.specs.List.{enumerate_from};
ghost use Rattle.outside.specs.Moves.{Sends};
ghost use Rattle.rows.specs.Apply.{Reply};
ghost use Rattle.cache_model.specs.Logged.{AreLogged};
ghost use Rattle.cache_model.specs.Report.{line, answer_text, journal_text, report_of};
ghost use Rattle.trace_text.specs.Parsed.{trace_in};
ghost use Rattle.report_text.specs.Views.{journals_in, occupancies_in, replies_in};
ghost use Rattle.report_text.specs.inside.AnsweredRun.{Have};
ghost use Rattle.text_lemmas.specs.Writing.{Writes};

use crate::ShardLine;
use crate::answered_run::Answered;
use crate::lines::{finish, put_journal};
use crate::stretch::{all_commands, put_stretch};
use outside::{Failed, Sink};
use run_log::{Journal, ReplyLog};
use text_out::Writer;
use trace_text::Trace;

/// Writes the report of a run of `trace` on `shards` shards, 1 to 16, each with its log, its journal and
/// its line. Each line of the report ends with LF:
///
/// - for each command, in order, its number and its answer: `stored`, `replaced`, `value` with a space
///   and the value, `missing`, `erased`, or `keys` and, for each key, a space and the key. A scan has the
///   first keys, in the order of their bytes, of those that all shards found;
/// - for each shard, `journal`, its number, and its entries: the number of the command whose part was
///   done, or `!` and the number of the put whose row was evicted;
/// - for each shard, `shard`, its number, and `rows`, `live`, `lent` and `back`, each with its number.
///
/// Each part of a command has a reply in the log of the shard that issued it: keys in order and not more than were
/// asked to a scan, and no keys to another command.
///
/// # Errors
///
/// [`Failed`] where the sink failed. A front of the report was written then.
pub fn write_report<K: Sink>(
    sink: &mut K,
    trace: &Trace,
    shards: u32,
    logs: &[ReplyLog],
    journals: &[Journal],
    lines: &[ShardLine],
) -> Result<(), Failed>
    requires parsed_for { shards ≡ trace.now.shards }
    requires one_log_each { length logs.now ≡ shards }
    requires one_journal_each { length journals.now ≡ shards }
    requires one_line_each { length lines.now ≡ shards }
    requires answered { (answers : List (ℕ × Reply)) × AreLogged (trace_in trace.now) shards (replies_in logs.now) answers }

    // The whole report, or a front of it, and then the sink failed.
    ensures { (answers : List (ℕ × Reply)) → AreLogged (trace_in trace.now) shards (replies_in logs.now) answers
        → Sends K.written K.faults sink.old sink.new result
        (report_of answers (journals_in journals.now) (occupancies_in lines.now)) }
{
    let run = Answered {
        trace,
        shards,
        logs,
    };
    let mut writer = Writer::new(sink);
    let written = put_report(&mut writer, &run, journals, lines);
    writer.into_sink();
    written
}

/// The report. The sink has the whole text then.
fn put_report<K: Sink>(
    writer: &mut Writer<'_, K>,
    run: &Answered<'_>,
    journals: &[Journal],
    lines: &[ShardLine],
) -> Result<(), Failed>
    requires answered { (answers : List (ℕ × Reply)) × Have run.now.trace.now run.now.shards run.now.logs.now answers }
    ensures wrote { (answers : List (ℕ × Reply)) → Have run.now.trace.now run.now.shards run.now.logs.now answers →
        Writes result writer.old writer.new (report_of answers (journals_in journals.now) (occupancies_in lines.now)) }
    ensures empty { OnOk result (writer.new.block ≡ []) }
{
    put_answers(writer, run)?;
    put_journals(writer, journals)?;
    finish(writer, lines)
}

/// The lines of the answers to all commands.
pub(crate) fn put_answers<K: Sink>(
    writer: &mut Writer<'_, K>,
    run: &Answered<'_>,
) -> Result<(), Failed>
    requires answered { (answers : List (ℕ × Reply)) × Have run.now.trace.now run.now.shards run.now.logs.now answers }
    ensures { (answers : List (ℕ × Reply)) → Have run.now.trace.now run.now.shards run.now.logs.now answers →
        Writes result writer.old writer.new (flat_map
        (λ answer. line (answer_text answer)) answers) }
{
    put_stretch(writer, run, &all_commands(run.trace))
}

pub(crate) fn put_journals<K: Sink>(
    writer: &mut Writer<'_, K>,
    journals: &[Journal],
) -> Result<(), Failed>
    ensures { Writes result writer.old writer.new
        (flat_map (λ journal. line (journal_text journal)) (enumerate_from 0 (journals_in journals.now))) }
{
    for (shard, journal) in journals.iter().enumerate() {
        put_journal(writer, shard as u64, journal)?;
    }
    Ok(())
}
