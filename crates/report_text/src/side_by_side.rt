//! The report, pieces of it made side by side on threads.
ghost use Rattle.std.specs.Prelude.{◌≡◌, ◌<◌, ℕ, [], List, length, flat_map, OnOk};
ghost use Rattle.outside.specs.Moves.{Sends};
ghost use Rattle.trace_text.specs.Parsed.{trace_in};
ghost use Rattle.rows.specs.Apply.{Reply};
ghost use Rattle.cache_model.specs.Logged.{AreLogged};
ghost use Rattle.cache_model.specs.Report.{line, answer_text, report_of};
ghost use Rattle.report_text.specs.Views.{journals_in, occupancies_in, replies_in};
ghost use Rattle.report_text.specs.inside.AnsweredRun.{Have};
ghost use Rattle.text_lemmas.specs.Writing.{Writes};

use crate::ShardLine;
use crate::answered_run::Answered;
use crate::journal_texts::put_journals_on;
use crate::lines::finish;
use crate::pieces::{Piece, begin_round, make_pieces, put_pieces};
use crate::report::put_answers;
use crate::reserved::Texts;
use outside::{Failed, Sink};
use run_log::{Journal, ReplyLog};
use std::thread::Threads;
use text_out::Writer;
use trace_text::{MOST_SHARDS, Trace};

/// Writes the report as [`write_report`](crate::write_report) does, for as many shards as the trace was parsed for, pieces of it made
/// on at most `threads` threads.
///
/// The commands are taken in rounds. In each the threads write the lines of the answers to 1,024 to 65,536 commands each, the
/// fewer the longer these may be, into the memory of `texts`, 1,024 a piece, and then one thread gives the sink these texts in
/// order. The lines of the journals are made so too, one a shard. Where there are no texts, nothing is made apart.
///
/// No memory is taken. A piece whose lines have no room is written straight to the sink in its place; so texts that were
/// reserved for the report of another trace do as well. Where the system makes no thread, the pieces are made one after another.
///
/// # Errors
///
/// [`Failed`] where the sink failed. A front of the report was written then.
pub fn write_report_on<R: Threads + Sync, K: Sink>(
    rt: &R,
    texts: &mut Texts,
    threads: usize,
    sink: &mut K,
    trace: &Trace,
    logs: &[ReplyLog],
    journals: &[Journal],
    lines: &[ShardLine],
) -> Result<(), Failed>
    requires threads { 0 < threads }
    requires one_log_each { length logs.now ≡ trace.now.shards }
    requires one_journal_each { length journals.now ≡ trace.now.shards }
    requires one_line_each { length lines.now ≡ trace.now.shards }
    requires answered { (answers : List (ℕ × Reply))
        × AreLogged (trace_in trace.now) trace.now.shards (replies_in logs.now) answers }

    // The whole report, or a front of it, and then the sink failed.
    ensures { (answers : List (ℕ × Reply)) → AreLogged (trace_in trace.now) trace.now.shards (replies_in logs.now) answers
        → Sends K.written K.faults sink.old sink.new result
        (report_of answers (journals_in journals.now) (occupancies_in lines.now)) }
{
    let shards = trace.shards();
    let run = Answered {
        trace,
        shards,
        logs,
    };
    let mut writer = Writer::new(sink);
    let written = put_report_on(rt, texts, threads, &mut writer, &run, journals, lines);
    writer.into_sink();
    written
}

/// The report, pieces of it made side by side. The sink has the whole text then.
fn put_report_on<R: Threads + Sync, K: Sink>(
    rt: &R,
    texts: &mut Texts,
    threads: usize,
    writer: &mut Writer<'_, K>,
    run: &Answered<'_>,
    journals: &[Journal],
    lines: &[ShardLine],
) -> Result<(), Failed>
    requires threads { 0 < threads }
    requires answered { (answers : List (ℕ × Reply)) × Have run.now.trace.now run.now.shards run.now.logs.now answers }
    ensures wrote { (answers : List (ℕ × Reply)) → Have run.now.trace.now run.now.shards run.now.logs.now answers →
        Writes result writer.old writer.new (report_of answers (journals_in journals.now) (occupancies_in lines.now)) }
    ensures empty { OnOk result (writer.new.block ≡ []) }
{
    put_answers_on(rt, texts.pieces.as_mut_slice(), threads, writer, run)?;
    put_journals_on(rt, texts.journals.as_mut_slice(), threads, writer, journals)?;
    finish(writer, lines)
}

/// The lines of all answers, made side by side in these pieces, if there are any.
fn put_answers_on<R: Threads + Sync, K: Sink>(
    rt: &R,
    pieces: &mut [Piece],
    threads: usize,
    writer: &mut Writer<'_, K>,
    run: &Answered<'_>,
) -> Result<(), Failed>
    requires threads { 0 < threads }
    requires answered { (answers : List (ℕ × Reply)) × Have run.now.trace.now run.now.shards run.now.logs.now answers }
    ensures { (answers : List (ℕ × Reply)) → Have run.now.trace.now run.now.shards run.now.logs.now answers →
        Writes result writer.old writer.new (flat_map
        (λ answer. line (answer_text answer)) answers) }
{
    if pieces.is_empty() {
        return put_answers(writer, run);
    }
    put_rounds(rt, pieces, threads, writer, run)
}

/// The lines of all answers. In each round each piece has the next commands.
fn put_rounds<R: Threads + Sync, K: Sink>(
    rt: &R,
    pieces: &mut [Piece],
    threads: usize,
    writer: &mut Writer<'_, K>,
    run: &Answered<'_>,
) -> Result<(), Failed>
    requires threads { 0 < threads }
    requires pieces { 0 < length pieces.old }
    requires answered { (answers : List (ℕ × Reply)) × Have run.now.trace.now run.now.shards run.now.logs.now answers }
    ensures { (answers : List (ℕ × Reply)) → Have run.now.trace.now run.now.shards run.now.logs.now answers →
        Writes result writer.old writer.new (flat_map
        (λ answer. line (answer_text answer)) answers) }
{
    let (trace, logs) = (run.trace, run.logs);
    let commands = trace.commands().len();
    let mut places = [0; MOST_SHARDS as usize];
    let mut from = 0;
    while from < commands {
        let to = begin_round(pieces, &mut places, trace, logs, from);
        make_pieces(rt, threads, pieces, run);
        put_pieces(writer, run, pieces)?;
        from = to;
    }
    Ok(())
}
