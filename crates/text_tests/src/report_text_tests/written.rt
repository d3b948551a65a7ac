//! What a sink holds once a run was written into it.
ghost use Rattle.std.specs.Prelude.{◌≡◌, ℕ, ◌<◌, List, length};
ghost use Rattle.trace_text.specs.Parsed.{trace_in};
ghost use Rattle.rows.specs.Apply.{Reply};
ghost use Rattle.cache_model.specs.Logged.{AreLogged};
ghost use Rattle.report_text.specs.Views.{replies_in};

use outside::{Failed, MemorySink};
use report_text::{ShardLine, Texts, write_report, write_report_on, write_summary};
use run_log::{Journal, ReplyLog};
use std::alloc::Global;
use std::test::Fail;
use std::thread::Threads;
use trace_text::Trace;

/// Whether the report of a run, whose pieces are made in these texts on so many threads, is this text.
pub(super) fn writes_on<R: Threads + Sync>(
    rt: &R,
    alloc: Global,
    texts: &mut Texts,
    threads: usize,
    run: &Run,
    text: &[u8],
) -> Result<bool, Fail>
    requires threads { 0 < threads }
    requires parsed_for { run.now.shards ≡ run.now.trace.now.shards }
    requires one_log_each { length run.now.logs.now ≡ run.now.shards }
    requires one_journal_each { length run.now.journals.now ≡ run.now.shards }
    requires one_line_each { length run.now.lines.now ≡ run.now.shards }
    requires answered { (answers : List (ℕ × Reply))
        × AreLogged (trace_in run.now.trace.now) run.now.shards (replies_in run.now.logs.now) answers }
{
    let mut sink = MemorySink::new(alloc, 1_000_000)?;
    let met = write_report_on(
        rt,
        texts,
        threads,
        &mut sink,
        run.trace,
        run.logs,
        run.journals,
        run.lines,
    );
    Ok(met == Ok(()) && sink.bytes() == text)
}

/// What is written of a run.
#[derive(Clone, Copy)]
pub(super) enum Form {
    Report,
    Summary,
}

/// A run that ended, with one log, one journal and one line a shard.
#[derive(Clone, Copy)]
pub(super) struct Run<'r> {
    pub(super) trace: &'r Trace,
    pub(super) shards: u32,
    pub(super) logs: &'r [ReplyLog],
    pub(super) journals: &'r [Journal],
    pub(super) lines: &'r [ShardLine],
}

/// Whether writing this of a run into a sink of so much room ends so, and the sink holds this text then.
pub(super) fn writes(
    alloc: Global,
    form: Form,
    run: &Run,
    room: usize,
    want: Result<(), Failed>,
    text: &[u8],
) -> Result<bool, Fail>
    requires parsed_for { run.now.shards ≡ run.now.trace.now.shards }
    requires one_log_each { length run.now.logs.now ≡ run.now.shards }
    requires one_journal_each { length run.now.journals.now ≡ run.now.shards }
    requires one_line_each { length run.now.lines.now ≡ run.now.shards }
    requires answered { (answers : List (ℕ × Reply))
        × AreLogged (trace_in run.now.trace.now) run.now.shards (replies_in run.now.logs.now) answers }
{
    let mut sink = MemorySink::new(alloc, room)?;
    let met = match form {
        Form::Report => write_report(
            &mut sink,
            run.trace,
            run.shards,
            run.logs,
            run.journals,
            run.lines,
        ),
        Form::Summary => write_summary(
            &mut sink,
            run.trace,
            run.shards,
            run.logs,
            run.journals,
            run.lines,
        ),
    };
    Ok(met == want && sink.bytes() == text)
}
