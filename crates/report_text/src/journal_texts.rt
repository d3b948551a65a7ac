//! The lines of the journals, made in memory of their own.
ghost use Rattle.std.specs.Prelude.{◌≡◌, ◌<◌, ℕ, [], length, flat_map, vec_len, IfOk, OnOk, OnErr};
ghost use Rattle.std.specs.List.{enumerate_from, slice_index_or};
ghost use Rattle.std.specs.Io.KnownBytes.{Appends};
ghost use Rattle.layout.specs.Counts.{Rose};
ghost use Rattle.cache_model.specs.Report.{line, journal_text};
ghost use Rattle.report_text.specs.Views.{journals_in};
ghost use Rattle.text_lemmas.specs.Writing.{Writes};
ghost use Rattle.report_text.specs.inside.Pieces.{SaysJournal};

use crate::held::Held;
use crate::lines::put_journal;
use crate::report::put_journals;
use outside::{Failed, Sink};
use run_log::Journal;
use std::alloc::{AllocError, Global};
use std::thread;
use std::thread::Threads;
use text_out::Writer;
use trace_text::Trace;

/// The most bytes of an entry of a journal's line.
const ENTRY: usize = 12;

/// The most bytes of a journal's line that are no entry's.
const FRAME: usize = 32;

/// Texts with nothing in them, one for each shard, with room for all that its journal may have.
pub(crate) fn empty_texts(alloc: Global, trace: &Trace) -> Result<Vec<Held>, AllocError>
    ensures { IfOk result (λ texts. vec_len texts ≡ trace.now.shards) }
{
    let shards = trace.shards();
    let mut texts = Vec::with_capacity(alloc, shards as usize)?;
    for shard in 0..shards {
        let needs = trace.needs(shard, shards);
        let entries = needs.here_parts as usize + needs.here_puts as usize;
        texts.push(Held::new(alloc, FRAME + ENTRY * entries)?)?;
    }
    Ok(texts)
}

/// The lines of all journals, made side by side in these texts, if there is one for each.
pub(crate) fn put_journals_on<R: Threads + Sync, K: Sink>(
    rt: &R,
    texts: &mut [Held],
    threads: usize,
    writer: &mut Writer<'_, K>,
    journals: &[Journal],
) -> Result<(), Failed>
    requires threads { 0 < threads }
    ensures { Writes result writer.old writer.new
        (flat_map (λ journal. line (journal_text journal)) (enumerate_from 0 (journals_in journals.now))) }
{
    if texts.len() != journals.len() {
        return put_journals(writer, journals);
    }
    make_journals(rt, threads, texts, journals);
    put_made_journals(writer, journals, texts)
}

/// Gives the sink the line of a shard's journal.
fn write_journal<K: Sink>(sink: &mut K, shard: u64, journal: &Journal) -> Result<(), Failed>
    ensures written { OnOk result (Appends (K.written sink.old) (K.written sink.new) (line (journal_text (shard, journal.now.entries)))) }
    ensures failed { OnErr result (Rose (K.faults sink.old) (K.faults sink.new)) }
{
    let mut writer = Writer::new(sink);
    let written = finish_journal(&mut writer, shard, journal);
    writer.into_sink();
    written
}

/// The line of a shard's journal. The sink has it then.
fn finish_journal<K: Sink>(
    writer: &mut Writer<'_, K>,
    shard: u64,
    journal: &Journal,
) -> Result<(), Failed>
    ensures wrote { Writes result writer.old writer.new (line (journal_text (shard, journal.now.entries))) }
    ensures empty { OnOk result (writer.new.block ≡ []) }
{
    put_journal(writer, shard, journal)?;
    writer.flush()
}

/// Writes the line of a shard's journal into memory.
fn make_journal(text: &mut Held, shard: usize, journal: &Journal)
    ensures { SaysJournal shard journal.now text.new }
{
    text.clear();
    let _ = write_journal(text, shard as u64, journal);
}

/// Writes the line of each journal into its memory, on at most so many threads.
fn make_journals<R: Threads + Sync>(
    rt: &R,
    threads: usize,
    texts: &mut [Held],
    journals: &[Journal],
)
    requires threads { 0 < threads }
    requires one_each { length texts.old ≡ length journals.now }
    ensures len { length texts.new ≡ length texts.old }
    ensures says { (k : ℕ) (d : Held) (e : _) → k < length journals.now
        → SaysJournal k (slice_index_or journals.now k e) (slice_index_or texts.new k d) }
{
    thread::for_each_mut(
        rt,
        texts,
        threads,
        &|shard, text| make_journal(text, shard, &journals[shard]),
    );
}

/// The line of a journal, which is written straight to the sink where there was no room for it.
fn put_made_journal<K: Sink>(
    writer: &mut Writer<'_, K>,
    shard: usize,
    journal: &Journal,
    text: &Held,
) -> Result<(), Failed>
    requires { SaysJournal shard journal.now text.now }
    ensures { Writes result writer.old writer.new
        (line (journal_text (shard, journal.now.entries))) }
{
    match text.whole() {
        Some(text) => writer.put(text),
        None => put_journal(writer, shard as u64, journal),
    }
}

/// The lines of all journals, in order.
fn put_made_journals<K: Sink>(
    writer: &mut Writer<'_, K>,
    journals: &[Journal],
    texts: &[Held],
) -> Result<(), Failed>
    requires one_each { length texts.now ≡ length journals.now }
    requires says { (k : ℕ) (d : Held) (e : _) → k < length journals.now
        → SaysJournal k (slice_index_or journals.now k e) (slice_index_or texts.now k d) }
    ensures { Writes result writer.old writer.new
        (flat_map (λ journal. line (journal_text journal)) (enumerate_from 0 (journals_in journals.now))) }
{
    for (shard, journal) in journals.iter().enumerate() {
        put_made_journal(writer, shard, journal, &texts[shard])?;
    }
    Ok(())
}
