//! Pieces of the report: the lines of some of the answers, made in memory of their own.
ghost use Rattle.std.specs.Prelude.{◌≡◌, ◌+◌, ◌<◌, ◌≤◌, ℕ, [], min, All, List, length, vec_len, IfOk, OnOk, OnErr};
ghost use Rattle.std.specs.List.{slice_index_or};
ghost use Rattle.std.specs.Io.KnownBytes.{Appends};
ghost use Rattle.layout.specs.Counts.{Rose};
ghost use Rattle.trace_text.specs.Parsed.{trace_in};
ghost use Rattle.rows.specs.Apply.{Reply};
ghost use Rattle.report_text.specs.Views.{replies_in};
ghost use Rattle.report_text.specs.inside.AnsweredRun.{Have};
ghost use Rattle.text_lemmas.specs.Writing.{Writes};
ghost use Rattle.report_text.specs.inside.Places.{ArePlaces};
ghost use Rattle.report_text.specs.inside.Stretches.{IsStretch, answer_lines};
ghost use Rattle.report_text.specs.inside.Pieces.{AreRound, SaysAnswers, begins, piece_commands};

use crate::answered_run::Answered;
use crate::held::Held;
use crate::place::{Places, next_replies};
use crate::stretch::{Stretch, no_commands, put_stretch};
use outside::{Failed, Sink};
use run_log::ReplyLog;
use std::alloc::{AllocError, Global};
use std::thread;
use std::thread::Threads;
use text_out::Writer;
use trace_text::Trace;

/// How many commands a piece has, but for the last ones.
pub(crate) const PIECE: usize = 1_024;

/// Some of the commands, and the lines of their answers.
#[derive(Drop)]
pub(crate) struct Piece {
    stretch: Stretch,
    text: Held,
}

/// Pieces with no commands, each with room for so many bytes.
pub(crate) fn empty_pieces(
    alloc: Global,
    count: usize,
    room: usize,
) -> Result<Vec<Piece>, AllocError>
    ensures { IfOk result (λ pieces. vec_len pieces ≡ count) }
{
    let mut pieces = Vec::with_capacity(alloc, count)?;
    for _ in 0..count {
        pieces.push(Piece {
            stretch: no_commands(),
            text: Held::new(alloc, room)?,
        })?;
    }
    Ok(pieces)
}

/// The commands from one on, as many as a piece has. The places go on behind them.
pub(crate) fn next_stretch(
    places: &mut Places,
    trace: &Trace,
    logs: &[ReplyLog],
    from: usize,
) -> Stretch
    requires one_log_each { length logs.now ≡ trace.now.shards }
    requires within { from ≤ length trace.now.commands }
    requires places { ArePlaces (trace_in trace.now) trace.now.shards from places.old }
    ensures from { result.from ≡ from }
    ensures to { result.to ≡ min (from + piece_commands) (length trace.now.commands) }
    ensures places { ArePlaces (trace_in trace.now) trace.now.shards from result.places }
    ensures places_behind { ArePlaces (trace_in trace.now) trace.now.shards result.to places.new }
{
    let commands = trace.commands().len();
    let to = (from + PIECE).min(commands);
    let stretch = Stretch {
        from,
        to,
        places: *places,
    };
    for index in from..to {
        next_replies(places, trace, index, logs);
    }
    stretch
}

/// Gives each piece its commands, from one on, and answers where the next round begins.
pub(crate) fn begin_round(
    pieces: &mut [Piece],
    places: &mut Places,
    trace: &Trace,
    logs: &[ReplyLog],
    from: usize,
) -> usize
    requires one_log_each { length logs.now ≡ trace.now.shards }
    requires within { from ≤ length trace.now.commands }
    requires places { ArePlaces (trace_in trace.now) trace.now.shards from places.old }
    ensures next { result ≡ begins (length trace.now.commands) from (length pieces.old) }
    ensures places_behind { ArePlaces (trace_in trace.now) trace.now.shards result places.new }
    ensures round { AreRound trace.now from pieces.new }
    ensures len { length pieces.new ≡ length pieces.old }
{
    let mut at = from;
    for k in 0..pieces.len() {
        let stretch = next_stretch(places, trace, logs, at);
        at = stretch.to;
        pieces[k].stretch = stretch;
    }
    at
}

/// Gives the sink the lines of the answers to the commands of a stretch.
pub(crate) fn write_stretch<K: Sink>(
    sink: &mut K,
    run: &Answered<'_>,
    stretch: &Stretch,
) -> Result<(), Failed>
    requires answered { (answers : List (ℕ × Reply)) × Have run.now.trace.now run.now.shards run.now.logs.now answers }
    requires stretch { IsStretch run.now.trace.now stretch.now }
    ensures written { OnOk result ((answers : List (ℕ × Reply)) → Have run.now.trace.now run.now.shards run.now.logs.now answers
        → Appends (K.written sink.old) (K.written sink.new) (answer_lines answers stretch.now.from stretch.now.to)) }
    ensures failed { OnErr result (Rose (K.faults sink.old) (K.faults sink.new)) }
{
    let mut writer = Writer::new(sink);
    let written = finish_stretch(&mut writer, run, stretch);
    writer.into_sink();
    written
}

/// The lines of the answers to a stretch of commands. The sink has them then.
fn finish_stretch<K: Sink>(
    writer: &mut Writer<'_, K>,
    run: &Answered<'_>,
    stretch: &Stretch,
) -> Result<(), Failed>
    requires answered { (answers : List (ℕ × Reply)) × Have run.now.trace.now run.now.shards run.now.logs.now answers }
    requires stretch { IsStretch run.now.trace.now stretch.now }
    ensures wrote { (answers : List (ℕ × Reply)) → Have run.now.trace.now run.now.shards run.now.logs.now answers →
        Writes result writer.old writer.new (answer_lines answers stretch.now.from stretch.now.to) }
    ensures empty { OnOk result (writer.new.block ≡ []) }
{
    put_stretch(writer, run, stretch)?;
    writer.flush()
}

/// Writes the lines of a piece into its memory.
fn make_piece(piece: &mut Piece, run: &Answered<'_>)
    requires answered { (answers : List (ℕ × Reply)) × Have run.now.trace.now run.now.shards run.now.logs.now answers }
    requires stretch { IsStretch run.now.trace.now piece.old.stretch }
    ensures stretch { piece.new.stretch ≡ piece.old.stretch }
    ensures says { SaysAnswers (trace_in run.now.trace.now) run.now.shards (replies_in run.now.logs.now)
        piece.new.stretch piece.new.text }
{
    piece.text.clear();
    let _ = write_stretch(&mut piece.text, run, &piece.stretch);
}

/// Writes the lines of each piece, on at most so many threads.
pub(crate) fn make_pieces<R: Threads + Sync>(
    rt: &R,
    threads: usize,
    pieces: &mut [Piece],
    run: &Answered<'_>,
)
    requires threads { 0 < threads }
    requires answered { (answers : List (ℕ × Reply)) × Have run.now.trace.now run.now.shards run.now.logs.now answers }
    requires stretches { All (λ piece. IsStretch run.now.trace.now piece.stretch) pieces.old }
    ensures len { length pieces.new ≡ length pieces.old }
    ensures stretches { (k : ℕ) (d : Piece) → k < length pieces.old
        → (slice_index_or pieces.new k d).stretch ≡ (slice_index_or pieces.old k d).stretch }
    ensures says { All (λ piece. SaysAnswers (trace_in run.now.trace.now) run.now.shards (replies_in run.now.logs.now)
        piece.stretch piece.text) pieces.new }
{
    thread::for_each_mut(rt, pieces, threads, &|_, piece| make_piece(piece, run));
}

/// The lines of a piece, which are written straight to the sink where there was no room for them.
fn put_piece<K: Sink>(
    writer: &mut Writer<'_, K>,
    run: &Answered<'_>,
    piece: &Piece,
) -> Result<(), Failed>
    requires answered { (answers : List (ℕ × Reply)) × Have run.now.trace.now run.now.shards run.now.logs.now answers }
    requires stretch { IsStretch run.now.trace.now piece.now.stretch }
    requires says { SaysAnswers (trace_in run.now.trace.now) run.now.shards (replies_in run.now.logs.now)
        piece.now.stretch piece.now.text }
    ensures { (answers : List (ℕ × Reply)) → Have run.now.trace.now run.now.shards run.now.logs.now answers →
        Writes result writer.old writer.new
        (answer_lines answers piece.now.stretch.from piece.now.stretch.to) }
{
    match piece.text.whole() {
        Some(text) => writer.put(text),
        None => put_stretch(writer, run, &piece.stretch),
    }
}

/// The lines of all pieces of a round, in order.
pub(crate) fn put_pieces<K: Sink>(
    writer: &mut Writer<'_, K>,
    run: &Answered<'_>,
    pieces: &[Piece],
) -> Result<(), Failed>
    requires answered { (answers : List (ℕ × Reply)) × Have run.now.trace.now run.now.shards run.now.logs.now answers }
    requires round { (start : ℕ) × AreRound run.now.trace.now start pieces.now }
    requires says { All (λ piece. SaysAnswers (trace_in run.now.trace.now) run.now.shards (replies_in run.now.logs.now)
        piece.stretch piece.text) pieces.now }
    ensures { (start : ℕ) (answers : List (ℕ × Reply)) → AreRound run.now.trace.now start pieces.now
        → Have run.now.trace.now run.now.shards run.now.logs.now answers →
        Writes result writer.old writer.new
        (answer_lines answers start (begins (length run.now.trace.now.commands) start (length pieces.now))) }
{
    for piece in pieces {
        put_piece(writer, run, piece)?;
    }
    Ok(())
}
