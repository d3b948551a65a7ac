//! The lines of the answers, some at a time.
ghost use Rattle.std.specs.Prelude.{◌≡◌, ◌+◌, ℕ, min, List, length, OnOk, OnErr};
ghost use Rattle.std.specs.Io.KnownBytes.{Appends};
ghost use Rattle.layout.specs.Counts.{Rose};
ghost use Rattle.trace_text.specs.Parsed.{trace_in};
ghost use Rattle.rows.specs.Apply.{Reply};
ghost use Rattle.cache_model.specs.Logged.{AreLogged};
ghost use Rattle.report_text.specs.AnswerLines.{answer_lines, piece_commands};
ghost use Rattle.report_text.specs.Views.{replies_in};

use crate::answered_run::Answered;
use crate::pieces::{next_stretch, write_stretch};
use crate::place::Places;
use outside::{Failed, Sink};
use run_log::ReplyLog;
use std::marker::Model;
use trace_text::{MOST_SHARDS, Trace};

/// The lines of the answers to the commands of a run, given some at a time.
#[derive(Drop)]
pub struct AnswerLines<'a> {
    run: Answered<'a>,
    places: Places,
    given: usize,
}

impl<'a> Model for AnswerLines<'a> {
    ghost use Rattle.std.specs.Prelude.{◌≤◌, length};
    ghost use Rattle.trace_text.specs.Parsed.{trace_in};
    ghost use Rattle.report_text.specs.AnswerLines.{LinesState};
    ghost use Rattle.report_text.specs.inside.Places.{ArePlaces};

    ghost Value = { LinesState };

    ghost view = { λ l. record { trace = l.run.trace.now; shards = l.run.shards; logs = l.run.logs.now; given = l.given } };

    ghost invariant = { λ l. (l.given ≤ length l.run.trace.now.commands)
        × ArePlaces (trace_in l.run.trace.now) l.run.trace.now.shards l.given l.places };
}

impl<'a> AnswerLines<'a> {
    /// All lines of a run of `trace` on its shards, each with its log.
    pub fn of(trace: &'a Trace, logs: &'a [ReplyLog]) -> AnswerLines<'a>
        requires { length logs.now ≡ trace.now.shards }
        ensures { result ≡ record { trace = trace.now; shards = trace.now.shards; logs = logs.now; given = 0 } }
    {
        AnswerLines {
            run: Answered {
                trace,
                shards: trace.shards(),
                logs,
            },
            places: [0; MOST_SHARDS as usize],
            given: 0,
        }
    }

    /// How many were given.
    pub fn given(&self) -> usize
        ensures { result ≡ self.now.given }
    {
        self.given
    }

    /// Writes the next lines, at most 1,024 of them.
    ///
    /// The logs are as [`write_report`](crate::write_report) wants them.
    ///
    /// # Errors
    ///
    /// [`Failed`] where the sink failed. What was written then is not said.
    pub fn write_next<K: Sink>(&mut self, sink: &mut K) -> Result<(), Failed>
        requires answered { (answers : List (ℕ × Reply))
            × AreLogged (trace_in self.old.trace) self.old.shards (replies_in self.old.logs) answers }
        ensures trace { self.new.trace ≡ self.old.trace }
        ensures shards { self.new.shards ≡ self.old.shards }
        ensures logs { self.new.logs ≡ self.old.logs }
        ensures given { self.new.given ≡ min (self.old.given + piece_commands) (length self.old.trace.commands) }
        ensures written { OnOk result ((answers : List (ℕ × Reply))
            → AreLogged (trace_in self.old.trace) self.old.shards (replies_in self.old.logs) answers
            → Appends (K.written sink.old) (K.written sink.new) (answer_lines answers self.old.given self.new.given)) }
        ensures failed { OnErr result (Rose (K.faults sink.old) (K.faults sink.new)) }
    {
        let (trace, logs) = (self.run.trace, self.run.logs);
        let stretch = next_stretch(&mut self.places, trace, logs, self.given);
        self.given = stretch.to;
        write_stretch(sink, &self.run, &stretch)
    }
}
