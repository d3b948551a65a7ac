//! What the nodes of a run left.
ghost use Rattle.std.specs.Prelude.{◌≡◌, ◌<◌, [], ◌∷◌, ◌++◌, length, IfOk};
ghost use Rattle.trace_text.specs.Parsed.{trace_in};

use crate::trace_mark::TraceMark;
use run_log::{Journal, ReplyLog, ShardLine};
use std::alloc::{AllocError, Global};
use std::marker::Model;
use trace_text::Trace;

/// The record of a run: the journals, the logs and the lines of its nodes that are done, in the order of their shards. It is of one
/// trace, of so many shards and so many pages, and only a node of these that is done adds to it.
#[derive(Drop)]
pub struct Ran {
    mark: TraceMark,
    shards: u32,
    pages: u32,
    journals: Vec<Journal>,
    logs: Vec<ReplyLog>,
    lines: Vec<ShardLine>,
}

impl Model for Ran {
    ghost use Rattle.std.specs.Prelude.{◌≡◌, ◌≤◌, length, vec_capacity};
    ghost use Rattle.run_log.specs.Runs.{RanState};

    ghost Value = { RanState };

    ghost view = { λ r. record {
      trace = r.mark.trace;
      shards = r.shards;
      pages = r.pages;
      journals = r.journals.items;
      logs = r.logs.items;
      lines = r.lines.items;
    } };

    ghost invariant = { λ r. (length r.logs.items ≡ length r.journals.items) × (length r.lines.items ≡ length r.journals.items)
        × (r.shards ≤ vec_capacity r.journals) × (r.shards ≤ vec_capacity r.logs) × (r.shards ≤ vec_capacity r.lines) };
}

impl Ran {
    /// The record of a run of this trace, of so many shards, for which it was parsed, with so many pages each. It has room for what each
    /// of their nodes leaves.
    ///
    /// # Errors
    /// There is no memory.
    pub fn new(alloc: Global, trace: &Trace, shards: u32, pages: u32) -> Result<Ran, AllocError>
        requires parsed_for { shards ≡ trace.now.shards }
        ensures { IfOk result (λ ran. ran ≡ record {
          trace = trace_in trace.now;
          shards = shards;
          pages = pages;
          journals = [];
          logs = [];
          lines = [];
        }) }
    {
        Ok(Ran {
            mark: TraceMark::of(trace),
            shards,
            pages,
            journals: Vec::with_capacity(alloc, shards as usize)?,
            logs: Vec::with_capacity(alloc, shards as usize)?,
            lines: Vec::with_capacity(alloc, shards as usize)?,
        })
    }

    /// The journals, one for each node that has finished.
    pub fn journals(&self) -> &[Journal]
        ensures value { result.now ≡ self.now.journals }
        ensures one_each { length self.now.logs ≡ length self.now.journals }
    {
        self.journals.as_slice()
    }

    /// The logs of replies, one for each node that has finished.
    pub fn logs(&self) -> &[ReplyLog]
        ensures value { result.now ≡ self.now.logs }
        ensures one_each { length self.now.logs ≡ length self.now.journals }
    {
        self.logs.as_slice()
    }

    /// The lines that say what the shards came to, one for each node that has finished.
    pub fn lines(&self) -> &[ShardLine]
        ensures value { result.now ≡ self.now.lines }
        ensures one_each { length self.now.lines ≡ length self.now.journals }
    {
        self.lines.as_slice()
    }

    /// Adds what a node left, behind what is there.
    pub(crate) fn add(&mut self, journal: Journal, log: ReplyLog, line: ShardLine)
        requires { length self.old.journals < self.old.shards }
        ensures { self.new ≡ record self.old {
          journals = self.old.journals ++ journal ∷ [];
          logs = self.old.logs ++ log ∷ [];
          lines = self.old.lines ++ line ∷ [];
        } }
    {
        self.journals.push_reserved(journal);
        self.logs.push_reserved(log);
        self.lines.push_reserved(line);
    }
}
