//! How many commands were answered how.
ghost use Rattle.std.specs.Prelude.{◌≡◌, ◌+◌, ◌^◌, ◌<◌, ℕ, List, [], Some};
ghost use Rattle.std.specs.List.{slice_get};
ghost use Rattle.rows.specs.Apply.{Reply};
ghost use Rattle.rows.specs.Spelled.{spelled};
ghost use Rattle.cache_model.specs.Summary.{tally};
ghost use Rattle.rows.specs.declared.reply_kind.ReplyKind.{ReplyKind as KindOfReply};
ghost use Rattle.report_text.specs.inside.AnsweredRun.{Have};
ghost use Rattle.report_text.specs.inside.Tallies.{tally_in, total, with_answer};

use crate::answered_run::Answered;
use crate::place::next_replies;
use cache_model::ReplyKind;
use run_log::ReplyLog;
use trace_text::MOST_SHARDS;

/// The numbers of answers, by their kind.
#[derive(Clone, Copy)]
pub(crate) struct Tally {
    pub(crate) stored: u32,
    pub(crate) replaced: u32,
    pub(crate) values: u32,
    pub(crate) missing: u32,
    pub(crate) erased: u32,
    pub(crate) scans: u32,
}

impl Tally {
    /// Of no answers.
    fn none() -> Tally
        ensures counts { tally_in result ≡ tally [] }
        ensures none { total result ≡ 0 }
    {
        Tally {
            stored: 0,
            replaced: 0,
            values: 0,
            missing: 0,
            erased: 0,
            scans: 0,
        }
    }

    /// Counts an answer of this kind.
    fn add(&mut self, kind: ReplyKind)
        requires { total self.old + 1 < 2 ^ 32 }
        ensures counted { (reply : Reply) → kind ≡ (spelled reply).0 → tally_in self.new ≡ with_answer reply (tally_in self.old) }
        ensures one_more { total self.new ≡ total self.old + 1 }
    {
        match kind {
            ReplyKind::Stored => self.stored += 1,
            ReplyKind::Replaced => self.replaced += 1,
            ReplyKind::Value => self.values += 1,
            ReplyKind::Missing => self.missing += 1,
            ReplyKind::Erased => self.erased += 1,
            ReplyKind::Keys => self.scans += 1,
        }
    }
}

/// The kind of a reply that a log has.
fn kind_at(log: &ReplyLog, part: u32) -> ReplyKind
    requires { (reply : KindOfReply × List ℕ) × (slice_get log.now.replies part ≡ Some (Some reply)) }
    ensures { (reply : KindOfReply × List ℕ) → slice_get log.now.replies part ≡ Some (Some reply) → result ≡ reply.0 }
{
    let (kind, _) = log.reply(part).unwrap();
    kind
}

/// The answers to the commands of a run, counted.
pub(crate) fn tally_of(run: &Answered<'_>) -> Tally
    requires answered { (answers : List (ℕ × Reply)) × Have run.now.trace.now run.now.shards run.now.logs.now answers }
    ensures { (answers : List (ℕ × Reply)) → Have run.now.trace.now run.now.shards run.now.logs.now answers
        → tally_in result ≡ tally answers }
{
    let (trace, logs) = (run.trace, run.logs);
    let mut places = [0; MOST_SHARDS as usize];
    let mut tally = Tally::none();
    for index in 0..trace.commands().len() {
        let (log, first) = next_replies(&mut places, trace, index, logs);
        tally.add(kind_at(log, first));
    }
    tally
}
