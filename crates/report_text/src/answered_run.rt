//! A run that was answered.
ghost use Rattle.std.specs.Prelude.{◌≡◌, length};

use run_log::ReplyLog;
use trace_text::Trace;

/// A trace, the number of its shards, and the logs of its run, one for each of them.
#[derive(Drop)]
pub(crate) struct Answered<'a> {
    pub(crate) trace: &'a Trace,
    pub(crate) shards: u32,
    pub(crate) logs: &'a [ReplyLog],
    ghost parsed_for: { shards ≡ trace.now.shards },
    ghost one_log_each: { length logs.now ≡ shards },
}
