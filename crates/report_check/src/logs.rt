//! The replies in journals, logged as a run logs them.
ghost use Rattle.std.specs.Prelude.{◌≡◌, ◌<◌, ℕ, [], length, sum_by, if◌then◌else◌, IfOk};
ghost use Rattle.std.specs.List.{range_with_len};
ghost use Rattle.trace_text.specs.Parsed.{trace_in};
ghost use Rattle.trace_text.specs.Parts.{parts};
ghost use Rattle.cache_model.specs.Report.{lent};
ghost use Rattle.report_check.specs.inside.Walks.{AreLogs};

use run_log::ReplyLog;
use shard_parts::Rest;
use std::alloc::{AllocError, Global};
use trace_text::Trace;

/// Logs of all shards in which no reply is, with room for all replies.
pub(crate) fn empty_logs(alloc: Global, trace: &Trace) -> Result<Vec<ReplyLog>, AllocError>
    ensures { (pages : ℕ) → IfOk result (λ logs. AreLogs trace.now pages [] logs.items) }
{
    let shards = trace.shards();
    let mut logs = Vec::new(alloc);
    for shard in 0..shards {
        let needs = trace.needs(shard, shards);
        logs.push(ReplyLog::new(alloc, needs.own_parts, needs.reply_bytes)?)?;
    }
    Ok(logs)
}

/// How many commands a shard issues to itself.
fn own_commands(trace: &Trace, shard: u32) -> u64
    requires { shard < trace.now.shards }
    ensures { result ≡ length (parts (trace_in trace.now) trace.now.shards shard shard) }
{
    let mut rest = Rest::of(trace, shard, shard);
    // There are not too many to be counted.
    rest.facts();
    let mut count = 0;
    while rest.first().is_some() {
        rest.pass();
        count += 1;
    }
    count
}

/// How many blocks a shard lends for a trace: one for each part that it issues to another shard, or does for another.
pub(crate) fn lent_by(trace: &Trace, shard: u32) -> u64
    requires { shard < trace.now.shards }
    ensures { result ≡ lent (trace_in trace.now) trace.now.shards shard }
{
    let needs = trace.needs(shard, trace.shards());
    u64::from(needs.own_parts) + u64::from(needs.here_parts) - 2 * own_commands(trace, shard)
}
