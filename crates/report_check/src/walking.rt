//! A journal, walked over a cache.
ghost use Rattle.std.specs.Prelude.{◌≡◌, ◌≤◌, ◌<◌, ◌/◌, ◌+◌, ◌^◌, ◌↔◌, ℕ, true, false, List, [], ◌∷◌, length, All, IfOk, IsTrue, Ok, Some, None};
ghost use Rattle.std.specs.List.{slice_get};
ghost use Rattle.layout.specs.Sizes.{segment_pages, tickets};
ghost use Rattle.rows.specs.Operation.{Operation};
ghost use Rattle.rows.specs.Row.{live};
ghost use Rattle.trace_text.specs.Parsed.{trace_in};
ghost use Rattle.trace_text.specs.Trace.{regions};
ghost use Rattle.cache_model.specs.declared.entry.Entry.{Entry as Entries};
ghost use Rattle.cache_model.specs.Report.{lent, number_of};
ghost use Rattle.run_log.specs.Runs.{journals_in, occupancy_in};
ghost use Rattle.part_lemmas.specs.Rest.{RestState};
ghost use Rattle.report_check.specs.inside.Walks.{AreLogs, AreRests, DoesNext, Ends, NextIsOther, StandsBehind, StandsOver, Steps, Walks, WalksAll};

use crate::logs::lent_by;
use crate::puts::bytes_put;
use cache_model::Entry;
use indexed_cache::Indexed;
use run_log::{Journal, ReplyLog, ShardLine};
use shard_parts::Rest;
use std::alloc::{AllocError, Global};
use trace_text::{Trace, origin_of};

/// What the entries of a journal, gone over in order, come to.
#[derive(Drop)]
pub(crate) struct Walk<'t> {
    pub(crate) cache: Indexed,
    /// By the shard that issues them, the commands that are not done yet.
    pub(crate) rests: Vec<Rest<'t>>,
    /// Memory for the body of a reply.
    pub(crate) body: Vec<u8>,
}

impl Walk<'_> {
    /// Gives the memory back.
    fn close(self) {
        let Walk { cache, .. } = self;
        cache.close();
    }
}

/// Of each shard the commands that it issues to this one.
fn rests_of<'t>(alloc: Global, trace: &'t Trace, shard: u32) -> Result<Vec<Rest<'t>>, AllocError>
    requires { shard < trace.now.shards }
    ensures { IfOk result (λ rests. AreRests trace.now shard [] rests.items) }
{
    let mut rests = Vec::new(alloc);
    for origin in 0..trace.shards() {
        rests.push(Rest::of(trace, origin, shard))?;
    }
    Ok(rests)
}

/// A walk that begins.
fn begin<'t>(
    alloc: Global,
    trace: &'t Trace,
    shard: u32,
    pages: u32,
) -> Result<Walk<'t>, AllocError>
    requires shard { shard < trace.now.shards }
    requires pages { tickets + 1 + regions (trace_in trace.now) ≤ pages / segment_pages }
    ensures { IfOk result (λ walk. StandsBehind trace.now pages shard [] walk) }
{
    let rests = rests_of(alloc, trace, shard)?;
    let puts = trace.needs(shard, trace.shards()).here_puts;
    let bytes = bytes_put(trace, shard);
    // Last, since only `close` gives its memory back.
    let cache = Indexed::new(alloc, pages, trace.regions(), puts, bytes)?;
    Ok(Walk {
        cache,
        rests,
        body: Vec::new(alloc),
    })
}

/// Does the part of a command that has this number, where it is the next one of its origin, and logs the reply. Answers whether it
/// is.
fn do_next(
    trace: &Trace,
    number: u32,
    cache: &mut Indexed,
    rest: &mut Rest<'_>,
    log: &mut ReplyLog,
    body: &mut Vec<u8>,
) -> Result<bool, AllocError>
    requires of_trace { rest.old.trace ≡ trace.now }
    requires open { (operation : Operation) (others : List Operation) → rest.old.left ≡ operation ∷ others
        → slice_get log.old.replies rest.old.part ≡ Some None }
    ensures other { result ≡ Ok false → NextIsOther number rest.old }
    ensures done { result ≡ Ok true → DoesNext number cache.old cache.new rest.old rest.new log.old log.new }
{
    let Some(command) = rest.first() else {
        return Ok(false);
    };
    if command.number != number {
        return Ok(false);
    }
    body.clear();
    let kind = cache.apply(trace, command, body)?;
    if body.len() > log.room() as usize {
        return Err(AllocError);
    }
    log.record(rest.part(), kind, body.as_slice());
    rest.pass();
    Ok(true)
}

/// Does what an entry says, where it may stand there, and answers whether it may.
fn step(
    trace: &Trace,
    entry: Entry,
    walk: &mut Walk<'_>,
    logs: &mut [ReplyLog],
) -> Result<bool, AllocError>
    requires numbered { 1 ≤ number_of entry }
    requires stands { (pages s : ℕ) × (walked : List (List Entries)) × (before : List Entries)
        × StandsOver trace.now pages s walked before walk.old logs.old }
    ensures { IfOk result (λ may. (pages s : ℕ) (walked : List (List Entries)) (before : List Entries)
        → StandsOver trace.now pages s walked before walk.old logs.old
        → Steps trace.now pages s walked before entry may walk.new logs.new) }
{
    match entry {
        Entry::Done(number) => {
            let origin = origin_of(number, trace.shards()) as usize;
            let (cache, body) = (&mut walk.cache, &mut walk.body);
            let rest = &mut walk.rests[origin];
            // The part of its first command stands in the log of the origin.
            rest.facts();
            do_next(trace, number, cache, rest, &mut logs[origin], body)
        }
        Entry::Evicted(put) => Ok(walk.cache.evict(put)),
    }
}

/// Whether no command is left of any of the shards.
fn are_done(rests: &[Rest<'_>]) -> bool
    ensures { IsTrue result ↔ All (λ (rest : RestState). rest.left ≡ []) rests.now }
{
    for rest in rests {
        if rest.first().is_some() {
            return false;
        }
    }
    true
}

/// What the cache of a shard holds, and how many blocks the shard lends.
fn line_of(trace: &Trace, shard: u32, cache: &Indexed) -> ShardLine
    requires { shard < trace.now.shards }
    ensures { occupancy_in result ≡ record {
      rows = length cache.now.rows;
      live = live cache.now.rows;
      lent = lent (trace_in trace.now) trace.now.shards shard;
      back = lent (trace_in trace.now) trace.now.shards shard;
    } }
{
    let lent = lent_by(trace, shard);
    ShardLine {
        rows: cache.rows(),
        live: cache.live(),
        lent,
        back: lent,
    }
}

/// Walks the entries of a journal; whether each may stand there.
fn walk_entries(
    trace: &Trace,
    entries: &[Entry],
    walk: &mut Walk<'_>,
    logs: &mut [ReplyLog],
) -> Result<bool, AllocError>
    requires numbered { All (λ entry. 1 ≤ number_of entry) entries.now }
    requires stands { (pages s : ℕ) × (walked : List (List Entries)) × StandsOver trace.now pages s walked [] walk.old logs.old }
    ensures { IfOk result (λ may. (pages s : ℕ) (walked : List (List Entries))
        → StandsOver trace.now pages s walked [] walk.old logs.old
        → Ends trace.now pages s walked entries.now may walk.new logs.new) }
{
    for entry in entries {
        if !step(trace, *entry, walk, logs)? {
            return Ok(false);
        }
    }
    Ok(true)
}

/// Walks the journal of a shard from its beginning, and logs its replies. Answers what the report says of the shard at the end, or
/// none where the journal is not legal or not complete.
fn walk_through(
    trace: &Trace,
    shard: u32,
    entries: &[Entry],
    walk: &mut Walk<'_>,
    logs: &mut [ReplyLog],
) -> Result<Option<ShardLine>, AllocError>
    requires shard { shard < trace.now.shards }
    requires numbered { All (λ entry. 1 ≤ number_of entry) entries.now }
    requires stands { (pages : ℕ) × (walked : List (List Entries)) × StandsOver trace.now pages shard walked [] walk.old logs.old }
    ensures { IfOk result (λ found. (pages : ℕ) (walked : List (List Entries))
        → StandsOver trace.now pages shard walked [] walk.old logs.old
        → Walks trace.now pages shard walked entries.now logs.new found) }
{
    if !walk_entries(trace, entries, walk, logs)? {
        return Ok(None);
    }
    if !are_done(walk.rests.as_slice()) {
        return Ok(None);
    }
    Ok(Some(line_of(trace, shard, &walk.cache)))
}

/// The same, of a journal of its own memory, which is given back.
fn walk_journal(
    alloc: Global,
    trace: &Trace,
    shard: u32,
    pages: u32,
    entries: &[Entry],
    logs: &mut [ReplyLog],
) -> Result<Option<ShardLine>, AllocError>
    requires shard { shard < trace.now.shards }
    requires pages { tickets + 1 + regions (trace_in trace.now) ≤ pages / segment_pages }
    requires numbered { All (λ entry. 1 ≤ number_of entry) entries.now }
    requires logs { (walked : List (List Entries)) × (length walked ≡ shard) × AreLogs trace.now pages walked logs.old }
    ensures { IfOk result (λ found. (walked : List (List Entries)) → length walked ≡ shard → AreLogs trace.now pages walked logs.old
        → Walks trace.now pages shard walked entries.now logs.new found) }
{
    let mut walk = begin(alloc, trace, shard, pages)?;
    let found = walk_through(trace, shard, entries, &mut walk, logs);
    walk.close();
    found
}

/// Walks all journals. Answers what the report says of the shards at the end, or the line of the first journal that is not legal or
/// not complete.
pub(crate) fn walk_all(
    alloc: Global,
    trace: &Trace,
    pages: u32,
    journals: &[Journal],
    logs: &mut [ReplyLog],
) -> Result<Result<Vec<ShardLine>, u32>, AllocError>
    requires one_each { length journals.now ≡ trace.now.shards }
    requires pages { tickets + 1 + regions (trace_in trace.now) ≤ pages / segment_pages }
    requires numbered { All (λ journal. All (λ entry. 1 ≤ number_of entry) journal) (journals_in journals.now) }
    requires logs { AreLogs trace.now pages [] logs.old }
    ensures { IfOk result (λ walked. WalksAll trace.now pages (journals_in journals.now) logs.new walked) }
{
    let commands = trace.commands().len() as u32;
    let mut lines = Vec::new(alloc);
    for shard in 0..trace.shards() {
        let entries = journals[shard as usize].entries();
        let Some(line) = walk_journal(alloc, trace, shard, pages, entries, logs)? else {
            return Ok(Err(commands + shard + 1));
        };
        lines.push(line)?;
    }
    Ok(Ok(lines))
}
