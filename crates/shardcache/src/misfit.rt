//! What keeps a trace that names tables from being run.
ghost use Rattle.std.specs.Prelude.{◌≡◌};
ghost use Rattle.trace_text.specs.Parsed.{trace_in};
ghost use Rattle.shardcache.specs.TraceFor.{knows_tables, misfit_in, misfit_name, misfit_of};

use layout::FEWEST_TABLE_PAGES;
use settings::{Mode, Settings};
use trace_text::Trace;

/// What keeps a trace of version 2 from being run, though it is read without a refusal.
#[derive(Clone, Copy, Debug, PartialEq, Eq)]
pub enum Misfit {
    /// The mode runs traces of version 1 alone.
    Version,
    /// A shard has fewer pages than tables need, which is 1,536.
    PagesTooFew,
}

impl Misfit {
    /// The name, as it is printed.
    pub fn name(self) -> &'static str
        ensures { result.now ≡ misfit_name self }
    {
        match self {
            Misfit::Version => "Version",
            Misfit::PagesTooFew => "PagesTooFew",
        }
    }
}

/// Whether the mode runs a trace on shards, which know tables, or checks such a run.
fn knows_tables(mode: Mode) -> bool
    ensures { result ≡ knows_tables mode }
{
    match mode {
        Mode::Run | Mode::Sim | Mode::Gen | Mode::Audit => true,
        Mode::Dirty | Mode::Index | Mode::Values => false,
    }
}

/// What keeps a trace that names tables from a mode that knows tables or does not, with so many pages.
fn misfit_in(knows: bool, pages: u32) -> Option<Misfit>
    ensures { result ≡ misfit_in knows pages }
{
    if !knows {
        return Some(Misfit::Version);
    }
    if pages < FEWEST_TABLE_PAGES {
        return Some(Misfit::PagesTooFew);
    }
    None
}

/// What keeps the trace from being run by these settings.
pub(crate) fn misfit_of(settings: Settings, trace: &Trace) -> Option<Misfit>
    ensures { result ≡ misfit_of settings.mode settings.pages (trace_in trace.now) }
{
    if trace.version() != 2 {
        return None;
    }
    misfit_in(knows_tables(settings.mode), settings.pages)
}
