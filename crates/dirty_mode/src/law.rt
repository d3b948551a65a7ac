//! What follows of the definition of what is written.
ghost use Rattle.std.specs.Prelude.{◌≡◌, ℕ};
ghost use Rattle.trace_text.specs.Trace.{Trace};
ghost use Rattle.dirty_mode.specs.DirtyText.{lines};
ghost use Rattle.dirty_mode.specs.FlushedPuts.{flushed, puts};

/// The puts that are flushed are those of the trace, in order, each once.
pub fn puts_are_flushed_in_order()
    ensures { (trace : Trace) (pages : ℕ) → flushed (lines trace pages) ≡ puts trace }
{}
