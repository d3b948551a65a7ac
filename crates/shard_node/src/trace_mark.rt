//! Which trace a run is of. It takes no memory: only contracts read it.
ghost use Rattle.std.specs.Prelude.{◌≡◌};
ghost use Rattle.std.specs.Borrow.{ftrue};
ghost use Rattle.trace_text.specs.Parsed.{trace_in};
ghost use Rattle.trace_text.specs.Trace.{Trace as Asked};

use std::marker::Model;
use trace_text::Trace;

/// A clause reads the trace as `trace`.
#[derive(Drop)]
pub(crate) struct TraceMark {
    ghost trace: { Asked },
}

impl Model for TraceMark {
    ghost also_owns = { λ _. ftrue };
}

impl TraceMark {
    /// The mark of this trace.
    pub(crate) fn of(trace: &Trace) -> TraceMark
        ensures { result.trace ≡ trace_in trace.now }
    {
        TraceMark {}
    }
}
