//! The bytes of a trace.
ghost use Rattle.std.specs.Prelude.{◌≡◌, ◌+◌, ◌≤◌, length, IfOk};
ghost use Rattle.trace_text.specs.Operation.{part};

use crate::command::Span;
use std::alloc::AllocError;
use std::marker::Model;
use std::sync::ArcSlice;

/// The bytes of a trace. They have several owners, the trace and whoever refers to some of them, and are freed with the last one.
#[derive(Drop)]
pub struct TraceBytes {
    shared: ArcSlice<u8>,
}

impl Model for TraceBytes {
    ghost use Rattle.std.specs.Prelude.{ℕ, List};
    ghost use Rattle.std.specs.Arc.{arc_slice_items};

    ghost Value = { List ℕ };

    ghost view = { λ b. arc_slice_items b.shared };
}

impl TraceBytes {
    /// These bytes, with one owner. They are not copied.
    ///
    /// # Errors
    /// `AllocError` where memory is not found; the bytes are given up.
    pub fn new(bytes: Vec<u8>) -> Result<TraceBytes, AllocError>
        ensures { IfOk result (λ shared. shared ≡ bytes.items) }
    {
        Ok(TraceBytes {
            shared: ArcSlice::from_vec(bytes)?,
        })
    }

    /// The same bytes for one owner more. They are not copied.
    ///
    /// # Errors
    /// `AllocError` where as many owners as can be counted have them.
    pub fn share(&self) -> Result<TraceBytes, AllocError>
        ensures { IfOk result (λ shared. shared ≡ self.now) }
    {
        Ok(TraceBytes {
            shared: self.shared.clone()?,
        })
    }

    /// The bytes.
    pub fn as_slice(&self) -> &[u8]
        ensures { result.now ≡ self.now }
    {
        self.shared.as_slice()
    }

    /// Those of a span.
    pub fn part(&self, span: Span) -> &[u8]
        requires { span.start + span.len ≤ length self.now }
        ensures value { result.now ≡ part self.now span }
        ensures len { length result.now ≡ span.len }
    {
        let bytes = self.as_slice();
        let start = span.start as usize;
        &bytes[start..start + span.len as usize]
    }
}
