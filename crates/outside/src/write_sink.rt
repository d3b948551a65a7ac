//! A sink over a writer of std.
ghost use Rattle.std.specs.Prelude.{◌≡◌, ◌≤◌, ◌<◌, length, take, None, IfOk, OnErr};
ghost use Rattle.std.specs.Io.KnownBytes.{Appends, Keeps};
ghost use Rattle.outside.specs.Counted.{Counted};
ghost use Rattle.layout.specs.Counts.{Rose};

use crate::{Failed, Sink};
use std::io::{ErrorKind, Write};
use std::marker::Model;

/// A sink over a writer. It tells no bytes. A write that the system interrupts is tried again and
/// is no fault; any other error is one, and so is a write that takes nothing of a piece.
///
/// Each piece is flushed as it is written, so a buffer in the writer keeps nothing back and its
/// failures are counted here; a caller has nothing to flush at the end. Write large pieces.
#[derive(Drop)]
pub struct WriteSink<W> {
    writer: W,
    faults: u64,
}

impl<W> Model for WriteSink<W> {
    ghost Value = { Counted W };

    ghost view = { λ s. record { device = s.writer; faults = s.faults } };
}

impl<W> WriteSink<W> {
    /// A sink into what `writer` writes.
    pub fn new(writer: W) -> WriteSink<W>
        ensures { result ≡ record { device = writer; faults = 0 } }
    {
        WriteSink { writer, faults: 0 }
    }
}

impl<W: Write> Sink for WriteSink<W> {
    ghost written = { λ _. None };

    ghost faults = { λ s. s.faults };

    // What the writer itself tells, it tells of each write here too.
    fn write(&mut self, from: &[u8]) -> Result<usize, Failed>
        ensures fits { IfOk result (λ count. count ≤ length from.now) }
        ensures passed { IfOk result (λ count. Appends (W.contents self.old.device) (W.contents self.new.device) (take count from.now)) }
        ensures failed { OnErr result (Rose self.old.faults self.new.faults) }
        ensures never_stuck { IfOk result (λ count. 0 < length from.now → 0 < count) }
        ensures never_falls { self.old.faults ≤ self.new.faults }
    {
        for _ in 0..u64::MAX {
            match self.writer.write(from) {
                Ok(0) if !from.is_empty() => break,
                Ok(count) if flush(&mut self.writer) => return Ok(count),
                Err(error) if error.kind() == ErrorKind::Interrupted => {}
                _ => break,
            }
        }
        self.faults = self.faults.saturating_add(1);
        Err(Failed)
    }
}

// Whether what the writer holds back went out.
fn flush<W: Write>(writer: &mut W) -> bool
    ensures { Keeps (W.contents writer.old) (W.contents writer.new) }
{
    for _ in 0..u64::MAX {
        match writer.flush() {
            Ok(()) => return true,
            Err(error) if error.kind() == ErrorKind::Interrupted => {}
            Err(_) => return false,
        }
    }
    false
}
