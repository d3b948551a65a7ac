//! A piece into a sink, to its end.
ghost use Rattle.std.specs.Prelude.{◌≡◌, ◌≤◌, [], IsOk, OnOk, OnErr};
ghost use Rattle.std.specs.Io.KnownBytes.{Appends};
ghost use Rattle.outside.specs.Moves.{AppendsFront};
ghost use Rattle.layout.specs.Counts.{Rose};

use crate::{Failed, Sink};

/// Writes all of `piece`. An empty piece is written without a call of the sink.
///
/// # Errors
///
/// [`Failed`] where the sink failed, or took nothing of a piece that is not empty. A front of the
/// piece was written then.
pub fn write_all<K: Sink>(sink: &mut K, piece: &[u8]) -> Result<(), Failed>
    ensures written { OnOk result (Appends (K.written sink.old) (K.written sink.new) piece.now) }
    ensures front { OnErr result (AppendsFront (K.written sink.old) (K.written sink.new) piece.now) }
    ensures failed { OnErr result (Rose (K.faults sink.old) (K.faults sink.new)) }
    ensures nothing { piece.now ≡ [] → IsOk result }
    ensures never_falls { K.faults sink.old ≤ K.faults sink.new }
{
    let mut done = 0;
    while done < piece.len() {
        let count = sink.write(&piece[done..])?;
        if count == 0 {
            return Err(Failed);
        }
        done += count;
    }
    Ok(())
}
