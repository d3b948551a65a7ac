//! How many bytes the rows take that are put at a shard.
ghost use Rattle.std.specs.Prelude.{◌<◌, length};

use row_bytes::row_size;
use trace_text::{Kind, Trace};

/// The bytes of the row that the command at this place puts at a shard: none where it puts none there.
fn bytes_at(trace: &Trace, at: usize, shard: u32) -> u32
    requires { at < length trace.now.commands }
{
    let command = &trace.commands()[at];
    if matches!(command.kind, Kind::Put) && trace.owner(at) == shard {
        row_size(trace.key(command), trace.value(command))
    } else {
        0
    }
}

/// The bytes of all rows that a trace puts at a shard.
pub(crate) fn bytes_put(trace: &Trace, shard: u32) -> u64 {
    let mut bytes = 0u64;
    for at in 0..trace.commands().len() {
        bytes = bytes.saturating_add(u64::from(bytes_at(trace, at, shard)));
    }
    bytes
}
