//! The traces whose commands are done.
ghost use Rattle.std.specs.Prelude.{◌≡◌, ◌≤◌, IfSome};
ghost use Rattle.trace_text.specs.Parts.{most_shards};

use layout::MOST_TRACE_BYTES;
use std::alloc::Global;
use trace_text::{Trace, parse};

/// For one shard: a row is stored, and then read so many times.
pub fn of_reads(alloc: Global, number: u32) -> Option<Trace>
    ensures { IfSome result (λ trace. trace.shards ≡ 1) }
{
    let mut text = Vec::from_slice(alloc, b"put a 12345678\n").ok()?;
    for _ in 0..number {
        text.extend_from_slice(b"get a\n").ok()?;
    }
    read_for(alloc, text, 1)
}

/// For two shards: a read of shard 0 whose key belongs to shard 1.
pub fn one_read(alloc: Global) -> Option<Trace>
    ensures { IfSome result (λ trace. trace.shards ≡ 2) }
{
    let text = Vec::from_slice(alloc, b"get b\n").ok()?;
    read_for(alloc, text, 2)
}

/// The trace of a text, for so many shards.
fn read_for(alloc: Global, text: Vec<u8>, shards: u32) -> Option<Trace>
    requires some { 1 ≤ shards }
    requires most { shards ≤ most_shards }
    ensures { IfSome result (λ trace. trace.shards ≡ shards) }
{
    if text.len() > MOST_TRACE_BYTES as usize {
        return None;
    }
    parse(alloc, text, shards).ok()
}
