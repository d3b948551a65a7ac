//! The line of a put, made and written.
ghost use Rattle.std.specs.Prelude.{◌≡◌, ◌-◌, ◌≤◌, ◌<◌, [], length, take, drop, vec_capacity, OnOk, OnErr};
ghost use Rattle.std.specs.Io.KnownBytes.{Appends};
ghost use Rattle.layout.specs.Sizes.{greatest_key, greatest_value};
ghost use Rattle.rows.specs.Key.{in_table};
ghost use Rattle.layout.specs.Counts.{Rose};
ghost use Rattle.dirty_region.specs.Queues.{line};
ghost use Rattle.dirty_region.specs.inside.Lines.{greatest_line};

use layout::{GREATEST_KEY, GREATEST_VALUE};
use outside::{Failed, Sink};

// The most bytes of a line.
pub(crate) const GREATEST_LINE: usize = GREATEST_KEY + GREATEST_VALUE + 6;

// The text is the line of a put from now on.
pub(crate) fn make_line(text: &mut Vec<u8>, key: &[u8], value: &[u8])
    requires short_key { length key.now ≤ greatest_key }
    requires short_value { length value.now ≤ greatest_value }
    requires capacity { greatest_line ≤ vec_capacity text.old }
    ensures line { text.new.items ≡ line (record { key = in_table 0 key.now; value = value.now; number = 0 }) }
    ensures capacity { greatest_line ≤ vec_capacity text.new }
{
    text.clear();
    text.extend_from_slice(b"put ").unwrap();
    text.extend_from_slice(key).unwrap();
    text.extend_from_slice(b" ").unwrap();
    text.extend_from_slice(value).unwrap();
    text.extend_from_slice(b"\n").unwrap();
}

// Writes what is left of a line, of which `out` bytes are out, and counts the bytes as they go.
pub(crate) fn write_rest<K: Sink>(sink: &mut K, line: &[u8], out: &mut usize) -> Result<(), Failed>
    requires { out.old ≤ length line.now }
    ensures more { (out.old ≤ out.new) × (out.new ≤ length line.now) }
    ensures appended { Appends (K.written sink.old) (K.written sink.new) (take (out.new - out.old) (drop out.old line.now)) }
    ensures whole { OnOk result (out.new ≡ length line.now) }
    ensures unfinished { OnErr result (out.new < length line.now) }
    ensures failed { OnErr result (Rose (K.faults sink.old) (K.faults sink.new)) }
    ensures never_falls { K.faults sink.old ≤ K.faults sink.new }
{
    while *out < line.len() {
        write_some(sink, line, out)?;
    }
    Ok(())
}

// Writes some of what is left of a line, of which `out` bytes are out.
fn write_some<K: Sink>(sink: &mut K, line: &[u8], out: &mut usize) -> Result<(), Failed>
    requires { out.old < length line.now }
    ensures more { OnOk result (out.old < out.new) }
    ensures within { out.new ≤ length line.now }
    ensures appended { OnOk result (Appends (K.written sink.old) (K.written sink.new)
        (take (out.new - out.old) (drop out.old line.now))) }
    ensures none { OnErr result ((out.new ≡ out.old) × Appends (K.written sink.old) (K.written sink.new) []) }
    ensures failed { OnErr result (Rose (K.faults sink.old) (K.faults sink.new)) }
    ensures never_falls { K.faults sink.old ≤ K.faults sink.new }
{
    let count = sink.write(&line[*out..])?;
    if count == 0 {
        return Err(Failed);
    }
    *out += count;
    Ok(())
}
