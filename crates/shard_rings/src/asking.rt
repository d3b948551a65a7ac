//! What the commands of a trace ask.
ghost use Rattle.std.specs.Prelude.{◌≡◌, ℕ, List, Contains};
ghost use Rattle.trace_text.specs.Operation.{operation};
ghost use Rattle.rows.specs.Operation.{HasItsFields};
ghost use Rattle.rows.specs.Apply.{apply};
ghost use Rattle.rows.specs.Row.{Row};
ghost use Rattle.rows.specs.Askable.{IsAskable};
ghost use Rattle.rows.specs.Key.{key_shown};
ghost use Rattle.rows.specs.Operations.{numbered, of_fields};

use rows::{Key, Operation};
use trace_text::{Command, Kind, Trace};

/// What a command of the trace asks. It does not matter on which line it stood.
pub fn operation_of<'a>(trace: &'a Trace, command: &Command) -> Operation<'a>
    requires { Contains trace.now.commands command.now }
    ensures asked { numbered command.now.number result ≡ operation trace.now.bytes command.now }
    ensures askable { IsAskable (numbered command.now.number result) }
    ensures same { (cache : List Row) → apply (numbered command.now.number result) cache
        ≡ apply (operation trace.now.bytes command.now) cache }
{
    with_fields(
        command.kind,
        Key {
            table: command.table,
            bytes: trace.key(command),
        },
        trace.value(command),
        command.count,
    )
}

/// The operation of a kind with these fields, and it has no others.
fn with_fields<'a>(kind: Kind, key: Key<'a>, value: &'a [u8], count: u32) -> Operation<'a>
    requires { HasItsFields kind value.now count }
    ensures { (number : ℕ) → numbered number result ≡ of_fields number kind (key_shown key.entry) value.now count }
{
    match kind {
        Kind::Put => Operation::Put { key, value },
        Kind::Get => Operation::Get { key },
        Kind::Erase => Operation::Erase { key },
        Kind::Scan => Operation::Scan { from: key, count },
    }
}
