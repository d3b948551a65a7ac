//! The verdict on a report.
ghost use Rattle.std.specs.Prelude.{◌≡◌, [], ◌++◌, codes, decimal, OnOk};
ghost use Rattle.outside.specs.Moves.{Sends};
ghost use Rattle.report_check.specs.Verdict.{verdict_text};
ghost use Rattle.text_lemmas.specs.Writing.{Writes};

use outside::{Failed, Sink};
use text_out::Writer;

/// What a report is.
#[derive(Clone, Copy, Debug, PartialEq, Eq)]
pub enum Verdict {
    /// It is a legal one.
    Legal,
    /// It is not, and this line, counted from 1, is the first that says so: one that spells no journal, or else the first whose
    /// journal is not legal and complete for its shard, or else the first that differs from the report of these journals.
    Illegal { line: u32 },
}

/// Writes `legal`, or `illegal line` and the number of the line.
///
/// # Errors
///
/// [`Failed`] where the sink failed. A front of the line was written then.
pub fn write_verdict<K: Sink>(sink: &mut K, verdict: Verdict) -> Result<(), Failed>
    ensures { Sends K.written K.faults sink.old sink.new result (verdict_text verdict) }
{
    let mut writer = Writer::new(sink);
    let written = finish_verdict(&mut writer, verdict);
    writer.into_sink();
    written
}

/// The line of a verdict. The sink has it then.
fn finish_verdict<K: Sink>(writer: &mut Writer<'_, K>, verdict: Verdict) -> Result<(), Failed>
    ensures wrote { Writes result writer.old writer.new (verdict_text verdict) }
    ensures empty { OnOk result (writer.new.block ≡ []) }
{
    put_verdict(writer, verdict)?;
    writer.flush()
}

fn put_verdict<K: Sink>(writer: &mut Writer<'_, K>, verdict: Verdict) -> Result<(), Failed>
    ensures { Writes result writer.old writer.new (verdict_text verdict) }
{
    match verdict {
        Verdict::Legal => writer.put(b"legal\n"),
        Verdict::Illegal { line } => put_illegal(writer, line),
    }
}

fn put_illegal<K: Sink>(writer: &mut Writer<'_, K>, line: u32) -> Result<(), Failed>
    ensures { Writes result writer.old writer.new (codes "illegal line " ++ decimal line ++ codes "\n") }
{
    writer.put_field(b"illegal line ", u64::from(line))?;
    writer.end_line()
}
