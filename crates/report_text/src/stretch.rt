//! Commands that stand one behind another, and the lines of their answers.
ghost use Rattle.std.specs.Prelude.{◌≡◌, ℕ, List, length};
ghost use Rattle.rows.specs.Apply.{Reply};
ghost use Rattle.report_text.specs.inside.AnsweredRun.{Have};
ghost use Rattle.text_lemmas.specs.Writing.{Writes};
ghost use Rattle.report_text.specs.inside.Stretches.{IsStretch, answer_lines};

use crate::answered_run::Answered;
use crate::answers::put_answer;
use crate::place::{Places, next_replies};
use outside::{Failed, Sink};
use text_out::Writer;
use trace_text::{MOST_SHARDS, Trace};

/// The commands from one on, up to another, and the places before the first of them.
#[derive(Clone, Copy)]
pub(crate) struct Stretch {
    pub(crate) from: usize,
    pub(crate) to: usize,
    pub(crate) places: Places,
}

/// No commands, before the first of a trace.
pub(crate) fn no_commands() -> Stretch {
    Stretch {
        from: 0,
        to: 0,
        places: [0; MOST_SHARDS as usize],
    }
}

/// All commands of a trace.
pub(crate) fn all_commands(trace: &Trace) -> Stretch
    ensures stretch { IsStretch trace.now result }
    ensures from { result.from ≡ 0 }
    ensures to { result.to ≡ length trace.now.commands }
{
    Stretch {
        from: 0,
        to: trace.commands().len(),
        places: [0; MOST_SHARDS as usize],
    }
}

/// The lines of the answers to the commands of a stretch.
pub(crate) fn put_stretch<K: Sink>(
    writer: &mut Writer<'_, K>,
    run: &Answered<'_>,
    stretch: &Stretch,
) -> Result<(), Failed>
    requires answered { (answers : List (ℕ × Reply)) × Have run.now.trace.now run.now.shards run.now.logs.now answers }
    requires stretch { IsStretch run.now.trace.now stretch.now }
    ensures { (answers : List (ℕ × Reply)) → Have run.now.trace.now run.now.shards run.now.logs.now answers →
        Writes result writer.old writer.new
        (answer_lines answers stretch.now.from stretch.now.to) }
{
    let (trace, logs) = (run.trace, run.logs);
    let commands = trace.commands();
    let mut places = stretch.places;
    for index in stretch.from..stretch.to {
        let (log, first) = next_replies(&mut places, trace, index, logs);
        put_answer(writer, &commands[index], run.shards, log, first)?;
    }
    Ok(())
}
