//! The modes of the program.
ghost use Rattle.std.specs.Prelude.{◌≡◌};
ghost use Rattle.settings.specs.Settings.{are_shards, mode_of};

/// What the program does.
#[derive(Clone, Copy, Debug, PartialEq, Eq)]
pub enum Mode {
    /// Runs a trace, each shard on a thread of its own, and writes the report.
    Run,
    /// Runs a trace on one thread, the shards in an order that is drawn from the number, and writes the report.
    Sim,
    /// Makes a trace of the number, runs it as `sim` does, and writes a summary.
    Gen,
    /// Checks a report against its trace, and writes the verdict.
    Audit,
    /// Keeps the puts of a trace in a queue until they are flushed, and writes what came of it.
    Dirty,
    /// Numbers the keys of a trace in an index, and writes what came of it.
    Index,
    /// Runs a script on a store of long values, and writes what came of it.
    Values,
}

/// The mode that a word names.
pub fn mode_of(word: &str) -> Option<Mode>
    ensures { result ≡ mode_of word.now }
{
    match word {
        "run" => Some(Mode::Run),
        "sim" => Some(Mode::Sim),
        "gen" => Some(Mode::Gen),
        "audit" => Some(Mode::Audit),
        "dirty" => Some(Mode::Dirty),
        "index" => Some(Mode::Index),
        "values" => Some(Mode::Values),
        _ => None,
    }
}

/// Whether a mode has a use for so many shards: one that keeps a store of its own has one.
pub fn are_shards(mode: Mode, shards: u32) -> bool
    ensures { result ≡ are_shards mode shards }
{
    match mode {
        Mode::Run | Mode::Sim | Mode::Gen | Mode::Audit => true,
        Mode::Dirty | Mode::Index | Mode::Values => shards == 1,
    }
}
