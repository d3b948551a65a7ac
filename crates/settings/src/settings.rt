//! What the words of the command line ask.
ghost use Rattle.std.specs.Prelude.{◌≡◌, ◌<◌, ◌≤◌, true, IfOk, IfSome, map, option_map, string_bytes};
ghost use Rattle.layout.specs.Sizes.{ArePages};
ghost use Rattle.clap.specs.Words.{first_of, found_of, rows_of};
ghost use Rattle.trace_text.specs.Parts.{most_shards};
ghost use Rattle.settings.specs.Settings.{are_shards, most_made_commands, settings, settings_in, view};

mod command;
mod mode;
mod number;

use clap::ArgMatches;
use clap::error::ErrorKind;
use command::command;
use layout::{FEWEST_PAGES, MOST_RUN_PAGES, SEGMENT_PAGES};
pub use mode::Mode;
use mode::{are_shards, mode_of};
use number::number_within;
use std::alloc::{AllocError, Global};
use trace_text::MOST_SHARDS;

/// The pages of a shard where none are asked for.
const DEFAULT_PAGES: u32 = 8192;

/// The most pages of all shards together: 1 GiB.
const MOST_PAGES_IN_ALL: u32 = 262_144;

/// The most commands of a made trace.
const MOST_MADE_COMMANDS: u32 = 100_000;

/// What the words of the command line ask.
#[derive(Clone, Copy, Debug, PartialEq, Eq)]
pub struct Settings {
    pub mode: Mode,
    /// How many shards there are.
    pub shards: u32,
    /// The pages of each shard.
    pub pages: u32,
    /// The seed: the number from which what a mode chooses is drawn.
    pub number: u32,
    /// The commands of a made trace.
    pub commands: u32,
}

impl Settings {
    /// On how many threads a trace is read and a report is written: as many as shards run on, or ran on.
    pub fn threads(self) -> usize
        ensures { 0 < result }
    {
        match self.mode {
            Mode::Run | Mode::Audit => (self.shards as usize).max(1),
            _ => 1,
        }
    }
}

/// The value of an argument.
fn value_of<'a>(matches: &ArgMatches<'a>, name: &str) -> Option<&'a str>
    ensures { option_map (λ value. value.now) result ≡ first_of name.now (rows_of (found_of matches.now)) }
{
    matches.get_str(name)
}

/// What the values of the arguments ask, or none where one of them is refused.
#[tactic(auto, unfolding(crate::specs::Settings::settings_in))]
fn settings_in(matches: &ArgMatches<'_>) -> Option<Settings>
    ensures value { option_map view result ≡ settings_in (rows_of (found_of matches.now)) }
    ensures pages { IfSome result (λ found. ArePages found.pages) }
    ensures shards { IfSome result (λ found. (1 ≤ found.shards) × (found.shards ≤ most_shards)) }
    ensures commands { IfSome result (λ found. found.commands ≤ most_made_commands) }
    ensures alone { IfSome result (λ found. are_shards found.mode found.shards ≡ true) }
{
    let mode = mode_of(value_of(matches, "mode")?)?;
    let shards = number_within(value_of(matches, "shards"), 1, MOST_SHARDS, 1)?;
    let pages = value_of(matches, "pages");
    let pages = number_within(pages, FEWEST_PAGES, MOST_RUN_PAGES, DEFAULT_PAGES)?;
    let number = number_within(value_of(matches, "number"), 0, u32::MAX, 0)?;
    let commands = value_of(matches, "commands");
    let commands = number_within(commands, 1, MOST_MADE_COMMANDS, MOST_MADE_COMMANDS)?;
    let are_pages = pages % SEGMENT_PAGES == 0 && shards * pages <= MOST_PAGES_IN_ALL;
    if are_pages && are_shards(mode, shards) {
        Some(Settings {
            mode,
            shards,
            pages,
            number,
            commands,
        })
    } else {
        None
    }
}

/// The settings that the words behind the program's name ask for, or none where they are no use of it.
///
/// | Word | Limits | Where it is absent |
/// |---|---|---|
/// | a mode | `run`, `sim`, `gen`, `audit`, `dirty`, `index` or `values` | refused |
/// | `--shards N` | 1 to 16; for `dirty`, `index` and `values` 1 | 1 |
/// | `--pages N` | 1,280 to 65,536, a multiple of 32, and at most 262,144 of all shards | 8,192 |
/// | `--number N` | 0 to 4,294,967,295 | 0 |
/// | `--commands N` | 1 to 100,000 | 100,000 |
///
/// N is 1 to 10 digits and nothing else. The words are read by clap, which also takes `--shards=N`, options before
/// the mode, and `--` behind which no word is an option. An option is checked whether or not the mode uses it.
///
/// # Errors
///
/// [`AllocError`] where memory runs out.
pub fn settings_of(alloc: Global, words: &[String]) -> Result<Option<Settings>, AllocError>
    ensures settings { IfOk result (λ found. option_map view found ≡ settings (map (λ word. string_bytes word) words.now)) }
    ensures pages { IfOk result (λ found. IfSome found (λ some. ArePages some.pages)) }
    ensures shards { IfOk result (λ found. IfSome found (λ some. (1 ≤ some.shards) × (some.shards ≤ most_shards))) }
    ensures commands { IfOk result (λ found. IfSome found (λ some. some.commands ≤ most_made_commands)) }
    ensures alone { IfOk result (λ found. IfSome found (λ some. are_shards some.mode some.shards ≡ true)) }
{
    match command(alloc)?.try_get_matches_from(words) {
        Ok(matches) => Ok(settings_in(&matches)),
        Err(error) => match error.kind() {
            ErrorKind::OutOfMemory => Err(AllocError),
            _ => Ok(None),
        },
    }
}
