//! A trace, and the settings that it is run by.
ghost use Rattle.std.specs.Prelude.{◌≡◌};

use settings::Settings;
use trace_text::Trace;

/// A trace that was parsed for as many shards as the settings ask for.
#[derive(Drop)]
pub(crate) struct Asked<'a> {
    pub(crate) settings: Settings,
    pub(crate) trace: &'a Trace,
    ghost parsed_for: { settings.shards ≡ trace.now.shards },
}
