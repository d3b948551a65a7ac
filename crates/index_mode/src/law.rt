//! Worked cases of the definition.
ghost use Rattle.index_mode.specs.Examples.{TextsAreRight};

/// What is written of a few traces.
pub fn texts_are_as_worked()
    ensures { TextsAreRight }
{}
