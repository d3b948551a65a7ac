//! Worked cases of the definition.
ghost use Rattle.values_mode.specs.Examples.{TextsAreRight};

/// What is written of a few scripts.
pub fn texts_are_as_worked()
    ensures { TextsAreRight }
{}
