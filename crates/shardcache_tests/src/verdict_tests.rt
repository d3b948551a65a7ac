//! The definitions of verdicts and of inputs compute on examples.
ghost use Rattle.report_check.specs.Examples.{FramesAreRight, VerdictsAreRight};

/// The verdicts on a report of a put and a get, and on others that are like it.
fn verdicts()
    ensures { VerdictsAreRight }
{}

#[test]
fn verdicts_tell_the_first_wrong_line() {
    verdicts()
}

/// Inputs, cut into a trace and a report.
fn frames()
    ensures { FramesAreRight }
{}

#[test]
fn a_trace_stands_behind_its_length() {
    frames()
}
