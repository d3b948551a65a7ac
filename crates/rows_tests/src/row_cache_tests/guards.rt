//! Compaction waits until the last guard is taken away.
use super::moved::halve;
use super::steps::{Step, first_wrong};
use super::trial::Trial;
use row_cache::Compacted;
use std::alloc::{AllocError, Global};
use std::test::Fail;

/// Whether two closed segments that are sparse stay as they are until the third of three guards is taken away.
fn waits_for_three(alloc: Global, trial: &mut Trial) -> Result<bool, AllocError> {
    const STEPS: &[Step] = &[
        Step::Guard,
        Step::Guard,
        Step::Guard,
        Step::Compact(Some(Compacted::Guarded)),
        Step::Unguard,
        Step::Compact(Some(Compacted::Guarded)),
        Step::Unguard,
        Step::Compact(Some(Compacted::Guarded)),
        Step::Free(1, 131_072),
        Step::Unguard,
        Step::Compact(Some(Compacted::Freed)),
        Step::Free(2, 69_592),
        Step::Size(10, 122_960),
    ];
    Ok(halve(alloc, trial)? && first_wrong(trial, STEPS).is_none())
}

fn waits(alloc: Global) -> Result<bool, AllocError> {
    let mut trial = Trial::new(alloc, 20)?;
    let waited = waits_for_three(alloc, &mut trial);
    drop(trial);
    waited
}

#[test]
fn compaction_waits_for_the_last_of_three_guards(rt: HostRuntime) -> Result<(), Fail> {
    assert!(rt; waits(rt.alloc())?);
    Ok(())
}
