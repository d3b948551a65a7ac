//! The tests of the program, of the words that it is called with and of its runs, which use their crates from outside. They stand
//! apart, since the check proves a crate's tests together with all of the crate.
//!
//! Whole reports are compared byte for byte, and drawn traces for up to 16 shards are judged entry by entry by a plain cache.
//! `bench/evictions.py` does so with 1,000,000 commands, `bench/check.py TRACE REPORT` replays the journals of any report by a
//! cache of its own, and `bench/audits.py` holds the verdicts of `audit` on 5,000 changed reports against those of that script.
#![tactic(auto)]

#[cfg(test)]
mod program_tests;
#[cfg(test)]
mod settings_tests;
#[cfg(test)]
mod trace_run_tests;
#[cfg(test)]
mod verdict_tests;
