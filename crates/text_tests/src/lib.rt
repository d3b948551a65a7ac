//! The tests of the crates that read, mean and write text, which use them from outside, a file for each crate. They stand
//! apart, since the check proves a crate's tests together with all of the crate.
//!
//! The crates: `outside`, `trace_text`, `cache_model`, `run_log`, `plain_cache`, `report_text`, `made_trace` and
//! `value_script`. The tests of traces that are read and of reports that are made on threads show the bytes alone, and not
//! which thread did what.
#![tactic(auto)]

#[cfg(test)]
mod cache_model_tests;
#[cfg(test)]
mod made_trace_tests;
#[cfg(test)]
mod outside_tests;
#[cfg(test)]
mod plain_cache_tests;
#[cfg(test)]
mod report_text_tests;
#[cfg(test)]
mod run_log_tests;
#[cfg(test)]
mod trace_text_tests;
#[cfg(test)]
mod value_script_tests;
