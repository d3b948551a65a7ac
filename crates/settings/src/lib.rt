//! The words of the command line: the modes of the program, and what the words ask for.
//!
//! The definition is `specs/Settings.antt`: what clap makes of the words, by its own definition, and the limits of each option.
//!
//! # Choices
//! - The words are read by clap, which takes memory: want of it is an answer of its own.
//! - The four numbers are taken from clap as text and read here, so that 1 to 10 digits are the only spelling.
//!
//! # Promises
//! - The words are read as clap defines this command, each number as it is defined (`settings_of`: `settings`).
#![tactic(auto)]

mod settings;

pub use settings::{Mode, Settings, settings_of};
