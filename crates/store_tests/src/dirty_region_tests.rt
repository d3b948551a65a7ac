//! Puts that come and go, lines over sinks that fail, and what is written of a trace.
mod flushes;
mod one_tag;
mod plain;
mod puts;
mod steps;
mod texts;
mod trial;
