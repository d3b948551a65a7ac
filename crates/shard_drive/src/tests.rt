//! Driving what only counts, and nodes over rings.
mod counters;
mod nodes;
mod opening;
