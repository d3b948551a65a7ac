//! The functions that C calls. Each answers a code. Where that is not `DONE`, nothing happened but where it is said.
mod blocks;
mod guards;
mod looks;
mod opening;
mod queues;
mod scans;
mod stats;
mod storing;
