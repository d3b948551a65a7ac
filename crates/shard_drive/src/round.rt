//! How the threads of a round wait for each other. No clause rests on it.

use crossbeam_utils::Backoff;
use std::sync::Wait;
use std::sync::atomic::{AtomicBool, AtomicU64, Ordering};
use std::thread::{Threads, available_parallelism};
use std::time::Duration;

/// For how many idle turns one after another a thread spins, where each thread has a processor to itself.
const SPINS: u32 = 200;

/// The same where threads share processors: one that spins is in the way of those that have something to do.
const SHARED_SPINS: u32 = 5;

/// In how many idle turns behind these it sleeps before it may leave its node.
pub(crate) const SLEEPS: u32 = 100;

/// The same in a round behind one in which no two nodes were driven at once: what one waits for is not driven beside it.
const ALONE_SLEEPS: u32 = 1;

/// For how many idle turns one after another each of so many threads spins before it sleeps, on this machine. One alone has no
/// other to wait for.
pub(crate) fn spins_of<R: Threads>(rt: &R, threads: usize) -> u32 {
    if threads == 1 {
        return SHARED_SPINS;
    }
    match available_parallelism(rt) {
        Ok(processors) if threads <= processors.get() => SPINS,
        _ => SHARED_SPINS,
    }
}

/// The nodes of a round, as the threads that drive them see each other.
#[derive(Drop)]
pub(crate) struct Round {
    // How many are neither done nor driven by a thread now.
    left: AtomicU64,
    // How many are driven by a thread now.
    driven: AtomicU64,
    // Whether two were driven at once.
    together: AtomicBool,
    spins: u32,
    sleeps: u32,
}

impl Round {
    /// So many nodes, before any is driven.
    pub(crate) fn new(nodes: usize, spins: u32, sleeps: u32) -> Round {
        Round {
            left: AtomicU64::new(nodes as u64),
            driven: AtomicU64::new(0),
            together: AtomicBool::new(false),
            spins,
            sleeps,
        }
    }

    /// A node is driven from now on.
    pub(crate) fn begin(&self) {
        self.left.fetch_sub(1, Ordering::Relaxed);
        if self.driven.fetch_add(1, Ordering::Relaxed) > 0 {
            self.together.store(true, Ordering::Relaxed);
        }
    }

    /// A node is done.
    pub(crate) fn end(&self) {
        self.driven.fetch_sub(1, Ordering::Relaxed);
    }

    /// A node that is not done is left.
    pub(crate) fn leave(&self) {
        self.left.fetch_add(1, Ordering::Relaxed);
        self.driven.fetch_sub(1, Ordering::Relaxed);
    }

    /// In how many idle turns a thread of the next round sleeps, once this one is over.
    pub(crate) fn next_sleeps(&self) -> u32 {
        if self.together.load(Ordering::Relaxed) {
            SLEEPS
        } else {
            ALONE_SLEEPS
        }
    }

    /// Whether a node may be left after so many idle turns: where another one is neither done nor driven, it may wait for that one
    /// in vain.
    pub(crate) fn may_leave(&self, idle: u32) -> bool {
        idle >= self.spins.saturating_add(self.sleeps) && self.left.load(Ordering::Relaxed) > 0
    }

    /// Pauses after a turn in which nothing moved, behind so many others: spins at first, longer each time, and then sleeps for a
    /// moment, of which the system makes some fifty microseconds.
    pub(crate) fn pause<R: Wait>(&self, rt: &R, backoff: &Backoff, idle: u32) {
        if idle < self.spins {
            backoff.spin();
        } else {
            let left = u32::try_from(self.left.load(Ordering::Relaxed)).unwrap_or(0);
            self.left.park_timeout(rt, left, Duration::from_micros(1));
        }
    }
}
