//! A source over bytes in memory.
ghost use Rattle.std.specs.Prelude.{◌≡◌, ◌≤◌, ◌<◌, ◌↔◌, [], ◌++◌, min, drop, take, length, Some, Contains, IsErr, IfOk, OnErr};
ghost use Rattle.outside.specs.Memory.{SourceState, number_after};
ghost use Rattle.layout.specs.Counts.{Rose};

use crate::{Failed, Source};
use std::marker::Model;

/// A source over bytes in memory. It gives at most so many bytes a call, and the calls that are
/// listed fail; calls are numbered from 1.
#[derive(Drop)]
pub struct MemorySource {
    bytes: Vec<u8>,
    at: usize,
    most: usize,
    next_call: u64,
    failing: Vec<u64>,
    faults: u64,
}

impl Model for MemorySource {
    ghost Value = { SourceState };

    ghost view = { λ s. record {
      left = drop s.at s.bytes.items;
      most = s.most;
      next_call = s.next_call;
      failing = s.failing.items;
      faults = s.faults;
    } };

    ghost invariant = { λ s. (s.at ≤ length s.bytes.items) × (1 ≤ s.most) };
}

impl MemorySource {
    /// A source of `bytes` that gives at most `most` bytes a call. The calls whose numbers are in
    /// `failing` fail; the first call has the number 1.
    pub fn new(bytes: Vec<u8>, most: usize, failing: Vec<u64>) -> MemorySource
        requires { 1 ≤ most }
        ensures { result ≡ record { left = bytes.items; most = most; next_call = 1; failing = failing.items; faults = 0 } }
    {
        MemorySource {
            bytes,
            at: 0,
            most,
            next_call: 1,
            failing,
            faults: 0,
        }
    }
}

impl Source for MemorySource {
    ghost left = { λ s. Some s.left };

    ghost faults = { λ s. s.faults };

    fn read(&mut self, into: &mut [u8]) -> Result<usize, Failed>
        // Calls fail by their number.
        ensures failing { IsErr result ↔ Contains self.old.failing self.old.next_call }

        // What it gives otherwise.
        ensures count { IfOk result (λ count. count ≡ min (min self.old.most (length into.old)) (length self.old.left)) }
        ensures end { IfOk result (λ count. count ≡ 0 → 0 < length into.old → self.new.left ≡ []) }
        ensures into { IfOk result (λ count. into.new ≡ take count self.old.left ++ drop count into.old) }
        ensures taken { IfOk result (λ count. self.new ≡ record self.old {
          left = drop count self.old.left;
          next_call = number_after self.old.next_call;
        }) }

        // A call that fails takes nothing.
        ensures failed { OnErr result (self.new ≡ record self.old {
          next_call = number_after self.old.next_call;
          faults = number_after self.old.faults;
        }) }
        ensures rose { OnErr result (Rose self.old.faults self.new.faults) }
        ensures never_falls { self.old.faults ≤ self.new.faults }
    {
        let call = self.next_call;
        self.next_call = call.saturating_add(1);
        if self.failing.contains(&call) {
            self.faults = self.faults.saturating_add(1);
            return Err(Failed);
        }
        let left = &self.bytes[self.at..];
        let count = self.most.min(into.len()).min(left.len());
        into[..count].copy_from_slice(&left[..count]);
        self.at += count;
        Ok(count)
    }
}
