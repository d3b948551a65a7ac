//! A sink that keeps its bytes in memory.
ghost use Rattle.std.specs.Prelude.{◌≡◌, ◌≤◌, ◌<◌, ◌-◌, ◌↔◌, [], ◌++◌, min, take, length, vec_len, vec_capacity, Some, IsErr, IfOk, OnErr};
ghost use Rattle.outside.specs.Memory.{SinkState, number_after};
ghost use Rattle.layout.specs.Counts.{Rose};

use crate::{Failed, Sink};
use std::alloc::{AllocError, Global};
use std::marker::Model;

/// A sink that keeps its bytes in memory, up to a number of them. Once it is full, each piece that
/// is not empty fails.
#[derive(Drop)]
pub struct MemorySink {
    bytes: Vec<u8>,
    room: usize,
    faults: u64,
}

impl Model for MemorySink {
    ghost Value = { SinkState };

    ghost view = { λ s. record { bytes = s.bytes.items; room = s.room; faults = s.faults } };

    ghost invariant = { λ s. (vec_len s.bytes ≤ s.room) × (s.room ≤ vec_capacity s.bytes) };
}

impl MemorySink {
    /// A sink of `room` bytes, all of them reserved here.
    ///
    /// # Errors
    ///
    /// [`AllocError`] where no room could be reserved.
    pub fn new(alloc: Global, room: usize) -> Result<MemorySink, AllocError>
        ensures { IfOk result (λ sink. sink ≡ record { bytes = []; room = room; faults = 0 }) }
    {
        Ok(MemorySink {
            bytes: Vec::with_capacity(alloc, room)?,
            room,
            faults: 0,
        })
    }

    /// The bytes that were written.
    pub fn bytes(&self) -> &[u8]
        ensures value { result.now ≡ self.now.bytes }
        ensures within { length result.now ≤ self.now.room }
    {
        self.bytes.as_slice()
    }
}

impl Sink for MemorySink {
    ghost written = { λ s. Some s.bytes };

    ghost faults = { λ s. s.faults };

    fn write(&mut self, from: &[u8]) -> Result<usize, Failed>
        ensures full { IsErr result ↔ ((0 < length from.now) × (self.old.room ≤ length self.old.bytes)) }
        ensures count { IfOk result (λ count. count ≡ min (length from.now) (self.old.room - length self.old.bytes)) }
        ensures taken { IfOk result (λ count. self.new ≡ record self.old { bytes = self.old.bytes ++ take count from.now }) }
        ensures failed { OnErr result (self.new ≡ record self.old { faults = number_after self.old.faults }) }
        ensures rose { OnErr result (Rose self.old.faults self.new.faults) }
        ensures never_falls { self.old.faults ≤ self.new.faults }
    {
        let count = from.len().min(self.room - self.bytes.len());
        if count == 0 && !from.is_empty() {
            self.faults = self.faults.saturating_add(1);
            return Err(Failed);
        }
        self.bytes.extend_from_slice(&from[..count]).unwrap();
        Ok(count)
    }
}
