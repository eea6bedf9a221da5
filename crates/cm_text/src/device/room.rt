//! A sink in memory.
ghost use Rattle.std.specs.Prelude.{◌≡◌, ◌+◌, ◌-◌, ◌^◌, ◌<◌, ◌≤◌, [], if◌then◌else◌};
ghost use Rattle.std.specs.Prelude.{length, Some, IfOk, is_ok, vec_capacity, vec_len};
ghost use Rattle.std.specs.Io.{WritesAtMost};
ghost use Rattle.std.specs.Io.KnownBytes.{WriteAppends};

use crate::device::{DeviceFailed, NoMemory, Sink};
use std::alloc::Global;

/// A sink in memory, for tests: it accepts a limited number of bytes in all and in each call, and then fails.
#[derive(Debug, Drop)]
pub struct Room {
    bytes: Vec<u8>,
    capacity: usize,
    at_most: usize,
    failures: u64,
    ghost has_room: { capacity ≤ vec_capacity bytes },
    ghost within: { vec_len bytes ≤ capacity },
}

impl Room {
    ghost use Rattle.cm_text.specs.Devices.{capacity_of, at_most_of};

    /// Room for `capacity` bytes. A call takes at most `at_most` of them: with 0 each write fails. All its
    /// memory is allocated here.
    pub fn new(alloc: Global, capacity: usize, at_most: usize) -> Result<Room, NoMemory>
        ensures failed { IfOk result (λ room. (⟦<Room as Sink>⟧.seen room).failed ≡ 0) }
        ensures taken { IfOk result (λ room. (⟦<Room as Sink>⟧.seen room).taken ≡ Some []) }
        ensures capacity { IfOk result (λ room. capacity_of room ≡ capacity) }
        ensures at_most { IfOk result (λ room. at_most_of room ≡ at_most) }
    {
        Ok(Room {
            bytes: Vec::with_capacity(alloc, capacity)?,
            capacity,
            at_most,
            failures: 0,
        })
    }

    /// The bytes that have been taken.
    pub fn taken(&self) -> &[u8]
        ensures { (⟦<Room as Sink>⟧.seen self.now).taken ≡ Some result.now }
    {
        self.bytes.as_slice()
    }
}

/// A write takes as many bytes as there is room for in a call, or fails if it takes none of some.
impl Sink for Room {
    ghost use Rattle.cm_text.specs.Devices.{room_answer, capacity_of, at_most_of};

    ghost seen = { λ s. record { taken = Some s.bytes.items; failed = s.failures } };

    fn write(&mut self, bytes: &[u8]) -> Result<usize, DeviceFailed>
        requires { (⟦<Room as Sink>⟧.seen self.old).failed < 2 ^ 64 - 1 }
        ensures bound { WritesAtMost result bytes.now }
        ensures some { IfOk result (λ n. 0 < length bytes.now → 0 < n) }
        ensures bytes { WriteAppends (⟦<Room as Sink>⟧.seen self.old).taken
            (⟦<Room as Sink>⟧.seen self.new).taken result bytes.now }
        ensures failures { (⟦<Room as Sink>⟧.seen self.new).failed
            ≡ (if is_ok result then (⟦<Room as Sink>⟧.seen self.old).failed
            else (⟦<Room as Sink>⟧.seen self.old).failed + 1) }
        ensures answer { result ≡ room_answer self.old bytes.now }
        ensures capacity { capacity_of self.new ≡ capacity_of self.old }
        ensures at_most { at_most_of self.new ≡ at_most_of self.old }
    {
        let room = self.capacity - self.bytes.len();
        let n = bytes.len().min(room).min(self.at_most);
        if n == 0 && !bytes.is_empty() {
            self.failures += 1;
            return Err(DeviceFailed);
        }
        match self.bytes.extend_from_slice(&bytes[..n]) {
            Ok(()) => Ok(n),
            Err(_) => unreachable!(),
        }
    }

    fn failures(&self) -> u64 {
        self.failures
    }
}
