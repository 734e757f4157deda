//! A sink into memory.
ghost use Rattle.std.specs.Prelude.{◌≡◌, ◌+◌, ◌++◌, ◌≤◌, ◌<◌, vec_len, vec_capacity, ◌↔◌, [], Some, length, take, IfOk, IsErr, IsTrue, OnOk, OnErr};
ghost use Rattle.line_io.specs.Bytes.{Appends};
ghost use Rattle.line_io.specs.Counts.{rose};
ghost use Rattle.line_io.specs.Memory.{after_write, write_fails};

use crate::{Failed, Sink};
use memory::OutOfMemory;
use std::alloc::Global;
use std::marker::Model;

/// Keeps bytes in memory, within the room that was reserved; calls of given numbers, counted
/// from 1, fail.
///
/// A write that does not fail takes its whole piece.
#[derive(Debug, Drop)]
pub struct MemorySink {
    bytes: Vec<u8>,
    call: u64,
    failing: Vec<u64>,
    faults: u64,
}

impl Model for MemorySink {
    ghost use Rattle.std.specs.Prelude.{◌-◌, vec_len, vec_capacity};
    ghost use Rattle.line_io.specs.Memory.{Holding};

    ghost Value = { Holding };

    ghost view = { λ a. record { held = a.bytes.items; room = vec_capacity a.bytes - vec_len a.bytes; call = a.call; failing = a.failing.items; faults = a.faults } };
}

impl MemorySink {
    /// An empty sink without room, whose calls of `failing` numbers fail.
    pub fn new(alloc: Global, failing: Vec<u64>) -> MemorySink
        ensures { result
            ≡ record { held = []; room = 0; call = 0; failing = failing.items; faults = 0 } }
    {
        MemorySink {
            bytes: Vec::new(alloc),
            call: 0,
            failing,
            faults: 0,
        }
    }

    /// The bytes taken so far.
    pub fn bytes(&self) -> &[u8]
        ensures { result.now ≡ self.now.held }
    {
        self.bytes.as_slice()
    }

    /// Makes room for at least so many more bytes.
    pub fn reserve(&mut self, more: usize) -> Result<(), OutOfMemory>
        ensures room { OnOk result (more ≤ self.new.room) }
        ensures grows { self.old.room ≤ self.new.room }
        ensures kept { self.new ≡ record self.old { room = self.new.room } }
        ensures refused { OnErr result (self.new ≡ self.old) }
        ensures needed { OnErr result (self.old.room < more) }
    {
        self.bytes.reserve(more)?;
        Ok(())
    }
}

impl Sink for MemorySink {
    ghost held = { λ s. Some s.held };

    ghost faults = { λ s. s.faults };

    fn write(&mut self, piece: &[u8]) -> Result<usize, Failed>
        requires { 0 < length piece.now }
        ensures within { IfOk result (λ n. n ≤ length piece.now) }
        ensures some { IfOk result (λ n. 0 < n) }
        ensures appends { IfOk result
            (λ n. Appends (Some self.old.held) (take n piece.now) (Some self.new.held)) }
        ensures nothing_taken { OnErr result (Some self.new.held ≡ Some self.old.held) }
        ensures fault { OnErr result (IsTrue (rose self.old.faults self.new.faults)) }
        ensures never_falls { self.old.faults ≤ self.new.faults }
        ensures count { IfOk result (λ n. n ≡ length piece.now) }
        ensures refused { IsErr result ↔ IsTrue (write_fails self.old piece.now) }
        ensures after { self.new ≡ after_write self.old piece.now }
    {
        self.call = self.call.saturating_add(1);
        let room = self.bytes.capacity() - self.bytes.len();
        if self.failing.contains(&self.call) || room < piece.len() {
            self.faults = self.faults.saturating_add(1);
            return Err(Failed);
        }
        push_all(&mut self.bytes, piece);
        Ok(piece.len())
    }
}

/// Pushes the piece, for which there is room.
fn push_all(bytes: &mut Vec<u8>, piece: &[u8])
    requires { vec_len bytes.old + length piece.now ≤ vec_capacity bytes.old }
    ensures items { bytes.new.items ≡ bytes.old.items ++ piece.now }
    ensures length { vec_len bytes.new ≡ vec_len bytes.old + length piece.now }
    ensures capacity { vec_capacity bytes.new ≡ vec_capacity bytes.old }
{
    for byte in piece {
        bytes.push_reserved(*byte);
    }
}
