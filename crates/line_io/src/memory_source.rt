//! A source over bytes in memory.
ghost use Rattle.std.specs.Prelude.{◌≡◌, ◌<◌, ◌≤◌, ◌↔◌, List, Some, length, min, take, IfOk, IsErr, OnErr, IsTrue};
ghost use Rattle.line_io.specs.Bytes.{Gives, IsAtEnd};
ghost use Rattle.line_io.specs.Counts.{rose};
ghost use Rattle.line_io.specs.Memory.{after_read, read_count, read_fails};

use crate::{Failed, Source};
use std::marker::Model;

/// Gives bytes that stand in memory; calls of given numbers, counted from 1, fail.
///
/// A read that does not fail gives as many of the bytes left as fit.
#[derive(Debug, Drop)]
pub struct MemorySource {
    bytes: Vec<u8>,
    at: usize,
    call: u64,
    failing: Vec<u64>,
    faults: u64,
}

impl Model for MemorySource {
    ghost use Rattle.std.specs.Prelude.{◌≤◌, drop, length};
    ghost use Rattle.line_io.specs.Memory.{Giving};

    ghost Value = { Giving };

    ghost view = { λ a. record { left = drop a.at a.bytes.items; call = a.call; failing = a.failing.items; faults = a.faults } };

    ghost invariant = { λ a. a.at ≤ length a.bytes.items };
}

impl MemorySource {
    /// A source of these bytes, whose calls of `failing` numbers fail.
    pub fn new(bytes: Vec<u8>, failing: Vec<u64>) -> MemorySource
        ensures { result
            ≡ record { left = bytes.items; call = 0; failing = failing.items; faults = 0 } }
    {
        MemorySource {
            bytes,
            at: 0,
            call: 0,
            failing,
            faults: 0,
        }
    }
}

impl Source for MemorySource {
    ghost left = { λ s. Some s.left };

    ghost faults = { λ s. s.faults };

    fn read(&mut self, buf: &mut [u8]) -> Result<usize, Failed>
        ensures within { IfOk result (λ n. n ≤ length buf.new) }
        ensures gives { IfOk result
            (λ n. Gives (Some self.old.left) (take n buf.new) (Some self.new.left)) }
        ensures end { IfOk result
            (λ n. n ≡ 0 → 0 < length buf.new → IsAtEnd (Some self.new.left)) }
        ensures nothing_taken { OnErr result (Some self.new.left ≡ Some self.old.left) }
        ensures fault { OnErr result (IsTrue (rose self.old.faults self.new.faults)) }
        ensures never_falls { self.old.faults ≤ self.new.faults }
        ensures count { IfOk result (λ n. n ≡ read_count self.old (length buf.old)) }
        ensures refused { IsErr result ↔ IsTrue (read_fails self.old) }
        ensures after { self.new ≡ after_read self.old (length buf.old) }
    {
        self.call = self.call.saturating_add(1);
        if self.failing.contains(&self.call) {
            self.faults = self.faults.saturating_add(1);
            return Err(Failed);
        }
        let count = copy_front(&self.bytes.as_slice()[self.at..], buf);
        self.at += count;
        Ok(count)
    }
}

/// Copies as many of the first bytes as fit, and answers how many.
fn copy_front(bytes: &[u8], buf: &mut [u8]) -> usize
    ensures count { result ≡ min (length bytes.now) (length buf.old) }
    ensures copied { take result buf.new ≡ take result bytes.now }
{
    let count = bytes.len().min(buf.len());
    buf[..count].copy_from_slice(&bytes[..count]);
    count
}
