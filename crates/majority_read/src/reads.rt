//! The reads that wait for their syncs.
ghost use Rattle.std.specs.Prelude.{◌≡◌, ◌++◌, ◌∷◌, [], option_map, position, IsTrue, IfSome, IfNone, OnOk, OnErr};
ghost use Rattle.slab.specs.Slab.{get, ContainsKey};
ghost use Rattle.majority_read.specs.declared.waiting_read.WaitingRead.{WaitingRead};
ghost use Rattle.majority_read.specs.Reads.{all_below, all_above, all_from, is_rising, is_read_of, first_upto, behind_upto, has_read_of, sync_of, without_read_of};
ghost use Rattle.majority_read.specs.Keys.{is_key_of};

use crate::WaitingRead;
use memory::OutOfMemory;
use register_laws::{OpId, Value};
use slab::Slab;
use std::alloc::Global;
use std::collections::VecDeque;
use std::marker::Model;

/// The reads that wait, which contracts see as their list, in the order of their syncs.
#[derive(Debug, Drop)]
pub struct Reads {
    reads: Slab<WaitingRead>,
    /// The keys of the reads, in the order of their syncs.
    keys: VecDeque<usize>,
}

impl Model for Reads {
    ghost use Rattle.std.specs.Prelude.{List};
    ghost use Rattle.majority_read.specs.declared.waiting_read.WaitingRead.{WaitingRead};
    ghost use Rattle.majority_read.specs.Keys.{reads_at, IsKept};

    ghost Value = { List WaitingRead };

    ghost view = { λ a. reads_at a.reads a.keys.items };

    ghost invariant = { λ a. IsKept a.reads a.keys.items };
}

/// Whether a key has a read of this operation.
fn is_key_of(reads: &Slab<WaitingRead>, op: OpId, key: usize) -> bool
    ensures { result ≡ is_key_of reads.now op key }
{
    match reads.get(key) {
        Some(read) => read.op == op,
        None => false,
    }
}

/// The first place whose key has a read of this operation.
fn place_of(reads: &Slab<WaitingRead>, keys: &VecDeque<usize>, op: OpId) -> Option<usize>
    ensures { result ≡ position (is_key_of reads.now op) keys.now.items }
{
    keys.iter().position(|key| is_key_of(reads, op, *key))
}

impl Reads {
    /// No read waits.
    pub fn new(alloc: Global) -> Reads
        ensures { result ≡ [] }
    {
        Reads {
            reads: Slab::new(alloc),
            keys: VecDeque::new(alloc),
        }
    }

    /// One more read, with the value that it found, whose sync took a timestamp above all earlier ones.
    pub fn ask(&mut self, op: OpId, at: u64, value: Option<Value>) -> Result<(), OutOfMemory>
        requires { IsTrue (all_below at self.old) }
        ensures ok { OnOk result (self.new ≡ self.old ++ record { op = op; at = at; value = value } ∷ []) }
        ensures err { OnErr result (self.new ≡ self.old) }
    {
        self.keys.reserve(1)?;
        let key = self.reads.insert(WaitingRead { op, at, value })?;
        self.keys.push_back_reserved(key);
        Ok(())
    }

    /// Takes the least read whose sync is at or below a timestamp: its operation, that sync, and its value.
    pub fn take_upto(&mut self, at: u64) -> Option<(OpId, u64, Option<Value>)>
        ensures first { result ≡ option_map (λ (r : WaitingRead). (r.op, r.at, r.value)) (first_upto at self.old) }
        ensures rest { self.new ≡ behind_upto at self.old }
        ensures least { IfSome result (λ taken. IsTrue (all_from taken.1 self.old)) }
        ensures none { IfNone result (IsTrue (all_above at self.old)) }
    {
        let key = *self.keys.front()?;
        if self.reads[key].at > at {
            return None;
        }
        let _ = self.keys.pop_front();
        let read = self.reads.remove(key);
        Some((read.op, read.at, read.value))
    }

    /// The timestamp of the sync of the least read of an operation, where one waits.
    pub fn sync_of(&self, op: OpId) -> Option<u64>
        ensures { result ≡ sync_of op self.now }
    {
        let place = place_of(&self.reads, &self.keys, op)?;
        Some(self.reads[self.keys[place]].at)
    }

    /// Drops the least read of an operation, and answers whether there was one.
    pub fn drop_read(&mut self, op: OpId) -> bool
        ensures found { result ≡ has_read_of op self.old }
        ensures rest { self.new ≡ without_read_of op self.old }
        ensures rising { IsTrue (is_rising self.old) }
    {
        let Some(place) = place_of(&self.reads, &self.keys, op) else {
            return false;
        };
        let key = self.keys[place];
        let _ = self.keys.remove(place);
        let _ = self.reads.remove(key);
        true
    }
}
