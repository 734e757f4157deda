//! What a leader knows of the other nodes.
ghost use Rattle.std.specs.Prelude.{◌≡◌, ◌+◌, ◌^◌, replicate, slice_set, IfOk, IsTrue, OnOk, OnErr, IsErr, ◌↔◌};
ghost use Rattle.raft_append.specs.Peers.{fresh, progress_at, reset_to, progressed, ends_progress};

use memory::OutOfMemory;
use region_map::{NUMBERS_END, NodeId, StepRefused};
use std::alloc::Global;
use std::marker::Model;

/// How far a node's log is known to agree, and which index it is sent next.
#[derive(Clone, Copy, Debug, PartialEq, Eq)]
pub struct Progress {
    pub matched: u64,
    pub next: u64,
}

/// The progress of each node, by its number.
#[derive(Drop)]
pub struct Peers {
    items: Vec<Progress>,
}

impl Model for Peers {
    ghost use Rattle.std.specs.Prelude.{List};
    ghost use Rattle.raft_append.specs.declared.peers.Progress.{Progress};

    ghost Value = { List Progress };

    ghost view = { λ a. a.items.items };
}

impl Peers {
    /// Nothing is known of this many nodes.
    pub fn new(alloc: Global, count: u8) -> Result<Peers, OutOfMemory>
        ensures { IfOk result (λ peers. peers ≡ replicate count (fresh 1)) }
    {
        let items = vec![in alloc; Progress {
            matched: 0,
            next: 1
        }; count as usize]?;
        Ok(Peers { items })
    }

    /// The same knowledge again.
    pub fn copy(&self, alloc: Global) -> Result<Peers, OutOfMemory>
        ensures { IfOk result (λ copy. copy ≡ self.now) }
    {
        let items = Vec::from_slice(alloc, &self.items)?;
        Ok(Peers { items })
    }

    pub fn get(&self, n: NodeId) -> Progress
        ensures { result ≡ progress_at self.now n.0 }
    {
        match self.items.get(n.0 as usize) {
            None => Progress {
                matched: 0,
                next: 1,
            },
            Some(progress) => *progress,
        }
    }

    /// Does nothing at a number that is no node's.
    pub fn set(&mut self, n: NodeId, progress: Progress)
        ensures { self.new ≡ slice_set self.old n.0 progress }
    {
        if (n.0 as usize) < self.items.len() {
            self.items[n.0 as usize] = progress;
        }
    }

    /// Nothing is known, and each is sent this index next.
    pub fn reset(&mut self, next: u64)
        ensures { self.new ≡ reset_to next self.old }
    {
        self.items.fill(Progress { matched: 0, next });
    }
}

impl Progress {
    /// What a leader knows of a node after its answer. `last` is the leader's last index.
    pub fn after(self, last: u64, ok: bool, upto: u64) -> Result<Progress, StepRefused>
        ensures ok { IfOk result (λ progress. progress ≡ progressed self last ok upto) }
        ensures refused { IsErr result ↔ IsTrue (ends_progress self last ok upto) }
        ensures numbers { OnErr result (result ≡ Err StepRefused.NumbersEnd) }
    {
        if !ok {
            let next = if upto < self.next {
                upto + 1
            } else {
                self.next
            };
            return Ok(Progress {
                matched: self.matched,
                next,
            });
        }
        if upto > last {
            return Ok(self);
        }
        let matched = self.matched.max(upto);
        if matched >= NUMBERS_END - 1 {
            return Err(StepRefused::NumbersEnd);
        }
        Ok(Progress {
            matched,
            next: self.next.max(matched + 1),
        })
    }
}
