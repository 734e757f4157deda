//! The operations of a primary that wait for their majorities, and the acks that it kept.
ghost use Rattle.std.specs.Prelude.{◌≡◌, ◌<◌, [], position, IsTrue, OnOk, OnErr};
ghost use Rattle.write_dispatch.specs.declared.decided.Decided.{Decided};
ghost use Rattle.write_dispatch.specs.Dispatch.{DispatchState, no_acks, with_pending, with_ack, is_counted, counts_of, decided_first, behind_first, is_of, pending_of, without_op, give_up_answer, all_below, is_rising};

use crate::counting::{are_majorities, counts_of, exceeds, is_counted};
use crate::waiting::Waiting;
use crate::{Decided, GiveUpRefused, KeptAck};
use contract_types::{Contract, Counts};
use memory::OutOfMemory;
use region_map::NodeId;
use register_laws::{OpId, Reply};
use std::alloc::Global;
use std::marker::Model;

/// What waits, in rising timestamps, and the kept ack of each server, by its number.
#[derive(Debug, Drop)]
pub struct Pending {
    waiting: Waiting,
    acks: [Option<KeptAck>; 64],
}

impl Model for Pending {
    ghost use Rattle.std.specs.Prelude.{◌≡◌, length, IsTrue};
    ghost use Rattle.write_dispatch.specs.Dispatch.{DispatchState, is_rising};

    ghost Value = { DispatchState };

    ghost view = { λ a. record { waiting = a.waiting; acks = a.acks } };

    ghost invariant = { λ a. IsTrue (is_rising a.waiting) × (length a.acks ≡ 64) };
}

/// The place of the least pending one of an operation.
fn place_of(waiting: &[Decided], op: OpId) -> Option<usize>
    ensures { result ≡ position (λ (d : Decided). is_of op d.op) waiting.now }
{
    waiting.iter().position(|pending| pending.op == Some(op))
}

impl Pending {
    /// Nothing waits, and no server acknowledged anything.
    pub fn new(alloc: Global) -> Pending
        ensures { result ≡ record { waiting = []; acks = no_acks } }
    {
        Pending {
            waiting: Waiting::new(alloc),
            acks: [None; 64],
        }
    }

    /// An operation that took a timestamp above all earlier ones, with the register's reply; without one, a sync.
    pub fn dispatch(&mut self, op: Option<OpId>, at: u64, reply: Reply) -> Result<(), OutOfMemory>
        requires { IsTrue (all_below at self.old.waiting) }
        ensures ok { OnOk result (self.new ≡ with_pending self.old op at reply) }
        ensures err { OnErr result (self.new ≡ self.old) }
    {
        self.waiting.push(Decided { op, at, reply })?;
        Ok(())
    }

    /// Keeps the pair that a server gave, where it is above the kept one: by view first, then by timestamp. Of a
    /// server whose number is 64 or more it keeps none.
    pub fn count_ack(&mut self, server: NodeId, view: u64, at: u64)
        ensures { self.new ≡ record self.old { acks = with_ack self.old.acks server.0 view at } }
    {
        let place = server.0 as usize;
        if place < self.acks.len() && exceeds(view, at, self.acks[place]) {
            self.acks[place] = Some(KeptAck { view, at });
        }
    }

    /// What waits, in rising timestamps.
    pub fn pending(&self) -> &[Decided]
        ensures waiting { result.now ≡ self.now.waiting }
        ensures rising { IsTrue (is_rising self.now.waiting) }
    {
        self.waiting.as_slice()
    }

    /// Whether a server is counted at a timestamp under a contract: it is the primary itself, or its kept ack has
    /// a view from the contract's `since` on, and reaches the timestamp.
    pub fn counted(&self, server: NodeId, at: u64, contract: &Contract, me: NodeId) -> bool
        ensures { result ≡ is_counted self.now.acks contract.now.since me.0 at server.0 }
    {
        is_counted(&self.acks, contract.since, me, at, server)
    }

    /// The counted voters of all voters at a timestamp, and the same of the temporary voters where these are set.
    pub fn counts(&self, at: u64, contract: &Contract, me: NodeId) -> Counts
        ensures { result ≡ counts_of self.now.acks contract.now me.0 at }
    {
        counts_of(&self.acks, contract, me, at)
    }

    /// Takes the least pending one, where its counts are majorities.
    pub fn take_decided(&mut self, contract: &Contract, me: NodeId) -> Option<Decided>
        ensures first { result ≡ decided_first self.old.acks contract.now me.0 self.old.waiting }
        ensures rest { self.new
            ≡ record self.old { waiting = behind_first self.old.acks contract.now me.0 self.old.waiting } }
    {
        let first = self.waiting.as_slice().first()?;
        let counts = counts_of(&self.acks, contract, me, first.at);
        if !are_majorities(&counts) {
            return None;
        }
        self.waiting.take_first()
    }

    /// Takes out the least pending one of an operation, and answers its counts, which are no majorities.
    pub fn give_up(
        &mut self,
        op: OpId,
        contract: &Contract,
        me: NodeId,
    ) -> Result<Counts, GiveUpRefused>
        ensures answer { result ≡ give_up_answer self.old.acks contract.now me.0 (pending_of self.old.waiting op) }
        ensures ok { OnOk result (self.new ≡ record self.old { waiting = without_op self.old.waiting op }) }
        ensures err { OnErr result (self.new ≡ self.old) }
    {
        let waiting = self.waiting.as_slice();
        let Some(index) = place_of(waiting, op) else {
            return Err(GiveUpRefused::NotPending);
        };
        let counts = counts_of(&self.acks, contract, me, waiting[index].at);
        if are_majorities(&counts) {
            return Err(GiveUpRefused::StillDecided(counts));
        }
        self.waiting.remove(index);
        Ok(counts)
    }
}
