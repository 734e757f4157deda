//! A primary's execution of its contract.
ghost use Rattle.std.specs.Prelude.{◌≡◌, ◌<◌, ◌++◌, ◌↔◌, IfOk, OnOk, IsErrOf, IsTrue};
ghost use Rattle.store_api.specs.Rows.{has_key};
ghost use Rattle.primary_exec.specs.Execution.{begun, joined, setup_execution, started, started_versions, start_ends_numbers, said, dispatch_row, dispatch_ends_numbers, got_row, is_synced, is_handed, hand_over_of, decided, decide_outs, give_up_row, give_up_outs};

use crate::answers::{answer_decided, answer_given_up, is_decided};
use crate::asking::Asking;
use crate::effect::effect;
use crate::reads::dispatch;
use crate::session::{Session, acknowledge, ends_numbers, is_live, send};
use contract_types::{Ack, Contract, setup_id};
use exec_types::{Got, Output, Outputs, SessionName};
use majority_read::Reads;
use memory::OutOfMemory;
use region_map::{Id, Key, NUMBERS_END, NodeId, StepRefused};
use register_laws::{Op, OpId, Reply};
use std::alloc::Global;
use std::marker::Model;
use store_api::Store;
use write_dispatch::Pending;

/// A started execution of a contract by its primary.
#[derive(Drop)]
pub struct Primary {
    contract: Contract,
    me: NodeId,
    branch: Id,
    /// The last timestamp that it took.
    last: u64,
    pending: Pending,
    /// The values of the pending reads.
    reads: Reads,
    sessions: Vec<Session>,
    /// The timestamp of the sync that it made under its contract.
    sync: Option<u64>,
    /// Whether that sync was decided, or none was needed.
    ready: bool,
}

impl Model for Primary {
    ghost use Rattle.std.specs.Prelude.{IsTrue};
    ghost use Rattle.primary_exec.specs.Execution.{Execution, IsSound};
    ghost use Rattle.primary_exec.specs.Reads.{are_reads_of, dispatch_with};

    ghost Value = { Execution };

    ghost view = { λ a. record { contract = a.contract; me = a.me; branch = a.branch; last = a.last; dispatch = dispatch_with a.pending a.reads; sessions = a.sessions.items; sync = a.sync; ready = a.ready } };

    ghost invariant = { λ a. IsSound a.last a.pending.waiting a.sessions.items × IsTrue (are_reads_of a.pending.waiting a.reads) };
}

impl Primary {
    /// An execution that has taken no timestamp and has no sessions. With a setup it needs no sync.
    fn begin(alloc: Global, contract: Contract, me: NodeId, branch: Id) -> Primary
        ensures { result ≡ begun contract me branch }
    {
        Primary {
            contract,
            me,
            branch,
            last: 0,
            pending: Pending::new(alloc),
            reads: Reads::new(alloc),
            sessions: Vec::new(alloc),
            sync: None,
            ready: true,
        }
    }

    /// A secondary that has the start of this session, and stands at timestamp 0.
    fn join(&mut self, server: NodeId, name: SessionName) -> Result<(), OutOfMemory>
        ensures { OnOk result (self.new ≡ joined self.old server name) }
    {
        self.sessions.push(Session {
            server,
            name,
            sent: 1,
            acked: 1,
        })?;
        self.pending.count_ack(server, 0, 0);
        Ok(())
    }

    /// What a primary begins with in the shard of a place: the other replicas are joined.
    pub fn setup(
        alloc: Global,
        contract: Contract,
        me: NodeId,
        place: u64,
    ) -> Result<Primary, OutOfMemory>
        ensures { IfOk result (λ primary. primary ≡ setup_execution contract me place) }
    {
        let replicas = contract.replicas;
        let mut primary = Primary::begin(alloc, contract, me, setup_id(place, me));
        for server in replicas.iter() {
            if server != me {
                primary.join(server, SessionName::setup(place, me, server))?;
            }
        }
        Ok(primary)
    }

    /// Goes over to its branch, which is registered with this timestamp, and makes a first sync in it.
    pub fn start<T: Store>(
        alloc: Global,
        asking: Asking,
        me: NodeId,
        initial: u64,
        store: &mut T,
    ) -> Result<Primary, StepRefused>
        ensures execution { IfOk result (λ primary. primary ≡ started asking me initial) }
        ensures rows { OnOk result (T.rows store.new ≡ T.rows store.old) }
        ensures versions { OnOk result (T.versions store.new ≡ started_versions asking initial (T.versions store.old)) }
        ensures numbers { IsErrOf result StepRefused.NumbersEnd ↔ IsTrue (start_ends_numbers initial) }
    {
        if initial >= NUMBERS_END - 1 {
            return Err(StepRefused::NumbersEnd);
        }
        let Asking { contract, branch } = asking;
        let at = initial + 1;
        store.start_branch(alloc, &contract.region, branch, initial)?;
        store.advance(alloc, &contract.region, branch, at, None)?;
        let mut pending = Pending::new(alloc);
        pending.dispatch(None, at, Reply::Was(None))?;
        Ok(Primary {
            contract,
            me,
            branch,
            last: at,
            pending,
            reads: Reads::new(alloc),
            sessions: Vec::new(alloc),
            sync: Some(at),
            ready: false,
        })
    }

    /// The contract in force.
    pub fn contract(&self) -> &Contract
        ensures { result.now ≡ self.now.contract }
    {
        &self.contract
    }

    /// Whether a sync that it made under its contract was decided; with a setup it needs none.
    pub fn ready(&self) -> bool
        ensures { result ≡ self.now.ready }
    {
        self.ready
    }

    /// What it says of its contract.
    pub fn ack(&self) -> Ack
        ensures { result ≡ said self.now }
    {
        if self.ready {
            Ack::Ready
        } else {
            Ack::InProgress
        }
    }

    /// Whether the region of its contract has the key, where there are so many hashes.
    pub fn is_for(&self, key: &Key, hashes: u8) -> bool
        requires { 0 < hashes }
        ensures { result ≡ has_key self.now.contract.region hashes key.now }
    {
        self.contract.region.contains(key, hashes)
    }

    /// Gives the operation the next timestamp.
    pub fn request<T: Store>(
        &mut self,
        alloc: Global,
        op: OpId,
        key: &Key,
        what: &Op,
        store: &mut T,
        out: &mut Outputs,
    ) -> Result<(), StepRefused>
        ensures execution { OnOk result (self.new
            ≡ (dispatch_row self.old (T.rows store.old) (T.versions store.old) op key.now what.now).execution) }
        ensures rows { OnOk result (T.rows store.new
            ≡ (dispatch_row self.old (T.rows store.old) (T.versions store.old) op key.now what.now).rows) }
        ensures versions { OnOk result (T.versions store.new
            ≡ (dispatch_row self.old (T.rows store.old) (T.versions store.old) op key.now what.now).versions) }
        ensures out { OnOk result (out.new
            ≡ out.old ++ (dispatch_row self.old (T.rows store.old) (T.versions store.old) op key.now what.now).outs) }
        ensures numbers { IsErrOf result StepRefused.NumbersEnd ↔ IsTrue (dispatch_ends_numbers self.old) }
    {
        if self.last >= NUMBERS_END - 1 || ends_numbers(&self.sessions) {
            return Err(StepRefused::NumbersEnd);
        }
        let at = self.last + 1;
        let (reply, part) = effect(alloc, store, at, key, what)?;
        let sessions = send(alloc, &self.sessions, &part, out)?;
        let name = key.copy(alloc)?;
        out.push(Output::Dispatched {
            op,
            key: name,
            branch: self.branch,
            timestamp: at,
        })?;
        let written = part.effect(alloc)?;
        store.advance(alloc, &self.contract.region, self.branch, at, written)?;
        self.sessions = sessions;
        self.last = at;
        dispatch(&mut self.pending, &mut self.reads, op, at, what, reply)?;
        Ok(())
    }

    /// Takes a secondary's word of how far it came.
    pub fn got(&mut self, from: NodeId, got: &Got)
        ensures { self.new ≡ got_row self.old from got.now }
    {
        if !is_live(&self.sessions, from, &got.session) {
            return;
        }
        acknowledge(&mut self.sessions, from, &got.session, got.upto);
        if let Some(at) = got.stands {
            self.pending.count_ack(from, got.view, at);
        }
    }

    /// Whether the sync under its contract is decided.
    fn is_synced(&self) -> bool
        ensures { result ≡ is_synced self.now self.now.sync }
    {
        match self.sync {
            None => false,
            Some(at) => is_decided(&self.pending, at, &self.contract, self.me),
        }
    }

    /// Whether the server to which it hands its region over, if there is one, has all that it took.
    fn is_handed(&self) -> bool
        ensures { result ≡ is_handed self.now (hand_over_of self.now.contract.primary) }
    {
        let Some(holder) = self.contract.primary else {
            return true;
        };
        match holder.hand_over {
            None => true,
            Some(server) => self
                .pending
                .counted(server, self.last, &self.contract, self.me),
        }
    }

    /// Answers each pending operation that is decided, and is ready once its sync is.
    pub fn decide(&mut self, out: &mut Outputs) -> Result<(), OutOfMemory>
        ensures execution { OnOk result (self.new ≡ decided self.old) }
        ensures out { OnOk result (out.new ≡ out.old ++ decide_outs self.old) }
    {
        let ready = self.ready || self.is_synced() && self.is_handed();
        answer_decided(
            &mut self.pending,
            &mut self.reads,
            &self.contract,
            self.me,
            self.branch,
            out,
        )?;
        self.ready = ready;
        Ok(())
    }

    /// Answers a pending operation, that its client gave up, with its counts.
    pub fn give_up(&mut self, op: OpId, out: &mut Outputs) -> Result<(), OutOfMemory>
        ensures execution { OnOk result (self.new ≡ give_up_row self.old op) }
        ensures out { OnOk result (out.new ≡ out.old ++ give_up_outs self.old op) }
    {
        answer_given_up(
            &mut self.pending,
            &mut self.reads,
            &self.contract,
            self.me,
            op,
            out,
        )?;
        Ok(())
    }
}
