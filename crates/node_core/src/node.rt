//! A node.
ghost use Rattle.std.specs.Prelude.{◌≡◌, ◌<◌, ◌+◌, ◌^◌, ◌++◌, ◌↔◌, nat_le, length, [], Some, IfOk, OnOk, IsErrOf, IsTrue, false};
ghost use Rattle.table_log.specs.Logs.{restarted, viewed, may_take, log_step, table_of};
ghost use Rattle.raft_node.specs.Rows.{ends_numbers as raft_ends_numbers};
ghost use Rattle.raft_node.specs.declared.input.RaftInput.TheVariants as raft;
ghost use Rattle.node_core.specs.Starting.{start_each, starts_end_numbers};
ghost use Rattle.node_core.specs.Step.{begin_node, serves, input_row, row_ends_numbers, brought_row, brought_ends_numbers, see_row, with_log, take_say, message_fits, with_proposals, tick_log, tick_row, tick_ends_numbers, crash_row, askings_from, waitings_from, roles_count, restart_row, restart_ends_numbers, says_now, act, act_ends_numbers, with_started, decide_step, node_step, ends_numbers};

use crate::beginning::{begin_branches, begin_executions, begin_followings};
use crate::log_rows::{propose_all, step_log, unseen_after};
use crate::restarting::{begin_askings, begin_waitings};
use crate::rows::{decide, give_up, request, take_got, take_stream};
use crate::saying::{ack_fits, say_all};
use crate::starting::{current, start_each};
use contract_types::{Ack, Change, Contract, Setup, Viewed};
use coordinator::Acks;
use exec_types::{Input, Message, Output, Outputs};
use memory::OutOfMemory;
use primary_exec::{Asking, Primary};
use raft_node::RaftInput;
use raft_vote::RaftMessage;
use region_map::{Id, Key, NUMBERS_END, NodeId, NodeSet, StepRefused};
use secondary_exec::{Following, Waiting};
use std::alloc::Global;
use std::marker::Model;
use store_plain::PlainStore;
use table_log::TableLog;

/// A message that the network brings, with its sender.
#[derive(Drop)]
pub struct Brought {
    pub from: NodeId,
    pub message: Message,
}

/// How many ids there are in both.
fn counted(first: u64, more: u64) -> Result<u64, StepRefused>
    ensures sum { IfOk result (λ sum. sum ≡ first + more) }
    ensures ends { IsErrOf result StepRefused.NumbersEnd ↔ IsTrue (nat_le (2 ^ 62) (first + more)) }
{
    if first >= NUMBERS_END || more >= NUMBERS_END - first {
        return Err(StepRefused::NumbersEnd);
    }
    Ok(first + more)
}

/// What a node asks for and waits for as it comes up, with the counter of the next id.
fn begin_roles(
    alloc: Global,
    me: NodeId,
    life: u64,
    contracts: &[Contract],
) -> Result<(Vec<Asking>, Vec<Waiting>, u64), StepRefused>
    ensures asking { IfOk result (λ roles. roles.0.items ≡ askings_from me life 0 contracts.now) }
    ensures waiting { IfOk result (λ roles. roles.1.items
        ≡ waitings_from me life (length (askings_from me life 0 contracts.now)) contracts.now) }
    ensures next { IfOk result (λ roles. roles.2 ≡ roles_count me life contracts.now) }
    ensures ends { IsErrOf result StepRefused.NumbersEnd → IsTrue (nat_le (2 ^ 62) (roles_count me life contracts.now)) }
    ensures goes { OnOk result (nat_le (2 ^ 62) (roles_count me life contracts.now) ≡ false) }
{
    let asking = begin_askings(alloc, me, life, contracts)?;
    let first = asking.len() as u64;
    let waiting = begin_waitings(alloc, me, life, first, contracts)?;
    let next = counted(first, waiting.len() as u64)?;
    Ok((asking, waiting, next))
}

/// Each primary that waits for its branch starts, where that is current in the log's table; the others still wait.
fn start_in(
    alloc: Global,
    me: NodeId,
    log: &TableLog,
    asking: &mut Vec<Asking>,
    executions: &mut Vec<Primary>,
    store: &mut PlainStore,
) -> Result<(), StepRefused>
    ensures started { OnOk result (record { asking = asking.new.items; executions = executions.new.items; versions = store.new.versions }
        ≡ start_each me (table_of log.now) asking.old.items (record { asking = []; executions = executions.old.items; versions = store.old.versions })) }
    ensures rows { OnOk result (store.new.rows ≡ store.old.rows) }
    ensures ends { IsErrOf result StepRefused.NumbersEnd → IsTrue (starts_end_numbers (table_of log.now) asking.old.items) }
    ensures goes { OnOk result (starts_end_numbers (table_of log.now) asking.old.items ≡ false) }
{
    let waits = std::mem::replace(asking, Vec::new(alloc));
    let left = start_each(alloc, me, log.table(), waits, executions, store)?;
    *asking = left;
    Ok(())
}

/// One node. It keeps its life, what its log keeps, and its store; a crash takes the rest.
#[derive(Drop)]
pub struct Node {
    me: NodeId,
    setup: Setup,
    up: bool,
    life: u64,
    log: TableLog,
    /// The nodes that it does not see.
    unseen: NodeSet,
    /// The counter of the next id that it makes in its life.
    next: u64,
    /// The last acks of servers, where it leads.
    acks: Acks,
    store: PlainStore,
    /// What waits for its branch, and the executions, in table order.
    asking: Vec<Asking>,
    executions: Vec<Primary>,
    /// What waits to join a primary, and the followings, in table order.
    waiting: Vec<Waiting>,
    followings: Vec<Following>,
}

impl Model for Node {
    ghost use Rattle.node_core.specs.Step.{NodeState};

    ghost Value = { NodeState };

    ghost view = { λ a. record { me = a.me; setup = a.setup; up = a.up; life = a.life; log = a.log; unseen = a.unseen; next = a.next; acks = a.acks; rows = a.store.rows; versions = a.store.versions; asking = a.asking.items; executions = a.executions.items; waiting = a.waiting.items; followings = a.followings.items } };
}

impl Node {
    /// A node of a table as it begins.
    pub fn begin(alloc: Global, setup: &Setup, me: NodeId) -> Result<Node, OutOfMemory>
        requires { me.0 < setup.now.nodes }
        ensures { IfOk result (λ node. node ≡ begin_node setup.now me.0) }
    {
        let shards = setup.config().shards();
        let mut store = PlainStore::new(alloc, setup.hashes())?;
        begin_branches(alloc, shards, me, &mut store)?;
        let executions = begin_executions(alloc, shards, me)?;
        let followings = begin_followings(alloc, shards, me)?;
        let log = TableLog::begin(alloc, setup.config().copy(alloc)?, me)?;
        let next = shards.len() as u64;
        let setup = setup.copy(alloc)?;
        Ok(Node {
            me,
            setup,
            up: true,
            life: 1,
            log,
            unseen: NodeSet::empty(),
            next,
            acks: Acks::new(alloc),
            store,
            asking: Vec::new(alloc),
            executions,
            waiting: Vec::new(alloc),
            followings,
        })
    }

    /// Whether the node is up.
    pub fn is_up(&self) -> bool
        ensures { result ≡ self.now.up }
    {
        self.up
    }

    /// Up to which index the node acts on its log.
    pub fn view(&self) -> u64
        ensures { result ≡ self.now.log.acted }
    {
        self.log.acted()
    }

    /// The node's number.
    pub fn me(&self) -> NodeId
        ensures { result ≡ self.now.me }
    {
        self.me
    }

    /// What the table began with.
    pub fn setup(&self) -> &Setup
        ensures { result.now ≡ self.now.setup }
    {
        &self.setup
    }

    /// Whether the node serves a key, so that it dispatches an operation on it.
    pub fn serving(&self, key: &Key) -> bool
        ensures { result ≡ serves self.now key.now }
    {
        let hashes = self.setup.hashes();
        self.executions
            .iter()
            .any(|execution| execution.is_for(key, hashes))
    }

    /// One step. `brought` is the message that a `Deliver` names, with its sender. At a refusal the node is gone.
    pub fn step(
        self,
        alloc: Global,
        input: &Input,
        brought: Option<Brought>,
    ) -> Result<(Node, Outputs), StepRefused>
        ensures ok { IfOk result
            (λ step. record { node = step.0; outs = step.1 } ≡ node_step self input.now brought) }
        ensures ends { IsErrOf result StepRefused.NumbersEnd → IsTrue (ends_numbers self input.now brought) }
        ensures goes { OnOk result (ends_numbers self input.now brought ≡ false) }
    {
        let mut out = Outputs::new(alloc);
        let mut node = self.take(alloc, input, brought, &mut out)?;
        node.act(alloc, &mut out)?;
        node.decide(&mut out)?;
        Ok((node, out))
    }

    /// The row of an input.
    fn take(
        self,
        alloc: Global,
        input: &Input,
        brought: Option<Brought>,
        out: &mut Outputs,
    ) -> Result<Node, StepRefused>
        ensures node { IfOk result (λ node. node ≡ (input_row self input.now brought).node) }
        ensures out { OnOk result (out.new ≡ out.old ++ (input_row self input.now brought).outs) }
        ensures ends { IsErrOf result StepRefused.NumbersEnd → IsTrue (row_ends_numbers self input.now brought) }
        ensures goes { OnOk result (row_ends_numbers self input.now brought ≡ false) }
    {
        let mut node = self;
        match input {
            Input::Request { op, key, what } => {
                request(
                    &mut node.executions,
                    node.setup.hashes(),
                    &mut node.store,
                    alloc,
                    *op,
                    key,
                    what,
                    out,
                )?;
                Ok(node)
            }
            Input::GiveUp { op } => {
                give_up(&mut node.executions, *op, out)?;
                Ok(node)
            }
            Input::See { other, up } => {
                node.see(*other, *up);
                Ok(node)
            }
            Input::Tick => node.tick(alloc, out),
            Input::Deliver { .. } => match brought {
                None => Ok(node),
                Some(brought) => node.receive(alloc, brought, out),
            },
            Input::Crash => node.crash(alloc),
            Input::Restart => node.restart(alloc),
        }
    }

    /// It is told that it sees another node, or sees it no longer.
    fn see(&mut self, other: NodeId, up: bool)
        ensures { self.new ≡ (see_row self.old other up).node }
    {
        self.unseen = unseen_after(self.me, self.setup.nodes(), other, up, self.unseen);
    }

    // ---- ticks

    /// A leader that acts on all of its log proposes what is planned.
    fn propose(&mut self, alloc: Global) -> Result<(), OutOfMemory>
        ensures { OnOk result (self.new ≡ with_proposals self.old) }
    {
        propose_all(alloc, &mut self.log, &mut self.acks)?;
        Ok(())
    }

    /// The log takes a step.
    fn step_log(
        self,
        alloc: Global,
        input: RaftInput<Change>,
        out: &mut Outputs,
    ) -> Result<Node, StepRefused>
        requires { IsTrue (may_take self.log input) }
        ensures node { IfOk result (λ node. node ≡ (with_log self (log_step self.log input)).node) }
        ensures out { OnOk result (out.new ≡ out.old ++ (with_log self (log_step self.log input)).outs) }
        ensures ends { IsErrOf result StepRefused.NumbersEnd → IsTrue (raft_ends_numbers self.log.raft input) }
        ensures goes { OnOk result (raft_ends_numbers self.log.raft input ≡ false) }
    {
        let Node {
            me,
            setup,
            up,
            life,
            log,
            unseen,
            next,
            mut acks,
            store,
            asking,
            executions,
            waiting,
            followings,
        } = self;
        let log = step_log(alloc, log, &mut acks, input, out)?;
        Ok(Node {
            me,
            setup,
            up,
            life,
            log,
            unseen,
            next,
            acks,
            store,
            asking,
            executions,
            waiting,
            followings,
        })
    }

    /// It says how far it is under its contracts, as the table stood before the step.
    fn say(&self, alloc: Global, out: &mut Outputs) -> Result<(), OutOfMemory>
        ensures { OnOk result (out.new ≡ out.old ++ says_now self.now) }
    {
        let table = self.log.table();
        say_all(
            alloc,
            self.me,
            self.log.leader(),
            current(table),
            &self.store,
            self.log.acted(),
            &self.asking,
            &self.executions,
            &self.waiting,
            &self.followings,
            table.contracts().as_slice(),
            out,
        )?;
        Ok(())
    }

    /// The log ticks.
    fn tick_log(self, alloc: Global, out: &mut Outputs) -> Result<Node, StepRefused>
        ensures node { IfOk result (λ node. node ≡ (tick_log self).node) }
        ensures out { OnOk result (out.new ≡ out.old ++ (tick_log self).outs) }
        ensures ends { IsErrOf result StepRefused.NumbersEnd → IsTrue (raft_ends_numbers self.log.raft (raft.Tick self.unseen)) }
        ensures goes { OnOk result (raft_ends_numbers self.log.raft (raft.Tick self.unseen) ≡ false) }
    {
        let unseen = self.unseen;
        self.step_log(alloc, RaftInput::Tick { unseen }, out)
    }

    /// Time passes.
    fn tick(self, alloc: Global, out: &mut Outputs) -> Result<Node, StepRefused>
        ensures node { IfOk result (λ node. node ≡ (tick_row self).node) }
        ensures out { OnOk result (out.new ≡ out.old ++ (tick_row self).outs) }
        ensures ends { IsErrOf result StepRefused.NumbersEnd → IsTrue (tick_ends_numbers self) }
        ensures goes { OnOk result (tick_ends_numbers self ≡ false) }
    {
        let mut proposing = self;
        proposing.propose(alloc)?;
        let ticked = proposing.tick_log(alloc, out)?;
        ticked.say(alloc, out)?;
        Ok(ticked)
    }

    // ---- messages

    /// Whether a message fits the table and the log.
    fn fits(&self, from: NodeId, message: &Message) -> bool
        ensures { result ≡ message_fits self.now from message.now }
    {
        match message {
            Message::Raft(message) => self.log.takes(from, message),
            Message::Say { ack, .. } => ack_fits(self.setup.hashes(), ack),
            Message::Stream(_) => true,
            Message::Got(_) => true,
        }
    }

    /// A leader keeps the last ack of each server under each contract's id.
    fn take_say(
        &mut self,
        alloc: Global,
        from: NodeId,
        contract: Id,
        ack: Ack,
    ) -> Result<(), OutOfMemory>
        ensures { OnOk result (self.new ≡ (take_say self.old from contract ack).node) }
    {
        if self.log.is_leader() {
            self.acks.take(alloc, contract, from, ack)?;
        }
        Ok(())
    }

    /// The row of a message.
    fn receive(
        self,
        alloc: Global,
        brought: Brought,
        out: &mut Outputs,
    ) -> Result<Node, StepRefused>
        ensures node { IfOk result (λ node. node ≡ (brought_row self (Some brought)).node) }
        ensures out { OnOk result (out.new ≡ out.old ++ (brought_row self (Some brought)).outs) }
        ensures ends { IsErrOf result StepRefused.NumbersEnd → IsTrue (brought_ends_numbers self (Some brought)) }
        ensures goes { OnOk result (brought_ends_numbers self (Some brought) ≡ false) }
    {
        let Brought { from, message } = brought;
        if from.0 >= self.setup.nodes() || !self.fits(from, &message) {
            return Ok(self);
        }
        let mut node = self;
        match message {
            Message::Raft(message) => {
                node.step_log(alloc, RaftInput::Deliver { from, message }, out)
            }
            Message::Say { contract, ack } => {
                node.take_say(alloc, from, contract, ack)?;
                Ok(node)
            }
            Message::Stream(stream) => {
                let view = node.log.acted();
                take_stream(
                    &mut node.followings,
                    &mut node.store,
                    alloc,
                    from,
                    &stream,
                    view,
                    out,
                )?;
                Ok(node)
            }
            Message::Got(got) => {
                take_got(&mut node.executions, from, &got);
                Ok(node)
            }
        }
    }

    // ---- crashes and restarts

    /// The log begins anew with what it kept, and what the node does not keep is lost.
    fn forget(self, alloc: Global) -> Result<Node, OutOfMemory>
        ensures { IfOk result (λ node. node ≡ record self { log = restarted self.log; unseen = []; next = 0; acks = []; asking = []; executions = []; waiting = []; followings = [] }) }
    {
        let Node {
            me,
            setup,
            up,
            life,
            log,
            mut acks,
            store,
            mut asking,
            mut executions,
            mut waiting,
            mut followings,
            ..
        } = self;
        let log = log.restart(alloc)?;
        acks.clear();
        asking.clear();
        executions.clear();
        waiting.clear();
        followings.clear();
        Ok(Node {
            me,
            setup,
            up,
            life,
            log,
            unseen: NodeSet::empty(),
            next: 0,
            acks,
            store,
            asking,
            executions,
            waiting,
            followings,
        })
    }

    /// The node goes down: only what it keeps is left.
    fn crash(self, alloc: Global) -> Result<Node, StepRefused>
        ensures node { IfOk result (λ node. node ≡ (crash_row self).node) }
        ensures ends { IsErrOf result StepRefused.NumbersEnd → ⊥ }
    {
        let mut node = self.forget(alloc)?;
        node.up = false;
        Ok(node)
    }

    /// The number of the next life.
    fn next_life(&self) -> Result<u64, StepRefused>
        ensures life { IfOk result (λ life. life ≡ self.now.life + 1) }
        ensures ends { IsErrOf result StepRefused.NumbersEnd ↔ IsTrue (nat_le (2 ^ 62) (self.now.life + 1)) }
    {
        if self.life >= NUMBERS_END - 1 {
            return Err(StepRefused::NumbersEnd);
        }
        Ok(self.life + 1)
    }

    /// The next life begins with what the node kept: as a primary it asks for a branch, as a secondary it waits to join.
    fn restart(self, alloc: Global) -> Result<Node, StepRefused>
        ensures node { IfOk result (λ node. node ≡ (restart_row self).node) }
        ensures ends { IsErrOf result StepRefused.NumbersEnd → IsTrue (restart_ends_numbers self) }
        ensures goes { OnOk result (restart_ends_numbers self ≡ false) }
    {
        let life = self.next_life()?;
        let contracts = self.log.table().contracts().as_slice();
        let (asking, waiting, next) = begin_roles(alloc, self.me, life, contracts)?;
        let mut node = self.forget(alloc)?;
        node.up = true;
        node.life = life;
        node.next = next;
        node.asking = asking;
        node.waiting = waiting;
        Ok(node)
    }

    // ---- what ends each step

    /// The node acts on what was committed: each primary that waits for its branch starts, where that is current now.
    fn act(&mut self, alloc: Global, out: &mut Outputs) -> Result<(), StepRefused>
        ensures node { OnOk result (self.new ≡ (act (record { node = self.old; outs = out.old })).node) }
        ensures out { OnOk result (out.new ≡ (act (record { node = self.old; outs = out.old })).outs) }
        ensures ends { IsErrOf result StepRefused.NumbersEnd → IsTrue (act_ends_numbers self.old (viewed self.old.log)) }
        ensures goes { OnOk result (act_ends_numbers self.old (viewed self.old.log) ≡ false) }
    {
        let Some(Viewed { first, results }) = self.log.catch_up(alloc)? else {
            return Ok(());
        };
        out.push(Output::Viewed { first, results })?;
        self.start(alloc)?;
        Ok(())
    }

    /// Each primary that waits for its branch starts, where that is current.
    fn start(&mut self, alloc: Global) -> Result<(), StepRefused>
        ensures node { OnOk result (self.new ≡ with_started self.old) }
        ensures ends { IsErrOf result StepRefused.NumbersEnd → IsTrue (starts_end_numbers (table_of self.old.log) self.old.asking) }
        ensures goes { OnOk result (starts_end_numbers (table_of self.old.log) self.old.asking ≡ false) }
    {
        start_in(
            alloc,
            self.me,
            &self.log,
            &mut self.asking,
            &mut self.executions,
            &mut self.store,
        )?;
        Ok(())
    }

    /// Each execution answers the operations that are decided.
    fn decide(&mut self, out: &mut Outputs) -> Result<(), OutOfMemory>
        ensures node { OnOk result
            (self.new ≡ (decide_step (record { node = self.old; outs = out.old })).node) }
        ensures out { OnOk result
            (out.new ≡ (decide_step (record { node = self.old; outs = out.old })).outs) }
    {
        decide(&mut self.executions, out)?;
        Ok(())
    }
}
