//! The log of a table and the table, kept together.
ghost use Rattle.std.specs.Prelude.{◌≡◌, ◌+◌, ◌<◌, ◌≤◌, ◌↔◌, ◌&&◌, length, nat_lt, IsTrue, IsFalse, IfOk, OnOk, OnErr, IsErrOf, Err};
ghost use Rattle.raft_vote.specs.Rows.{is_leader};
ghost use Rattle.raft_node.specs.Committed.{KeepsCommitted};
ghost use Rattle.raft_node.specs.Rows.{is_full, ends_numbers};
ghost use Rattle.raft_node.specs.declared.input.RaftInput.TheVariants.{Tick, Deliver};
ghost use Rattle.table_log.specs.Fitting.{fits, changes_of};
ghost use Rattle.table_log.specs.Logs.{table_of, begun_log, restarted, may_take, log_step, with_proposed, result_at, acted_once, caught_up, viewed};

use crate::fitting::message_fits;
use contract_types::{Applied, Change, Results, TableConfig, TableState, Viewed};
use memory::OutOfMemory;
use raft_node::{LOG_LIMIT, ProposeRefused, RaftInput, RaftKept, RaftNode};
use raft_vote::{Log, RaftEntry, RaftMessage};
use region_map::{NodeId, NodeSet, StepRefused};
use std::alloc::Global;
use std::marker::Model;
use table_apply::apply;

/// The log of a table at one node, and the table that follows from it.
///
/// The node of the log goes on by `step` and `propose`; what it then has committed is its view. The table goes on
/// by `catch_up` alone, which acts on the changes up to the view.
#[derive(Drop)]
pub struct TableLog {
    config: TableConfig,
    me: NodeId,
    raft: RaftNode<Change>,
    table: TableState,
    acted: u64,
}

impl Model for TableLog {
    ghost use Rattle.table_log.specs.Logs.{LogState, IsFollowed};

    ghost Value = { LogState };

    ghost view = { λ a. record { config = a.config; raft = a.raft; acted = a.acted } };

    ghost invariant = { λ a. IsFollowed a.me (record { config = a.config; raft = a.raft; acted = a.acted }) a.table };
}

impl TableLog {
    /// The log of a table as it begins: term 0, no vote and no entries. The nodes are those of the configuration.
    pub fn begin(alloc: Global, config: TableConfig, me: NodeId) -> Result<TableLog, OutOfMemory>
        requires me { me.0 < config.nodes }
        requires few { config.nodes ≤ 64 }
        ensures { IfOk result (λ log. log ≡ begun_log config me) }
    {
        let kept = RaftKept {
            term: 0,
            vote: None,
            log: Log::new(alloc),
            view: 0,
        };
        let raft = RaftNode::begin(alloc, me, config.nodes(), kept)?;
        let table = TableState::begin(alloc, config.copy(alloc)?)?;
        Ok(TableLog {
            config,
            me,
            raft,
            table,
            acted: 0,
        })
    }

    /// The log after a crash: its term, its vote, its entries and its view stay, and so does the table.
    pub fn restart(self, alloc: Global) -> Result<TableLog, OutOfMemory>
        ensures { IfOk result (λ log. log ≡ restarted self) }
    {
        let TableLog {
            config,
            me,
            raft,
            table,
            acted,
        } = self;
        let raft = RaftNode::begin(alloc, me, config.nodes(), raft.into_kept())?;
        Ok(TableLog {
            config,
            me,
            raft,
            table,
            acted,
        })
    }

    // ---- what it knows

    /// What the table began with.
    pub fn config(&self) -> &TableConfig
        ensures value { result.now ≡ self.now.config }
        ensures few { self.now.config.nodes ≤ 64 }
    {
        &self.config
    }

    /// The node's number.
    pub fn me(&self) -> NodeId
        ensures value { result ≡ self.now.raft.votes.me }
        ensures node { result.0 < self.now.config.nodes }
    {
        self.me
    }

    /// The table that follows from the log up to the index that was acted on.
    pub fn table(&self) -> &TableState
        ensures value { result.now ≡ table_of self.now }
        ensures hashes { result.now.config.hashes ≡ self.now.config.hashes }
    {
        &self.table
    }

    /// Up to which index the table follows the log.
    pub fn acted(&self) -> u64
        ensures value { result ≡ self.now.acted }
        ensures within { result ≤ self.now.raft.view }
    {
        self.acted
    }

    /// How far the log is committed, as the node knows.
    pub fn view(&self) -> u64
        ensures value { result ≡ self.now.raft.view }
        ensures within { result ≤ length self.now.raft.log }
    {
        self.raft.committed()
    }

    /// Whether there is something that was committed and not acted on yet.
    pub fn has_news(&self) -> bool
        ensures { result ≡ nat_lt self.now.acted self.now.raft.view }
    {
        self.acted < self.raft.committed()
    }

    /// The index of the last entry, and 0 where there is none.
    pub fn last_index(&self) -> u64
        ensures { result ≡ length self.now.raft.log }
    {
        self.raft.log().len() as u64
    }

    pub fn term(&self) -> u64
        ensures { result ≡ self.now.raft.votes.term }
    {
        self.raft.term()
    }

    /// Whom it knows to lead its term.
    pub fn leader(&self) -> Option<NodeId>
        ensures { result ≡ self.now.raft.votes.leader }
    {
        self.raft.leader()
    }

    pub fn is_leader(&self) -> bool
        ensures { result ≡ is_leader self.now.raft.votes.role }
    {
        self.raft.is_leader()
    }

    /// Whether the log takes no more changes from `propose`.
    pub fn is_full(&self) -> bool
        ensures { result ≡ is_full self.now.raft.log }
    {
        self.last_index() >= LOG_LIMIT
    }

    // ---- what it is given

    /// Whether a change may be proposed: its maps have as many hashes as the table.
    pub fn fits(&self, change: &Change) -> bool
        ensures { result ≡ fits self.now.config.hashes change.now }
    {
        crate::fitting::fits(self.config.hashes(), change)
    }

    /// Whether `step` may be given a message from this sender. In a run each one that was sent may.
    pub fn takes(&self, from: NodeId, message: &RaftMessage<Change>) -> bool
        ensures { result ≡ may_take self.now (Deliver from message.now) }
    {
        self.raft.takes(from, message) && message_fits(self.config.hashes(), message)
    }

    /// Whether a tick would need a term or an index that is no number. `step` refuses just these.
    pub fn ends_at_tick(&self, unseen: &NodeSet) -> bool
        ensures { result ≡ ends_numbers self.now.raft (Tick unseen.now) }
    {
        self.raft.ends_at_tick(unseen)
    }

    /// Whether a message would need a term or an index that is no number. `step` refuses just these.
    pub fn ends_at(&self, from: NodeId, message: &RaftMessage<Change>) -> bool
        requires { IsTrue (may_take self.now (Deliver from message.now)) }
        ensures { result ≡ ends_numbers self.now.raft (Deliver from message.now) }
    {
        self.raft.ends_at(from, message)
    }

    /// Takes one step of the log, and gives what it sends. At a refusal the log is gone. The table stays.
    pub fn step(
        self,
        alloc: Global,
        input: RaftInput<Change>,
    ) -> Result<(TableLog, Vec<(NodeId, RaftMessage<Change>)>), StepRefused>
        requires { IsTrue (may_take self input) }
        ensures ok { IfOk result (λ step. record { log = step.0; sent = step.1.items } ≡ log_step self input) }
        ensures numbers { IsErrOf result StepRefused.NumbersEnd ↔ IsTrue (ends_numbers self.raft input) }
        ensures committed { IfOk result (λ step. KeepsCommitted self.raft step.0.raft) }
        ensures table { IfOk result (λ step. table_of step.0 ≡ table_of self) }
    {
        let TableLog {
            config,
            me,
            mut raft,
            table,
            acted,
        } = self;
        let sent = raft.step(alloc, input)?;
        let log = TableLog {
            config,
            me,
            raft,
            table,
            acted,
        };
        Ok((log, sent))
    }

    /// Appends a change where it leads, and gives its index. The table stays.
    pub fn propose(&mut self, change: Change) -> Result<u64, ProposeRefused<Change>>
        requires { IsTrue (fits self.old.config.hashes change) }
        ensures ok { IfOk result (λ index. (self.new ≡ with_proposed self.old change) × (index ≡ length self.new.raft.log)) }
        ensures not_leader { (result ≡ Err (ProposeRefused.NotLeader change)) ↔ IsFalse (is_leader self.old.raft.votes.role) }
        ensures full { (result ≡ Err (ProposeRefused.LogFull change)) ↔ IsTrue (is_leader self.old.raft.votes.role && is_full self.old.raft.log) }
        ensures err { OnErr result (self.new ≡ self.old) }
        ensures committed { KeepsCommitted self.old.raft self.new.raft }
        ensures table { table_of self.new ≡ table_of self.old }
    {
        self.raft.propose(change)
    }

    // ---- acting on what was committed

    /// Acts on the next change, and gives it with what became of it.
    fn act(&mut self, alloc: Global) -> Result<(Change, Applied), OutOfMemory>
        requires { self.old.acted < self.old.raft.view }
        ensures ok { OnOk result (self.new ≡ acted_once self.old) }
        ensures result_is { IfOk result (λ r. r ≡ result_at self.old.config (changes_of self.old.raft.log) self.old.acted) }
        ensures err { OnErr result (self.new ≡ self.old) }
    {
        let _view = self.raft.committed();
        let change = self.raft.log()[self.acted as usize].change.copy(alloc)?;
        let applied = apply(alloc, &mut self.table, self.acted + 1, &change)?;
        self.acted += 1;
        Ok((change, applied))
    }

    /// Acts on each change up to the view that was not acted on yet, in order, and gives what became of them; gives
    /// nothing where there is none.
    pub fn catch_up(&mut self, alloc: Global) -> Result<Option<Viewed>, OutOfMemory>
        ensures log { OnOk result (self.new ≡ caught_up self.old) }
        ensures viewed { IfOk result (λ r. r ≡ viewed self.old) }
    {
        let (acted, view) = (self.acted(), self.view());
        if acted == view {
            return Ok(None);
        }
        let mut items = Vec::new(alloc);
        for _ in acted..view {
            items.push(self.act(alloc)?)?;
        }
        Ok(Some(Viewed {
            first: acted + 1,
            results: Results::from(items),
        }))
    }
}
